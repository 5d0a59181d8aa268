//! Who is told the steps of a run.
ghost use Rattle.std.specs.Prelude.{◌≡◌, ◌+◌, ◌*◌, ◌^◌, ◌≤◌, ◌++◌, ◌∷◌, List, [], OnOk};
ghost use Rattle.trace.specs.Trace.{Step, Accessed, Ended, Executed, stretch_steps};

use event_graph::{FiredList, Graph};
use shard::Leaving;
use zs_num::{Entries, Entry, NoMemory};

/// Who is told the steps of a run, one after the other.
pub trait Tracer {
    /// The steps that it was told.
    ghost steps: { Self → List Step };

    /// What no step changes, as the machine whose run it follows.
    ghost Fixed: { Type 0 } = { Unit {0} };

    ghost fixed: { Self → Self.Fixed };

    /// A core executed the instruction at `pc`, and counted it.
    fn executed(&mut self, core: u16, pc: u64) -> Result<(), NoMemory>
        ensures told { OnOk result (steps self.new ≡ steps self.old ++ Executed core pc ∷ []) }
        ensures fixed { fixed self.new ≡ fixed self.old };

    /// A core executed so many instructions that follow each other, the first of them at `pc`, and
    /// counted them.
    fn executed_all(&mut self, core: u16, pc: u64, count: u64) -> Result<(), NoMemory>
        requires { pc + 4 * count ≤ 2 ^ 48 }
        ensures told { OnOk result (steps self.new ≡ steps self.old ++ stretch_steps core pc count) }
        ensures fixed { fixed self.new ≡ fixed self.old };

    /// An access of the instruction at `pc`, be it its fetch, had this entry, and these lines left
    /// caches for it.
    fn accessed(&mut self, pc: u64, entry: &Entry, leaving: Leaving) -> Result<(), NoMemory>
        ensures told { OnOk result (steps self.new ≡ steps self.old ++ Accessed pc entry.now leaving ∷ []) }
        ensures fixed { fixed self.new ≡ fixed self.old };

    /// An interval ended. These are its accesses, their events, when these fired, and how many
    /// cycles each core waited.
    fn ended(
        &mut self,
        entries: &Entries,
        graph: &Graph,
        fired: &FiredList,
        delays: &[u64],
    ) -> Result<(), NoMemory>
        ensures told { OnOk result (steps self.new ≡ steps self.old ++ Ended (record { entries = entries.now; events = graph.now; fired = fired.now; delays = delays.now }) ∷ []) }
        ensures fixed { fixed self.new ≡ fixed self.old };
}
