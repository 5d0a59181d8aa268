//! Who is told the steps of a run.
ghost use Rattle.std.specs.Prelude.{◌≡◌, [], true};
ghost use Rattle.machine_desc.specs.Machine.{IsMachine};
ghost use Rattle.zprof.specs.ProfileFiles.{profile_of};

use last_jumps::LastJumps;
use line_use::LineUse;
use machine_desc::{Machine, component_count};
use noc_mesh::Net;
use profile::Profile;
use std::alloc::Global;
use tracers::Both;

/// A profile, the bytes of lines that cores used, and their last jumps.
pub type Watched = Both<Profile, Both<LineUse, LastJumps>>;

/// Those of no steps, with so many intervals in each row of the series.
pub fn watched(alloc: Global, machine: &Machine, every: u32) -> Watched
    requires { IsMachine machine.now }
    ensures { result ≡ record { first = profile_of machine.now every []; second = record { first = []; second = []; is_whole = true }; is_whole = true } }
{
    let net = Net::of(machine);
    let comps = usize::from(component_count(machine));
    let profile = Profile::new(alloc, net, machine.cores, comps, every);
    let uses = LineUse::new(alloc);
    let jumps = LastJumps::new(alloc, machine.cores);
    Both::new(profile, Both::new(uses, jumps))
}
