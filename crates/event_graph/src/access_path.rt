//! What an access goes through.
ghost use Rattle.std.specs.Prelude.{◌≡◌};
ghost use Rattle.machine_desc.specs.Machine.{IsMachine};
ghost use Rattle.zs_num.specs.declared.request.Request.{Request};
ghost use Rattle.zs_num.specs.Request.{is_fetch};
ghost use Rattle.event_graph.specs.AccessPaths.{head_time, path_of};
ghost use Rattle.event_graph.specs.PathInRange.{IsAccessPath};
ghost use Rattle.event_graph.specs.Timing.{bank_component, controller_component};

use division::remainder;
use machine_desc::{Controllers, Dram, L1, L2, Machine, Mesh};
use zs_num::Entry;

/// The parts of a machine on the way of an access. How long an access takes, and of which events it
/// is made, depends on nothing else of the machine.
#[derive(Clone, Copy)]
pub struct AccessPath {
    /// Each core's data cache.
    pub l1: L1,
    /// Each core's instruction cache, if the cores have one.
    pub l1i: Option<L1>,
    pub l2: L2,
    pub controllers: Controllers,
    /// The mesh that accesses cross, if there is one.
    pub mesh: Option<Mesh>,
    /// The banks behind each controller, if they keep rows open.
    pub dram: Option<Dram>,
}

impl AccessPath {
    /// What an access to this machine goes through.
    pub fn of(machine: &Machine) -> AccessPath
        requires { IsMachine machine.now }
        ensures value { result ≡ path_of machine.now }
        ensures in_range { IsAccessPath result }
    {
        AccessPath {
            l1: machine.l1,
            l1i: machine.l1i,
            l2: machine.l2,
            controllers: machine.controllers,
            mesh: machine.mesh,
            dram: machine.dram,
        }
    }

    /// The time that an access takes first, in cycles: in the instruction cache, if it is a fetch
    /// and there is one, and else in the data cache.
    #[inline(always)]
    pub fn head(&self, entry: &Entry) -> u64
        ensures { result ≡ head_time self.now entry.now.request }
    {
        u64::from(match self.l1i {
            Some(l1i) if entry.request.is_fetch() => l1i.latency,
            _ => self.l1.latency,
        })
    }

    /// The same of a fetch, or of any other access.
    pub fn head_of(&self, fetch: bool) -> u64
        ensures { (request : Request) → is_fetch request ≡ fetch → head_time self.now request ≡ result }
    {
        u64::from(match self.l1i {
            Some(l1i) if fetch => l1i.latency,
            _ => self.l1.latency,
        })
    }

    /// The bank that has the line of an access, which is the component of that number.
    #[inline(always)]
    pub fn bank(&self, entry: &Entry) -> u16
        requires { IsAccessPath self.now }
        ensures { result ≡ bank_component self.now.l2 entry.now }
    {
        remainder(entry.request.line(), u64::from(self.l2.banks)) as u16
    }

    /// The component that is the controller behind the bank of an access.
    #[inline(always)]
    pub fn controller(&self, entry: &Entry) -> u16
        requires { IsAccessPath self.now }
        ensures { result ≡ controller_component self.now.l2 self.now.controllers entry.now }
    {
        let count = u64::from(self.controllers.count);
        let number = remainder(u64::from(self.bank(entry)), count);
        self.l2.banks + number as u16
    }
}
