//! The events of an access in a machine whose banks and controllers are joined without a network.
ghost use Rattle.std.proofs.Props.{props};
ghost use Rattle.event_graph.specs.PathInRange.{IsAccessPath};

use crate::{AccessPath, Expand, Piece};
use component::Kind;
use machine_desc::Machine;
use zs_num::{Entry, Outcome};

/// The expansion of accesses into events where banks and controllers are joined without a network.
#[derive(Drop)]
pub struct Plain {
    pub path: AccessPath,
    pub ghost in_range: { IsAccessPath path } by { Prim.hlevel props },
}

impl Plain {
    ghost use Rattle.std.specs.Prelude.{◌≡◌, ◌<◌};
    ghost use Rattle.machine_desc.specs.Machine.{IsMachine};
    ghost use Rattle.event_graph.specs.AccessPaths.{head_time, path_of};
    ghost use Rattle.event_graph.specs.Timing.{bank_component, controller_component};
    ghost use Rattle.event_graph.specs.PlainTiming.{memory_time, look_up, read, write, fill};

    /// The expansion of this machine.
    pub fn of(machine: &Machine) -> Plain
        requires { IsMachine machine.now }
        ensures { result.path ≡ path_of machine.now }
    {
        Plain {
            path: AccessPath::of(machine),
        }
    }

    #[inline(always)]
    fn look_up(&self, entry: &Entry, others: bool) -> Piece
        ensures { result ≡ look_up (head_time self.now.path entry.now.request) self.now.path.l2 self.now.path.controllers (bank_component self.now.path.l2 entry.now) (controller_component self.now.path.l2 self.now.path.controllers entry.now) others }
    {
        let latency = u64::from(self.path.l2.latency);
        Piece {
            component: self.path.bank(entry),
            kind: if others { Kind::Remote } else { Kind::Lookup },
            offset: self.path.head(entry),
            time: if others {
                latency + u64::from(self.path.l2.remote)
            } else {
                latency
            },
            first: None,
            second: None,
        }
    }

    #[inline(always)]
    fn read(&self, entry: &Entry) -> Piece
        ensures { result ≡ read (head_time self.now.path entry.now.request) self.now.path.l2 self.now.path.controllers (bank_component self.now.path.l2 entry.now) (controller_component self.now.path.l2 self.now.path.controllers entry.now) }
    {
        Piece {
            component: self.path.controller(entry),
            kind: Kind::Read,
            offset: self.path.head(entry) + u64::from(self.path.l2.latency),
            time: u64::from(self.path.controllers.read),
            first: Some(0),
            second: None,
        }
    }

    #[inline(always)]
    fn write(&self, entry: &Entry) -> Piece
        ensures { result ≡ write (head_time self.now.path entry.now.request) self.now.path.l2 self.now.path.controllers (bank_component self.now.path.l2 entry.now) (controller_component self.now.path.l2 self.now.path.controllers entry.now) }
    {
        Piece {
            component: self.path.controller(entry),
            kind: Kind::Write,
            offset: self.path.head(entry) + u64::from(self.path.l2.latency),
            time: u64::from(self.path.controllers.write),
            first: Some(0),
            second: None,
        }
    }

    /// How long a miss waits for memory; `dirty`: a line is written back beside the read.
    #[inline(always)]
    fn memory_time(&self, dirty: bool) -> u64
        ensures { result ≡ memory_time self.now.path.controllers dirty }
    {
        if dirty {
            u64::from(self.path.controllers.read.max(self.path.controllers.write))
        } else {
            u64::from(self.path.controllers.read)
        }
    }

    #[inline(always)]
    fn fill(&self, entry: &Entry, dirty: bool) -> Piece
        ensures { result ≡ fill (head_time self.now.path entry.now.request) self.now.path.l2 self.now.path.controllers (bank_component self.now.path.l2 entry.now) (controller_component self.now.path.l2 self.now.path.controllers entry.now) dirty }
    {
        Piece {
            component: self.path.bank(entry),
            kind: Kind::Fill,
            offset: self.path.head(entry)
                + u64::from(self.path.l2.latency)
                + self.memory_time(dirty),
            time: u64::from(self.path.l2.fill),
            first: Some(1),
            second: if dirty { Some(2) } else { None },
        }
    }
}

impl Expand for Plain {
    ghost use Rattle.event_graph.specs.AccessPaths.{head_time};
    ghost use Rattle.event_graph.specs.Timing.{bank_component, controller_component};
    ghost use Rattle.event_graph.specs.PlainTiming.{access_time, pieces_of};
    ghost use Rattle.event_graph.specs.Floors.{plain_floor};
    ghost use Rattle.event_graph.specs.PlainLaws.{plain_time_at_least_one, plain_time_small, plain_parents_come_before, plain_only_first_starts_alone, plain_parents_finish_before, plain_ends_with_access, plain_floors_are_times};

    ghost pieces = { λ x e. pieces_of x.path e };

    ghost time = { λ x e. access_time x.path e };

    ghost floors = { λ x. plain_floor x.path.l2 x.path.controllers };

    #[inline(always)]
    fn count(&self, entry: &Entry) -> u16 {
        match entry.outcome {
            Outcome::Hit => 0,
            Outcome::Upgrade { .. } | Outcome::L2 { .. } => 1,
            Outcome::Miss {
                dirty_victim: false,
            } => 3,
            Outcome::Miss { dirty_victim: true } => 4,
        }
    }

    #[inline(always)]
    fn piece(&self, entry: &Entry, place: u16) -> Piece {
        match entry.outcome {
            Outcome::Hit => unreachable!(),
            Outcome::Upgrade { others } | Outcome::L2 { others } => self.look_up(entry, others),
            Outcome::Miss { dirty_victim } => match place {
                0 => self.look_up(entry, false),
                1 => self.read(entry),
                2 if dirty_victim => self.write(entry),
                _ => self.fill(entry, dirty_victim),
            },
        }
    }

    fn time(&self, entry: &Entry) -> u64 {
        let head = self.path.head(entry);
        let latency = u64::from(self.path.l2.latency);
        match entry.outcome {
            Outcome::Hit => head,
            Outcome::Upgrade { others } | Outcome::L2 { others } => {
                head + self.look_up(entry, others).time
            }
            Outcome::Miss { dirty_victim } => {
                head + latency + self.memory_time(dirty_victim) + u64::from(self.path.l2.fill)
            }
        }
    }

    fn hit_time(&self, fetch: bool) -> u64 {
        self.path.head_of(fetch)
    }

    ghost time_at_least_one = { λ x e. plain_time_at_least_one x.path x.in_range e };

    ghost time_small = { λ x e. plain_time_small x.path x.in_range e };

    ghost parents_come_before = { λ x e. plain_parents_come_before (head_time x.path e.request) x.path.l2 x.path.controllers (bank_component x.path.l2 e) (controller_component x.path.l2 x.path.controllers e) e.outcome };

    ghost only_first_starts_alone = { λ x e. plain_only_first_starts_alone (head_time x.path e.request) x.path.l2 x.path.controllers (bank_component x.path.l2 e) (controller_component x.path.l2 x.path.controllers e) e.outcome };

    ghost parents_finish_before = { λ x e. plain_parents_finish_before (head_time x.path e.request) x.path.l2 x.path.controllers (bank_component x.path.l2 e) (controller_component x.path.l2 x.path.controllers e) e.outcome };

    ghost ends_with_access = { λ x e. plain_ends_with_access (head_time x.path e.request) x.path.l2 x.path.controllers (bank_component x.path.l2 e) (controller_component x.path.l2 x.path.controllers e) e.outcome };

    ghost floors_are_times = { λ x entry. plain_floors_are_times x.path x.in_range entry };
}
