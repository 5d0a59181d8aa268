//! The events of an access in a machine whose components a mesh joins, or none.
ghost use Rattle.std.proofs.Props.{props};
ghost use Rattle.std.specs.Prelude.{◌≡◌, ◌<◌, Some, length, slice_get};
ghost use Rattle.event_graph.specs.PathInRange.{IsAccessPath};
ghost use Rattle.noc_mesh.specs.NetTiming.{net_pieces, net_time};

use crate::{course, events, laws};
use event_graph::{AccessPath, Expand, Piece, Plain};
use machine_desc::Machine;
use zs_num::{Entry, Outcome};

/// The expansion of accesses into events where they cross the mesh of the machine, if it has one.
#[derive(Drop)]
pub struct Net {
    pub path: AccessPath,
    pub ghost in_range: { IsAccessPath path } by { Prim.hlevel props },
}

impl Net {
    ghost use Rattle.std.specs.Prelude.{◌≡◌, ◌&&◌, is_none};
    ghost use Rattle.machine_desc.specs.Machine.{IsMachine};
    ghost use Rattle.event_graph.specs.AccessPaths.{path_of};

    /// The expansion of this machine.
    pub fn of(machine: &Machine) -> Net
        requires { IsMachine machine.now }
        ensures { result.path ≡ path_of machine.now }
    {
        Net {
            path: AccessPath::of(machine),
        }
    }

    /// Whether it is the plain expansion, which is quicker to ask.
    #[inline(always)]
    fn is_plain(&self) -> bool
        ensures { result ≡ (is_none self.now.path.mesh && is_none self.now.path.dram) }
    {
        self.path.mesh.is_none() && self.path.dram.is_none()
    }

    /// The plain expansion.
    #[inline(always)]
    fn plain(&self) -> Plain
        ensures { result.path ≡ self.now.path }
    {
        Plain { path: self.path }
    }
}

/// The time of an access that goes over the mesh, or to open rows. It takes the access by value:
/// where there is no such way, nobody has to put it together.
#[inline(never)]
fn time_beyond(path: &AccessPath, entry: Entry) -> u64
    requires { IsAccessPath path.now }
    ensures { result ≡ net_time path.now entry }
{
    course::ended(path, &entry).end
}

/// How many events such an access has.
#[inline(never)]
fn count_beyond(path: &AccessPath, entry: Entry) -> u16
    requires { IsAccessPath path.now }
    ensures { result ≡ length (net_pieces path.now entry) }
{
    course::ended(path, &entry).events
}

/// The event at a place of such an access.
#[inline(never)]
fn piece_beyond(path: &AccessPath, entry: Entry, place: u16) -> Piece
    requires path { IsAccessPath path.now }
    requires place { place < length (net_pieces path.now entry) }
    ensures { slice_get (net_pieces path.now entry) place ≡ Some result }
{
    match entry.outcome {
        Outcome::Hit => unreachable!(),
        Outcome::Upgrade { others } | Outcome::L2 { others } => {
            events::answered(path, &entry, others, place)
        }
        Outcome::Miss { dirty_victim } => events::missed(path, &entry, dirty_victim, place),
    }
}

impl Expand for Net {
    ghost use Rattle.noc_mesh.specs.NetTiming.{net_pieces, net_time};
    ghost use Rattle.noc_mesh.specs.NetFloors.{net_floor};
    ghost use Rattle.noc_mesh.specs.NetLaws.{net_time_at_least_one, net_time_small, net_parents_come_before, net_only_first_starts_alone, net_parents_finish_before, net_ends_with_access, net_floors_are_times};

    ghost pieces = { λ x e. net_pieces x.path e };

    ghost time = { λ x e. net_time x.path e };

    ghost floors = { λ x. net_floor x.path };

    #[inline(always)]
    fn count(&self, entry: &Entry) -> u16 {
        laws::nets_without_a_mesh_are_plain();
        if self.is_plain() {
            self.plain().count(entry)
        } else {
            count_beyond(&self.path, *entry)
        }
    }

    #[inline(always)]
    fn piece(&self, entry: &Entry, place: u16) -> Piece {
        laws::nets_without_a_mesh_are_plain();
        if self.is_plain() {
            self.plain().piece(entry, place)
        } else {
            let piece = piece_beyond(&self.path, *entry, place);
            Piece {
                component: piece.component,
                kind: piece.kind,
                offset: piece.offset,
                time: piece.time,
                first: piece.first,
                second: piece.second,
            }
        }
    }

    #[inline(always)]
    fn time(&self, entry: &Entry) -> u64 {
        laws::nets_without_a_mesh_are_plain();
        if let Outcome::Hit = entry.outcome {
            self.path.head(entry)
        } else if self.is_plain() {
            self.plain().time(entry)
        } else {
            time_beyond(&self.path, *entry)
        }
    }

    fn hit_time(&self, fetch: bool) -> u64 {
        self.path.head_of(fetch)
    }

    ghost time_at_least_one = { λ x e. net_time_at_least_one x.path x.in_range e };

    ghost time_small = { λ x e. net_time_small x.path x.in_range e };

    ghost parents_come_before = { λ x e. net_parents_come_before x.path x.in_range e };

    ghost only_first_starts_alone = { λ x e. net_only_first_starts_alone x.path x.in_range e };

    ghost parents_finish_before = { λ x e. net_parents_finish_before x.path x.in_range e };

    ghost ends_with_access = { λ x e. net_ends_with_access x.path x.in_range e };

    ghost floors_are_times = { λ x e. net_floors_are_times x.path x.in_range e };
}
