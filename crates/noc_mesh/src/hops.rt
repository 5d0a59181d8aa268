//! The hops of an access between two of its stops.
ghost use Rattle.std.specs.Prelude.{◌≡◌, ◌<◌, ◌≤◌, ◌+◌, ◌^◌, Some, length, slice_get};
ghost use Rattle.machine_desc.specs.Components.{nodes_of};
ghost use Rattle.machine_desc.specs.Machine.{IsMesh};
ghost use Rattle.event_graph.specs.PathInRange.{IsAccessPath};
ghost use Rattle.noc_mesh.specs.NetTiming.{hops, node_of as the_node_of};
ghost use Rattle.noc_mesh.specs.Passages.{Passage, passes};
ghost use Rattle.noc_mesh.specs.Standings.{behind_hops, hop_time_of, standing_of};

use crate::routes::{distance, route};
use crate::{Stage, Standing, Stop};
use component::Kind;
use event_graph::{AccessPath, Piece};
use machine_desc::{Mesh, node_count};
use zs_num::Entry;

/// At which node of a mesh a stop is.
fn node_of(path: &AccessPath, entry: &Entry, mesh: &Mesh, stop: Stop) -> u16
    requires path { IsAccessPath path.now }
    requires mesh { IsMesh mesh.now }
    ensures node { result ≡ the_node_of path.now entry.now mesh.now stop }
    ensures there { result < nodes_of mesh.now }
{
    let nodes = node_count(mesh);
    match stop {
        Stop::Core => entry.core % nodes,
        Stop::Bank => path.bank(entry) % nodes,
        Stop::Controller => {
            let number = path.controller(entry) - path.l2.banks;
            nodes - 1 - number % nodes
        }
    }
}

/// How many hops there are from a stop to another: 0 to 14, and 0 without a mesh.
fn hop_count(path: &AccessPath, entry: &Entry, from: Stop, to: Stop) -> u16
    requires { IsAccessPath path.now }
    ensures count { result ≡ length (hops path.now entry.now from to) }
    ensures few { result ≤ 14 }
{
    match &path.mesh {
        Some(mesh) => {
            let source = node_of(path, entry, mesh, from);
            distance(mesh, source, node_of(path, entry, mesh, to))
        }
        None => 0,
    }
}

/// How long a hop takes, in cycles: 1 to 256, and 0 without a mesh.
fn hop_time(path: &AccessPath) -> u64
    requires { IsAccessPath path.now }
    ensures time { result ≡ hop_time_of path.now }
    ensures quick { result ≤ 256 }
{
    match &path.mesh {
        Some(mesh) => u64::from(mesh.hop),
        None => 0,
    }
}

/// How far an access has come behind the hops from a stop to another.
pub(crate) fn past(
    path: &AccessPath,
    entry: &Entry,
    standing: Standing,
    from: Stop,
    to: Stop,
) -> Standing
    requires path { IsAccessPath path.now }
    requires few { standing.events ≤ 60 }
    requires soon { standing.end ≤ 2 ^ 20 }
    ensures { result ≡ behind_hops standing (length (hops path.now entry.now from to)) (hop_time_of path.now) }
{
    standing.behind_hops(hop_count(path, entry, from, to), hop_time(path))
}

/// What the hop at a place asks of its link.
fn hop_stage(path: &AccessPath, entry: &Entry, from: Stop, to: Stop, place: u16) -> Stage
    requires path { IsAccessPath path.now }
    requires place { place < length (hops path.now entry.now from to) }
    ensures stage { slice_get (hops path.now entry.now from to) place ≡ Some result }
    ensures quick { result.time ≤ 256 }
{
    match &path.mesh {
        Some(mesh) => {
            let source = node_of(path, entry, mesh, from);
            let target = node_of(path, entry, mesh, to);
            match route(mesh, source, target, place) {
                Some(link) => Stage {
                    component: path.l2.banks + path.controllers.count + link,
                    kind: Kind::Hop,
                    time: u64::from(mesh.hop),
                },
                None => unreachable!(),
            }
        }
        None => unreachable!(),
    }
}

/// The event of the hop at a place, of an access that had come so far before the first of them.
pub(crate) fn hop(
    path: &AccessPath,
    entry: &Entry,
    standing: Standing,
    from: Stop,
    to: Stop,
    place: u16,
) -> Piece
    requires path { IsAccessPath path.now }
    requires few { standing.events ≤ 60 }
    requires soon { standing.end ≤ 2 ^ 20 }
    requires place { place < length (hops path.now entry.now from to) }
    ensures { (p : Passage) → standing_of p ≡ standing → slice_get (passes p (hops path.now entry.now from to)).pieces (standing.events + place) ≡ Some result }
{
    standing.hop(hop_stage(path, entry, from, to, place), place)
}
