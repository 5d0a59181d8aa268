//! Routes on meshes: worked ones.
ghost use Rattle.std.specs.Prelude.{◌≡◌, ◌≤◌};
ghost use Rattle.machine_desc.specs.Machine.{IsMesh};

use machine_desc::Mesh;
use noc_mesh::route;
use std::process::Abort;

/// A mesh of so many nodes along x, and along y.
fn mesh(width: u16, height: u16) -> Mesh
    requires some_width { 1 ≤ width }
    requires few_width { width ≤ 8 }
    requires some_height { 1 ≤ height }
    requires few_height { height ≤ 8 }
    ensures mesh { IsMesh result }
    ensures width { result.width ≡ width }
    ensures height { result.height ≡ height }
{
    Mesh {
        width,
        height,
        hop: 3,
        occupancy: 2,
    }
}

/// Checks the link at a place of a route.
fn is_link(rt: &impl Abort, found: Option<u16>, wanted: Option<u16>) {
    assert!(rt; found == wanted);
}

#[test]
fn two_nodes_are_joined_by_a_link_each_way(rt: HostRuntime) {
    let pair = mesh(2, 1);
    is_link(&rt, route(&pair, 0, 1, 0), Some(0));
    is_link(&rt, route(&pair, 0, 1, 1), None);
    is_link(&rt, route(&pair, 1, 0, 0), Some(5));
    is_link(&rt, route(&pair, 1, 1, 0), None);
}

#[test]
fn a_route_goes_along_x_first(rt: HostRuntime) {
    let square = mesh(3, 3);
    is_link(&rt, route(&square, 0, 8, 0), Some(0));
    is_link(&rt, route(&square, 0, 8, 1), Some(4));
    is_link(&rt, route(&square, 0, 8, 2), Some(11));
    is_link(&rt, route(&square, 0, 8, 3), Some(23));
    is_link(&rt, route(&square, 0, 8, 4), None);
    is_link(&rt, route(&square, 8, 0, 0), Some(33));
    is_link(&rt, route(&square, 8, 0, 2), Some(26));
}
