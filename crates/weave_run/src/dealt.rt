//! Components by their domains, and back in order of their numbers.
ghost use Rattle.std.specs.Prelude.{◌≡◌, ◌≤◌, ◌<◌, [], All, IfOk, length};
ghost use Rattle.std.specs.Vec.{vec_capacity};
ghost use Rattle.weave_run.specs.Dealing.{AreDealt, AreEmptyRooms, IsDealing, items_of};

use component::{Component, Comps};
use std::alloc::Global;
use zs_num::NoMemory;

/// An empty list for each domain, with room for so many components.
pub(crate) fn rooms<C: Component>(
    alloc: Global,
    count: usize,
    domains: u16,
) -> Result<Vec<Vec<C>>, NoMemory>
    ensures { IfOk result (λ rooms. AreEmptyRooms domains count rooms.items) }
{
    let mut rooms = Vec::with_capacity(alloc, usize::from(domains))?;
    for _domain in 0..domains {
        rooms.push(Vec::with_capacity(alloc, count)?)?;
    }
    Ok(rooms)
}

/// Puts each component behind those of its domain. What comes back is empty, with the room that the
/// components had.
pub(crate) fn deal<C: Component>(comps: Comps<C>, places: &[u16], rooms: &mut [Vec<C>]) -> Vec<C>
    requires count { length places.now ≡ length comps }
    requires rooms { AreEmptyRooms (length rooms.old) (length places.now) rooms.old }
    requires there { All (λ place. place < length rooms.old) places.now }
    ensures dealt { AreDealt places.now comps (items_of rooms.new) }
    ensures rooms { length rooms.new ≡ length rooms.old }
    ensures empty { result.items ≡ [] }
    ensures room { length places.now ≤ vec_capacity result }
{
    let mut list = comps.into_list();
    for index in 0..places.len() {
        let one = list.remove(0);
        rooms[usize::from(places[index])].push_reserved(one);
    }
    list
}

/// Takes the components of all domains back in order of their numbers.
pub(crate) fn gather<C: Component>(
    mut list: Vec<C>,
    places: &[u16],
    lists: &mut [Vec<C>],
) -> Comps<C>
    requires empty { list.items ≡ [] }
    requires room { length places.now ≤ vec_capacity list }
    requires there { All (λ place. place < length lists.old) places.now }
    requires dealing { IsDealing places.now (items_of lists.old) }
    ensures { (comps : _) → length comps ≡ length places.now → AreDealt places.now comps (items_of lists.old) → result ≡ comps }
{
    for index in 0..places.len() {
        let one = lists[usize::from(places[index])].remove(0);
        list.push_reserved(one);
    }
    Comps::of(list)
}
