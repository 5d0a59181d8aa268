//! The recorded orders of several intervals, which the workers tell beside each other.
ghost use Rattle.std.specs.Prelude.{◌≡◌, ◌+◌, ◌<◌, ◌≤◌, ℕ, [], All, length, map, slice_index_or, vec_capacity, vec_len, IfOk, OnOk};
ghost use Rattle.crew.specs.Crews.{free_seats};
ghost use Rattle.bound_workers.specs.Orderings.{HasOrdered};
ghost use Rattle.bound_workers.specs.Works.{IsOrder};
ghost use Rattle.bound_workers.specs.declared.ordering.Ordering.{Ordering};
ghost use Rattle.bound_workers.specs.declared.work.Work.TheVariants.{Order};

use crate::work::Work;
use access_record::{OrderBuffers, Unordered};
use crew::{Asker, Post, do_all};
use std::alloc::Global;
use std::sync::Wait;
use zs_host::Gate;
use zs_num::NoMemory;

/// An interval whose recorded order a worker is asked for, and the order once it was told. It is
/// not told where memory runs out.
#[derive(Drop)]
pub struct Ordering {
    pub alloc: Global,
    pub unordered: Unordered,
    pub buffers: OrderBuffers,
    pub told: Option<Vec<u16>>,
}

impl Ordering {
    /// Tells the order.
    pub(crate) fn tell(self) -> Self
        ensures { HasOrdered self result }
    {
        let Ordering {
            alloc,
            unordered,
            mut buffers,
            told: _,
        } = self;
        let told = unordered.cores(alloc, &mut buffers).ok();
        Ordering {
            alloc,
            unordered,
            buffers,
            told,
        }
    }
}

/// All workers tell orders: the first one's here, and each later one's at the post of the number
/// before its own, or here where that takes none.
pub fn tell_all<'a, R: Wait + Sync, G: Gate>(
    rt: &'a R,
    alloc: Global,
    posts: &[Post<Work<'a, R, G>>],
    askers: &mut [Asker<Work<'a, R, G>>],
    orders: &mut Vec<Ordering>,
) -> Result<(), NoMemory>
    requires askers { askers.old ≡ free_seats posts.now }
    requires few { vec_len orders.old ≤ length posts.now + 1 }
    ensures askers { askers.new ≡ askers.old }
    ensures count { OnOk result (vec_len orders.new ≡ vec_len orders.old) }
    ensures told { OnOk result ((i : ℕ) (d : Ordering) → i < vec_len orders.old → HasOrdered (slice_index_or orders.old.items i d) (slice_index_or orders.new.items i d)) }
{
    let mut jobs = jobs_of(alloc, orders)?;
    do_all(rt, posts, askers, &mut jobs);
    take_orders(jobs, orders);
    Ok(())
}

/// Each as what a worker is asked for.
fn jobs_of<'a, R: Wait + Sync, G: Gate>(
    alloc: Global,
    orders: &mut Vec<Ordering>,
) -> Result<Vec<Work<'a, R, G>>, NoMemory>
    ensures jobs { IfOk result (λ jobs. jobs.items ≡ map (λ o. Order o) orders.old.items) }
    ensures none { OnOk result (orders.new.items ≡ []) }
    ensures room { OnOk result (vec_capacity orders.new ≡ vec_capacity orders.old) }
{
    let mut jobs = Vec::with_capacity(alloc, orders.len())?;
    while !orders.is_empty() {
        jobs.push_reserved(Work::Order(orders.remove(0)));
    }
    Ok(jobs)
}

/// Takes them out, for which there is room.
fn take_orders<'a, R: Wait + Sync, G: Gate>(
    mut jobs: Vec<Work<'a, R, G>>,
    orders: &mut Vec<Ordering>,
)
    requires orders { All (λ w. IsOrder w) jobs.items }
    requires none { orders.old.items ≡ [] }
    requires room { vec_len jobs ≤ vec_capacity orders.old }
    ensures { map (λ o. Order o) orders.new.items ≡ jobs.entry.items }
{
    while !jobs.is_empty() {
        let Work::Order(order) = jobs.remove(0) else {
            unreachable!()
        };
        orders.push_reserved(order);
    }
}
