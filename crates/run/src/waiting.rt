//! Intervals whose recorded order is still to be told.
ghost use Rattle.std.specs.Prelude.{◌≡◌, ◌+◌, ◌<◌, ◌≤◌, ◌^◌, ◌++◌, ◌∷◌, [], All, length, vec_len, IfSome, OnOk};
ghost use Rattle.access_record.specs.Unordered.{order_of};
ghost use Rattle.crew.specs.Crews.{free_seats};
ghost use Rattle.run.specs.Waiting.{IsFirstPart, IsTurnList, lists_in, turns_in};

use crate::context::Context;
use access_log::Schedule;
use access_record::{BankLog, OrderBuffers, Unordered};
use bound_workers::{Ordering, Work, WorkBuffers, tell_all};
use crew::{Asker, Post};
use std::alloc::Global;
use std::sync::Wait;
use zs_host::Gate;
use zs_num::NoMemory;

/// How many intervals wait at most, whatever the number of workers.
const MOST: usize = 8;

/// The cores of an interval's accesses in recorded order, or the accesses whose order is still to be
/// told.
#[derive(Drop)]
pub(crate) enum Order {
    Told(Vec<u16>),
    Untold(Unordered),
}

/// The intervals behind those of the schedule, in order, whose recorded order is still to be told,
/// and memory that earlier ones have left to later ones.
#[derive(Drop)]
pub(crate) struct Waiting {
    pub orders: Vec<Ordering>,
    logs: Vec<Vec<BankLog>>,
    turns: Vec<Vec<u16>>,
    buffers: Vec<OrderBuffers>,
}

impl Waiting {
    /// No interval, and no memory.
    pub(crate) fn none(alloc: Global) -> Self
        ensures { result.orders.items ≡ [] }
    {
        Waiting {
            orders: Vec::new(alloc),
            logs: Vec::new(alloc),
            turns: Vec::new(alloc),
            buffers: Vec::new(alloc),
        }
    }

    /// Memory for the logs of an interval, if there is some; that for the turns of the next one goes
    /// to the workers.
    pub(crate) fn take_logs(&mut self, alloc: Global, buffers: &mut WorkBuffers) -> Vec<BankLog>
        ensures { self.new.orders ≡ self.old.orders }
    {
        buffers.keep_turns(self.turns.pop());
        match self.logs.pop() {
            Some(logs) => logs,
            None => Vec::new(alloc),
        }
    }

    /// Adds the next interval. The schedule gains those before it where its own order is told, or
    /// where as many wait as there are workers.
    pub(crate) fn add<'a, R: Wait + Sync, G: Gate>(
        &mut self,
        context: &Context<'a, R, G>,
        posts: &[Post<Work<'a, R, G>>],
        askers: &mut [Asker<Work<'a, R, G>>],
        order: Order,
        schedule: &mut Schedule,
    ) -> Result<(), NoMemory>
        requires askers { askers.old ≡ free_seats posts.now }
        requires few { vec_len self.old.orders ≤ length posts.now + 1 }
        requires lists { All (IsTurnList schedule.old.cores) (lists_in self.old) }
        requires next { IsTurnList schedule.old.cores (turns_in order) }
        requires room { length schedule.old.lists + length (lists_in self.old) + 1 < 2 ^ 32 }
        ensures askers { askers.new ≡ askers.old }
        ensures cores { schedule.new.cores ≡ schedule.old.cores }
        ensures few { OnOk result (vec_len self.new.orders ≤ length posts.now + 1) }
        ensures lists { OnOk result (All (IsTurnList schedule.old.cores) (lists_in self.new)) }
        ensures kept { OnOk result (schedule.new.lists ++ lists_in self.new ≡ schedule.old.lists ++ (lists_in self.old ++ turns_in order ∷ [])) }
        ensures part { IsFirstPart schedule.new.lists (schedule.old.lists ++ (lists_in self.old ++ turns_in order ∷ [])) }
    {
        match order {
            Order::Told(cores) => {
                self.tell(context, posts, askers, schedule)?;
                schedule.push(cores)?;
                Ok(())
            }
            Order::Untold(unordered) => {
                self.make_room(context, posts, askers, schedule)?;
                self.wait_with(context.alloc, unordered)
            }
        }
    }

    /// Has room for one more: where as many wait as there are workers, the schedule gains them.
    fn make_room<'a, R: Wait + Sync, G: Gate>(
        &mut self,
        context: &Context<'a, R, G>,
        posts: &[Post<Work<'a, R, G>>],
        askers: &mut [Asker<Work<'a, R, G>>],
        schedule: &mut Schedule,
    ) -> Result<(), NoMemory>
        requires askers { askers.old ≡ free_seats posts.now }
        requires few { vec_len self.old.orders ≤ length posts.now + 1 }
        requires lists { All (IsTurnList schedule.old.cores) (lists_in self.old) }
        requires room { length schedule.old.lists + length (lists_in self.old) < 2 ^ 32 }
        ensures askers { askers.new ≡ askers.old }
        ensures cores { schedule.new.cores ≡ schedule.old.cores }
        ensures few { OnOk result (vec_len self.new.orders ≤ length posts.now) }
        ensures lists { OnOk result (All (IsTurnList schedule.old.cores) (lists_in self.new)) }
        ensures kept { OnOk result (schedule.new.lists ++ lists_in self.new ≡ schedule.old.lists ++ lists_in self.old) }
        ensures part { IsFirstPart schedule.new.lists (schedule.old.lists ++ lists_in self.old) }
    {
        if self.orders.len() <= posts.len().min(MOST - 1) {
            return Ok(());
        }
        self.tell(context, posts, askers, schedule)
    }

    /// Lets one more interval wait.
    fn wait_with(&mut self, alloc: Global, unordered: Unordered) -> Result<(), NoMemory>
        ensures lists { OnOk result (lists_in self.new ≡ lists_in self.old ++ order_of unordered ∷ []) }
        ensures count { OnOk result (vec_len self.new.orders ≡ vec_len self.old.orders + 1) }
    {
        let buffers = match self.buffers.pop() {
            Some(buffers) => buffers,
            None => OrderBuffers::none(),
        };
        self.orders.push(Ordering {
            alloc,
            unordered,
            buffers,
            told: None,
        })?;
        Ok(())
    }

    /// The schedule gains all intervals that wait: the workers tell their orders beside each other.
    /// Where memory runs out it gains the first ones alone.
    pub(crate) fn tell<'a, R: Wait + Sync, G: Gate>(
        &mut self,
        context: &Context<'a, R, G>,
        posts: &[Post<Work<'a, R, G>>],
        askers: &mut [Asker<Work<'a, R, G>>],
        schedule: &mut Schedule,
    ) -> Result<(), NoMemory>
        requires askers { askers.old ≡ free_seats posts.now }
        requires few { vec_len self.old.orders ≤ length posts.now + 1 }
        requires lists { All (IsTurnList schedule.old.cores) (lists_in self.old) }
        requires room { length schedule.old.lists + length (lists_in self.old) < 2 ^ 32 }
        ensures askers { askers.new ≡ askers.old }
        ensures cores { schedule.new.cores ≡ schedule.old.cores }
        ensures none { OnOk result (self.new.orders.items ≡ []) }
        ensures told { OnOk result (schedule.new.lists ≡ schedule.old.lists ++ lists_in self.old) }
        ensures part { IsFirstPart schedule.new.lists (schedule.old.lists ++ lists_in self.old) }
    {
        if self.orders.is_empty() {
            return Ok(());
        }
        tell_all(context.rt, context.alloc, posts, askers, &mut self.orders)?;
        self.hand_over(schedule)
    }

    /// The schedule gains all intervals, whose orders are told, but where there was no memory.
    fn hand_over(&mut self, schedule: &mut Schedule) -> Result<(), NoMemory>
        requires told { All (λ o. IfSome o.told (λ list. list.items ≡ order_of o.unordered)) self.old.orders.items }
        requires lists { All (IsTurnList schedule.old.cores) (lists_in self.old) }
        requires room { length schedule.old.lists + length (lists_in self.old) < 2 ^ 32 }
        ensures cores { schedule.new.cores ≡ schedule.old.cores }
        ensures none { OnOk result (self.new.orders.items ≡ []) }
        ensures told { OnOk result (schedule.new.lists ≡ schedule.old.lists ++ lists_in self.old) }
        ensures part { IsFirstPart schedule.new.lists (schedule.old.lists ++ lists_in self.old) }
    {
        while !self.orders.is_empty() {
            let Ordering {
                unordered,
                buffers,
                told,
                ..
            } = self.orders.remove(0);
            let Some(list) = told else {
                return Err(NoMemory);
            };
            schedule.push(list)?;
            self.keep(unordered, buffers)?;
        }
        Ok(())
    }

    /// Leaves the memory of an interval to a later one.
    fn keep(&mut self, unordered: Unordered, buffers: OrderBuffers) -> Result<(), NoMemory>
        ensures { self.new.orders ≡ self.old.orders }
    {
        let (logs, turns) = unordered.end();
        self.logs.push(logs)?;
        self.turns.push(turns)?;
        self.buffers.push(buffers)?;
        Ok(())
    }
}
