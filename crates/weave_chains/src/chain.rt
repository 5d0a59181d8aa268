//! How far the events of a core's accesses have fired.
ghost use Rattle.std.specs.Option.{option_and_then};
ghost use Rattle.std.specs.Prelude.{slice_get, ◌≡◌, ◌-◌, ◌<◌, ◌≤◌, ◌^◌, ℕ, nat_lt};
ghost use Rattle.weave_chains.specs.Chains.{after_ended, behind, delay_by, moved_on, start_by};
ghost use Rattle.weave_chains.specs.States.{IsFreshChain, state_of};

use event_graph::{Kind, Piece};
use zs_num::Cycle;

/// How many events an access has at most.
pub(crate) const MOST: usize = 64;

/// When an event has finished, and when it would have at zero load.
#[derive(Clone, Copy)]
pub(crate) struct Ended {
    pub(crate) finish: Cycle,
    pub(crate) at_zero_load: Cycle,
}

/// What is kept of the event of a chain that fires next: no more than its firing asks for, since it
/// is written and read for each event.
#[derive(Clone, Copy)]
pub(crate) struct Next {
    /// The core whose access it is of, and how many events that access has.
    pub(crate) core: u16,
    pub(crate) count: u16,
    /// The component that serves it, and what it asks there.
    pub(crate) component: u16,
    pub(crate) kind: Kind,
    /// How many cycles it takes at zero load, and when it finishes then.
    pub(crate) time: u64,
    pub(crate) finish: Cycle,
}

/// The chain of a core's events, while they fire.
#[derive(Clone, Copy)]
pub(crate) struct Chain {
    /// The access whose events fire, by its place among the core's; and how many the core has.
    pub(crate) access: u32,
    pub(crate) end: u32,
    /// Which event of the access fires next.
    pub(crate) place: u16,
    /// Those of the access that have fired, by their places.
    pub(crate) ended: [Ended; MOST],
    /// The last event of the accesses before.
    pub(crate) last: Option<Ended>,
    /// The event that fires next, as it was looked up. None where the chain is over.
    pub(crate) next: Option<Next>,
}

impl Chain {
    /// A chain of no access.
    pub(crate) fn new() -> Self {
        let none = Ended {
            finish: 0,
            at_zero_load: 0,
        };
        Chain {
            access: 0,
            end: 0,
            place: 0,
            ended: [none; MOST],
            last: None,
            next: None,
        }
    }

    /// It becomes a chain of so many accesses, of which no event has fired. What stood in `ended`
    /// stays: of an access only what has fired counts.
    pub(crate) fn begin(&mut self, count: u32)
        ensures { IsFreshChain count self.new }
    {
        self.access = 0;
        self.end = count;
        self.place = 0;
        self.last = None;
    }

    /// Whether it has an event that can fire.
    #[inline(always)]
    pub(crate) fn goes_on(&self) -> bool
        ensures { result ≡ nat_lt self.now.access self.now.end }
    {
        self.access < self.end
    }

    /// Its next event has ended so, of an access with so many.
    #[inline(always)]
    pub(crate) fn move_on(&mut self, count: u16, done: Ended)
        requires place { self.old.place < 64 }
        requires access { self.old.access < self.old.end }
        ensures moved { (before : ℕ) → state_of before self.new ≡ moved_on count done (state_of before self.old) }
        ensures next { self.new.next ≡ self.old.next }
    {
        if self.place + 1 < count {
            self.ended[usize::from(self.place)] = done;
            self.place += 1;
        } else {
            self.access += 1;
            self.place = 0;
            self.last = Some(done);
        }
    }

    /// When its next event starts, which is this piece of an access and starts then at zero load.
    #[inline(always)]
    pub(crate) fn start(&self, at_zero_load: Cycle, piece: &Piece) -> Cycle
        requires { start_by (state_of 0 self.now) at_zero_load piece.now ≤ 2 ^ 62 }
        ensures { result ≡ start_by (state_of 0 self.now) at_zero_load piece.now }
    {
        start_of(self.place, &self.ended, self.last, at_zero_load, piece)
    }

    /// How many cycles the core has waited, whose chain is over.
    pub(crate) fn delay(&self) -> u64
        ensures { result ≡ delay_by (state_of 0 self.now) }
    {
        match self.last {
            Some(last) => last.finish.saturating_sub(last.at_zero_load),
            None => 0,
        }
    }
}

/// When the event at a place of an access starts, which is this piece and starts then at zero load;
/// these events of the access have fired, and that was the last one before it.
#[inline(always)]
pub(crate) fn start_of(
    place: u16,
    ended: &[Ended; MOST],
    last: Option<Ended>,
    at_zero_load: Cycle,
    piece: &Piece,
) -> Cycle
    requires { start_by (behind place ended.now last) at_zero_load piece.now ≤ 2 ^ 62 }
    ensures { result ≡ start_by (behind place ended.now last) at_zero_load piece.now }
{
    let first = if place == 0 {
        last
    } else {
        waited_for(ended, piece.first)
    };
    let second = waited_for(ended, piece.second);
    at_zero_load.max(after(at_zero_load, first).max(after(at_zero_load, second)))
}

/// The event at a place of the access, where it has fired.
#[inline(always)]
fn waited_for(ended: &[Ended; MOST], place: Option<u16>) -> Option<Ended>
    ensures { result ≡ option_and_then (λ i. slice_get ended.now i) place }
{
    match place {
        Some(place) => ended.get(usize::from(place)).copied(),
        None => None,
    }
}

/// The earliest start behind an event, of one that starts then at zero load.
#[inline(always)]
fn after(start: Cycle, ended: Option<Ended>) -> Cycle
    requires { after_ended start ended ≤ 2 ^ 62 }
    ensures { result ≡ after_ended start ended }
{
    match ended {
        Some(e) => e.finish + start.saturating_sub(e.at_zero_load),
        None => 0,
    }
}
