//! What intervals count, some in each row.
ghost use Rattle.std.specs.Prelude.{◌≡◌, ◌+◌, ◌<◌, ◌∷◌, [], ℕ, List, IfOk, OnOk, length, map};
ghost use Rattle.std.specs.List.{zip};
ghost use Rattle.event_graph.specs.declared.event.Event.{Event};
ghost use Rattle.event_graph.specs.declared.fired.Fired.{Fired};
ghost use Rattle.profile.specs.Added.{Adds, with_hit, with_met};
ghost use Rattle.profile_rows.specs.declared.tally.Tally.{Tally};
ghost use Rattle.profile.specs.Series.{AreSeries, IsSeries, Series, SeriesSums, capped_open, capped_sums, has_room, next_first, no_sums, nothing_open, no_series, sums_in, with_interval, with_last, with_room, with_waits};
ghost use Rattle.profile_rows.specs.Tallies.{capped, capped_wide, plus};
ghost use Rattle.stats.specs.Counted.{wait_of};

use crate::added::{Hit, Met};
use event_graph::{Event, Fired};
use profile_rows::{NONE, SeriesRow, Tally};
use sparse_table::Change;
use std::alloc::Global;
use zs_num::NoMemory;

/// What the instructions and the accesses of an interval count up to here.
#[derive(Clone, Copy)]
pub struct OpenInterval {
    pub instructions: u64,
    pub tally: Tally,
}

/// What they count before its first step.
const NOTHING: OpenInterval = OpenInterval {
    instructions: 0,
    tally: NONE,
};

/// The rows of the intervals that ended, and what the next one counts up to here.
#[derive(Drop)]
pub(crate) struct SeriesRows {
    pub(crate) begun: OpenInterval,
    pub(crate) rows: Vec<SeriesRow>,
}

impl SeriesRows {
    /// Those before the first step.
    pub(crate) fn new(alloc: Global) -> SeriesRows
        ensures { IsSeries no_series result }
    {
        SeriesRows {
            begun: NOTHING,
            rows: Vec::new(alloc),
        }
    }

    /// So many instructions more.
    #[inline(always)]
    pub(crate) fn executed(&mut self, count: u64)
        ensures begun { self.new.begun ≡ record self.old.begun { instructions = capped (self.old.begun.instructions + count) } }
        ensures rows { self.new.rows ≡ self.old.rows }
    {
        self.begun.instructions = self.begun.instructions.saturating_add(count);
    }

    /// An access more that does not hit.
    pub(crate) fn accessed(&mut self, met: &Met)
        ensures { (s : Series) (more : Tally) → Adds (with_met met.now) more → IsSeries s self.old → IsSeries (record s { begun = record s.begun { tally = plus s.begun.tally more } }) self.new }
    {
        met.change(&mut self.begun.tally);
    }

    /// A hit more.
    #[inline(always)]
    pub(crate) fn hit(&mut self, hit: &Hit)
        ensures { (s : Series) (more : Tally) → Adds (with_hit hit.now.kind hit.now.cycles) more → IsSeries s self.old → IsSeries (record s { begun = record s.begun { tally = plus s.begun.tally more } }) self.new }
    {
        hit.change(&mut self.begun.tally);
    }

    /// The interval ends, and these are its events and when they fired. A row has `every` intervals,
    /// and the waits of so many components.
    pub(crate) fn ended(
        &mut self,
        alloc: Global,
        comps: usize,
        every: u32,
        events: &[Event],
        fired: &[Fired],
    ) -> Result<(), NoMemory>
        ensures { OnOk result ((s : Series) → IsSeries s self.old → IsSeries (record { begun = nothing_open; rows = with_last (with_interval s.begun events.now fired.now) (with_room comps every s.rows) }) self.new) }
    {
        make_room(alloc, &mut self.rows, comps, every)?;
        join_last(&mut self.rows, &self.begun, events, fired);
        self.begun = NOTHING;
        Ok(())
    }
}

/// Adds an empty row where the last one is full.
fn make_room(
    alloc: Global,
    rows: &mut Vec<SeriesRow>,
    comps: usize,
    every: u32,
) -> Result<(), NoMemory>
    ensures there { OnOk result (0 < length rows.new.items) }
    ensures rows { OnOk result ((sums : List SeriesSums) → AreSeries sums rows.old.items → AreSeries (with_room comps every sums) rows.new.items) }
{
    if has_room(rows, every) {
        return Ok(());
    }
    let row = empty_row(alloc, comps, next_first(rows))?;
    rows.push(row)?;
    Ok(())
}

/// Whether the last row has fewer than `every` intervals.
fn has_room(rows: &Vec<SeriesRow>, every: u32) -> bool
    ensures { result ≡ has_room every (map sums_in rows.now.items) }
{
    let count = rows.len();
    count > 0 && rows[count - 1].intervals < u64::from(every)
}

/// How many intervals all rows have.
fn next_first(rows: &Vec<SeriesRow>) -> u64
    ensures { result ≡ capped (next_first (map sums_in rows.now.items)) }
{
    let count = rows.len();
    if count == 0 {
        return 0;
    }
    let last = &rows[count - 1];
    last.first.saturating_add(last.intervals)
}

/// A row of no interval yet.
#[tactic(auto, unfolding(crate::specs::Series::sums_in))]
fn empty_row(alloc: Global, comps: usize, first: u64) -> Result<SeriesRow, NoMemory>
    ensures { IfOk result (λ row. sums_in row ≡ no_sums comps first) }
{
    let waits = vec![in alloc; 0; comps]?;
    Ok(SeriesRow {
        first,
        intervals: 0,
        instructions: 0,
        tally: NONE,
        events: 0,
        waits,
    })
}

/// The interval is of the last row.
fn join_last(rows: &mut Vec<SeriesRow>, begun: &OpenInterval, events: &[Event], fired: &[Fired])
    requires { 0 < length rows.old.items }
    ensures { (sums : List SeriesSums) (o : OpenInterval) → AreSeries sums rows.old.items → begun.now ≡ capped_open o → AreSeries (with_last (with_interval o events.now fired.now) sums) rows.new.items }
{
    let last = rows.len() - 1;
    let row = &mut rows[last];
    join(row, begun, events, fired);
}

/// An interval more in a row.
fn join(row: &mut SeriesRow, begun: &OpenInterval, events: &[Event], fired: &[Fired])
    ensures { (s : SeriesSums) (o : OpenInterval) → sums_in row.old ≡ capped_sums s → begun.now ≡ capped_open o → sums_in row.new ≡ capped_sums (with_interval o events.now fired.now s) }
{
    row.intervals = row.intervals.saturating_add(1);
    row.instructions = row.instructions.saturating_add(begun.instructions);
    row.tally = row.tally.plus(&begun.tally);
    row.events = row.events.saturating_add(events.len() as u64);
    add_waits(&mut row.waits, events, fired);
}

/// Adds how long events waited to what their components did.
fn add_waits(waits: &mut Vec<u128>, events: &[Event], fired: &[Fired])
    ensures { (sums : List ℕ) → waits.old.items ≡ map capped_wide sums → waits.new.items ≡ map capped_wide (with_waits sums (zip events.now fired.now)) }
{
    let count = events.len().min(fired.len());
    for place in 0..count {
        add_wait(waits, &events[place], &fired[place]);
    }
}

/// Adds how long an event waited to what its component did.
fn add_wait(waits: &mut Vec<u128>, event: &Event, fired: &Fired)
    ensures { (sums : List ℕ) → waits.old.items ≡ map capped_wide sums → waits.new.items ≡ map capped_wide (with_waits sums ((event.now, fired.now) ∷ [])) }
{
    let at = usize::from(event.component);
    if at < waits.len() {
        waits[at] = waits[at].saturating_add(u128::from(wait_of(event, fired)));
    }
}

/// How many cycles an event waited.
pub(crate) fn wait_of(event: &Event, fired: &Fired) -> u64
    ensures { result ≡ wait_of event.now fired.now }
{
    let took = fired.finish.saturating_sub(fired.start);
    let least = event.min_finish.saturating_sub(event.min_start);
    took.saturating_sub(least)
}
