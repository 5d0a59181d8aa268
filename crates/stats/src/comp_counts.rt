//! The counts of the components over an interval.
ghost use Rattle.std.specs.Prelude.{◌≡◌, ◌<◌, ℕ, All, length, slice_index_or};
ghost use Rattle.std.specs.List.{zip};
ghost use Rattle.component.specs.declared.comp.Comp.{Comp};
ghost use Rattle.component.specs.ComponentStep.{free_of};
ghost use Rattle.stats.specs.declared.counts.CompCount.{CompCount};
ghost use Rattle.stats.specs.Counted.{comp_plus};
ghost use Rattle.stats.specs.CountsFit.{CompFits};
ghost use Rattle.stats.specs.TookTheirTime.{TookItsTime, TookTheirTime};
ghost use Rattle.stats.specs.Passes.{with_event, with_events, with_free};

use crate::CompCount;
use component::Comp;
use event_graph::{Event, Fired};

/// Counts an event of the component, and how much longer it took than at zero load.
fn count_event(count: &mut CompCount, event: &Event, fired: &Fired)
    requires took { TookItsTime event.now fired.now }
    requires fits { CompFits (with_event count.old (event.now, fired.now)) }
    ensures { count.new ≡ with_event count.old (event.now, fired.now) }
{
    let at_zero_load = event.min_finish.saturating_sub(event.min_start);
    let wait = fired.finish - fired.start - at_zero_load;
    count.events += 1;
    count.waited += u128::from(wait);
}

/// Counts each event at its component.
fn count_events(counts: &mut [CompCount], events: &[Event], fired: &[Fired])
    requires components { All (λ e. e.component < length counts.old) events.now }
    requires took { TookTheirTime events.now fired.now }
    requires fits { (n : ℕ) (d : CompCount) → n < length counts.old
        → CompFits (with_events (slice_index_or counts.old n d) n (zip events.now fired.now)) }
    ensures { (n : ℕ) (d : CompCount) → n < length counts.old → slice_index_or counts.new n d
        ≡ with_events (slice_index_or counts.old n d) n (zip events.now fired.now) }
{
    for (i, event) in events.iter().enumerate() {
        count_event(&mut counts[usize::from(event.component)], event, &fired[i]);
    }
}

/// Keeps of each component from which cycle on it is free.
fn keep_free(counts: &mut [CompCount], comps: &[Comp])
    requires { length comps.now ≡ length counts.old }
    ensures { (n : ℕ) (d : CompCount) (c : Comp) → n < length counts.old
        → slice_index_or counts.new n d
        ≡ with_free (slice_index_or counts.old n d) (free_of (slice_index_or comps.now n c)) }
{
    for (n, count) in counts.iter_mut().enumerate() {
        count.free = comps[n].free();
    }
}

/// Adds the events of an interval, and keeps what the components are free from after it.
pub(crate) fn add_to_comp_counts(
    counts: &mut [CompCount],
    events: &[Event],
    fired: &[Fired],
    comps: &[Comp],
)
    requires components { All (λ e. e.component < length counts.old) events.now }
    requires took { TookTheirTime events.now fired.now }
    requires comps { length comps.now ≡ length counts.old }
    requires fits { (n : ℕ) (d : CompCount) → n < length counts.old
        → CompFits (with_events (slice_index_or counts.old n d) n (zip events.now fired.now)) }
    ensures { (n : ℕ) (d : CompCount) (c : Comp) → n < length counts.old
        → slice_index_or counts.new n d
        ≡ with_free
        (with_events (slice_index_or counts.old n d) n (zip events.now fired.now))
        (free_of (slice_index_or comps.now n c)) }
{
    count_events(counts, events, fired);
    keep_free(counts, comps);
}

/// Adds what the events of a component count.
fn add_count(count: &mut CompCount, events: &CompCount)
    requires { CompFits (comp_plus count.old events.now) }
    ensures { count.new ≡ comp_plus count.old events.now }
{
    count.events += events.events;
    count.waited += events.waited;
}

/// Adds what the events of each component count.
fn add_counts(counts: &mut [CompCount], events: &[CompCount])
    requires count { length events.now ≡ length counts.old }
    requires fits { (n : ℕ) (d : CompCount) → n < length counts.old
        → CompFits (comp_plus (slice_index_or counts.old n d) (slice_index_or events.now n d)) }
    ensures { (n : ℕ) (d : CompCount) → n < length counts.old → slice_index_or counts.new n d
        ≡ comp_plus (slice_index_or counts.old n d) (slice_index_or events.now n d) }
{
    for (n, count) in counts.iter_mut().enumerate() {
        add_count(count, &events[n]);
    }
}

/// Adds what the events of an interval count, and keeps what the components are free from after it.
pub(crate) fn add_counted_comps(counts: &mut [CompCount], events: &[CompCount], comps: &[Comp])
    requires count { length events.now ≡ length counts.old }
    requires comps { length comps.now ≡ length counts.old }
    requires fits { (n : ℕ) (d : CompCount) → n < length counts.old
        → CompFits (comp_plus (slice_index_or counts.old n d) (slice_index_or events.now n d)) }
    ensures { (n : ℕ) (d : CompCount) (c : Comp) → n < length counts.old
        → slice_index_or counts.new n d
        ≡ with_free
        (comp_plus (slice_index_or counts.old n d) (slice_index_or events.now n d))
        (free_of (slice_index_or comps.now n c)) }
{
    add_counts(counts, events);
    keep_free(counts, comps);
}
