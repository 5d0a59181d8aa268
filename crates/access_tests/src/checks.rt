//! What many tests check.
use access_log::Schedule;
use std::process::Abort;

/// Checks a number.
pub(crate) fn is_number(rt: &impl Abort, found: u64, wanted: u64) {
    assert_eq!(rt; found, wanted);
}

/// Checks the turns of an interval of a schedule.
pub(crate) fn has_turns(rt: &impl Abort, schedule: &Schedule, interval: u32, wanted: &[u16]) {
    assert!(rt; interval < schedule.intervals());
    assert!(rt; schedule.list(interval) == wanted);
}

/// Checks how many cores and intervals a schedule has.
pub(crate) fn has_counts(rt: &impl Abort, schedule: &Schedule, cores: u16, intervals: u32) {
    is_number(rt, schedule.cores().into(), cores.into());
    is_number(rt, schedule.intervals().into(), intervals.into());
}
