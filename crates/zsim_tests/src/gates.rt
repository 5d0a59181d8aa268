//! The gates of calls, and what is written of those that pass.
use crate::answers::Called;
use crate::page::Page;
use std::alloc::Global;
use std::sync::atomic::{AtomicU64, Ordering};
use zs_host::{Gate, MeetingGate, OpenGate, Passes, Point};

/// The gate of a call.
#[derive(Clone, Copy)]
pub enum CaseGate<'a> {
    /// It holds nobody up.
    Open,
    /// It counts who passes.
    Counting(&'a CountingGate),
    /// Two cores and two domains meet there.
    Meeting(&'a MeetingGate),
}

impl Gate for CaseGate<'_> {
    fn pass(&self, worker: u16, point: Point) {
        match self {
            CaseGate::Open => OpenGate.pass(worker, point),
            CaseGate::Counting(gate) => gate.pass(worker, point),
            CaseGate::Meeting(gate) => gate.pass(worker, point),
        }
    }

    fn is_open(&self) -> bool {
        matches!(self, CaseGate::Open)
    }
}

/// A gate that counts accesses, by worker 0, by the others, and of core 3; and events: all, those
/// of domain 1, and those that one of two workers fires whose domain it is.
#[derive(Drop)]
pub struct CountingGate {
    by_first: AtomicU64,
    by_others: AtomicU64,
    of_last: AtomicU64,
    events: AtomicU64,
    of_second: AtomicU64,
    by_owner: AtomicU64,
}

impl CountingGate {
    pub fn new() -> Self {
        CountingGate {
            by_first: AtomicU64::new(0),
            by_others: AtomicU64::new(0),
            of_last: AtomicU64::new(0),
            events: AtomicU64::new(0),
            of_second: AtomicU64::new(0),
            by_owner: AtomicU64::new(0),
        }
    }

    fn count_access(&self, worker: u16, core: u16) {
        if worker == 0 {
            count(&self.by_first);
        } else {
            count(&self.by_others);
        }
        if core == 3 {
            count(&self.of_last);
        }
    }

    fn count_event(&self, worker: u16, domain: u16) {
        count(&self.events);
        if domain == 1 {
            count(&self.of_second);
        }
        if worker == domain % 2 {
            count(&self.by_owner);
        }
    }

    /// Writes who made the accesses, and of the events, whose number depends on the order of the
    /// accesses: whether the report has as many.
    pub fn write(&self, alloc: Global, called: &Called, page: &mut Page) -> Option<()> {
        page.text("accesses ");
        page.number(counted(&self.by_first));
        page.text(" by worker 0, ");
        page.number(counted(&self.by_others));
        page.text(" by others, ");
        page.number(counted(&self.of_last));
        page.line(" of core 3");
        page.text("all events reported: ");
        page.truth(are_told(alloc, counted(&self.events), called.report()?)?);
        page.line("");
        Some(())
    }

    /// Writes whether there were several intervals, and several events in the second of two
    /// domains, and whether all events were fired by the workers of their domains, of which there
    /// were two.
    pub fn write_owners(&self, called: &Called, page: &mut Page) {
        page.text("several intervals ");
        page.truth(called.ended.kept.schedule.intervals() > 1);
        page.text(", several events in domain 1 ");
        page.truth(counted(&self.of_second) > 1);
        page.text(", by owners ");
        page.truth(counted(&self.by_owner) == counted(&self.events));
        page.line("");
    }
}

/// Whether a line of the report has so many events.
fn are_told(alloc: Global, events: u64, report: &str) -> Option<bool> {
    let line = format!(in alloc; "\nevents {events}\n").ok()?;
    Some(report.contains(line.as_str()))
}

impl Gate for CountingGate {
    fn pass(&self, worker: u16, point: Point) {
        match point {
            Point::Access { core } => self.count_access(worker, core),
            Point::Fire { domain } => self.count_event(worker, domain),
        }
    }
}

fn count(number: &AtomicU64) {
    number.fetch_add(1, Ordering::SeqCst);
}

fn counted(number: &AtomicU64) -> u64 {
    number.load(Ordering::SeqCst)
}

/// Writes who came to the gate at which the cores 0 and 1, and the domains 0 and 1, meet.
pub fn write_met(gate: &MeetingGate, page: &mut Page) {
    write_passes("cores", gate.cores(), page);
    write_passes("domains", gate.domains(), page);
}

fn write_passes(who: &str, passes: Passes, page: &mut Page) {
    page.text(who);
    page.text(" passed ");
    page.number(passes.first);
    page.text(" and ");
    page.number(passes.second);
    page.text(", met ");
    page.number(passes.met);
    page.line("");
}
