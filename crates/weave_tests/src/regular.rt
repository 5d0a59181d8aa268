//! Larger graphs, of which a formula says when each event starts and finishes.
use crate::graphs::{Layout, TWO_BANKS, event, graph_of, idle};
use crate::page::Page;
use crate::ways::{Outcome, every_way, on_one_list};
use component::Kind;
use event_graph::{Event, Fired};
use std::alloc::Global;
use std::thread::Threads;
use zs_num::Cycle;

/// 64 banks in as many domains.
const SIXTY_FOUR_DOMAINS: Layout = Layout {
    domains: 64,
    banks: &[
        0, 1, 2, 3, 4, 5, 6, 7, 8, 9, 10, 11, 12, 13, 14, 15, 16, 17, 18, 19, 20, 21, 22, 23, 24,
        25, 26, 27, 28, 29, 30, 31, 32, 33, 34, 35, 36, 37, 38, 39, 40, 41, 42, 43, 44, 45, 46, 47,
        48, 49, 50, 51, 52, 53, 54, 55, 56, 57, 58, 59, 60, 61, 62, 63,
    ],
    controllers: &[0],
};

/// Look-ups, each of which takes 10 cycles and keeps its bank busy for 4.
#[derive(Clone, Copy)]
enum Shape {
    /// Event 0 is the parent of one event in each of 63 other domains.
    Fan,
    /// The events of one bank follow each other.
    Line,
    /// Event i is on bank i modulo 2 and waits for event i - 1.
    Chain,
    /// 64 chains on one bank, which serves one of them every four cycles.
    Chains,
}

impl Shape {
    fn name(self) -> &'static str {
        match self {
            Shape::Fan => "one event lets sixty-three domains start",
            Shape::Line => "events of one bank follow each other",
            Shape::Chain => "a chain goes to and fro between two domains",
            Shape::Chains => "more than a million events are woven",
        }
    }

    /// How many events there are.
    fn count(self) -> u32 {
        match self {
            Shape::Fan => 64,
            Shape::Line => 100_000,
            Shape::Chain => 1_000,
            Shape::Chains => 1_056_000,
        }
    }

    fn bank(self, number: u32) -> u16 {
        match self {
            Shape::Fan => (number % 64) as u16,
            Shape::Chain => (number % 2) as u16,
            Shape::Line | Shape::Chains => 0,
        }
    }

    fn parent(self, number: u32) -> Option<u32> {
        match self {
            Shape::Fan => number.checked_sub(1).and(Some(0)),
            Shape::Line => None,
            Shape::Chain => number.checked_sub(1),
            Shape::Chains => number.checked_sub(64),
        }
    }

    /// The cycle at which an event must finish.
    fn finish(self, number: u32) -> Cycle {
        match self {
            Shape::Fan => 10 * Cycle::from(number.min(1)) + 10,
            Shape::Line | Shape::Chains => 4 * Cycle::from(number) + 10,
            Shape::Chain => 10 * Cycle::from(number) + 10,
        }
    }

    fn events(self, alloc: Global) -> Option<Vec<Event>> {
        let mut events = Vec::with_capacity(alloc, self.count() as usize).ok()?;
        self.add_events(&mut events)?;
        Some(events)
    }

    fn add_events(self, events: &mut Vec<Event>) -> Option<()> {
        for number in 0..self.count() {
            let parent = self.parent(number);
            events
                .push(event(number, self.bank(number), Kind::Lookup, (0, 10), parent))
                .ok()?;
        }
        Some(())
    }

    /// Whether an event starts once its parent has finished, and finishes when it must.
    fn is_kept(self, fired: &Fired) -> bool {
        let start = match self.parent(fired.number) {
            Some(parent) => self.finish(parent),
            None => 0,
        };
        fired.start == start && fired.finish == self.finish(fired.number)
    }

    /// Of how many events that is so.
    fn kept(self, fired: &[Fired]) -> u32 {
        let mut kept = 0u32;
        for fired in fired {
            if self.is_kept(fired) {
                kept = kept.wrapping_add(1);
            }
        }
        kept
    }

    /// The weave on one list, and of fewer than a million events in every other way.
    fn woven<T: Threads + Sync>(self, threads: &T, alloc: Global) -> Option<Outcome> {
        let layout = match self {
            Shape::Fan => SIXTY_FOUR_DOMAINS,
            _ => TWO_BANKS,
        };
        let servers = idle(alloc, layout.components(), 4)?;
        let graph = graph_of(self.events(alloc)?, &servers)?;
        match self {
            Shape::Fan | Shape::Chain => {
                every_way(threads, alloc, &graph, &servers, layout, &[1, 2, 7, 64])
            }
            Shape::Line => every_way(threads, alloc, &graph, &servers, layout, &[1, 2]),
            Shape::Chains => on_one_list(alloc, &graph, &servers),
        }
    }
}

/// Writes how many events of a graph start and finish when they must, and until when the servers
/// are busy.
fn write(shape: Shape, found: &Outcome, page: &mut Page) {
    page.count("\n  ", u64::from(shape.kept(&found.fired)));
    page.count(" of ", found.fired.len() as u64);
    page.text(" events as they must\n  busy until ");
    page.list(&found.frees);
    page.line("");
}

/// Weaves the larger graphs.
pub(crate) fn run<T: Threads + Sync>(threads: &T, alloc: Global, page: &mut Page) {
    for shape in [Shape::Fan, Shape::Line, Shape::Chain, Shape::Chains] {
        page.text(shape.name());
        match shape.woven(threads, alloc) {
            Some(found) => write(shape, &found, page),
            None => page.line(": not woven"),
        }
    }
}
