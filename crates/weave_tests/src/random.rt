//! Random graphs, and one of accesses that all miss, in every way.
use crate::graphs::{Layout, SIXTEEN_DOMAINS, graph_of, idle, misses, random_events};
use crate::page::Page;
use crate::ways::{Outcome, every_way};
use std::alloc::Global;
use std::thread::Threads;

/// How many events a graph has, and in how many domains its components are.
static SIZES: [(u32, u16); 8] = [
    (0, 4),
    (1, 1),
    (1, 4),
    (30, 2),
    (30, 4),
    (100, 3),
    (300, 4),
    (1000, 4),
];

/// What every way leaves of a random graph of six components.
fn woven<T: Threads + Sync>(
    threads: &T,
    alloc: Global,
    count: u32,
    domains: u16,
    seed: u64,
) -> Option<Outcome> {
    let among = domains.max(1);
    let banks = [0, 1 % among, 2 % among, 3 % among, 1 % among];
    let layout = Layout {
        domains,
        banks: &banks,
        controllers: &[0],
    };
    let servers = idle(alloc, 6, 1 + 5 * (seed % 5))?;
    let graph = graph_of(random_events(alloc, count, 6, seed)?, &servers)?;
    every_way(threads, alloc, &graph, &servers, layout, &[1, 2, 3, 64])
}

/// What every way leaves of 3000 events of accesses that all miss.
fn woven_misses<T: Threads + Sync>(threads: &T, alloc: Global) -> Option<Outcome> {
    let servers = idle(alloc, SIXTEEN_DOMAINS.components(), 4)?;
    let graph = graph_of(misses(alloc, 3000, 1)?, &servers)?;
    every_way(
        threads,
        alloc,
        &graph,
        &servers,
        SIXTEEN_DOMAINS,
        &[1, 2, 4],
    )
}

/// Of how many of five random graphs of a size every way leaves the same.
fn same_of_five<T: Threads + Sync>(threads: &T, alloc: Global, count: u32, domains: u16) -> u32 {
    let mut same = 0u32;
    for seed in 0..5 {
        if woven(threads, alloc, count, domains, seed).is_some() {
            same = same.wrapping_add(1);
        }
    }
    same
}

/// Weaves five random graphs of each size, and the misses, and writes whether every way leaves the
/// same.
pub(crate) fn run<T: Threads + Sync>(threads: &T, alloc: Global, page: &mut Page) {
    page.line("random graphs weave as on one list, by domains and by workers");
    for &(count, domains) in &SIZES {
        let same = same_of_five(threads, alloc, count, domains);
        page.count("  ", u64::from(count));
        page.count(" events in ", u64::from(domains));
        page.count(" domains: ", u64::from(same));
        page.line(" of 5 graphs the same");
    }
    page.text("3000 events of accesses that all miss, in 16 domains: ");
    page.truth(woven_misses(threads, alloc).is_some());
    page.line("");
}
