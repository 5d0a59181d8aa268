//! How many of four workers run the cores of an interval.

use std::process::Abort;
use worker_pace::{Load, Pace, SIZES};

/// How many intervals are the first ones: all run one, and then one worker does.
const FIRST: u32 = 2;

/// So many instructions and accesses, of which so many are shared, and so many of these upgrades; and
/// so many accesses are the busiest worker's, of two and of four.
type Loads = (u64, u64, u64, u64, (u64, u64));

fn load(of: Loads) -> Load {
    let (of_two, of_four) = of.4;
    let mut busiest = [of_four; SIZES];
    busiest[0] = of_two;
    Load {
        instructions: of.0,
        accesses: of.1,
        shared: of.2,
        upgrades: of.3,
        busiest,
    }
}

/// So many intervals follow. They have the first load where one worker runs them, and else the
/// second.
fn go_on(pace: &mut Pace, intervals: u32, alone: Loads, among: Loads) {
    for _ in 0..intervals {
        let workers = pace.workers();
        pace.learn(workers, load(if workers == 1 { alone } else { among }));
    }
}

/// Much work, of which nothing is shared: 1900 microseconds, a half and 206 more, or a quarter and
/// 212 more.
const MUCH: Loads = (1_000_000, 100_000, 0, 0, (50_000, 25_000));

/// The same, all of one worker's cores.
const UNEVEN: Loads = (1_000_000, 100_000, 0, 0, (100_000, 100_000));

/// The same, all of the cores of two workers, however many there are.
const OF_TWO: Loads = (1_000_000, 100_000, 0, 0, (50_000, 50_000));

/// Most is shared: 1850 microseconds, or 1115 by four workers.
const SHARED: Loads = (100_000, 20_000, 20_000, 0, (10_000, 5_000));

/// The same, and all are upgrades: 10 milliseconds more.
const UPGRADES: Loads = (100_000, 20_000, 20_000, 20_000, (10_000, 5_000));

/// 195 microseconds, or 83.
const SOME: Loads = (100_000, 10_000, 60, 0, (5_000, 2_500));

/// What is shared only while several run.
const MORE_SHARED: Loads = (100_000, 10_000, 160, 0, (5_000, 2_500));

/// Little work: 19 microseconds, or 18.
const LITTLE: Loads = (10_000, 1_000, 0, 0, (500, 250));

/// More than can be counted.
const MOST: Loads = (u64::MAX, u64::MAX, u64::MAX, u64::MAX, (u64::MAX, u64::MAX));

/// On so many processors, what intervals have that one worker runs, and those that several run: how
/// many run the next. The last number of processors is one that no system has.
static CHOICES: [(u16, Loads, Loads, u16); 13] = [
    (4, MUCH, MUCH, 4),
    (2, MUCH, MUCH, 2),
    (4, OF_TWO, OF_TWO, 2),
    (4, UNEVEN, UNEVEN, 1),
    (4, LITTLE, LITTLE, 1),
    (4, SHARED, SHARED, 4),
    (2, SHARED, SHARED, 1),
    (4, UPGRADES, UPGRADES, 1),
    (4, SOME, SOME, 4),
    (4, SOME, MORE_SHARED, 1),
    (4, MOST, MOST, 1),
    (1, MUCH, MUCH, 1),
    (0, MUCH, MUCH, 1),
];

#[test]
fn workers_are_as_many_as_the_intervals_were_worth(rt: HostRuntime) {
    for &(processors, alone, among, wanted) in &CHOICES {
        let mut pace = Pace::new(4, processors);
        go_on(&mut pace, FIRST, alone, among);
        assert!(&rt; pace.workers() == wanted);
    }
}

/// Checks how many run each of so many intervals that follow, which have nothing.
fn run_by(rt: &impl Abort, pace: &mut Pace, intervals: u32, wanted: u16) {
    for _ in 0..intervals {
        let workers = pace.workers();
        assert!(rt; workers == wanted);
        pace.learn(workers, load((0, 0, 0, 0, (0, 0))));
    }
}

#[test]
fn several_are_tried_less_and_less_often(rt: HostRuntime) {
    let mut pace = Pace::new(4, 4);
    for &(several, ones) in &[(4_u16, 3_u32), (2, 11), (2, 47)] {
        run_by(&rt, &mut pace, 1, several);
        run_by(&rt, &mut pace, ones, 1);
    }
    run_by(&rt, &mut pace, 1, 2);
}

#[test]
fn the_mean_of_the_last_intervals_decides(rt: HostRuntime) {
    let mut pace = Pace::new(4, 4);
    go_on(&mut pace, FIRST, MUCH, MUCH);
    assert!(&rt; pace.workers() == 4);
    go_on(
        &mut pace,
        1,
        MUCH,
        (1_000_000, 100_000, 4_000, 4_000, (50_000, 25_000)),
    );
    assert!(&rt; pace.workers() == 1);
}

#[test]
fn several_are_tried_when_the_work_is_dealt_out_more_evenly(rt: HostRuntime) {
    let mut pace = Pace::new(4, 4);
    go_on(&mut pace, 128, UNEVEN, UNEVEN);
    assert!(&rt; pace.workers() == 1);
    go_on(&mut pace, 64, MUCH, UNEVEN);
    assert!(&rt; pace.workers() == 4);
}
