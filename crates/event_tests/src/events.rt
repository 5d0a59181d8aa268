//! Events files: worked bytes, what is wrong with a file, and the verdicts.
ghost use Rattle.std.specs.Prelude.{◌≡◌, ◌+◌, ◌<◌, ◌^◌, All, IsTrue};
ghost use Rattle.certify.specs.ShortTimes.{HaveShortTimes};
ghost use Rattle.certify.specs.SoFar.{AreFiringsOf};

use crate::loads::{Load, MISS, graph_of};
use certify::{BadEvents, CheckFail, EventsFile, Verdict, check};
use component::{Bank, Comp, Comps, Controller};
use event_graph::{Event, Fired, FiredList, Graph};
use std::process::Abort;
use zs_num::{Cycle, Outcome};

/// An event's start and finish.
type Times = (Cycle, Cycle);

/// The events of a graph, fired at these cycles.
fn fired_at(rt: &(impl Abort + AllocGlobal), graph: &Graph, times: &[Times]) -> FiredList
    ensures { AreFiringsOf graph.now result }
{
    let events = graph.events();
    assert!(rt; times.len() == events.len());
    let mut fired = Vec::new(rt.alloc());
    for k in 0..events.len() {
        let (start, finish) = times[k];
        let number = events[k].number;
        fired
            .push(Fired {
                number,
                start,
                finish,
            })
            .expect(rt, "memory");
    }
    FiredList::of(fired)
}

/// Whether these are events of two components.
fn are_of_two(events: &[Event]) -> bool
    ensures { IsTrue result → All (λ e. e.component < 2) events.now }
{
    events.iter().all(|event| event.component < 2)
}

/// Adds the interval of loads to a file, their events fired at these cycles.
fn add(rt: &(impl Abort + AllocGlobal), file: &mut EventsFile, loads: &[Load], times: &[Times])
    requires components { file.old.components ≡ 2 }
    requires room { file.old.count < 100 }
    ensures components { file.new.components ≡ 2 }
    ensures count { file.new.count ≡ file.old.count + 1 }
{
    let graph = graph_of(rt, loads);
    let fired = fired_at(rt, &graph, times);
    let events = graph.events();
    assert!(rt; events.len() < 1 << 32 && are_of_two(events));
    file.add(&graph, &fired).expect(rt, "memory");
}

/// A file for two components, with no intervals.
fn new_file(rt: &(impl Abort + AllocGlobal)) -> EventsFile
    ensures components { result.components ≡ 2 }
    ensures count { result.count ≡ 0 }
{
    EventsFile::new(rt.alloc(), 2).expect(rt, "memory")
}

/// A load whose one event is a look-up, from cycle 2 on.
const FOUND: Load = (0, 1, Outcome::L2 { others: false });

/// The file of a look-up at cycle 2, whose bank takes 10 cycles.
static ONE_LOOK_UP: [u8; 84] = *b"ZSEV\x01\0\0\0\x02\0\0\0\x01\0\0\0\x01\0\0\0\
\0\0\0\0\0\x01\0\0\0\0\0\0\0\0\0\0\
\x02\0\0\0\0\0\0\0\0\0\0\0\0\0\0\0\
\0\0\0\0\0\0\0\0\0\0\0\0\0\0\0\0\
\x02\0\0\0\0\0\0\0\x0c\0\0\0\0\0\0\0";

#[test]
fn the_file_of_a_look_up_has_84_bytes(rt: HostRuntime) {
    let mut file = new_file(&rt);
    add(&rt, &mut file, &[FOUND], &[(2, 12)]);
    assert!(&rt; file.bytes() == ONE_LOOK_UP.as_slice());
}

/// The bank and the controller of the machine of two cores.
fn comps(rt: &(impl Abort + AllocGlobal)) -> Comps<Comp>
    ensures { HaveShortTimes result }
{
    let bank = Bank {
        lookup: 10,
        remote: 15,
        fill: 2,
        occupancy: 4,
        free: 0,
    };
    let controller = Controller {
        read: 100,
        write: 40,
        occupancy: 20,
        free: 0,
    };
    let list = vec![in rt.alloc(); Comp::Bank(bank), Comp::Controller(controller)];
    Comps::of(list.expect(rt, "memory"))
}

/// What is said of a file, or what is wrong with it.
type Answer = Result<Verdict, BadEvents>;

/// The answer of the checker.
fn answer(rt: &(impl Abort + AllocGlobal), file: &[u8]) -> Answer {
    assert!(rt; file.len() <= 1 << 28);
    match check(rt.alloc(), file, comps(rt)) {
        Ok(verdict) => Ok(verdict),
        Err(CheckFail::Bad(bad)) => Err(bad),
        Err(CheckFail::NoMemory) => panic!(rt; "memory"),
    }
}

/// Checks the answer.
fn is_answer(rt: &impl Abort, found: Answer, wanted: Answer) {
    assert!(rt; found == wanted);
}

/// Two misses at once, of two cores.
static TWO_AT_ONCE: [Load; 2] = [(0, 1, MISS), (1, 1, MISS)];

/// How their events fire: the second waits at the bank, and then at the controller.
static RIGHT: [Times; 6] = [
    (2, 12),
    (12, 112),
    (112, 114),
    (2, 16),
    (16, 132),
    (132, 134),
];

/// The file of two misses at once.
fn two_at_once(rt: &(impl Abort + AllocGlobal)) -> EventsFile {
    let mut file = new_file(rt);
    add(rt, &mut file, &TWO_AT_ONCE, &RIGHT);
    file
}

/// So many bytes of a file, or all of them and zeros behind them, with some bytes changed.
fn changed(
    rt: &(impl Abort + AllocGlobal),
    file: &[u8],
    len: usize,
    changes: &[(usize, u8)],
) -> Vec<u8> {
    let mut bytes = Vec::from_slice(rt.alloc(), file).expect(rt, "memory");
    bytes.resize(len, 0).expect(rt, "memory");
    for &(at, byte) in changes {
        assert!(rt; at < bytes.len());
        bytes[at] = byte;
    }
    bytes
}

/// How many bytes of the file of the two misses there are, which are changed, and the answer.
type Case = (usize, &'static [(usize, u8)], Answer);

static CASES: [Case; 17] = [
    (
        404,
        &[],
        Ok(Verdict::Yes {
            intervals: 1,
            events: 6,
        }),
    ),
    // a core is never wrong
    (
        404,
        &[(22, 255)],
        Ok(Verdict::Yes {
            intervals: 1,
            events: 6,
        }),
    ),
    // the second look-up finishes as if the bank were free
    (
        404,
        &[(268, 12)],
        Ok(Verdict::Finish {
            interval: 0,
            number: 3,
        }),
    ),
    // the second read does not wait for its look-up
    (
        404,
        &[(324, 12)],
        Ok(Verdict::Start {
            interval: 0,
            number: 4,
        }),
    ),
    // of two that are wrong the one of lesser number is told
    (
        404,
        &[(132, 13), (268, 12)],
        Ok(Verdict::Start {
            interval: 0,
            number: 1,
        }),
    ),
    // an event is wrong where all that wait for it are right by its noted finish
    (
        404,
        &[(76, 13), (132, 13), (140, 113), (196, 113), (204, 115)],
        Ok(Verdict::Finish {
            interval: 0,
            number: 0,
        }),
    ),
    (403, &[], Err(BadEvents::Short { at: 340 })),
    (84, &[], Err(BadEvents::Short { at: 84 })),
    (19, &[], Err(BadEvents::Short { at: 16 })),
    (405, &[], Err(BadEvents::After { at: 404 })),
    (404, &[(0, b'z')], Err(BadEvents::Magic)),
    (404, &[(4, 2)], Err(BadEvents::Version { found: 2 })),
    (404, &[(8, 3)], Err(BadEvents::Components { found: 3 })),
    // a bank serves no read
    (
        404,
        &[(24, 3)],
        Err(BadEvents::Field {
            interval: 0,
            place: 0,
        }),
    ),
    // a look-up names no bank
    (
        404,
        &[(26, 1)],
        Err(BadEvents::Field {
            interval: 0,
            place: 0,
        }),
    ),
    // an event is not its own parent
    (
        404,
        &[(108, 1)],
        Err(BadEvents::Field {
            interval: 0,
            place: 1,
        }),
    ),
    // the start of 2^60, and not that the file is short behind it
    (
        403,
        &[(75, 16)],
        Err(BadEvents::Field {
            interval: 0,
            place: 0,
        }),
    ),
];

/// Checks each case.
fn answer_so(rt: &(impl Abort + AllocGlobal), file: &[u8], cases: &[Case]) {
    for &(len, changes, wanted) in cases {
        is_answer(rt, answer(rt, &changed(rt, file, len, changes)), wanted);
    }
}

#[test]
fn the_first_thing_that_is_wrong_is_told(rt: HostRuntime) {
    let file = two_at_once(&rt);
    assert!(&rt; file.bytes().len() == 404);
    answer_so(&rt, file.bytes(), &CASES);
}

/// The answer on a file of intervals of loads, with their times.
fn answer_on(rt: &(impl Abort + AllocGlobal), intervals: &[(&[Load], &[Times])]) -> Answer {
    assert!(rt; intervals.len() < 100);
    let mut file = new_file(rt);
    for k in 0..intervals.len() {
        let (loads, times) = intervals[k];
        add(rt, &mut file, loads, times);
    }
    answer(rt, file.bytes())
}

#[test]
fn a_bank_is_as_the_interval_before_left_it(rt: HostRuntime) {
    let yes = Verdict::Yes {
        intervals: 2,
        events: 2,
    };
    let wrong = Verdict::Finish {
        interval: 1,
        number: 0,
    };
    let first: (&[Load], &[Times]) = (&[FOUND], &[(2, 12)]);
    let found = answer_on(&rt, &[first, (&[FOUND], &[(2, 16)])]);
    is_answer(&rt, found, Ok(yes));
    is_answer(&rt, answer_on(&rt, &[first, first]), Ok(wrong));
}

#[test]
fn a_bank_serves_the_earlier_start_first(rt: HostRuntime) {
    let yes = Verdict::Yes {
        intervals: 1,
        events: 2,
    };
    let later = (1, 3, Outcome::L2 { others: false });
    let found = answer_on(&rt, &[(&[later, FOUND], &[(4, 16), (2, 12)])]);
    is_answer(&rt, found, Ok(yes));
}

#[test]
fn intervals_without_events_are_counted(rt: HostRuntime) {
    let yes = Verdict::Yes {
        intervals: 2,
        events: 0,
    };
    is_answer(&rt, answer_on(&rt, &[(&[], &[]), (&[], &[])]), Ok(yes));
}
