//! Sets of two ways that fill up, and the letters of their marks.
use Act::{Change, LastIfFull, Look, Put, TakeOut, Touch};
use cache_set::{Letter, Set, Way};
use std::process::Abort;
use std::test::Fail;

/// What is asked of a set, with the line and the mark where it takes them. Where a line is touched
/// or changed, the answer is what a look then finds.
#[derive(Clone, Copy)]
enum Act {
    Put(u64, u8),
    Touch(u64),
    Change(u64, u8),
    Look(u64),
    TakeOut(u64),
    LastIfFull,
}

/// A line and its mark.
type Marked = (u64, u8);

/// The line and the mark with which a set answers.
fn answer(rt: &impl Abort, set: &mut Set, act: Act) -> Option<Marked> {
    match act {
        Put(line, mark) => {
            assert!(rt; set.look(line).is_none());
            of_way(set.put(line, mark))
        }
        Touch(line) => {
            assert!(rt; set.look(line).is_some());
            set.touch(line);
            marked(line, set.look(line))
        }
        Change(line, mark) => {
            assert!(rt; set.look(line).is_some());
            set.change(line, mark);
            marked(line, set.look(line))
        }
        Look(line) => marked(line, set.look(line)),
        TakeOut(line) => marked(line, set.take_out(line)),
        LastIfFull => of_way(set.last_if_full()),
    }
}

/// A way's line and mark.
fn of_way(way: Option<Way>) -> Option<Marked> {
    match way {
        Some(way) => Some((way.line, way.mark)),
        None => None,
    }
}

/// A line with its mark, if it has one.
fn marked(line: u64, mark: Option<u8>) -> Option<Marked> {
    match mark {
        Some(mark) => Some((line, mark)),
        None => None,
    }
}

/// A new set of two ways answers each call as the row says.
fn answers(rt: &(impl Abort + AllocGlobal), rows: &[(Act, Option<Marked>)]) -> Result<(), Fail> {
    answers_from(rt, 0, rows)
}

/// The same of a set whose ages begin after this number.
fn answers_from(
    rt: &(impl Abort + AllocGlobal),
    tick: u64,
    rows: &[(Act, Option<Marked>)],
) -> Result<(), Fail> {
    assert!(rt; tick < 1 << 62);
    let mut set = Set::with_tick(rt.alloc(), 2, tick)?;
    for &(act, wanted) in rows {
        assert!(rt; answer(rt, &mut set, act) == wanted);
    }
    Ok(())
}

static FULL: [(Act, Option<Marked>); 10] = [
    (Put(7, 1), None),
    (LastIfFull, None),
    (Put(8, 2), None),
    (Touch(7), Some((7, 1))),
    (LastIfFull, Some((8, 2))),
    (Put(9, 3), Some((8, 2))),
    (Look(7), Some((7, 1))),
    (Look(8), None),
    (Look(9), Some((9, 3))),
    (LastIfFull, Some((7, 1))),
];

#[test]
fn the_least_recently_used_line_is_evicted_from_a_full_set(rt: HostRuntime) -> Result<(), Fail> {
    answers(&rt, &FULL)
}

#[test]
fn ages_that_are_written_anew_leave_the_order(rt: HostRuntime) -> Result<(), Fail> {
    answers_from(&rt, (1 << 62) - 3, &FULL)?;
    answers_from(&rt, (1 << 62) - 2, &FULL)?;
    answers_from(&rt, (1 << 62) - 1, &FULL)
}

static CHANGED: [(Act, Option<Marked>); 8] = [
    (Put(7, 1), None),
    (Put(8, 2), None),
    (Change(7, 4), Some((7, 4))),
    (LastIfFull, Some((7, 4))),
    (TakeOut(8), Some((8, 2))),
    (TakeOut(8), None),
    (Put(9, 3), None),
    (LastIfFull, Some((7, 4))),
];

#[test]
fn a_changed_line_keeps_its_place_and_a_line_that_is_taken_out_leaves_room(
    rt: HostRuntime,
) -> Result<(), Fail> {
    answers(&rt, &CHANGED)
}

#[test]
fn a_letter_is_read_again_from_its_mark(rt: HostRuntime) {
    for letter in [Letter::M, Letter::E, Letter::S, Letter::I] {
        assert!(rt; Letter::of_mark(letter.mark()) == letter);
    }
}
