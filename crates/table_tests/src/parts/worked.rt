//! Worked accesses to one line: outcomes, replies, keys and turns.
ghost use Rattle.std.specs.Prelude.{◌≡◌, ◌<◌, ◌≤◌, IfOk, length};
ghost use Rattle.parts_table.specs.NextKeys.{number_of_keys};

use super::resting::{asks, asks_its_own, close, fresh};
use crate::requests::{load_of, store_of};
use cache_set::Letter;
use parts_table::{Blocks, Merge};
use std::process::Abort;
use std::sync::Wait;
use std::test::Fail;
use zs_num::{Entry, LINE, Outcome};

const WORD: u64 = 0x11000;

/// The keys of core 0 and of core 1, when both loaded a word, core 0 stored to it twice, the second
/// time by its own L1 alone, and core 1 loaded it again.
fn accesses(rt: &(impl Abort + AllocGlobal + Wait)) -> Result<Vec<Blocks>, Fail>
    ensures { IfOk result (λ blocks. (length blocks.items ≡ 2) × (number_of_keys blocks.items ≡ 5)) }
{
    let (table, first, second) = fresh(rt.alloc())?;
    let (first, missed) = asks(rt, &table, first, load_of(WORD));
    let (second, shared) = asks(rt, &table, second, load_of(WORD));
    let (first, upgraded) = asks(rt, &table, first, store_of(WORD, 5));
    let (first, alone) = asks_its_own(rt, &table, first, store_of(WORD, 6));
    let Some(alone) = alone else {
        panic!(rt; "the core had the line alone");
    };
    let (second, loaded) = asks(rt, &table, second, load_of(WORD));
    met(
        rt,
        &missed,
        Outcome::Miss {
            dirty_victim: false,
        },
        0,
    );
    met(rt, &shared, Outcome::L2 { others: true }, 0);
    met(rt, &upgraded, Outcome::Upgrade { others: true }, 0);
    met(rt, &alone, Outcome::Hit, 0);
    met(rt, &loaded, Outcome::L2 { others: true }, 6);
    Ok(close(rt.alloc(), table, first, second)?.1)
}

/// Checks how the caches met an access, and the reply.
fn met(rt: &impl Abort, entry: &Entry, outcome: Outcome, reply: u64) {
    assert!(rt; entry.outcome == outcome && entry.reply == reply);
}

/// Checks the keys of a core, of which no two are the same.
fn are_keys(rt: &impl Abort, blocks: &mut Blocks, keys: &[u64]) {
    for &key in keys {
        assert!(rt; blocks.next_key() == key && key < u64::MAX);
        assert!(rt; blocks.take_run().count == 1);
    }
    assert!(rt; blocks.next_key() == u64::MAX);
}

/// Checks the times and who was alone.
fn have_keys(rt: &(impl Abort + AllocGlobal + Wait)) -> Result<(), Fail> {
    let mut blocks = accesses(rt)?;
    are_keys(rt, &mut blocks[0], &[2, 6, 7]);
    are_keys(rt, &mut blocks[1], &[4, 8]);
    Ok(())
}

#[test]
fn keys_tell_times_and_who_was_alone(rt: HostRuntime) -> Result<(), Fail> {
    have_keys(&rt)
}

/// Checks turns.
fn are_turns(rt: &impl Abort, turns: &[u16], wanted: &[u16]) {
    assert!(rt; turns == wanted);
}

/// Checks the order of the accesses.
fn have_turns(rt: &(impl Abort + AllocGlobal + Wait)) -> Result<(), Fail> {
    let mut blocks = accesses(rt)?;
    let mut turns = Vec::with_capacity(rt.alloc(), 5)?;
    Merge::new(rt.alloc(), 2)?.put_in_order(&mut blocks, &mut turns);
    are_turns(rt, &turns, &[0, 1, 0, 0, 1]);
    Ok(())
}

#[test]
fn turns_are_in_the_order_of_keys(rt: HostRuntime) -> Result<(), Fail> {
    have_turns(&rt)
}

/// Checks that a core without the line is served nothing, and has made nothing then.
fn is_not_served(rt: &(impl Abort + AllocGlobal + Wait)) -> Result<(), Fail> {
    let (table, first, second) = fresh(rt.alloc())?;
    let (first, none) = asks_its_own(rt, &table, first, load_of(WORD));
    assert!(rt; none.is_none());
    let (parts, mut blocks) = close(rt.alloc(), table, first, second)?;
    assert!(rt; parts.letter(0, WORD / LINE) == Letter::I);
    are_keys(rt, &mut blocks[0], &[]);
    Ok(())
}

#[test]
fn an_l1_without_the_line_serves_nothing(rt: HostRuntime) -> Result<(), Fail> {
    is_not_served(&rt)
}
