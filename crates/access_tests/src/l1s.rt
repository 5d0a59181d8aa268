//! The L1 of one core: what it serves alone, worked by hand for two sets of one way.
ghost use Rattle.std.specs.Prelude.{◌<◌};

use cache_set::Letter;
use l1_cache::L1;
use std::alloc::Global;
use std::process::Abort;
use std::test::Fail;
use zs_num::{NoMemory, Request};

/// An L1 of two sets of one way, with an instruction cache as large.
fn small(alloc: Global) -> Result<L1, NoMemory> {
    L1::new(alloc, 1, 2, 1, Some((2, 1)), 4)
}

/// A line that it doesn't have comes in, with one byte 64 times.
fn comes(rt: &impl Abort, l1: &mut L1, line: u64, letter: Letter, byte: u8) {
    let is_there = l1.bytes(line).is_some();
    assert!(rt; !is_there);
    l1.take_in(line, letter, &[byte; 64]);
}

/// Checks what it answers, alone, to a load of eight bytes at a line's second word.
fn loads(rt: &impl Abort, l1: &mut L1, line: u64, wanted: Option<u64>)
    requires { line < 4096 }
{
    let request = Request::Load {
        addr: 64 * line + 8,
        width: 8,
    };
    assert!(rt; l1.serve_alone::<Request>(request) == wanted);
}

/// Checks that it does not serve a store to a line alone.
fn does_not_store(rt: &impl Abort, l1: &mut L1, line: u64)
    requires { line < 4096 }
{
    let request = Request::Store {
        addr: 64 * line + 8,
        width: 8,
        value: 5,
    };
    assert!(rt; l1.serve_alone::<Request>(request).is_none());
}

#[test]
fn a_line_is_loaded_from_the_l1_alone_until_it_leaves(rt: HostRuntime) -> Result<(), Fail> {
    let mut l1 = small(rt.alloc())?;
    loads(&rt, &mut l1, 1024, None);
    comes(&rt, &mut l1, 1024, Letter::S, 7);
    loads(&rt, &mut l1, 1024, Some(0x0707_0707_0707_0707));
    loads(&rt, &mut l1, 1025, None);
    l1.give_up(1024);
    loads(&rt, &mut l1, 1024, None);
    Ok(())
}

#[test]
fn a_line_that_is_not_free_to_write_is_not_written_alone(rt: HostRuntime) -> Result<(), Fail> {
    let mut l1 = small(rt.alloc())?;
    comes(&rt, &mut l1, 1024, Letter::M, 7);
    does_not_store(&rt, &mut l1, 1024);
    loads(&rt, &mut l1, 1024, Some(0x0707_0707_0707_0707));
    Ok(())
}

#[test]
fn the_only_way_of_a_set_goes_to_the_line_that_comes(rt: HostRuntime) -> Result<(), Fail> {
    let mut l1 = small(rt.alloc())?;
    comes(&rt, &mut l1, 1024, Letter::E, 7);
    loads(&rt, &mut l1, 1024, Some(0x0707_0707_0707_0707));
    comes(&rt, &mut l1, 1026, Letter::E, 9);
    loads(&rt, &mut l1, 1024, None);
    loads(&rt, &mut l1, 1026, Some(0x0909_0909_0909_0909));
    Ok(())
}

#[test]
fn a_stand_in_has_no_line(rt: HostRuntime) -> Result<(), Fail> {
    let mut l1 = L1::stand_in(rt.alloc())?;
    loads(&rt, &mut l1, 1024, None);
    comes(&rt, &mut l1, 1024, Letter::E, 7);
    loads(&rt, &mut l1, 1024, Some(0x0707_0707_0707_0707));
    Ok(())
}
