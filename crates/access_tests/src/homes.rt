//! The lines of a home's L2 as they come, are used and leave, and who has them: worked by hand for
//! two sets of two ways.
ghost use Rattle.std.specs.Prelude.{◌≡◌, ◌<◌};

use crate::shards::image;
use elf_load::Image;
use home::{Home, Row};
use shard::others_touched;
use std::alloc::Global;
use std::process::Abort;
use std::test::Fail;
use zs_num::{NoMemory, Request};

/// The one home of a machine of two cores.
fn home_of(alloc: Global, image: &Image) -> Result<Home, NoMemory>
    requires base { image.now.base ≡ 65536 }
    requires size { image.now.size ≡ 1048576 }
{
    Home::new(alloc, 0, 1, 2, 2, 2, image)
}

/// A line that the L2 doesn't have comes in. Checks which line leaves for it, and that the home
/// says so before.
fn comes(rt: &impl Abort, home: &mut Home, line: u64, wanted: Option<u64>) {
    assert!(rt; line_of(home.victim(line)) == wanted);
    let evicted = match home.row(line) {
        None => home.enter(line),
        Some(_row) => panic!(rt; "the line is there"),
    };
    assert!(rt; line_of(evicted) == wanted);
}

fn line_of(evicted: Option<(u64, Row)>) -> Option<u64> {
    match evicted {
        Some((line, _row)) => Some(line),
        None => None,
    }
}

/// A line that the L2 has is used.
fn is_used(rt: &impl Abort, home: &mut Home, line: u64) {
    assert!(rt; home.meet(line).is_some());
}

/// Checks of a line whether a core's L1 and its instruction cache have it, and whether one core
/// alone does.
fn has(rt: &impl Abort, home: &Home, line: u64, core: u16, wanted: (bool, bool, bool))
    requires { core < 256 }
{
    match home.row(line) {
        Some(row) => {
            assert!(rt; (row.sharers.has(core), row.fetchers.has(core), row.alone) == wanted);
        }
        None => panic!(rt; "the line is not there"),
    }
}

/// Checks whether an access of core 0 or 1 touches the L1 of the other.
fn touches(rt: &impl Abort, home: &Home, core: u16, request: Request, wanted: bool)
    requires { core < 2 }
{
    let others = others_touched(home, core, request);
    assert!(rt; !others.has(core) && others.has(1 - core) == wanted);
}

fn load(line: u64) -> Request
    requires { line < 4096 }
{
    Request::Load {
        addr: 64 * line,
        width: 8,
    }
}

fn store(line: u64) -> Request
    requires { line < 4096 }
{
    Request::Store {
        addr: 64 * line,
        width: 8,
        value: 5,
    }
}

fn fetch(line: u64) -> Request
    requires { line < 4096 }
{
    Request::Fetch { addr: 64 * line }
}

#[test]
fn the_line_of_a_set_that_was_used_longest_ago_leaves_for_another(
    rt: HostRuntime,
) -> Result<(), Fail> {
    let image = image(rt.alloc())?;
    let mut home = home_of(rt.alloc(), &image)?;
    comes(&rt, &mut home, 1024, None);
    comes(&rt, &mut home, 1026, None);
    comes(&rt, &mut home, 1025, None);
    is_used(&rt, &mut home, 1024);
    comes(&rt, &mut home, 1028, Some(1026));
    comes(&rt, &mut home, 1030, Some(1024));
    Ok(())
}

#[test]
fn a_line_of_the_l2_has_the_cores_that_got_it(rt: HostRuntime) -> Result<(), Fail> {
    let image = image(rt.alloc())?;
    let mut home = home_of(rt.alloc(), &image)?;
    comes(&rt, &mut home, 1024, None);
    has(&rt, &home, 1024, 0, (false, false, false));
    home.grant(1024, 0, true);
    has(&rt, &home, 1024, 0, (true, false, true));
    home.grant(1024, 1, false);
    has(&rt, &home, 1024, 0, (true, false, false));
    home.fetch(1024, 1);
    has(&rt, &home, 1024, 1, (true, true, false));
    home.own(1024, 1);
    has(&rt, &home, 1024, 0, (false, false, true));
    home.drop_core(1024, 1);
    has(&rt, &home, 1024, 1, (false, true, false));
    home.drop_fetcher(1024, 1);
    has(&rt, &home, 1024, 1, (false, false, false));
    Ok(())
}

#[test]
fn a_home_says_whose_l1_an_access_to_its_line_touches(rt: HostRuntime) -> Result<(), Fail> {
    let image = image(rt.alloc())?;
    let mut home = home_of(rt.alloc(), &image)?;
    comes(&rt, &mut home, 1024, None);
    home.own(1024, 0);
    touches(&rt, &home, 0, store(1024), false);
    touches(&rt, &home, 1, load(1024), true);
    touches(&rt, &home, 1, fetch(1024), false);
    home.grant(1024, 1, false);
    touches(&rt, &home, 0, load(1024), false);
    touches(&rt, &home, 0, store(1024), true);
    Ok(())
}

#[test]
fn an_access_touches_the_l1s_that_have_the_line_that_leaves(rt: HostRuntime) -> Result<(), Fail> {
    let image = image(rt.alloc())?;
    let mut home = home_of(rt.alloc(), &image)?;
    comes(&rt, &mut home, 1024, None);
    home.own(1024, 0);
    touches(&rt, &home, 1, load(1026), false);
    comes(&rt, &mut home, 1026, None);
    touches(&rt, &home, 1, load(1028), true);
    home.drop_core(1024, 0);
    touches(&rt, &home, 1, load(1028), false);
    home.fetch(1024, 0);
    touches(&rt, &home, 1, load(1028), true);
    touches(&rt, &home, 0, load(1028), false);
    Ok(())
}
