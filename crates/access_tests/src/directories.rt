//! A line's sharers and owner, as cores get it and lose it.
ghost use Rattle.std.specs.Prelude.{◌≡◌, ◌<◌, ◌≤◌, IfOk};

use mesi_dir::Directory;
use std::alloc::Global;
use std::process::Abort;
use std::test::Fail;
use zs_num::NoMemory;

/// A directory with room for so many lines and for so many cores, one of which owns a line.
fn owned(alloc: Global, room: u32, cores: u16, line: u64, core: u16) -> Result<Directory, NoMemory>
    requires room { 1 ≤ room }
    requires cores { cores ≤ 256 }
    requires core { core < cores }
    ensures { IfOk result (λ d. d.cores ≡ cores) }
{
    let mut directory = Directory::new(alloc, room, cores)?;
    directory.grant(line, core, true);
    Ok(directory)
}

/// A core gets a line that another core has.
fn shares(rt: &impl Abort, directory: &mut Directory, line: u64, core: u16)
    requires { core < directory.old.cores }
    ensures { directory.new.cores ≡ directory.old.cores }
{
    assert!(rt; directory.any_other(line, core));
    directory.grant(line, core, false);
}

/// A core loses a line.
fn loses(directory: &mut Directory, line: u64, core: u16)
    requires { core < directory.old.cores }
    ensures { directory.new.cores ≡ directory.old.cores }
{
    directory.drop_core(line, core);
}

/// No core has a line any more.
fn clear(directory: &mut Directory, line: u64)
    ensures { directory.new.cores ≡ directory.old.cores }
{
    directory.clear(line);
}

/// Checks the owner of a line.
fn has_owner(rt: &impl Abort, directory: &Directory, line: u64, wanted: Option<u16>) {
    assert!(rt; directory.owner(line) == wanted);
}

/// Checks whether a core has a line, and whether another has it.
fn has(rt: &impl Abort, directory: &Directory, line: u64, core: u16, wanted: (bool, bool))
    requires { core < directory.now.cores }
{
    let other = directory.any_other(line, core);
    assert!(rt; (directory.holds(line, core), other) == wanted);
}

#[test]
fn a_line_has_its_sharers_and_at_most_one_owner(rt: HostRuntime) -> Result<(), Fail> {
    let mut directory = owned(rt.alloc(), 2, 3, 4, 2)?;
    has_owner(&rt, &directory, 4, Some(2));
    has(&rt, &directory, 4, 2, (true, false));
    has(&rt, &directory, 4, 0, (false, true));
    shares(&rt, &mut directory, 4, 0);
    loses(&mut directory, 4, 2);
    has_owner(&rt, &directory, 4, None);
    has(&rt, &directory, 4, 0, (true, false));
    has(&rt, &directory, 4, 2, (false, true));
    Ok(())
}

#[test]
fn a_line_that_is_cleared_has_no_sharer(rt: HostRuntime) -> Result<(), Fail> {
    let mut directory = owned(rt.alloc(), 1, 256, 7, 64)?;
    shares(&rt, &mut directory, 7, 255);
    has_owner(&rt, &directory, 7, None);
    has(&rt, &directory, 7, 64, (true, true));
    has(&rt, &directory, 7, 255, (true, true));
    has(&rt, &directory, 7, 0, (false, true));
    clear(&mut directory, 7);
    has(&rt, &directory, 7, 64, (false, false));
    Ok(())
}

#[test]
fn another_core_is_found_among_256_and_not_when_it_has_gone(rt: HostRuntime) -> Result<(), Fail> {
    let mut directory = owned(rt.alloc(), 1, 256, 9, 0)?;
    shares(&rt, &mut directory, 9, 63);
    shares(&rt, &mut directory, 9, 64);
    shares(&rt, &mut directory, 9, 255);
    has(&rt, &directory, 9, 255, (true, true));
    loses(&mut directory, 9, 0);
    loses(&mut directory, 9, 63);
    loses(&mut directory, 9, 64);
    has(&rt, &directory, 9, 255, (true, false));
    Ok(())
}
