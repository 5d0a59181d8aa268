//! The bytes of a schedule, its way back, and each refusal of a file.
use crate::checks::{has_counts, has_turns};
use access_log::Schedule;
use schedule_file::{BadSchedule, ScheduleReadFail, read, write};
use std::alloc::Global;
use std::process::Abort;
use std::test::Fail;
use zs_num::{Bytes, NoMemory};

/// Two cores, and two intervals: turns of cores 0, 1 and 1, and of core 0.
static FILE: [u8; 28] = *b"ZSCH\x01\0\0\0\x02\0\0\0\x02\0\0\0\x03\0\0\0\0\x01\x01\x01\0\0\0\0";

/// The file of an empty schedule of two cores.
static EMPTY: [u8; 16] = *b"ZSCH\x01\0\0\0\x02\0\0\0\0\0\0\0";

/// A turn of the last of 65 cores, whose numbers have two bytes each.
static WIDE: [u8; 22] = *b"ZSCH\x02\0\0\0\x41\0\0\0\x01\0\0\0\x01\0\0\0\x40\0";

/// Why a file for so many cores is not read.
fn fail(alloc: Global, cores: u16, file: &[u8]) -> Option<ScheduleReadFail> {
    read(alloc, file, cores).err()
}

/// Checks what is wrong with a file for so many cores.
fn is_wrong(
    rt: &(impl Abort + AllocGlobal),
    cores: u16,
    file: &[u8],
    wanted: Option<BadSchedule>,
) -> Result<(), NoMemory> {
    match fail(rt.alloc(), cores, file) {
        Some(ScheduleReadFail::Bad(bad)) => assert!(rt; wanted == Some(bad)),
        Some(ScheduleReadFail::NoMemory) => return Err(NoMemory),
        None => assert!(rt; wanted.is_none()),
    }
    Ok(())
}

#[test]
fn a_schedule_is_read_from_its_file(rt: HostRuntime) -> Result<(), Fail> {
    let schedule = read(rt.alloc(), &FILE, 2)?;
    has_counts(&rt, &schedule, 2, 2);
    has_turns(&rt, &schedule, 0, &[0, 1, 1]);
    has_turns(&rt, &schedule, 1, &[0]);
    Ok(())
}

/// The file of a schedule of two cores without intervals.
fn written(alloc: Global) -> Result<Bytes, NoMemory> {
    write(alloc, &Schedule::new(alloc, 2))
}

#[test]
fn a_schedule_without_intervals_is_a_header(rt: HostRuntime) -> Result<(), Fail> {
    let file = written(rt.alloc())?;
    assert!(rt; file.as_slice() == EMPTY.as_slice());
    Ok(is_wrong(&rt, 2, &EMPTY, None)?)
}

/// The place of a byte of the file, another byte, and what is wrong with it there.
static CHANGED: [(usize, u8, BadSchedule); 6] = [
    (3, b'h', BadSchedule::Magic),
    (4, 2, BadSchedule::Version { found: 2 }),
    (8, 3, BadSchedule::Cores { found: 3 }),
    (
        22,
        2,
        BadSchedule::Core {
            interval: 0,
            place: 2,
        },
    ),
    (12, 1, BadSchedule::After { at: 23 }),
    (12, 3, BadSchedule::Short { at: 28 }),
];

/// The file with another byte at a place.
fn changed(rt: &impl Abort, at: usize, byte: u8) -> [u8; 28] {
    let mut file = FILE;
    assert!(rt; at < file.len());
    file[at] = byte;
    file
}

#[test]
fn each_refusal_names_the_first_thing_that_is_wrong(rt: HostRuntime) -> Result<(), Fail> {
    for &(at, byte, bad) in &CHANGED {
        is_wrong(&rt, 2, &changed(&rt, at, byte), Some(bad))?;
    }
    Ok(())
}

/// How much of the file there is, and where the field begins that is cut off.
static CUT: [(usize, u64); 8] = [
    (0, 0),
    (3, 0),
    (7, 4),
    (11, 8),
    (15, 12),
    (19, 16),
    (22, 20),
    (27, 27),
];

/// The first bytes of the file.
fn cut(rt: &impl Abort, len: usize) -> &'static [u8] {
    assert!(rt; len <= FILE.len());
    &FILE[..len]
}

#[test]
fn a_file_that_ends_within_a_field_is_short_where_the_field_begins(
    rt: HostRuntime,
) -> Result<(), Fail> {
    for &(len, at) in &CUT {
        is_wrong(&rt, 2, cut(&rt, len), Some(BadSchedule::Short { at }))?;
    }
    Ok(())
}

/// The file of a schedule of 65 cores with one turn, of the last of them.
fn wide(rt: &(impl Abort + AllocGlobal)) -> Bytes {
    let alloc = rt.alloc();
    let mut schedule = Schedule::new(alloc, 65);
    let turns = Vec::from_slice(alloc, &[64]).expect(rt, "memory");
    schedule.push(turns).expect(rt, "memory");
    write(alloc, &schedule).expect(rt, "memory")
}

#[test]
fn a_core_of_more_than_64_has_two_bytes(rt: HostRuntime) {
    assert!(&rt; wide(&rt).as_slice() == WIDE.as_slice());
}

#[test]
fn a_schedule_of_65_cores_is_read_from_its_file(rt: HostRuntime) -> Result<(), Fail> {
    let schedule = read(rt.alloc(), &WIDE, 65)?;
    has_counts(&rt, &schedule, 65, 1);
    has_turns(&rt, &schedule, 0, &[64]);
    Ok(())
}

/// The file of 65 cores with another byte at a place.
fn changed_wide(rt: &impl Abort, at: usize, byte: u8) -> [u8; 22] {
    let mut file = WIDE;
    assert!(rt; at < file.len());
    file[at] = byte;
    file
}

#[test]
fn the_version_is_that_for_so_many_cores(rt: HostRuntime) -> Result<(), Fail> {
    let old = changed_wide(&rt, 4, 1);
    is_wrong(&rt, 65, &old, Some(BadSchedule::Version { found: 1 }))?;
    let past = changed_wide(&rt, 20, 0x41);
    let stranger = BadSchedule::Core {
        interval: 0,
        place: 0,
    };
    is_wrong(&rt, 65, &past, Some(stranger))?;
    Ok(is_wrong(&rt, 65, &WIDE[..21], Some(BadSchedule::Short { at: 20 }))?)
}
