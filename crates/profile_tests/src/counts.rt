//! How often instructions were executed: those that follow each other, and those of them alone.
use execution_counts::ExecutionCounts;
use std::process::Abort;
use std::test::Fail;

/// Checks the counts of instructions that follow each other, the first of them at an address.
fn are_counts(rt: &impl Abort, counts: &ExecutionCounts, core: u16, first: u64, wanted: &[u64]) {
    let mut at = first;
    for count in wanted {
        assert!(rt; counts.get(core, at) == *count);
        at = at.saturating_add(4);
    }
}

/// Checks the addresses of a core that have a count, where no other one is told.
fn are_next(rt: &impl Abort, counts: &ExecutionCounts, core: u16, wanted: &[u64]) {
    let mut from = 0u64;
    for address in wanted {
        assert!(rt; counts.next(core, from) == Some(*address));
        from = address.saturating_add(1);
    }
    assert!(rt; counts.next(core, from).is_none());
}

#[test]
fn stretches_of_three_lengths_and_one_instruction_add_up(rt: HostRuntime) -> Result<(), Fail> {
    let mut counts = ExecutionCounts::new(rt.alloc());
    counts.add_stretch(0, 0x100, 3)?;
    counts.add_stretch(0, 0x100, 3)?;
    counts.add_stretch(0, 0x100, 2)?;
    counts.add_stretch(0, 0x100, 4)?;
    counts.add(0, 0x104)?;
    are_counts(&rt, &counts, 0, 0x0FC, &[0, 4, 5, 3, 1, 0]);
    are_counts(&rt, &counts, 0, 0x102, &[0, 0, 0]);
    are_counts(&rt, &counts, 1, 0x100, &[0, 0, 0]);
    are_next(&rt, &counts, 0, &[0x100, 0x104, 0x108, 0x10C]);
    are_next(&rt, &counts, 1, &[]);
    Ok(())
}

#[test]
fn a_stretch_begins_within_another_one(rt: HostRuntime) -> Result<(), Fail> {
    let mut counts = ExecutionCounts::new(rt.alloc());
    counts.add_stretch(3, 0x2FC, 4)?;
    counts.add_stretch(3, 0x304, 3)?;
    are_counts(&rt, &counts, 3, 0x2FC, &[1, 1, 2, 2, 1, 0]);
    are_next(&rt, &counts, 3, &[0x2FC, 0x300, 0x304, 0x308, 0x30C]);
    Ok(())
}

#[test]
fn a_stretch_of_any_length_is_counted_to_its_end(rt: HostRuntime) -> Result<(), Fail> {
    let mut counts = ExecutionCounts::new(rt.alloc());
    counts.add_stretch(0, 0x1000, 128)?;
    counts.add_stretch(1, 0x1000, 129)?;
    are_counts(&rt, &counts, 0, 0x11F8, &[1, 1, 0, 0]);
    are_counts(&rt, &counts, 1, 0x11F8, &[1, 1, 1, 0]);
    assert!(&rt; counts.next(0, 0x11F9) == Some(0x11FC));
    assert!(&rt; counts.next(0, 0x11FD).is_none());
    Ok(())
}

#[test]
fn the_last_address_is_counted(rt: HostRuntime) -> Result<(), Fail> {
    let mut counts = ExecutionCounts::new(rt.alloc());
    counts.add(0, u64::MAX)?;
    assert!(&rt; counts.get(0, u64::MAX) == 1);
    assert!(&rt; counts.next(0, 0) == Some(u64::MAX));
    assert!(&rt; counts.next(0, u64::MAX) == Some(u64::MAX));
    Ok(())
}
