//! Ranges of numbers, given by their start and their length, whose ends may pass the type.
ghost use Rattle.std.specs.Prelude.{◌≡◌, ◌+◌};
ghost use Rattle.elf_load.specs.MemoryImage.{ranges_overlap, is_within};

/// Whether `count` numbers from `start` on lie among the `size` numbers from `base` on.
pub fn is_within(start: u64, count: u64, base: u64, size: u64) -> bool
    ensures { result ≡ is_within start count base size }
{
    base <= start && start - base <= size && count <= size - (start - base)
}

/// Whether `count` numbers from `first` on and `others` from `second` on have a number in common.
pub fn ranges_overlap(first: u64, count: u64, second: u64, others: u64) -> bool
    ensures { result ≡ ranges_overlap first count second others }
{
    if first <= second {
        second - first < count && 0 < others
    } else {
        first - second < others && 0 < count
    }
}
