//! Laws over the definitions alone, each the contract of a function that does nothing.
ghost use Rattle.std.specs.Prelude.{ℕ};
ghost use Rattle.zs_num.specs.declared.entry.Entry.{Entry};
ghost use Rattle.elf_load.specs.MemoryImage.{MemoryImage};
ghost use Rattle.bound_phase.specs.Laws.{BoundsAreOfTheMachine, BoundsArePhases};

/// What `bound` promises makes its entries, in their order, a legal schedule of their cores, under
/// which the machine of one thread makes these entries and leaves these cores: their replies are
/// those of one flat memory, and their outcomes those of one machine's caches, that take all
/// accesses in this order.
pub fn bounds_are_of_the_machine()
    ensures machine { (time : Entry → ℕ) (image : MemoryImage) (end : ℕ) → BoundsAreOfTheMachine time image end }
    ensures shards { (time : Entry → ℕ) (image : MemoryImage) (end : ℕ) → BoundsArePhases time image end }
{
    bound_core::laws::histories_are_phases();
    bound_core::laws::histories_are_runs_of_the_machine();
}
