//! What the weave takes the accesses of an interval from.
ghost use Rattle.std.specs.Prelude.{◌≡◌, ◌<◌, List, Some, length, slice_get};
ghost use Rattle.zs_num.specs.declared.entry.Entry.{Entry};
ghost use Rattle.weave_chains.specs.Listed.{list_of};

use zs_num::Entry;

/// Accesses of an interval, core by core, each core's in its order. They need not be kept as
/// entries.
pub trait Accesses {
    /// The accesses of each core, by the cores' numbers.
    ghost lists: { Self → List (List Entry) };

    /// How many cores there are.
    fn cores(&self) -> u16
        ensures { result ≡ length (lists self.now) };

    /// How many accesses a core has.
    fn count(&self, core: u16) -> u32
        requires { core < length (lists self.now) }
        ensures { result ≡ length (list_of (lists self.now) core) };

    /// The access at a place among those of a core. The first place is 0.
    fn access(&self, core: u16, place: u32) -> Entry
        requires { place < length (list_of (lists self.now) core) }
        ensures { slice_get (list_of (lists self.now) core) place ≡ Some result };
}
