//! What serves the accesses of a core.
ghost use Rattle.std.specs.Prelude.{◌≡◌, ◌+◌, ◌≤◌, ℕ, Bool, List, [], ◌∷◌, Option, false, IfNone, IfSome, IsTrue};
ghost use Rattle.zs_num.specs.declared.entry.Entry.{Entry};
ghost use Rattle.zs_num.specs.declared.request.Request.{Request};
ghost use Rattle.zs_num.specs.declared.request.Request.TheVariants.{Load, Store, Fetch};
ghost use Rattle.zs_num.specs.Servable.{IsServable};
ghost use Rattle.rv_core.specs.Port.{Gains, IsHit};

use zs_num::{Cycle, Entry, Request};

/// What serves the accesses of a core, one after the other.
pub trait Port {
    /// The number of the core.
    ghost core: { Self → ℕ };

    /// The first address of memory, and its size in bytes.
    ghost base: { Self → ℕ };

    ghost size: { Self → ℕ };

    /// Whether the cores of its machine have instruction caches, so that they can fetch.
    ghost l1i: { Self → Bool };

    /// For how many accesses there is room at least.
    ghost room: { Self → ℕ };

    /// Which entry, and which port after it, may come of a request that starts then.
    ghost gives: { Self → (start : ℕ) → Request → Entry → Self → Type 0 };

    /// The entries that it answered, in order, where it logs them.
    ghost logged: { Self → Option (List Entry) };

    /// Serves an access that starts then.
    fn access(&mut self, start: Cycle, request: Request) -> Entry
        requires room { 1 ≤ room self.old }
        requires servable { IsServable (base self.old) (size self.old) (l1i self.old) request }
        ensures gives { gives self.old start request result self.new }
        ensures core { result.core ≡ core self.old }
        ensures start { result.start ≡ start }
        ensures request { result.request ≡ request }
        ensures same_core { core self.new ≡ core self.old }
        ensures same_base { base self.new ≡ base self.old }
        ensures same_size { size self.new ≡ size self.old }
        ensures same_l1i { l1i self.new ≡ l1i self.old }
        ensures room { room self.old ≤ room self.new + 1 }
        ensures logged { Gains (logged self.old) (result ∷ []) (logged self.new) };

    /// Serves a load of so many bytes that starts then, where it is a hit that the port has at hand:
    /// the answer is the reply. None: nothing was done, and `access` serves it, as it serves any.
    #[inline(always)]
    fn load_hit(&mut self, _start: Cycle, _addr: u64, _width: u8) -> Option<u64>
        requires room { 1 ≤ room self.old }
        requires servable { IsServable (base self.old) (size self.old) (l1i self.old) (Load _width _addr) }
        ensures hit { IfSome result (λ reply. IsHit gives core logged self.old _start (Load _width _addr) reply self.new) }
        ensures none { IfNone result (self.new ≡ self.old) }
        ensures same_core { core self.new ≡ core self.old }
        ensures same_base { base self.new ≡ base self.old }
        ensures same_size { size self.new ≡ size self.old }
        ensures same_l1i { l1i self.new ≡ l1i self.old }
        ensures room { room self.old ≤ room self.new + 1 }
    {
        None
    }

    /// The same of a store. It says whether it served it.
    #[inline(always)]
    fn store_hit(&mut self, _start: Cycle, _addr: u64, _width: u8, _value: u64) -> bool
        requires room { 1 ≤ room self.old }
        requires servable { IsServable (base self.old) (size self.old) (l1i self.old) (Store _width _addr _value) }
        ensures hit { IsTrue result → (reply : ℕ) × IsHit gives core logged self.old _start (Store _width _addr _value) reply self.new }
        ensures none { result ≡ false → self.new ≡ self.old }
        ensures same_core { core self.new ≡ core self.old }
        ensures same_base { base self.new ≡ base self.old }
        ensures same_size { size self.new ≡ size self.old }
        ensures same_l1i { l1i self.new ≡ l1i self.old }
        ensures room { room self.old ≤ room self.new + 1 }
    {
        false
    }

    /// The same of a fetch. It says whether it served it.
    #[inline(always)]
    fn fetch_hit(&mut self, _start: Cycle, _addr: u64) -> bool
        requires room { 1 ≤ room self.old }
        requires servable { IsServable (base self.old) (size self.old) (l1i self.old) (Fetch _addr) }
        ensures hit { IsTrue result → (reply : ℕ) × IsHit gives core logged self.old _start (Fetch _addr) reply self.new }
        ensures none { result ≡ false → self.new ≡ self.old }
        ensures same_core { core self.new ≡ core self.old }
        ensures same_base { base self.new ≡ base self.old }
        ensures same_size { size self.new ≡ size self.old }
        ensures same_l1i { l1i self.new ≡ l1i self.old }
        ensures room { room self.old ≤ room self.new + 1 }
    {
        false
    }
}
