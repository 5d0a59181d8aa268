//! Where memory lies.
ghost use Rattle.std.specs.Prelude.{◌≡◌, ◌+◌, ◌≤◌, ◌^◌};
ghost use Rattle.rv_core.specs.Accesses.{is_in_memory};

/// The range of memory: so many bytes from the first on.
#[derive(Clone, Copy)]
pub struct MemoryRange {
    /// The address of the first byte.
    pub base: u64,
    /// How many bytes there are.
    pub size: u64,
}

impl MemoryRange {
    /// Whether so many bytes from an address on lie in memory.
    #[inline(always)]
    pub fn has(&self, addr: u64, width: u64) -> bool
        requires { self.now.base + self.now.size ≤ 2 ^ 48 }
        ensures { result ≡ is_in_memory self.now addr width }
    {
        let end = self.base + self.size;
        self.base <= addr && addr <= end && width <= end - addr
    }
}
