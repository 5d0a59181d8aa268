//! Laws over whole instructions and whole runs of a core, in the words of the RISC-V Unprivileged
//! ISA manual. Each is the contract of a function that does nothing.
ghost use Rattle.std.specs.Prelude.{◌≡◌, ◌<◌, ℕ, List, All, Some, length};
ghost use Rattle.std.specs.List.{flat_map};
ghost use Rattle.elf_load.specs.MemoryImage.{MemoryImage};
ghost use Rattle.zs_num.specs.PairedRight.{pairing_after_all, ArePairedRight, IsPairedRight};
ghost use Rattle.zs_num.specs.Pairing.{pairing_after};
ghost use Rattle.zs_num.specs.declared.request.Request.{Request};
ghost use Rattle.rv_core.specs.Accesses.{joined, load_requests, store_requests};
ghost use Rattle.rv_core.specs.CoreState.{CoreState, InProgress};
ghost use Rattle.rv_core.specs.Effect.{register};
ghost use Rattle.rv_core.specs.Laws.{addresses, addresses_of, bytes_of, bytes_stored, number_of_bytes, replies_loaded, Asks, FetchesWhereAWordIs, IsReached};
ghost use Rattle.rv_core.specs.Sound.{IsSoundCore};
ghost use Rattle.rv_core.specs.Step.{answered};
ghost use Rattle.rv_core.specs.Asked.{advanced};

/// x0 reads as zero for ever ("Programmers' Model for Base Integer ISA"), whatever program runs and
/// whatever its accesses reply.
pub fn x0_reads_as_zero()
    ensures { (core : CoreState) → IsReached core → register core 0 ≡ 0 }
{
    rv_decode::laws::fields_are_in_range();
}

/// A core that is reached is sound: all that it asks for can be served.
pub fn reached_cores_are_sound()
    ensures { (core : CoreState) → IsReached core → IsSoundCore core }
{
    rv_decode::laws::fields_are_in_range();
}

/// A step and a reply leave a sound core sound, and its memory where it is; whether it fetches stays
/// as it is. A step leaves its pairing, and a reply gives it the one that the access leaves.
pub fn cores_stay_sound()
    ensures advanced { (image : MemoryImage) (core : CoreState) → IsSoundCore core → IsSoundCore (advanced image core) }
    ensures advanced_memory { (image : MemoryImage) (core : CoreState) → IsSoundCore core → (advanced image core).memory ≡ core.memory }
    ensures advanced_fetching { (image : MemoryImage) (core : CoreState) → IsSoundCore core → (advanced image core).fetching ≡ core.fetching }
    ensures advanced_pairing { (image : MemoryImage) (core : CoreState) → IsSoundCore core → (advanced image core).pairing ≡ core.pairing }
    ensures answered { (reply : ℕ) (core : CoreState) → IsSoundCore core → IsSoundCore (answered reply core) }
    ensures answered_memory { (reply : ℕ) (core : CoreState) → IsSoundCore core → (answered reply core).memory ≡ core.memory }
    ensures answered_fetching { (reply : ℕ) (core : CoreState) → IsSoundCore core → (answered reply core).fetching ≡ core.fetching }
    ensures answered_pairing { (reply : ℕ) (core : CoreState) (now : InProgress) → IsSoundCore core → core.instruction ≡ Some now
        → (answered reply core).pairing ≡ pairing_after core.pairing now.next }
{
    rv_decode::laws::fields_are_in_range();
}

/// Every access that a core asks for says of the pairing what it is, and so does every list of
/// them: where a store-conditional is paired, the core's latest load-reserved was at its address
/// and width, and no store-conditional came since; and where it is not, that is not so.
pub fn accesses_are_paired_right()
    ensures next { (core : CoreState) (now : InProgress) → IsSoundCore core → core.instruction ≡ Some now
        → IsPairedRight core.pairing now.next }
    ensures lists { (core last : CoreState) (requests : List Request) → IsSoundCore core → Asks core requests last
        → ArePairedRight core.pairing requests }
    ensures pairing { (core last : CoreState) (requests : List Request) → IsSoundCore core → Asks core requests last
        → last.pairing ≡ pairing_after_all core.pairing requests }
{
    rv_decode::laws::fields_are_in_range();
}

/// The accesses of a load or a store have the bytes of the whole, in order, wherever it crosses a
/// line.
pub fn accesses_cover_the_whole()
    ensures loads { (addr width : ℕ) → addresses_of (load_requests addr width) ≡ addresses addr width }
    ensures stores { (addr width value : ℕ)
        → addresses_of (store_requests addr width value) ≡ addresses addr width }
{}

/// The bytes that the accesses of a store write are those of its number, the lowest first, and the
/// number that the accesses of a load give is that of its bytes.
pub fn accesses_are_little_endian()
    ensures stores { (addr width value : ℕ)
        → flat_map bytes_stored (store_requests addr width value) ≡ bytes_of width value }
    ensures loads { (addr width : ℕ) (bytes : List ℕ) → length bytes ≡ width → All (λ b. b < 256) bytes
        → joined (replies_loaded (load_requests addr width) bytes) ≡ number_of_bytes bytes }
{}

/// A core that fetches has to fetch an instruction exactly where its four bytes are in one
/// executable segment and their line is not that of the core's latest fetch, where the image is of
/// the core's memory.
pub fn fetches_where_a_word_is()
    ensures { FetchesWhereAWordIs }
{}
