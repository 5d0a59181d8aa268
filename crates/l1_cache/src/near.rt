//! What is kept of a way, and a small table of the ways that were met last: a line that it has is
//! found by one comparison.
ghost use Rattle.std.specs.Prelude.{◌≡◌, ◌+◌, ◌<◌, ◌≤◌, ◌^◌, ◌-◌, length};
ghost use Rattle.std.specs.Int.Bits.{bit_and};
ghost use Rattle.l1_cache.specs.Layout.{near_of};

use cache_set::Letter;

/// What is kept of a way beside its bytes.
#[derive(Clone, Copy)]
pub(crate) struct Kept {
    pub(crate) letter: Letter,
    /// Free to write: the core may write in it and need tell nobody.
    pub(crate) free: bool,
}

impl Kept {
    pub(crate) const NONE: Kept = Kept {
        letter: Letter::I,
        free: false,
    };

    pub(crate) const TO_WRITE: Kept = Kept {
        letter: Letter::M,
        free: true,
    };
}

/// A way that was met.
#[derive(Clone, Copy)]
pub(crate) struct Near {
    /// The line that it has. No line has the greatest number: an entry of that is of no way.
    pub(crate) line: u64,
    pub(crate) place: u32,
    /// The way is M and free to write.
    pub(crate) writes: bool,
}

impl Near {
    pub(crate) const NONE: Near = Near {
        line: u64::MAX,
        place: 0,
        writes: false,
    };
}

/// The entry of a way that has a line, of which this is kept.
#[inline(always)]
pub(crate) fn near_of(line: u64, place: usize, kept: Kept) -> Near
    requires { place < 2 ^ 32 }
    ensures { result ≡ near_of line place kept }
{
    Near {
        line,
        place: place as u32,
        writes: kept.free && kept.letter == Letter::M,
    }
}

/// Where the entry of a line stands in a table of one more than `mask` entries.
#[inline(always)]
#[tactic(auto, using(std::proofs::lemmas::Nat::and_le_r))]
pub(crate) fn near_index(line: u64, mask: u64) -> usize
    requires { mask < 2 ^ 32 }
    ensures value { result ≡ bit_and line mask }
    ensures within { result ≤ mask }
{
    (line & mask) as usize
}
