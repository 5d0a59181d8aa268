//! Some bytes of a line.
ghost use Rattle.std.specs.Prelude.{◌≡◌, ℕ, ◌<◌, ◌≤◌, ◌&&◌, ◌||◌, ◌↔◌, IsTrue, false, nat_le, nat_lt};
ghost use Rattle.line_use.specs.Bytes.{HasBits, has_bit, has_byte, reads, writes};

use zs_num::{LINE, Request};

/// The bytes of a line that were read, and those that were written: bit i for byte i.
#[derive(Clone, Copy)]
pub(crate) struct LineBytes {
    pub(crate) read: u64,
    pub(crate) written: u64,
}

/// None were.
pub(crate) const UNUSED: LineBytes = LineBytes {
    read: 0,
    written: 0,
};

impl LineBytes {
    /// Those of an access.
    #[inline(always)]
    pub(crate) fn of(request: &Request) -> LineBytes
        ensures read { HasBits result.read (λ i. reads request.now && has_byte request.now i) }
        ensures written { HasBits result.written (λ i. writes request.now && has_byte request.now i) }
    {
        let bytes = bytes_of(request);
        LineBytes {
            read: only_if(reads(request), bytes),
            written: only_if(writes(request), bytes),
        }
    }

    /// Both together.
    #[inline(always)]
    pub(crate) fn and(self, more: LineBytes) -> LineBytes
        ensures read { (i : ℕ) → has_bit result.read i ≡ (has_bit self.read i || has_bit more.read i) }
        ensures written { (i : ℕ) → has_bit result.written i ≡ (has_bit self.written i || has_bit more.written i) }
    {
        LineBytes {
            read: either(self.read, more.read),
            written: either(self.written, more.written),
        }
    }

    /// Whether they are the same.
    #[inline(always)]
    pub(crate) fn is(self, other: LineBytes) -> bool
        ensures { IsTrue result → self ≡ other }
    {
        self.read == other.read && self.written == other.written
    }
}

/// Whether it reads its bytes.
#[inline(always)]
fn reads(request: &Request) -> bool
    ensures { result ≡ reads request.now }
{
    matches!(
        request,
        Request::Load { .. } | Request::Lr { .. } | Request::Amo { .. }
    )
}

/// Whether it writes them.
#[inline(always)]
fn writes(request: &Request) -> bool
    ensures { result ≡ writes request.now }
{
    matches!(
        request,
        Request::Store { .. } | Request::Sc { .. } | Request::Amo { .. }
    )
}

/// The bits of both masks.
#[inline(always)]
fn either(a: u64, b: u64) -> u64
    ensures { (i : ℕ) → has_bit result i ≡ (has_bit a i || has_bit b i) }
{
    a | b
}

/// A mask, or the empty one.
#[inline(always)]
fn only_if(so: bool, mask: u64) -> u64
    ensures { (i : ℕ) → has_bit result i ≡ (so && has_bit mask i) }
{
    if so { mask } else { 0 }
}

/// The bits from one place up to another one.
#[inline(always)]
fn bits_between(from: u64, to: u64) -> u64
    requires from { from < to }
    requires to { to ≤ 64 }
    ensures { HasBits result (λ i. nat_le from i && nat_lt i to) }
{
    (u64::MAX << from) & (u64::MAX >> (64 - to))
}

/// The bytes of its line that an access reads or writes.
#[inline(always)]
fn bytes_of(request: &Request) -> u64
    ensures { HasBits result (has_byte request.now) }
{
    let first = request.addr() % LINE;
    let end = first + u64::from(request.width());
    if first < end {
        bits_between(first, end.min(LINE))
    } else {
        0
    }
}
