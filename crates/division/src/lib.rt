//! Division by numbers that are mostly powers of two, as the counts of banks and of sets are: a
//! shift or a mask takes a processor a few cycles, and a division some twenty to forty.
#![tactic(auto)]

ghost use Rattle.std.specs.Prelude.{◌≡◌, ◌^◌, ◌/◌, ◌%◌, ◌<◌, IsTrue};
ghost use Rattle.std.specs.Int.{trailing_zeros, w64};

/// `number / by`, rounded down.
#[inline(always)]
pub fn quotient(number: u64, by: u64) -> u64
    requires { 0 < by }
    ensures { result ≡ number / by }
{
    if is_power(by) {
        number >> by.trailing_zeros()
    } else {
        number / by
    }
}

/// What is left of `number` by a division: `number % by`.
#[inline(always)]
pub fn remainder(number: u64, by: u64) -> u64
    requires { 0 < by }
    ensures { result ≡ number % by }
{
    if is_power(by) {
        number & (by - 1)
    } else {
        number % by
    }
}

/// Whether a number is a power of two. Then its lowest bit is its only one, and none is left of it
/// and the number before.
#[inline(always)]
#[tactic(auto, using(crate::proofs::Powers::below_width))]
fn is_power(number: u64) -> bool
    requires { 0 < number }
    ensures power { IsTrue result → number ≡ 2 ^ trailing_zeros w64 number }
    ensures small { trailing_zeros w64 number < 64 }
{
    number & (number - 1) == 0
}
