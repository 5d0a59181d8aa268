//! The number that the replies of an instruction's accesses make.
ghost use Rattle.std.specs.Prelude.{◌≡◌, ◌++◌, ◌∷◌, [], ◌%◌, ◌^◌, ◌<◌, ◌≤◌, option_to_list};
ghost use Rattle.zs_num.specs.Request.{width_of};
ghost use Rattle.rv_core.specs.Accesses.{high_bytes, joined, low_bytes, reply_to, sign_extended_bytes};
ghost use Rattle.rv_core.specs.Effect.{received};
ghost use Rattle.rv_core.specs.Progress.{ending_of, IsNarrow};
ghost use Rattle.rv_core.specs.Step.{replies_with};

use crate::Destination;
use crate::progress::Reply;
use zs_num::Request;

/// The number that the lowest bytes of a number make.
#[inline(always)]
pub fn low_bytes(width: u8, number: u64) -> u64
    requires { width ≤ 8 }
    ensures { result ≡ low_bytes width number }
{
    if width < 8 {
        number % (1 << (8 * width))
    } else {
        number
    }
}

/// The number without its lowest bytes.
#[inline(always)]
pub fn high_bytes(width: u8, number: u64) -> u64
    requires { width < 8 }
    ensures { result ≡ high_bytes width number }
{
    number >> (8 * width)
}

/// A reply to an access.
#[inline(always)]
pub fn reply_to(request: &Request, number: u64) -> Reply
    requires { width_of request.now ≤ 8 }
    ensures { result ≡ reply_to request.now number }
{
    let width = request.width();
    Reply {
        width,
        number: low_bytes(width, number),
    }
}

/// The number that a register receives: from the last reply, and the one from the lower line.
#[inline(always)]
pub fn received(lower: Option<Reply>, last: Reply, destination: Destination) -> u64
    requires narrow { IsNarrow lower }
    requires some { 1 ≤ destination.width }
    requires few { destination.width ≤ 8 }
    ensures { result ≡ received destination (option_to_list lower ++ last ∷ []) }
{
    let number = joined(lower, last);
    if destination.signed {
        sign_extended_bytes(destination.width, number)
    } else {
        number
    }
}

/// The last reply above the one from the lower line, as a number of 64 bits.
#[inline(always)]
fn joined(lower: Option<Reply>, last: Reply) -> u64
    requires { IsNarrow lower }
    ensures { result ≡ joined (option_to_list lower ++ last ∷ []) % 2 ^ 64 }
{
    match lower {
        None => last.number,
        Some(lower) => lower.number.wrapping_add(last.number << (8 * lower.width)),
    }
}

/// The number of so many bytes, sign-extended.
#[inline(always)]
#[tactic(auto, using(crate::proofs::SignExtension::extended), unfolding(crate::specs::Accesses::sign_extended_bytes))]
fn sign_extended_bytes(width: u8, number: u64) -> u64
    requires some { 1 ≤ width }
    requires few { width ≤ 8 }
    ensures { result ≡ sign_extended_bytes width number }
{
    let half = 1 << (8 * width - 1);
    if number < half {
        number
    } else {
        number.wrapping_sub(half).wrapping_sub(half)
    }
}
