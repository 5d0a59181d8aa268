//! Serving an access by the parts that it touches.
ghost use Rattle.std.specs.Prelude.{◌≡◌, length};
ghost use Rattle.shard.specs.BankSteps.{bank_with};
ghost use Rattle.shard.specs.SharedStep.{bank_after, bank_reply, met_at_bank};
ghost use Rattle.shard.specs.Touched.{HasTouched};

use crate::shared::meet;
use home::Home;
use l1_cache::L1;
use zs_num::{Outcome, Request};

/// Serves an access of a core, below 256, to a line of the home: the answer is the reply, and how
/// the access was met. Only the L1s have to be those of their cores that the access touches, its own
/// and those of `others_touched`: anything may stand in place of the others, and stays as it is.
#[inline(always)]
pub fn serve_at(home: &mut Home, l1s: &mut [L1], core: u16, request: Request) -> (u64, Outcome)
    requires { HasTouched (bank_with home.old l1s.old) core request }
    ensures after { bank_with home.new l1s.new ≡ bank_after (bank_with home.old l1s.old) core request }
    ensures reply { result.0 ≡ bank_reply (bank_with home.old l1s.old) core request }
    ensures outcome { result.1 ≡ met_at_bank (bank_with home.old l1s.old) core request }
    ensures cores { length l1s.new ≡ length l1s.old }
{
    meet(home, l1s, core, request)
}
