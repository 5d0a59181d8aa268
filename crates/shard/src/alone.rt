//! What a core's own L1 serves alone.
ghost use Rattle.std.specs.Prelude.{◌≡◌, length, IfNone, IfSome};
ghost use Rattle.zs_num.specs.declared.entry.Outcome.TheVariants.{Hit};
ghost use Rattle.shard.specs.BankSteps.{bank_with};
ghost use Rattle.shard.specs.PartsLaws.{AreParts, IsAsked};
ghost use Rattle.shard.specs.SharedStep.{bank_after, bank_reply, met_at_bank};

use crate::shared::serve_near_at;
use home::Home;
use l1_cache::L1;
use zs_num::Request;

/// Serves an access of a core to a line of the home as `meet` does, where the core's own L1 can
/// serve it alone, and a load or a store without a search of its sets: the answer is the reply.
/// None: nothing changes. A line that is not at hand is mostly not there, and then the home says so
/// before the L1 is searched for nothing.
#[inline(always)]
pub(crate) fn meet_alone<T>(
    _home: &Home,
    l1s: &mut [L1],
    core: u16,
    request: Request,
) -> Option<u64>
    requires parts { AreParts (bank_with _home.now l1s.old) }
    requires asked { IsAsked (bank_with _home.now l1s.old) core request }
    ensures after { IfSome result (λ reply. bank_with _home.now l1s.new ≡ bank_after (bank_with _home.now l1s.old) core request) }
    ensures reply { IfSome result (λ reply. reply ≡ bank_reply (bank_with _home.now l1s.old) core request) }
    ensures outcome { IfSome result (λ reply. Hit ≡ met_at_bank (bank_with _home.now l1s.old) core request) }
    ensures none { IfNone result (l1s.new ≡ l1s.old) }
    ensures cores { length l1s.new ≡ length l1s.old }
{
    serve_near_at::<T>(l1s, core, request)
}
