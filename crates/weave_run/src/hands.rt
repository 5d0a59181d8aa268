//! Who has the workers run their domains.
ghost use Rattle.std.specs.Prelude.{◌≡◌, ◌<◌, ◌≤◌, ℕ, ⊤, All, length};
ghost use denote.Param.Send.{IsSend, IsSync};
ghost use Rattle.weave_run.specs.Shares.{CanRunShare, HasRunShare, HaveRunShares};

use crate::share::DomainShare;
use crate::way::WatchedDomains;
use component::Component;
use std::thread;
use std::thread::Threads;
use zs_host::Gate;

/// Those who are asked to run the domains of all workers beside each other, in one round after the
/// other.
pub trait Hands {
    /// What stays of them through all rounds.
    ghost Kept: { Type 0 };

    ghost kept: { Self → Kept };

    /// Whether they may be asked, and for how many workers at most.
    ghost ready: { Kept → Type 0 };

    ghost most: { Kept → ℕ };

    /// To ask them is worth it where the round before fired so many events. In the first round they
    /// are asked whatever there is to fire.
    const WORTH: usize;

    /// For how many workers they may be asked at once.
    fn room(&self) -> usize
        ensures { result ≡ most (kept self.now) };
}

/// Each worker runs its domains, in a thread of its own where one can be made.
pub(crate) fn run_in_threads<R: Threads + Sync, C: Component + Send, G: Gate>(
    rt: &R,
    shares: &mut Vec<DomainShare<C, WatchedDomains<'_, G>>>,
)
    requires several { 0 < length shares.old.items }
    requires can { All (CanRunShare C.serves C.floor C.stepped C.greatest) shares.old.items }
    ensures { HaveRunShares C.stepped shares.old.items shares.new.items }
{
    run_each(rt, shares.as_mut_slice());
}

/// The same in a slice.
fn run_each<R: Threads + Sync, C: Component + Send, G: Gate>(
    rt: &R,
    shares: &mut [DomainShare<C, WatchedDomains<'_, G>>],
)
    requires several { 0 < length shares.old }
    requires can { All (CanRunShare C.serves C.floor C.stepped C.greatest) shares.old }
    ensures { HaveRunShares C.stepped shares.old shares.new }
{
    let threads = shares.len();
    thread::for_each_mut(
        rt,
        shares,
        threads,
        &|_worker: usize, share: &mut DomainShare<C, WatchedDomains<'_, G>>|
            requires { CanRunShare C.serves C.floor C.stepped C.greatest share.now }
            ensures { HasRunShare C.stepped share.entry.now share.exit.now }
        { share.run() },
    );
}
