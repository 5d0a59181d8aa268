//! What carries a share of a weave to a worker.
ghost use Rattle.std.specs.Prelude.{◌≡◌};

use component::Comp;
use weave_run::{DomainShare, DomainWay};

/// What a worker is asked for, if that can be to run its domains.
pub(crate) trait Carries<W: DomainWay>: Sized {
    ghost use Rattle.component.specs.declared.comp.Comp.{Comp};
    ghost use Rattle.weave_run.specs.declared.share.DomainShare.{DomainShare};

    /// A share as what a worker is asked for.
    ghost of: { DomainShare Comp W → Self };

    /// Carries a share.
    fn with(share: DomainShare<Comp, W>) -> Self
        ensures { result ≡ of share };

    /// The share.
    fn take(self) -> DomainShare<Comp, W>
        requires { (share : DomainShare Comp W) × (self ≡ of share) }
        ensures { (share : DomainShare Comp W) → self ≡ of share → result ≡ share };
}
