//! One more.
use crate::stretch::Stretch;
use sparse_table::Change;

/// A count takes one more, and stays where it can take none.
pub(crate) struct OneMore;

impl Change<u64> for OneMore {
    ghost use Rattle.std.specs.Prelude.{◌+◌};
    ghost use Rattle.execution_counts.specs.Counted.{capped};

    ghost changed = { λ _ n. capped (n + 1) };

    #[inline(always)]
    fn change(&self, value: &mut u64) {
        *value = value.saturating_add(1);
    }
}

/// A stretch takes one time more, and stays where it can take none. Its instructions stay as many.
pub(crate) struct Again;

impl Change<Stretch> for Again {
    ghost use Rattle.std.specs.Prelude.{◌+◌};
    ghost use Rattle.execution_counts.specs.Counted.{capped};

    ghost changed = { λ _ s. record s { times = capped (s.times + 1) } };

    #[inline(always)]
    fn change(&self, value: &mut Stretch) {
        value.times = value.times.saturating_add(1);
    }
}
