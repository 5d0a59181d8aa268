//! The two-bit counters that predict branches.
ghost use Rattle.std.specs.Prelude.{◌≡◌, ◌≤◌};
ghost use Rattle.pipe_core.specs.Pace.{counter_after, is_right};

/// Whether a counter predicts rightly that the branch is taken, or that it is not.
pub(crate) fn is_right(taken: bool, counter: u8) -> bool
    ensures { result ≡ is_right taken counter }
{
    if taken { counter >= 2 } else { counter < 2 }
}

/// The counter behind a branch: it rises where the branch was taken, and else it falls.
pub(crate) fn counter_after(taken: bool, counter: u8) -> u8
    requires { counter ≤ 3 }
    ensures value { result ≡ counter_after taken counter }
    ensures small { result ≤ 3 }
{
    if taken {
        if counter < 3 { counter + 1 } else { 3 }
    } else if counter > 0 {
        counter - 1
    } else {
        0
    }
}
