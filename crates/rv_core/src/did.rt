//! What came of a step.
ghost use Rattle.std.specs.Prelude.{◌≡◌, None};
ghost use Rattle.rv_core.specs.Single.{comes_to_next, met_by};

use crate::Single;

/// What came of a step.
#[derive(Clone, Copy)]
pub enum Did {
    /// The core executed its next instruction, and comes to another one.
    GoesOn,
    /// It executed its next instruction up to the first access, or halted.
    Stops,
    /// Its next instruction makes this access alone, and the core has not begun it.
    Meets(Single),
}

impl Did {
    /// What came of a step that met no access, by whether the core comes to another instruction.
    #[inline(always)]
    pub fn of(goes_on: bool) -> Self
        ensures next { comes_to_next result ≡ goes_on }
        ensures met { met_by result ≡ None }
    {
        if goes_on { Did::GoesOn } else { Did::Stops }
    }

    /// Whether the core comes to another instruction.
    #[inline(always)]
    pub fn goes_on(self) -> bool
        ensures { result ≡ comes_to_next self }
    {
        matches!(self, Did::GoesOn)
    }

    /// The access that the core met, if it met one.
    #[inline(always)]
    pub fn met(self) -> Option<Single>
        ensures { result ≡ met_by self }
    {
        match self {
            Did::Meets(single) => Some(single),
            Did::GoesOn | Did::Stops => None,
        }
    }
}
