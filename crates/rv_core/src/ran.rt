//! How far a program comes by itself.
ghost use Rattle.std.specs.Prelude.{◌≡◌, None};

use crate::Single;

/// How far a program came by itself.
#[derive(Clone, Copy)]
pub struct Ran {
    /// The address of the next instruction.
    pub pc: u64,
    /// How many instructions it executed.
    pub count: u64,
    /// The access that the next instruction makes alone, if the program came to one and may execute
    /// it. It is not begun.
    pub met: Option<Single>,
}

impl Ran {
    /// No instruction was executed.
    #[inline(always)]
    pub fn nowhere(pc: u64) -> Self
        ensures pc { result.pc ≡ pc }
        ensures count { result.count ≡ 0 }
        ensures met { result.met ≡ None }
    {
        Ran {
            pc,
            count: 0,
            met: None,
        }
    }
}
