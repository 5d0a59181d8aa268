//! The loops in which a core executes single instructions, as types. For each, the compiler builds
//! what executes an instruction (`Core::step`, `Core::step_or_meet`) anew.

/// Of a core without a pipeline: the instructions that the program does not execute by itself.
pub(crate) struct OneByOne;

/// Of a core with a pipeline.
pub(crate) struct Paced;
