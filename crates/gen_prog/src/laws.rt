//! Laws of the programs of all numbers. Each is the contract of a function that does nothing.
ghost use Rattle.gen_prog.specs.Laws.{ProgramsLoad, WordsDecode};

/// Each word of a program decodes to its instruction.
pub fn words_decode()
    ensures { WordsDecode }
{}

/// Which memories the file of a program can be loaded into, and which check refuses it elsewhere.
pub fn programs_load()
    ensures { ProgramsLoad }
{}
