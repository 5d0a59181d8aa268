//! Laws of the report's text. Each is the contract of a function that does nothing.
ghost use Rattle.report.specs.Laws.{ConsolesArePrintedApart};

/// Different consoles are printed differently.
pub fn consoles_are_printed_apart()
    ensures { ConsolesArePrintedApart }
{}
