//! Theorems about the definitions alone.
ghost use Rattle.dram_rows.specs.Served.{RowsServeInTurn};

/// Whatever is asked of a new controller, each request is served when its list says, and takes the
/// time that the reads before it say.
pub fn rows()
    ensures { RowsServeInTurn }
{}
