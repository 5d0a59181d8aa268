//! The rows of a profile by line, as a list.
ghost use Rattle.std.specs.Prelude.{◌≡◌, ◌++◌, ◌∷◌, [], if◌then◌else◌, IfOk, OnOk};
ghost use Rattle.profile.specs.Listed.{AreLineRows, has_line_of_any, line_row, rows_at};
ghost use Rattle.profile.specs.Profiled.{added_in};
ghost use Rattle.profile.specs.Rows.{IsNext, has_line};

use crate::Profile;
use crate::something::is_something;
use profile_rows::LineRow;
use sparse_table::earlier;
use std::alloc::Global;
use zs_num::NoMemory;

impl Profile {
    /// The rows of all lines that have something, ascending, and of a line core by core. The bytes
    /// that were read and written are not told here: there are none.
    pub fn line_tallies(&self, alloc: Global) -> Result<Vec<LineRow>, NoMemory>
        ensures { IfOk result (λ rows. AreLineRows self.now rows.items) }
    {
        let mut rows = Vec::new(alloc);
        let mut at = 0;
        while let Some(line) = self.next_line_of_all(at) {
            self.push_line(&mut rows, line)?;
            if line == u64::MAX {
                return Ok(rows);
            }
            at = line + 1;
        }
        Ok(rows)
    }

    /// The next line at which a core has something.
    fn next_line_of_all(&self, from: u64) -> Option<u64>
        ensures { IsNext (has_line_of_any self.now) from result }
    {
        let mut next = None;
        for core in 0..self.cores() {
            next = earlier(next, self.next_line(core, from));
        }
        next
    }

    /// Adds the rows of a line.
    fn push_line(&self, rows: &mut Vec<LineRow>, line: u64) -> Result<(), NoMemory>
        ensures { OnOk result (rows.new.items ≡ rows.old.items ++ rows_at self.now line) }
    {
        for core in 0..self.cores() {
            self.push_line_row(rows, line, core)?;
        }
        Ok(())
    }

    /// Adds that of a core, if it has something there.
    fn push_line_row(&self, rows: &mut Vec<LineRow>, line: u64, core: u16) -> Result<(), NoMemory>
        ensures { OnOk result (rows.new.items ≡ (if has_line (added_in self.now) core line then rows.old.items ++ line_row self.now line core ∷ [] else rows.old.items)) }
    {
        let tally = self.line(core, line);
        if is_something(&tally) {
            rows.push(LineRow {
                line,
                core,
                tally,
                read: 0,
                written: 0,
            })?;
        }
        Ok(())
    }
}
