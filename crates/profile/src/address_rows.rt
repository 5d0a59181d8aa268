//! The rows of a profile by address, as a list.
ghost use Rattle.std.specs.Prelude.{◌≡◌, ◌++◌, List, IfOk, OnOk};
ghost use Rattle.profile_rows.specs.declared.address_row.AddressRow.{AddressRow};
ghost use Rattle.profile.specs.Listed.{AreAddressRows, AreCoreRows, AreCoresRows, AreSumRows, core_row, has_address_of_any, sum_row};
ghost use Rattle.profile.specs.Rows.{IsNext};

use crate::Profile;
use profile_rows::{AddressRow, NONE};
use sparse_table::earlier;
use std::alloc::Global;
use zs_num::NoMemory;

impl Profile {
    /// The rows of all addresses that have something, ascending: core by core, or of all cores
    /// together.
    pub fn address_rows(&self, alloc: Global, separate: bool) -> Result<Vec<AddressRow>, NoMemory>
        ensures { IfOk result (λ rows. AreAddressRows self.now separate rows.items) }
    {
        if separate {
            self.rows_of_each(alloc)
        } else {
            self.rows_of_all(alloc)
        }
    }

    /// Core by core.
    fn rows_of_each(&self, alloc: Global) -> Result<Vec<AddressRow>, NoMemory>
        ensures { IfOk result (λ rows. AreCoresRows self.now self.now.cores rows.items) }
    {
        let mut rows = Vec::new(alloc);
        for core in 0..self.cores() {
            self.push_rows(&mut rows, core)?;
        }
        Ok(rows)
    }

    /// Adds those of a core.
    fn push_rows(&self, rows: &mut Vec<AddressRow>, core: u16) -> Result<(), NoMemory>
        ensures { OnOk result ((own : List AddressRow) × AreCoreRows self.now core own × (rows.new.items ≡ rows.old.items ++ own)) }
    {
        let mut at = 0;
        while let Some(pc) = self.next_address(core, at) {
            rows.push(self.core_row(core, pc))?;
            if pc == u64::MAX {
                return Ok(());
            }
            at = pc + 1;
        }
        Ok(())
    }

    /// The row of an address and a core.
    fn core_row(&self, core: u16, pc: u64) -> AddressRow
        ensures { result ≡ core_row self.now core pc }
    {
        AddressRow {
            core: Some(core),
            pc,
            instructions: self.instructions(core, pc),
            tally: self.accesses(core, pc),
        }
    }

    /// Of all cores together.
    fn rows_of_all(&self, alloc: Global) -> Result<Vec<AddressRow>, NoMemory>
        ensures { IfOk result (λ rows. AreSumRows self.now rows.items) }
    {
        let mut rows = Vec::new(alloc);
        let mut at = 0;
        while let Some(pc) = self.next_of_all(at) {
            rows.push(self.sum_row(pc))?;
            if pc == u64::MAX {
                return Ok(rows);
            }
            at = pc + 1;
        }
        Ok(rows)
    }

    /// The next address at which a core has something.
    fn next_of_all(&self, from: u64) -> Option<u64>
        ensures { IsNext (has_address_of_any self.now) from result }
    {
        let mut next = None;
        for core in 0..self.cores() {
            next = earlier(next, self.next_address(core, from));
        }
        next
    }

    /// The row of an address, of all cores together.
    fn sum_row(&self, pc: u64) -> AddressRow
        ensures { result ≡ sum_row self.now pc }
    {
        let mut instructions: u64 = 0;
        let mut tally = NONE;
        for core in 0..self.cores() {
            instructions = instructions.saturating_add(self.instructions(core, pc));
            tally = tally.plus(&self.accesses(core, pc));
        }
        AddressRow {
            core: None,
            pc,
            instructions,
            tally,
        }
    }
}
