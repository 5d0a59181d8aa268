//! A controller with open rows: one request after the other, and how long each takes.
ghost use Rattle.std.specs.Prelude.{◌≡◌, ◌<◌, ◌≤◌, ◌^◌, Option};
ghost use Rattle.dram_rows.specs.Conditions.{IsNew, IsTime, NoSumPasses};
ghost use Rattle.dram_rows.specs.OpenRows.{open_at, read_step, read_time, write_step};

use crate::RowNumbers;

/// A controller with open rows. It serves one request after the other.
#[derive(Drop, Clone, Copy)]
pub struct Rows {
    pub numbers: RowNumbers,
    /// The cycle from which on it can serve the next request.
    pub free: u64,
    /// The open row of each bank, if it has one. There are places for 16 banks.
    pub open_rows: [Option<u64>; 16],
}

impl Rows {
    /// A controller of 1 to 16 banks before its first request: no row is open, and it is free from
    /// cycle 0 on. Times are from 1 to 65536 cycles, and a hit takes no longer than a read where no
    /// row is open, nor that longer than a conflict.
    pub fn new(banks: u16, hit: u64, closed: u64, conflict: u64, write: u64, occupancy: u64) -> Self
        requires some_banks { 1 ≤ banks }
        requires few_banks { banks ≤ 16 }
        requires hit { IsTime hit }
        requires closed { IsTime closed }
        requires conflict { IsTime conflict }
        requires write { IsTime write }
        requires occupancy { IsTime occupancy }
        requires closed_at_least_hit { hit ≤ closed }
        requires conflict_at_least_closed { closed ≤ conflict }
        ensures new { IsNew result }
        ensures banks { result.numbers.banks ≡ banks }
        ensures hit { result.numbers.hit ≡ hit }
        ensures closed { result.numbers.closed ≡ closed }
        ensures conflict { result.numbers.conflict ≡ conflict }
        ensures write { result.numbers.write ≡ write }
        ensures occupancy { result.numbers.occupancy ≡ occupancy }
    {
        Rows {
            numbers: RowNumbers {
                banks,
                hit,
                closed,
                conflict,
                write,
                occupancy,
            },
            free: 0,
            open_rows: [None; 16],
        }
    }

    /// Serves a read of a row that starts at a cycle, and answers the cycle at which it finishes.
    pub fn read(&mut self, bank: u16, row: u64, start: u64) -> u64
        requires bank { bank < self.old.numbers.banks }
        requires sums { NoSumPasses (2 ^ 62) (read_step self.old bank row start) }
        ensures { (self.new, result) ≡ read_step self.old bank row start }
    {
        let place = usize::from(bank);
        let time = self.numbers.read_time(self.open_rows[place], row);
        let served = start.max(self.free);
        self.open_rows[place] = Some(row);
        self.free = served + self.numbers.occupancy;
        served + time
    }

    /// Serves a write that starts at a cycle, and answers the cycle at which it finishes.
    pub fn write(&mut self, start: u64) -> u64
        requires { NoSumPasses (2 ^ 62) (write_step self.old start) }
        ensures { (self.new, result) ≡ write_step self.old start }
    {
        let served = start.max(self.free);
        self.free = served + self.numbers.occupancy;
        served + self.numbers.write
    }

    /// The cycle from which on it can serve the next request.
    pub fn free(&self) -> u64
        ensures { result ≡ self.now.free }
    {
        self.free
    }

    /// The open row of a bank, or None where it has none.
    pub fn open_row(&self, bank: u16) -> Option<u64>
        requires { bank < self.now.numbers.banks }
        ensures { result ≡ open_at self.now bank }
    {
        self.open_rows[usize::from(bank)]
    }
}

impl RowNumbers {
    /// How long a read of a row takes, by the open row of its bank.
    fn read_time(&self, open_row: Option<u64>, row: u64) -> u64
        ensures { result ≡ read_time self.now open_row row }
    {
        match open_row {
            None => self.closed,
            Some(other) if other == row => self.hit,
            Some(_) => self.conflict,
        }
    }
}
