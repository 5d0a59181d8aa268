//! The numbers of a controller with open rows.
ghost use Rattle.std.specs.Prelude.{◌≤◌};

/// The numbers of a controller with open rows, which never change. Times are in cycles.
#[derive(Drop, Clone, Copy)]
pub struct RowNumbers {
    /// How many banks there are behind the controller: at most 16.
    pub banks: u16,
    /// The time of a read of the open row.
    pub hit: u64,
    /// The time of a read where the bank has no open row.
    pub closed: u64,
    /// The time of a read where another row is open.
    pub conflict: u64,
    /// The time of a write.
    pub write: u64,
    /// For how long a request keeps the controller busy.
    pub occupancy: u64,
    pub ghost few_banks: { banks ≤ 16 },
    pub ghost hit_at_least_one: { 1 ≤ hit },
    pub ghost closed_at_least_hit: { hit ≤ closed },
    pub ghost conflict_at_least_closed: { closed ≤ conflict },
    pub ghost write_at_least_one: { 1 ≤ write },
}
