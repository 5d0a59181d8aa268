//! The next number of two tables.
ghost use Rattle.std.specs.Prelude.{◌≡◌};
ghost use Rattle.sparse_table.specs.Next.{earlier};

/// The lesser one, of those that are there.
pub fn earlier(one: Option<u64>, other: Option<u64>) -> Option<u64>
    ensures { result ≡ earlier one other }
{
    match (one, other) {
        (Some(one), Some(other)) => Some(one.min(other)),
        (Some(one), None) => Some(one),
        (None, other) => other,
    }
}
