//! What cores suffer by the accesses of others.
ghost use Rattle.std.specs.Prelude.{◌≡◌, ◌||◌, ◌++◌, ◌∷◌, [], ℕ, List, OnOk, if◌then◌else◌, map};
ghost use Rattle.zs_num.specs.Request.{line_of};
ghost use Rattle.profile.specs.declared.contribution.Contribution.{Contribution};
ghost use Rattle.profile.specs.Contributions.{suffered_tally, suffering, suffers};
ghost use Rattle.profile.specs.Copies.{downgrades, has_other, invalidates};
ghost use Rattle.profile.specs.CopyTables.{copies_in};
ghost use Rattle.profile.specs.Rows.{AreRows};

use crate::contribution::Contribution;
use crate::copies::{Copies, downgrades, invalidates, is_other};
use crate::met::one_if;
use crate::rows::Rows;
use profile_rows::{NONE, Tally};
use std::alloc::Global;
use zs_num::{Entry, NoMemory};

/// Adds what the other cores suffer by an access, of so many cores, where this is what there is of
/// all copies before it.
pub(crate) fn add_suffered(
    alloc: Global,
    rows: &mut Rows,
    cores: u16,
    copies: &Copies,
    entry: &Entry,
) -> Result<(), NoMemory>
    ensures { OnOk result ((cs : List Contribution) → AreRows cs rows.old.addresses.items rows.old.lines.items → AreRows (cs ++ map (suffers entry.now) (suffering cores (copies_in copies.now.of_data.items copies.now.of_instructions.items) entry.now)) rows.new.addresses.items rows.new.lines.items) }
{
    if !changes_copies(entry) {
        return Ok(());
    }
    for other in 0..cores {
        add_one(alloc, rows, copies, entry, other)?;
    }
    Ok(())
}

/// Whether copies of other cores are taken away or downgraded.
fn changes_copies(entry: &Entry) -> bool
    ensures { result ≡ (invalidates entry.now || downgrades entry.now) }
{
    invalidates(entry) || downgrades(entry)
}

/// Adds what this core suffers, if it is another one and has a copy.
fn add_one(
    alloc: Global,
    rows: &mut Rows,
    copies: &Copies,
    entry: &Entry,
    other: u16,
) -> Result<(), NoMemory>
    ensures { OnOk result ((cs : List Contribution) → AreRows cs rows.old.addresses.items rows.old.lines.items → AreRows (cs ++ map (suffers entry.now) (if has_other (copies_in copies.now.of_data.items copies.now.of_instructions.items) entry.now.core (line_of entry.now.request) other then other ∷ [] else [])) rows.new.addresses.items rows.new.lines.items) }
{
    if is_other(&copies.of_data, entry.core, entry.request.line(), other) {
        rows.add(alloc, &suffers(entry, other))?;
    }
    Ok(())
}

/// What a core suffers by an access.
fn suffers(entry: &Entry, other: u16) -> Contribution
    ensures { result ≡ suffers entry.now other }
{
    Contribution {
        core: other,
        pc: None,
        line: entry.request.line(),
        tally: suffered_tally(entry),
    }
}

/// What it counts.
#[tactic(auto, unfolding(crate::specs::Contributions::suffered_tally))]
fn suffered_tally(entry: &Entry) -> Tally
    ensures { result ≡ suffered_tally entry.now }
{
    Tally {
        lost: one_if(invalidates(entry)),
        lowered: one_if(downgrades(entry)),
        ..NONE
    }
}
