//! A directory: its tags in one list, and beside each the row of its line.
ghost use Rattle.std.specs.Prelude.{◌≡◌, ◌≢◌, ℕ, ◌<◌, ◌≤◌, ◌↔◌, ◌&&◌, ◌||◌, not, false, true, if◌then◌else◌, [], length, nat_eq, IsTrue, IfOk, IfSome, IfNone, Some, None};
ghost use Rattle.std.specs.List.{position};
ghost use Rattle.mesi_dir.specs.LineMap.{nobody, sharing_of, is_among, is_sharer, owner_of, owner_without, HasOther, HasRoomForLine, IsSharing, IsLineMap, KeepsOthers};
ghost use Rattle.mesi_dir.specs.Rows.{sharing_in};

use crate::row::DirectoryRow;
use lanes::find_eq;
use std::alloc::Global;
use std::marker::Model;
use zs_num::NoMemory;

/// Which cores have a line, which contracts see as a finite map from lines to their sharers and to
/// the one that may write it, the owner. A line that no core has takes no room.
#[derive(Drop)]
pub struct Directory {
    room: usize,
    cores: u16,
    tags: Vec<u64>,
    rows: Vec<DirectoryRow>,
}

impl Model for Directory {
    ghost use Rattle.std.specs.Prelude.{vec_capacity};
    ghost use Rattle.mesi_dir.specs.LineMap.{LineMap};
    ghost use Rattle.mesi_dir.specs.Rows.{AreDirectoryRows, directory_view};

    ghost Value = { LineMap };

    ghost view = { λ d. directory_view d.room d.cores d.tags.items d.rows.items };

    ghost invariant = { λ d. AreDirectoryRows d.room d.cores d.tags.items d.rows.items
        (vec_capacity d.tags) (vec_capacity d.rows) };
}

impl Directory {
    /// A directory in which no line has a sharer, with room for this many lines and for this many
    /// cores, at most 256. No other call takes memory.
    pub fn new(alloc: Global, lines: u32, cores: u16) -> Result<Self, NoMemory>
        requires { cores ≤ 256 }
        ensures { IfOk result (λ d. d ≡ record { room = lines; cores = cores; lines = [] }) }
    {
        let room = lines as usize;
        Ok(Directory {
            room,
            cores,
            tags: Vec::with_capacity(alloc, room)?,
            rows: Vec::with_capacity(alloc, room)?,
        })
    }

    /// Whether a core has a line.
    pub fn holds(&self, line: u64, core: u16) -> bool
        requires { core < self.now.cores }
        ensures value { result ≡ is_sharer self.now line core }
        ensures is_map { IsLineMap self.now }
    {
        match self.found(line) {
            Some(row) => row.sharers.has(core),
            None => false,
        }
    }

    /// The core that may write a line.
    pub fn owner(&self, line: u64) -> Option<u16>
        ensures owner { result ≡ owner_of self.now line }
        ensures is_map { IsLineMap self.now }
    {
        match self.found(line) {
            Some(row) => row.owner,
            None => None,
        }
    }

    /// Whether another core than this one has a line.
    pub fn any_other(&self, line: u64, core: u16) -> bool
        requires { core < self.now.cores }
        ensures value { IsTrue result ↔ HasOther self.now line core }
        ensures is_map { IsLineMap self.now }
    {
        self.row(line).sharers.any_other(core)
    }

    /// Adds a core to those that have a line. With `own` it may write the line, which no other
    /// core has then; else no core may.
    pub fn grant(&mut self, line: u64, core: u16, own: bool)
        requires core { core < self.old.cores }
        requires room { HasRoomForLine self.old line }
        requires alone { own ≡ true → (other : ℕ) → other ≢ core → is_sharer self.old line other ≡ false }
        ensures sharers { (c : ℕ) → is_sharer self.new line c ≡ (nat_eq core c || is_sharer self.old line c) }
        ensures owner { owner_of self.new line ≡ (if own then Some core else None) }
        ensures others { KeepsOthers self.old self.new line }
    {
        let mut row = self.row(line);
        row.sharers.add(core);
        row.owner = own.then_some(core);
        self.set_row(line, row);
    }

    /// Takes a core from those that have a line. Where it was the owner, the line has none then.
    pub fn drop_core(&mut self, line: u64, core: u16)
        requires { core < self.old.cores }
        ensures sharers { (c : ℕ) → is_sharer self.new line c
            ≡ (not (nat_eq core c) && is_sharer self.old line c) }
        ensures owner { owner_of self.new line ≡ owner_without core (owner_of self.old line) }
        ensures others { KeepsOthers self.old self.new line }
    {
        let mut row = self.row(line);
        row.sharers.remove(core);
        row.owner = owner_without(row.owner, core);
        self.set_row(line, row);
    }

    /// Takes all cores from a line.
    pub fn clear(&mut self, line: u64)
        ensures line { sharing_of self.new line ≡ nobody }
        ensures others { KeepsOthers self.old self.new line }
    {
        self.set_row(line, DirectoryRow::NOBODY);
    }

    /// The row of a line, also of one that no core has.
    fn row(&self, line: u64) -> DirectoryRow
        ensures row { sharing_in result ≡ sharing_of self.now line }
        ensures is_map { IsLineMap self.now }
    {
        match self.found(line) {
            Some(row) => *row,
            None => DirectoryRow::NOBODY,
        }
    }

    /// The row of a line that some core has, in place.
    fn found(&self, line: u64) -> Option<&DirectoryRow>
        ensures some { IfSome result (λ row. sharing_in row.now ≡ sharing_of self.now line) }
        ensures none { IfNone result (sharing_of self.now line ≡ nobody) }
        ensures is_map { IsLineMap self.now }
    {
        match place_of(&self.tags, line) {
            Some(place) => Some(&self.rows[place]),
            None => None,
        }
    }

    /// Gives a line another row.
    fn set_row(&mut self, line: u64, row: DirectoryRow)
        requires sharing { IsSharing self.old.cores (sharing_in row) }
        requires room { (core : ℕ) → IsTrue (is_among (sharing_in row) core) → HasRoomForLine self.old line }
        ensures line { sharing_of self.new line ≡ sharing_in row }
        ensures others { KeepsOthers self.old self.new line }
    {
        match place_of(&self.tags, line) {
            Some(place) if row.sharers.is_empty() => {
                self.tags.remove(place);
                self.rows.remove(place);
            }
            Some(place) => self.rows[place] = row,
            None if row.sharers.is_empty() => {}
            None => {
                self.tags.push_reserved(line);
                self.rows.push_reserved(row);
            }
        }
    }
}

/// The owner of a line that this core has no more.
fn owner_without(owner: Option<u16>, core: u16) -> Option<u16>
    ensures { result ≡ owner_without core owner }
{
    match owner {
        Some(owner) if owner != core => Some(owner),
        _ => None,
    }
}

/// The place of a line among the tags.
fn place_of(tags: &[u64], line: u64) -> Option<usize>
    ensures value { result ≡ position (nat_eq line) tags.now }
    ensures bound { IfSome result (λ place. place < length tags.now) }
{
    find_eq(tags, line)
}
