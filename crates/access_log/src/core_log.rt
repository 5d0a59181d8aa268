//! The accesses of one core in an interval.
ghost use Rattle.std.specs.Prelude.{◌≡◌, ◌+◌, ◌-◌, ◌<◌, ◌≤◌, [], ◌∷◌, ◌++◌, length, IfOk};

use std::alloc::Global;
use std::marker::Model;
use zs_num::{Entry, NoMemory};

/// The accesses of one core in an interval, in its order, with room for so many. Contracts see the
/// entries and the room.
#[derive(Drop)]
pub struct CoreLog {
    list: Vec<Entry>,
    room: u32,
}

impl Model for CoreLog {
    ghost use Rattle.std.specs.Prelude.{◌≤◌, vec_len, vec_capacity};
    ghost use Rattle.access_log.specs.Logs.{LogState};

    ghost Value = { LogState };

    ghost view = { λ l. record { entries = l.list.items; room = l.room } };

    ghost invariant = { λ l. (vec_len l.list ≤ l.room) × (l.room ≤ vec_capacity l.list) };
}

impl CoreLog {
    /// No entry, and room for `room`. No other call takes memory.
    pub fn with_room(alloc: Global, room: u32) -> Result<Self, NoMemory>
        ensures { IfOk result (λ log. log ≡ record { entries = []; room = room }) }
    {
        Ok(CoreLog {
            list: Vec::with_capacity(alloc, room as usize)?,
            room,
        })
    }

    /// Adds an entry at the end.
    pub fn push(&mut self, entry: Entry)
        requires { length self.old.entries < self.old.room }
        ensures { self.new ≡ record self.old { entries = self.old.entries ++ entry ∷ [] } }
    {
        self.list.push_reserved(entry);
    }

    /// The entries so far.
    pub fn entries(&self) -> &[Entry]
        ensures entries { result.now ≡ self.now.entries }
        ensures room { length self.now.entries ≤ self.now.room }
    {
        &self.list
    }

    /// How many entries more there is room for.
    pub fn spare(&self) -> u32
        ensures { result ≡ self.now.room - length self.now.entries }
    {
        self.room - self.list.len() as u32
    }

    /// Forgets the entries, and keeps the room.
    pub fn clear(&mut self)
        ensures { self.new ≡ record self.old { entries = [] } }
    {
        self.list.clear();
    }
}
