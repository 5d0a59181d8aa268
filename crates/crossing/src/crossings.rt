//! The words of the crossings, for all domains at once.
ghost use Rattle.std.specs.Prelude.{◌≡◌, ◌≤◌, ◌<◌, ◌+◌, ◌*◌, ◌^◌, All, length, slice_index};
ghost use Rattle.crossing.specs.Seats.{Looked, MayWrite, with_written};

use crate::plays::{Find, Write};
use crate::seat::DomainSeat;
use crate::view::Words;
use std::marker::Model;
use zs_num::{Cycle, Word};

/// One word for each crossing, by which the domain that has the parent tells the domain that has
/// the child what is known of the parent's finish. Threads share it.
#[derive(Drop)]
pub struct Crossings {
    pub(crate) words: Words,
    pub(crate) ghost no_slots: { words.shared.table_id.slots ≡ 0 },
}

impl Model for Crossings {
    ghost use Rattle.atomic_table.specs.Seated.{TableId};

    ghost Value = { TableId };

    ghost view = { λ c. c.words.shared.table_id };
}

impl Crossings {
    /// Raises the bound in the word of a crossing that the seat's domain owns, while its finish is
    /// not published. Takes no memory and waits for nobody.
    pub fn raise(&self, seat: &mut DomainSeat, crossing: u32, bound: Cycle)
        requires crossings { seat.old.crossings ≡ self.now }
        requires may { MayWrite seat.old crossing }
        requires rises { slice_index seat.old.wrote crossing ≤ 2 * bound }
        requires sound { bound ≤ slice_index seat.old.finishes crossing }
        requires small { bound ≤ 2 ^ 62 }
        ensures { seat.new ≡ with_written seat.old crossing (2 * bound) }
    {
        self.words
            .shared
            .store::<Write>(&mut seat.place, 16 * crossing as usize + 16, 2 * bound);
    }

    /// Publishes the finish of the parent of a crossing that the seat's domain owns. Takes no
    /// memory and waits for nobody.
    pub fn publish(&self, seat: &mut DomainSeat, crossing: u32, finish: Cycle)
        requires crossings { seat.old.crossings ≡ self.now }
        requires may { MayWrite seat.old crossing }
        requires sound { finish ≡ slice_index seat.old.finishes crossing }
        requires small { finish ≤ 2 ^ 62 }
        ensures { seat.new ≡ with_written seat.old crossing (2 * finish + 1) }
    {
        self.words.shared.store::<Write>(
            &mut seat.place,
            16 * crossing as usize + 16,
            2 * finish + 1,
        );
    }

    /// What the word of a crossing says now. Takes no memory and waits for nobody.
    pub fn look(&self, seat: &mut DomainSeat, crossing: u32) -> Word
        requires crossings { seat.old.crossings ≡ self.now }
        requires there { crossing < length seat.old.sources }
        ensures { Looked seat.old seat.new crossing result }
    {
        let number = self
            .words
            .shared
            .load::<Find>(&mut seat.place, 16 * crossing as usize + 16);
        if number % 2 == 0 {
            Word::Bound(number / 2)
        } else {
            Word::Exact(number / 2)
        }
    }

    /// Frees the words, once all domains have handed in their seats.
    pub fn close(self, seats: Vec<DomainSeat>)
        requires { All (λ s. s.crossings ≡ self) seats.items }
    {
        drop(seats);
        drop(self);
    }
}
