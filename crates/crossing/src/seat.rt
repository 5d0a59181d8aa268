//! A domain's right to write its crossings, and what it found in the others.
ghost use Rattle.std.specs.Prelude.{◌≡◌};

use crate::view::TableSeat;
use std::marker::Model;

/// The seat of one domain at the crossings.
#[derive(Drop)]
pub struct DomainSeat {
    pub(crate) place: TableSeat,
}

impl Model for DomainSeat {
    ghost use Rattle.crossing.specs.Seats.{SeatValue};
    ghost use Rattle.crossing.specs.Inside.{IsTableSeat, seat_value};

    ghost Value = { SeatValue };

    ghost view = { λ s. seat_value s.place.table_id s.place.me.0 };

    ghost invariant = { λ s. IsTableSeat s.place.table_id s.place.me };
}
