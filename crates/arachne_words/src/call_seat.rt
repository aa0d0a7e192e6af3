//! A seat (the right of one kernel thread to use the table) during a call.
use arachne_rule::View;
use atomic_table::Seat;
use std::marker::Model;

/// A seat during a call, with the value fields that the call took from the table.
#[derive(Drop)]
pub(crate) struct CallSeat<T> {
    pub(crate) seat: Seat<Option<T>, View>,
}

impl<T> Model for CallSeat<T> {
    ghost use Rattle.arachne_rule.specs.Plays.{IsLive};
    ghost use Rattle.arachne_words.specs.Seats.{CallView};

    ghost Value = { CallView T };

    ghost view = { λ s. record { table = s.seat.table_id; weight = s.seat.me.0.weight; known = s.seat.me.0.known; slots = s.seat.me.1 } };

    ghost invariant = { λ s. IsLive s.seat.me };
}
