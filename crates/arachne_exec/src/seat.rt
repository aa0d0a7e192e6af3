//! A seat: the right of one thread to call an executor, as a value that each call takes.
use crate::turns::SearchTurn;
use crate::view::View;
use arachne_weights::Weight;
use atomic_table::Seat;
use std::marker::Model;

/// A seat (right to call the executor) in the middle of a call. Before it returns, the call may have to add a block to
/// the list of blocks to search, or to wake a worker.
#[derive(Drop)]
pub(crate) struct SeatInCall {
    pub(crate) seat: Seat<u64, View>,
}

impl Model for SeatInCall {
    ghost use Rattle.arachne_exec.specs.Steps.{IsLive};
    ghost use Rattle.arachne_exec.specs.Seats.{CallView};

    ghost Value = { CallView };

    ghost view = { λ s. record { table = s.seat.table_id; weight = s.seat.me.0.weight; known = s.seat.me.0.known; slots = s.seat.me.1 } };

    ghost invariant = { λ s. IsLive s.seat.me };
}

/// One kernel thread's right to call an executor. A seat *holds* the jobs that were taken with it and have neither
/// ended nor been put back.
///
/// Only one thread at a time can use a seat, and only with the executor that created it. If a seat is dropped, the jobs
/// that it holds are lost, and the executor can never be closed.
#[derive(Drop)]
pub struct ExecSeat {
    pub(crate) at: SeatInCall,
    pub(crate) weight: Weight,
    pub(crate) turn: SearchTurn,
    /// The index, modulo 64, at which the next `take` begins to search its block.
    pub(crate) take_turn: usize,
}

impl Model for ExecSeat {
    ghost use Rattle.std.specs.Prelude.{◌≡◌};
    ghost use Rattle.arachne_exec.specs.Seats.{SeatView, IsCalm};

    ghost Value = { SeatView };

    ghost view = { λ s. record { table = s.at.table; weight = s.weight; known = s.at.known; turn = s.take_turn } };

    ghost invariant = { λ s. (s.at.weight ≡ s.weight) × IsCalm s.at.known s.at.slots };
}
