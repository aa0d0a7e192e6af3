//! The executor, and the calls that create it, split a seat for another thread, and join seats.
ghost use Rattle.std.specs.Prelude.{◌≡◌, ◌*◌, ◌↔◌, ◌≤◌, [], IsTrue, IfOk};
ghost use Rattle.arachne_weights.specs.Weight.{whole, first_part, second_part, joined};
ghost use Rattle.arachne_exec.specs.Changes.{blank, splitting, together};

use crate::layout::{empty_slots, first_words};
use crate::seat::{ExecSeat, SeatInCall};
use crate::steps::{Halve, Lawful};
use crate::turns::SearchTurn;
use crate::view::View;
use arachne_weights::Weight;
use atomic_table::Table;
use std::alloc::{AllocError, Global};
use std::marker::Model;

/// An executor, which knows the ready and the blocked jobs, and gives each ready job to one kernel thread.
///
/// A job is a number that the host (the program that uses the executor) chooses, and that the executor doesn't
/// interpret. Each job is in a slot. A block is 64 slots, and a shard is 64 blocks, whose jobs one worker runs. Threads
/// call the executor through seats ([`ExecSeat`]).
// In methods of this type, the line `let _ = self.shards;` gives the prover the invariant of this type, with the sizes
// of the table.
#[derive(Drop)]
pub struct Executor {
    pub(crate) table: Table<u64, View, usize, Lawful, Global>,
    pub(crate) shards: usize,
}

impl Model for Executor {
    ghost use Rattle.arachne_exec.specs.Seats.{Places, IsLaidOut};

    ghost Value = { Places };

    ghost view = { λ e. record { table = e.table.shared.table_id; shards = e.shards } };

    ghost invariant = { λ e. IsLaidOut e.table.shared.table_id e.table.shared.key e.shards };
}

impl Executor {
    /// Creates an executor with `shards` shards of 4,096 free slots each, and its first seat. Returns an error if
    /// memory is refused.
    ///
    /// Each seat has a *weight*. The first seat has the whole, a split halves a weight, and a join adds two weights. So
    /// a seat with the whole weight is the only one left, as `close` requires.
    pub fn new(alloc: Global, shards: usize) -> Result<(Executor, ExecSeat), AllocError>
        requires { shards ≤ 256 }
        ensures shards { IfOk result (λ made. made.0.shards ≡ shards) }
        ensures seat { IfOk result (λ made. made.1 ≡ record { table = made.0.table; weight = whole; known = blank; turn = 0 }) }
    {
        let words = first_words(alloc, 64 * shards)?;
        let slots = empty_slots(alloc, 64 * shards)?;
        let Ok((table, seat)) = Table::new(alloc, words.as_slice(), slots, &shards) else {
            return Err(AllocError);
        };
        let seat = ExecSeat {
            at: SeatInCall { seat },
            weight: Weight::whole(),
            turn: SearchTurn::start(),
            take_turn: 0,
        };
        Ok((Executor { table, shards }, seat))
    }

    /// Returns the number of shards, each of which has 4,096 job slots.
    pub fn shards(&self) -> usize
        ensures { result ≡ self.now.shards }
    {
        self.shards
    }

    /// Returns the number of job slots, 4,096 for each shard.
    pub fn places(&self) -> usize
        ensures { result ≡ 4096 * self.now.shards }
    {
        self.few();
        4096 * self.shards
    }

    /// Does nothing, but its contract tells the prover that an executor has at most 256 shards.
    pub(crate) fn few(&self)
        ensures { self.now.shards ≤ 256 }
    {
        let _ = &self.shards;
    }

    fn cut(&self, seat: &mut SeatInCall) -> SeatInCall
        requires own { seat.old.table ≡ self.now.table }
        ensures first { seat.new ≡ record seat.old { weight = first_part seat.old.weight; known = splitting seat.old.known } }
        ensures second { result ≡ record { table = seat.old.table; weight = second_part seat.old.weight; known = blank; slots = [] } }
    {
        let _ = self.shards;
        let other = self.table.shared.split_seat::<Halve>(&mut seat.seat);
        SeatInCall { seat: other }
    }

    fn take_in(&self, seat: &mut SeatInCall, other: SeatInCall)
        requires own { (seat.old.table ≡ self.now.table) × (other.table ≡ self.now.table) }
        requires nothing { (other.slots ≡ []) × (other.known.hand ≡ []) × (other.known.worker ≡ 0) × (other.known.unspawned ≡ 0) × (other.known.unshown ≡ 0) × (other.known.owes ≡ 0) }
        ensures { seat.new ≡ record seat.old { weight = joined seat.old.weight other.weight; known = together seat.old.known other.known } }
    {
        let _ = self.shards;
        let SeatInCall { seat: spent } = other;
        self.table.shared.join_seat::<Halve>(&mut seat.seat, spent);
    }

    /// Splits off a seat for another kernel thread. The new seat holds no job, and gets half of the weight of `seat`.
    ///
    /// If the weight of `seat` is 1 (of 2^127) or 0, both seats get weight 0, and the executor can never be closed.
    pub fn split(&self, seat: &mut ExecSeat) -> ExecSeat
        requires own { seat.old.table ≡ self.now.table }
        ensures first { seat.new ≡ record seat.old { weight = first_part seat.old.weight; known = splitting seat.old.known } }
        ensures second { result ≡ record { table = seat.old.table; weight = second_part seat.old.weight; known = blank; turn = 0 } }
    {
        let (first, second) = seat.weight.split();
        let other = self.cut(&mut seat.at);
        seat.weight = first;
        ExecSeat {
            at: other,
            weight: second,
            turn: SearchTurn::start(),
            take_turn: 0,
        }
    }

    /// Joins the seat `other` into `seat`, and adds its weight. `other` must hold no job and have no worker number.
    pub fn join_seats(&self, seat: &mut ExecSeat, other: ExecSeat)
        requires own { (seat.old.table ≡ self.now.table) × (other.table ≡ self.now.table) }
        requires nothing_in_hand { other.known.hand ≡ [] }
        requires no_worker { other.known.worker ≡ 0 }
        ensures { seat.new ≡ record seat.old { weight = joined seat.old.weight other.weight; known = together seat.old.known other.known } }
    {
        let ExecSeat {
            at: spent,
            weight: added,
            ..
        } = other;
        self.take_in(&mut seat.at, spent);
        seat.weight = seat.weight.join(added);
    }

    /// Returns true if `seat` is the only seat left, since all others were joined into it.
    pub fn is_whole(&self, seat: &ExecSeat) -> bool
        ensures { IsTrue result ↔ (seat.now.weight ≡ whole) }
    {
        seat.weight.is_whole()
    }
}
