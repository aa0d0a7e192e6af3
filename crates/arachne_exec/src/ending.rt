//! The calls that end an executor and return the jobs that haven't ended.
ghost use Rattle.std.specs.Prelude.{◌≡◌, ◌*◌, ◌≤◌, [], vec_len, IfOk, IfErr};
ghost use Rattle.std.specs.Vec.{vec_capacity};
ghost use Rattle.arachne_weights.specs.Weight.{whole};
ghost use Rattle.arachne_exec.specs.Ending.{IsSettled, IsLawfulEnd};

use crate::executor::Executor;
use crate::seat::{ExecSeat, SeatInCall};
use std::alloc::Global;

impl Executor {
    /// Ends the executor. Returns the numbers of the jobs that haven't ended, in the order of their slots.
    ///
    /// If memory for the list is refused, returns the executor and the seat as an error.
    pub fn close(self, alloc: Global, seat: ExecSeat) -> Result<Vec<u64>, (Executor, ExecSeat)>
        requires own { seat.table ≡ self.table }
        requires whole { seat.weight ≡ whole }
        requires nothing_in_hand { seat.known.hand ≡ [] }
        ensures settled { IfOk result (λ left. IsSettled seat.known left.items) }
        ensures lawful { IfOk result (λ left. IsLawfulEnd self.shards seat.known) }
        ensures handed_back { IfErr result (λ back. back ≡ (self, seat)) }
    {
        let Ok(left) = Vec::with_capacity(alloc, self.places()) else {
            return Err((self, seat));
        };
        Ok(self.close_into(seat, left))
    }

    /// Ends the executor. Puts the numbers of the jobs that haven't ended into `list`, in the order of their slots, and
    /// returns it. `list` must be empty, and must have room for a number for each slot.
    pub fn close_into(self, seat: ExecSeat, list: Vec<u64>) -> Vec<u64>
        requires own { seat.table ≡ self.table }
        requires whole { seat.weight ≡ whole }
        requires nothing_in_hand { seat.known.hand ≡ [] }
        requires empty { list.items ≡ [] }
        requires room { 4096 * self.shards ≤ vec_capacity list }
        ensures settled { IsSettled seat.known result.items }
        ensures lawful { IsLawfulEnd self.shards seat.known }
        ensures counted { vec_len result ≤ 4096 * self.shards }
    {
        let mut left = list;
        let places = self.table.slot_count();
        let Executor { table, shards: _ } = self;
        let ExecSeat { at, .. } = seat;
        let SeatInCall { seat } = at;
        let mut closed = table.close_with(seat);
        for place in 0..places {
            let job = closed.take(place);
            if job == 0 {
                continue;
            }
            left.push(job).unwrap();
        }
        closed.free();
        left
    }
}
