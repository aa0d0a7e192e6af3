//! Closes a table, and returns the threads that have not ended.
ghost use Rattle.std.specs.Prelude.{◌≡◌, IfOk, IfErr};
ghost use Rattle.arachne_rule.specs.Ending.{IsSettled};
ghost use Rattle.arachne_contexts.specs.Answers.{IsByContext};
ghost use Rattle.arachne_weights.specs.Weight.{whole};
ghost use Rattle.arachne_core.specs.declared.layout.TheConstants.{CORE_BITS};
ghost use Rattle.arachne_core.specs.Marked.{marked_of};
ghost use Rattle.arachne_words.specs.Seats.{HasNothingOut};
ghost use Rattle.arachne_words.specs.Ending.{IsLawfulEnd};

use crate::call_seat::CallSeat;
use crate::seat::WordSeat;
use crate::table::WordContexts;
use arachne_contexts::Tagged;
use arachne_core::{GENERATION_BITS, ThreadId};
use std::alloc::Global;

fn generation_in(word: u64) -> u64
    ensures { result ≡ (marked_of CORE_BITS word).generation }
{
    word >> (64 - GENERATION_BITS)
}

impl<T: Tagged + Drop> WordContexts<T> {
    /// Closes the table. Returns the threads that have not ended, in the order of their contexts' numbers.
    ///
    /// If memory for the list is refused, returns the table and the seat as an error.
    pub fn close(
        self,
        alloc: Global,
        seat: WordSeat<T>,
    ) -> Result<Vec<(ThreadId, T)>, (WordContexts<T>, WordSeat<T>)>
        requires own { seat.table ≡ self.table }
        requires whole { seat.weight ≡ whole }
        requires nothing_out { HasNothingOut seat.known }
        ensures settled { IfOk result (λ left. IsSettled T.tag_of seat.known left.items) }
        ensures order { IfOk result (λ left. IsByContext left.items) }
        ensures lawful { IfOk result (λ left. IsLawfulEnd T.tag_of self.shape seat.known) }
        ensures handed_back { IfErr result (λ back. back ≡ (self, seat)) }
    {
        let contexts = self.table.slot_count();
        let Ok(mut left) = Vec::with_capacity(alloc, contexts) else {
            return Err((self, seat));
        };
        let WordContexts {
            table,
            places_per_core: _,
            last: _,
        } = self;
        let WordSeat {
            at,
            weight: _,
            out: _,
        } = seat;
        let CallSeat { seat } = at;
        let mut closed = table.close_with(seat);
        for context in 0..contexts {
            let word = closed.word(context);
            let Some(value) = closed.take(context) else {
                continue;
            };
            let id = ThreadId {
                context: context as u32,
                generation: generation_in(word),
            };
            left.push((id, value)).unwrap();
        }
        closed.free();
        Ok(left)
    }
}
