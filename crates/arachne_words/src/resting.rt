//! Puts a thread that a seat holds back into the table, ready to run or blocked.
ghost use Rattle.std.specs.Prelude.{◌≡◌, ◌<◌, IfOk, IfErr};
ghost use Rattle.atomic_table.specs.Table.{rest};
ghost use Rattle.arachne_core.specs.declared.mark.Mark.TheVariants as Mark;
ghost use Rattle.arachne_rule.specs.declared.view.Carried.{Carried};
ghost use Rattle.arachne_rule.specs.Changes.{marked_as};
ghost use Rattle.arachne_rule.specs.Views.{without};
ghost use Rattle.arachne_words.specs.Seats.{HasThread, marked_by};
ghost use Rattle.arachne_words.specs.Steps.{IsRestable};
ghost use Rattle.arachne_words.specs.Calls.{RestAnswer};
ghost use Rattle.arachne_words.specs.AfterSteps.{FindsWoken, WinsRest, WritesRest};

use crate::call_seat::CallSeat;
use crate::seat::{WordHold, WordSeat};
use crate::steps::{RestBlocked, RestReady};
use crate::table::WordContexts;
use arachne_contexts::{Held, Rested, Tagged};
use arachne_core::{Mark, MarkWord, Rest, ThreadId};

impl<T: Tagged + Drop> WordContexts<T> {
    fn rest_ready(&self, seat: &mut CallSeat<T>, context: usize, ready: MarkWord)
        requires own { seat.old.table ≡ self.now.table }
        requires restable { (c : Carried) × (value : T) × IsRestable T.tag_of self.now seat.old context c value × (ready ≡ marked_as Mark.Ready c) }
        ensures { (c : Carried) (value : T) → IsRestable T.tag_of self.now seat.old context c value → WritesRest context ready c seat.old seat.new }
    {
        let shared = &self.table.shared;
        shared.store::<RestReady>(&mut seat.seat, context, ready.word());
    }

    /// Tries once to block a thread, and returns its mark word as the error if that isn't `held` any more.
    fn try_rest_blocked(
        &self,
        seat: &mut CallSeat<T>,
        context: usize,
        held: MarkWord,
    ) -> Result<(), u64>
        requires own { seat.old.table ≡ self.now.table }
        requires restable { (c : Carried) × (value : T) × IsRestable T.tag_of self.now seat.old context c value × (held ≡ marked_as Mark.Held c) }
        ensures won { IfOk result (λ _. (c : Carried) (value : T) → IsRestable T.tag_of self.now seat.old context c value → WinsRest context held c seat.old seat.new) }
        ensures lost { IfErr result (λ found. FindsWoken context held found seat.old seat.new) }
    {
        let shared = &self.table.shared;
        let old = held.word();
        let new = held.with_mark(Mark::Blocked).word();
        let found = shared.compare_exchange::<RestBlocked>(&mut seat.seat, context, old, new);
        if found != old {
            return Err(found);
        }
        Ok(())
    }

    /// Stores a thread's value in the table before it puts the thread back.
    fn rest_thread(
        &self,
        seat: &mut CallSeat<T>,
        id: ThreadId,
        held: MarkWord,
        value: T,
        rest: Rest,
    ) -> Rested
        requires own { seat.old.table ≡ self.now.table }
        requires held { held ≡ marked_by Mark.Held (record { id = id; place = held.place; alone = held.alone }) }
        requires thread { HasThread self.now seat.old.known (record { id = id; place = held.place; alone = held.alone }) (T.tag_of value) }
        ensures seat { seat.new ≡ record seat.old { known = seat.new.known } }
        ensures carried { seat.new.known.carried ≡ without id.context seat.old.known.carried }
        ensures answer { RestAnswer self.now (record { id = id; place = held.place; alone = held.alone }) (T.tag_of value) seat.old.known rest result seat.new.known }
    {
        let context = self.take_slot(seat, held.place());
        self.lay_in(seat, context, value);
        let ready = held.with_mark(Mark::Ready);
        if let Rest::Ready = rest {
            self.rest_ready(seat, context, ready);
            return Rested::AsAsked;
        }
        if let Err(_woken) = self.try_rest_blocked(seat, context, held) {
            self.rest_ready(seat, context, ready);
            return Rested::WokenMeanwhile;
        }
        Rested::AsAsked
    }

    /// Puts back a thread that the caller holds, as ready or as blocked. A thread that was woken while it ran becomes
    /// ready in any case.
    pub fn put_back(&self, seat: &mut WordSeat<T>, thread: Held<T, WordHold>, rest: Rest) -> Rested
        requires own { seat.old.table ≡ self.now.table }
        requires thread { HasThread self.now seat.old.known thread.hold (T.tag_of thread.value) }
        ensures seat { (seat.new.table ≡ seat.old.table) × (seat.new.weight ≡ seat.old.weight) }
        ensures answer { RestAnswer self.now thread.hold (T.tag_of thread.value) seat.old.known rest result seat.new.known }
    {
        let Held { value, hold } = thread;
        let WordHold { id, place, alone } = hold;
        let held = MarkWord::new(Mark::Held, alone, place, id.generation);
        let rested = self.rest_thread(&mut seat.at, id, held, value, rest);
        seat.out -= 1;
        rested
    }
}
