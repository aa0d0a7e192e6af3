//! Wakes a thread by its id. A blocked thread becomes ready; one that a worker holds is marked as woken.
ghost use Rattle.std.specs.Prelude.{◌≡◌, ◌<◌, IfOk, IfErr};
ghost use Rattle.arachne_core.specs.declared.mark.Mark.TheVariants as Mark;
ghost use Rattle.arachne_core.specs.declared.layout.TheConstants.{CORE_BITS};
ghost use Rattle.arachne_core.specs.Marked.{mark_word};
ghost use Rattle.arachne_core.specs.World.{Thread};
ghost use Rattle.arachne_contexts.specs.declared.answers.Woken.TheVariants as woken;
ghost use Rattle.arachne_rule.specs.declared.view.Kind.TheVariants as kind;
ghost use Rattle.arachne_rule.specs.Plays.{HasEnded};
ghost use Rattle.arachne_words.specs.Calls.{WakeAnswer};
ghost use Rattle.arachne_words.specs.AfterSteps.{LosesTo, WinsMark};

use crate::call_seat::CallSeat;
use crate::seat::WordSeat;
use crate::steps::{MarkWoken, WakeBlocked};
use crate::table::WordContexts;
use arachne_contexts::{Tagged, Woken};
use arachne_core::{Mark, MarkWord, ThreadId};

impl<T: Tagged + Drop> WordContexts<T> {
    fn try_wake(&self, seat: &mut CallSeat<T>, context: usize, seen: MarkWord) -> Result<(), u64>
        requires own { seat.old.table ≡ self.now.table }
        requires context { context < self.now.table.slots }
        requires blocked { seen.mark ≡ Mark.Blocked }
        ensures won { IfOk result (λ _. WinsMark kind.Wake context seen Mark.Ready seat.old seat.new) }
        ensures lost { IfErr result (λ found. LosesTo kind.Wake context (mark_word CORE_BITS seen) found seat.old seat.new) }
    {
        let shared = &self.table.shared;
        let old = seen.word();
        let new = seen.with_mark(Mark::Ready).word();
        let found = shared.compare_exchange::<WakeBlocked>(&mut seat.seat, context, old, new);
        if found != old {
            return Err(found);
        }
        Ok(())
    }

    fn try_mark_woken(
        &self,
        seat: &mut CallSeat<T>,
        context: usize,
        seen: MarkWord,
    ) -> Result<(), u64>
        requires own { seat.old.table ≡ self.now.table }
        requires context { context < self.now.table.slots }
        requires held { seen.mark ≡ Mark.Held }
        ensures won { IfOk result (λ _. WinsMark kind.MarkWoken context seen Mark.Woken seat.old seat.new) }
        ensures lost { IfErr result (λ found. LosesTo kind.MarkWoken context (mark_word CORE_BITS seen) found seat.old seat.new) }
    {
        let shared = &self.table.shared;
        let old = seen.word();
        let new = seen.with_mark(Mark::Woken).word();
        let found = shared.compare_exchange::<MarkWoken>(&mut seat.seat, context, old, new);
        if found != old {
            return Err(found);
        }
        Ok(())
    }

    /// Tries once to wake the thread with this id. Any id may be passed.
    ///
    /// A blocked thread becomes ready. A running thread is marked, so that it is ready when its worker puts it back.
    pub fn wake(&self, seat: &mut WordSeat<T>, id: ThreadId) -> Woken
        requires own { seat.old.table ≡ self.now.table }
        ensures seat { (seat.new.table ≡ seat.old.table) × (seat.new.weight ≡ seat.old.weight) }
        ensures answer { WakeAnswer self.now id seat.old.known result seat.new.known }
        ensures ended { (t : Thread) → t.0 ≡ id → HasEnded seat.old.known t → result ≡ woken.Gone }
    {
        let context = id.context as usize;
        if context >= self.table.slot_count() {
            return Woken::Gone;
        }
        let seen = self.see_mark(&mut seat.at, context);
        if seen.generation() != id.generation {
            return Woken::Gone;
        }
        match seen.mark() {
            Mark::Free | Mark::Spent => Woken::Gone,
            Mark::Ready | Mark::Woken => Woken::Already(seen.word()),
            Mark::Blocked => match self.try_wake(&mut seat.at, context, seen) {
                Ok(()) => Woken::Woken,
                Err(found) => Woken::Lost(found),
            },
            Mark::Held => match self.try_mark_woken(&mut seat.at, context, seen) {
                Ok(()) => Woken::Woken,
                Err(found) => Woken::Lost(found),
            },
        }
    }
}
