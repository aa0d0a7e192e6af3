//! Takes the ready thread at a place (a thread slot), with its value. The seat then holds the thread.
ghost use Rattle.std.specs.Prelude.{◌≡◌, ◌↔◌, IsTrue, ◌<◌, ◌∷◌, Some, None, IfOk, IfErr};
ghost use Rattle.atomic_table.specs.Table.{rest};
ghost use Rattle.arachne_core.specs.declared.mark.Mark.TheVariants as Mark;
ghost use Rattle.arachne_core.specs.declared.layout.TheConstants.{CORE_BITS};
ghost use Rattle.arachne_core.specs.Marked.{mark_word};
ghost use Rattle.arachne_rule.specs.declared.view.Carried.{Carried};
ghost use Rattle.arachne_rule.specs.declared.view.Kind.TheVariants as kind;
ghost use Rattle.arachne_words.specs.Sizes.{IsPlaceIn};
ghost use Rattle.arachne_words.specs.Steps.{HasLast, IsTaken};
ghost use Rattle.arachne_words.specs.Calls.{TakeAnswer};
ghost use Rattle.arachne_words.specs.AfterSteps.{LosesTo, WinsTake, WritesName};

use crate::call_seat::CallSeat;
use crate::seat::{WordHold, WordSeat};
use crate::steps::{KeepName, Take};
use crate::table::WordContexts;
use arachne_contexts::{Held, Tagged, Taken};
use arachne_core::{Mark, MarkWord, Place, ThreadId};

fn is_ready_at(seen: MarkWord, place: Place) -> bool
    ensures { IsTrue result ↔ ((seen.mark ≡ Mark.Ready) × (seen.place ≡ place)) }
{
    let at = seen.place();
    seen.mark() == Mark::Ready && at.core == place.core && at.index == place.index
}

impl<T: Tagged + Drop> WordContexts<T> {
    fn try_take(&self, seat: &mut CallSeat<T>, context: usize, seen: MarkWord) -> Result<(), u64>
        requires own { seat.old.table ≡ self.now.table }
        requires context { context < self.now.table.slots }
        requires ready { seen.mark ≡ Mark.Ready }
        ensures won { IfOk result (λ _. WinsTake T.tag_of context seen seat.old seat.new) }
        ensures lost { IfErr result (λ found. LosesTo kind.Take context (mark_word CORE_BITS seen) found seat.old seat.new) }
    {
        let shared = &self.table.shared;
        let old = seen.word();
        let new = seen.with_mark(Mark::Held).word();
        let found = shared.compare_exchange::<Take>(&mut seat.seat, context, old, new);
        if found != old {
            return Err(found);
        }
        Ok(())
    }

    fn take_out(&self, seat: &mut CallSeat<T>, context: usize) -> T
        requires own { seat.old.table ≡ self.now.table }
        requires value { (value : T) × HasLast seat.old.slots context (Some value) }
        ensures value { HasLast seat.old.slots context (Some result) }
        ensures seat { seat.new ≡ record seat.old { slots = (context, None) ∷ rest seat.old.slots } }
    {
        self.table
            .shared
            .exchange(&mut seat.seat, context, None)
            .unwrap()
    }

    /// Writes the number of a taken thread's context into the word of the thread's slot.
    ///
    /// This puts the context's empty value field back into the table.
    fn keep_name(&self, seat: &mut CallSeat<T>, context: usize, place: Place)
        requires own { seat.old.table ≡ self.now.table }
        requires place { IsPlaceIn self.now.shape place }
        requires taken { (c : Carried) × IsTaken self.now seat.old context place c }
        ensures { (c : Carried) → IsTaken self.now seat.old context place c → WritesName self.now place context c seat.old seat.new }
    {
        let shared = &self.table.shared;
        let word = self.name_word(place);
        shared.store::<KeepName>(&mut seat.seat, word, context as u64);
    }

    /// Tries once to take the thread in slot `index` of `core`, if it is ready. The caller then holds the thread.
    pub fn take(&self, seat: &mut WordSeat<T>, core: u8, index: u8) -> Taken<T, WordHold>
        requires own { seat.old.table ≡ self.now.table }
        requires place { IsPlaceIn self.now.shape (record { core = core; index = index }) }
        ensures seat { (seat.new.table ≡ seat.old.table) × (seat.new.weight ≡ seat.old.weight) }
        ensures answer { TakeAnswer T.tag_of self.now (record { core = core; index = index }) seat.old.known result seat.new.known }
    {
        let _ = &self.places_per_core;
        let place = Place { core, index };
        let context = self.see_name(&mut seat.at, place);
        let seen = self.see_mark(&mut seat.at, context);
        if !is_ready_at(seen, place) {
            return Taken::NotReady(seen.word());
        }
        match self.try_take(&mut seat.at, context, seen) {
            Ok(()) => {
                let value = self.take_out(&mut seat.at, context);
                self.keep_name(&mut seat.at, context, place);
                seat.out += 1;
                let hold = WordHold {
                    id: ThreadId {
                        context: context as u32,
                        generation: seen.generation(),
                    },
                    place,
                    alone: seen.is_alone(),
                };
                Taken::Run(Held { value, hold })
            }
            Err(found) => Taken::Lost(found),
        }
    }
}
