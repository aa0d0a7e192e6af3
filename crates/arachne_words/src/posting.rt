//! Posts a thread: puts it, ready to run, into a thread slot that the seat has claimed.
ghost use Rattle.std.specs.Prelude.{◌≡◌, ◌<◌, ◌∷◌, Some, None};
ghost use Rattle.atomic_table.specs.Table.{rest};
ghost use Rattle.arachne_rule.specs.declared.view.Carried.{Carried};
ghost use Rattle.arachne_rule.specs.Changes.{posted};
ghost use Rattle.arachne_words.specs.Sizes.{IsPlaceIn};
ghost use Rattle.arachne_words.specs.Seats.{HasClaim};
ghost use Rattle.arachne_words.specs.Steps.{IsAtHome, IsPostable};
ghost use Rattle.arachne_words.specs.Calls.{PostAnswer};
ghost use Rattle.arachne_words.specs.AfterSteps.{LoadsSlot, WritesPost};

use crate::call_seat::CallSeat;
use crate::seat::{WordClaim, WordSeat};
use crate::steps::{Post, TakeSlot};
use crate::table::WordContexts;
use arachne_contexts::Tagged;
use arachne_core::{Mark, MarkWord, Place, ThreadId};

impl<T: Tagged + Drop> WordContexts<T> {
    /// Takes the empty value field of the context at `place` out of the table, and returns the context's number.
    pub(crate) fn take_slot(&self, seat: &mut CallSeat<T>, place: Place) -> usize
        requires own { seat.old.table ≡ self.now.table }
        requires place { IsPlaceIn self.now.shape place }
        requires carried { (c : Carried) × IsAtHome self.now place seat.old.known c }
        ensures { (c : Carried) → IsAtHome self.now place seat.old.known c → LoadsSlot self.now place result c seat.old seat.new }
    {
        let shared = &self.table.shared;
        shared.load::<TakeSlot>(&mut seat.seat, self.name_word(place)) as usize
    }

    pub(crate) fn lay_in(&self, seat: &mut CallSeat<T>, context: usize, value: T)
        requires own { seat.old.table ≡ self.now.table }
        requires slot { seat.old.slots ≡ (context, None) ∷ rest seat.old.slots }
        ensures { seat.new ≡ record seat.old { slots = (context, Some value) ∷ rest seat.old.slots } }
    {
        match self
            .table
            .shared
            .exchange(&mut seat.seat, context, Some(value))
        {
            None => {}
            Some(_) => unreachable!(),
        }
    }

    fn store_posted(&self, seat: &mut CallSeat<T>, context: usize, ready: MarkWord)
        requires own { seat.old.table ≡ self.now.table }
        requires postable { (c : Carried) × (value : T) × IsPostable self.now seat.old context ready c value }
        ensures { (c : Carried) (value : T) → IsPostable self.now seat.old context ready c value → WritesPost context ready c (T.tag_of value) seat.old seat.new }
    {
        let shared = &self.table.shared;
        shared.store::<Post>(&mut seat.seat, context, ready.word());
    }

    /// Puts a thread with this value, ready to run, into the claimed thread slot. Returns the thread's id.
    ///
    /// The thread is ready even if its core was closed after the claim.
    pub fn post(&self, seat: &mut WordSeat<T>, claim: WordClaim, value: T) -> ThreadId
        requires own { seat.old.table ≡ self.now.table }
        requires claim { HasClaim self.now seat.old.known claim }
        ensures seat { (seat.new.table ≡ seat.old.table) × (seat.new.weight ≡ seat.old.weight) }
        ensures posted { PostAnswer self.now seat.old.known claim (T.tag_of value) result seat.new.known }
    {
        let _ = &self.places_per_core;
        let WordClaim { place, alone } = claim;
        let context = self.take_slot(&mut seat.at, place);
        let generation = self.see_mark(&mut seat.at, context).generation();
        self.lay_in(&mut seat.at, context, value);
        let ready = MarkWord::new(Mark::Ready, alone, place, generation);
        self.store_posted(&mut seat.at, context, ready);
        seat.out -= 1;
        ThreadId {
            context: context as u32,
            generation,
        }
    }
}
