//! Ends a thread that a seat holds, and frees its place (a core's thread slot) for another.
ghost use Rattle.std.specs.Prelude.{◌≡◌, ℕ, ◌<◌};
ghost use Rattle.arachne_rule.specs.Views.{without};
ghost use Rattle.arachne_words.specs.Seats.{HasThread};
ghost use Rattle.arachne_words.specs.Calls.{HasFinished};
ghost use Rattle.arachne_words.specs.AfterSteps.{WritesFree, WritesSpent};

use crate::call_seat::CallSeat;
use crate::seat::{WordHold, WordSeat};
use crate::steps::{Retire, Spend};
use crate::table::WordContexts;
use arachne_contexts::{Held, Tagged};
use arachne_core::{Mark, MarkWord};

impl<T: Tagged + Drop> WordContexts<T> {
    fn retire(&self, seat: &mut CallSeat<T>, hold: &WordHold)
        requires own { seat.old.table ≡ self.now.table }
        requires thread { (tag : ℕ) × HasThread self.now seat.old.known hold.now tag }
        requires more { hold.now.id.generation < self.now.shape.last }
        ensures { (tag : ℕ) → HasThread self.now seat.old.known hold.now tag → WritesFree hold.now tag seat.old seat.new }
    {
        let _ = &self.last;
        let free = MarkWord::new(Mark::Free, false, hold.place, hold.id.generation + 1);
        let shared = &self.table.shared;
        shared.swap::<Retire>(&mut seat.seat, hold.id.context as usize, free.word());
    }

    /// Ends the last thread of a context, which is never used again.
    fn spend(&self, seat: &mut CallSeat<T>, hold: &WordHold)
        requires own { seat.old.table ≡ self.now.table }
        requires thread { (tag : ℕ) × HasThread self.now seat.old.known hold.now tag }
        requires last { hold.now.id.generation ≡ self.now.shape.last }
        ensures { (tag : ℕ) → HasThread self.now seat.old.known hold.now tag → WritesSpent hold.now tag seat.old seat.new }
    {
        let _ = &self.last;
        let spent = MarkWord::new(Mark::Spent, false, hold.place, hold.id.generation);
        let shared = &self.table.shared;
        shared.swap::<Spend>(&mut seat.seat, hold.id.context as usize, spent.word());
    }

    fn end_thread(&self, seat: &mut CallSeat<T>, hold: &WordHold)
        requires own { seat.old.table ≡ self.now.table }
        requires thread { (tag : ℕ) × HasThread self.now seat.old.known hold.now tag }
        ensures seat { seat.new ≡ record seat.old { known = seat.new.known } }
        ensures carried { seat.new.known.carried ≡ without hold.now.id.context seat.old.known.carried }
        ensures finished { (tag : ℕ) → HasThread self.now seat.old.known hold.now tag → HasFinished self.now seat.old.known hold.now tag seat.new.known }
    {
        if hold.id.generation == self.last {
            self.spend(seat, hold);
            return;
        }
        self.retire(seat, hold);
        self.release(seat, hold.place, hold.alone);
    }

    /// Ends a thread that the caller holds, and returns the thread's value.
    ///
    /// The thread's slot is then free, unless the thread was the last that its context (thread record) may have.
    pub fn finish(&self, seat: &mut WordSeat<T>, thread: Held<T, WordHold>) -> T
        requires own { seat.old.table ≡ self.now.table }
        requires thread { HasThread self.now seat.old.known thread.hold (T.tag_of thread.value) }
        ensures value { result ≡ thread.value }
        ensures seat { (seat.new.table ≡ seat.old.table) × (seat.new.weight ≡ seat.old.weight) }
        ensures finished { HasFinished self.now seat.old.known thread.hold (T.tag_of thread.value) seat.new.known }
    {
        let Held { value, hold } = thread;
        self.end_thread(&mut seat.at, &hold);
        seat.out -= 1;
        value
    }
}
