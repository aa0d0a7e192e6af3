//! Moves a ready or blocked thread to another core. A move swaps the slots of two contexts: the moved thread's, and a
//! free one, which the caller has claimed together with the new slot.
ghost use Rattle.std.specs.Prelude.{◌≡◌, ◌≢◌, ℕ, ◌<◌, ◌==◌, if◌then◌else◌, true, false, ◌↔◌, IsTrue, IfSome, IfNone, IfOk, IfErr};
ghost use Rattle.arachne_core.specs.declared.layout.TheConstants.{CORE_BITS};
ghost use Rattle.arachne_core.specs.Marked.{mark_word};
ghost use Rattle.arachne_rule.specs.declared.view.Carried.{Carried};
ghost use Rattle.arachne_rule.specs.declared.view.Kind.TheVariants as kind;
ghost use Rattle.arachne_rule.specs.Changes.{left_context, marked_free};
ghost use Rattle.arachne_rule.specs.Layout.{name_index};
ghost use Rattle.arachne_rule.specs.Plays.{Carries, IsRestMark};
ghost use Rattle.arachne_rule.specs.Views.{noted};
ghost use Rattle.arachne_words.specs.Sizes.{IsPlaceIn};
ghost use Rattle.arachne_words.specs.Moves.{IsObstacle, MoveAnswer, SeenAnswer, ToAnswer, free_at, shared_claim};
ghost use Rattle.arachne_words.specs.Seats.{HasClaim, claimed_by};
ghost use Rattle.arachne_words.specs.Steps.{IsClaimed};
ghost use Rattle.arachne_words.specs.AfterSteps.{LosesTo, MovesOff, WinsMove, WritesPlace, WritesSource};

use crate::call_seat::CallSeat;
use crate::seat::WordSeat;
use crate::steps::{Move, NameSource, NameTarget, Replace};
use crate::table::WordContexts;
use arachne_contexts::{Moved, Tagged};
use arachne_core::{Mark, MarkWord, Place};

fn stands_at(seen: MarkWord, place: Place) -> bool
    ensures { IsTrue result ↔ (seen.place ≡ place) }
{
    let at = seen.place();
    at.core == place.core && at.index == place.index
}

/// Returns why a thread with this mark word can't be moved, or `None` if it can.
fn obstacle(seen: MarkWord) -> Option<Moved>
    ensures some { IfSome result (IsObstacle seen) }
    ensures none { IfNone result (IsRestMark seen.mark × (seen.alone ≡ false)) }
{
    match seen.mark() {
        Mark::Free | Mark::Spent => Some(Moved::Unposted),
        _ if seen.is_alone() => Some(Moved::Alone),
        Mark::Held | Mark::Woken => Some(Moved::Running),
        Mark::Ready | Mark::Blocked => None,
    }
}

impl<T: Tagged + Drop> WordContexts<T> {
    /// Tries once to move a ready or blocked thread to the slot `target`, which the caller has claimed on another core.
    fn try_move(
        &self,
        seat: &mut CallSeat<T>,
        context: usize,
        seen: MarkWord,
        target: Place,
    ) -> Result<(), u64>
        requires own { seat.old.table ≡ self.now.table }
        requires context { context < self.now.table.slots }
        requires place { IsPlaceIn self.now.shape target }
        requires rests { IsRestMark seen.mark × (seen.alone ≡ false) × (seen.place.core ≢ target.core) }
        requires claimed { (c : Carried) × IsClaimed self.now seat.old.known c × (c.place ≡ target) × (c.named ≡ true) × (c.alone ≡ false) }
        ensures won { IfOk result (λ _. (c : Carried) → IsClaimed self.now seat.old.known c → c.place ≡ target → WinsMove context seen target c seat.old seat.new) }
        ensures lost { IfErr result (λ found. LosesTo kind.Move context (mark_word CORE_BITS seen) found seat.old seat.new) }
    {
        let _ = &self.places_per_core;
        let shared = &self.table.shared;
        let old = seen.word();
        let new = seen.with_place(target).word();
        let found = shared.compare_exchange::<Move>(&mut seat.seat, context, old, new);
        if found != old {
            return Err(found);
        }
        Ok(())
    }

    /// Stores the number of the moved thread's context in the word of slot `target`, in place of the free context's
    /// number.
    fn name_target(
        &self,
        seat: &mut CallSeat<T>,
        target: Place,
        replaced: usize,
        context: usize,
    ) -> u64
        requires own { seat.old.table ≡ self.now.table }
        requires place { IsPlaceIn self.now.shape target }
        requires context { context < self.now.table.slots }
        requires claimed { (c : Carried) × IsClaimed self.now seat.old.known c × (replaced ≡ c.context) × (c.named ≡ false) }
        ensures { seat.new ≡ record seat.old { known = noted kind.NameTarget (name_index self.now.table.slots target) result (if result == replaced then context else result) seat.old.known } }
    {
        let shared = &self.table.shared;
        let word = self.name_word(target);
        shared.compare_exchange::<NameTarget>(&mut seat.seat, word, replaced as u64, context as u64)
    }

    /// Stores the slot that the moved thread has left in the free context's mark word.
    fn replace(&self, seat: &mut CallSeat<T>, context: usize, free: MarkWord)
        requires own { seat.old.table ≡ self.now.table }
        requires claimed { (c : Carried) × IsClaimed self.now seat.old.known c × (context ≡ c.context) × (free ≡ marked_free c) }
        ensures { (c : Carried) → IsClaimed self.now seat.old.known c → context ≡ c.context → WritesPlace context free c seat.old seat.new }
    {
        let shared = &self.table.shared;
        shared.store::<Replace>(&mut seat.seat, context, free.word());
    }

    /// Stores the free context's number in the word of the slot that the moved thread has left.
    fn name_source(&self, seat: &mut CallSeat<T>, source: Place, context: usize)
        requires own { seat.old.table ≡ self.now.table }
        requires place { IsPlaceIn self.now.shape source }
        requires claimed { (c : Carried) × IsClaimed self.now seat.old.known c × (context ≡ c.context) × (c.place ≡ source) × (c.shown ≡ c.place) }
        ensures { (c : Carried) → IsClaimed self.now seat.old.known c → context ≡ c.context → WritesSource self.now source context c seat.old seat.new }
    {
        let shared = &self.table.shared;
        let word = self.name_word(source);
        shared.store::<NameSource>(&mut seat.seat, word, context as u64);
    }

    /// Completes a move after `try_move` has changed the thread's mark word.
    ///
    /// Gives the free context `replaced`, which had the slot `target`, the slot `source` that the thread has left.
    fn move_off(
        &self,
        seat: &mut CallSeat<T>,
        moving: usize,
        replaced: usize,
        free: MarkWord,
        source: Place,
        target: Place,
    )
        requires own { seat.old.table ≡ self.now.table }
        requires places { IsPlaceIn self.now.shape target × IsPlaceIn self.now.shape source }
        requires contexts { (moving < self.now.table.slots) × (replaced < self.now.table.slots) }
        requires free { free ≡ free_at source free.generation }
        requires left { Carries seat.old.known (left_context (claimed_by (shared_claim target) replaced free.generation) source) }
        ensures { MovesOff self.now moving replaced free.generation source target seat.old seat.new }
    {
        self.name_target(seat, target, replaced, moving);
        self.replace(seat, replaced, free);
        self.name_source(seat, source, replaced);
        self.release(seat, source, false);
    }

    /// Moves a thread to a slot that the caller has claimed, or frees that slot if the thread's mark word isn't `seen`
    /// any more.
    fn move_to(
        &self,
        seat: &mut CallSeat<T>,
        moving: usize,
        seen: MarkWord,
        source: Place,
        target: Place,
    ) -> Moved
        requires own { seat.old.table ≡ self.now.table }
        requires context { moving < self.now.table.slots }
        requires places { IsPlaceIn self.now.shape target × IsPlaceIn self.now.shape source × (seen.place ≡ source) }
        requires rests { IsRestMark seen.mark × (seen.alone ≡ false) × (source.core ≢ target.core) }
        requires claim { HasClaim self.now seat.old.known (shared_claim target) }
        ensures seat { (seat.new.table ≡ seat.old.table) × (seat.new.weight ≡ seat.old.weight) × (seat.new.slots ≡ seat.old.slots) }
        ensures answer { (y g : ℕ) → y < self.now.table.slots → Carries seat.old.known (claimed_by (shared_claim target) y g)
            → ToAnswer self.now moving seen target y g seat.old.known result seat.new.known }
    {
        let _ = &self.places_per_core;
        let replaced = self.see_name(seat, target);
        let free = self.see_mark(seat, replaced);
        if let Err(found) = self.try_move(seat, moving, seen, target) {
            self.release(seat, target, false);
            return Moved::Lost(found);
        }
        self.move_off(
            seat,
            moving,
            replaced,
            free.with_place(source),
            source,
            target,
        );
        Moved::Moved
    }

    /// `seen` is the thread's mark word, read while no kernel thread ran the thread.
    fn move_seen(
        &self,
        seat: &mut CallSeat<T>,
        moving: usize,
        seen: MarkWord,
        source: Place,
        to: u8,
    ) -> Moved
        requires own { seat.old.table ≡ self.now.table }
        requires context { moving < self.now.table.slots }
        requires places { (to < self.now.shape.cores) × IsPlaceIn self.now.shape source × (seen.place ≡ source) }
        requires rests { IsRestMark seen.mark × (seen.alone ≡ false) × (source.core ≢ to) }
        ensures seat { (seat.new.table ≡ seat.old.table) × (seat.new.weight ≡ seat.old.weight) × (seat.new.slots ≡ seat.old.slots) }
        ensures carried { seat.new.known.carried ≡ seat.old.known.carried }
        ensures answer { SeenAnswer self.now moving seen to seat.old.known result seat.new.known }
    {
        let _ = &self.places_per_core;
        let room = self.see_core(seat, to);
        if room.is_closed() {
            return Moved::NoRoom(room.word());
        }
        let Some(index) = self.free_index(room) else {
            return Moved::NoRoom(room.word());
        };
        let target = Place { core: to, index };
        if let Err(found) = self.try_claim(seat, target, room) {
            return Moved::Lost(found);
        }
        self.move_to(seat, moving, seen, source, target)
    }

    /// Tries once to move the thread at `place` to the lowest free slot of the core `to`, unless a kernel thread runs
    /// the thread. The thread's value isn't copied.
    pub fn move_one(&self, seat: &mut WordSeat<T>, place: Place, to: u8) -> Moved
        requires own { seat.old.table ≡ self.now.table }
        requires place { IsPlaceIn self.now.shape place }
        requires target { to < self.now.shape.cores }
        requires apart { place.core ≢ to }
        ensures seat { (seat.new.table ≡ seat.old.table) × (seat.new.weight ≡ seat.old.weight) }
        ensures carried { seat.new.known.carried ≡ seat.old.known.carried }
        ensures answer { MoveAnswer self.now place to seat.old.known result seat.new.known }
    {
        let moving = self.see_name(&mut seat.at, place);
        let seen = self.see_mark(&mut seat.at, moving);
        if !stands_at(seen, place) {
            return Moved::Lost(seen.word());
        }
        if let Some(obstacle) = obstacle(seen) {
            return obstacle;
        }
        self.move_seen(&mut seat.at, moving, seen, place, to)
    }
}
