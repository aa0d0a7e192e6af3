//! The trait of context tables, by which workers create, take, wake and move threads.
ghost use Rattle.std.specs.Prelude.{◌≡◌, ◌≢◌, ℕ, ◌*◌, ◌<◌, List, [], ◌∷◌, IfOk, IfErr};
ghost use Rattle.arachne_core.specs.Occupancy.{IsOccupancyWord};
ghost use Rattle.arachne_core.specs.Marked.{IsMarkWord};
ghost use Rattle.arachne_core.specs.declared.thread_id.ThreadId.{ThreadId};
ghost use Rattle.arachne_contexts.specs.Answers.{ClaimsOn, ClaimsWhole, TakesAt, RestsAs, WakesAs, MovesAs, IsByContext, tagged_threads};
ghost use Rattle.arachne_contexts.specs.Out.{Out, Claim as a_claim, Thread as a_thread, HasOut, KeepsOut, GetsClaim, GetsThread, Spends};
ghost use Rattle.arachne_weights.specs.Weight.{whole};

use crate::answers::{Claimed, Moved, Rested, Taken, Woken};
use crate::held::{Held, Identified, Placed};
use crate::seats::Seats;
use crate::tagged::Tagged;
use arachne_core::{CORE_BITS, Place, Rest, ThreadId};
use std::alloc::{AllocError, Global};
use std::sync::Wait;

/// A context table: it stores user threads, each with a value of type `T`.
///
/// A *context* is the record of one thread, a *place* one of a core's thread slots, and a *seat* one kernel thread's
/// right to call the table. If a seat has claimed a place, the caller must, through that seat, put a thread there or
/// give the place back. If a seat has taken a thread, the caller must put the thread back or end it through that seat.
pub trait Contexts<T: Tagged>: Seats {
    /// A thread slot that the caller has claimed for a thread.
    type Claim: Placed + Drop;

    /// The handle of a thread that the caller has taken, by which the table knows the thread.
    type Hold: Identified + Drop;

    /// True if the list has exactly the unused claims and the taken threads of the seat (right to call), in any order.
    ghost has: { Self → Self.Seat → List (Out Self.Claim Self.Hold) → Type 0 };

    /// True if, by the record of this seat (right to call), each thread of the table has ended or is in the list.
    ///
    /// The list names each thread once, by its id and its tag (number). Always true if the seats keep no such record.
    ghost settles: { Self → Self.Seat → List (ThreadId × ℕ) → Type 0 };

    /// Returns the occupancy word of a core (a bit for each occupied thread slot), without a seat (right to call).
    ///
    /// The contract promises nothing about the word, which only helps to choose a core.
    fn glance<R: Wait>(&self, rt: &R, core: u8) -> u64
        requires core { core < Self.core_count self.now };

    /// Returns the occupancy word of a core, with a bit for each occupied thread slot.
    fn look<R: Wait>(&self, rt: &R, seat: &mut Self::Seat, core: u8) -> u64
        requires seat { Self.sits self.now seat.old }
        requires core { core < Self.core_count self.now }
        ensures seat { Self.sits self.now seat.new }
        ensures weight { Self.weight seat.new ≡ Self.weight seat.old }
        ensures out { KeepsOut (has self.now) seat.old seat.new }
        ensures word { IsOccupancyWord result };

    /// Returns the mark word (packed state, slot and generation) of a context (thread record).
    fn look_mark<R: Wait>(&self, rt: &R, seat: &mut Self::Seat, context: u32) -> u64
        requires seat { Self.sits self.now seat.old }
        requires context { context < Self.core_count self.now * Self.slot_count self.now }
        ensures seat { Self.sits self.now seat.new }
        ensures weight { Self.weight seat.new ≡ Self.weight seat.old }
        ensures out { KeepsOut (has self.now) seat.old seat.new }
        ensures word { IsMarkWord CORE_BITS result };

    /// Tries once to claim the lowest free thread slot of a core. If memory for a thread is refused, changes nothing.
    fn claim<R: Wait>(
        &self,
        rt: &R,
        seat: &mut Self::Seat,
        core: u8,
    ) -> Result<Claimed<Self::Claim>, AllocError>
        requires seat { Self.sits self.now seat.old }
        requires core { core < Self.core_count self.now }
        ensures seat { Self.sits self.now seat.new }
        ensures weight { Self.weight seat.new ≡ Self.weight seat.old }
        ensures out { GetsClaim (has self.now) seat.old seat.new result }
        ensures answer { IfOk result (ClaimsOn (Self.slot_count self.now) Self.Claim.place_of core) };

    /// Tries once to claim a whole empty core for one thread. If memory for a thread is refused, changes nothing.
    fn claim_alone<R: Wait>(
        &self,
        rt: &R,
        seat: &mut Self::Seat,
        core: u8,
    ) -> Result<Claimed<Self::Claim>, AllocError>
        requires seat { Self.sits self.now seat.old }
        requires core { core < Self.core_count self.now }
        ensures seat { Self.sits self.now seat.new }
        ensures weight { Self.weight seat.new ≡ Self.weight seat.old }
        ensures out { GetsClaim (has self.now) seat.old seat.new result }
        ensures answer { IfOk result (ClaimsWhole Self.Claim.place_of core) };

    /// Frees a claimed thread slot that has no thread. If the seat has no such claim, returns `claim` as the error.
    fn give_back<R: Wait>(
        &self,
        rt: &R,
        seat: &mut Self::Seat,
        claim: Self::Claim,
    ) -> Result<(), Self::Claim>
        requires seat { Self.sits self.now seat.old }
        requires out { HasOut (has self.now) (a_claim claim) seat.old }
        ensures seat { Self.sits self.now seat.new }
        ensures weight { Self.weight seat.new ≡ Self.weight seat.old }
        ensures out { Spends (has self.now) (a_claim claim) seat.old seat.new result }
        ensures handed_back { IfErr result (λ back. back ≡ claim) };

    /// Puts a thread with this value, ready to run, into the claimed thread slot. Returns the thread's id.
    ///
    /// The thread is ready even if its core was closed after the claim. If the seat has no such claim, returns the
    /// claim and the value as the error.
    fn post<R: Wait>(
        &self,
        rt: &R,
        seat: &mut Self::Seat,
        claim: Self::Claim,
        value: T,
    ) -> Result<ThreadId, (Self::Claim, T)>
        requires seat { Self.sits self.now seat.old }
        requires out { HasOut (has self.now) (a_claim claim) seat.old }
        ensures seat { Self.sits self.now seat.new }
        ensures weight { Self.weight seat.new ≡ Self.weight seat.old }
        ensures out { Spends (has self.now) (a_claim claim) seat.old seat.new result }
        ensures handed_back { IfErr result (λ back. back ≡ (claim, value)) };

    /// Takes the thread in slot `index` of `core`, if it is ready. The seat (right to call) then holds the thread.
    fn take<R: Wait>(
        &self,
        rt: &R,
        seat: &mut Self::Seat,
        core: u8,
        index: u8,
    ) -> Taken<T, Self::Hold>
        requires seat { Self.sits self.now seat.old }
        requires core { core < Self.core_count self.now }
        requires index { index < Self.slot_count self.now }
        ensures seat { Self.sits self.now seat.new }
        ensures weight { Self.weight seat.new ≡ Self.weight seat.old }
        ensures out { GetsThread (has self.now) T.tag_of seat.old seat.new result }
        ensures answer { TakesAt Self.Hold.place_of (record { core = core; index = index }) result };

    /// Puts a taken thread back into the table, ready or blocked.
    ///
    /// If the seat holds no such thread, or if the thread's tag (number) has changed, returns the thread as the error.
    fn put_back<R: Wait>(
        &self,
        rt: &R,
        seat: &mut Self::Seat,
        held: Held<T, Self::Hold>,
        rest: Rest,
    ) -> Result<Rested, Held<T, Self::Hold>>
        requires seat { Self.sits self.now seat.old }
        requires out { HasOut (has self.now) (a_thread held.hold (T.tag_of held.value)) seat.old }
        ensures seat { Self.sits self.now seat.new }
        ensures weight { Self.weight seat.new ≡ Self.weight seat.old }
        ensures out { Spends (has self.now) (a_thread held.hold (T.tag_of held.value)) seat.old seat.new result }
        ensures answer { IfOk result (RestsAs rest) }
        ensures handed_back { IfErr result (λ back. back ≡ held) };

    /// Ends a taken thread, and returns its value.
    ///
    /// Frees the thread's slot, unless its context (thread record) can't have another thread after this one. If the
    /// seat holds no such thread, or if the thread's tag (number) has changed, returns the thread as the error.
    fn finish<R: Wait>(
        &self,
        rt: &R,
        seat: &mut Self::Seat,
        held: Held<T, Self::Hold>,
    ) -> Result<T, Held<T, Self::Hold>>
        requires seat { Self.sits self.now seat.old }
        requires out { HasOut (has self.now) (a_thread held.hold (T.tag_of held.value)) seat.old }
        ensures seat { Self.sits self.now seat.new }
        ensures weight { Self.weight seat.new ≡ Self.weight seat.old }
        ensures out { Spends (has self.now) (a_thread held.hold (T.tag_of held.value)) seat.old seat.new result }
        ensures value { IfOk result (λ value. value ≡ held.value) }
        ensures handed_back { IfErr result (λ back. back ≡ held) };

    /// Wakes the thread with this id, if there is one.
    fn wake<R: Wait>(&self, rt: &R, seat: &mut Self::Seat, id: ThreadId) -> Woken
        requires seat { Self.sits self.now seat.old }
        ensures seat { Self.sits self.now seat.new }
        ensures weight { Self.weight seat.new ≡ Self.weight seat.old }
        ensures out { KeepsOut (has self.now) seat.old seat.new }
        ensures answer { WakesAs id result };

    /// Closes a core, so that no thread slot can be claimed on it. Returns the core's occupancy word (a bit for each
    /// occupied slot) from before the call.
    fn close_core<R: Wait>(&self, rt: &R, seat: &mut Self::Seat, core: u8) -> u64
        requires seat { Self.sits self.now seat.old }
        requires core { core < Self.core_count self.now }
        ensures seat { Self.sits self.now seat.new }
        ensures weight { Self.weight seat.new ≡ Self.weight seat.old }
        ensures out { KeepsOut (has self.now) seat.old seat.new }
        ensures word { IsOccupancyWord result };

    /// Opens a core. Returns the core's occupancy word (a bit for each occupied thread slot) from before the call.
    fn open_core<R: Wait>(&self, rt: &R, seat: &mut Self::Seat, core: u8) -> u64
        requires seat { Self.sits self.now seat.old }
        requires core { core < Self.core_count self.now }
        ensures seat { Self.sits self.now seat.new }
        ensures weight { Self.weight seat.new ≡ Self.weight seat.old }
        ensures out { KeepsOut (has self.now) seat.old seat.new }
        ensures word { IsOccupancyWord result };

    /// Returns whether a core is closed and none of its thread slots is occupied.
    fn is_drained<R: Wait>(&self, rt: &R, seat: &mut Self::Seat, core: u8) -> bool
        requires seat { Self.sits self.now seat.old }
        requires core { core < Self.core_count self.now }
        ensures seat { Self.sits self.now seat.new }
        ensures weight { Self.weight seat.new ≡ Self.weight seat.old }
        ensures out { KeepsOut (has self.now) seat.old seat.new };

    /// Moves the thread at `place` to the lowest free thread slot of the core `to`, if no kernel thread runs it.
    fn move_one<R: Wait>(&self, rt: &R, seat: &mut Self::Seat, place: Place, to: u8) -> Moved
        requires seat { Self.sits self.now seat.old }
        requires core { place.core < Self.core_count self.now }
        requires index { place.index < Self.slot_count self.now }
        requires target { to < Self.core_count self.now }
        requires apart { to ≢ place.core }
        ensures seat { Self.sits self.now seat.new }
        ensures weight { Self.weight seat.new ≡ Self.weight seat.old }
        ensures out { KeepsOut (has self.now) seat.old seat.new }
        ensures answer { MovesAs (Self.slot_count self.now) result };

    /// Closes the table. Returns the threads that have not ended, each once, in the order of their contexts' numbers.
    ///
    /// No other seat (right to call) may be in use, and `seat` must have no unused claim and no taken thread. If memory
    /// is refused, returns `self` and `seat` as the error.
    fn close<R: Wait>(
        self,
        rt: &R,
        alloc: Global,
        seat: Self::Seat,
    ) -> Result<Vec<(ThreadId, T)>, (Self, Self::Seat)>
        requires seat { Self.sits self seat }
        requires all { Self.weight seat ≡ whole }
        requires idle { Self.idle self seat }
        ensures settled { IfOk result (λ rest. settles self seat (tagged_threads T.tag_of rest.items)) }
        ensures order { IfOk result (λ rest. IsByContext rest.items) }
        ensures handed_back { IfErr result (λ back. Self.sits back.0 back.1) }
        ensures weight { IfErr result (λ back. Self.weight back.1 ≡ Self.weight seat) }
        ensures idle { IfErr result (λ back. Self.idle back.0 back.1) };

    /// An idle seat (right to call) has no unused claim and holds no thread.
    ghost nothing_out: { (table : Self) (seat : Self.Seat) → Self.idle table seat → has table seat [] };

    ghost is_idle: { (table : Self) (seat : Self.Seat) → has table seat [] → Self.idle table seat };

    /// The list of unused claims and held threads may be in any order.
    ghost swapped: { (table : Self) (seat : Self.Seat) (first second : Out Self.Claim Self.Hold) (outs : List (Out Self.Claim Self.Hold))
        → has table seat (first ∷ second ∷ outs) → has table seat (second ∷ first ∷ outs) };
}
