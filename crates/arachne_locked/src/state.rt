//! The data behind the lock of a locked table: the thread slot of each thread, and the values of the threads that no
//! seat holds.
ghost use Rattle.std.specs.Prelude.{◌≡◌, ◌≢◌, ◌*◌, ◌<◌, ◌≤◌, ◌↔◌, ℕ, [], ◌∷◌, Ok, IfOk, OnOk, OnErr, IfErr, IfSome, IfNone, MatchBool, IsTrue, true, false, Some, slice_set};
ghost use Rattle.arachne_core.specs.ContextTable.{world_of, ShowsCore, IsVacantFrom, Answers, marked};
ghost use Rattle.arachne_core.specs.World.{Allowed, IsContext, IsPlace, HasClaimed, HoldsIn, IsAtRest, id_of};
ghost use Rattle.arachne_core.specs.OwnedOnce.{OwnedOnce};
ghost use Rattle.arachne_core.specs.Run.{IsOpening, IsDrained};
ghost use Rattle.arachne_core.specs.declared.event.Event.TheVariants as event;
ghost use Rattle.arachne_contexts.specs.Words.{HasNoFree};
ghost use Rattle.arachne_locked.specs.AtHome.{HoldsThread, IsHome};
ghost use Rattle.arachne_locked.specs.Calls.{Takes, Claims, ClaimsWholeCore, TakesFrom, ends, rests_as, Wakes, Moves, CanMove, IsClaim};
ghost use Rattle.arachne_locked.specs.Closing.{at_rest_below, IsAccounted};
ghost use Rattle.arachne_contexts.specs.Answers.{IsByContext};

use crate::homes::Homes;
use crate::tokens::{LockedClaim, LockedHold};
use arachne_contexts::{Claimed, Held, Moved, Rested, Tagged, Taken, Woken};
use arachne_core::{
    CORES, Event, FULL_MASK, LAST_GENERATION, Mark, MarkWord, NotApplied, OccWord, Place, Rest,
    SLOTS, State, ThreadId,
};
use std::alloc::{AllocError, Global};
use std::marker::Model;

/// The state of a table (a `World`), with the values of the threads that no kernel thread runs.
///
/// Enough memory is always reserved to put a thread into each claimed context, and to end each thread. `carrier` is the
/// number of a seat (right to call).
#[derive(Drop)]
pub struct TableState<T: Tagged> {
    homes: Homes<T>,
}

impl<T: Tagged> Model for TableState<T> {
    ghost use Rattle.arachne_locked.specs.AtHome.{TableView};
    ghost use Rattle.arachne_locked.specs.Room.{HasRoom};

    ghost Value = { TableView T };

    ghost view = { λ s. s.homes };

    ghost invariant = { λ s. HasRoom s.homes.table };
}

/// Returns the word that shows a full core. Calls also return it for a core that the table doesn't have.
pub fn no_core(slots: u8) -> OccWord
    requires { slots ≤ SLOTS }
    ensures open { result.closed ≡ false }
    ensures full { HasNoFree slots result }
{
    let _ = slots;
    OccWord::new(FULL_MASK, false, false)
}

impl<T: Tagged + Drop> TableState<T> {
    /// Creates a table of `cores` cores with `slots` thread slots each, and no thread.
    pub fn new(
        alloc: Global,
        cores: u8,
        slots: u8,
        first_generation: u64,
    ) -> Result<Self, AllocError>
        requires some { 1 ≤ cores }
        requires cores { cores ≤ CORES }
        requires some_slots { 1 ≤ slots }
        requires slots { slots ≤ SLOTS }
        requires generation { first_generation ≤ LAST_GENERATION }
        ensures cores { IfOk result (λ state. (world_of state.table).cores ≡ cores) }
        ensures slots { IfOk result (λ state. (world_of state.table).slots ≡ slots) }
        ensures opening { IfOk result (λ state. IsOpening (world_of state.table) first_generation) }
    {
        let mut homes = Homes::new(alloc, cores, slots, first_generation)?;
        let contexts = homes.contexts();
        homes.reserve(contexts, contexts)?;
        Ok(TableState { homes })
    }

    /// Does nothing. The contract says that no two threads share a context (the record of a user thread) or a thread
    /// slot. The table has the value of a thread exactly if no kernel thread runs the thread.
    pub fn is_owned_once(&self)
        ensures owned_once { OwnedOnce (world_of self.now.table) }
        ensures home { IsHome T.tag_of (world_of self.now.table) self.now.values }
    {
        let _ = self.homes.world();
    }

    // ---- looks

    fn has_core(&self, core: u8) -> bool
        ensures { IsTrue result ↔ (core < (world_of self.now.table).cores) }
    {
        core < self.homes.world().cores()
    }

    fn slots(&self) -> u8
        ensures value { result ≡ (world_of self.now.table).slots }
        ensures some { 1 ≤ result }
        ensures few { result ≤ SLOTS }
    {
        self.homes.world().slots()
    }

    /// Returns the occupancy word of a core (a bit for each occupied slot), or `None` if the table has no such core.
    pub fn look(&self, core: u8) -> Option<OccWord>
        ensures some { IfSome result (λ occ. (core < (world_of self.now.table).cores) × ShowsCore (world_of self.now.table) core occ) }
        ensures beyond { IfSome result (λ occ. IsVacantFrom (world_of self.now.table).slots occ) }
        ensures none { IfNone result (core < (world_of self.now.table).cores → ⊥) }
    {
        if !self.has_core(core) {
            return None;
        }
        Some(self.homes.world().occ(core))
    }

    /// Returns the mark word (packed state) of a context (record of a thread), or `None` if there is no such context.
    pub fn look_mark(&self, context: u32) -> Option<MarkWord>
        ensures some { IfSome result (λ mark. IsContext (world_of self.now.table) context × (mark ≡ marked (world_of self.now.table) context)) }
        ensures none { IfNone result (IsContext (world_of self.now.table) context → ⊥) }
    {
        if !self.homes.has(context) {
            return None;
        }
        Some(self.homes.world().mark(context))
    }

    /// Returns true if a core is closed and none of its thread slots is occupied.
    pub fn is_drained(&self, core: u8) -> bool
        ensures { IsTrue result ↔ IsDrained (world_of self.now.table) core }
    {
        match self.look(core) {
            Some(occ) => occ.is_closed() && occ.mask() == 0,
            None => false,
        }
    }

    // ---- claims

    /// Reserves memory for a thread in the claimed context before it applies the event `claim`.
    fn claim_context(&mut self, claim: Event) -> Result<(), AllocError>
        requires claim { IsClaim claim }
        requires allowed { Allowed (world_of self.old.table) claim }
        ensures ok { OnOk result (Takes (world_of self.old.table) (claim ∷ []) (world_of self.new.table)) }
        ensures err { OnErr result (world_of self.new.table ≡ world_of self.old.table) }
        ensures values { self.new.values ≡ self.old.values }
    {
        let contexts = self.homes.contexts();
        self.homes.reserve(contexts, contexts)?;
        match self.homes.apply(claim) {
            Ok(()) => Ok(()),
            Err(_) => unreachable!(),
        }
    }

    /// Claims the lowest free thread slot of a core for the caller (seat number `carrier`).
    pub fn claim(&mut self, carrier: u32, core: u8) -> Result<Claimed<LockedClaim>, AllocError>
        ensures answer { IfOk result (Claims (world_of self.old.table) (world_of self.new.table) carrier core) }
        ensures err { OnErr result (world_of self.new.table ≡ world_of self.old.table) }
        ensures values { self.new.values ≡ self.old.values }
    {
        let Some(occ) = self.look(core) else {
            return Ok(Claimed::Full(no_core(self.slots()).word()));
        };
        if occ.is_closed() {
            return Ok(Claimed::Closed(occ.word()));
        }
        if occ.is_exclusive() {
            return Ok(Claimed::Full(occ.word()));
        }
        let Some(index) = occ.lowest_free_below(self.slots()) else {
            return Ok(Claimed::Full(occ.word()));
        };
        let place = Place { core, index };
        let context = self.homes.world().context_at(place);
        self.claim_context(Event::Claim { carrier, context })?;
        Ok(Claimed::Place(LockedClaim { context, place }))
    }

    /// Claims a whole empty core for one thread, for the caller (seat number `carrier`).
    pub fn claim_alone(
        &mut self,
        carrier: u32,
        core: u8,
    ) -> Result<Claimed<LockedClaim>, AllocError>
        ensures answer { IfOk result (ClaimsWholeCore (world_of self.old.table) (world_of self.new.table) carrier core) }
        ensures err { OnErr result (world_of self.new.table ≡ world_of self.old.table) }
        ensures values { self.new.values ≡ self.old.values }
    {
        let Some(occ) = self.look(core) else {
            return Ok(Claimed::Full(no_core(self.slots()).word()));
        };
        if occ.is_closed() {
            return Ok(Claimed::Closed(occ.word()));
        }
        if occ.is_exclusive() || !occ.is_empty() {
            return Ok(Claimed::Full(occ.word()));
        }
        let _ = self.slots();
        let place = Place { core, index: 0 };
        let context = self.homes.world().context_at(place);
        self.claim_context(Event::Alone { carrier, context })?;
        Ok(Claimed::Place(LockedClaim { context, place }))
    }

    /// Frees a slot that the caller (seat number `carrier`) has claimed. If the slot isn't claimed by this caller, returns
    /// `claim` as the error.
    pub fn give_back(&mut self, carrier: u32, claim: LockedClaim) -> Result<(), LockedClaim>
        ensures ok { OnOk result (Takes (world_of self.old.table) (event.Release carrier claim.context ∷ []) (world_of self.new.table)) }
        ensures values { self.new.values ≡ self.old.values }
        ensures handed_back { IfErr result (λ back. back ≡ claim) }
        ensures err { OnErr result ((self.new ≡ self.old) × (HasClaimed (world_of self.old.table) carrier claim.context → ⊥)) }
    {
        let context = claim.context;
        match self.homes.apply(Event::Release { carrier, context }) {
            Ok(()) => Ok(()),
            Err(_) => Err(claim),
        }
    }

    // ---- threads

    /// Puts a thread with this value, ready to run, into the claimed thread slot. Does not allocate.
    ///
    /// If the slot isn't claimed by this caller, returns `claim` and `value` as the error.
    pub fn post(
        &mut self,
        carrier: u32,
        claim: LockedClaim,
        value: T,
    ) -> Result<ThreadId, (LockedClaim, T)>
        ensures ok { OnOk result (Takes (world_of self.old.table) (event.Post carrier claim.context (T.tag_of value) ∷ []) (world_of self.new.table)) }
        ensures id { IfOk result (λ id. id ≡ id_of (world_of self.old.table) claim.context) }
        ensures home { OnOk result (self.new.values ≡ slice_set self.old.values claim.context (Some value)) }
        ensures handed_back { IfErr result (λ back. back ≡ (claim, value)) }
        ensures err { OnErr result ((self.new ≡ self.old) × (HasClaimed (world_of self.old.table) carrier claim.context → ⊥)) }
    {
        let context = claim.context;
        match self.homes.post(carrier, context, value) {
            Ok(()) => {}
            Err((NotApplied::NotAllowed, value)) => return Err((claim, value)),
            Err((NotApplied::Memory, _)) => unreachable!(),
        }
        Ok(ThreadId {
            context,
            generation: self.homes.generation(context),
        })
    }

    /// Takes the thread at `place`, if the thread is ready. The caller (seat number `carrier`) then holds the thread.
    pub fn take(&mut self, carrier: u32, place: Place) -> Taken<T, LockedHold>
        ensures { TakesFrom (world_of self.old.table) (world_of self.new.table) self.old.values self.new.values carrier place result }
    {
        if !self.has_core(place.core) || place.index >= self.slots() {
            return Taken::NotReady(0);
        }
        let context = self.homes.world().context_at(place);
        let mark = self.homes.world().mark(context);
        match self.homes.take(carrier, context) {
            Some(value) => {
                let id = ThreadId {
                    context,
                    generation: mark.generation(),
                };
                Taken::Run(Held {
                    value,
                    hold: LockedHold { id, place },
                })
            }
            None => Taken::NotReady(mark.word()),
        }
    }

    /// Puts back a thread that the caller (seat number `carrier`) holds, as ready or as blocked.
    ///
    /// If the caller doesn't hold the thread of this id and tag, returns the thread as an error.
    pub fn put_back(
        &mut self,
        carrier: u32,
        held: Held<T, LockedHold>,
        rest: Rest,
    ) -> Result<Rested, Held<T, LockedHold>>
        ensures ok { OnOk result (Takes (world_of self.old.table) (event.Rest carrier held.hold.id.context rest ∷ []) (world_of self.new.table)) }
        ensures rested { IfOk result (λ rested. rested ≡ rests_as rest ((world_of self.old.table).state held.hold.id.context)) }
        ensures home { OnOk result (self.new.values ≡ slice_set self.old.values held.hold.id.context (Some held.value)) }
        ensures handed_back { IfErr result (λ back. back ≡ held) }
        ensures err { OnErr result ((self.new ≡ self.old) × (HoldsThread (world_of self.old.table) carrier held.hold.id (T.tag_of held.value) → ⊥)) }
    {
        let id = held.hold.id;
        if !self.homes.holds(carrier, id, held.value.tag()) {
            return Err(held);
        }
        let rested = rested(rest, self.homes.world().state(id.context));
        self.homes.put_back(carrier, id, held.value, rest);
        Ok(rested)
    }

    /// Ends a thread that the caller (seat number `carrier`) holds, and returns the thread's value. Does not allocate.
    ///
    /// If the caller doesn't hold the thread of this id and tag, returns the thread as an error.
    pub fn finish(
        &mut self,
        carrier: u32,
        held: Held<T, LockedHold>,
    ) -> Result<T, Held<T, LockedHold>>
        ensures ok { OnOk result (Takes (world_of self.old.table) (ends (world_of self.old.table) carrier held.hold.id.context) (world_of self.new.table)) }
        ensures known { OnOk result (HoldsThread (world_of self.old.table) carrier held.hold.id (T.tag_of held.value)) }
        ensures value { IfOk result (λ value. value ≡ held.value) }
        ensures values { self.new.values ≡ self.old.values }
        ensures handed_back { IfErr result (λ back. back ≡ held) }
        ensures err { OnErr result ((self.new ≡ self.old) × (HoldsThread (world_of self.old.table) carrier held.hold.id (T.tag_of held.value) → ⊥)) }
    {
        let id = held.hold.id;
        if !self.homes.holds(carrier, id, held.value.tag()) {
            return Err(held);
        }
        self.end(carrier, id.context);
        Ok(held.value)
    }

    fn end(&mut self, carrier: u32, context: u32)
        requires { HoldsIn (world_of self.old.table) carrier context }
        ensures events { Takes (world_of self.old.table) (ends (world_of self.old.table) carrier context) (world_of self.new.table) }
        ensures values { self.new.values ≡ self.old.values }
    {
        match self.homes.apply(Event::Retire { carrier, context }) {
            Ok(()) => {}
            Err(_) => unreachable!(),
        }
        if is_spent(self.homes.world().state(context)) {
            return;
        }
        match self.homes.apply(Event::Release { carrier, context }) {
            Ok(()) => {}
            Err(_) => unreachable!(),
        }
    }

    /// Wakes the thread with this id. Any id may be passed.
    pub fn wake(&mut self, id: ThreadId) -> Woken
        ensures answer { Wakes (world_of self.old.table) (world_of self.new.table) id result }
        ensures values { self.new.values ≡ self.old.values }
    {
        if self.homes.apply(Event::Wake { id }).is_ok() {
            return Woken::Woken;
        }
        let Some(mark) = self.look_mark(id.context) else {
            return Woken::Gone;
        };
        if mark.generation() != id.generation {
            return Woken::Gone;
        }
        match mark.mark() {
            Mark::Free | Mark::Spent => Woken::Gone,
            _ => Woken::Already(mark.word()),
        }
    }

    // ---- cores

    /// Closes a core. Returns its old occupancy word (occupied slots), or `None` if there is no such core.
    pub fn close_core(&mut self, core: u8) -> Option<OccWord>
        ensures some { IfSome result (λ occ. ShowsCore (world_of self.old.table) core occ × Takes (world_of self.old.table) (event.CloseCore core ∷ []) (world_of self.new.table)) }
        ensures none { IfNone result ((core < (world_of self.old.table).cores → ⊥) × (self.new ≡ self.old)) }
        ensures values { self.new.values ≡ self.old.values }
    {
        let occ = self.look(core)?;
        match self.homes.apply(Event::CloseCore { core }) {
            Ok(()) => Some(occ),
            Err(_) => unreachable!(),
        }
    }

    /// Opens a core. Returns its old occupancy word (occupied slots), or `None` if there is no such core.
    pub fn open_core(&mut self, core: u8) -> Option<OccWord>
        ensures some { IfSome result (λ occ. ShowsCore (world_of self.old.table) core occ × Takes (world_of self.old.table) (event.OpenCore core ∷ []) (world_of self.new.table)) }
        ensures none { IfNone result ((core < (world_of self.old.table).cores → ⊥) × (self.new ≡ self.old)) }
        ensures values { self.new.values ≡ self.old.values }
    {
        let occ = self.look(core)?;
        match self.homes.apply(Event::OpenCore { core }) {
            Ok(()) => Some(occ),
            Err(_) => unreachable!(),
        }
    }

    // ---- moves

    /// Moves the thread at `place` to the lowest free slot of the core `to`, unless a kernel thread runs it.
    pub fn move_one(&mut self, carrier: u32, place: Place, to: u8) -> Moved
        requires { to ≢ place.core }
        ensures answer { Moves (world_of self.old.table) (world_of self.new.table) carrier place to result }
        ensures values { self.new.values ≡ self.old.values }
    {
        let Some(occ) = self.look(place.core) else {
            return Moved::Unposted;
        };
        if place.index >= self.slots() {
            return Moved::Unposted;
        }
        let from = self.homes.world().context_at(place);
        match self.homes.world().state(from) {
            State::Free | State::Claimed { .. } | State::Spent => Moved::Unposted,
            _ if occ.is_exclusive() => Moved::Alone,
            State::Held { .. } => Moved::Running,
            State::Ready { .. } | State::Blocked { .. } => self.move_to(carrier, from, place, to),
        }
    }

    /// No kernel thread may run the thread, and it must not have its core for itself.
    fn move_to(&mut self, carrier: u32, from: u32, place: Place, to: u8) -> Moved
        requires within { IsContext (world_of self.old.table) from }
        requires at { (world_of self.old.table).at from ≡ place }
        requires at_rest { IsAtRest ((world_of self.old.table).state from) }
        requires shared { (world_of self.old.table).alone place.core ≡ false }
        requires apart { to ≢ place.core }
        ensures answer { Moves (world_of self.old.table) (world_of self.new.table) carrier place to result }
        ensures values { self.new.values ≡ self.old.values }
    {
        let Some(occ) = self.look(to) else {
            return Moved::NoRoom(no_core(self.slots()).word());
        };
        if occ.is_closed() || occ.is_exclusive() {
            return Moved::NoRoom(occ.word());
        }
        let Some(index) = occ.lowest_free_below(self.slots()) else {
            return Moved::NoRoom(occ.word());
        };
        let target = self.homes.world().context_at(Place { core: to, index });
        self.swap(carrier, from, target);
        Moved::Moved
    }

    /// Moves the thread of the context `from` to the slot of the context `target`, and frees the thread's old slot.
    fn swap(&mut self, carrier: u32, from: u32, target: u32)
        requires { CanMove (world_of self.old.table) from target }
        ensures events { Takes (world_of self.old.table) (event.Claim carrier target ∷ event.Move carrier from target ∷ event.Release carrier target ∷ []) (world_of self.new.table) }
        ensures values { self.new.values ≡ self.old.values }
    {
        self.homes.make(Event::Claim {
            carrier,
            context: target,
        });
        self.homes.make(Event::Move {
            carrier,
            from,
            to: target,
        });
        self.homes.make(Event::Release {
            carrier,
            context: target,
        });
    }

    // ---- the end

    /// Returns the threads that no seat (a kernel thread's right to call) holds, in the order of their contexts. If
    /// memory is refused, returns the unchanged table as an error.
    pub fn close(self, alloc: Global) -> Result<Vec<(ThreadId, T)>, Self>
        ensures rest { IfOk result (λ rest. rest.items ≡ at_rest_below (world_of self.table) self.values ((world_of self.table).cores * (world_of self.table).slots)) }
        ensures accounted { IfOk result (λ rest. IsAccounted T.tag_of (world_of self.table) rest.items) }
        ensures order { IfOk result (λ rest. IsByContext rest.items) }
        ensures handed_back { IfErr result (λ back. back ≡ self) }
    {
        self.is_owned_once();
        let TableState { homes } = self;
        match homes.close(alloc) {
            Ok(rest) => Ok(rest),
            Err(homes) => Err(TableState { homes }),
        }
    }
}

/// Returns the result of putting a thread back as `rest` says, if its context was in the state `state`.
fn rested(rest: Rest, state: State) -> Rested
    ensures { result ≡ rests_as rest state }
{
    match (rest, state) {
        (Rest::Blocked, State::Held { woken: true, .. }) => Rested::WokenMeanwhile,
        _ => Rested::AsAsked,
    }
}

fn is_spent(state: State) -> bool
    ensures { IsTrue result ↔ (state ≡ State.Spent) }
{
    match state {
        State::Spent => true,
        _ => false,
    }
}
