//! The abstract state of a context table (`World`), as a type that a program can use.
use crate::event::{Event, NotApplied};
use crate::layout::{CORES, LAST_GENERATION, SLOTS};
use crate::mark_word::MarkWord;
use crate::occ_word::OccWord;
use crate::place::Place;
use crate::state::State;
use crate::tables::Tables;
use std::alloc::{AllocError, Global};
use std::marker::Model;

/// A table of user threads (a context table) for one caller at a time, without atomic operations.
///
/// The contracts of the concurrent tables describe their calls as changes of such a table. A context is the record of
/// one user thread, and a slot is the place on a core in which the thread runs. At any time, no two threads share a
/// context or a slot, and no two kernel threads run the same thread. The time that an event takes does not depend on
/// the number of contexts.
#[derive(Debug, Drop)]
pub struct World {
    tables: Tables,
}

impl Model for World {
    ghost use Rattle.arachne_core.specs.ContextTable.{ContextTable, world_of};
    ghost use Rattle.arachne_core.specs.OwnedOnce.{OwnedOnce};

    ghost Value = { ContextTable };

    ghost view = { λ a. a.tables };

    ghost invariant = { λ a. OwnedOnce (world_of a.tables) };
}

impl World {
    ghost use Rattle.std.specs.Prelude.{◌≡◌, ◌<◌, ◌≤◌, ℕ, IfOk, OnOk, OnErr, IsOk};
    ghost use Rattle.arachne_core.specs.World.{IsContext, IsPlace};
    ghost use Rattle.arachne_core.specs.OwnedOnce.{OwnedOnce};
    ghost use Rattle.arachne_core.specs.Run.{IsOpening};
    ghost use Rattle.arachne_core.specs.ContextTable.{world_of, ShowsCore, IsVacantFrom, marked, Answers};

    /// Creates a table of `cores` cores with `slots` free thread slots each. Each slot has a context (thread record),
    /// whose generation (count of ended threads) starts at `first_generation`.
    pub fn new(
        alloc: Global,
        cores: u8,
        slots: u8,
        first_generation: u64,
    ) -> Result<Self, AllocError>
        requires some { 1 ≤ cores }
        requires cores { cores ≤ CORES }
        requires some_slots { 1 ≤ slots }
        requires slots { slots ≤ SLOTS }
        requires generation { first_generation ≤ LAST_GENERATION }
        ensures cores { IfOk result (λ world. (world_of world).cores ≡ cores) }
        ensures slots { IfOk result (λ world. (world_of world).slots ≡ slots) }
        ensures opening { IfOk result (λ world. IsOpening (world_of world) first_generation) }
        ensures owned_once { IfOk result (λ world. OwnedOnce (world_of world)) }
    {
        let tables = Tables::new(alloc, cores, slots, first_generation)?;
        Ok(World { tables })
    }

    /// Reserves memory in the lists of new and of ended threads: for `posts` more new threads, and the ends of
    /// `retires` threads.
    pub fn reserve(&mut self, posts: usize, retires: usize) -> Result<(), AllocError>
        ensures kept { self.new ≡ record self.old { posts = self.new.posts; retires = self.new.retires } }
        ensures grown { (self.old.posts ≤ self.new.posts) × (self.old.retires ≤ self.new.retires) }
        ensures ok { OnOk result ((posts ≤ self.new.posts) × (retires ≤ self.new.retires)) }
        ensures succeeds { posts ≤ self.old.posts → retires ≤ self.old.retires → IsOk result }
        ensures owned_once { OwnedOnce (world_of self.new) }
    {
        self.tables.reserve(posts, retires)
    }

    /// Changes the table as `event` says.
    ///
    /// Returns `NotAllowed` if the table's state does not allow the event, and `Memory` if memory was refused. After an
    /// error the table is unchanged. Only an event that adds or ends a thread takes memory, and only if none was
    /// reserved for it.
    pub fn apply(&mut self, event: Event) -> Result<(), NotApplied>
        ensures answer { Answers event self.old self.new result }
        ensures err { OnErr result (self.new ≡ self.old) }
        ensures owned_once { OwnedOnce (world_of self.new) }
        ensures cores { (world_of self.new).cores ≡ (world_of self.old).cores }
        ensures slots { (world_of self.new).slots ≡ (world_of self.old).slots }
    {
        if !self.tables.allows(event) {
            return Err(NotApplied::NotAllowed);
        }
        self.tables.make(event)
    }

    /// Returns the number of cores.
    pub fn cores(&self) -> u8
        ensures value { result ≡ (world_of self.now).cores }
        ensures few { result ≤ CORES }
    {
        self.tables.count()
    }

    /// Returns the number of thread slots of each core.
    pub fn slots(&self) -> u8
        ensures value { result ≡ (world_of self.now).slots }
        ensures some { 1 ≤ result }
        ensures few { result ≤ SLOTS }
    {
        self.tables.slots()
    }

    /// Does nothing, but its contract says that no two threads share a context (thread record) or a slot.
    pub fn is_owned_once(&self)
        ensures { OwnedOnce (world_of self.now) }
    {
        let _ = &self.tables;
    }

    /// Returns the number of the context (thread record) in this slot.
    pub fn context_at(&self, place: Place) -> u32
        requires { IsPlace (world_of self.now) place }
        ensures within { IsContext (world_of self.now) result }
        ensures at { (world_of self.now).at result ≡ place }
    {
        self.tables.resident(place)
    }

    /// Returns the slot of this context (thread record).
    pub fn place_of(&self, context: u32) -> Place
        requires { IsContext (world_of self.now) context }
        ensures { result ≡ (world_of self.now).at context }
    {
        self.tables.context(context).place
    }

    /// Returns the state of this context (thread record).
    pub fn state(&self, context: u32) -> State
        requires { IsContext (world_of self.now) context }
        ensures { result ≡ (world_of self.now).state context }
    {
        self.tables.context(context).state
    }

    /// Returns the occupancy word of a core, which says which of its slots are occupied.
    pub fn occ(&self, core: u8) -> OccWord
        requires { core < (world_of self.now).cores }
        ensures shows { ShowsCore (world_of self.now) core result }
        ensures beyond { IsVacantFrom (world_of self.now).slots result }
    {
        self.tables.core(core)
    }

    /// Returns the mark word (packed state, slot and generation) of this context (thread record).
    pub fn mark(&self, context: u32) -> MarkWord
        requires { IsContext (world_of self.now) context }
        ensures { result ≡ marked (world_of self.now) context }
    {
        let found = self.tables.context(context);
        let alone = found.state.is_live() && self.tables.core(found.place.core).is_exclusive();
        MarkWord::new(found.state.mark(), alone, found.place, found.generation)
    }
}
