//! The state of a table, with the values of the threads that no seat holds.
ghost use Rattle.std.specs.Prelude.{◌≡◌, ◌<◌, ◌≤◌, ◌*◌, ℕ, IfOk, OnOk, OnErr, IfErr, IfSome, IfNone, None, Some, replicate, slice_set, Ok, Err, IsTrue, ◌↔◌};
ghost use Rattle.arachne_core.specs.ContextTable.{world_of, Answers};
ghost use Rattle.arachne_core.specs.World.{Allowed, HoldsIn, IsContext};
ghost use Rattle.arachne_core.specs.OwnedOnce.{OwnedOnce};
ghost use Rattle.arachne_core.specs.Run.{IsOpening};
ghost use Rattle.arachne_core.specs.declared.event.Event.TheVariants as event;
ghost use Rattle.arachne_core.specs.declared.state.State.TheVariants as state;
ghost use Rattle.arachne_locked.specs.Closing.{at_rest_below};
ghost use Rattle.arachne_locked.specs.AtHome.{IsHome, LeavesValues, WantsNoRoom, HoldsThread, value_at};

use arachne_contexts::Tagged;
use arachne_core::{
    CORES, Event, LAST_GENERATION, NotApplied, Rest, SLOTS, State, ThreadId, World,
};
use std::alloc::{AllocError, Global};
use std::marker::Model;

/// The state of a table (a `World`), with the value of each thread that no kernel thread runs.
///
/// In its methods, `carrier` is the number of a seat (one kernel thread's right to call the table).
#[derive(Drop)]
pub struct Homes<T: Tagged> {
    world: World,
    values: Vec<Option<T>>,
}

impl<T: Tagged> Model for Homes<T> {
    ghost use Rattle.arachne_core.specs.ContextTable.{world_of};
    ghost use Rattle.arachne_locked.specs.AtHome.{TableView, IsHome};

    ghost Value = { TableView T };

    ghost view = { λ h. record { table = h.world; values = h.values.items } };

    ghost invariant = { λ h. IsHome T.tag_of (world_of h.world) h.values.items };
}

impl<T: Tagged + Drop> Homes<T> {
    /// Creates a table of `cores` cores with `slots` thread slots each, and no thread.
    pub fn new(
        alloc: Global,
        cores: u8,
        slots: u8,
        first_generation: u64,
    ) -> Result<Self, AllocError>
        requires some { 1 ≤ cores }
        requires cores { cores ≤ CORES }
        requires some_slots { 1 ≤ slots }
        requires slots { slots ≤ SLOTS }
        requires generation { first_generation ≤ LAST_GENERATION }
        ensures cores { IfOk result (λ homes. (world_of homes.table).cores ≡ cores) }
        ensures slots { IfOk result (λ homes. (world_of homes.table).slots ≡ slots) }
        ensures opening { IfOk result (λ homes. IsOpening (world_of homes.table) first_generation) }
    {
        let world = World::new(alloc, cores, slots, first_generation)?;
        let values = no_values(alloc, usize::from(cores) * usize::from(slots))?;
        Ok(Homes { world, values })
    }

    /// Returns the state of the table without the threads' values.
    pub fn world(&self) -> &World
        ensures world { result.now ≡ self.now.table }
        ensures owned_once { OwnedOnce (world_of self.now.table) }
        ensures home { IsHome T.tag_of (world_of self.now.table) self.now.values }
    {
        self.world.is_owned_once();
        &self.world
    }

    /// Returns the number of contexts (records of threads), used or not.
    pub fn contexts(&self) -> usize
        ensures { result ≡ (world_of self.now.table).cores * (world_of self.now.table).slots }
    {
        self.values.len()
    }

    /// Returns true if there is a context (the record of a user thread) with this number.
    pub fn has(&self, context: u32) -> bool
        ensures { IsTrue result ↔ IsContext (world_of self.now.table) context }
    {
        (context as usize) < self.values.len()
    }

    /// Returns the generation of a context (the record of a user thread), which rises with each thread that ends there.
    pub fn generation(&self, context: u32) -> u64
        requires { IsContext (world_of self.now.table) context }
        ensures { result ≡ (world_of self.now.table).generation context }
    {
        self.world.mark(context).generation()
    }

    /// Reserves memory to record `posts` more threads that come into the table, and `retires` more ends of threads.
    pub fn reserve(&mut self, posts: usize, retires: usize) -> Result<(), AllocError>
        ensures values { self.new.values ≡ self.old.values }
        ensures kept { self.new.table ≡ record self.old.table { posts = self.new.table.posts; retires = self.new.table.retires } }
        ensures grown { (self.old.table.posts ≤ self.new.table.posts) × (self.old.table.retires ≤ self.new.table.retires) }
        ensures ok { OnOk result ((posts ≤ self.new.table.posts) × (retires ≤ self.new.table.retires)) }
    {
        self.world.reserve(posts, retires)
    }

    /// Applies an event that neither adds nor removes a thread's value.
    pub fn apply(&mut self, event: Event) -> Result<(), NotApplied>
        requires { LeavesValues event }
        ensures answer { Answers event self.old.table self.new.table result }
        ensures values { self.new.values ≡ self.old.values }
        ensures err { OnErr result (self.new ≡ self.old) }
    {
        self.world.apply(event)
    }

    /// Applies an event that is allowed, needs no memory, and neither adds nor removes a thread's value.
    pub fn make(&mut self, event: Event)
        requires values { LeavesValues event }
        requires memory { WantsNoRoom event }
        requires allowed { Allowed (world_of self.old.table) event }
        ensures made { Answers event self.old.table self.new.table (Ok tt) }
        ensures values { self.new.values ≡ self.old.values }
    {
        match self.world.apply(event) {
            Ok(()) => {}
            Err(_) => unreachable!(),
        }
    }

    /// Puts a thread with this value into a context (thread record), claimed by the caller (seat number `carrier`).
    ///
    /// If the table's state doesn't allow this, or if memory is refused, returns the value with the error.
    pub fn post(&mut self, carrier: u32, context: u32, value: T) -> Result<(), (NotApplied, T)>
        ensures made { OnOk result (Answers (event.Post carrier context (T.tag_of value)) self.old.table self.new.table (Ok tt)) }
        ensures home { OnOk result (self.new.values ≡ slice_set self.old.values context (Some value)) }
        ensures refused { IfErr result (λ back. Answers (event.Post carrier context (T.tag_of value)) self.old.table self.new.table (Err back.0)) }
        ensures handed_back { IfErr result (λ back. back.1 ≡ value) }
        ensures err { OnErr result (self.new ≡ self.old) }
    {
        let tag = value.tag();
        let post = Event::Post {
            carrier,
            context,
            tag,
        };
        match self.world.apply(post) {
            Ok(()) => {
                self.values[context as usize] = Some(value);
                Ok(())
            }
            Err(refusal) => Err((refusal, value)),
        }
    }

    /// Takes the thread of a context (the record of a user thread), if the thread is ready, and returns its value. The
    /// caller (seat number `carrier`) then holds the thread.
    pub fn take(&mut self, carrier: u32, context: u32) -> Option<T>
        ensures made { IfSome result (λ value. Answers (event.Take carrier context) self.old.table self.new.table (Ok tt)) }
        ensures value { IfSome result (λ value. value_at self.old.values context ≡ Some value) }
        ensures out { IfSome result (λ value. self.new.values ≡ slice_set self.old.values context None) }
        ensures refused { IfNone result (Allowed (world_of self.old.table) (event.Take carrier context) → ⊥) }
        ensures none { IfNone result (self.new ≡ self.old) }
    {
        match self.world.apply(Event::Take { carrier, context }) {
            Ok(()) => {
                let value = self.values[context as usize].take().unwrap();
                Some(value)
            }
            Err(_) => None,
        }
    }

    /// Returns true if the caller (seat number `carrier`) holds the thread with this id and tag.
    pub fn holds(&self, carrier: u32, id: ThreadId, tag: u64) -> bool
        ensures { IsTrue result ↔ HoldsThread (world_of self.now.table) carrier id tag }
    {
        if !self.has(id.context) || self.generation(id.context) != id.generation {
            return false;
        }
        match self.world.state(id.context) {
            State::Held {
                carrier: holder,
                tag: own,
                ..
            } => holder == carrier && own == tag,
            _ => false,
        }
    }

    /// Puts back a thread that the caller (seat number `carrier`) holds, as ready or as blocked, with its value.
    pub fn put_back(&mut self, carrier: u32, id: ThreadId, value: T, rest: Rest)
        requires { HoldsThread (world_of self.old.table) carrier id (T.tag_of value) }
        ensures made { Answers (event.Rest carrier id.context rest) self.old.table self.new.table (Ok tt) }
        ensures home { self.new.values ≡ slice_set self.old.values id.context (Some value) }
    {
        let event = Event::Rest {
            carrier,
            context: id.context,
            rest,
        };
        match self.world.apply(event) {
            Ok(()) => {}
            Err(_) => unreachable!(),
        }
        self.values[id.context as usize] = Some(value);
    }
}

impl<T: Tagged + Drop> Homes<T> {
    /// Returns the threads that no seat (a kernel thread's right to call) holds, in the order of their contexts (the
    /// records of user threads). If memory is refused, returns the unchanged table as an error.
    pub fn close(self, alloc: Global) -> Result<Vec<(ThreadId, T)>, Self>
        ensures rest { IfOk result (λ rest. rest.items ≡ at_rest_below (world_of self.table) self.values ((world_of self.table).cores * (world_of self.table).slots)) }
        ensures handed_back { IfErr result (λ back. back ≡ self) }
    {
        let cores = self.world.cores();
        let slots = self.world.slots();
        let Ok(mut rest) = Vec::with_capacity(alloc, self.values.len()) else {
            return Err(self);
        };
        let Homes { world, mut values } = self;
        for context in 0..u32::from(cores) * u32::from(slots) {
            if let Some(value) = values[context as usize].take() {
                let generation = world.mark(context).generation();
                rest.push((
                    ThreadId {
                        context,
                        generation,
                    },
                    value,
                ))
                .unwrap();
            }
        }
        Ok(rest)
    }
}

fn no_values<T: Drop>(alloc: Global, count: usize) -> Result<Vec<Option<T>>, AllocError>
    ensures { IfOk result (λ values. values.items ≡ replicate count None) }
{
    let mut values = Vec::with_capacity(alloc, count)?;
    for _ in 0..count {
        values.push(None)?;
    }
    Ok(values)
}
