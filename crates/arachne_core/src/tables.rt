//! The lists of which the type `World` consists, and the effect of each event on them.
ghost use Rattle.std.specs.Prelude.{◌≡◌, ◌≢◌, ℕ, ◌<◌, ◌≤◌, ◌+◌, ◌*◌, ◌↔◌, length, map, IsTrue, IsOk, IfOk, IfErr, OnOk, OnErr, replicate, ◌++◌, ◌∷◌, []};
ghost use Rattle.std.specs.List.{range_with_len};
ghost use Rattle.arachne_core.specs.Occupancy.{vacant};
ghost use Rattle.arachne_core.specs.World.{Allowed, IsContext, IsPlace, TakesThreads};
ghost use Rattle.arachne_core.specs.Run.{IsOpening};
ghost use Rattle.arachne_core.specs.ContextTable.{context, core, world_of, IsVacantFrom, Answers};
ghost use Rattle.arachne_core.specs.TableChanges.{with_context, with_occupied, with_closed, with_exclusive, with_swapped, Makes, HasPlace, first_context};

use crate::event::{Event, NotApplied};
use crate::layout::{CORES, LAST_GENERATION, MASK_BITS, SLOTS};
use crate::occ_word::OccWord;
use crate::place::Place;
use crate::state::{Context, Rest, State};
use crate::thread_id::ThreadId;
use std::alloc::{AllocError, Global};
use std::marker::Model;

/// The contents of a table of user threads. `given` has the threads that were put into it, and `ended` those that have
/// ended, each with its tag (number), the oldest first.
#[derive(Debug, Drop)]
pub struct Tables {
    contexts: Vec<Context>,
    cores: Vec<OccWord>,
    slots: u8,
    /// The number of the context in each slot.
    residents: Vec<u32>,
    given: Vec<(ThreadId, u64)>,
    ended: Vec<(ThreadId, u64)>,
}

impl Model for Tables {
    ghost use Rattle.std.specs.Prelude.{◌-◌, vec_len, vec_capacity};
    ghost use Rattle.arachne_core.specs.ContextTable.{ContextTable};
    ghost use Rattle.arachne_core.specs.TableChanges.{IsTable};

    ghost Value = { ContextTable };

    ghost view = { λ a. record {
      contexts = a.contexts.items;
      cores = a.cores.items;
      slots = a.slots;
      given = a.given.items;
      ended = a.ended.items;
      posts = vec_capacity a.given - vec_len a.given;
      retires = vec_capacity a.ended - vec_len a.ended;
    } };

    ghost invariant = { λ a. IsTable a.slots a.contexts.items a.cores.items a.residents.items };
}

impl Tables {
    /// Creates a table whose contexts (thread records) are free, each in the slot with the context's number.
    pub fn new(
        alloc: Global,
        cores: u8,
        slots: u8,
        first_generation: u64,
    ) -> Result<Self, AllocError>
        requires cores { cores ≤ CORES }
        requires some_slots { 1 ≤ slots }
        requires slots { slots ≤ SLOTS }
        requires generation { first_generation ≤ LAST_GENERATION }
        ensures cores { IfOk result (λ made. length made.cores ≡ cores) }
        ensures slots { IfOk result (λ made. made.slots ≡ slots) }
        ensures opening { IfOk result (λ made. IsOpening (world_of made) first_generation) }
    {
        let count = u32::from(cores) * u32::from(slots);
        let contexts = first_contexts(alloc, count, slots, first_generation)?;
        let residents = first_residents(alloc, count)?;
        let cores = first_cores(alloc, cores)?;
        Ok(Tables {
            contexts,
            cores,
            slots,
            residents,
            given: Vec::new(alloc),
            ended: Vec::new(alloc),
        })
    }

    pub fn reserve(&mut self, posts: usize, retires: usize) -> Result<(), AllocError>
        ensures kept { self.new ≡ record self.old { posts = self.new.posts; retires = self.new.retires } }
        ensures grown { (self.old.posts ≤ self.new.posts) × (self.old.retires ≤ self.new.retires) }
        ensures ok { OnOk result ((posts ≤ self.new.posts) × (retires ≤ self.new.retires)) }
        ensures succeeds { posts ≤ self.old.posts → retires ≤ self.old.retires → IsOk result }
    {
        self.given.reserve(posts)?;
        self.ended.reserve(retires)?;
        Ok(())
    }

    // ---- readers

    fn is_core(&self, number: u8) -> bool
        ensures { IsTrue result ↔ (number < length self.now.cores) }
    {
        usize::from(number) < self.cores.len()
    }

    fn is_context(&self, number: u32) -> bool
        ensures { IsTrue result ↔ IsContext (world_of self.now) number }
    {
        (number as usize) < self.contexts.len()
    }

    pub fn count(&self) -> u8
        ensures value { result ≡ length self.now.cores }
        ensures few { result ≤ CORES }
    {
        self.cores.len() as u8
    }

    pub fn slots(&self) -> u8
        ensures value { result ≡ self.now.slots }
        ensures some { 1 ≤ result }
        ensures few { result ≤ SLOTS }
    {
        self.slots
    }

    pub fn context(&self, number: u32) -> Context
        requires { IsContext (world_of self.now) number }
        ensures value { result ≡ context self.now number }
        ensures within { number < length self.now.contexts }
        ensures place { HasPlace self.now result.place }
        ensures index { result.place.index < self.now.slots }
        ensures generation { result.generation ≤ LAST_GENERATION }
        ensures few { length self.now.cores ≤ CORES }
        ensures few_slots { self.now.slots ≤ SLOTS }
    {
        self.contexts[number as usize]
    }

    pub fn core(&self, number: u8) -> OccWord
        requires { number < length self.now.cores }
        ensures value { result ≡ core self.now number }
        ensures indexes { length result.occupied ≡ MASK_BITS }
        ensures beyond { IsVacantFrom self.now.slots result }
    {
        self.cores[usize::from(number)]
    }

    pub fn resident(&self, place: Place) -> u32
        requires { IsPlace (world_of self.now) place }
        ensures { (x : ℕ) → IsContext (world_of self.now) x → (context self.now x).place ≡ place → result ≡ x }
    {
        self.residents[place.number(self.slots) as usize]
    }

    // ---- one change at a time

    fn set_context(&mut self, number: u32, changed: Context)
        requires within { IsContext (world_of self.old) number }
        requires place { changed.place ≡ (context self.old number).place }
        requires generation { changed.generation ≤ LAST_GENERATION }
        ensures { self.new ≡ with_context self.old number changed }
    {
        self.contexts[number as usize] = changed;
    }

    fn set_occupied(&mut self, place: Place, occupied: bool)
        requires place { HasPlace self.old place }
        requires index { place.index < self.old.slots }
        ensures { self.new ≡ with_occupied self.old place occupied }
    {
        let core = self.cores[usize::from(place.core)];
        let changed = if occupied {
            core.with_bit(place.index)
        } else {
            core.without_bit(place.index)
        };
        self.cores[usize::from(place.core)] = changed;
    }

    fn set_closed(&mut self, number: u8, closed: bool)
        requires { number < length self.old.cores }
        ensures { self.new ≡ with_closed self.old number closed }
    {
        let core = self.cores[usize::from(number)];
        self.cores[usize::from(number)] = core.with_closed(closed);
    }

    fn set_exclusive(&mut self, number: u8, exclusive: bool)
        requires { number < length self.old.cores }
        ensures { self.new ≡ with_exclusive self.old number exclusive }
    {
        let core = self.cores[usize::from(number)];
        self.cores[usize::from(number)] = core.with_exclusive(exclusive);
    }

    fn swap_places(&mut self, from: u32, to: u32)
        requires from { IsContext (world_of self.old) from }
        requires to { IsContext (world_of self.old) to }
        requires apart { from ≢ to }
        ensures swapped { self.new ≡ with_swapped self.old from to }
        ensures sizes { length self.old.contexts ≡ length self.old.cores * self.old.slots }
    {
        let first = self.contexts[from as usize];
        let second = self.contexts[to as usize];
        self.contexts[from as usize] = Context {
            place: second.place,
            ..first
        };
        self.contexts[to as usize] = Context {
            place: first.place,
            ..second
        };
        self.residents[second.place.number(self.slots) as usize] = from;
        self.residents[first.place.number(self.slots) as usize] = to;
    }

    fn push_given(&mut self, id: ThreadId, tag: u64) -> Result<(), NotApplied>
        ensures ok { OnOk result ((self.new ≡ record self.old { given = self.old.given ++ (id, tag) ∷ []; posts = self.new.posts }) × (self.old.posts ≤ self.new.posts + 1)) }
        ensures err { OnErr result ((self.new ≡ self.old) × (self.old.posts ≡ 0)) }
        ensures memory { IfErr result (λ e. e ≡ NotApplied.Memory) }
    {
        if self.given.reserve(1).is_err() {
            return Err(NotApplied::Memory);
        }
        match self.given.push((id, tag)) {
            Ok(()) => Ok(()),
            Err(_) => unreachable!(),
        }
    }

    fn push_ended(&mut self, id: ThreadId, tag: u64) -> Result<(), NotApplied>
        ensures ok { OnOk result ((self.new ≡ record self.old { ended = self.old.ended ++ (id, tag) ∷ []; retires = self.new.retires }) × (self.old.retires ≤ self.new.retires + 1)) }
        ensures err { OnErr result ((self.new ≡ self.old) × (self.old.retires ≡ 0)) }
        ensures memory { IfErr result (λ e. e ≡ NotApplied.Memory) }
    {
        if self.ended.reserve(1).is_err() {
            return Err(NotApplied::Memory);
        }
        match self.ended.push((id, tag)) {
            Ok(()) => Ok(()),
            Err(_) => unreachable!(),
        }
    }

    // ---- whether an event is allowed

    pub fn allows(&self, event: Event) -> bool
        ensures { IsTrue result ↔ Allowed (world_of self.now) event }
    {
        match event {
            Event::Claim { carrier, context } => self.allows_claim(carrier, context),
            Event::Alone { carrier, context } => self.allows_alone(carrier, context),
            Event::Post {
                carrier,
                context,
                ..
            } => self.is_claimed(carrier, context),
            Event::Take { context, .. } => self.is_ready(context),
            Event::Rest {
                carrier,
                context,
                ..
            } => self.is_held(carrier, context),
            Event::Wake { id } => self.can_be_woken(id),
            Event::Retire { carrier, context } => self.is_held(carrier, context),
            Event::Release { carrier, context } => self.is_claimed(carrier, context),
            Event::CloseCore { core } => self.is_core(core),
            Event::OpenCore { core } => self.is_core(core),
            Event::Move { carrier, from, to } => self.allows_move(carrier, from, to),
            Event::Still => true,
        }
    }

    fn takes_threads(&self, number: u8) -> bool
        requires { number < length self.now.cores }
        ensures { IsTrue result ↔ TakesThreads (world_of self.now) number }
    {
        let core = self.core(number);
        !core.is_closed() && !core.is_exclusive()
    }

    fn allows_claim(&self, carrier: u32, number: u32) -> bool
        ensures { IsTrue result ↔ Allowed (world_of self.now) (Event.Claim carrier number) }
    {
        if !self.is_context(number) {
            return false;
        }
        let found = self.context(number);
        found.state.is_free() && self.takes_threads(found.place.core)
    }

    fn allows_alone(&self, carrier: u32, number: u32) -> bool
        ensures { IsTrue result ↔ Allowed (world_of self.now) (Event.Alone carrier number) }
    {
        if !self.allows_claim(carrier, number) {
            return false;
        }
        let place = self.context(number).place;
        place.index == 0 && self.core(place.core).is_empty()
    }

    fn is_claimed(&self, carrier: u32, number: u32) -> bool
        ensures { IsTrue result ↔ Allowed (world_of self.now) (Event.Release carrier number) }
    {
        self.is_context(number) && self.context(number).state.is_claimed_by(carrier)
    }

    fn is_ready(&self, number: u32) -> bool
        ensures { IsTrue result ↔ Allowed (world_of self.now) (Event.Take 0 number) }
    {
        self.is_context(number) && self.context(number).state.is_ready()
    }

    fn is_held(&self, carrier: u32, number: u32) -> bool
        ensures { IsTrue result ↔ Allowed (world_of self.now) (Event.Retire carrier number) }
    {
        self.is_context(number) && self.context(number).state.is_held_by(carrier)
    }

    fn can_be_woken(&self, id: ThreadId) -> bool
        ensures { IsTrue result ↔ Allowed (world_of self.now) (Event.Wake id) }
    {
        if !self.is_context(id.context) {
            return false;
        }
        let found = self.context(id.context);
        found.generation == id.generation && found.state.can_be_woken()
    }

    fn allows_move(&self, carrier: u32, from: u32, to: u32) -> bool
        ensures { IsTrue result ↔ Allowed (world_of self.now) (Event.Move carrier from to) }
    {
        if !self.is_context(from) || !self.is_claimed(carrier, to) {
            return false;
        }
        let first = self.context(from);
        let second = self.context(to);
        first.state.is_at_rest()
            && first.place.core != second.place.core
            && !self.core(first.place.core).is_exclusive()
            && !self.core(second.place.core).is_exclusive()
    }

    // ---- each event, if it is allowed

    /// Changes the table as the event says. If memory is refused, nothing changes.
    pub fn make(&mut self, event: Event) -> Result<(), NotApplied>
        requires { Allowed (world_of self.old) event }
        ensures { Answers event self.old self.new result }
    {
        match event {
            Event::Claim { carrier, context } => self.claim(carrier, context),
            Event::Alone { carrier, context } => self.claim_alone(carrier, context),
            Event::Post {
                carrier,
                context,
                tag,
            } => return self.post(carrier, context, tag),
            Event::Take { carrier, context } => self.take(carrier, context),
            Event::Rest {
                carrier,
                context,
                rest,
            } => self.put_back(carrier, context, rest),
            Event::Wake { id } => self.wake(id),
            Event::Retire { carrier, context } => return self.retire(carrier, context),
            Event::Release { carrier, context } => self.release(carrier, context),
            Event::CloseCore { core } => self.close_core(core),
            Event::OpenCore { core } => self.open_core(core),
            Event::Move { carrier, from, to } => self.move_thread(carrier, from, to),
            Event::Still => {}
        }
        Ok(())
    }

    fn claim(&mut self, carrier: u32, number: u32)
        requires { Allowed (world_of self.old) (Event.Claim carrier number) }
        ensures { Makes (Event.Claim carrier number) self.old self.new }
    {
        let found = self.context(number);
        self.set_occupied(found.place, true);
        self.set_context(
            number,
            Context {
                state: State::Claimed { carrier },
                ..found
            },
        );
    }

    fn claim_alone(&mut self, carrier: u32, number: u32)
        requires { Allowed (world_of self.old) (Event.Alone carrier number) }
        ensures { Makes (Event.Alone carrier number) self.old self.new }
    {
        let found = self.context(number);
        self.set_occupied(found.place, true);
        self.set_exclusive(found.place.core, true);
        self.set_context(
            number,
            Context {
                state: State::Claimed { carrier },
                ..found
            },
        );
    }

    fn post(&mut self, carrier: u32, number: u32, tag: u64) -> Result<(), NotApplied>
        requires { Allowed (world_of self.old) (Event.Post carrier number tag) }
        ensures { Answers (Event.Post carrier number tag) self.old self.new result }
    {
        let found = self.context(number);
        let id = ThreadId {
            context: number,
            generation: found.generation,
        };
        self.push_given(id, tag)?;
        self.set_context(
            number,
            Context {
                state: State::Ready { tag },
                ..found
            },
        );
        Ok(())
    }

    fn take(&mut self, carrier: u32, number: u32)
        requires { Allowed (world_of self.old) (Event.Take carrier number) }
        ensures { Makes (Event.Take carrier number) self.old self.new }
    {
        let found = self.context(number);
        let state = found.state.taken(carrier);
        self.set_context(number, Context { state, ..found });
    }

    fn put_back(&mut self, carrier: u32, number: u32, rest: Rest)
        requires { Allowed (world_of self.old) (Event.Rest carrier number rest) }
        ensures { Makes (Event.Rest carrier number rest) self.old self.new }
    {
        let found = self.context(number);
        let state = found.state.put_back(rest);
        self.set_context(number, Context { state, ..found });
    }

    fn wake(&mut self, id: ThreadId)
        requires { Allowed (world_of self.old) (Event.Wake id) }
        ensures { Makes (Event.Wake id) self.old self.new }
    {
        let found = self.context(id.context);
        let state = found.state.woken();
        self.set_context(id.context, Context { state, ..found });
    }

    fn retire(&mut self, carrier: u32, number: u32) -> Result<(), NotApplied>
        requires { Allowed (world_of self.old) (Event.Retire carrier number) }
        ensures { Answers (Event.Retire carrier number) self.old self.new result }
    {
        let found = self.context(number);
        let id = ThreadId {
            context: number,
            generation: found.generation,
        };
        self.push_ended(id, found.state.tag())?;
        self.set_context(number, found.retired(carrier));
        Ok(())
    }

    fn release(&mut self, carrier: u32, number: u32)
        requires { Allowed (world_of self.old) (Event.Release carrier number) }
        ensures { Makes (Event.Release carrier number) self.old self.new }
    {
        let found = self.context(number);
        self.set_occupied(found.place, false);
        self.set_exclusive(found.place.core, false);
        self.set_context(
            number,
            Context {
                state: State::Free,
                ..found
            },
        );
    }

    fn close_core(&mut self, number: u8)
        requires { Allowed (world_of self.old) (Event.CloseCore number) }
        ensures { Makes (Event.CloseCore number) self.old self.new }
    {
        self.set_closed(number, true);
    }

    fn open_core(&mut self, number: u8)
        requires { Allowed (world_of self.old) (Event.OpenCore number) }
        ensures { Makes (Event.OpenCore number) self.old self.new }
    {
        self.set_closed(number, false);
    }

    fn move_thread(&mut self, carrier: u32, from: u32, to: u32)
        requires { Allowed (world_of self.old) (Event.Move carrier from to) }
        ensures { Makes (Event.Move carrier from to) self.old self.new }
    {
        self.swap_places(from, to);
    }
}

fn first_contexts(
    alloc: Global,
    count: u32,
    slots: u8,
    generation: u64,
) -> Result<Vec<Context>, AllocError>
    requires { count ≤ 256 * slots }
    ensures { IfOk result (λ made. made.items ≡ map (first_context slots generation) (range_with_len 0 count)) }
{
    let mut contexts = Vec::with_capacity(alloc, count as usize)?;
    for number in 0..count {
        contexts.push(Context {
            place: Place::of_context(number, slots),
            generation,
            state: State::Free,
        })?;
    }
    Ok(contexts)
}

fn first_cores(alloc: Global, count: u8) -> Result<Vec<OccWord>, AllocError>
    ensures { IfOk result (λ made. made.items ≡ replicate count vacant) }
{
    vec![in alloc; OccWord::empty(); usize::from(count)]
}

fn first_residents(alloc: Global, count: u32) -> Result<Vec<u32>, AllocError>
    ensures { IfOk result (λ made. made.items ≡ range_with_len 0 count) }
{
    let mut residents = Vec::with_capacity(alloc, count as usize)?;
    for number in 0..count {
        residents.push(number)?;
    }
    Ok(residents)
}
