//! A worker's access to the table, by which it takes, runs and puts back threads, and claims slots in advance. The
//! worker has two seats (rights to use the table). Between two calls, one seat holds only the thread that the worker
//! runs, and the other only the slots that the worker keeps claimed for threads that are forked later.
ghost use Rattle.std.specs.Prelude.{◌≡◌, ◌≢◌, ◌↔◌, ◌<◌, ◌≤◌, false, true, IfOk, IsSome, IsTrue, MatchOption, None};
ghost use Rattle.arachne_run.specs.Tokens.{AreIdle, IsSetUp, ground_of};

use crate::access::Access;
use crate::fault::WorkerFault;
use crate::forking::{ForkSupplies, claim_slot, give_place_back, go_on, post_at, post_waiting};
use crate::gate::Gate;
use crate::granted::Granted;
use crate::machine::{Machine, Tokens};
use arachne_arbiter::{Arbiter, Backoff};
use arachne_contexts::{Claimed, Contexts, Held, Moved, Placed, Taken, Woken};
use arachne_core::{MarkWord, OccWord, Place, Rest, ThreadId};
use arachne_jobs::{Openings, RunJob, RunSpares, RunThread, RunTicket, SpillPass, next_ticket};
use arachne_workers::{
    Dispatch, Grip, Halt, PostedThread, ThreadStop, TicketResult, WorkerEvent, is_drained,
    may_take_ticket,
};
use rand_core::Rng;
use std::alloc::Global;
use std::marker::Model;
use std::sync::Wait;
use std::time::Clock;

/// A worker's tokens (rights to use the shared objects), its current thread, and the slots that it keeps claimed.
#[derive(Drop)]
pub(crate) struct RunSeat<'a, H, T: RunJob, C: Contexts<T>, R, G> {
    pub(crate) rt: &'a H,
    pub(crate) gate: &'a G,
    pub(crate) alloc: Global,
    pub(crate) machine: &'a Machine<C, T::Ticket>,
    pub(crate) core: u8,
    /// True if the table has rejected a slot or a thread that it had given to the worker.
    ///
    /// `held` and `kept` may then be wrong, so the worker ends. A method that could leave them wrong sets this first,
    /// and clears it if all went well, so that each early return leaves it set.
    pub(crate) is_broken: bool,
    /// The seat that holds the current thread, the one that the worker runs now, which is `held`.
    pub(crate) seat: C::Seat,
    pub(crate) held: Option<InHand<T, C::Hold>>,
    /// The seat that holds the slots in `kept`, which are claimed for threads forked later.
    pub(crate) spare: C::Seat,
    pub(crate) kept: Vec<C::Claim>,
    pub(crate) pass: SpillPass<T::Ticket>,
    /// Carries out orders to close or open cores. Only core 0's worker has it.
    pub(crate) arbiter: Option<Arbiter>,
    pub(crate) forks: ForkSupplies<R, T::Spares>,
    pub(crate) access: Access<'a>,
}

/// A thread that the worker has taken from the table.
#[derive(Drop)]
pub(crate) struct InHand<T, H> {
    pub(crate) held: Held<T, H>,
    /// The evidence that the thread holds a lock that it got since the worker began to run it.
    pub(crate) grant: Option<Granted>,
}

impl<'a, H, T: RunJob, C: Contexts<T>, R, G> Model for RunSeat<'a, H, T, C, R, G> {
    ghost use Rattle.std.specs.Prelude.{◌≡◌, ◌<◌, false, map, reverse};
    ghost use Rattle.arachne_contexts.specs.Out.{Claim as a_claim};
    ghost use Rattle.arachne_jobs.specs.Views.{IsPassOf};
    ghost use Rattle.arachne_run.specs.Tokens.{ground_of, in_hand, Ground, IsArbiterOf, IsSetUp};

    ghost Value = { Ground C };

    ghost view = { λ s. ground_of s.machine.now };

    ghost invariant = { λ s. IsSetUp C.core_count C.slot_count s.machine.now × (s.core < s.machine.now.cores)
        × C.sits s.machine.now.table s.seat × C.sits s.machine.now.table s.spare
        × (s.is_broken ≡ false → C.has s.machine.now.table s.seat (in_hand T.tag_of s.held))
        × (s.is_broken ≡ false → C.has s.machine.now.table s.spare (map a_claim (reverse s.kept.items)))
        × IsPassOf s.machine.now.tickets s.pass × IsArbiterOf s.machine.now s.arbiter × (s.access.resources ≡ s.machine.now.resources) };
}

impl<'a, H: Wait, T: RunJob, C: Contexts<T>, R: Rng + Drop, G: Gate> RunSeat<'a, H, T, C, R, G> {
    pub(crate) fn open(
        rt: &'a H,
        alloc: Global,
        machine: &'a Machine<C, T::Ticket>,
        gate: &'a G,
        core: u8,
        chooser: R,
        tokens: Tokens<C::Seat, T::Ticket>,
    ) -> RunSeat<'a, H, T, C, R, G>
        requires set_up { IsSetUp C.core_count C.slot_count machine.now }
        requires core { core < machine.now.cores }
        requires tokens { AreIdle C.sits C.idle machine.now tokens }
        ensures { result ≡ ground_of machine.now }
    {
        let (seat, spare) = machine.table.split(rt, tokens.seat);
        RunSeat {
            rt,
            gate,
            alloc,
            machine,
            core,
            is_broken: false,
            seat,
            held: None,
            spare,
            kept: Vec::new(alloc),
            pass: tokens.pass,
            arbiter: tokens.arbiter,
            forks: ForkSupplies {
                chooser,
                openings: Openings::new(),
                spares: T::Spares::none(alloc),
            },
            access: Access {
                resources: &machine.resources,
                holdings: tokens.holdings,
            },
        }
    }

    /// Puts the root thread, if this worker has it, into a slot of its core, and returns the slot's index.
    pub(crate) fn post_root(&mut self, root: Option<T>) -> Result<Option<u8>, WorkerFault>
        ensures same { self.new ≡ self.old }
        ensures index { IfOk result (λ index. IsSome index ↔ IsSome root) }
    {
        let Some(root) = root else {
            return Ok(None);
        };
        if self.is_broken {
            return Err(WorkerFault::Token);
        }
        self.is_broken = true;
        let (rt, machine) = (self.rt, self.machine);
        let (spare, kept) = (&mut self.spare, &mut self.kept);
        let Some(claim) = claim_slot::<H, T, C>(rt, machine, spare, kept, self.core)? else {
            return Err(WorkerFault::Token);
        };
        let index = claim.place().index;
        post_at::<H, T, C>(rt, machine, &mut self.spare, claim, root)?;
        self.is_broken = false;
        Ok(Some(index))
    }

    /// Claims a slot to keep for a later child, if `Machine::keeps_place` allows it.
    ///
    /// Otherwise counts the slot that a thread has left as free.
    fn keep_or_count(&mut self, before: OccWord)
        ensures { self.new ≡ self.old }
    {
        let (rt, machine) = (self.rt, self.machine);
        let room = &machine.shared.room;
        // Memory is reserved before the claim, so that a claimed slot can be kept.
        if self.is_broken || !machine.keeps_place(before) || self.kept.try_reserve(1).is_err() {
            room.place_was_left();
            return;
        }
        match machine.table.claim(rt, &mut self.spare, self.core) {
            Ok(Claimed::Place(claim)) => self.kept.push_reserved(claim),
            _ => room.place_was_left(),
        }
    }
}

impl<'a, H: Wait + Clock, T: RunJob, C: Contexts<T>, R: Rng + Drop, G: Gate> Dispatch
    for RunSeat<'a, H, T, C, R, G> {
    ghost largest_quantum = { λ seat. seat.quantum };

    /// A broken seat takes no thread. The next call that can return an error ends the worker.
    #[inline(always)]
    fn take(&mut self, place: Place) -> Grip {
        let Place { core, index } = place;
        if core >= self.machine.cores || index >= self.machine.slots {
            return Grip::None;
        }
        if self.held.is_some() || self.is_broken {
            return Grip::None;
        }
        let table = &self.machine.table;
        match table.take(self.rt, &mut self.seat, core, index) {
            Taken::Run(held) => {
                self.gate.turn(self.core, held.id(), held.value.name());
                self.held = Some(InHand { held, grant: None });
                Grip::Taken
            }
            Taken::NotReady(_) => Grip::None,
            Taken::Lost(_) => Grip::Lost,
        }
    }

    fn quantum(&self) -> u32
        ensures same { result ≡ self.now.quantum }
        ensures most { result ≤ self.now.quantum }
    {
        self.machine.quantum
    }

    #[inline(always)]
    fn advance(&mut self, backoff: &mut Backoff, left: &mut u32) -> Result<ThreadStop, Halt> {
        if self.is_broken {
            return Err(Halt::Token);
        }
        let Some(thread) = &mut self.held else {
            return Err(Halt::Token);
        };
        self.is_broken = true;
        let stop = go_on::<H, T, C, R>(
            self.rt,
            self.alloc,
            self.machine,
            &mut self.seat,
            &mut self.pass,
            &mut thread.held,
            &mut thread.grant,
            &mut self.forks,
            &mut self.access,
            backoff,
            left,
        )?;
        self.is_broken = false;
        Ok(stop)
    }

    #[inline(always)]
    fn holds(&self) -> bool {
        match &self.held {
            Some(thread) => thread.grant.is_some(),
            None => false,
        }
    }

    #[inline(always)]
    fn rest(&mut self) -> Result<Rest, Halt> {
        if self.is_broken {
            return Err(Halt::Token);
        }
        let Some(InHand { held, grant }) = self.held.take() else {
            return Err(Halt::Token);
        };
        let Some(rest) = held.value.rest() else {
            self.held = Some(InHand { held, grant });
            return Err(Halt::Foreign);
        };
        let table = &self.machine.table;
        match table.put_back(self.rt, &mut self.seat, held, rest) {
            Ok(rested) => Ok(rested.or(rest)),
            Err(held) => {
                self.held = Some(InHand { held, grant });
                Err(Halt::Token)
            }
        }
    }

    #[inline(always)]
    fn end(&mut self, before: OccWord) -> Result<Option<ThreadId>, Halt> {
        if self.is_broken {
            return Err(Halt::Token);
        }
        let Some(InHand { held, grant }) = self.held.take() else {
            return Err(Halt::Token);
        };
        let table = &self.machine.table;
        match table.finish(self.rt, &mut self.seat, held) {
            Ok(job) => {
                // The slot is freed before the outcome is put into its cell, since only `finish` returns the job. The
                // slot is kept or counted as free before the parent is woken, since other workers could otherwise claim
                // it first.
                let parent = job.leave(&mut self.forks.spares);
                self.keep_or_count(before);
                match parent {
                    Ok(None) => {
                        let machine = self.machine;
                        machine.shared.workers.stop();
                        Ok(None)
                    }
                    Ok(parent) => Ok(parent),
                    Err(fault) => Err(Halt::from(WorkerFault::from(fault))),
                }
            }
            Err(held) => {
                self.held = Some(InHand { held, grant });
                Err(Halt::Token)
            }
        }
    }

    fn kept(&self) -> usize {
        self.kept.len()
    }

    fn give_one_back(&mut self) -> Result<bool, Halt> {
        if self.is_broken {
            return Err(Halt::Token);
        }
        let Some(claim) = self.kept.pop() else {
            return Ok(false);
        };
        let (rt, machine) = (self.rt, self.machine);
        self.is_broken = true;
        give_place_back::<H, T, C>(rt, machine, &mut self.spare, claim)?;
        self.is_broken = false;
        machine.shared.room.place_was_left();
        Ok(true)
    }

    #[inline(always)]
    fn look(&mut self) -> OccWord {
        let table = &self.machine.table;
        let word = table.look(self.rt, &mut self.seat, self.core);
        match OccWord::from_word(word) {
            Some(now) => now,
            None => unreachable!(),
        }
    }

    fn mark_of(&mut self, context: u32) -> Option<MarkWord> {
        if context >= u32::from(self.machine.cores) * u32::from(self.machine.slots) {
            return None;
        }
        let table = &self.machine.table;
        let word = table.look_mark(self.rt, &mut self.seat, context);
        MarkWord::from_word(word)
    }

    fn try_wake(&mut self, id: ThreadId) -> Woken {
        let table = &self.machine.table;
        table.wake(self.rt, &mut self.seat, id)
    }

    fn pull(&mut self, place: Place) -> bool
        ensures same { self.new ≡ self.old }
        ensures allowed { IsTrue result → self.old.may_pull ≡ true }
    {
        if !self.machine.may_pull
            || place.core == self.core
            || place.core >= self.machine.cores
            || place.index >= self.machine.slots
        {
            return false;
        }
        let table = &self.machine.table;
        matches!(
            table.move_one(self.rt, &mut self.seat, place, self.core),
            Moved::Moved
        )
    }

    #[inline(always)]
    fn may_take_ticket(&mut self) -> bool {
        let machine = self.machine;
        if !machine.shared.room.is_any_waiting() {
            return false;
        }
        let kept = self.kept.len();
        may_take_ticket(self.look(), kept, machine.slots)
    }

    /// If the core has no free slot, the ticket is lost, and its child waits until the parent runs it.
    fn take_ticket(&mut self) -> Result<TicketResult, Halt> {
        if self.is_broken {
            return Err(Halt::Token);
        }
        let (rt, machine) = (self.rt, self.machine);
        let room = &machine.shared.room;
        let Some(ticket) = next_ticket(rt, &machine.tickets, room, &mut self.pass) else {
            return Ok(TicketResult::None);
        };
        if !ticket.still_waits() {
            return Ok(TicketResult::Gone);
        }
        self.is_broken = true;
        let (spare, kept) = (&mut self.spare, &mut self.kept);
        let Some(claim) = claim_slot::<H, T, C>(rt, machine, spare, kept, self.core)? else {
            self.is_broken = false;
            return Ok(TicketResult::Gone);
        };
        let job = T::of_ticket(self.alloc, ticket, &mut self.forks.spares);
        let posted = post_waiting::<H, T, C>(rt, machine, &mut self.spare, claim, job)?;
        self.is_broken = false;
        Ok(of_ticket(posted))
    }

    fn tend(&mut self) -> (Option<usize>, u64) {
        let machine = self.machine;
        let Some(arbiter) = &mut self.arbiter else {
            return (None, 0);
        };
        let cores = machine.cores::<H, T>(self.rt);
        let workers = &machine.shared.workers;
        arbiter.tend(&cores, &mut self.seat, workers.parking(), workers.slices())
    }

    #[inline(always)]
    fn has_orders(&self) -> bool
        ensures { IsTrue result ↔ (self.now.orders ≢ 0) }
    {
        self.machine.orders != 0
    }

    fn is_waited_for(&self) -> bool {
        match &self.arbiter {
            Some(arbiter) => !arbiter.are_over(),
            None => false,
        }
    }

    fn is_drained(&mut self) -> bool {
        is_drained(self.look())
    }

    #[inline(always)]
    fn told(&self, event: WorkerEvent) {
        match event {
            WorkerEvent::Begins(nth) => self.gate.slice(self.core, nth),
            event => self.gate.told(self.core, event),
        }
    }
}

/// Returns the result of taking a ticket, by the thread that was posted for its child, if any.
#[inline(always)]
fn of_ticket(posted: Option<PostedThread>) -> TicketResult
    ensures { MatchOption posted (result ≡ TicketResult.Gone) (λ post. result ≡ TicketResult.Posted post) }
{
    match posted {
        Some(post) => TicketResult::Posted(post),
        None => TicketResult::Gone,
    }
}
