//! Gives slots to threads. The child of a fork gets a slot, waits for one, or runs inside its parent's slot.
ghost use Rattle.std.specs.Prelude.{◌≡◌, ◌↔◌, ◌<◌, ◌≤◌, [], ◌∷◌, false, IfOk, IfSome, IsOk, IsSome, IsTrue, OnOk, map, reverse};
ghost use Rattle.rand_core.specs.Stream.{next_u64};
ghost use Rattle.arachne_arbiter.specs.Placed.{GetsPlace, IsAtStartOfSome};
ghost use Rattle.arachne_contexts.specs.Out.{Claim as a_claim, HasOut};
ghost use Rattle.arachne_jobs.specs.Views.{IsPassOf};
ghost use Rattle.arachne_run.specs.Serving.{StopsAt};
ghost use Rattle.arachne_run.specs.Tokens.{IsOutWith, IsSetUp, IsSpent, thread_in};

use crate::access::Access;
use crate::fault::WorkerFault;
use crate::granted::{Granted, LockCall};
use crate::machine::Machine;
use arachne_arbiter::{Backoff, Cores};
use arachne_contexts::{Contexts, Held, Identified, Placed};
use arachne_jobs::{Openings, RunJob, Slice, SpillPass, make_room, put_ticket};
use arachne_program::Class;
use arachne_workers::{PostedThread, ThreadStop};
use rand_core::Rng;
use std::alloc::{AllocError, Global};
use std::sync::Wait;
use std::time::Clock;

/// What a worker needs for forks: `chooser` is the random generator that chooses a child's core.
#[derive(Drop)]
pub(crate) struct ForkSupplies<R, P> {
    pub(crate) chooser: R,
    /// What the worker's threads change while they run: unused tags, random numbers still to draw, an amount to add.
    pub(crate) openings: Openings,
    /// Memory of ended threads, which the worker uses for new threads.
    pub(crate) spares: P,
}

/// Runs the thread `held` for at most `left` steps, adds its amounts to ledgers, and carries out its request.
#[inline(always)]
pub(crate) fn go_on<H: Wait + Clock, T: RunJob, C: Contexts<T>, R: Rng>(
    rt: &H,
    alloc: Global,
    machine: &Machine<C, T::Ticket>,
    seat: &mut C::Seat,
    pass: &mut SpillPass<T::Ticket>,
    held: &mut Held<T, C::Hold>,
    grant: &mut Option<Granted>,
    forks: &mut ForkSupplies<R, T::Spares>,
    access: &mut Access<'_>,
    backoff: &mut Backoff,
    left: &mut u32,
) -> Result<ThreadStop, WorkerFault>
    requires seat { C.sits machine.now.table seat.old }
    requires out { C.has machine.now.table seat.old (thread_in T.tag_of held.old ∷ []) }
    requires pass { IsPassOf machine.now.tickets pass.old }
    requires set_up { IsSetUp C.core_count C.slot_count machine.now }
    requires some { 1 ≤ left.old }
    ensures kept { C.sits machine.now.table seat.new × IsPassOf machine.now.tickets pass.new × (access.new.resources ≡ access.old.resources) }
    ensures hand { OnOk result (C.has machine.now.table seat.new (thread_in T.tag_of held.new ∷ []) × (left.new ≤ left.old)) }
    ensures stops { IfOk result (λ stop. StopsAt stop (T.pause_of held.new.value)) }
    ensures drawn { IsOk result → forks.new.openings.draws ≡ 0 }
    ensures settled { OnOk result (forks.new.openings.due.amount ≡ 0) }
{
    let room = &machine.shared.room;
    let slice = held
        .value
        .slice(left, &mut forks.spares, room, &mut forks.openings)?;
    // Forks that didn't pause the thread drew no random number. The draws are made up for here.
    if forks.openings.draws > 0 {
        draw(&mut forks.chooser, forks.openings.draws);
    }
    forks.openings.draws = 0;
    access.settle(&mut forks.openings.due)?;
    let (call, lock) = match slice {
        Slice::Asks(lock) => (LockCall::Ask, lock),
        Slice::Awaits(lock) => (LockCall::Check, lock),
        Slice::Goes => return Ok(ThreadStop::Goes),
        Slice::Forks(class, child) => {
            return answer_fork::<H, T, C, R>(
                rt, alloc, machine, seat, pass, held, class, child, forks,
            );
        }
        Slice::Blocks => return Ok(ThreadStop::Blocks),
        Slice::Frees(lock) => {
            return access.free(rt, backoff, lock, held.id(), &mut held.value, grant);
        }
        Slice::Tallies(ledger, amount) => return access.tally(ledger, amount, &mut held.value),
        Slice::Ends => return Ok(ThreadStop::Ends),
    };
    access.get(rt, backoff, call, lock, held.id(), &mut held.value, grant)
}

fn draw<R: Rng>(chooser: &mut R, words: u64) {
    for _ in 0..words {
        let _ = chooser.next_u64();
    }
}

/// Carries out a fork of the thread `held`.
///
/// A normal child gets a slot on the less loaded of two random cores, or else on the first other core with a free slot;
/// if there is none, it waits if the queue has room. An exclusive child, which wants a core for itself, gets an empty
/// core. Any other child runs inside its parent's slot. For a child with much work (`is_large`), useless tickets are
/// first removed from a full queue.
fn answer_fork<H: Wait, T: RunJob, C: Contexts<T>, R: Rng>(
    rt: &H,
    alloc: Global,
    machine: &Machine<C, T::Ticket>,
    seat: &mut C::Seat,
    pass: &mut SpillPass<T::Ticket>,
    held: &mut Held<T, C::Hold>,
    class: Class,
    child: T::Child,
    forks: &mut ForkSupplies<R, T::Spares>,
) -> Result<ThreadStop, WorkerFault>
    requires seat { C.sits machine.now.table seat.old }
    requires out { C.has machine.now.table seat.old (thread_in T.tag_of held.old ∷ []) }
    requires pass { IsPassOf machine.now.tickets pass.old }
    requires set_up { IsSetUp C.core_count C.slot_count machine.now }
    requires forks { T.forks held.old.value child }
    ensures kept { C.sits machine.now.table seat.new × IsPassOf machine.now.tickets pass.new
        × OnOk result (C.has machine.now.table seat.new (thread_in T.tag_of held.new ∷ [])) }
    ensures stops { IfOk result (λ stop. StopsAt stop (T.pause_of held.new.value)) }
    ensures draws { forks.new.openings.draws ≡ forks.old.openings.draws }
    ensures due { forks.new.openings.due ≡ forks.old.openings.due }
{
    let (me, room) = (held.id(), &machine.shared.room);
    let tag = forks.openings.tags.take(room);
    let cores = machine.cores::<H, T>(rt);
    let claim = claim_for::<H, T, C, R>(&cores, seat, class, &mut forks.chooser)?;
    if let Some(claim) = claim {
        room.place_was_claimed();
        let job = held
            .value
            .fork_off(alloc, me, child, tag, &mut forks.spares)?;
        let post = post_at::<H, T, C>(rt, machine, seat, claim, job)?;
        return Ok(ThreadStop::Posted(post));
    }
    let tickets = &machine.tickets;
    let wants_room = is_normal_and(class, forks.openings.is_large);
    make_room(rt, tickets, room, pass, wants_room);
    let waits = is_normal_and(class, !tickets.is_full(rt, pass));
    if let Some(ticket) = held.value.put_aside(alloc, me, child, tag, waits)? {
        // If the queue was filled meanwhile, the child waits without a ticket there, so only its parent can run it.
        if put_ticket(rt, tickets, room, pass, ticket).is_ok() {
            return Ok(ThreadStop::Spilled);
        }
    }
    Ok(ThreadStop::Goes)
}

/// Tries to claim a slot for a child of this class. Only for a normal child, draws a random number to choose the core.
#[inline(always)]
fn claim_for<H: Wait, T: RunJob, C: Contexts<T>, R: Rng>(
    cores: &Cores<'_, H, T, C>,
    seat: &mut C::Seat,
    class: Class,
    chooser: &mut R,
) -> Result<Option<C::Claim>, AllocError>
    requires { C.sits cores.now.table.now seat.old }
    ensures seat { C.sits cores.now.table.now seat.new }
    ensures out { GetsPlace (C.has cores.now.table.now) seat.old seat.new result }
    ensures drawn { class ≡ Class.Normal → R.stream chooser.new ≡ (next_u64 (R.stream chooser.old)).1 }
    ensures none_drawn { class ≡ Class.Exclusive → chooser.new ≡ chooser.old }
    ensures alone { class ≡ Class.Exclusive → IsAtStartOfSome C.Claim.place_of (C.core_count cores.now.table.now) result }
{
    match class {
        Class::Normal => cores.claim_normal(seat, chooser),
        Class::Exclusive => cores.claim_exclusive(seat),
    }
}

/// Returns `holds` if the child is normal, and otherwise false: only normal children wait for slots.
fn is_normal_and(class: Class, holds: bool) -> bool
    ensures { IsTrue result ↔ (class ≡ Class.Normal) × IsTrue holds }
{
    class == Class::Normal && holds
}

/// Frees a claimed slot, which the caller must then count as free.
pub(crate) fn give_place_back<H: Wait, T: RunJob, C: Contexts<T>>(
    rt: &H,
    machine: &Machine<C, T::Ticket>,
    spare: &mut C::Seat,
    claim: C::Claim,
) -> Result<(), WorkerFault>
    requires seat { C.sits machine.now.table spare.old }
    requires out { HasOut (C.has machine.now.table) (a_claim claim) spare.old }
    ensures seat { C.sits machine.now.table spare.new }
    ensures out { OnOk result (IsSpent (C.has machine.now.table) (a_claim claim) spare.old spare.new) }
{
    match machine.table.give_back(rt, spare, claim) {
        Ok(()) => Ok(()),
        Err(_) => Err(WorkerFault::Token),
    }
}

/// Returns a claimed slot of `core`: one from `kept`, which was never counted as free, or else a free one, if any.
pub(crate) fn claim_slot<H: Wait, T: RunJob, C: Contexts<T>>(
    rt: &H,
    machine: &Machine<C, T::Ticket>,
    spare: &mut C::Seat,
    kept: &mut Vec<C::Claim>,
    core: u8,
) -> Result<Option<C::Claim>, WorkerFault>
    requires seat { C.sits machine.now.table spare.old }
    requires out { C.has machine.now.table spare.old (map a_claim (reverse kept.old.items)) }
    requires set_up { IsSetUp C.core_count C.slot_count machine.now }
    requires core { core < machine.now.cores }
    ensures seat { C.sits machine.now.table spare.new }
    ensures out { IfOk result (IsOutWith (C.has machine.now.table spare.new) (reverse kept.new.items)) }
{
    if let Some(claim) = kept.pop() {
        return Ok(Some(claim));
    }
    let claim = machine.cores::<H, T>(rt).claim_on(spare, core)?;
    if claim.is_some() {
        machine.shared.room.place_was_claimed();
    }
    Ok(claim)
}

/// Puts `job` into a claimed slot, as a thread that is ready to run.
#[inline(always)]
pub(crate) fn post_at<H: Wait, T: RunJob, C: Contexts<T>>(
    rt: &H,
    machine: &Machine<C, T::Ticket>,
    seat: &mut C::Seat,
    claim: C::Claim,
    job: T,
) -> Result<PostedThread, WorkerFault>
    requires seat { C.sits machine.now.table seat.old }
    requires out { HasOut (C.has machine.now.table) (a_claim claim) seat.old }
    ensures seat { C.sits machine.now.table seat.new }
    ensures out { OnOk result (IsSpent (C.has machine.now.table) (a_claim claim) seat.old seat.new) }
    ensures place { IfOk result (λ post. post.place ≡ C.Claim.place_of claim) }
{
    let place = claim.place();
    match machine.table.post(rt, seat, claim, job) {
        Ok(id) => Ok(PostedThread { id, place }),
        Err(_) => Err(WorkerFault::Token),
    }
}

/// Puts `job` into a claimed slot, or frees the slot if there is no job.
pub(crate) fn post_waiting<H: Wait, T: RunJob, C: Contexts<T>>(
    rt: &H,
    machine: &Machine<C, T::Ticket>,
    spare: &mut C::Seat,
    claim: C::Claim,
    job: Option<T>,
) -> Result<Option<PostedThread>, WorkerFault>
    requires seat { C.sits machine.now.table spare.old }
    requires out { HasOut (C.has machine.now.table) (a_claim claim) spare.old }
    ensures seat { C.sits machine.now.table spare.new }
    ensures out { OnOk result (IsSpent (C.has machine.now.table) (a_claim claim) spare.old spare.new) }
    ensures posted { IfOk result (λ posted. IsSome posted ↔ IsSome job) }
    ensures place { IfOk result (λ posted. IfSome posted (λ post. post.place ≡ C.Claim.place_of claim)) }
{
    match job {
        Some(job) => Ok(Some(post_at::<H, T, C>(rt, machine, spare, claim, job)?)),
        None => {
            give_place_back::<H, T, C>(rt, machine, spare, claim)?;
            machine.shared.room.place_was_left();
            Ok(None)
        }
    }
}
