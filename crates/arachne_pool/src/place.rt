//! Finds free slots for jobs, and puts jobs into them.
ghost use Rattle.std.specs.Prelude.{◌≡◌, ◌∷◌, [], IfErr, IfOk, IfSome, MatchOption, OnErr, OnOk};
ghost use Rattle.arachne_arbiter.specs.Placed.{GetsPlace};
ghost use Rattle.arachne_contexts.specs.Out.{Claim, HasOut, KeepsOut};
ghost use Rattle.arachne_pool.specs.Grounds.{IsKnown, IsSpent, thread_in};
ghost use Rattle.arachne_pool.specs.Jobs.{PartsOne};

use crate::job::PoolJob;
use crate::pool::Pool;
use crate::spawned::Spawned;
use crate::worker::{WorkerState, disowned};
use arachne_contexts::{Contexts, Held, Placed};
use arachne_workers::{Halt, PostedThread, SharedWords};
use rand_xoshiro::Xoshiro256PlusPlus;
use std::alloc::AllocError;
use std::snapshot::Snapshot;
use std::sync::Wait;
use std::sync::atomic::Ordering;

/// A job that was just put into a slot. `job` is only for contracts.
///
/// Not `Drop`, so that no caller forgets to signal the core's worker.
pub(crate) struct Posted<J: PoolJob> {
    at: PostedThread,
    job: Snapshot<Spawned<J>>,
}

impl<J: PoolJob> Posted<J> {
    /// Signals the worker of the job's core, or returns the job's id and slot if that is `core`, the caller's own.
    #[inline(always)]
    pub(crate) fn tell_unless_on(self, core: u8, shared: &SharedWords) -> Option<PostedThread>
        ensures { IfSome result (λ post. post.place.core ≡ core) }
    {
        let Posted { at, job: _ } = self;
        if at.place.core == core {
            return Some(at);
        }
        shared.hint(at.place);
        None
    }
}

/// Puts `job` into the claimed slot. Before that, the caller must have counted the job as spawned.
#[inline(always)]
pub(crate) fn post<H: Wait, J: PoolJob, C: Contexts<Spawned<J>>>(
    rt: &H,
    pool: &Pool<C>,
    seat: &mut C::Seat,
    claim: C::Claim,
    job: Spawned<J>,
) -> Result<Posted<J>, Halt>
    requires seat { C.sits pool.now.table seat.old }
    requires out { HasOut (C.has pool.now.table) (Claim claim) seat.old }
    ensures seat { C.sits pool.now.table seat.new }
    ensures out { OnOk result (IsSpent (C.has pool.now.table) (Claim claim) seat.old seat.new) }
    ensures posted { IfOk result (λ posted. posted.job.value ≡ job) }
{
    let place = claim.place();
    let posted = Snapshot::of(&job);
    match pool.table.post(rt, seat, claim, job) {
        Ok(id) => Ok(Posted {
            at: PostedThread { id, place },
            job: posted,
        }),
        Err(_) => Err(disowned()),
    }
}

/// Claims a free slot for a job, on the less loaded of two random cores, or else on any core with a free slot.
///
/// An exclusive job (one that wants a core for itself) gets an empty core, or shares one if none is empty. If no slot
/// is free, returns `None`, and sets `pool.room` to 0 until a worker sees a free slot.
pub(crate) fn claim<H: Wait, J: PoolJob, C: Contexts<Spawned<J>>>(
    rt: &H,
    pool: &Pool<C>,
    seat: &mut C::Seat,
    chooser: &mut Xoshiro256PlusPlus,
    is_exclusive: bool,
) -> Result<Option<C::Claim>, AllocError>
    requires seat { C.sits pool.now.table seat.old }
    ensures seat { C.sits pool.now.table seat.new }
    ensures out { GetsPlace (C.has pool.now.table) seat.old seat.new result }
{
    let cores = pool.cores::<H, Spawned<J>>(rt);
    if is_exclusive && !pool.has_exclusive() {
        pool.exclusive.store(1, Ordering::SeqCst);
    }
    if is_exclusive && let Ok(Some(claim)) = cores.claim_exclusive(seat) {
        return Ok(Some(claim));
    }
    let claimed = cores.claim_normal(seat, chooser);
    if let Ok(None) = claimed {
        // The next worker that frees a place, or that sees a free one while it looks for work, notes that there is one.
        pool.room.store(0, Ordering::SeqCst);
    }
    claimed
}

/// Puts the oldest job of the queue `near` into a free slot, or leaves it in the queue if it can't claim a slot.
pub(crate) fn place_oldest<H: Wait, J: PoolJob, C: Contexts<Spawned<J>>>(
    rt: &H,
    pool: &Pool<C>,
    seat: &mut C::Seat,
    state: &mut WorkerState<J>,
) -> Result<Option<Posted<J>>, Halt>
    requires seat { C.sits pool.now.table seat.old }
    requires known { IsKnown (C.has pool.now.table) seat.old }
    ensures seat { C.sits pool.now.table seat.new }
    ensures out { OnOk result (KeepsOut (C.has pool.now.table) seat.old seat.new) }
    ensures same { state.new ≡ record state.old { near = state.new.near; chooser = state.new.chooser } }
    ensures near { IfOk result (λ posted. MatchOption posted (state.new.near.items ≡ state.old.near.items) (λ at. state.old.near.items ≡ at.job.value ∷ state.new.near.items)) }
{
    let Some(job) = state.near.front() else {
        return Ok(None);
    };
    let is_exclusive = job.stack.job().is_exclusive();
    let claim = claim::<H, J, C>(rt, pool, seat, &mut state.chooser, is_exclusive);
    let Ok(Some(claim)) = claim else {
        return Ok(None);
    };
    let Some(job) = state.near.pop_front() else {
        unreachable!()
    };
    let post = post::<H, J, C>(rt, pool, seat, claim, job)?;
    Ok(Some(post))
}

/// Puts the oldest child that waits inside `held` into a free slot, or sets `lacks_memory` if memory is refused.
#[inline(always)]
pub(crate) fn post_oldest<H: Wait, J: PoolJob, C: Contexts<Spawned<J>>>(
    rt: &H,
    pool: &Pool<C>,
    seat: &mut C::Seat,
    state: &mut WorkerState<J>,
    held: &mut Held<Spawned<J>, C::Hold>,
) -> Result<Option<Posted<J>>, Halt>
    requires seat { C.sits pool.now.table seat.old }
    requires out { C.has pool.now.table seat.old (thread_in (λ s. s.tag) held.old ∷ []) }
    ensures seat { C.sits pool.now.table seat.new }
    ensures out { OnOk result (C.has pool.now.table seat.new (thread_in (λ s. s.tag) held.new ∷ [])) }
    ensures parted { IfOk result (λ posted. MatchOption posted (held.new.value ≡ held.old.value) (λ p. PartsOne (C.Hold.id_of held.old.hold) held.old.value held.new.value p.job.value)) }
    ensures hold { held.new.hold ≡ held.old.hold }
    ensures same { state.new ≡ record state.old { cells = state.new.cells; chooser = state.new.chooser; lacks_memory = state.new.lacks_memory } }
{
    if held.value.stack.links.aside() == 0 || !pool.has_room() {
        return Ok(None);
    }
    let is_exclusive = held.value.stack.links.is_oldest_exclusive();
    let claim = claim::<H, J, C>(rt, pool, seat, &mut state.chooser, is_exclusive);
    let Ok(Some(claim)) = claim else {
        return Ok(None);
    };
    let me = held.id();
    let child = held.value.part_oldest(state.alloc, &mut state.cells, me);
    let Some(child) = child else {
        state.lacks_memory = true;
        return match pool.table.give_back(rt, seat, claim) {
            Ok(()) => Ok(None),
            Err(_) => Err(disowned()),
        };
    };
    let post = post::<H, J, C>(rt, pool, seat, claim, child)?;
    Ok(Some(post))
}
