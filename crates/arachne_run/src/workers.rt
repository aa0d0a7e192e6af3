//! Starts one kernel thread for each core of a run, and gives each of them its rights to use the shared objects.
ghost use Rattle.std.specs.Prelude.{◌≡◌, ◌<◌, None, IfErr, IfOk, IfSome, IsErr, IsNone};
ghost use Rattle.arachne_run.specs.Choosers.{IsLastOf};
ghost use Rattle.arachne_run.specs.Tokens.{AreIdle, IsSetUp, ground_of};
ghost use Rattle.arachne_run.specs.declared.fault.WorkerFault.TheVariants.{KernelThread, Token};

use crate::access::Access;
use crate::fault::WorkerFault;
use crate::gate::Gate;
use crate::machine::{Machine, Tokens};
use crate::seat::RunSeat;
use crate::shared::Failed;
use arachne_arbiter::Backoff;
use arachne_contexts::{Contexts, Tagged};
use arachne_jobs::RunJob;
use arachne_team::{Team, TeamFault, work_together};
use arachne_workers::{CoreWorker, RunQueue};
use rand_core::Rng;
use std::alloc::Global;
use std::sync::Wait;
use std::thread::Threads;
use std::time::Clock;

/// The team of a run's workers, one for each core.
#[derive(Drop)]
struct Workers<'a, C, K: Tagged + Drop, G> {
    alloc: Global,
    machine: &'a Machine<C, K>,
    gate: &'a G,
}

/// The values that a worker gets at its start and returns at its end.
#[derive(Drop)]
struct WorkerShare<S, T: RunJob, R> {
    tokens: Tokens<S, T::Ticket>,
    /// The root thread, if it begins on this worker's core.
    root: Option<T>,
    chooser: Option<R>,
    /// The random generators of the workers whose shares are split off from this one, the next worker's last.
    choosers: Vec<R>,
}

impl<S, T: RunJob, R> WorkerShare<S, T, R> {
    fn without_root(tokens: Tokens<S, T::Ticket>, chooser: Option<R>, choosers: Vec<R>) -> Self
        ensures { result ≡ record { tokens = tokens; root = None; chooser = chooser; choosers = choosers } }
    {
        WorkerShare {
            tokens,
            root: None,
            chooser,
            choosers,
        }
    }
}

impl<'a, T: RunJob, C: Contexts<T>, R: Rng + Drop, G: Gate> Team<WorkerShare<C::Seat, T, R>>
    for Workers<'a, C, T::Ticket, G> {
    ghost has = { λ workers share. AreIdle C.sits C.idle workers.machine.now share.tokens × IsSetUp C.core_count C.slot_count workers.machine.now };

    ghost size = { λ workers. workers.machine.now.cores };

    fn size(&self) -> u8 {
        self.machine.cores
    }

    /// Splits off the share of the next worker, with the next chooser. Returns `None` for it if memory is refused.
    fn part_off<H: Wait>(
        &self,
        rt: &H,
        share: WorkerShare<C::Seat, T, R>,
    ) -> (
        WorkerShare<C::Seat, T, R>,
        Option<WorkerShare<C::Seat, T, R>>,
    )
        requires { AreIdle C.sits C.idle self.now.machine.now share.tokens × IsSetUp C.core_count C.slot_count self.now.machine.now }
        ensures own { AreIdle C.sits C.idle self.now.machine.now result.0.tokens × IsSetUp C.core_count C.slot_count self.now.machine.now }
        ensures other { IfSome result.1 (λ theirs. AreIdle C.sits C.idle self.now.machine.now theirs.tokens × IsSetUp C.core_count C.slot_count self.now.machine.now) }
        ensures orders { (result.0.tokens.arbiter ≡ share.tokens.arbiter) × IfSome result.1 (λ theirs. theirs.tokens.arbiter ≡ None) }
        ensures root { (result.0.root ≡ share.root) × IfSome result.1 (λ theirs. theirs.root ≡ None) }
        ensures choosers { (result.0.chooser ≡ share.chooser) × IfSome result.1 (λ theirs. IsLastOf theirs.chooser share.choosers.items result.0.choosers.items) }
    {
        let mut choosers = share.choosers;
        match share.tokens.split::<H, C>(rt, self.alloc, self.machine) {
            Ok((tokens, others)) => {
                let (chooser, none) = (choosers.pop(), Vec::new(self.alloc));
                let theirs = WorkerShare::without_root(others, chooser, none);
                (
                    WorkerShare {
                        tokens,
                        choosers,
                        ..share
                    },
                    Some(theirs),
                )
            }
            Err(tokens) => (
                WorkerShare {
                    tokens,
                    choosers,
                    ..share
                },
                None,
            ),
        }
    }

    /// Runs the worker of core `number` until all workers stop, beginning with the root thread if this worker has it.
    ///
    /// After a fault, stops all workers and returns no share, since this worker may still hold a thread or slots.
    fn work<H: Wait + Clock>(
        &self,
        rt: &H,
        number: u8,
        share: WorkerShare<C::Seat, T, R>,
    ) -> Option<WorkerShare<C::Seat, T, R>> {
        let (alloc, machine, gate) = (self.alloc, self.machine, self.gate);
        let (chooser, tokens, root) = (share.chooser, share.tokens, share.root);
        let mut worker = open_worker::<H, T, C, R, G>(
            rt, alloc, machine, gate, number, chooser, tokens, root,
        ).ok()?;
        if let Err(halt) = worker.work() {
            machine.shared.halt(rt, halt);
            return None;
        }
        let tokens = into_tokens(machine, worker.dispatch).ok()?;
        Some(WorkerShare::without_root(tokens, None, share.choosers))
    }

    fn join<H: Wait>(
        &self,
        rt: &H,
        share: WorkerShare<C::Seat, T, R>,
        other: WorkerShare<C::Seat, T, R>,
    ) -> Option<WorkerShare<C::Seat, T, R>>
        requires own { AreIdle C.sits C.idle self.now.machine.now share.tokens × IsSetUp C.core_count C.slot_count self.now.machine.now }
        requires other { AreIdle C.sits C.idle self.now.machine.now other.tokens × IsSetUp C.core_count C.slot_count self.now.machine.now }
        ensures idle { IfSome result (λ both. AreIdle C.sits C.idle self.now.machine.now both.tokens × IsSetUp C.core_count C.slot_count self.now.machine.now) }
        ensures orders { IfSome result (λ both. both.tokens.arbiter ≡ share.tokens.arbiter) }
    {
        let tokens = share.tokens.join::<H, C>(rt, self.machine, other.tokens);
        Some(WorkerShare::without_root(tokens, None, Vec::new(self.alloc)))
    }

    fn fail<H: Wait>(&self, rt: &H, fault: TeamFault) {
        self.machine.shared.fail(rt, WorkerFault::from(fault));
    }
}

/// Runs a worker on each core. Returns the tokens (rights) of all workers joined, or `None` if any are missing.
pub(crate) fn work_all<
    H: Threads + Wait + Clock + Sync,
    T: RunJob + Send,
    C: Contexts<T> + Sync,
    R: Rng + Drop + Send,
    G: Gate + Sync,
>(
    rt: &H,
    alloc: Global,
    machine: &Machine<C, T::Ticket>,
    gate: &G,
    root: T,
    choosers: Vec<R>,
    tokens: Tokens<C::Seat, T::Ticket>,
) -> Option<Tokens<C::Seat, T::Ticket>>
where
    T::Child: Send,
    T::Ticket: Send,
    T::Spares: Send,
    C::Claim: Send,
    C::Hold: Send,
    C::Seat: Send,
    requires tokens { AreIdle C.sits C.idle machine.now tokens }
    requires set_up { IsSetUp C.core_count C.slot_count machine.now }
    ensures { IfSome result (AreIdle C.sits C.idle machine.now) }
{
    let mut choosers = choosers;
    let share = WorkerShare {
        tokens,
        root: Some(root),
        chooser: choosers.pop(),
        choosers,
    };
    let workers = Workers {
        alloc,
        machine,
        gate,
    };
    let WorkerShare { tokens, .. } = work_together(rt, alloc, &workers, share)?;
    Some(tokens)
}

/// Makes the worker of a core, and posts the root thread on that core if this worker has it.
///
/// If the root thread can't be posted, or there is no chooser, stops all workers. `run` has checked that there are as
/// many choosers as cores.
fn open_worker<'a, H: Wait, T: RunJob, C: Contexts<T>, R: Rng + Drop, G: Gate>(
    rt: &'a H,
    alloc: Global,
    machine: &'a Machine<C, T::Ticket>,
    gate: &'a G,
    core: u8,
    chooser: Option<R>,
    tokens: Tokens<C::Seat, T::Ticket>,
    root: Option<T>,
) -> Result<CoreWorker<'a, H, RunSeat<'a, H, T, C, R, G>>, Failed>
    requires tokens { AreIdle C.sits C.idle machine.now tokens }
    requires set_up { IsSetUp C.core_count C.slot_count machine.now }
    requires core { core < machine.now.cores }
    ensures core { IfOk result (λ worker. (worker.core ≡ core) × (worker.slots ≡ machine.now.slots) × (worker.slices ≡ 0)) }
    ensures helps { IfOk result (λ worker. worker.helps ≡ machine.now.may_pull) }
    ensures dispatch { IfOk result (λ worker. worker.dispatch ≡ ground_of machine.now) }
    ensures rootless { IfOk result (λ worker. root ≡ None → worker.queue.ready ≡ 0) }
    ensures no_chooser { IsNone chooser → IsErr result × IfErr result (λ failed. failed.fault.value ≡ KernelThread) }
{
    let Some(chooser) = chooser else {
        return Err(machine.shared.fail(rt, WorkerFault::KernelThread));
    };
    let mut dispatch = RunSeat::open(rt, alloc, machine, gate, core, chooser, tokens);
    let root = match dispatch.post_root(root) {
        Ok(root) => root,
        Err(fault) => return Err(machine.shared.fail(rt, fault)),
    };
    Ok(CoreWorker {
        rt,
        shared: &machine.shared.workers,
        core,
        slots: machine.slots,
        helps: machine.may_pull,
        queue: RunQueue::new(alloc, root),
        slices: 0,
        backoff: Backoff::new(),
        dispatch,
    })
}

/// Returns an ended worker's tokens (rights), or an error if it still holds a thread or slots.
fn into_tokens<'a, H: Wait, T: RunJob, C: Contexts<T>, R: Rng + Drop, G: Gate>(
    machine: &Machine<C, T::Ticket>,
    dispatch: RunSeat<'a, H, T, C, R, G>,
) -> Result<Tokens<C::Seat, T::Ticket>, Failed>
    requires dispatch { dispatch ≡ ground_of machine.now }
    ensures idle { IfOk result (AreIdle C.sits C.idle machine.now) }
    ensures fault { IfErr result (λ failed. failed.fault.value ≡ Token) }
{
    let RunSeat {
        rt,
        is_broken,
        seat,
        held,
        spare,
        kept,
        pass,
        arbiter,
        access,
        ..
    } = dispatch;
    let Access { holdings, .. } = access;
    if is_broken || held.is_some() || !kept.is_empty() {
        return Err(machine.shared.fail(rt, WorkerFault::Token));
    }
    Ok(Tokens {
        seat: machine.table.join_seats(rt, seat, spare),
        pass,
        holdings,
        arbiter,
    })
}
