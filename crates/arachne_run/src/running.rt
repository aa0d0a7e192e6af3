//! The function `run`: it starts the workers of a program's run, waits until they have ended, and makes the report.
ghost use Rattle.std.specs.Prelude.{◌≡◌, true, IfErr, IfOk, IsOk, None, Some, Err, length, vec_len};
ghost use Rattle.arachne_program.specs.Program.{source_of};
ghost use Rattle.arachne_program.specs.Checked.{IsChecked};
ghost use Rattle.arachne_policy.specs.Orders.{AreInOrder};
ghost use Rattle.arachne_run.specs.Reports.{IsReportOf};
ghost use Rattle.arachne_run.specs.Setups.{IsFirstOrderFault, IsSetupFault, is_of_setup, refusal_in};
ghost use Rattle.arachne_run.specs.declared.fault.RunFault.{RunFault};

use crate::fault::{RunFault, WorkerFault};
use crate::gate::Gate;
use crate::machine::Machine;
use crate::report::Report;
use crate::setup::Setup;
use crate::workers::work_all;
use arachne_contexts::Contexts;
use arachne_jobs::{JobOf, RunSpares};
use arachne_program::Program;
use arachne_words::WordContexts;
use rand_core::Rng;
use std::alloc::Global;
use std::sync::Wait;
use std::thread::Threads;
use std::time::Clock;

/// Runs a program on one kernel thread for each core, over a table of the type `C`, and returns its report.
///
/// Each core draws from its own chooser (the random generator by which forks choose cores). The setup's orders close
/// cores and open them again while the program runs. Orders that aren't due before the program's end aren't carried
/// out. If the run fails, all of its memory is freed.
pub fn run<
    'p,
    H: Threads + Wait + Clock + Sync,
    T: JobOf<'p> + Send,
    C: Contexts<T> + Sync + Drop,
    R: Rng + Drop + Send,
    G: Gate + Sync,
>(
    rt: &H,
    alloc: Global,
    program: &'p Program,
    setup: Setup,
    choosers: Vec<R>,
    gate: &G,
) -> Result<Report, RunFault>
where
    T::Child: Send,
    T::Ticket: Send,
    T::Spares: Send,
    C::Claim: Send,
    C::Hold: Send,
    C::Seat: Send,
    requires { IsChecked (source_of program.now) }
    ensures report { IfOk result (IsReportOf program.now (length setup.orders.items)) }
    ensures refused { (fault : RunFault) → refusal_in setup (vec_len choosers) ≡ Some fault → result ≡ Err fault }
    ensures of_setup { IfErr result (λ fault. is_of_setup fault ≡ true → IsSetupFault setup.cores setup.quantum setup.slots (vec_len choosers) setup.orders.items fault) }
    ensures in_order { IsOk result → AreInOrder setup.cores setup.orders.items }
    ensures order_refused { refusal_in setup (vec_len choosers) ≡ None → (AreInOrder setup.cores setup.orders.items → ⊥) → IfErr result (IsFirstOrderFault setup.cores setup.orders.items) }
{
    setup.check(choosers.len())?;
    // Reversed, so that `pop` gives core 0 its chooser first.
    let mut choosers = choosers;
    choosers.reverse();
    let (root, receiver) = T::begin(alloc, program, &mut T::Spares::none(alloc))?;
    let (machine, tokens) = Machine::<C, T::Ticket>::new(
        alloc,
        setup.cores as u8,
        setup.slots as u8,
        setup.quantum as u32,
        setup.orders,
        program,
    )?;
    let tokens = work_all::<H, T, C, R, G>(rt, alloc, &machine, gate, root, choosers, tokens);
    let (remains, applied) = machine.close::<H, T>(rt, alloc, tokens)?;
    let Ok((outcome, _)) = receiver.fetch() else {
        return Err(RunFault::Worker(WorkerFault::Foreign));
    };
    let report = Report::of(alloc, outcome, remains, applied)?;
    Ok(report)
}

/// Runs `program` as `run` does, with a table of atomic words.
///
/// The prover can't check a call of `run` that fixes the types of the table and of the jobs at once. So this function
/// fixes the table's type, and its caller that of the jobs.
pub fn run_on_words<
    'p,
    H: Threads + Wait + Clock + Sync,
    T: JobOf<'p> + Send,
    R: Rng + Drop + Send,
    G: Gate + Sync,
>(
    rt: &H,
    alloc: Global,
    program: &'p Program,
    setup: Setup,
    choosers: Vec<R>,
    gate: &G,
) -> Result<Report, RunFault>
where
    T::Child: Send,
    T::Ticket: Send,
    T::Spares: Send,
    requires { IsChecked (source_of program.now) }
    ensures report { IfOk result (IsReportOf program.now (length setup.orders.items)) }
    ensures refused { (fault : RunFault) → refusal_in setup (vec_len choosers) ≡ Some fault → result ≡ Err fault }
    ensures of_setup { IfErr result (λ fault. is_of_setup fault ≡ true → IsSetupFault setup.cores setup.quantum setup.slots (vec_len choosers) setup.orders.items fault) }
    ensures in_order { IsOk result → AreInOrder setup.cores setup.orders.items }
    ensures order_refused { refusal_in setup (vec_len choosers) ≡ None → (AreInOrder setup.cores setup.orders.items → ⊥) → IfErr result (IsFirstOrderFault setup.cores setup.orders.items) }
{
    run::<H, T, WordContexts<T>, R, G>(rt, alloc, program, setup, choosers, gate)
}
