//! Runs programs over each type of context table.
ghost use Rattle.std.specs.Prelude.{◌≡◌, IfOk};
ghost use Rattle.arachne_lang.specs.Program.{source_of};
ghost use Rattle.arachne_lang.specs.Checked.{IsChecked};

use crate::altered::Altered;
use crate::choosers::Progression;
use crate::gates::Watch;
use arachne_jobs::JobOf;
use arachne_lang::Program;
use arachne_run::{Gate, Job, Report, RunFault, Setup, run};
use rand_core::Rng;
use std::alloc::Global;
use std::sync::Wait;
use std::thread::Threads;
use std::time::Clock;

mod cores;
mod facts;
mod faults;
mod heeded;
mod judged;
mod locks;
mod orders;
mod places;
mod refused;
mod rows;
mod shortage;
mod slices;
mod waiting;

#[derive(Clone, Copy, Debug)]
enum Form {
    /// `Altered`: a table behind a lock that, for some numbers of cores and slots, gives results of its own to some
    /// calls.
    Locked,
    Words,
}

fn run_on_words<'p, R: Threads + Wait + Clock + Sync>(
    rt: &R,
    alloc: Global,
    program: &'p Program,
    setup: Setup,
    choosers: Vec<Progression>,
    gate: &Watch,
) -> Result<Report, RunFault>
    requires { IsChecked (source_of program.now) }
{
    arachne_run::run_on_words::<R, Job<'p>, Progression, Watch>(
        rt, alloc, program, setup, choosers, gate,
    )
}

/// The caller chooses `T`, the type of the jobs: the prover can't check a function that fixes this type and the
/// table's.
fn run_altered<
    'p,
    H: Threads + Wait + Clock + Sync,
    T: JobOf<'p> + Send,
    R: Rng + Drop + Send,
    G: Gate + Sync,
>(
    rt: &H,
    alloc: Global,
    program: &'p Program,
    setup: Setup,
    choosers: Vec<R>,
    gate: &G,
) -> Result<Report, RunFault>
where
    T::Child: Send,
    T::Ticket: Send,
    T::Spares: Send,
    requires { IsChecked (source_of program.now) }
{
    run::<H, T, Altered<T>, R, G>(rt, alloc, program, setup, choosers, gate)
}

fn run_on_lock<'p, R: Threads + Wait + Clock + Sync>(
    rt: &R,
    alloc: Global,
    program: &'p Program,
    setup: Setup,
    choosers: Vec<Progression>,
    gate: &Watch,
) -> Result<Report, RunFault>
    requires { IsChecked (source_of program.now) }
{
    run_altered::<R, Job<'p>, Progression, Watch>(rt, alloc, program, setup, choosers, gate)
}
