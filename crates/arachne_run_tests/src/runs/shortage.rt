//! Tests of runs in a process whose memory is used up. Each run has a little more memory than the one before, and ends
//! with the fault that memory was refused, until a run has a report.
ghost use Rattle.arachne_lang.specs.Checked.{IsChecked};
ghost use Rattle.arachne_lang.specs.Program.{source_of};

use super::Form;
use super::places::CHAIN;
use super::rows::{Machine, ROW, Row, program_of, run_row};
use crate::choosers::SPREAD;
use crate::gates::Watch;
use arachne_lang::Program;
use arachne_policy::OrderKind::{Grant, Release};
use arachne_run::{RunFault, WorkerFault};
use arachne_shortage::Hoard;
use std::alloc::Global;
use std::sync::Wait;
use std::test::Fail;
use std::thread::Threads;
use std::time::Clock;

const RUNS: u64 = 2_000;

/// The most runs of a test case on several cores. Once memory was used up, the C library gives no memory to a new
/// kernel thread, even after memory was freed, so that no run needs to have a report.
const RUNS_ON_CORES: u64 = 200;

const BYTES: usize = 400;

/// If each run of this number left memory behind, the last ones would have none.
const REPEATED: usize = 2_000;

const SLACK: usize = 200_000;

const FORK: Row = Row {
    expr: "(fork n (num 2) (num 3) (sub (var 0) (var 1)))",
    machines: (&[4], &[100]),
    draws: SPREAD,
    ..ROW
};

const HOLDS: Row = Row {
    ledgers: 1,
    locks: 1,
    expr: "(sweep add 1 (num 0) (num 8) (hold 0 (tally 0 (num 5) (num 1))))",
    ..FORK
};

const ON_FOUR: &[Row] = &[
    FORK,
    HOLDS,
    Row {
        expr: "(sweep add 2 (num 0) (num 8) (var 0))",
        machines: (&[4], &[1]),
        orders: &[(0, Release, 1), (1, Release, 2), (2, Grant, 1)],
        ..FORK
    },
    Row {
        forks: 60,
        expr: "(num 1)",
        ..FORK
    },
];

const ON_ONE: &[Row] = &[
    Row {
        machines: (&[1], &[100]),
        ..FORK
    },
    Row {
        machines: (&[1], &[100]),
        ..HOLDS
    },
    // In slices of one step, 50 threads wait for one lock, whose history grows by more than `BYTES` bytes at once.
    Row {
        locks: 1,
        expr: "(sweep add 1 (num 0) (num 50) (hold 0 (num 1)))",
        machines: (&[1], &[1]),
        draws: SPREAD,
        ..ROW
    },
    // Some of the threads wait for a slot.
    Row {
        expr: "(sweep add 1 (num 0) (num 200) (var 0))",
        machines: (&[1], &[100]),
        draws: SPREAD,
        ..ROW
    },
    Row {
        machines: (&[1], &[100]),
        draws: SPREAD,
        ..CHAIN
    },
];

type Tried = Result<(), RunFault>;

fn tried<R: Threads + Wait + Clock + Sync>(
    rt: &R,
    alloc: Global,
    row: &Row,
    program: &Program,
    machine: Machine,
) -> Tried
    requires { IsChecked (source_of program.now) }
{
    let watch = Watch::new(row.watching);
    run_row(rt, alloc, row, program, machine, &watch)?;
    Ok(())
}

fn is_want(tried: Tried, cores: u64) -> bool {
    match tried {
        Err(RunFault::Worker(WorkerFault::Memory)) => true,
        Err(RunFault::Worker(WorkerFault::KernelThread)) => cores > 1,
        _ => false,
    }
}

/// Runs a test case's program with no free memory, and then again and again, each time with `BYTES` bytes more.
///
/// Stops at the result `last`, or at any other than the fault that memory was refused. A run with all memory must still
/// have a report.
fn row_ends<R: Threads + Wait + Clock + Sync>(
    rt: &R,
    alloc: Global,
    row: &Row,
    machine: Machine,
    last: Tried,
) -> Result<(), Fail> {
    let program = program_of(alloc, row)?;
    let (_, cores, _) = machine;
    let before = last.is_err() || tried(rt, alloc, row, &program, machine).is_ok();
    let mut hoard = Hoard::take(alloc)?;
    let most = if cores > 1 { RUNS_ON_CORES } else { RUNS };
    let (mut runs, mut came) = (0, Ok(()));
    for nth in 0..most {
        runs = nth;
        came = tried(rt, alloc, row, &program, machine);
        if came == last || !is_want(came, cores) {
            break;
        }
        hoard.give_back(BYTES);
    }
    hoard.give_back(SLACK);
    let mut again = true;
    let repeated = if cores > 1 { 0 } else { REPEATED };
    for _ in 0..repeated {
        again = again && tried(rt, alloc, row, &program, machine).is_ok();
    }
    drop(hoard);
    let behind = tried(rt, alloc, row, &program, machine).is_ok();
    let is_over = came == last || last.is_ok() && cores > 1 && is_want(came, cores);
    if before && is_over && runs > 10 && again && behind {
        return Ok(());
    }
    Err(Fail::new(format_args!("{machine:?}: {before} {runs} {came:?} {again} {behind}")))
}

fn rows_end<R: Threads + Wait + Clock + Sync>(
    rt: &R,
    alloc: Global,
    rows: &[Row],
    form: Form,
) -> Result<(), Fail> {
    for row in rows {
        for &cores in row.machines.0 {
            for &quantum in row.machines.1 {
                row_ends(rt, alloc, row, (form, cores, quantum), Ok(()))?;
            }
        }
    }
    Ok(())
}

#[test]
fn each_growth_is_refused_on_four_cores(rt: HostRuntime) -> Result<(), Fail> {
    rows_end(&rt, rt.alloc(), ON_FOUR, Form::Words)
}

#[test]
fn each_growth_is_refused_on_words(rt: HostRuntime) -> Result<(), Fail> {
    rows_end(&rt, rt.alloc(), ON_ONE, Form::Words)
}

#[test]
fn each_growth_is_refused_behind_a_lock(rt: HostRuntime) -> Result<(), Fail> {
    rows_end(&rt, rt.alloc(), ON_ONE, Form::Locked)
}

#[test]
fn kernel_threads_are_refused(rt: HostRuntime) -> Result<(), Fail> {
    let last = Err(RunFault::Worker(WorkerFault::KernelThread));
    row_ends(&rt, rt.alloc(), &FORK, (Form::Words, 4, 100), last)
}
