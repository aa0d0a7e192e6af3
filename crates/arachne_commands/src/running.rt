//! Runs a program on the cores that the command line asks for.
ghost use Rattle.std.specs.Prelude.{◌≡◌, ◌≤◌, IfOk, IfErr, IsOk};
ghost use Rattle.arachne_core.specs.declared.layout.TheConstants.{CORES};
ghost use Rattle.arachne_lang.specs.Program.{source_of};
ghost use Rattle.arachne_lang.specs.Meaning.{meaning_of};
ghost use Rattle.arachne_lang.specs.Checked.{IsChecked};
ghost use Rattle.arachne_run.specs.Reports.{meaning_in};
ghost use Rattle.arachne_commands.specs.Running.{IsRefusal, IsSetUpBy, MayRun, choosers_of};

use arachne_cli::RunSettings;
use arachne_core::CORES;
use arachne_lang::Program;
use arachne_run::{Job, OpenGate, Report, RunFault, Setup, run_on_words};
use rand_core::SeedableRng;
use rand_xoshiro::Xoshiro256PlusPlus;
use std::alloc::{AllocError, Global};
use std::sync::Wait;
use std::thread::Threads;
use std::time::Clock;

/// Runs `program` with `settings`, on one kernel thread for each core.
pub fn run_program<'p, R: Threads + Wait + Clock + Sync>(
    rt: &R,
    alloc: Global,
    program: &'p Program,
    settings: RunSettings,
) -> Result<Report, RunFault>
    requires { IsChecked (source_of program.now) }
    ensures meaning { IfOk result (λ report. meaning_in report ≡ meaning_of (source_of program.now)) }
    ensures refused { IfErr result (IsRefusal settings) }
    ensures allowed { IsOk result → MayRun settings }
{
    let made = set_up(alloc, settings)?;
    let (setup, choosers) = made;
    run_on_words::<R, Job<'p>, Xoshiro256PlusPlus, OpenGate>(
        rt, alloc, program, setup, choosers, &OpenGate,
    )
}

/// Returns the parameters of a run, and a random generator for each core.
fn set_up(
    alloc: Global,
    settings: RunSettings,
) -> Result<(Setup, Vec<Xoshiro256PlusPlus>), AllocError>
    ensures { IfOk result (λ made. IsSetUpBy settings made.0 made.1.items) }
{
    let cores = settings.cores;
    // With too many cores, the run is refused before it needs a generator.
    let served = if cores > u64::from(CORES) { 0 } else { cores };
    let choosers = choosers(alloc, settings.seed, served)?;
    let setup = Setup {
        cores,
        slots: settings.slots,
        quantum: settings.quantum,
        orders: settings.orders.into_vec(),
    };
    Ok((setup, choosers))
}

/// Returns the cores' random generators, by which forks choose cores. The seed of core k is `seed + k`, modulo 2^64.
fn choosers(alloc: Global, seed: u64, cores: u64) -> Result<Vec<Xoshiro256PlusPlus>, AllocError>
    ensures { IfOk result (λ choosers. choosers.items ≡ choosers_of seed cores) }
{
    let mut choosers = Vec::with_capacity(alloc, cores as usize)?;
    for core in 0..cores {
        choosers.push(Xoshiro256PlusPlus::seed_from_u64(seed.wrapping_add(core)))?;
    }
    Ok(choosers)
}
