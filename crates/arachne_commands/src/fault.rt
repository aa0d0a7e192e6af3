//! The reasons why `arachne` fails, and the error message for each.
ghost use Rattle.std.specs.Prelude.{◌≡◌};
ghost use Rattle.arachne_cli.specs.declared.fault.Fault.TheVariants.{Memory};
ghost use Rattle.arachne_commands.specs.Fault.{line_of, run_number, run_place};
ghost use Rattle.arachne_commands.specs.declared.fault.Fault.TheVariants.{Cli, InRun};

use arachne_cli::{Fault as CliFault, FaultLine, Place};
use arachne_policy::{OrderFault, OrderFaultKind};
use arachne_run::{RunFault, WorkerFault};
use std::alloc::AllocError;

/// The reason why `arachne` failed.
#[derive(Clone, Copy, Debug)]
pub enum Fault {
    /// A fault that `eval`, `check` or `policy` can have too.
    Cli(CliFault),
    /// The command `run` refused to start, or its run ended without a report.
    InRun(RunFault),
}

impl From<CliFault> for Fault {
    ghost from_gives = { λ inner fault. fault ≡ Cli inner };

    fn from(fault: CliFault) -> Fault {
        Fault::Cli(fault)
    }
}

impl From<RunFault> for Fault {
    ghost from_gives = { λ inner fault. fault ≡ InRun inner };

    fn from(fault: RunFault) -> Fault {
        Fault::InRun(fault)
    }
}

impl From<AllocError> for Fault {
    ghost from_gives = { λ _ fault. fault ≡ Cli Memory };

    fn from(_error: AllocError) -> Fault {
        Fault::Cli(CliFault::Memory)
    }
}

impl Fault {
    /// Returns the error message for this fault.
    pub fn line(self) -> FaultLine
        ensures { result ≡ line_of self }
    {
        match self {
            Fault::Cli(fault) => fault.line(),
            Fault::InRun(fault) => FaultLine {
                number: run_number(fault),
                place: run_place(fault),
            },
        }
    }
}

/// Returns the number that stands for `fault` in the error message.
fn run_number(fault: RunFault) -> u8
    ensures { result ≡ run_number fault }
{
    match fault {
        RunFault::Cores => 20,
        RunFault::Quantum => 21,
        RunFault::Choosers => 24,
        RunFault::Slots => 27,
        RunFault::Orders(OrderFault { kind, .. }) => match kind {
            OrderFaultKind::NoSuchCore => 22,
            OrderFaultKind::ReleasesCoreZero => 23,
            OrderFaultKind::AfterFalls => 25,
        },
        RunFault::Worker(WorkerFault::Memory) => 30,
        RunFault::Worker(WorkerFault::Foreign) => 31,
        RunFault::Worker(WorkerFault::Threads) => 32,
        RunFault::Worker(WorkerFault::Ledgers) => 33,
        RunFault::Worker(WorkerFault::Token) => 34,
        RunFault::Worker(WorkerFault::KernelThread) => 35,
    }
}

fn run_place(fault: RunFault) -> Place
    ensures { result ≡ run_place fault }
{
    match fault {
        RunFault::Orders(OrderFault { index, .. }) => Place::Order(index),
        _ => Place::Nowhere,
    }
}
