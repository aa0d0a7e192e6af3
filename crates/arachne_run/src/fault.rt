//! The reasons why a run ends without a report, and conversions from the errors of other crates.
use arachne_jobs::JobFault;
use arachne_policy::OrderFault;
use arachne_sleep::{AskFault, NotHolder};
use arachne_team::TeamFault;
use arachne_workers::Halt;
use std::alloc::AllocError;
use thiserror::Error;

/// The reason why a run has no report. If several workers fail, this is the first fault that was recorded.
#[derive(Clone, Copy, Debug, PartialEq, Eq, Error)]
pub enum RunFault {
    #[error("the number of cores is not 1 to 64")]
    Cores,
    /// The setup's quantum (steps per slice) is 0, or more than 10,000.
    #[error("the quantum is not 1 to 10,000")]
    Quantum,
    #[error("the number of places a core is not 1 to 56")]
    Slots,
    /// The number of choosers (random generators by which forks choose cores) differs from the number of cores.
    #[error("there is not one chooser for each core")]
    Choosers,
    /// This order to close or open a core isn't valid for the run's cores.
    #[error("{0}")]
    Orders(OrderFault),
    /// A worker met this fault, or it was found after all workers had ended.
    #[error("{0}")]
    Worker(WorkerFault),
}

/// A fault that a worker met, or that was found after all workers had ended.
#[derive(Clone, Copy, Debug, PartialEq, Eq, Error)]
pub enum WorkerFault {
    #[error("out of memory")]
    Memory,
    /// A thread got the result of a child that it doesn't wait for, or a result that its program can't have. Or a
    /// thread named a ledger or a lock that doesn't exist.
    #[error("the outcome of another thread")]
    Foreign,
    /// Two threads have the same number. Or a thread asked for a lock that it had, or freed a lock that it didn't have.
    /// Or a lock was not granted to a thread as often as the thread's line in the report says.
    #[error("two threads have one tag, or a lock's grants are not the holds")]
    Threads,
    /// A ledger (shared counter) differs from the sum that the root thread's outcome has for it.
    #[error("a ledger's word is not the root's sum")]
    Ledgers,
    /// The table rejected a slot or a thread that it had given to a worker. Or a worker has not returned its rights to
    /// use the shared objects at the end.
    #[error("the table knows no such token, or not all of a table came back")]
    Token,
    #[error("a kernel thread was refused")]
    KernelThread,
}

impl From<WorkerFault> for RunFault {
    ghost use Rattle.std.specs.Prelude.{◌≡◌};
    ghost use Rattle.arachne_run.specs.declared.fault.RunFault.TheVariants.{Worker};

    ghost from_gives = { λ fault e. e ≡ Worker fault };

    fn from(fault: WorkerFault) -> RunFault {
        RunFault::Worker(fault)
    }
}

/// A worker that has begun meets no `Ledgers` and no `KernelThread`, so it doesn't matter what these become.
impl From<WorkerFault> for Halt {
    ghost use Rattle.std.specs.Prelude.{◌≡◌};
    ghost use Rattle.arachne_run.specs.Setups.{halt_of};

    ghost from_gives = { λ fault halt. halt ≡ halt_of fault };

    fn from(fault: WorkerFault) -> Halt {
        match fault {
            WorkerFault::Memory => Halt::Memory,
            WorkerFault::Foreign => Halt::Foreign,
            WorkerFault::Threads => Halt::Lock,
            WorkerFault::Token | WorkerFault::Ledgers | WorkerFault::KernelThread => Halt::Token,
        }
    }
}

impl From<Halt> for WorkerFault {
    ghost use Rattle.std.specs.Prelude.{◌≡◌};
    ghost use Rattle.arachne_run.specs.Setups.{of_halt};

    ghost from_gives = { λ halt fault. fault ≡ of_halt halt };

    fn from(halt: Halt) -> WorkerFault {
        match halt {
            Halt::Memory => WorkerFault::Memory,
            Halt::Foreign => WorkerFault::Foreign,
            Halt::Lock => WorkerFault::Threads,
            Halt::Token => WorkerFault::Token,
        }
    }
}

impl From<JobFault> for WorkerFault {
    ghost use Rattle.std.specs.Prelude.{◌≡◌};
    ghost use Rattle.arachne_run.specs.Setups.{as_worker_fault};

    ghost from_gives = { λ fault e. e ≡ as_worker_fault fault };

    fn from(fault: JobFault) -> WorkerFault {
        match fault {
            JobFault::Memory => WorkerFault::Memory,
            JobFault::Foreign => WorkerFault::Foreign,
        }
    }
}

impl From<TeamFault> for WorkerFault {
    ghost use Rattle.std.specs.Prelude.{◌≡◌};
    ghost use Rattle.arachne_run.specs.Setups.{of_team};

    ghost from_gives = { λ fault e. e ≡ of_team fault };

    fn from(fault: TeamFault) -> WorkerFault {
        match fault {
            TeamFault::Memory => WorkerFault::Memory,
            TeamFault::KernelThread => WorkerFault::KernelThread,
        }
    }
}

impl From<AskFault> for WorkerFault {
    ghost use Rattle.std.specs.Prelude.{◌≡◌};
    ghost use Rattle.arachne_run.specs.Setups.{of_ask};

    ghost from_gives = { λ fault e. e ≡ of_ask fault };

    fn from(fault: AskFault) -> WorkerFault {
        match fault {
            AskFault::AlreadyIn => WorkerFault::Threads,
            AskFault::Memory => WorkerFault::Memory,
        }
    }
}

impl From<NotHolder> for WorkerFault {
    ghost use Rattle.std.specs.Prelude.{◌≡◌};
    ghost use Rattle.arachne_run.specs.declared.fault.WorkerFault.TheVariants.{Threads};

    ghost from_gives = { λ _ e. e ≡ Threads };

    fn from(_: NotHolder) -> WorkerFault {
        WorkerFault::Threads
    }
}

impl From<AllocError> for WorkerFault {
    ghost use Rattle.std.specs.Prelude.{◌≡◌};
    ghost use Rattle.arachne_run.specs.declared.fault.WorkerFault.TheVariants.{Memory};

    ghost from_gives = { λ _ e. e ≡ Memory };

    fn from(_: AllocError) -> WorkerFault {
        WorkerFault::Memory
    }
}

impl From<AllocError> for RunFault {
    ghost use Rattle.std.specs.Prelude.{◌≡◌};
    ghost use Rattle.arachne_run.specs.declared.fault.RunFault.TheVariants.{Worker};
    ghost use Rattle.arachne_run.specs.declared.fault.WorkerFault.TheVariants.{Memory};

    ghost from_gives = { λ _ e. e ≡ Worker Memory };

    fn from(_: AllocError) -> RunFault {
        RunFault::Worker(WorkerFault::Memory)
    }
}
