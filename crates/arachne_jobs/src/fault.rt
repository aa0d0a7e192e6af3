//! The reasons why a job of a run fails, and conversions from the errors of `arachne_machine`.
use arachne_machine::{DetachedOutcome, NotJoined, NotPlaced};
use std::alloc::AllocError;
use thiserror::Error;

/// The reason why a call on a job failed.
#[derive(Clone, Copy, Debug, PartialEq, Eq, Error)]
pub enum JobFault {
    #[error("out of memory")]
    Memory,
    /// The outcome (result) is not that of the child that the job awaits, or the call doesn't fit its pending request.
    #[error("the outcome of another thread")]
    Foreign,
}

impl From<AllocError> for JobFault {
    ghost use Rattle.std.specs.Prelude.{◌≡◌};
    ghost use Rattle.arachne_jobs.specs.declared.fault.JobFault.TheVariants.{Memory};

    ghost from_gives = { λ _ e. e ≡ Memory };

    fn from(_: AllocError) -> JobFault {
        JobFault::Memory
    }
}

impl From<NotJoined<DetachedOutcome>> for JobFault {
    ghost use Rattle.std.specs.Prelude.{◌≡◌};
    ghost use Rattle.arachne_jobs.specs.Faults.{of_join};

    ghost from_gives = { λ fault e. e ≡ of_join fault };

    fn from(fault: NotJoined<DetachedOutcome>) -> JobFault {
        match fault {
            NotJoined::Foreign(_) => JobFault::Foreign,
            NotJoined::Memory(_) => JobFault::Memory,
        }
    }
}

impl<'p> From<NotPlaced<'p>> for JobFault {
    ghost use Rattle.std.specs.Prelude.{◌≡◌};
    ghost use Rattle.arachne_jobs.specs.Faults.{of_place};

    ghost from_gives = { λ fault e. e ≡ of_place fault };

    fn from(fault: NotPlaced<'p>) -> JobFault {
        match fault {
            NotPlaced::Foreign(_) => JobFault::Foreign,
            NotPlaced::Memory(_) => JobFault::Memory,
        }
    }
}
