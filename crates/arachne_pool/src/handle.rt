//! The handle by which a caller gets the result of a job that it has spawned.
ghost use Rattle.std.specs.Prelude.{◌≡◌, IfErr, IfOk, IfSome};

use crate::job::PoolJob;
use arachne_join::{Fits, Receiver, Sender, SpareCells};
use std::marker::Model;
use std::snapshot::Snapshot;

/// The result of a job that has ended.
#[derive(Drop)]
pub struct JobOutcome<J: PoolJob> {
    pub output: J::Output,
}

/// The key of a cell into which a job's result is put: the job as it was spawned. A result fits the cell only if it is
/// one of that job, which only proofs check. The key takes no memory.
#[derive(Drop)]
pub struct WantedResult<J> {
    pub job: Snapshot<J>,
}

impl<J: PoolJob> Fits<WantedResult<J>> for JobOutcome<J> {
    ghost fits = { λ wanted outcome. J.is_result wanted.job.value outcome.output };
}

pub(crate) type ResultSender<J> = Sender<JobOutcome<J>, WantedResult<J>>;

pub(crate) type ResultReceiver<J> = Receiver<JobOutcome<J>, WantedResult<J>>;

/// Empty cells that a worker reuses for the results of later jobs.
pub(crate) type Cells<J> = SpareCells<JobOutcome<J>, WantedResult<J>>;

/// Sends the result of a job. There is no sender for a job whose parent has ended without joining it.
#[inline(always)]
pub(crate) fn leave_at<J: PoolJob>(sender: Option<ResultSender<J>>, output: J::Output)
    requires { IfSome sender (λ sender. J.is_result sender.key.job.value output) }
{
    if let Some(sender) = sender {
        sender.leave(JobOutcome { output });
    }
}

/// A handle, which gives the result of one spawned job, once. In contracts, a handle is the job as it was spawned.
#[derive(Drop)]
pub struct Handle<J: PoolJob> {
    pub(crate) receiver: ResultReceiver<J>,
}

impl<J: PoolJob> Model for Handle<J> {
    ghost Value = { J };

    ghost view = { λ h. h.receiver.opening.key.job.value };
}

impl<J: PoolJob> Handle<J> {
    /// Returns the job's result if the job has ended, and the handle otherwise. Never blocks, and allocates no memory.
    pub fn poll(self) -> Result<J::Output, Handle<J>>
        ensures output { IfOk result (J.is_result self) }
        ensures same { IfErr result (λ back. back ≡ self) }
    {
        match self.receiver.fetch() {
            Ok((outcome, _)) => Ok(outcome.output),
            Err(receiver) => Err(Handle { receiver }),
        }
    }
}
