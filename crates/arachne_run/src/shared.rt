//! The atomic words by which the workers of a run wake and stop one another, and the first fault of any worker.
ghost use Rattle.std.specs.Prelude.{◌≡◌, IfOk, MatchOption, Some};
ghost use Rattle.arachne_run.specs.Setups.{of_halt};

use crate::fault::WorkerFault;
use arachne_jobs::{CAPACITY, Room};
use arachne_workers::{Halt, SharedWords};
use std::alloc::{AllocError, Global};
use std::marker::Model;
use std::snapshot::Snapshot;
use std::sync::{Mutex, Wait};

#[derive(Drop)]
pub(crate) struct SharedState {
    /// The words that say whether slots are free and children wait.
    pub(crate) room: Room,
    pub(crate) first_fault: Mutex<Option<WorkerFault>>,
    /// The words by which workers sleep, wake one another and stop.
    pub(crate) workers: SharedWords,
}

/// Zero-sized evidence that all workers were stopped because one has failed.
#[derive(Drop)]
pub(crate) struct Failed {
    fault: Snapshot<WorkerFault>,
}

// The model, which contracts see, is the number of cores.
impl Model for SharedState {
    ghost use Rattle.std.specs.Prelude.{ℕ};

    ghost Value = { ℕ };

    ghost view = { λ s. s.workers };
}

impl SharedState {
    pub(crate) fn new(alloc: Global, cores: u8, slots: u8) -> Result<SharedState, AllocError>
        ensures { IfOk result (λ shared. shared ≡ cores) }
    {
        let workers = SharedWords::new(alloc, cores)?;
        Ok(SharedState {
            room: Room::new(cores, slots, CAPACITY as u64),
            first_fault: Mutex::new(None),
            workers,
        })
    }

    /// Stops all workers because of `fault`, and records it if it is the first.
    pub(crate) fn fail<H: Wait>(&self, rt: &H, fault: WorkerFault) -> Failed
        ensures { result.fault.value ≡ fault }
    {
        let mut first = self.first_fault.lock(rt);
        keep_first(&mut first, fault);
        self.workers.stop();
        Failed {
            fault: Snapshot::of(&fault),
        }
    }

    pub(crate) fn halt<H: Wait>(&self, rt: &H, halt: Halt) -> Failed
        ensures { result.fault.value ≡ of_halt halt }
    {
        self.fail(rt, WorkerFault::from(halt))
    }
}

fn keep_first(first: &mut Option<WorkerFault>, fault: WorkerFault)
    ensures { MatchOption first.old (first.new ≡ Some fault) (λ before. first.new ≡ Some before) }
{
    if first.is_none() {
        *first = Some(fault);
    }
}
