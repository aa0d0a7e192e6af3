//! The key of a join cell, which exists only for contracts: the thread whose outcome the cell carries.
ghost use Rattle.std.specs.Prelude.{◌≡◌};
ghost use Rattle.arachne_jobs.specs.Cells.{IsFor};
ghost use Rattle.arachne_jobs.specs.Threads.{tag_of};

use arachne_core::ThreadId;
use arachne_join::{Fits, Receiver, Sender};
use arachne_machine::{DetachedOutcome, Thread};
use arachne_program::{Name, Program};
use std::snapshot::Snapshot;

/// The thread whose outcome (result) a join cell carries to its parent. Exists only for contracts, and has size 0.
#[derive(Drop)]
pub struct Wanted {
    pub program: Snapshot<Program>,
    pub name: Snapshot<Name>,
    /// The tag (number in the run) with which the thread begins.
    pub tag: Snapshot<u64>,
    /// The id of the thread's parent, or `None` for the root.
    pub parent: Snapshot<Option<ThreadId>>,
}

impl Wanted {
    #[inline(always)]
    pub(crate) fn of(thread: &Thread<'_>, parent: Option<ThreadId>) -> Wanted
        ensures thread { IsFor thread.now result }
        ensures tag { result.tag.value ≡ tag_of thread.now }
        ensures parent { result.parent.value ≡ parent }
    {
        Wanted {
            program: Snapshot::of(thread.program()),
            name: Snapshot::of(thread.name()),
            tag: Snapshot::of(&thread.tag()),
            parent: Snapshot::of(&parent),
        }
    }
}

impl Fits<Wanted> for DetachedOutcome {
    ghost use Rattle.arachne_jobs.specs.Cells.{IsWanted};

    ghost fits = { IsWanted };
}

pub type OutcomeSender = Sender<DetachedOutcome, Wanted>;

pub type OutcomeReceiver = Receiver<DetachedOutcome, Wanted>;
