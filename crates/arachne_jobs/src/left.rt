//! The contents of the join cell of a child that waits for a thread slot.
use crate::wanted::Wanted;
use arachne_core::ThreadId;
use arachne_join::Fits;
use arachne_machine::{DetachedOutcome, Thread};

/// A child that waits for a thread slot, and its parent's id.
#[derive(Drop)]
pub struct Waiting<'p> {
    pub(crate) thread: Thread<'p>,
    pub(crate) parent: ThreadId,
}

/// The contents of a join cell: a child that waits for a thread slot, or its outcome (result) once it has ended.
#[derive(Drop)]
pub enum LeftInCell<'p> {
    Child(Waiting<'p>),
    Outcome(DetachedOutcome),
}

impl<'p> Fits<Wanted> for LeftInCell<'p> {
    ghost use Rattle.arachne_jobs.specs.Cells.{IsLeftFor, MayWait};

    ghost fits = { IsLeftFor };

    ghost may_wait = { MayWait };
}

/// The answer to a parent that waits for a child.
#[derive(Drop)]
pub enum Found<'p> {
    Outcome(DetachedOutcome),
    /// The child still waited for a thread slot, and is no longer in the cell.
    Child(Thread<'p>),
    /// The child has a slot of its own, or will get one from the worker that has taken it.
    Nothing,
}
