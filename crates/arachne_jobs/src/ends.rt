//! The ends of join cells that a job owns. A join cell carries the outcome of one thread to its parent.
use crate::left::LeftInCell;
use crate::waiting::WaitCell;
use crate::wanted::{OutcomeReceiver, OutcomeSender, Wanted};
use arachne_join::SendingEnd;

/// A job's end of a join cell, which carries one thread's outcome (result) to its parent.
#[derive(Drop)]
pub enum End {
    /// The end into which the job puts its own outcome (result).
    Leaves(OutcomeSender),
    /// The end from which the job takes a child's outcome (result).
    Awaits(OutcomeReceiver),
    /// The end is in `Parts::waits`, since the cell's thread was queued for a thread slot.
    Waits,
}

/// In the child's job, `end` is the sending end of the join cell in which the child waits, or has waited, for a slot.
/// In the parent's job, it is `None`.
#[derive(Drop)]
pub struct WaitEnd<'p> {
    pub(crate) cell: WaitCell<'p>,
    pub(crate) end: Option<SendingEnd<LeftInCell<'p>, Wanted>>,
}
