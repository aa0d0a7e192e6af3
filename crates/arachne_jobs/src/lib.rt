//! The jobs of a run. A *job* is a thread of a task program with a thread slot of its own (a *place*).
//!
//! A job puts its outcome into a *join cell*, from which its parent takes it. If no slot is free, a forked child may
//! *wait* in its cell, and a *ticket*, an entry for that child, is put into a queue. A worker that pops the ticket and
//! has a free slot takes the child out of the cell, unless the parent has done so before, to run the child itself. A
//! *tag* is a thread's number in a run. Workers see a job only through the traits in `slice`.
#![tactic(auto)]

mod classes;
mod ends;
mod fault;
mod job;
mod left;
mod openings;
mod parts;
mod room;
mod slice;
mod spares;
mod spill;
mod ties;
mod waiting;
mod wanted;

pub use classes::has_exclusive;
pub use fault::JobFault;
pub use job::Job;
pub use openings::{Due, Openings};
pub use room::{BLOCK, Room, Tags};
pub use slice::{JobOf, RunJob, RunSpares, RunThread, RunTicket, Slice};
pub use spares::JobSpares;
pub use spill::{
    CAPACITY, SpillPass, SpillQueue, make_room, next_ticket, put_ticket, tags_stay_balanced,
};
pub use waiting::Ticket;
pub use wanted::{OutcomeReceiver, OutcomeSender, Wanted};
