//! A scheduler for the kernel thread of a core, over any table and any kind of threads.
//!
//! The *worker* of a core is its kernel thread. It takes a ready thread from one of the core's slots (at most 56), runs
//! it for one or more *slices* (limited numbers of steps), and puts it back or ends it. The *current thread* is the
//! thread that the worker runs now. A `Place` names a slot by core and index. To *post* a thread is to put it into a
//! free slot, ready to run. A *round* is one pass of the worker's loop. A *scan* is the part of a round that visits the
//! slots in which a thread may be ready. A *ticket* is the queue entry of a child that found no free slot. An *order*
//! closes a core, which then takes no more threads, or opens it again.
#![tactic(auto)]

mod dispatch;
mod hints;
mod lag;
mod policy;
mod queue;
mod shared;
mod slice;
mod waiting;
mod wake;
mod worker;

pub use dispatch::{
    Cause, Dispatch, Grip, Halt, SliceEnd, ThreadStop, TicketResult, WorkerEvent, give_all_back,
};
pub use hints::Hints;
pub use policy::{is_drained, keeps_place, may_keep_places, may_take_ticket};
pub use queue::{PostedThread, RunQueue};
pub use shared::SharedWords;
pub use waiting::stand_by;
pub use worker::CoreWorker;
