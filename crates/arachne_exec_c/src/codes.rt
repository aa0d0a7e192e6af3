//! The codes that the C functions return.

/// The call succeeded.
pub(crate) const DONE: u32 = 0;

/// The call was refused, and has changed nothing. The comment of each call lists the possible reasons.
pub(crate) const REFUSED: u32 = 1;

/// The allocator refused memory. Nothing has changed.
pub(crate) const NO_MEMORY: u32 = 2;

/// Another thread was in a call on the same lock. Nothing has changed, and the call may be made again.
pub(crate) const CONTENDED: u32 = 3;

/// Another thread was first: it has claimed the slot, has changed the job's state, or has the worker number. The call
/// has changed nothing, and may be made again, or with another worker number.
pub(crate) const LOST: u32 = 4;

/// The task `who` holds the lock now.
pub(crate) const GRANTED: u32 = 5;

/// The task `who` waits for the lock, and gets it after all tasks before it in the queue.
pub(crate) const QUEUED: u32 = 6;

/// The task `who` already holds the lock or waits for it.
pub(crate) const ALREADY_IN: u32 = 7;

/// The task `who` has freed the lock, and no task waited for it.
pub(crate) const FREED: u32 = 8;

/// The task `who` has freed the lock, and the longest waiter holds it now. The caller must wake that task.
pub(crate) const HANDED_ON: u32 = 9;

/// The task `who` doesn't hold the lock. If a task that wanted to leave the lock's queue gets this, it isn't in the
/// queue.
pub(crate) const NOT_HOLDER: u32 = 10;

/// The task `who` has left the queue of the lock, and will not get the lock unless it asks again.
pub(crate) const LEFT: u32 = 11;

/// No slot of the block is free.
pub(crate) const FULL: u32 = 12;

/// The handle holds a job now, which the caller must run.
pub(crate) const RUN: u32 = 13;

/// The worker must sleep until another thread unparks it. No ready job was found.
pub(crate) const PARK: u32 = 14;

/// The call took no job, or the worker must not sleep, since it may have a ready job. The caller may try again.
pub(crate) const AGAIN: u32 = 15;

/// The job is ready, so that a thread can take and run it.
pub(crate) const READY: u32 = 16;

/// The job is blocked until it is woken.
pub(crate) const BLOCKED: u32 = 17;

/// The job isn't blocked, so the wake is recorded: the job becomes ready instead of blocked. A take or a start of the
/// job clears the record. Also the result for the name that a free slot's next job will get.
pub(crate) const MARKED: u32 = 18;

/// The wake changed nothing, since an earlier wake of the job is still recorded.
pub(crate) const ALREADY_MARKED: u32 = 19;

/// No job has this name at present.
pub(crate) const GONE: u32 = 20;

/// The advice on a sample of the load: keep the number of cores as it is.
pub(crate) const STAY: u32 = 21;

/// The advice on a sample of the load: ask for one core more.
pub(crate) const ADD: u32 = 22;

/// The advice on a sample of the load: give one core back.
pub(crate) const REMOVE: u32 = 23;

/// The value of a result's field `unpark` if no worker must be unparked.
pub(crate) const NOBODY: u32 = 64;
