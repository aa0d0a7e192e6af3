//! The events of a lock: a task asks for it, gets it, frees it, or leaves its queue.
/// An event of a lock, with the number of its task. The type exists only for proofs.
pub enum QueueEvent {
    /// The task joins the end of the queue.
    Ask(u64),
    /// The task at the front of the queue gets the lock.
    Grant(u64),
    Free(u64),
    /// A waiting task leaves the queue without the lock.
    Leave(u64),
}

/// The effect of one call on a lock. The type exists only for proofs.
#[derive(Clone, Copy)]
pub enum LockDeed {
    Nothing,
    Queued(u64),
    Granted(u64),
    Freed(u64),
    /// The first task freed the lock, which was then granted to the second.
    Handed(u64, u64),
    Left(u64),
}
