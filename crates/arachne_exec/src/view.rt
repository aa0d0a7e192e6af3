//! The record that proofs keep of each seat. No value of these types exists at run time.
use arachne_weights::Token;
use std::collections::LinkedList;

/// A change of a worker's idle bit (set while the worker sleeps or is about to), with the worker's number.
pub enum SleepDeed {
    /// The worker itself set the idle bit, which was clear.
    LayDown(u64),
    /// The worker itself set the idle bit, which was set already.
    LayOn(u64),
    Rose(u64),
    /// A call of any seat cleared the idle bit, which was set, to wake the worker.
    Roused(u64),
}

/// The jobs of a seat (right to call the executor), and what was done through it or through a seat joined into it. Each
/// list begins with the newest entry.
pub struct Notes {
    /// The slots of the jobs that the seat holds, each with its job's number.
    pub hand: LinkedList<(u64, u64)>,
    /// The jobs that the seat has spawned, each as its slot and its number.
    pub spawned: LinkedList<(u64, u64)>,
    /// The jobs that the seat has ended, each as its slot and its number.
    pub ended: LinkedList<(u64, u64)>,
    /// The slots for whose jobs the seat has recorded a wake.
    pub woken: LinkedList<u64>,
    /// The slots of jobs whose recorded wake the seat has cleared.
    pub heard: LinkedList<u64>,
    /// The slots in which the seat has blocked a job, or which the seat has retired (they take no more jobs).
    pub blocked: LinkedList<u64>,
    /// The slots of blocked jobs that the seat has woken.
    pub unblocked: LinkedList<u64>,
    pub freed: LinkedList<u64>,
    /// The number of times that the seat made a job ready that it held.
    pub rested: u64,
    pub sleeps: LinkedList<SleepDeed>,
    /// The values that the seat found in atomic words or stored there, each with the index of its word.
    pub looks: LinkedList<(usize, u64)>,
    /// The slot that the seat has claimed, and in which it must still spawn a job, plus 1; or 0 if there is none.
    pub unspawned: u64,
    /// The block that the seat must still add to the list of blocks to search, plus 1; or 0 if there is none.
    pub unshown: u64,
    /// The number of the shard (64 blocks) whose worker the seat must still wake if this worker sleeps, plus 1; or 0 if
    /// there is none.
    pub owes: u64,
    /// The seat's worker number plus 1, or 0 if it has none.
    pub worker: u64,
    /// The number of its worker's shards that the seat has searched and found without a ready job, counted since the
    /// seat last marked the worker as idle. The worker may sleep once this is the number of all its shards.
    pub seen: u64,
    /// The number of times that this seat, or a seat joined into it, was split.
    pub splits: u64,
}

/// A seat's record, with the seat's weight (see `Executor::new`).
pub type View = Token<Notes>;
