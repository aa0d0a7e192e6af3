//! The trait by which a worker (a core's kernel thread) takes threads from its table, runs them and puts them back.
ghost use Rattle.std.specs.Prelude.{◌≡◌, ◌≤◌, ℕ, OnOk};

use crate::policy;
use crate::queue::PostedThread;
use arachne_arbiter::Backoff;
use arachne_contexts::Woken;
use arachne_core::{MarkWord, OccWord, Place, Rest, SLOTS, ThreadId};

/// The reason why a worker ends before it is stopped.
#[derive(Clone, Copy, Debug, PartialEq, Eq)]
pub enum Halt {
    /// Memory was refused.
    Memory,
    /// A thread got a value that was not for it, or named an object that doesn't exist.
    Foreign,
    /// A thread asked for a lock that it had, or freed a lock that it didn't have.
    Lock,
    /// The table rejected a slot or a thread that it had given to the worker.
    Token,
}

/// A worker's access to its context table, and to the current thread (the one that the worker runs now).
///
/// In contracts, such a value is its table, so `self.new ≡ self.old` says only that the call doesn't exchange the
/// table.
pub trait Dispatch {
    /// The most steps that `quantum` returns for any thread.
    ghost largest_quantum: { Self → ℕ } = { λ _. 4294967295 };

    /// Makes the thread in slot `place` the current one, if the thread is ready and the worker has no current thread.
    fn take(&mut self, place: Place) -> Grip
        ensures { self.new ≡ self.old };

    /// Returns the greatest number of steps that one slice of the current thread may have.
    fn quantum(&self) -> u32
        ensures { result ≤ largest_quantum self.now };

    /// Runs up to `left` steps of the current thread, subtracts them from `left`, and serves requests such as a fork.
    ///
    /// Waits, by `stand_by` with `backoff`, while another kernel thread uses an object that a request needs.
    fn advance(&mut self, backoff: &mut Backoff, left: &mut u32) -> Result<ThreadStop, Halt>
        requires { 1 ≤ left.old }
        ensures dispatch { self.new ≡ self.old }
        ensures left { OnOk result (left.new ≤ left.old) };

    /// Returns true if the current thread got a lock after the worker began to run it, and released none after that.
    fn holds(&self) -> bool;

    /// Puts the current thread back into its slot. Returns `Ready` if it can go on or was woken, otherwise `Blocked`.
    fn rest(&mut self) -> Result<Rest, Halt>
        ensures { self.new ≡ self.old };

    /// Ends the current thread, and stores its outcome (its result for its parent). Returns the id of the thread that
    /// waits for the outcome, if any, which the caller must wake.
    ///
    /// If the core was full according to `before` (the core's occupancy word before this call), the worker may keep the
    /// slot claimed for a thread that is forked later. If no other thread of the run is left, stops all workers.
    fn end(&mut self, before: OccWord) -> Result<Option<ThreadId>, Halt>
        ensures { self.new ≡ self.old };

    /// Returns the number of empty slots that the worker keeps claimed for threads that are forked later.
    fn kept(&self) -> usize;

    /// Frees one of the slots that `kept` counts. Returns false if there is none.
    fn give_one_back(&mut self) -> Result<bool, Halt>
        ensures { self.new ≡ self.old };

    /// Returns the occupancy word of the worker's core: which slots are occupied, and if the core is closed or reserved
    /// for one thread.
    fn look(&mut self) -> OccWord
        ensures { self.new ≡ self.old };

    /// Returns a context's mark word (its thread's state, slot and generation), or `None` if there is no such context.
    fn mark_of(&mut self, context: u32) -> Option<MarkWord>
        ensures { self.new ≡ self.old };

    /// Tries once to wake the thread `id`. A concurrent call may make the attempt fail.
    fn try_wake(&mut self, id: ThreadId) -> Woken
        ensures { self.new ≡ self.old };

    /// Tries to move the thread in slot `place` of another core to this worker's core. Returns true if the thread was
    /// moved. Always returns false in a run that must not move threads.
    fn pull(&mut self, place: Place) -> bool
        ensures { self.new ≡ self.old };

    /// Returns true if a child seems to wait for a slot, and this worker's core has one for it.
    fn may_take_ticket(&mut self) -> bool
        ensures { self.new ≡ self.old };

    /// Removes the next ticket (queue entry of a waiting child). Puts that child, if it still waits, into a free slot.
    fn take_ticket(&mut self) -> Result<TicketResult, Halt>
        ensures { self.new ≡ self.old };

    /// Carries out due orders to open or close cores, and moves threads away from closed cores. Only one worker of a
    /// run does so. On the other workers, this call does nothing.
    ///
    /// Returns the number of orders that the run has carried out so far, or `None` if this call has carried out none.
    /// Also returns a bit mask of the cores to which this call has moved threads.
    fn tend(&mut self) -> (Option<usize>, u64)
        ensures { self.new ≡ self.old };

    /// Returns true if the run has orders to open or close cores. If not, the worker never calls `tend`.
    fn has_orders(&self) -> bool;

    /// Returns true if this worker must not sleep long or park: it must open or close cores, or threads wait for slots.
    fn is_waited_for(&self) -> bool;

    /// Returns true if the core is closed and empty. The worker parks only if this call has returned true.
    fn is_drained(&mut self) -> bool
        ensures { self.new ≡ self.old };

    /// Reports `event`, just before or just after it happens.
    fn told(&self, event: WorkerEvent);
}

/// The reason why a call of `Dispatch::advance` has stopped running the current thread.
#[derive(Clone, Copy)]
pub enum ThreadStop {
    /// The thread has more steps to make, as in the next three cases.
    Goes,
    /// The thread has forked a child, which got a slot.
    Posted(PostedThread),
    /// The thread has forked a child, which waits for a slot.
    Spilled,
    /// The thread has released a lock, which the thread with this id holds now. The worker should run that thread next.
    Wakes(ThreadId),
    /// The thread waits for the result of a child.
    Blocks,
    /// The thread waits for the lock with this number.
    Waits(u64),
    Ends,
}

/// The result of an attempt to take the thread in a slot.
#[derive(Clone, Copy)]
pub enum Grip {
    Taken,
    /// The slot has no ready thread.
    None,
    /// Another worker changed the slot during the attempt, so the caller must try again.
    Lost,
}

/// The result of `Dispatch::take_ticket`, which gives a slot to a waiting child.
#[derive(Clone, Copy)]
pub enum TicketResult {
    /// No child waits for a slot.
    None,
    /// A ticket (queue entry of a waiting child) was removed, but its child no longer waits, or no slot was free.
    Gone,
    Posted(PostedThread),
}

/// An event that a worker reports to `Dispatch::told`.
#[derive(Clone, Copy, Debug, PartialEq, Eq)]
pub enum WorkerEvent {
    /// The worker is about to begin a slice of the current thread. The field counts the worker's slices from 0.
    Begins(u64),
    /// A slice has ended, with this number of steps, and for this reason. A slice that ends by a fault is not reported.
    Sliced(u32, SliceEnd),
    /// The worker has woken this thread, for this reason.
    Woken(ThreadId, Cause),
    /// The worker has moved this thread from the core with this number to its own core, to run it there.
    Pulled(ThreadId, u8),
    /// The worker will run this thread, which was granted a lock and stays in its slot on the core of this number.
    Helps(ThreadId, u8),
    /// A child was forked, and waits for a slot because none was free.
    Spilled,
    /// The worker has removed a ticket (queue entry of a waiting child). The field is true if the child got a slot on
    /// this core. Otherwise the child's parent runs the child, or no slot was free.
    Ticket(bool),
    /// The core is closed and empty, and the worker is about to park.
    Parks,
    Unparked,
    /// The worker's sleep timed out, and it found a ready thread for which nobody had woken it. Some such events are
    /// normal, since workers delay wakes. Many such events mean that a wake is missing.
    Overslept,
    /// The worker has carried out orders to open or close cores. The field is the number carried out so far.
    Applied(usize),
    /// The worker has moved threads away from a closed core, to these cores (one bit each).
    MovedAway(u64),
}

/// The reason why a slice of a thread has ended.
#[derive(Clone, Copy, Debug, PartialEq, Eq)]
pub enum SliceEnd {
    /// The thread has more steps to make, but the slice's steps are used up, or another thread must run.
    GoesOn,
    /// The thread waits for the result of a child.
    AwaitsChild,
    /// The thread waits for the lock with this number.
    Awaits(u64),
    Ended,
}

/// The reason why a worker wakes a thread.
#[derive(Clone, Copy, Debug, PartialEq, Eq)]
pub enum Cause {
    ChildEnded,
    /// The thread was granted the lock for which it waited.
    IsServed,
}

/// Frees all slots (at most `SLOTS`) that the worker keeps claimed for threads that are forked later.
pub fn give_all_back<D: Dispatch>(dispatch: &mut D) -> Result<(), Halt>
    ensures { dispatch.new ≡ dispatch.old }
{
    for _ in 0..SLOTS {
        if !dispatch.give_one_back()? {
            break;
        }
    }
    Ok(())
}

/// Frees the slots that the worker keeps claimed, if so few of its core's slots have a thread that it needs none.
#[inline(always)]
pub(crate) fn thin_out<D: Dispatch>(dispatch: &mut D, slots: u8) -> Result<(), Halt>
    ensures { dispatch.new ≡ dispatch.old }
{
    let kept = dispatch.kept();
    if kept > 0 && policy::gives_back(dispatch.look(), kept, slots) {
        give_all_back(dispatch)?;
    }
    Ok(())
}
