//! A trait by which tests observe and delay a run.
use arachne_core::ThreadId;
use arachne_program::Name;
use arachne_workers::WorkerEvent;

/// A hook for tests, called by each core's kernel thread before each slice (some steps of a thread) and at each event.
pub trait Gate {
    /// Called before the `nth` slice (some steps of a thread) of `core`, counted from 0 and at most 2^64 - 1.
    fn slice(&self, core: u8, nth: u64);

    /// Called when the core takes the thread with this id. The core then runs this thread until the next call.
    fn turn(&self, _core: u8, _id: ThreadId, _name: &Name) {}

    /// Called just before or after the core's kernel thread does what the event says. `Begins` is reported by `slice`.
    fn told(&self, _core: u8, _event: WorkerEvent) {}
}

/// A `Gate` that does nothing.
#[derive(Clone, Copy, Debug, PartialEq, Eq)]
pub struct OpenGate;

impl Gate for OpenGate {
    fn slice(&self, _core: u8, _nth: u64) {}
}
