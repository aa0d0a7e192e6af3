//! Counters that the jobs of a test case share with the kernel threads that wake these jobs.
use arachne_core::ThreadId;
use std::alloc::Global;
use std::sync::Arc;
use std::sync::atomic::{AtomicU64, Ordering};
use std::thread::yield_now;

/// The number of times that a job reads an atomic word before it sleeps, which takes some microseconds.
const MOMENT: u32 = 2_000;

/// The greatest number of times that a job checks for an answer (an event for which it waits).
const MOST_LOOKS: u32 = 1_000_000;

/// The counters of a test case's jobs.
///
/// An *answer* is an event for which a job sleeps. The test counts answers, and each job sleeps until enough were
/// counted.
#[derive(Drop)]
pub(crate) struct Board {
    pub(crate) alloc: Global,
    pub(crate) begun: AtomicU64,
    pub(crate) steps: AtomicU64,
    /// The number of times that a job was about to sleep.
    pub(crate) sleeps: AtomicU64,
    pub(crate) returns: AtomicU64,
    /// Each call of `pass_turn` adds 1, and so lets the other kernel thread, which waits for that, continue.
    pub(crate) turns: AtomicU64,
    context: AtomicU64,
    generation: AtomicU64,
    answers: AtomicU64,
}

impl Board {
    pub(crate) fn new(alloc: Global) -> Option<Arc<Board>> {
        let board = Board {
            alloc,
            begun: AtomicU64::new(0),
            steps: AtomicU64::new(0),
            sleeps: AtomicU64::new(0),
            returns: AtomicU64::new(0),
            turns: AtomicU64::new(0),
            context: AtomicU64::new(0),
            generation: AtomicU64::new(0),
            answers: AtomicU64::new(0),
        };
        Arc::new(alloc, board).ok()
    }

    pub(crate) fn counts_step(&self, is_first: bool) {
        self.steps.fetch_add(1, Ordering::SeqCst);
        if is_first {
            self.begun.fetch_add(1, Ordering::SeqCst);
        }
    }

    /// Counts that the job `id` is about to sleep.
    ///
    /// Then waits some microseconds, in which another kernel thread may wake the job.
    pub(crate) fn sleeps_as(&self, id: ThreadId) {
        self.context.store(u64::from(id.context), Ordering::SeqCst);
        self.generation.store(id.generation, Ordering::SeqCst);
        self.sleeps.fetch_add(1, Ordering::SeqCst);
        for _ in 0..MOMENT {
            let _ = self.sleeps.load(Ordering::SeqCst);
        }
    }

    pub(crate) fn id(&self) -> ThreadId {
        ThreadId {
            context: u32::try_from(self.context.load(Ordering::SeqCst)).unwrap_or(u32::MAX),
            generation: self.generation.load(Ordering::SeqCst),
        }
    }

    pub(crate) fn comes_back(&self) {
        self.returns.fetch_add(1, Ordering::SeqCst);
    }

    pub(crate) fn pass_turn(&self) {
        self.turns.fetch_add(1, Ordering::SeqCst);
    }

    /// Counts an answer (an event for which jobs sleep), but wakes no job.
    pub(crate) fn answer(&self) {
        self.answers.fetch_add(1, Ordering::SeqCst);
    }

    /// Waits until an answer (an event for which jobs sleep) was counted.
    ///
    /// After too many checks, counts 1,000 answers, so that the test case fails.
    pub(crate) fn await_answer(&self) {
        for _ in 0..MOST_LOOKS {
            if self.answers() > 0 {
                return;
            }
            yield_now();
        }
        self.answers.fetch_add(1_000, Ordering::SeqCst);
    }

    pub(crate) fn answers(&self) -> u64 {
        self.answers.load(Ordering::SeqCst)
    }
}
