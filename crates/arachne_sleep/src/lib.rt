//! Sleep locks, for user threads. A thread that waits for such a lock is blocked, and leaves its core to other threads.
//!
//! Kernel threads share a [`SleepLock`], and each of them calls the lock through a seat (a right to call) of its own, a
//! [`LockSeat`]. An atomic word of the lock, the *guard*, is set during a call. No call waits. A call that finds the
//! guard set returns at once, and the caller may try again. [`SleepLocks`] are several such locks. [`LockState`] is the
//! state behind the guard: the holder, the queue of waiting threads, and the history of all asks, grants and frees.
#![tactic(auto)]

mod answer;
mod event;
pub mod guard_laws;
mod guarded_state;
mod history;
mod kind;
pub mod laws;
mod lock_seat;
mod lock_state;
mod sleep_lock;
mod sleep_locks;
mod steps;
mod thread_list;
mod view;
mod wait_queue;
mod who;

pub use answer::{AskFault, Asked, Freed, NotHolder, Pass, Tried};
pub use event::LockEvent;
pub use history::{Events, History};
pub use lock_seat::LockSeat;
pub use lock_state::LockState;
pub use sleep_lock::SleepLock;
pub use sleep_locks::{LockSeats, SleepLocks};
pub use who::Who;
