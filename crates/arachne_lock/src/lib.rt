//! Locks for the tasks of a host, which is a program that runs tasks of its own, such as the futures of a server.
//!
//! If a task must wait for a lock, the host blocks the task. Kernel threads share a set of locks ([`Locks`]), each
//! through its own right to call ([`LockSetSeat`], a *seat*). Each lock has an atomic word, the *guard*, which is set
//! during a call on the lock. No call waits. A call that finds the guard set returns at once, and the caller may try
//! again. An ask for a lock that nobody holds allocates no memory. A task that waits for a lock may leave the queue.
#![tactic(auto)]

mod answer;
mod event;
mod guarded_lock;
pub mod laws;
mod lock_entry;
mod lock_set_seat;
mod locks;
mod steps;
mod view;
mod waiter_queue;

pub use answer::{Admitted, AskRefusal, Attempt, NotOwner, Released, Withdrawn};
pub use event::QueueEvent;
pub use lock_set_seat::LockSetSeat;
pub use locks::Locks;
