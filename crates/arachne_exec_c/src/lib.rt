//! The executor, locks, ledgers and the core policy for hosts in C or Rust, as one static library.
//!
//! C calls the library through *handles*, each of which is one pointer. A handle has one thread's right to call an
//! executor or a set of locks (a *seat*), or to add to ledgers (a *share*). An empty handle is a null pointer, with
//! which C begins. A handle *holds* a job from the call that takes the job until the job ends or rests (is made ready
//! or blocked again). The calls synchronize by atomic operations only, and never wait, sleep or yield; only C's
//! allocator may lock. The script `scripts/declarations` makes the header `examples/c/arachne_exec.h` and
//! `examples/rust/arachne_exec/declared.rs` from these files.
#![tactic(auto)]

mod adder;
mod adding;
mod codes;
mod exec;
mod exec_handle;
mod exec_holding;
mod exec_told;
mod executing;
mod ledger;
mod lock;
mod locks_handle;
mod policy;
mod seated;
mod told;

pub use adder::ArachneAdder;
pub use exec_handle::ArachneExec;
pub use exec_told::{ArachneExecLeft, ArachneExecTold};
pub use locks_handle::ArachneLocks;
pub use policy::{ArachneEstimator, ArachneSample};
pub use told::ArachneLockTold;
