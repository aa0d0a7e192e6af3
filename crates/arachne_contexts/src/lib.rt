//! The trait of tables of user threads, by which kernel threads create, take, wake and move threads.
//!
//! A *context table* stores user threads. Each core has some thread slots, in the code *places*, and each place a
//! *context*, the record of one thread. A *seat* is one kernel thread's right to call the table. Through it the kernel
//! thread claims a free place, puts a thread there, takes threads that are ready, and puts them back or ends them. From
//! the take until the thread is put back or ended, the seat *holds* the thread. A thread is a value of the caller's
//! type, of which the table reads only a number, its tag.
#![tactic(auto)]

mod answers;
mod contexts;
mod held;
mod seats;
mod tagged;

pub use answers::{Claimed, Moved, Rested, Taken, Woken};
pub use contexts::Contexts;
pub use held::{Held, Identified, Placed};
pub use seats::Seats;
pub use tagged::Tagged;
