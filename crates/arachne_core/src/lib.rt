//! A sequential table of user threads (`World`), its changes (`Event`), and the packed words of such a table.
//!
//! A *context* is the record of one user thread. Each context stands in one of a core's thread slots, in the code a
//! *place*. A *seat* is one kernel thread's right to call a table. A seat *claims* (reserves) a free context to put a
//! thread there. A seat *holds* (runs) a thread from the take until the thread is put back or ended. A `World` is the
//! abstract state of each concurrent table, to which contracts and proofs refer. Each concurrent table is proved to
//! make no changes of this state but these `Event`s.
#![tactic(auto)]

mod event;
pub mod laws;
mod layout;
mod mark;
mod mark_word;
mod occ_word;
mod place;
mod state;
mod tables;
mod thread_id;
mod world;

pub use event::{Event, NotApplied};
pub use layout::{
    CORE_BITS, CORES, FIRST_CORE_BITS, GENERATION_BITS, LAST_GENERATION, MASK_BITS, SLOTS,
};
pub use mark::Mark;
pub use mark_word::MarkWord;
pub use occ_word::{COUNT_ONE, EXCLUSIVE, FULL_MASK, OccWord};
pub use place::Place;
pub use state::{Context, Rest, State};
pub use thread_id::ThreadId;
pub use world::World;
