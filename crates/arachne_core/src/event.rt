//! The events of a context table, which stores user threads.
ghost use Rattle.std.specs.Prelude.{Some};
ghost use Rattle.arachne_core.specs.ContextTable.{refusal_text};

use crate::state::Rest;
use crate::thread_id::ThreadId;
use std::error::Error;
use std::fmt;

/// A change of a context table, which stores user threads. Each atomic operation of a table is one of these events.
///
/// A context is the record of one thread. `carrier` is the number of the caller's seat (its right to call the table).
#[derive(Clone, Copy, Debug, PartialEq, Eq)]
pub enum Event {
    /// The caller reserves a free context (thread record) on a core that is open and not exclusive to one thread.
    Claim {
        carrier: u32,
        context: u32,
    },
    /// The caller reserves the context (thread record) at index 0 of an empty core, which then takes no other thread.
    Alone {
        carrier: u32,
        context: u32,
    },
    /// The caller puts a new, ready thread with the number `tag` into a context (thread record) that it has reserved.
    Post {
        carrier: u32,
        context: u32,
        tag: u64,
    },
    /// The caller takes the ready thread of this context (thread record), to run it.
    Take {
        carrier: u32,
        context: u32,
    },
    /// The caller stops running the thread of this context (thread record), which becomes ready or blocked.
    Rest {
        carrier: u32,
        context: u32,
        rest: Rest,
    },
    /// The caller wakes the thread with this id.
    Wake {
        id: ThreadId,
    },
    /// The caller ends the thread that it runs in this context (thread record). The context stays reserved for the
    /// caller, unless this was the last thread that it may have.
    Retire {
        carrier: u32,
        context: u32,
    },
    /// The caller frees a context (thread record) that it has reserved.
    Release {
        carrier: u32,
        context: u32,
    },
    /// The core takes no new threads until it is opened.
    CloseCore {
        core: u8,
    },
    /// The core takes new threads again.
    OpenCore {
        core: u8,
    },
    /// The caller moves a thread that nobody runs to the slot of context `to`, which the caller has reserved on another
    /// core. The two contexts (thread records) exchange their slots.
    Move {
        carrier: u32,
        from: u32,
        to: u32,
    },
    /// An atomic operation that changes no context, core or thread, such as a read.
    Still,
}

/// The reason why a context table refused an event, and stayed unchanged.
#[derive(Clone, Copy, Debug, PartialEq, Eq)]
pub enum NotApplied {
    /// The table's state does not allow the event, or the table has no such core or context.
    NotAllowed,
    /// The event is allowed, but memory for recording it was refused.
    Memory,
}

impl fmt::Display for NotApplied {
    ghost output = { λ a. Some (refusal_text a) };

    fn fmt<W: fmt::Write>(&self, f: &mut fmt::Formatter<W>) -> fmt::Result {
        match self {
            NotApplied::NotAllowed => write!(f, "the event isn't allowed here"),
            NotApplied::Memory => write!(f, "memory for the event was refused"),
        }
    }
}

impl Error for NotApplied {}
