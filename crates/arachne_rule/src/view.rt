//! What proofs record of a table of user threads and of its seats (rights to call it). No value of these types exists
//! at run time.

use arachne_core::{Place, ThreadId};
use arachne_weights::Token;
use std::collections::LinkedList;

/// A context that a seat (right to call the table) has claimed, or whose thread the seat holds.
pub struct Carried {
    pub context: u32,
    pub place: Place,
    /// The slot that the context's mark word names. It differs from `place` during a move.
    pub shown: Place,
    pub generation: u64,
    /// True if the seat holds the context's thread, false if it has claimed the context.
    pub held: bool,
    /// The thread's tag, if the seat holds one.
    pub tag: u64,
    /// True if the thread has its core for itself.
    pub alone: bool,
    /// True if the word of the slot `place` stores this context's number.
    pub named: bool,
    /// True if the seat has the field for the thread's value, which is then not in the table.
    pub away: bool,
}

/// The kinds of atomic operation on a word of the table.
///
/// An occupancy word has a bit for each occupied slot of a core. The word of a slot has the number of the context
/// there. Each context has a field for its thread's value, which the table or a seat has.
pub enum Kind {
    Look,
    /// A load of a slot's word by the seat that has claimed the slot or taken its thread. It may give the seat the
    /// context's empty value field.
    Learn,
    /// A compare-exchange of a core's occupancy word that claims a slot.
    Claim,
    /// A compare-exchange of a core's occupancy word from 0 that claims the whole core.
    Alone,
    /// A store to a mark word that makes a new thread ready and puts the thread's value into the table.
    Post,
    /// A compare-exchange of a ready thread's mark word that takes the thread and its value out of the table.
    Take,
    /// A store of the number of a taken thread's context in the word of the thread's slot. It puts the context's empty
    /// value field into the table.
    KeepName,
    /// A swap of a taken thread's mark word that ends the thread.
    Retire,
    /// A subtraction from a core's occupancy word that frees a slot.
    Release,
    /// A store to a taken thread's mark word that makes the thread ready and puts its value into the table.
    RestReady,
    /// A compare-exchange of a taken thread's mark word that blocks the thread and puts its value into the table.
    RestBlocked,
    /// A compare-exchange of a blocked thread's mark word that makes the thread ready.
    Wake,
    /// A compare-exchange of a taken thread's mark word that marks the thread as woken.
    MarkWoken,
    Close,
    Open,
    /// A compare-exchange of the mark word of a thread that nobody runs. It gives the thread another slot.
    Move,
    /// A compare-exchange that stores the number of a moved thread's context in the word of the thread's new slot.
    NameTarget,
    /// A store to the mark word of the claimed context whose slot a moved thread has got. It gives this context the
    /// slot that the thread has left.
    Replace,
    /// A store in the word of the slot that a moved thread has left. It stores the number of the claimed context that
    /// has this slot now.
    NameSource,
}

/// One atomic operation on the table's word of index `word`, with the word's value before and after it.
pub struct Record {
    pub kind: Kind,
    pub word: usize,
    pub before: u64,
    pub after: u64,
}

/// The record of what was done through one seat (right to call the table).
pub struct Known {
    /// The contexts that were claimed through the seat, and those whose threads it holds.
    pub carried: LinkedList<Carried>,
    /// The threads that were put into the table through the seat, with their tags.
    pub given: LinkedList<(ThreadId, u64)>,
    /// The threads that were ended through the seat, with their tags.
    pub ended: LinkedList<(ThreadId, u64)>,
    /// The atomic operations that were made through the seat, the newest first.
    pub records: LinkedList<Record>,
}

pub type View = Token<Known>;

/// The constant sizes of a table, and the least and the greatest generation of its contexts. A context is the record of
/// one thread at a time, and its generation counts the threads that have ended in it.
pub struct Shape {
    pub cores: u8,
    pub places_per_core: u8,
    pub first: u64,
    pub last: u64,
}
