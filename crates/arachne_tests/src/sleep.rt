//! Tests of sleep locks (locks whose waiters are woken), and the threads that ask for them.
mod contended;
mod several;
mod shortage;

use arachne_core::ThreadId;
use arachne_sleep::Who;

const ID: ThreadId = ThreadId {
    context: 3,
    generation: 7,
};

const A: Who = Who { tag: 0, id: ID };

const B: Who = Who { tag: 1, id: ID };

const C: Who = Who {
    tag: 1,
    id: ThreadId { context: 4, ..ID },
};

fn thread(tag: u64, context: u32) -> Who {
    let id = ThreadId { context, ..ID };
    Who { tag, id }
}
