//! The codes that the C functions return.

/// The call succeeded.
pub(crate) const DONE: u32 = 0;

/// The call was refused, and has changed nothing. The comment of each call lists the possible reasons.
pub(crate) const REFUSED: u32 = 1;

/// The allocator refused memory. Nothing has changed.
pub(crate) const NO_MEMORY: u32 = 2;

/// The message by which a client introduces itself.
pub(crate) const HELLO: u32 = 3;

/// The message by which a kernel thread joins its client.
pub(crate) const JOIN: u32 = 4;

/// The message by which a thread gives its core back, if it has one, and waits for another core.
pub(crate) const WAIT: u32 = 5;

/// The message by which a client asks for a number of cores in all.
pub(crate) const ASK: u32 = 6;

/// There are fewer bytes than a message has, which is 16.
pub(crate) const SHORT: u32 = 7;

/// The message is of an unknown kind.
pub(crate) const KIND: u32 = 8;

/// The client speaks another version of the protocol.
pub(crate) const VERSION: u32 = 9;

/// The priority is out of range.
pub(crate) const PRIORITY: u32 = 10;

/// The thread's number within its client, `place`, is greater than 63.
pub(crate) const PLACE: u32 = 11;

/// A field that this kind of message does not use is greater than 0.
pub(crate) const UNUSED: u32 = 12;

/// No core was taken or given.
pub(crate) const NOTHING: u32 = 13;

/// The core was taken from the thread, which the caller must move away from the core.
pub(crate) const TAKEN: u32 = 14;

/// The core was given to a thread that floats (never waits for a core). The caller must move the thread to the core.
pub(crate) const PLACED: u32 = 15;

/// The core was given to a thread that waited. The caller must move the thread to the core, and notify the thread.
pub(crate) const GRANTED: u32 = 16;
