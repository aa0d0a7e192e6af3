//! The state of a context as its atomic word, the mark word, shows it. The word shows neither which seat has claimed
//! the context or holds its thread, nor the thread's tag.
/// The state of a context (thread record) in its packed word, without the thread's number and who runs the thread.
#[derive(Clone, Copy, Debug, PartialEq, Eq)]
pub enum Mark {
    /// The context (thread record) is free or reserved, and has no thread.
    Free = 0,
    /// Any kernel thread may take the thread and run it.
    Ready = 1,
    /// The thread is blocked until it is woken.
    Blocked = 2,
    /// A kernel thread runs the thread.
    Held = 3,
    /// A kernel thread runs the thread, which was woken since it was taken.
    Woken = 4,
    /// The context (thread record) has had its last thread, and is never used again.
    Spent = 5,
}

impl Mark {
    ghost use Rattle.std.specs.Prelude.{◌≡◌, ◌<◌};
    ghost use Rattle.arachne_core.specs.Marked.{mark_code, mark_named};

    /// Returns the number that stands for this state in a context's packed word (mark word).
    pub fn code(self) -> u64
        ensures { result ≡ mark_code self }
    {
        self as u64
    }

    /// Returns the state for which this number stands in a context's packed word (mark word).
    pub fn from_code(code: u64) -> Self
        requires { code < 6 }
        ensures { result ≡ mark_named code }
    {
        match code {
            0 => Mark::Free,
            1 => Mark::Ready,
            2 => Mark::Blocked,
            3 => Mark::Held,
            4 => Mark::Woken,
            _ => Mark::Spent,
        }
    }
}
