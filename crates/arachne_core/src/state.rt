//! The states of a context (free, claimed, ready, blocked, held by a seat), and what each state permits.
use crate::layout::LAST_GENERATION;
use crate::mark::Mark;
use crate::place::Place;

/// The state of a context (user thread's record).
///
/// `carrier` is the number of the caller's seat (its right to call the table), and `tag` the thread's number.
#[derive(Clone, Copy, Debug, PartialEq, Eq)]
pub enum State {
    /// The context (thread record) has no thread, and is not reserved.
    Free,
    /// The context (thread record) has no thread yet. Only the caller with the number `carrier` may put a thread there.
    Claimed { carrier: u32 },
    /// Any kernel thread may take the thread and run it.
    Ready { tag: u64 },
    /// The thread is blocked until it is woken.
    Blocked { tag: u64 },
    /// The caller with the number `carrier` runs the thread. `woken` is true if the thread was woken since it was
    /// taken.
    Held { carrier: u32, woken: bool, tag: u64 },
    /// The context (thread record) has had its last thread, and is never used again.
    Spent,
}

/// The state in which a thread is put back into the table.
#[derive(Clone, Copy, Debug, PartialEq, Eq)]
pub enum Rest {
    /// Any kernel thread may take the thread and run it.
    Ready,
    /// The thread is blocked until it is woken. A thread that was woken since it was taken becomes ready instead.
    Blocked,
}

/// The table's record of a user thread.
#[derive(Clone, Copy, Debug, PartialEq, Eq)]
pub struct Context {
    /// The slot on a core, which changes if the thread is moved to another core.
    pub place: Place,
    /// The number of threads that have ended in the context, plus the table's first generation.
    pub generation: u64,
    pub state: State,
}

impl State {
    ghost use Rattle.std.specs.Prelude.{◌≡◌, ◌↔◌, IsTrue};
    ghost use Rattle.arachne_core.specs.World.{IsReady, IsAtRest, IsHeldBy, CanBeWoken, taken, put_back, woken, tag_of};
    ghost use Rattle.arachne_core.specs.ContextTable.{mark_of, is_live_state};

    pub(crate) fn is_free(self) -> bool
        ensures { IsTrue result ↔ (self ≡ State.Free) }
    {
        match self {
            State::Free => true,
            _ => false,
        }
    }

    pub(crate) fn is_claimed_by(self, carrier: u32) -> bool
        ensures { IsTrue result ↔ (self ≡ State.Claimed carrier) }
    {
        match self {
            State::Claimed { carrier: claimer } => claimer == carrier,
            _ => false,
        }
    }

    pub(crate) fn is_ready(self) -> bool
        ensures { IsTrue result ↔ IsReady self }
    {
        match self {
            State::Ready { .. } => true,
            _ => false,
        }
    }

    pub(crate) fn is_at_rest(self) -> bool
        ensures { IsTrue result ↔ IsAtRest self }
    {
        match self {
            State::Ready { .. } | State::Blocked { .. } => true,
            _ => false,
        }
    }

    pub(crate) fn is_held_by(self, carrier: u32) -> bool
        ensures { IsTrue result ↔ IsHeldBy carrier self }
    {
        match self {
            State::Held {
                carrier: holder,
                ..
            } => holder == carrier,
            _ => false,
        }
    }

    pub(crate) fn can_be_woken(self) -> bool
        ensures { IsTrue result ↔ CanBeWoken self }
    {
        match self {
            State::Blocked { .. } => true,
            State::Held { woken, .. } => !woken,
            _ => false,
        }
    }

    pub(crate) fn is_live(self) -> bool
        ensures { result ≡ is_live_state self }
    {
        match self {
            State::Ready { .. } | State::Blocked { .. } | State::Held { .. } => true,
            _ => false,
        }
    }

    pub(crate) fn tag(self) -> u64
        ensures { result ≡ tag_of self }
    {
        match self {
            State::Ready { tag } | State::Blocked { tag } | State::Held { tag, .. } => tag,
            _ => 0,
        }
    }

    pub(crate) fn mark(self) -> Mark
        ensures { result ≡ mark_of self }
    {
        match self {
            State::Free | State::Claimed { .. } => Mark::Free,
            State::Ready { .. } => Mark::Ready,
            State::Blocked { .. } => Mark::Blocked,
            State::Held { woken: false, .. } => Mark::Held,
            State::Held { woken: true, .. } => Mark::Woken,
            State::Spent => Mark::Spent,
        }
    }

    pub(crate) fn taken(self, carrier: u32) -> Self
        ensures { result ≡ taken carrier self }
    {
        match self {
            State::Ready { tag } => State::Held {
                carrier,
                woken: false,
                tag,
            },
            other => other,
        }
    }

    pub(crate) fn put_back(self, rest: Rest) -> Self
        ensures { result ≡ put_back rest self }
    {
        match (rest, self) {
            (
                Rest::Blocked,
                State::Held {
                    woken: false,
                    tag,
                    ..
                },
            ) => State::Blocked { tag },
            (_, State::Held { tag, .. }) => State::Ready { tag },
            (_, other) => other,
        }
    }

    pub(crate) fn woken(self) -> Self
        ensures { result ≡ woken self }
    {
        match self {
            State::Blocked { tag } => State::Ready { tag },
            State::Held { carrier, tag, .. } => State::Held {
                carrier,
                woken: true,
                tag,
            },
            other => other,
        }
    }
}

impl Context {
    ghost use Rattle.std.specs.Prelude.{◌≡◌, ◌+◌, ◌<◌, ◌≤◌, nat_lt, if◌then◌else◌};

    pub(crate) fn retired(self, carrier: u32) -> Self
        requires { self.generation ≤ LAST_GENERATION }
        ensures state { result.state ≡ (if nat_lt self.generation LAST_GENERATION then State.Claimed carrier else State.Spent) }
        ensures generation { result.generation ≡ (if nat_lt self.generation LAST_GENERATION then self.generation + 1 else self.generation) }
        ensures place { result.place ≡ self.place }
        ensures last { result.generation ≤ LAST_GENERATION }
    {
        if self.generation < LAST_GENERATION {
            Context {
                state: State::Claimed { carrier },
                generation: self.generation + 1,
                ..self
            }
        } else {
            Context {
                state: State::Spent,
                ..self
            }
        }
    }
}
