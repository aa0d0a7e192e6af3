//! The trait by which a caller says what each kernel thread of a team does, and how the team's share (a value of the
//! caller's) is split and joined.
ghost use Rattle.std.specs.Prelude.{ℕ, ◌≡◌, ◌<◌, IfSome};

use std::sync::Wait;
use std::time::Clock;

/// The reason why a kernel thread of a team was not started.
#[derive(Clone, Copy, Debug, PartialEq, Eq)]
pub enum TeamFault {
    Memory,
    /// The system refused to start a kernel thread.
    KernelThread,
}

/// The work of a team of kernel threads, each of which has a share of type `S` (a part of a value of the caller's).
///
/// The kernel threads are numbered from 0, which is the number of the calling kernel thread.
/// [`work_together`](crate::work_together) runs them.
pub trait Team<S> {
    /// True if the share belongs to this team.
    ghost has: { Self → S → Type 0 };

    ghost size: { Self → ℕ };

    /// Returns the number of kernel threads of the team.
    fn size(&self) -> u8
        ensures { result ≡ Self.size self.now };

    /// Splits `share`, which holds what a kernel thread needs to take part in the work, so that one more can take part.
    /// Returns what remains, and the part split off if memory suffices.
    fn part_off<R: Wait>(&self, rt: &R, share: S) -> (S, Option<S>)
        requires { Self.has self.now share }
        ensures own { Self.has self.now result.0 }
        ensures other { IfSome result.1 (Self.has self.now) };

    /// Does the work of kernel thread `number`. Returns the thread's share at the end, or `None` if the share is lost.
    fn work<R: Wait + Clock>(&self, rt: &R, number: u8, share: S) -> Option<S>
        requires share { Self.has self.now share }
        requires number { number < Self.size self.now }
        ensures { IfSome result (Self.has self.now) };

    /// Joins two shares into one. Returns `None` if both are lost.
    fn join<R: Wait>(&self, rt: &R, share: S, other: S) -> Option<S>
        requires own { Self.has self.now share }
        requires other { Self.has self.now other }
        ensures { IfSome result (Self.has self.now) };

    /// Handles the failure to start a kernel thread. `work_together` then starts no further kernel thread.
    ///
    /// Those that have begun go on until they end by themselves. If kernel threads wait for one another, `fail` must
    /// make them end.
    fn fail<R: Wait>(&self, rt: &R, fault: TeamFault);
}
