//! Attempts to get a lock, and the evidence that a thread holds it.
ghost use Rattle.std.specs.Prelude.{◌≡◌, ◌<◌, ℕ, Err, None, Ok, Some, length};
ghost use Rattle.arachne_sleep.specs.SleepLocks.{AreSeatsOf};
ghost use Rattle.arachne_sleep.specs.declared.answer.AskFault.{AskFault};
ghost use Rattle.arachne_sleep.specs.declared.answer.Asked.TheVariants as asked;
ghost use Rattle.arachne_sleep.specs.declared.answer.Tried.TheVariants.{Answered};
ghost use Rattle.arachne_run.specs.Serving.{HasAsked, HasChecked, IsGrantBy};
ghost use Rattle.arachne_run.specs.declared.granted.LockCall.TheVariants as calls;
ghost use Rattle.arachne_run.specs.declared.granted.Granted.{Granted};

use arachne_sleep::{AskFault, Asked, LockSeats, Pass, SleepLocks, Tried, Who};
use std::snapshot::Snapshot;

/// The call by which a worker tries to get a lock for a thread.
#[derive(Clone, Copy)]
pub(crate) enum LockCall {
    Ask,
    /// The thread has asked for the lock before. The call looks if the lock was granted to the thread since then.
    Check,
}

/// Zero-sized evidence that the thread that runs now holds the lock that it asked for.
///
/// Only [`ask`] and [`check`] return it. A worker needs it to resume a thread that waits for a lock.
#[derive(Drop)]
pub(crate) struct Granted {
    pass: Snapshot<Pass>,
    call: Snapshot<LockCall>,
}

/// The answer `None` means that the thread must wait for the lock.
pub(crate) type Attempt = Tried<Result<Option<Granted>, AskFault>>;

impl Granted {
    #[inline(always)]
    fn by(call: LockCall, pass: Pass) -> Granted
        ensures pass { result.pass.value ≡ pass }
        ensures call { result.call.value ≡ call }
    {
        Granted {
            pass: Snapshot::of(&pass),
            call: Snapshot::of(&call),
        }
    }
}

/// Asks for a lock. If another thread holds it, the lock records that the thread waits.
#[inline(always)]
pub(crate) fn ask(locks: &SleepLocks, seats: &mut LockSeats, lock: u8, who: Who) -> Attempt
    requires own { AreSeatsOf locks.now seats.old }
    requires lock { lock < length locks.now }
    ensures own { AreSeatsOf locks.now seats.new }
    ensures pass { (granted : Granted) → result ≡ Answered (Ok (Some granted)) → IsGrantBy calls.Ask lock who granted }
    ensures listed { (granted : Granted) → result ≡ Answered (Ok (Some granted))
        → HasAsked lock who (Ok (asked.Granted granted.pass.value)) seats.old seats.new }
    ensures waits { result ≡ Answered (Ok None) → (at : ℕ) × HasAsked lock who (Ok (asked.Queued at)) seats.old seats.new }
    ensures refused { (fault : AskFault) → result ≡ Answered (Err fault)
        → HasAsked lock who (Err fault) seats.old seats.new }
{
    match locks.ask(seats, lock, who) {
        Tried::Answered(Ok(Asked::Granted(pass))) => {
            Tried::Answered(Ok(Some(Granted::by(LockCall::Ask, pass))))
        }
        Tried::Answered(Ok(Asked::Queued { at: _ })) => Tried::Answered(Ok(None)),
        Tried::Answered(Err(fault)) => Tried::Answered(Err(fault)),
        Tried::Contended => Tried::Contended,
    }
}

/// Looks if a lock for which the thread has asked was granted to it.
#[inline(always)]
pub(crate) fn check(locks: &SleepLocks, seats: &mut LockSeats, lock: u8, who: Who) -> Attempt
    requires own { AreSeatsOf locks.now seats.old }
    requires lock { lock < length locks.now }
    ensures own { AreSeatsOf locks.now seats.new }
    ensures pass { (granted : Granted) → result ≡ Answered (Ok (Some granted)) → IsGrantBy calls.Check lock who granted }
    ensures listed { (granted : Granted) → result ≡ Answered (Ok (Some granted))
        → HasChecked lock who (Some granted.pass.value) seats.old seats.new }
    ensures waits { result ≡ Answered (Ok None) → HasChecked lock who None seats.old seats.new }
{
    match locks.check(seats, lock, who) {
        Tried::Answered(Some(pass)) => {
            Tried::Answered(Ok(Some(Granted::by(LockCall::Check, pass))))
        }
        Tried::Answered(None) => Tried::Answered(Ok(None)),
        Tried::Contended => Tried::Contended,
    }
}
