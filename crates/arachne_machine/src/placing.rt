//! The two traits by which a running thread calls its caller.
ghost use Rattle.std.specs.Prelude.{◌≡◌, ℕ, Bool, true, false, IsTrue};
ghost use Rattle.arachne_machine.specs.Tallying.{GainsAt};

use arachne_program::Class;

/// Decides at each fork if the child may get a thread slot (room for one thread on a core) of its own. Any answer is
/// correct, as it only affects where the child runs.
pub trait Placing {
    /// True if this type lets each child have a slot of its own.
    ghost gives_all: { Bool };

    /// Returns true if a child may get a thread slot of its own. If true, the thread pauses at the fork. If false, the
    /// child runs inside its parent's slot.
    fn is_any(&mut self, class: Class) -> bool
        ensures { gives_all ≡ true → IsTrue result };

    /// Like `is_any`, for a child that reduces `turns` numbers of a sweep (a parallel reduction).
    fn is_any_for(&mut self, class: Class, _turns: u64) -> bool
        ensures { gives_all ≡ true → IsTrue result }
    {
        self.is_any(class)
    }

    /// Returns the tag (number in the run's report) for a child that begins inside its parent's slot.
    fn tag(&mut self) -> u64;
}

/// Collects the amounts that a thread adds to ledgers. The caller must add them to the ledgers later.
pub trait Tallying {
    /// The amount that the caller must still add to each ledger, modulo 2^64.
    ghost due_to: { Self → ℕ → ℕ };

    /// Collects `amount` for the ledger of this number and returns true, or returns false and changes nothing.
    fn take(&mut self, ledger: u64, amount: u64) -> bool
        ensures taken { result ≡ true → GainsAt (due_to self.old) ledger amount (due_to self.new) }
        ensures full { result ≡ false → self.new ≡ self.old };
}

/// Gives each child a slot of its own, so that the thread pauses at each fork.
#[derive(Clone, Copy, Debug)]
pub struct Everywhere;

impl Placing for Everywhere {
    ghost gives_all = { true };

    fn is_any(&mut self, _class: Class) -> bool {
        true
    }

    fn tag(&mut self) -> u64 {
        0
    }
}
