//! Types for proofs only: the invariant of the locks' table, and the kinds of atomic operation on the table.
use crate::guarded_lock::GuardedLock;
use crate::view::KnownLocks;
use atomic_table::{Join, Play, Split, TableRule};

/// The invariant of the locks' table. All calls on a lock form one history, which exists only in proofs.
pub struct LockRule;

impl TableRule<GuardedLock, KnownLocks, usize> for LockRule {
    ghost use Rattle.arachne_lock.specs.Rule.{IsKept, first_view};

    ghost holds = { IsKept };

    ghost first = { first_view };
}

pub(crate) struct TakeGuard;

impl Play<GuardedLock, KnownLocks> for TakeGuard {
    ghost use Rattle.arachne_lock.specs.Steps.{Takes};

    ghost then = { Takes };
}

pub(crate) struct ReturnGuard;

impl Play<GuardedLock, KnownLocks> for ReturnGuard {
    ghost use Rattle.arachne_lock.specs.Steps.{GivesBack};

    ghost then = { λ step before found after. GivesBack step before after };
}

pub(crate) struct Divide;

impl Split<KnownLocks> for Divide {
    ghost use Rattle.arachne_lock.specs.Rule.{split_view, second_view};

    ghost left = { split_view };

    ghost right = { second_view };
}

impl Join<KnownLocks> for Divide {
    ghost use Rattle.arachne_lock.specs.Rule.{spent, joined_view};

    ghost both = { joined_view };

    ghost spent = { spent };
}
