//! Types for proofs only: the invariant of a lock's table, and the kinds of atomic operation on the table.
use crate::guarded_state::GuardedState;
use crate::view::View;
use atomic_table::{Join, Play, Split, TableRule};

/// The invariant of a lock's table: the logs of all seats agree with one history of the lock.
pub struct GuardRule;

impl TableRule<GuardedState, View, u8> for GuardRule {
    ghost use Rattle.arachne_sleep.specs.Rule.{IsKept, first_view};

    ghost holds = { IsKept };

    ghost first = { first_view };
}

pub(crate) struct Take;

impl Play<GuardedState, View> for Take {
    ghost use Rattle.arachne_sleep.specs.Steps.{Takes};

    ghost then = { λ step before found after. Takes before found after };
}

pub(crate) struct GiveBack;

impl Play<GuardedState, View> for GiveBack {
    ghost use Rattle.arachne_sleep.specs.Steps.{GivesBack};

    ghost then = { λ step before found after. GivesBack before after };
}

pub(crate) struct Deal;

impl Split<View> for Deal {
    ghost use Rattle.arachne_sleep.specs.Rule.{first_seat, second_seat};

    ghost left = { first_seat };

    ghost right = { second_seat };
}

impl Join<View> for Deal {
    ghost use Rattle.arachne_sleep.specs.Rule.{joined_seat, spent_seat};

    ghost both = { joined_seat };

    ghost spent = { spent_seat };
}
