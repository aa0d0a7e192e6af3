//! The invariant of the ledgers' words, and the kinds of atomic operation on these words.
use crate::share::View;
use atomic_table::{Join, Play, Split, TableRule};

/// The invariant that each ledger's word is the sum of what all shares (rights to add) have added to the ledger.
pub struct Balanced;

impl TableRule<(), View, usize> for Balanced {
    ghost use Rattle.arachne_ledger.specs.Balance.{IsBalanced, opening_share};

    ghost holds = { IsBalanced };

    ghost first = { opening_share };
}

pub(crate) struct Add;

impl Play<(), View> for Add {
    ghost use Rattle.arachne_ledger.specs.Steps.{Adds};

    ghost then = { Adds };
}

pub(crate) struct Read;

impl Play<(), View> for Read {
    ghost use Rattle.arachne_ledger.specs.Steps.{Reads};

    ghost then = { Reads };
}

pub(crate) struct Deal;

impl Split<View> for Deal {
    ghost use Rattle.arachne_ledger.specs.Balance.{first_share, second_share};

    ghost left = { first_share };

    ghost right = { second_share };
}

impl Join<View> for Deal {
    ghost use Rattle.arachne_weights.specs.Tokens.{spent};
    ghost use Rattle.arachne_ledger.specs.Sums.{blank};
    ghost use Rattle.arachne_ledger.specs.Balance.{joined_share};

    ghost both = { joined_share };

    ghost spent = { spent (blank 0) };
}
