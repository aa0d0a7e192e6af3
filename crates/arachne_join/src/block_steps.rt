//! The invariant of a block's table, and the effect of each atomic operation on it. All types here are only for proofs.
use crate::fits::Fits;
use crate::part::{Content, PartView};
use atomic_table::{Play, Split, TableRule};

pub(crate) struct BlockRule;

impl<T: Fits<K>, K> TableRule<Content<T, K>, PartView<K>, ()> for BlockRule {
    ghost use Rattle.arachne_join.specs.BlockRule.{IsShared, all_cells};

    ghost holds = { λ _. IsShared T.fits };

    ghost first = { λ _. all_cells };
}

/// The split by which a seat gives the first of its cells to a new seat.
pub(crate) struct GiveFirst;

impl<K> Split<PartView<K>> for GiveFirst {
    ghost use Rattle.arachne_join.specs.BlockSteps.{without_first, the_first};

    ghost left = { without_first };

    ghost right = { the_first };
}

/// The operation by which a seat takes over the value field of a cell that was never used.
pub(crate) struct Start;

impl<T, K> Play<Content<T, K>, PartView<K>> for Start {
    ghost use Rattle.arachne_join.specs.BlockSteps.{Starts};

    ghost then = { λ _ m n w. Starts m w };
}

pub(crate) struct Open;

impl<T, K> Play<Content<T, K>, PartView<K>> for Open {
    ghost use Rattle.arachne_join.specs.BlockSteps.{Opens};

    ghost then = { λ _ m n w. Opens m w };
}

/// The split of the right to use an opened cell into the sending end and the receiving end.
pub(crate) struct PartEnds;

impl<K> Split<PartView<K>> for PartEnds {
    ghost use Rattle.arachne_join.specs.BlockSteps.{sending_end, receiving_end};

    ghost left = { sending_end };

    ghost right = { receiving_end };
}

pub(crate) struct LeaveThere;

impl<T, K> Play<Content<T, K>, PartView<K>> for LeaveThere {
    ghost then = { λ _ m n w. Unit {0} };
}

pub(crate) struct FetchThere;

impl<T: Fits<K>, K> Play<Content<T, K>, PartView<K>> for FetchThere {
    ghost use Rattle.arachne_join.specs.BlockSteps.{Fetches};

    ghost then = { λ _ m n w. Fetches T.fits m n w };
}
