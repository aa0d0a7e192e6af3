//! Types for proofs only: the invariant of the table, and the kinds of atomic operation on the table.
use arachne_contexts::Tagged;
use arachne_rule::{Shape, View};
use atomic_table::{Join, Play, Split, TableRule};

pub struct ContextRule;

impl<T: Tagged> TableRule<Option<T>, View, Shape> for ContextRule {
    ghost use Rattle.arachne_core.specs.declared.layout.TheConstants.{CORE_BITS};
    ghost use Rattle.arachne_weights.specs.Weight.{whole};
    ghost use Rattle.arachne_weights.specs.Tokens.{held};
    ghost use Rattle.arachne_rule.specs.Views.{blank};
    ghost use Rattle.arachne_rule.specs.Table.{Holds};

    ghost holds = { λ key. Holds T.tag_of CORE_BITS key };

    ghost first = { λ key. held whole blank };
}

pub(crate) struct LookCore;

impl<T> Play<Option<T>, View> for LookCore {
    ghost use Rattle.arachne_rule.specs.Plays.{LooksCore};

    ghost then = { λ step before found after. LooksCore step before found after };
}

pub(crate) struct LookMark;

impl<T> Play<Option<T>, View> for LookMark {
    ghost use Rattle.arachne_core.specs.declared.layout.TheConstants.{CORE_BITS};
    ghost use Rattle.arachne_rule.specs.Plays.{LooksMark};

    ghost then = { λ step before found after. LooksMark CORE_BITS step before found after };
}

pub(crate) struct LearnName;

impl<T> Play<Option<T>, View> for LearnName {
    ghost use Rattle.arachne_rule.specs.Plays.{LearnsName};

    ghost then = { λ step before found after. LearnsName step before found after };
}

pub(crate) struct TakeSlot;

impl<T> Play<Option<T>, View> for TakeSlot {
    ghost use Rattle.arachne_rule.specs.Plays.{TakesSlot};

    ghost then = { λ step before found after. TakesSlot step before found after };
}

pub(crate) struct Claim;

impl<T> Play<Option<T>, View> for Claim {
    ghost use Rattle.arachne_rule.specs.Plays.{Claims};

    ghost then = { λ step before found after. Claims step before found after };
}

pub(crate) struct ClaimAlone;

impl<T> Play<Option<T>, View> for ClaimAlone {
    ghost use Rattle.arachne_rule.specs.Plays.{ClaimsAlone};

    ghost then = { λ step before found after. ClaimsAlone step before found after };
}

pub(crate) struct Release;

impl<T> Play<Option<T>, View> for Release {
    ghost use Rattle.arachne_rule.specs.Plays.{Releases};

    ghost then = { λ step before found after. Releases step before found after };
}

pub(crate) struct Post;

impl<T: Tagged> Play<Option<T>, View> for Post {
    ghost use Rattle.arachne_rule.specs.Plays.{Posts};

    ghost then = { λ step before found after. Posts T.tag_of step before found after };
}

pub(crate) struct Take;

impl<T: Tagged> Play<Option<T>, View> for Take {
    ghost use Rattle.arachne_core.specs.declared.layout.TheConstants.{CORE_BITS};
    ghost use Rattle.arachne_rule.specs.Plays.{Takes};

    ghost then = { λ step before found after. Takes T.tag_of CORE_BITS step before found after };
}

pub(crate) struct KeepName;

impl<T> Play<Option<T>, View> for KeepName {
    ghost use Rattle.arachne_rule.specs.Plays.{KeepsName};

    ghost then = { λ step before found after. KeepsName step before found after };
}

pub(crate) struct Retire;

impl<T> Play<Option<T>, View> for Retire {
    ghost use Rattle.arachne_rule.specs.Plays.{Retires};

    ghost then = { λ step before found after. Retires step before found after };
}

pub(crate) struct Spend;

impl<T> Play<Option<T>, View> for Spend {
    ghost use Rattle.arachne_rule.specs.Plays.{Spends};

    ghost then = { λ step before found after. Spends step before found after };
}

pub(crate) struct RestReady;

impl<T> Play<Option<T>, View> for RestReady {
    ghost use Rattle.arachne_rule.specs.Plays.{RestsReady};

    ghost then = { λ step before found after. RestsReady step before found after };
}

pub(crate) struct RestBlocked;

impl<T> Play<Option<T>, View> for RestBlocked {
    ghost use Rattle.arachne_core.specs.declared.layout.TheConstants.{CORE_BITS};
    ghost use Rattle.arachne_rule.specs.Plays.{RestsBlocked};

    ghost then = { λ step before found after. RestsBlocked CORE_BITS step before found after };
}

pub(crate) struct WakeBlocked;

impl<T> Play<Option<T>, View> for WakeBlocked {
    ghost use Rattle.arachne_rule.specs.declared.view.Kind.TheVariants as kind;
    ghost use Rattle.arachne_rule.specs.Plays.{Wakes};

    ghost then = { λ step before found after. Wakes kind.Wake step before found after };
}

pub(crate) struct MarkWoken;

impl<T> Play<Option<T>, View> for MarkWoken {
    ghost use Rattle.arachne_rule.specs.declared.view.Kind.TheVariants as kind;
    ghost use Rattle.arachne_rule.specs.Plays.{Wakes};

    ghost then = { λ step before found after. Wakes kind.MarkWoken step before found after };
}

pub(crate) struct Close;

impl<T> Play<Option<T>, View> for Close {
    ghost use Rattle.arachne_rule.specs.Plays.{Closes};

    ghost then = { λ step before found after. Closes step before found after };
}

pub(crate) struct Open;

impl<T> Play<Option<T>, View> for Open {
    ghost use Rattle.arachne_rule.specs.Plays.{Opens};

    ghost then = { λ step before found after. Opens step before found after };
}

pub(crate) struct Move;

impl<T> Play<Option<T>, View> for Move {
    ghost use Rattle.arachne_core.specs.declared.layout.TheConstants.{CORE_BITS};
    ghost use Rattle.arachne_rule.specs.Plays.{Moves};

    ghost then = { λ step before found after. Moves CORE_BITS step before found after };
}

pub(crate) struct NameTarget;

impl<T> Play<Option<T>, View> for NameTarget {
    ghost use Rattle.arachne_rule.specs.Plays.{NamesTarget};

    ghost then = { λ step before found after. NamesTarget step before found after };
}

pub(crate) struct Replace;

impl<T> Play<Option<T>, View> for Replace {
    ghost use Rattle.arachne_rule.specs.Plays.{Replaces};

    ghost then = { λ step before found after. Replaces step before found after };
}

pub(crate) struct NameSource;

impl<T> Play<Option<T>, View> for NameSource {
    ghost use Rattle.arachne_rule.specs.Plays.{NamesSource};

    ghost then = { λ step before found after. NamesSource step before found after };
}

/// The split of a seat into two, and the join of two seats.
pub(crate) struct Deal;

impl Split<View> for Deal {
    ghost use Rattle.arachne_rule.specs.Views.{first_seat, second_seat};

    ghost left = { first_seat };

    ghost right = { second_seat };
}

impl Join<View> for Deal {
    ghost use Rattle.arachne_weights.specs.Tokens.{spent};
    ghost use Rattle.arachne_rule.specs.Views.{blank, joined_seat};

    ghost both = { joined_seat };

    ghost spent = { spent blank };
}
