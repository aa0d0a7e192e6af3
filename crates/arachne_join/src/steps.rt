//! The invariant of a cell's table, and the effect of each atomic operation on it. All types here are only for proofs.
ghost use Rattle.std.specs.Prelude.{◌≡◌, ◌≢◌, Some, [], ◌∷◌};
ghost use Rattle.arachne_join.specs.declared.view.Role.TheVariants.{Maker, Sender, Left, PutBack, Fetched, Never};
ghost use Rattle.arachne_join.specs.Views.{view, blank};
ghost use Rattle.arachne_join.specs.Rule.{IsKept};
ghost use Rattle.arachne_join.specs.Steps.{joined_role, Becomes, Sends, Looks, Takes};

use crate::fits::Fits;
use crate::view::View;
use atomic_table::{Join, Play, TableRule};

pub(crate) struct CellRule;

impl<T: Fits<K>, K> TableRule<Option<T>, View<K>, K> for CellRule {
    ghost holds = { λ key. IsKept (T.fits key) (T.may_wait key) };

    ghost first = { λ key. view (Some key) Maker };
}

/// The operation by which the first seat takes the value field, and becomes the sending end.
pub(crate) struct TakeSlot;

impl<T, K> Play<Option<T>, View<K>> for TakeSlot {
    ghost then = { λ _ m n w. Sends w };
}

pub(crate) struct Leave;

impl<T, K> Play<Option<T>, View<K>> for Leave {
    ghost then = { λ _ m n w. Becomes Left w };
}

pub(crate) struct PutBack;

impl<T, K> Play<Option<T>, View<K>> for PutBack {
    ghost then = { λ _ m n w. Becomes PutBack w };
}

pub(crate) struct Look;

impl<T, K> Play<Option<T>, View<K>> for Look {
    ghost then = { λ _ m n w. Looks m n w };
}

pub(crate) struct Fetch;

impl<T: Fits<K>, K> Play<Option<T>, View<K>> for Fetch {
    ghost then = { λ _ m n w. Takes T.fits 1 Fetched m n w };
}

pub(crate) struct TakeBack;

impl<T: Fits<K>, K> Play<Option<T>, View<K>> for TakeBack {
    ghost then = { λ _ m n w. Takes T.may_wait 3 Sender m n w };
}

/// The operation by which the seat that fetched the value gives the empty value field back.
pub(crate) struct ReturnSlot;

impl<T, K> Play<Option<T>, View<K>> for ReturnSlot {
    ghost then = { λ _ m n w. Becomes Fetched w };
}

/// The operation that joins a seat into the one that fetched the value.
pub(crate) struct JoinFetched;

impl<K> Join<View<K>> for JoinFetched {
    ghost both = { λ v w. view v.key (joined_role w.role) };

    ghost spent = { blank };
}

/// Of two joined seats, at most one has fetched the value.
pub(crate) struct FetchedAlone;

impl<T, K> Play<Option<T>, View<K>> for FetchedAlone {
    ghost then = { λ _ m n w. m.0.role ≢ Never };
}
