//! Values without bytes by which contracts know what a call on a cell did, or in which state the call found it.
ghost use Rattle.std.specs.Prelude.{◌≡◌, []};
ghost use Rattle.arachne_join.specs.Views.{shown};

use crate::view::View;
use atomic_table::{Badge, Seat};
use std::marker::Model;

/// The proof, without bytes, of how one call changed a cell, or in which state the call found the cell.
#[derive(Drop)]
pub struct Receipt<K> {
    badge: Badge<View<K>>,
}

impl<K> Model for Receipt<K> {
    ghost use Rattle.std.specs.Prelude.{◌≡◌, [], ◌∷◌};
    ghost use Rattle.arachne_join.specs.declared.view.View.{View};
    ghost use Rattle.arachne_join.specs.Views.{Shown, shown, role_of};

    ghost Value = { Shown };

    ghost view = { λ r. shown r.badge.table_id (role_of r.badge.views) };

    ghost invariant = { λ r. (v : View K) × (r.badge.views ≡ v ∷ []) };
}

impl<K> Receipt<K> {
    pub(crate) fn of<T>(seat: Seat<Option<T>, View<K>>) -> Receipt<K>
        requires { seat.me.1 ≡ [] }
        ensures { result ≡ shown seat.table_id seat.me.0.role }
    {
        Receipt {
            badge: seat.into_badge(),
        }
    }

    pub(crate) fn into_seat<T>(self) -> Seat<Option<T>, View<K>>
        ensures { (self ≡ shown result.table_id result.me.0.role) × (result.me.1 ≡ []) }
    {
        let Receipt { badge } = self;
        badge.into_seat()
    }
}
