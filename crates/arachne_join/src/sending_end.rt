//! The sending end of a cell. Leaving a value consumes it.
ghost use Rattle.std.specs.Prelude.{◌≡◌};
ghost use Rattle.arachne_join.specs.Steps.{Sends};
ghost use Rattle.arachne_join.specs.Views.{shown};
ghost use Rattle.arachne_join.specs.declared.view.Role.TheVariants.{Left, PutBack};

use crate::cell::JoinCell;
use crate::fits::Fits;
use crate::receipt::Receipt;
use crate::state::{FULL, WAITING};
use crate::steps;
use crate::view::View;
use atomic_table::Seat;
use std::marker::Model;

/// The only sending end of a cell. Leaving a value consumes the end. If the end is dropped, the cell stays empty.
#[derive(Drop)]
pub struct SendingEnd<T, K> {
    seat: Seat<Option<T>, View<K>>,
}

impl<T, K> Model for SendingEnd<T, K> {
    ghost use Rattle.atomic_table.specs.Seated.{TableId};
    ghost use Rattle.arachne_join.specs.Steps.{Sends};

    ghost Value = { TableId };

    ghost view = { λ s. s.seat.table_id };

    ghost invariant = { λ s. Sends s.seat.me };
}

impl<T, K> SendingEnd<T, K> {
    pub(crate) fn of(seat: Seat<Option<T>, View<K>>) -> SendingEnd<T, K>
        requires { Sends seat.me }
        ensures { result ≡ seat.table_id }
    {
        SendingEnd { seat }
    }
}

impl<T: Fits<K>, K> SendingEnd<T, K> {
    /// Leaves `value` in `cell`, from which one `fetch` can take it. Neither allocates nor waits.
    pub fn leave(self, cell: &JoinCell<T, K>, value: T) -> Receipt<K>
        requires cell { self ≡ cell.now.table }
        requires value { T.fits cell.now.key value }
        ensures { result ≡ shown cell.now.table Left }
    {
        let SendingEnd { mut seat } = self;
        cell.fill(&mut seat, value);
        cell.table.shared.store::<steps::Leave>(&mut seat, 0, FULL);
        Receipt::of(seat)
    }

    /// Puts `waiting` into `cell`, from which only `take_back` can take the value, and no `fetch`.
    ///
    /// `take_back` returns the sending end together with the value. Neither allocates nor waits.
    pub fn put_back(self, cell: &JoinCell<T, K>, waiting: T) -> Receipt<K>
        requires cell { self ≡ cell.now.table }
        requires value { T.may_wait cell.now.key waiting }
        ensures { result ≡ shown cell.now.table PutBack }
    {
        let SendingEnd { mut seat } = self;
        cell.fill(&mut seat, waiting);
        cell.table
            .shared
            .store::<steps::PutBack>(&mut seat, 0, WAITING);
        Receipt::of(seat)
    }
}
