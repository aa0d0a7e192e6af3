//! A share: one thread's right to add to the ledgers.
ghost use Rattle.std.specs.Prelude.{◌≡◌, ◌↔◌, IsTrue};
ghost use Rattle.arachne_ledger.specs.Views.{IsWhole};

use arachne_weights::{Token, Weight};
use atomic_table::Seat;
use std::collections::LinkedList;
use std::marker::Model;

/// The value that a read has found in a ledger.
pub struct Reading {
    pub ledger: usize,
    pub number: u64,
}

/// The record of a share (a thread's right to add). `sums` has its sum for each ledger, not modulo 2^64.
pub struct Known {
    pub sums: LinkedList<u64>,
    pub last_read: Option<Reading>,
}

/// The record of a share (right to add), with its weight (part of one whole). The type exists only for contracts.
pub type View = Token<Known>;

/// One thread's right to add to all ledgers of a `Ledgers`. Contracts keep the sums that each share has added.
///
/// A share may be used only with the `Ledgers` for which it was created, and joined only with other shares of the same
/// `Ledgers`. If a share is dropped, these ledgers can never be closed.
#[derive(Drop)]
pub struct Share {
    pub(crate) seat: Seat<(), View>,
    pub(crate) weight: Weight,
}

impl Model for Share {
    ghost use Rattle.arachne_ledger.specs.Views.{ShareView};
    ghost use Rattle.arachne_ledger.specs.Seats.{IsSeated};

    ghost Value = { ShareView };

    ghost view = { λ s. record { table = s.seat.table_id; weight = s.weight; sums = s.seat.me.0.known.sums; last_read = s.seat.me.0.known.last_read } };

    ghost invariant = { λ s. IsSeated s.seat.table_id s.weight s.seat.me };
}

impl Share {
    /// Returns whether this is the only share (right to add), because all others were joined into it.
    pub fn is_whole(&self) -> bool
        ensures { IsTrue result ↔ IsWhole self.now }
    {
        self.weight.is_whole()
    }
}
