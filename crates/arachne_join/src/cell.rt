//! A one-shot channel with a table of its own: the child leaves one value, and the parent fetches it.
ghost use Rattle.std.specs.Prelude.{◌≡◌, ◌≢◌, [], ◌∷◌, IfOk, IfErr};
ghost use Rattle.arachne_join.specs.States.{state_of};
ghost use Rattle.arachne_join.specs.Steps.{Sends, Looks, HoldsValue};
ghost use Rattle.arachne_join.specs.Views.{shown, view};
ghost use Rattle.arachne_join.specs.declared.view.Role.TheVariants.{Maker, Fetched, Saw};

use crate::fits::Fits;
use crate::receipt::Receipt;
use crate::sending_end::SendingEnd;
use crate::state::{CellState, EMPTY, FULL, TAKEN, WAITING};
use crate::steps::{
    CellRule, Fetch, FetchedAlone, JoinFetched, Look, ReturnSlot, TakeBack, TakeSlot,
};
use crate::view::View;
use atomic_table::{Seat, Table};
use std::alloc::{AllocError, Global};
use std::marker::Model;

/// A cell for one value. Each thread that shares the cell, such as by an `Arc`, may fetch, but only one gets the value.
///
/// A cell is made for a key, which exists only in proofs and says which values can be left.
#[derive(Drop)]
pub struct JoinCell<T: Fits<K>, K> {
    pub(crate) table: Table<Option<T>, View<K>, K, CellRule, Global>,
}

impl<T: Fits<K>, K> Model for JoinCell<T, K> {
    ghost use Rattle.std.specs.Prelude.{◌≡◌};
    ghost use Rattle.arachne_join.specs.Views.{Cell};

    ghost Value = { Cell K };

    ghost view = { λ c. record { table = c.table.shared.table_id; key = c.table.shared.key } };

    ghost invariant = { λ c. (c.table.shared.table_id.words ≡ 1) × (c.table.shared.table_id.slots ≡ 1) };
}

/// The error of a call that got no value.
#[derive(Drop)]
pub struct Missed<K> {
    pub state: CellState,
    pub receipt: Receipt<K>,
}

impl<K> Missed<K> {
    fn of<T>(found: u64, seat: Seat<Option<T>, View<K>>) -> Missed<K>
        requires { (seat.me.0.role ≡ Saw (state_of found)) × (seat.me.1 ≡ []) }
        ensures { (result.state ≡ state_of found) × (result.receipt ≡ shown seat.table_id (Saw result.state)) }
    {
        Missed {
            state: CellState::of(found),
            receipt: Receipt::of(seat),
        }
    }
}

impl<T: Fits<K>, K> JoinCell<T, K> {
    /// Creates an empty cell for `key`, and its sending end.
    pub fn new(alloc: Global, key: &K) -> Result<(JoinCell<T, K>, SendingEnd<T, K>), AllocError>
        ensures { IfOk result (λ made. (made.0.key ≡ key.now) × (made.1 ≡ made.0.table)) }
    {
        let (table, mut seat) = Table::vacant(alloc, &[EMPTY], 1, key)?;
        table.shared.load::<TakeSlot>(&mut seat, 0);
        Ok((JoinCell { table }, SendingEnd::of(seat)))
    }

    fn look(&self) -> (u64, Seat<Option<T>, View<K>>)
        ensures place { result.1.table_id ≡ self.now.table }
        ensures look { Looks (view (Some self.now.key) Maker, []) result.0 result.1.me }
    {
        self.table.shared.load_new_seat::<Look>(0)
    }

    pub(crate) fn fill(&self, seat: &mut Seat<Option<T>, View<K>>, value: T)
        requires { (seat.old.table_id ≡ self.now.table) × Sends seat.old.me }
        ensures place { (seat.new.table_id ≡ seat.old.table_id) × (seat.new.id ≡ seat.old.id) }
        ensures value { seat.new.me ≡ (seat.old.me.0, (0, Some value) ∷ []) }
    {
        match self.table.shared.exchange(seat, 0, Some(value)) {
            None => {}
            Some(_) => unreachable!(),
        }
    }

    fn take_out(&self, seat: &mut Seat<Option<T>, View<K>>) -> T
        requires { (seat.old.table_id ≡ self.now.table) × HoldsValue seat.old.me }
        ensures place { (seat.new.table_id ≡ seat.old.table_id) × (seat.new.id ≡ seat.old.id) }
        ensures value { (seat.old.me.1 ≡ (0, Some result) ∷ []) × (seat.new.me ≡ (seat.old.me.0, (0, None) ∷ [])) }
    {
        self.table.shared.exchange(seat, 0, None).unwrap()
    }

    /// Returns the state of the cell at one moment of the call, with a receipt (proof without bytes) of that state.
    pub fn seen(&self) -> (CellState, Receipt<K>)
        ensures { result.1 ≡ shown self.now.table (Saw result.0) }
    {
        let (found, seat) = self.look();
        (CellState::of(found), Receipt::of(seat))
    }

    /// Takes the value out of the cell. If no value was left there yet, or an earlier call has fetched it, returns the
    /// cell's state as the error.
    pub fn fetch(&self) -> Result<(T, Receipt<K>), Missed<K>>
        ensures value { IfOk result (λ got. T.fits self.now.key got.0) }
        ensures fetched { IfOk result (λ got. got.1 ≡ shown self.now.table Fetched) }
        ensures missed { IfErr result (λ missed. (missed.state ≢ CellState.Full) × (missed.receipt ≡ shown self.now.table (Saw missed.state))) }
    {
        let (seen, mut seat) = self.look();
        if seen != FULL {
            return Err(Missed::of(seen, seat));
        }
        let shared = &self.table.shared;
        let found = shared.compare_exchange::<Fetch>(&mut seat, 0, FULL, TAKEN);
        if found != FULL {
            return Err(Missed::of(found, seat));
        }
        let value = self.take_out(&mut seat);
        shared.load::<ReturnSlot>(&mut seat, 0);
        Ok((value, Receipt::of(seat)))
    }

    /// Takes back a value that `put_back` has put into the cell, and returns it with the cell's sending end.
    ///
    /// If the cell has no such value now, returns the cell's state as the error.
    pub fn take_back(&self) -> Result<(T, SendingEnd<T, K>), Missed<K>>
        ensures value { IfOk result (λ got. T.may_wait self.now.key got.0) }
        ensures sending_end { IfOk result (λ got. got.1 ≡ self.now.table) }
        ensures missed { IfErr result (λ missed. (missed.state ≢ CellState.Waiting) × (missed.receipt ≡ shown self.now.table (Saw missed.state))) }
    {
        let (seen, mut seat) = self.look();
        if seen != WAITING {
            return Err(Missed::of(seen, seat));
        }
        let shared = &self.table.shared;
        let found = shared.compare_exchange::<TakeBack>(&mut seat, 0, WAITING, EMPTY);
        if found != WAITING {
            return Err(Missed::of(found, seat));
        }
        let value = self.take_out(&mut seat);
        Ok((value, SendingEnd::of(seat)))
    }

    /// Does nothing when it runs. The contract says that at most one call has fetched from a cell.
    pub fn fetched_once(&self, fetched: Receipt<K>, other: Receipt<K>)
        requires fetched { fetched ≡ shown self.now.table Fetched }
        requires other { other.table ≡ self.now.table }
        ensures { other.role ≢ Fetched }
    {
        let mut seat = fetched.into_seat();
        let beside = other.into_seat();
        self.table
            .shared
            .join_seat::<JoinFetched>(&mut seat, beside);
        self.table.shared.load::<FetchedAlone>(&mut seat, 0);
    }
}
