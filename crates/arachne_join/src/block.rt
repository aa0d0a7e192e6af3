//! A block of 64 reusable cells in one table, with an atomic word and a slot (the field for the value) for each cell.
ghost use Rattle.std.specs.Prelude.{◌≡◌, ◌+◌, ◌<◌, [], replicate, IfOk, IfSome, IfNone};
ghost use Rattle.arachne_join.specs.declared.part.Part.TheVariants.{Rest};
ghost use Rattle.arachne_join.specs.declared.part.Content.TheVariants.{Empty};
ghost use Rattle.arachne_join.specs.Parts.{part_view, word_after, IsReceivingFor};
ghost use Rattle.arachne_join.specs.BlockSteps.{IsUnusedAt, IsSendingAt, IsReceivingAt, misses_of, missed_once};

use crate::block_steps::{BlockRule, FetchThere, GiveFirst, LeaveThere, Open, PartEnds, Start};
use crate::fits::Fits;
use crate::part::{Content, PartView};
use atomic_table::{Seat, Table};
use std::alloc::{AllocError, Global};
use std::marker::Model;
use std::snapshot::Snapshot;

pub(crate) const CELLS: usize = 64;

/// A thread's right to use some cells of a block.
pub(crate) type BlockSeat<T, K> = Seat<Content<T, K>, PartView<K>>;

/// A block of cells, each of which carries one value at a time from a sender to a receiver.
///
/// Each cell has a field for the value, and an atomic word that says if the value is there.
#[derive(Drop)]
pub(crate) struct CellBlock<T: Fits<K>, K> {
    table: Table<Content<T, K>, PartView<K>, (), BlockRule, Global>,
}

impl<T: Fits<K>, K> Model for CellBlock<T, K> {
    ghost use Rattle.std.specs.Prelude.{◌≡◌};
    ghost use Rattle.atomic_table.specs.Seated.{TableId};

    ghost Value = { TableId };

    ghost view = { λ b. b.table.shared.table_id };

    ghost invariant = { λ b. b.table.shared.table_id.words ≡ b.table.shared.table_id.slots };
}

fn empty_slots<T: Drop, K>(alloc: Global) -> Result<Vec<Content<T, K>>, AllocError>
    ensures { IfOk result (λ slots. slots.items ≡ replicate CELLS Empty) }
{
    let mut slots = Vec::with_capacity(alloc, CELLS)?;
    for _ in 0..CELLS {
        slots.push(Content::Empty)?;
    }
    Ok(slots)
}

impl<T: Fits<K> + Drop, K> CellBlock<T, K> {
    /// Creates a block, and the seat (right to use it) that owns all its cells.
    pub(crate) fn new(alloc: Global) -> Result<(CellBlock<T, K>, BlockSeat<T, K>), AllocError>
        ensures size { IfOk result (λ made. made.0.slots ≡ CELLS) }
        ensures seat { IfOk result (λ made. (made.1.table_id ≡ made.0) × (made.1.me ≡ (part_view Rest 0 0, []))) }
    {
        let slots = empty_slots(alloc)?;
        match Table::new(alloc, &[0; CELLS], slots, &()) {
            Ok((table, seat)) => Ok((CellBlock { table }, seat)),
            Err(_) => Err(AllocError),
        }
    }
}

impl<T: Fits<K>, K> CellBlock<T, K> {
    /// Splits cell `index`, the first that `all` owns, off `all`, and returns a seat for it.
    pub(crate) fn give_first(&self, all: &mut BlockSeat<T, K>, index: usize) -> BlockSeat<T, K>
        requires own { all.old.table_id ≡ self.now }
        requires inside { index < self.now.slots }
        requires all { all.old.me ≡ (part_view Rest index 0, []) }
        ensures own { (all.new.table_id ≡ self.now) × (result.table_id ≡ self.now) }
        ensures all { all.new.me ≡ (part_view Rest (index + 1) 0, []) }
        ensures cell { IsUnusedAt index 0 result.me }
    {
        let shared = &self.table.shared;
        let mut cell = shared.split_seat::<GiveFirst>(all);
        shared.load::<Start>(&mut cell, index);
        cell
    }

    /// Opens the unused cell `index` for a value that fits `key`. `seat` may then only send the value, and the returned
    /// seat only receive it.
    pub(crate) fn open(&self, seat: &mut BlockSeat<T, K>, index: usize, key: &K) -> BlockSeat<T, K>
        requires own { seat.old.table_id ≡ self.now }
        requires inside { index < self.now.slots }
        requires unused { IsUnusedAt index seat.old.me.0.passed seat.old.me }
        ensures own { (seat.new.table_id ≡ self.now) × (result.table_id ≡ self.now) }
        ensures sending { IsSendingAt index seat.old.me.0.passed key.now seat.new.me }
        ensures receiving { IsReceivingAt index seat.old.me.0.passed key.now 0 result.me }
    {
        let shared = &self.table.shared;
        match shared.exchange(seat, index, Content::For(Snapshot::of(key))) {
            Content::Empty => {}
            _ => unreachable!(),
        }
        shared.load::<Open>(seat, index);
        shared.split_seat::<PartEnds>(seat)
    }

    /// Stores `value` in cell `index` before it sets the cell's word to `full`, so that the value can be fetched.
    pub(crate) fn leave(&self, seat: BlockSeat<T, K>, index: usize, full: u64, value: T)
        requires own { seat.table_id ≡ self.now }
        requires inside { index < self.now.slots }
        requires sending { (key : K) × IsSendingAt index seat.me.0.passed key seat.me × T.fits key value }
        requires word { full ≡ word_after (seat.me.0.passed + 1) }
    {
        let mut seat = seat;
        let shared = &self.table.shared;
        match shared.exchange(&mut seat, index, Content::Value(value)) {
            Content::For(_) => {}
            _ => unreachable!(),
        }
        shared.store::<LeaveThere>(&mut seat, index, full);
    }

    /// Takes the value out of cell `index`, or returns `None` if the cell's word isn't `full` yet.
    pub(crate) fn fetch(&self, seat: &mut BlockSeat<T, K>, index: usize, full: u64) -> Option<T>
        requires own { seat.old.table_id ≡ self.now }
        requires inside { index < self.now.slots }
        requires receiving { (key : K) × IsReceivingAt index seat.old.me.0.passed key (misses_of seat.old.me.0.part) seat.old.me }
        requires word { full ≡ word_after (seat.old.me.0.passed + 1) }
        ensures own { seat.new.table_id ≡ self.now }
        ensures value { IfSome result (λ value. (key : K) → IsReceivingFor key seat.old.me.0.part → T.fits key value) }
        ensures fetched { IfSome result (λ _. IsUnusedAt index (seat.old.me.0.passed + 1) seat.new.me) }
        ensures missed { IfNone result (seat.new.me ≡ (missed_once seat.old.me.0, [])) }
    {
        let shared = &self.table.shared;
        if shared.load::<FetchThere>(seat, index) != full {
            return None;
        }
        match shared.exchange(seat, index, Content::Empty) {
            Content::Value(value) => Some(value),
            _ => unreachable!(),
        }
    }
}
