//! Reusable cells. Opening a cell returns a `Sender` and a `Receiver` for one value. The receiver gets the value with
//! the cell, which is then unused.
ghost use Rattle.std.specs.Prelude.{◌≡◌, ◌<◌, IfOk, IfErr};
ghost use Rattle.std.specs.Arc.{arc_value};
ghost use Rattle.arachne_join.specs.BlockSteps.{IsUnusedAt};
ghost use Rattle.arachne_join.specs.Openings.{opening, awaited, missed_again, used_once_more};

use crate::block::{BlockSeat, CellBlock};
use crate::fits::Fits;
use std::marker::Model;
use std::snapshot::Snapshot;
use std::sync::Arc;

/// A cell that is not in use. `open` uses it for one value, and `Receiver::fetch` returns it with that value.
#[derive(Drop)]
pub struct UnusedCell<T: Fits<K>, K> {
    block: Arc<CellBlock<T, K>>,
    seat: BlockSeat<T, K>,
    index: u32,
    full: u32,
}

impl<T: Fits<K>, K> Model for UnusedCell<T, K> {
    ghost use Rattle.std.specs.Arc.{arc_value};
    ghost use Rattle.arachne_join.specs.BlockSteps.{IsUnusedAt};
    ghost use Rattle.arachne_join.specs.Openings.{BlockCell, IsPlaced};

    ghost Value = { BlockCell };

    ghost view = { λ c. record { table = c.seat.table_id; index = c.index; passed = c.seat.me.0.passed } };

    ghost invariant = { λ c. IsPlaced (arc_value c.block) c.seat.table_id c.index c.full c.seat.me.0.passed × IsUnusedAt c.index c.seat.me.0.passed c.seat.me };
}

/// The sending end of an opened cell. If it is dropped, the receiver gets no value, and the cell is not used again.
#[derive(Drop)]
pub struct Sender<T: Fits<K>, K> {
    block: Arc<CellBlock<T, K>>,
    seat: BlockSeat<T, K>,
    index: u32,
    full: u32,
    key: Snapshot<K>,
}

impl<T: Fits<K>, K> Model for Sender<T, K> {
    ghost use Rattle.std.specs.Arc.{arc_value};
    ghost use Rattle.arachne_join.specs.BlockSteps.{IsSendingAt};
    ghost use Rattle.arachne_join.specs.Openings.{Opening, IsPlaced};

    ghost Value = { Opening K };

    ghost view = { λ s. record { cell = record { table = s.seat.table_id; index = s.index; passed = s.seat.me.0.passed }; key = s.key.value } };

    ghost invariant = { λ s. IsPlaced (arc_value s.block) s.seat.table_id s.index s.full s.seat.me.0.passed × IsSendingAt s.index s.seat.me.0.passed s.key.value s.seat.me };
}

/// The receiving end of an opened cell. If the receiver is dropped, the cell is not used again.
#[derive(Drop)]
pub struct Receiver<T: Fits<K>, K> {
    block: Arc<CellBlock<T, K>>,
    seat: BlockSeat<T, K>,
    index: u32,
    full: u32,
    key: Snapshot<K>,
}

impl<T: Fits<K>, K> Model for Receiver<T, K> {
    ghost use Rattle.std.specs.Arc.{arc_value};
    ghost use Rattle.arachne_join.specs.BlockSteps.{IsReceivingAt, misses_of};
    ghost use Rattle.arachne_join.specs.Openings.{Awaited, IsPlaced};

    ghost Value = { Awaited K };

    ghost view = { λ r. record {
      opening = record { cell = record { table = r.seat.table_id; index = r.index; passed = r.seat.me.0.passed }; key = r.key.value };
      misses = misses_of r.seat.me.0.part;
    } };

    ghost invariant = { λ r. IsPlaced (arc_value r.block) r.seat.table_id r.index r.full r.seat.me.0.passed × IsReceivingAt r.index r.seat.me.0.passed r.key.value (misses_of r.seat.me.0.part) r.seat.me };
}

impl<T: Fits<K> + Drop, K> UnusedCell<T, K> {
    pub(crate) fn new(
        block: Arc<CellBlock<T, K>>,
        seat: BlockSeat<T, K>,
        index: u32,
    ) -> UnusedCell<T, K>
        requires own { seat.table_id ≡ arc_value block }
        requires inside { index < (arc_value block).slots }
        requires unused { IsUnusedAt index 0 seat.me }
        ensures { result ≡ record { table = seat.table_id; index = index; passed = 0 } }
    {
        UnusedCell {
            block,
            seat,
            index,
            full: 1,
        }
    }

    /// Opens the cell for one value that fits `key`, which only proofs use. Does not allocate.
    ///
    /// If the reference count of the cell's block can't grow, returns the cell as the error.
    pub fn open(self, key: &K) -> Result<(Receiver<T, K>, Sender<T, K>), UnusedCell<T, K>>
        ensures receiver { IfOk result (λ ends. ends.0 ≡ awaited (opening self key.now)) }
        ensures sender { IfOk result (λ ends. ends.1 ≡ opening self key.now) }
        ensures handed_back { IfErr result (λ cell. cell ≡ self) }
    {
        let Ok(sender_block) = Arc::try_clone(&self.block) else {
            return Err(self);
        };
        let UnusedCell {
            block,
            mut seat,
            index,
            full,
        } = self;
        let receiving = block.open(&mut seat, index as usize, key);
        let receiver = Receiver {
            block,
            seat: receiving,
            index,
            full,
            key: Snapshot::of(key),
        };
        let sender = Sender {
            block: sender_block,
            seat,
            index,
            full,
            key: Snapshot::of(key),
        };
        Ok((receiver, sender))
    }
}

impl<T: Fits<K> + Drop, K> Sender<T, K> {
    /// Sends `value` to the receiver. Neither allocates nor waits.
    pub fn leave(self, value: T)
        requires { T.fits self.key value }
    {
        let Sender {
            block,
            seat,
            index,
            full,
            key: _,
        } = self;
        block.leave(seat, index as usize, u64::from(full), value);
    }
}

impl<T: Fits<K> + Drop, K> Receiver<T, K> {
    /// Returns the value that the sender has left, together with the cell, which can be opened again.
    ///
    /// Reads the cell's word once. If there is no value yet, returns the receiver as the error.
    pub fn fetch(self) -> Result<(T, UnusedCell<T, K>), Receiver<T, K>>
        ensures value { IfOk result (λ got. T.fits self.opening.key got.0) }
        ensures cell { IfOk result (λ got. got.1 ≡ used_once_more self.opening.cell) }
        ensures missed { IfErr result (λ receiver. receiver ≡ missed_again self) }
    {
        let Receiver {
            block,
            mut seat,
            index,
            full,
            key,
        } = self;
        match block.fetch(&mut seat, index as usize, u64::from(full)) {
            Some(value) => {
                let cell = UnusedCell {
                    block,
                    seat,
                    index,
                    full: 1 - full,
                };
                Ok((value, cell))
            }
            None => Err(Receiver {
                block,
                seat,
                index,
                full,
                key,
            }),
        }
    }
}
