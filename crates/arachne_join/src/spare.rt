//! A store of unused cells, so that opening a cell seldom allocates.
ghost use Rattle.std.specs.Prelude.{◌≡◌, IfOk};
ghost use Rattle.arachne_join.specs.Openings.{awaited};

use crate::block::{CELLS, CellBlock};
use crate::ends::{Receiver, Sender, UnusedCell};
use crate::fits::Fits;
use std::alloc::{AllocError, Global};
use std::sync::Arc;

/// The greatest number of cells in a store. Without a limit, a thread that only receives could collect ever more cells.
const MOST: usize = 4 * CELLS;

/// A store of unused cells for one thread. Cells are allocated 64 at a time, in blocks.
///
/// A block is freed after its last cell was dropped.
#[derive(Drop)]
pub struct SpareCells<T: Fits<K>, K> {
    cells: Vec<UnusedCell<T, K>>,
}

impl<T: Fits<K> + Drop, K> SpareCells<T, K> {
    /// Creates an empty store. Does not allocate.
    pub fn new(alloc: Global) -> SpareCells<T, K> {
        SpareCells {
            cells: Vec::new(alloc),
        }
    }

    /// Returns an unused cell. If the store is empty, allocates a new block of cells.
    pub fn take(&mut self, alloc: Global) -> Result<UnusedCell<T, K>, AllocError> {
        match self.cells.pop() {
            Some(cell) => Ok(cell),
            None => self.add_block(alloc),
        }
    }

    /// Puts `cell` into the store. Drops the cell if the store is full or memory is refused.
    pub fn give(&mut self, cell: UnusedCell<T, K>) {
        if self.cells.len() < MOST {
            let _ = self.cells.push(cell);
        }
    }

    /// Takes an unused cell, and opens it for a value that fits `key`. Returns the cell's receiver and its sender.
    pub fn open(
        &mut self,
        alloc: Global,
        key: &K,
    ) -> Result<(Receiver<T, K>, Sender<T, K>), AllocError>
        ensures key { IfOk result (λ ends. ends.1.key ≡ key.now) }
        ensures receiver { IfOk result (λ ends. ends.0 ≡ awaited ends.1) }
    {
        match self.take(alloc)?.open(key) {
            Ok(ends) => Ok(ends),
            Err(cell) => {
                self.give(cell);
                Err(AllocError)
            }
        }
    }

    fn add_block(&mut self, alloc: Global) -> Result<UnusedCell<T, K>, AllocError> {
        self.cells.reserve(CELLS - 1)?;
        let (block, mut all) = CellBlock::new(alloc)?;
        let block = Arc::new(alloc, block)?;
        let first = block.give_first(&mut all, 0);
        for index in 1..CELLS {
            let seat = block.give_first(&mut all, index);
            let owner = Arc::try_clone(&block)?;
            self.cells.push(UnusedCell::new(owner, seat, index as u32))?;
        }
        Ok(UnusedCell::new(block, first, 0))
    }
}
