//! A test that makes each public call of a join cell (a cell for one child's result) once.
ghost use Rattle.std.specs.Prelude.{◌≡◌, ◌<◌};

use arachne_join::{CellState, Fits, JoinCell, SendingEnd};
use std::alloc::AllocError;

// The number for which a join cell is made; it decides which results the cell accepts.
#[derive(Drop)]
struct Wanted(u64);

// Only the wanted number itself fits the cell, and only a smaller value may be put back into it.
impl Fits<Wanted> for u64 {
    ghost fits = { λ wanted value. value ≡ wanted.0 };

    ghost may_wait = { λ wanted value. value < wanted.0 };
}

fn is_missed(cell: &JoinCell<u64, Wanted>, state: CellState) -> bool {
    match cell.fetch() {
        Ok(_) => false,
        Err(missed) => missed.state == state,
    }
}

/// Returns `Some(true)` if each call on the cell has the expected result.
///
/// A fetch must fail before the first value is put there, while that value waits, after it was taken back, and after
/// the fetch of the other value.
fn passes(cell: &JoinCell<u64, Wanted>, end: SendingEnd<u64, Wanted>) -> Option<bool>
    requires number { cell.now.key.0 ≡ 7 }
    requires end { end ≡ cell.now.table }
{
    let empty = is_missed(cell, CellState::Empty);
    end.put_back(cell, 3);
    let waiting = is_missed(cell, CellState::Waiting);
    let (back, end) = cell.take_back().ok()?;
    let emptied = is_missed(cell, CellState::Empty) && cell.take_back().is_err();
    let left = end.leave(cell, 7);
    let (value, fetched) = cell.fetch().ok()?;
    cell.fetched_once(fetched, left);
    let taken = is_missed(cell, CellState::Taken);
    Some(empty && waiting && emptied && taken && back == 3 && value == 7)
}

#[test]
fn a_value_is_put_back_and_another_is_fetched_once(rt: HostRuntime) -> Result<(), AllocError> {
    let (cell, end) = JoinCell::new(rt.alloc(), &Wanted(7))?;
    assert!(rt; passes(&cell, end) == Some(true));
    Ok(())
}
