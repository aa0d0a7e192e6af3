//! Computes on another kernel thread, and passes the result through a join cell.
//!
//! The child puts its result into the cell, and the parent fetches it from there.

ghost use Rattle.std.specs.Prelude.{◌≡◌, ◌*◌, ◌%◌, ◌^◌, IfOk};

use anyhow::Result;
use arachne_join::{Fits, JoinCell, SendingEnd};
use std::alloc::{AllocError, Global};
use std::sync::Wait;
use std::thread;
use std::thread::{Parker, Threads};

/// The square of a number, modulo 2^64.
#[derive(Drop)]
struct Square(u64);

/// Declares that a cell made for a number accepts only the square of that number.
impl Fits<u64> for Square {
    ghost fits = { λ number square. square.0 ≡ number * number % 2 ^ 64 };
}

type Cell = JoinCell<Square, u64>;

/// The number of squares that the example adds up, each computed by a kernel thread of its own.
const MANY: u64 = 10_000;

/// Puts the square of `number` into the cell, and wakes the parent. The call consumes `end`, the cell's sending end, so
/// the cell gets no second value.
fn leave(cell: &Cell, end: SendingEnd<Square, u64>, number: u64, left: &Parker)
    requires place { end ≡ cell.now.table }
    requires what_for { cell.now.key ≡ number }
{
    end.leave(cell, Square(number.wrapping_mul(number)));
    left.unpark();
}

/// Waits (by parking this kernel thread) until the cell has a value, and returns the value.
fn fetch<R: Wait>(rt: &R, cell: &Cell, left: &Parker) -> u64
    ensures { result ≡ cell.now.key * cell.now.key % 2 ^ 64 }
{
    for _ in rt.forever() {
        if let Ok((square, _)) = cell.fetch() {
            return square.0;
        }
        left.park(rt);
    }
    unreachable!()
}

/// Computes the square of `number` on another kernel thread, and returns it.
///
/// Returns an error if memory is refused.
fn square_beside<R: Threads + Wait + Sync>(
    rt: &R,
    alloc: Global,
    number: u64,
) -> Result<u64, AllocError>
    ensures { IfOk result (λ square. square ≡ number * number % 2 ^ 64) }
{
    let (cell, end) = JoinCell::new(alloc, &number)?;
    let left = Parker::new();
    let ((), square) = thread::join(
        rt,
        || leave(&cell, end, number, &left),
        || fetch(rt, &cell, &left),
    );
    Ok(square)
}

pub fn show<R: Threads + Wait + Sync + Print>(rt: &R, alloc: Global) -> Result<()> {
    for number in [3, 12, 1 << 32] {
        let square = square_beside(rt, alloc, number)?;
        println!(rt; "{square}")?;
    }
    let mut sum = 0u64;
    for number in 0..MANY {
        sum = sum.wrapping_add(square_beside(rt, alloc, number)?);
    }
    println!(rt; "{sum}")?;
    Ok(())
}
