//! Two kernel threads share a context table, which has slots for ready threads. One puts numbers into slots of core 0,
//! and the other takes them out and sums them.

ghost use Rattle.std.specs.Prelude.{◌≡◌, ◌<◌, IfSome};

use anyhow::{Context, Result, ensure};
use arachne_table::{Claimed, Contexts, Tagged, Taken, WordContexts};
use std::alloc::Global;
use std::sync::Wait;
use std::thread;
use std::thread::Threads;
use std::time::{Clock, Duration};

/// The number of slots that the core has.
const PLACES: u8 = 8;

const NUMBERS: u64 = 1000;

/// A number, as a value that can be put into the table. Each such value has a tag (a number that identifies it), which
/// must not change while the table has the value.
#[derive(Drop)]
struct Parcel(u64);

impl Tagged for Parcel {
    ghost tag_of = { λ parcel. parcel.0 };

    fn tag(&self) -> u64 {
        self.0
    }
}

/// Puts all numbers into the table, each as soon as a slot is free.
///
/// Returns the seat (this thread's right to use the table), or `None` if memory is refused.
fn post<C: Contexts<Parcel>, R: Wait + Clock>(rt: &R, table: &C, seat: C::Seat) -> Option<C::Seat>
    requires seat { C.sits table.now seat × C.idle table.now seat }
    requires core { 0 < C.core_count table.now }
    ensures { IfSome result (λ seat. C.sits table.now seat × C.idle table.now seat) }
{
    let (mut seat, mut number) = (seat, 0);
    for _ in rt.forever() {
        if number == NUMBERS {
            return Some(seat);
        }
        match table.claim(rt, &mut seat, 0).ok()? {
            Claimed::Place(claim) => {
                table.post(rt, &mut seat, claim, Parcel(number)).ok()?;
                number += 1;
            }
            // The other thread has changed that slot in the meantime: try again.
            Claimed::Lost(_) => {}
            Claimed::Full(_) | Claimed::Closed(_) => thread::sleep(rt, Duration::from_micros(50)),
        }
    }
    unreachable!()
}

/// Takes numbers out of the table, whenever one is ready, until all have been taken.
///
/// Returns the seat (this thread's right to use the table) and the sum of the numbers, or `None` if memory is refused.
fn take_all<C: Contexts<Parcel>, R: Wait + Clock>(
    rt: &R,
    table: &C,
    mut seat: C::Seat,
) -> Option<(C::Seat, u64)>
    requires seat { C.sits table.now seat × C.idle table.now seat }
    requires core { (0 < C.core_count table.now) × (PLACES ≡ C.slot_count table.now) }
    ensures { IfSome result (λ done. C.sits table.now done.0 × C.idle table.now done.0) }
{
    let (mut taken, mut sum) = (0u64, 0u64);
    for _ in rt.forever() {
        for index in 0..PLACES {
            if let Taken::Run(held) = table.take(rt, &mut seat, 0, index) {
                let Parcel(number) = table.finish(rt, &mut seat, held).ok()?;
                sum = sum.wrapping_add(number);
                taken = taken.wrapping_add(1);
            }
        }
        if taken == NUMBERS {
            return Some((seat, sum));
        }
        thread::sleep(rt, Duration::from_micros(50));
    }
    unreachable!()
}

pub fn show<R: Threads + Wait + Clock + Sync + Print>(rt: &R, alloc: Global) -> Result<()> {
    let (table, seat) = WordContexts::<Parcel>::new(alloc, 1, PLACES, 0)?;
    let (first, second) = table.split(seat);
    let (first, second) = thread::join(
        rt,
        || post::<WordContexts<Parcel>, R>(rt, &table, first),
        || take_all::<WordContexts<Parcel>, R>(rt, &table, second),
    );
    let (first, (second, sum)) = first.zip(second).context("memory was refused")?;
    let seat = table.join_seats(first, second);
    ensure!(table.is_whole(&seat), "a seat is missing");
    let left = table.close(alloc, seat).ok().context("memory was refused")?;
    println!(rt; "the sum is {sum}, and {} are left", left.len())?;
    Ok(())
}
