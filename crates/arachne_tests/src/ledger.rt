//! Tests of ledgers (counters): two threads add to them, and there are 0 to 16 of them.
ghost use Rattle.std.specs.Prelude.{◌<◌};
ghost use Rattle.arachne_ledger.specs.Views.{IsShareOf, IsWhole};

use arachne_ledger::{Ledgers, Share};
use std::alloc::{AllocError, Global};
use std::thread;
use std::thread::Threads;

fn add_threes(ledgers: &Ledgers, mut share: Share) -> Share
    requires share { IsShareOf ledgers.now share }
    requires some_ledger { 0 < ledgers.now.count }
    ensures { IsShareOf ledgers.now result }
{
    for _ in 0..1000 {
        ledgers.add(&mut share, 0, (1 << 63) + 3);
    }
    share
}

fn add_in_two_threads<R: Threads>(rt: &R, ledgers: &Ledgers, share: Share) -> Share
    requires share { IsShareOf ledgers.now share }
    requires some_ledger { 0 < ledgers.now.count }
    ensures { IsShareOf ledgers.now result }
{
    let (first, second) = ledgers.split(share);
    let (first, second) = thread::join(
        rt,
        move || add_threes(ledgers, first),
        move || add_threes(ledgers, second),
    );
    ledgers.join_shares(first, second)
}

/// Closes the ledgers, and returns true if their sums are as expected.
fn is_closed_with(alloc: Global, ledgers: Ledgers, share: Share, expected: &[u64]) -> bool
    requires share { IsShareOf ledgers share }
    requires whole { IsWhole share }
{
    match ledgers.close(alloc, share) {
        Ok(sums) => sums.as_slice() == expected,
        Err(_) => false,
    }
}

#[test]
fn two_threads_add_up(rt: HostRuntime) -> Result<(), AllocError> {
    let (ledgers, share) = Ledgers::new(rt.alloc(), 1)?;
    let share = add_in_two_threads(&rt, &ledgers, share);
    assert!(rt; share.is_whole());
    assert!(rt; is_closed_with(rt.alloc(), ledgers, share, &[6000]));
    Ok(())
}

const NUMBERS: [u64; 16] = [1, 2, 3, 4, 5, 6, 7, 8, 9, 10, 11, 12, 13, 14, 15, 16];

/// Returns true if each number that was added through one share can be read through another, and the two shares joined.
fn add_to_each(ledgers: &Ledgers, share: Share) -> (bool, Share)
    requires share { IsShareOf ledgers.now share }
    ensures { IsShareOf ledgers.now result.1 }
{
    let (mut share, mut other) = ledgers.split(share);
    let mut are_read = true;
    for ledger in 0..ledgers.count() {
        let number = (ledger as u64).wrapping_add(1);
        ledgers.add(&mut share, ledger, number);
        are_read &= ledgers.read(&mut other, ledger) == number;
    }
    (are_read, ledgers.join_shares(other, share))
}

fn come_to(alloc: Global, count: usize, expected: &[u64]) -> Result<bool, AllocError> {
    let (ledgers, share) = Ledgers::new(alloc, count)?;
    let (are_read, share) = add_to_each(&ledgers, share);
    if !are_read || !share.is_whole() {
        return Ok(false);
    }
    Ok(is_closed_with(alloc, ledgers, share, expected))
}

#[test]
fn none_to_sixteen_ledgers(rt: HostRuntime) -> Result<(), AllocError> {
    for count in 0..17 {
        assert!(rt; come_to(rt.alloc(), count, &NUMBERS[..count])?);
    }
    Ok(())
}

#[test]
fn more_ledgers_than_memory_are_refused(rt: HostRuntime) {
    for count in [1 << 59, usize::MAX] {
        assert!(rt; Ledgers::new(rt.alloc(), count).is_err());
    }
}
