//! Two kernel threads add the halves of a list to one ledger (a counter), which then has the sum of the whole list.

ghost use Rattle.std.specs.Prelude.{◌≡◌, ◌%◌, ◌^◌, [], ◌∷◌, IfSome, sum};
ghost use Rattle.arachne_ledger.specs.Views.{IsShareOf};

use anyhow::{Context, Result};
use arachne_ledger::{Ledgers, Share};
use std::alloc::Global;
use std::thread;
use std::thread::Threads;

/// Adds each of `numbers` to the only ledger. The caller must pass a share (a thread's right to use the ledgers)
/// through which nothing was added before.
fn add_all(ledgers: &Ledgers, mut share: Share, numbers: &[u64]) -> Share
    requires own { IsShareOf ledgers.now share }
    requires one { ledgers.now.count ≡ 1 }
    requires nothing { share.sums ≡ 0 ∷ [] }
    ensures { result ≡ record share { sums = sum numbers.now ∷ [] } }
{
    for number in numbers {
        ledgers.add(&mut share, 0, *number);
    }
    share
}

/// Returns the sum of `numbers`, modulo 2^64, or `None` if memory is refused.
fn sum_of<R: Threads>(rt: &R, alloc: Global, numbers: &[u64]) -> Option<u64>
    ensures { IfSome result (λ total. total ≡ sum numbers.now % 2 ^ 64) }
{
    let (ledgers, share) = Ledgers::new(alloc, 1).ok()?;
    let (first, second) = ledgers.split(share);
    let (left, right) = numbers.split_at(numbers.len() / 2);
    let (first, second) = thread::join(
        rt,
        || add_all(&ledgers, first, left),
        || add_all(&ledgers, second, right),
    );
    let mut share = ledgers.join_shares(first, second);
    // The sum is final only if this share is whole, so that nobody else can still add.
    share.is_whole().then(|| ledgers.read(&mut share, 0))
}

pub fn show<R: Threads + Sync + Print>(rt: &R, alloc: Global) -> Result<()> {
    let numbers: Vec<u64> = (0..10_000u64).collect(alloc)?;
    let total = sum_of(rt, alloc, numbers.as_slice()).context("memory was refused")?;
    println!(rt; "{total}")?;
    Ok(())
}
