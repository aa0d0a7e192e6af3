//! Ledgers, with the calls that create them, add to one, read one, and split and join the shares by which threads add.
ghost use Rattle.std.specs.Prelude.{◌≡◌, ℕ, ◌+◌, ◌*◌, ◌%◌, ◌^◌, ◌<◌, [], map, length, replicate, vec_len, slice_index, Some, None, IfOk, IfErr};
ghost use Rattle.arachne_weights.specs.Weight.{whole, first_part, second_part, joined};
ghost use Rattle.arachne_ledger.specs.Sums.{raised, plus};
ghost use Rattle.arachne_ledger.specs.Balance.{word_of};
ghost use Rattle.arachne_ledger.specs.Views.{IsShareOf, IsWhole, IsLawfulEnd};

use crate::share::{Share, View};
use crate::steps::{Add, Balanced, Deal, Read};
use arachne_weights::Weight;
use atomic_table::Table;
use std::alloc::{AllocError, Global};
use std::marker::Model;

// The number of words in two cache lines, which processors fetch together.
const SPACING: usize = 16;

/// Several ledgers (counters that begin at 0). Many threads add to them, each through its own share (right to add).
#[derive(Drop)]
pub struct Ledgers {
    table: Table<(), View, usize, Balanced, Global>,
    count: usize,
}

impl Model for Ledgers {
    ghost use Rattle.arachne_ledger.specs.Views.{LedgersView};
    ghost use Rattle.arachne_ledger.specs.Seats.{IsLaidOut};

    ghost Value = { LedgersView };

    ghost view = { λ l. record { table = l.table.shared.table_id; count = l.count } };

    ghost invariant = { λ l. IsLaidOut l.table.shared.table_id l.table.shared.key l.count };
}

// Returns the index of the atomic word of `ledger`.
fn ledger_word(ledger: usize) -> usize
    requires { word_of ledger < 2 ^ 64 }
    ensures { result ≡ word_of ledger }
{
    SPACING * (ledger + 1)
}

// Returns the initial words of `count` ledgers, which are all 0.
fn zeros(alloc: Global, count: usize) -> Result<Vec<u64>, AllocError>
    ensures { IfOk result (λ v. (vec_len v ≡ word_of count) × ((i : ℕ) → slice_index v.items i ≡ 0)) }
{
    let words = SPACING.saturating_mul(count.saturating_add(1));
    let mut zeros = Vec::with_capacity(alloc, words)?;
    zeros.extend_from_slice(&[0; SPACING])?;
    for _ in 0..count {
        zeros.extend_from_slice(&[0; SPACING])?;
    }
    Ok(zeros)
}

impl Ledgers {
    /// Creates `count` ledgers (0 is allowed), and their first share (a right to add).
    ///
    /// Each share has a *weight*, a part of one whole. A split halves the weight. Only a share into which all others
    /// were joined has the whole weight.
    pub fn new(alloc: Global, count: usize) -> Result<(Ledgers, Share), AllocError>
        ensures ledgers { IfOk result (λ r. r.0.count ≡ count) }
        ensures share { IfOk result (λ r. r.1 ≡ record { table = r.0.table; weight = whole; sums = replicate count 0; last_read = None }) }
    {
        let words = zeros(alloc, count)?;
        let (table, seat) = Table::of_words(alloc, words.as_slice(), &count)?;
        let share = Share {
            seat,
            weight: Weight::whole(),
        };
        Ok((Ledgers { table, count }, share))
    }

    pub fn count(&self) -> usize
        ensures { result ≡ self.now.count }
    {
        self.count
    }

    /// Adds `amount` to a ledger, modulo 2^64, by one atomic operation. In contracts, `amount` is also added to the
    /// share's sum for this ledger.
    pub fn add(&self, share: &mut Share, ledger: usize, amount: u64)
        requires own { IsShareOf self.now share.old }
        requires ledger { ledger < self.now.count }
        ensures raised { share.new ≡ record share.old { sums = raised share.old.sums ledger amount } }
        ensures counted { length share.new.sums ≡ self.now.count }
    {
        let shared = &self.table.shared;
        shared.fetch_add::<Add>(&mut share.seat, ledger_word(ledger), amount);
    }

    /// Returns the sum of all amounts that were added to the ledger before this read, modulo 2^64.
    ///
    /// If no other share (right to add) is in use, the result is this share's sum for the ledger, modulo 2^64.
    pub fn read(&self, share: &mut Share, ledger: usize) -> u64
        requires own { IsShareOf self.now share.old }
        requires ledger { ledger < self.now.count }
        ensures found { share.new ≡ record share.old { last_read = Some (record { ledger = ledger; number = result }) } }
        ensures whole { IsWhole share.old → result ≡ slice_index share.old.sums ledger % 2 ^ 64 }
    {
        let shared = &self.table.shared;
        shared.load::<Read>(&mut share.seat, ledger_word(ledger))
    }

    /// Splits a share (a right to add) into two. In contracts, the first share keeps the sums of what was added through
    /// `share`, and the sums of the second are 0. The first share gets half of the weight (part of one whole), rounded
    /// up. If the weight is 1 or 0, both shares get weight 0.
    pub fn split(&self, share: Share) -> (Share, Share)
        requires { IsShareOf self.now share }
        ensures first { result.0 ≡ record share { weight = first_part share.weight } }
        ensures second { result.1 ≡ record {
          table = share.table;
          weight = second_part share.weight;
          sums = replicate (length share.sums) 0;
          last_read = None;
        } }
    {
        let Share { mut seat, weight } = share;
        let (first, second) = weight.split();
        let other = self.table.shared.split_seat::<Deal>(&mut seat);
        (
            Share {
                seat,
                weight: first,
            },
            Share {
                seat: other,
                weight: second,
            },
        )
    }

    /// Joins two shares (rights to add) into one, and adds their sums and their weights (parts of one whole).
    pub fn join_shares(&self, share: Share, other: Share) -> Share
        requires share { IsShareOf self.now share }
        requires other { IsShareOf self.now other }
        ensures { result ≡ record share {
          weight = joined share.weight other.weight;
          sums = plus share.sums other.sums;
        } }
    {
        let Share { mut seat, weight } = share;
        let Share {
            seat: spent,
            weight: added,
        } = other;
        self.table.shared.join_seat::<Deal>(&mut seat, spent);
        Share {
            seat,
            weight: weight.join(added),
        }
    }

    /// Closes the ledgers, and returns the sum of each, modulo 2^64. `share` must be the only share (right to add),
    /// because all others were joined into it.
    ///
    /// If memory is refused, returns the ledgers and the share as an error.
    pub fn close(self, alloc: Global, share: Share) -> Result<Vec<u64>, (Ledgers, Share)>
        requires own { IsShareOf self share }
        requires whole { IsWhole share }
        ensures sums { IfOk result (λ v. v.items ≡ map (λ sum. sum % 2 ^ 64) share.sums) }
        ensures counted { IfOk result (λ v. vec_len v ≡ self.count) }
        ensures lawful { IfOk result (λ v. IsLawfulEnd self.count share) }
        ensures err { IfErr result (λ r. (r.0 ≡ self) × (r.1 ≡ share)) }
    {
        let Ok(mut totals) = Vec::with_capacity(alloc, self.count) else {
            return Err((self, share));
        };
        let Ledgers { table, count } = self;
        let Share { seat, weight: _ } = share;
        let closed = table.close_with(seat);
        for ledger in 0..count {
            totals.push(closed.word(ledger_word(ledger))).unwrap();
        }
        closed.free();
        Ok(totals)
    }
}
