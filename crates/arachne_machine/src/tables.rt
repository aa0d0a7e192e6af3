//! Lists with one number for each ledger or each lock.
ghost use Rattle.std.specs.Prelude.{◌≡◌, ℕ, ◌+◌, ◌==◌, if◌then◌else◌, ◌++◌, length, IfOk, OnOk, OnErr};
ghost use Rattle.arachne_program.specs.Effects.{tabulated};

use std::alloc::{AllocError, Global};

#[inline(always)]
pub fn zeros(alloc: Global, n: u8) -> Result<Vec<u64>, AllocError>
    ensures { IfOk result (λ v. v.items ≡ tabulated n (λ _. 0)) }
{
    if n == 0 {
        return Ok(Vec::new(alloc));
    }
    vec![in alloc; 0u64; usize::from(n)]
}

/// Appends `n` zeros. If memory is refused, only the capacity may have changed.
#[inline(always)]
pub fn push_zeros(numbers: &mut Vec<u64>, n: usize) -> Result<(), AllocError>
    ensures ok { OnOk result (numbers.new.items ≡ numbers.old.items ++ tabulated n (λ _. 0)) }
    ensures err { OnErr result (numbers.new.items ≡ numbers.old.items) }
{
    numbers.try_reserve(n)?;
    for _ in 0..n {
        numbers.push_reserved(0);
    }
    Ok(())
}

pub fn add_each(sums: &mut [u64], more: &[u64])
    requires { length more.now ≡ length sums.old }
    ensures { (n : ℕ) (own others : ℕ → ℕ) → sums.old ≡ tabulated n own → more.now ≡ tabulated n others
        → sums.new ≡ tabulated n (λ ledger. own ledger + others ledger) }
{
    for i in 0..sums.len() {
        sums[i] = sums[i].wrapping_add(more[i]);
    }
}

/// Adds `amount`, modulo 2^64, to the number at index `place`, if there is one.
pub fn add_at(sums: &mut [u64], place: u64, amount: u64)
    ensures { (n : ℕ) (own : ℕ → ℕ) → sums.old ≡ tabulated n own
        → sums.new ≡ tabulated n (λ other. own other + (if other == place then amount else 0)) }
{
    let place = place as usize;
    if place < sums.len() {
        sums[place] = sums[place].wrapping_add(amount);
    }
}
