//! The C functions by which a host creates ledgers (counters to which many threads add), uses them and closes them.
ghost use Rattle.std.specs.Prelude.{◌≡◌, ◌↔◌, IsTrue, MatchBool};
ghost use Rattle.std.specs.Option.{option_map, IsSomeAnd};
ghost use Rattle.std.specs.declared.option.Option.TheVariants.{None};
ghost use Rattle.arachne_exec_c.specs.Adder.{HasLedger, MayRead, IsMade, IsSplit, IsJoined, HasRead, with_amount};
ghost use Rattle.arachne_exec_c.specs.AdderHeld.{held, IsOfOne};

use crate::adder::ArachneAdder;
use crate::adding::{Adding, cut, join_held};
use crate::codes::{DONE, NO_MEMORY, REFUSED};
use std::alloc::Global;

/// Creates `count` ledgers (counters), each of total 0. Puts the first share (a thread's right to add to the ledgers)
/// into `adder`, which must be empty.
///
/// Returns DONE; REFUSED if the handle is in use; NO_MEMORY if memory is refused.
#[unsafe(no_mangle)]
pub extern "C" fn arachne_ledgers_new(alloc: Global, adder: &mut ArachneAdder, count: usize) -> u32
    ensures { IsMade count (held adder.old) (held adder.new) result }
{
    if adder.is_in_use(alloc) {
        return REFUSED;
    }
    let Ok(adding) = Adding::new(alloc, count) else {
        return NO_MEMORY;
    };
    let Ok(value) = Box::new(alloc, Some(adding)) else {
        return NO_MEMORY;
    };
    adder.put(value);
    DONE
}

/// Adds `amount` to the ledger with index `ledger`.
///
/// Returns false, and changes nothing, if the handle is empty or if there is no such ledger.
#[unsafe(no_mangle)]
pub extern "C" fn arachne_ledger_add(
    alloc: Global,
    adder: &mut ArachneAdder,
    ledger: usize,
    amount: u64,
) -> bool
    ensures known { IsTrue result ↔ IsSomeAnd (held adder.old) (HasLedger ledger) }
    ensures added { MatchBool result (held adder.new ≡ option_map (with_amount ledger amount) (held adder.old)) (held adder.new ≡ held adder.old) }
{
    let Some(mut value) = adder.take(alloc) else {
        return false;
    };
    let known = match &mut *value {
        Some(adding) if adding.has(ledger) => {
            adding.add(ledger, amount);
            true
        }
        _ => false,
    };
    adder.put(value);
    known
}

/// Writes the sum of all amounts added to a ledger, modulo 2^64, to `total`. All other handles must have been joined
/// into this one.
///
/// Returns false, and changes nothing, if another handle was not joined into this one, if the handle is empty, or if
/// there is no such ledger.
#[unsafe(no_mangle)]
pub extern "C" fn arachne_ledger_total(
    alloc: Global,
    adder: &mut ArachneAdder,
    ledger: usize,
    total: &mut u64,
) -> bool
    ensures read { IsTrue result ↔ IsSomeAnd (held adder.old) (MayRead ledger) }
    ensures told { MatchBool result
        (HasRead ledger total.new (held adder.old) (held adder.new))
        ((total.new ≡ total.old) × (held adder.new ≡ held adder.old)) }
{
    let Some(mut value) = adder.take(alloc) else {
        return false;
    };
    let found = match &mut *value {
        Some(adding) => adding.total(ledger),
        None => None,
    };
    adder.put(value);
    let Some(number) = found else {
        return false;
    };
    *total = number;
    true
}

/// Splits the share of `adder` (a thread's right to add), and puts a new share for another thread into `other`.
///
/// Returns DONE; REFUSED if `adder` is empty or `other` is in use; NO_MEMORY if memory is refused or the reference
/// count can't grow.
///
/// More than 127 splits one after another, each of a share from the last split, still succeed, but then no total can be
/// read.
#[unsafe(no_mangle)]
#[tactic(auto, using(crate::proofs::AdderCut::is_split))]
pub extern "C" fn arachne_ledger_split(
    alloc: Global,
    adder: &mut ArachneAdder,
    other: &mut ArachneAdder,
) -> u32
    ensures { IsSplit (held adder.old) (held other.old) (held adder.new) (held other.new) result }
{
    if other.is_in_use(alloc) || !adder.is_in_use(alloc) {
        return REFUSED;
    }
    let Some(mut mine) = adder.take(alloc) else {
        return REFUSED;
    };
    let Ok(mut theirs) = Box::new(alloc, None) else {
        adder.put(mine);
        return NO_MEMORY;
    };
    let is_cut = cut(&mut mine, &mut theirs);
    adder.put(mine);
    if !is_cut {
        return NO_MEMORY;
    }
    other.put(theirs);
    DONE
}

/// Joins the share of `other` (a thread's right to add) into that of `adder`, and leaves `other` empty.
///
/// Returns false, and changes nothing, if one of the handles is empty. Both handles must be of one set of ledgers,
/// which the library doesn't check. If they are not, totals of `adder`'s ledgers may be read before all of their
/// handles were joined, and totals of `other`'s ledgers can never be read.
#[unsafe(no_mangle)]
pub extern "C" fn arachne_ledger_join(
    alloc: Global,
    adder: &mut ArachneAdder,
    other: &mut ArachneAdder,
) -> bool
    requires { IsOfOne adder.old other.old }
    ensures { IsJoined (held adder.old) (held other.old) (held adder.new) (held other.new) result }
{
    let Some(mut mine) = adder.take(alloc) else {
        return false;
    };
    let Some(mut theirs) = other.take(alloc) else {
        adder.put(mine);
        return false;
    };
    let is_joined = join_held(&mut mine, &mut theirs);
    adder.put(mine);
    if !is_joined {
        other.put(theirs);
    }
    is_joined
}

/// Empties a handle, and frees its share (a thread's right to add). The last handle also frees the ledgers.
///
/// If the handle was not empty, its share is lost, so that no other handle can ever read a total.
#[unsafe(no_mangle)]
pub extern "C" fn arachne_ledger_close(alloc: Global, adder: &mut ArachneAdder)
    ensures { held adder.new ≡ None }
{
    drop(adder.take(alloc));
}
