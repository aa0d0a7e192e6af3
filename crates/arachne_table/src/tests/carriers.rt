//! Tests with four seats (rights to use a table). None of them may use a claim that another seat has made.
ghost use Rattle.std.specs.Prelude.{◌<◌, IfSome, [], ◌∷◌};
ghost use Rattle.arachne_contexts.specs.Out.{Claim as a_claim};
ghost use Rattle.arachne_locked.specs.Seats.{HasCounted};

use super::TagOnly;
use crate::{Claimed, Contexts, LockedClaim, LockedContexts, LockedSeat, Seats};
use std::alloc::Global;
use std::sync::Wait;
use std::test::Fail;

type Locked = LockedContexts<TagOnly>;

/// Claims a slot on core 0, and returns the claim, if a slot is free.
fn claimed<C: Contexts<TagOnly>, R: Wait>(rt: &R, table: &C, seat: &mut C::Seat) -> Option<C::Claim>
    requires seat { C.sits table.now seat.old × C.idle table.now seat.old }
    requires core { 0 < C.core_count table.now }
    ensures { IfSome result (λ claim. C.has table.now seat.new (a_claim claim ∷ [])) }
{
    match table.claim(rt, seat, 0).ok()? {
        Claimed::Place(claim) => Some(claim),
        _ => None,
    }
}

/// Tries to give back another seat's `claim` through `seat`, which has its own. Returns `claim` if the table refuses.
fn refused<R: Wait>(
    rt: &R,
    table: &Locked,
    seat: &mut LockedSeat,
    claim: LockedClaim,
) -> Option<LockedClaim>
    requires { HasCounted seat.old 1 }
{
    table.give_back(rt, seat, claim).err()
}

/// Splits a seat in two, then splits the second of these seats, and then the first once more. Returns two of these four
/// seats: a different pair for each `pair` from 0 to 5.
fn parted<R: Wait>(rt: &R, table: &Locked, seat: LockedSeat, pair: u8) -> (LockedSeat, LockedSeat)
    requires { HasCounted seat 0 }
    ensures one { HasCounted result.0 0 }
    ensures other { HasCounted result.1 0 }
{
    let (first, second) = table.split(rt, seat);
    let (second, third) = table.split(rt, second);
    let (first, fourth) = table.split(rt, first);
    match pair {
        0 => (first, second),
        1 => (first, third),
        2 => (first, fourth),
        3 => (second, third),
        4 => (second, fourth),
        _ => (third, fourth),
    }
}

/// Claims a slot through each of two seats, and tries to give back one seat's claim through the other. Returns true if
/// the table refuses it.
fn is_refused<R: Wait>(rt: &R, alloc: Global, pair: u8) -> Result<bool, Fail> {
    let (table, seat) = Locked::new(alloc, 1, 2, 0)?;
    let (mut one, mut other) = parted(rt, &table, seat, pair);
    let claim = claimed(rt, &table, &mut one).ok_or("no place")?;
    claimed(rt, &table, &mut other).ok_or("no place")?;
    Ok(refused(rt, &table, &mut other, claim).is_some())
}

#[test]
fn no_seat_of_four_spends_what_another_has(rt: HostRuntime) -> Result<(), Fail> {
    for pair in 0..6 {
        let refused = is_refused(&rt, rt.alloc(), pair)?;
        assert!(rt; refused, "{pair}");
    }
    Ok(())
}
