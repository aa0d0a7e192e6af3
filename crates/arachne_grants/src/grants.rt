//! Divides a machine's cores among its clients, by reserve, priority and request.
ghost use Rattle.std.specs.Prelude.{◌≡◌, ◌+◌, ◌<◌, ◌≤◌, ◌↔◌, length, sum, IfSome, IsTrue};
ghost use Rattle.arachne_grants.specs.Grants.{AreEnough, AreFilled, AreGrants, IsBounded, IsByPriority, IsDecided, IsFair, IsInOrder, IsInTurn, IsLeast, IsNext, IsReserved, IsUsed};

use crate::claims::{Claim, Client};

/// Sets each client's entry in `targets`, at the client's index, to the number of cores that the client gets.
///
/// The cores are given one after another. Of the clients that ask for more, the next core goes to the one whose claim
/// is first by [`Claim::goes_before`]. Of equal claims, the client with the lower index goes first. The time of a call
/// grows only with the logarithm of `cores`.
pub fn targets(clients: &[Client], cores: u32, targets: &mut [u32])
    requires { length targets.old ≡ length clients.now }
    ensures order { IsInOrder clients.now targets.new }
    ensures turn { IsInTurn clients.now targets.new }
    ensures bounded { IsBounded clients.now cores targets.new }
    ensures used { IsUsed clients.now cores targets.new }
    ensures reserved { IsReserved clients.now targets.new }
    ensures priority { IsByPriority clients.now targets.new }
    ensures fair { IsFair clients.now targets.new }
    ensures least { IsLeast clients.now cores targets.new }
{
    let given = fill_levels(clients, cores, targets);
    'grant: for _core in given..cores {
        let Some(next) = next_client(clients, targets) else {
            return;
        };
        targets[next] += 1;
    }
}

/// Does nothing. The contract says that any two lists that meet the contract of `targets` are equal.
pub fn targets_are_decided(clients: &[Client], cores: u32)
    ensures { IsDecided clients.now cores }
{}

/// Sets `targets` to the numbers of cores that the clients get before the first claim (request for one core) for which
/// the cores might not suffice.
///
/// Returns the sum of these numbers.
fn fill_levels(clients: &[Client], cores: u32, targets: &mut [u32]) -> u32
    requires { length targets.old ≡ length clients.now }
    ensures few { result ≤ cores }
    ensures sum { sum targets.new ≡ result }
    ensures filled { AreFilled clients.now targets.new }
{
    let claim = last_filled(clients, cores);
    let mut given = 0;
    'fill: for place in 0..clients.len() {
        let gets = clients[place].gets_before(&claim);
        targets[place] = gets;
        given += gets;
    }
    given
}

/// Returns the last claim (request for one core) such that there are enough cores for all claims that are met before
/// it.
fn last_filled(clients: &[Client], cores: u32) -> Claim
    ensures { AreEnough clients.now cores result }
{
    let mut claim = later(
        clients,
        cores,
        Claim::FIRST,
        Claim {
            beyond: true,
            ..Claim::FIRST
        },
    );
    'priority: for bit in [128, 64, 32, 16, 8, 4, 2, 1] {
        let next = Claim {
            priority: claim.priority | bit,
            ..claim
        };
        claim = later(clients, cores, claim, next);
    }
    claim = last_level(clients, cores, claim);
    later(
        clients,
        cores,
        claim,
        Claim {
            moves: true,
            ..claim
        },
    )
}

fn last_level(clients: &[Client], cores: u32, claim: Claim) -> Claim
    requires { AreEnough clients.now cores claim }
    ensures { AreEnough clients.now cores result }
{
    let mut claim = claim;
    let mut too_many = cores;
    'halve: while too_many.saturating_sub(claim.gets) > 1 {
        let middle = claim.gets + (too_many - claim.gets) / 2;
        let next = Claim {
            gets: middle,
            ..claim
        };
        if are_enough(clients, cores, &next) {
            claim = next;
        } else {
            too_many = middle;
        }
    }
    claim
}

fn later(clients: &[Client], cores: u32, claim: Claim, next: Claim) -> Claim
    requires { AreEnough clients.now cores claim }
    ensures { AreEnough clients.now cores result }
{
    if are_enough(clients, cores, &next) {
        next
    } else {
        claim
    }
}

fn are_enough(clients: &[Client], cores: u32, claim: &Claim) -> bool
    ensures { IsTrue result ↔ AreEnough clients.now cores claim.now }
{
    let mut left = cores;
    'each: for client in clients {
        let gets = client.gets_before(claim);
        if left < gets {
            return false;
        }
        left -= gets;
    }
    true
}

/// Returns the client that gets the next core, or `None` if no client asks for more than its target.
fn next_client(clients: &[Client], targets: &[u32]) -> Option<usize>
    requires { length targets.now ≡ length clients.now }
    ensures { IsNext clients.now targets.now (length clients.now) result }
{
    let mut next = None;
    'look: for place in 0..clients.len() {
        next = first_of(clients, targets, next, place);
    }
    next
}

/// Of the clients with the indexes `place` and `next`, returns the one that gets the next core.
fn first_of(clients: &[Client], targets: &[u32], next: Option<usize>, place: usize) -> Option<usize>
    requires sized { length targets.now ≡ length clients.now }
    requires within { place < length clients.now }
    requires next { IsNext clients.now targets.now place next }
    ensures { IsNext clients.now targets.now (place + 1) result }
{
    let client = &clients[place];
    if client.asks <= targets[place] {
        return next;
    }
    let Some(other) = next else {
        return Some(place);
    };
    let claim = client.claim(targets[place]);
    if claim.goes_before(&clients[other].claim(targets[other])) {
        Some(place)
    } else {
        next
    }
}
