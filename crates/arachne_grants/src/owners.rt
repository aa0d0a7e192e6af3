//! Decides which cores the daemon takes from clients, and which clients get them.
ghost use Rattle.std.specs.Prelude.{◌≡◌, ℕ, ◌+◌, ◌^◌, ◌<◌, ◌≤◌, ◌⊎◌, true, if◌then◌else◌, is_some, None, length, max, slice_index, sum};
ghost use Rattle.arachne_grants.specs.Grants.{target_at, IsHigher};
ghost use Rattle.arachne_grants.specs.Owners.{is_of, held_by, owned, owner_at, AreAmong, AreHeld, GivesOnly, IsGiven, IsGivenByPriority, IsNextShort, IsSettled, IsShort, IsWithin, KeepsTargets, MovesLeast, TakesOnly};

use crate::claims::Client;

/// The greatest number of clients, since a core's owner is stored as a number from 0 to 255.
pub const MAX_OWNERS: usize = 256;

/// Changes `owners`, the client of each core, so that each client has as many cores as its target says. A client keeps
/// its cores, except those beyond its target.
pub fn moves(owners: &mut [Option<u8>], clients: &[Client], targets: &[u32])
    requires cores { length owners.old < 2 ^ 32 }
    requires clients { length clients.now ≤ 256 }
    requires targets { length targets.now ≡ length clients.now }
    requires fit { sum targets.now ≤ length owners.old }
    ensures whole { AreAmong owners.new (length targets.now) }
    ensures settled { IsSettled owners.new targets.now }
    ensures least { MovesLeast owners.old owners.new targets.now }
{
    take_back(owners, targets);
    give_free(owners, clients, targets);
}

/// Frees cores of each client that has more than its target (the number of cores that it may have). Each client keeps
/// the cores with the lowest numbers. `owners` has the client of each core.
pub fn take_back(owners: &mut [Option<u8>], targets: &[u32])
    ensures only { TakesOnly owners.old owners.new }
    ensures keeps { KeepsTargets owners.old owners.new targets.now }
{
    let mut held = [0; MAX_OWNERS];
    'take: for core in 0..owners.len() {
        owners[core] = keep(owners[core], targets, &mut held);
    }
}

/// Gives free cores to clients that have fewer cores than their targets. Clients of higher priority go first.
pub fn give_free(owners: &mut [Option<u8>], clients: &[Client], targets: &[u32])
    requires cores { length owners.old < 2 ^ 32 }
    requires clients { length clients.now ≤ 256 }
    requires targets { length targets.now ≡ length clients.now }
    ensures only { GivesOnly owners.old owners.new }
    ensures given { IsGiven owners.new targets.now }
    ensures priority { IsGivenByPriority clients.now owners.old owners.new targets.now }
    ensures within { IsWithin owners.old targets.now → IsWithin owners.new targets.now }
    ensures settled { IsWithin owners.old targets.now → sum targets.now ≤ length owners.old → IsSettled owners.new targets.now }
{
    let mut held = [0; MAX_OWNERS];
    count_all(owners, &mut held);
    'hand: for core in 0..owners.len() {
        owners[core] = give(owners[core], clients, targets, &mut held);
    }
}

/// Sets each client's `held` to the number of its cores in `owners`, which has the client of each core.
pub fn count_held(clients: &mut [Client], owners: &[Option<u8>])
    requires cores { length owners.now < 2 ^ 32 }
    requires clients { length clients.old ≤ 256 }
    ensures { AreHeld clients.old clients.new owners.now (length clients.old) }
{
    let mut held = [0; MAX_OWNERS];
    count_all(owners, &mut held);
    'fill: for client in 0..clients.len() {
        clients[client].held = held[client];
    }
}

fn target_of(targets: &[u32], client: usize) -> u32
    ensures { result ≡ target_at targets.now client }
{
    targets.get(client).copied().unwrap_or(0)
}

fn count_all(owners: &[Option<u8>], held: &mut [u32])
    requires sized { length held.old ≡ 256 }
    requires cores { length owners.now < 2 ^ 32 }
    requires none { sum held.old ≡ 0 }
    ensures counts { (client : ℕ) → client < 256 → slice_index held.new client ≡ held_by owners.now client }
    ensures all { sum held.new ≡ owned owners.now }
{
    'each: for owner in owners {
        count(*owner, held);
    }
}

fn count(owner: Option<u8>, held: &mut [u32])
    requires sized { length held.old ≡ 256 }
    requires fits { sum held.old + 1 < 2 ^ 32 }
    ensures counts { (client : ℕ) → client < 256
        → slice_index held.new client ≡ slice_index held.old client + (if is_of client owner then 1 else 0) }
    ensures all { sum held.new ≡ sum held.old + (if is_some owner then 1 else 0) }
{
    if let Some(client) = owner {
        held[usize::from(client)] += 1;
    }
}

/// Returns the client of a core, `owner`, if it may keep the core, and counts the core in `held`. Returns `None` if the
/// client already keeps as many cores as its target says.
fn keep(owner: Option<u8>, targets: &[u32], held: &mut [u32]) -> Option<u8>
    requires { length held.old ≡ 256 }
    ensures only { (result ≡ owner) ⊎ (result ≡ None) }
    ensures counts { (client : ℕ) → client < 256
        → slice_index held.new client ≡ slice_index held.old client + (if is_of client result then 1 else 0) }
    ensures within { (client : ℕ) → client < 256 → is_of client result ≡ true
        → slice_index held.new client ≤ target_at targets.now client }
    ensures enough { (client : ℕ) → client < 256 → is_of client owner ≡ true → result ≡ None
        → target_at targets.now client ≤ slice_index held.old client }
{
    let client = owner?;
    if target_of(targets, usize::from(client)) <= held[usize::from(client)] {
        return None;
    }
    held[usize::from(client)] += 1;
    owner
}

/// Returns the client that has the core after this call.
///
/// Gives a free core to the client that `next_short` returns, if any, and counts it in `held`.
fn give(owner: Option<u8>, clients: &[Client], targets: &[u32], held: &mut [u32]) -> Option<u8>
    requires sized { length held.old ≡ 256 }
    requires targets { length targets.now ≡ length clients.now }
    requires clients { length clients.now ≤ 256 }
    ensures only { (result ≡ owner) ⊎ (owner ≡ None) }
    ensures counts { (client : ℕ) → client < 256
        → slice_index held.new client + (if is_of client owner then 1 else 0) ≡ slice_index held.old client + (if is_of client result then 1 else 0) }
    ensures all { sum held.new + (if is_some owner then 1 else 0) ≡ sum held.old + (if is_some result then 1 else 0) }
    ensures within { (client : ℕ) → client < 256 → slice_index held.new client ≤ max (slice_index held.old client) (target_at targets.now client) }
    ensures rises { (client : ℕ) → client < 256 → slice_index held.old client ≤ slice_index held.new client }
    ensures enough { (client : ℕ) → client < 256 → result ≡ None → target_at targets.now client ≤ slice_index held.new client }
    ensures highest { (client other : ℕ) → owner ≡ None → IsShort clients.now targets.now held.old client
        → is_of other result ≡ true → IsHigher clients.now client other → ⊥ }
{
    if owner.is_some() {
        return owner;
    }
    let client = next_short(clients, targets, held)?;
    held[usize::from(client)] += 1;
    Some(client)
}

/// Returns the client that gets a free core: of those below their targets, the first of the highest priority.
pub(crate) fn next_short(clients: &[Client], targets: &[u32], held: &[u32]) -> Option<u8>
    requires sized { length clients.now ≤ length held.now }
    requires targets { length targets.now ≡ length clients.now }
    requires clients { length clients.now ≤ 256 }
    ensures { IsNextShort clients.now targets.now held.now (length clients.now) result }
{
    let mut next = None;
    'look: for place in 0..clients.len() {
        next = next_short_of(clients, targets, held, next, place);
    }
    next
}

/// Of the clients with the indexes `place` and `next`, returns the one that gets a free core first.
fn next_short_of(
    clients: &[Client],
    targets: &[u32],
    held: &[u32],
    next: Option<u8>,
    place: usize,
) -> Option<u8>
    requires sized { length clients.now ≤ length held.now }
    requires targets { length targets.now ≡ length clients.now }
    requires clients { length clients.now ≤ 256 }
    requires within { place < length clients.now }
    requires next { IsNextShort clients.now targets.now held.now place next }
    ensures { IsNextShort clients.now targets.now held.now (place + 1) result }
{
    if targets[place] <= held[place] {
        return next;
    }
    let Some(other) = next else {
        return Some(place as u8);
    };
    if clients[place].priority < clients[usize::from(other)].priority {
        Some(place as u8)
    } else {
        next
    }
}
