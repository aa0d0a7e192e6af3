//! Chooses the core for a new thread: of two random cores, the one with fewer threads.
ghost use Rattle.std.specs.Prelude.{◌≡◌, ◌<◌, length, Any};
ghost use Rattle.arachne_policy.specs.Choice.{chosen_core};

/// A core (`core`) with the number of its threads (`count`), as a candidate for `two_choices`.
#[derive(Clone, Copy, Debug, PartialEq, Eq)]
pub struct CoreLoad {
    pub core: u8,
    pub count: u8,
}

/// Returns the core for a new thread, which is the one with fewer threads of two random entries of `loads`.
///
/// The low 32 bits of `word`, modulo the number of entries, select the first entry, and the high 32 bits the second. On
/// a tie, returns the core of the first. The original Arachne does the same (power of two choices).
pub fn two_choices(word: u64, loads: &[CoreLoad]) -> u8
    requires { 0 < length loads.now }
    ensures formula { result ≡ chosen_core word loads.now }
    ensures listed { Any (λ load. load.core ≡ result) loads.now }
{
    let entries = loads.len() as u64;
    let first = loads[(word % (1 << 32) % entries) as usize];
    let second = loads[((word >> 32) % entries) as usize];
    if second.count < first.count {
        second.core
    } else {
        first.core
    }
}
