//! Picks the core on which a worker first tries to claim a slot for a new thread: the emptier of two random cores.
ghost use Rattle.std.specs.Prelude.{◌≡◌, ◌<◌, ◌≤◌, ◌↔◌, length, IfSome, IsTrue};
ghost use Rattle.arachne_arbiter.specs.Choice.{core_chosen, HasPlace, is_candidate_at, loads_of};

use arachne_core::{CORES, OccWord, SLOTS};
use arachne_policy::{CoreLoad, two_choices};

fn is_candidate(occupancy: OccWord) -> bool
    ensures { result ≡ is_candidate_at occupancy }
{
    !occupancy.is_closed() && !occupancy.is_exclusive()
}

/// Returns whether a core with `slots` thread slots has a free one, is open, and is not exclusive to one thread.
pub fn has_place(occupancy: OccWord, slots: u8) -> bool
    requires { slots ≤ SLOTS }
    ensures { IsTrue result ↔ HasPlace slots occupancy }
{
    is_candidate(occupancy) && occupancy.lowest_free_below(slots).is_some()
}

/// Draws two cores by the random `word`, and returns the one with fewer threads.
///
/// Draws only from cores that are open and not exclusive to one thread, and returns `None` if there are no such cores.
/// `occupancies` has the occupancy word (a bit for each occupied thread slot) of each core.
pub fn first_core(word: u64, occupancies: &[OccWord]) -> Option<u8>
    requires { length occupancies.now ≤ CORES }
    ensures chosen { result ≡ core_chosen word (loads_of occupancies.now (length occupancies.now)) }
    ensures within { IfSome result (λ core. core < length occupancies.now) }
{
    let mut loads = [CoreLoad { core: 0, count: 0 }; CORES as usize];
    let mut candidates = 0;
    for (core, occupancy) in occupancies.iter().enumerate() {
        if is_candidate(*occupancy) {
            loads[candidates] = CoreLoad {
                core: core as u8,
                count: occupancy.count(),
            };
            candidates += 1;
        }
    }
    if candidates == 0 {
        None
    } else {
        Some(two_choices(word, &loads[..candidates]))
    }
}
