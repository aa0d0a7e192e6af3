//! Constants and functions that decide how long a worker searches, when it sleeps, and when it wakes others. The result
//! of a run never depends on them. Each contract states the exact result, so no function has a test.
ghost use Rattle.std.specs.Prelude.{◌≡◌, ◌≤◌, ◌<◌, ◌+◌, ◌-◌, ◌*◌, ◌^◌, ◌↔◌, ◌⊎◌, false, true, if◌then◌else◌, min, EachIndex, IsTrue, slice_index_or};
ghost use Rattle.arachne_core.specs.Occupancy.{count_of};
ghost use Rattle.arachne_workers.specs.Keeping.{MayKeepPlaces};
ghost use Rattle.arachne_workers.specs.declared.policy.TheConstants.{STEPS_PAST_FREE, LAST_SPIN, LAST_SPIN_ALONE, LAST_YIELD, SHORT_SLEEP, LONG_SLEEP};

use arachne_core::OccWord;

/// The most threads that a worker runs at one slot before its scan goes to the next: the slot's own, and threads that
/// run before all others.
pub(crate) const MOST_IN_TURN: u32 = 64;

/// The most slices that a thread gets in a row before the worker puts it back.
pub(crate) const MOST_ALONE: u32 = 64;

/// The number of scans of the slots recorded as ready after which a worker scans all occupied slots.
pub(crate) const SCANS_BETWEEN_LOOKS: u32 = 64;

/// The most steps that a thread makes in a slice after it has released a lock, if a lock's next holder runs next here.
pub(crate) const STEPS_PAST_FREE: u32 = 50;

/// The most steps that a thread gets in a row, after its first slice, because it holds a lock (the thread's *grace*).
pub(crate) const STEPS_TO_FREE: u32 = 500;

/// The most wakes that a worker delays at a time.
pub(crate) const MOST_KEPT_BACK: usize = 8;

/// The number of steps of its own threads for which a worker may delay the wake of another core's worker.
pub(crate) const PATIENCE: u32 = 500;

/// The number of a worker's first posts on other cores for which it wakes the workers there at once.
///
/// Those workers have no work when a run begins.
pub(crate) const TOLD_AT_ONCE: u32 = 32;

/// Returns true if workers are allowed to keep empty slots claimed for threads that are forked later. They must not if
/// a thread can ask for a core of its own, `orders` can close a core, or a thread with a lock can move to another core.
pub fn may_keep_places(has_exclusive: bool, orders: usize, locks: u8, cores: u8) -> bool
    ensures { IsTrue result ↔ MayKeepPlaces has_exclusive orders locks cores }
{
    !has_exclusive && orders == 0 && (locks == 0 || cores <= 1)
}

/// Returns true if the worker keeps an ended thread's slot claimed for a later thread. This is so if the core was full,
/// open and not reserved for one thread, as its occupancy word `before` says.
pub fn keeps_place(before: OccWord, slots: u8) -> bool
    ensures { IsTrue result ↔ (slots ≤ count_of before.occupied) × (before.closed ≡ false) × (before.exclusive ≡ false) }
{
    before.count() >= slots && !before.is_closed() && !before.is_exclusive()
}

/// Returns true if at most an eighth of the core's slots have a thread: the worker then frees its empty `kept` slots.
pub(crate) fn gives_back(now: OccWord, kept: usize, slots: u8) -> bool
    ensures { IsTrue result ↔ (count_of now.occupied - kept) * 8 ≤ slots }
{
    let threads = usize::from(now.count()).saturating_sub(kept);
    threads * 8 <= usize::from(slots)
}

/// Returns true if a waiting child may get a slot on a core. The core must be open and not reserved for one thread. A
/// slot must be free, or be one of the `kept` slots that the worker has claimed in advance.
pub fn may_take_ticket(now: OccWord, kept: usize, slots: u8) -> bool
    ensures { IsTrue result ↔ (now.closed ≡ false) × (now.exclusive ≡ false) × ((0 < kept) ⊎ (count_of now.occupied < slots)) }
{
    !now.is_closed() && !now.is_exclusive() && (kept > 0 || now.count() < slots)
}

/// Returns true if a core is closed and empty, so that its worker may park.
#[inline(always)]
pub fn is_drained(now: OccWord) -> bool
    ensures { IsTrue result ↔ (now.closed ≡ true) × EachIndex now.occupied (λ i. slice_index_or now.occupied i false ≡ false) }
{
    now.is_closed() && now.is_empty()
}

/// Returns true if the current thread gets another slice at once.
///
/// The core must be open. A thread that `holds` a lock goes on. Any other does so unless another thread seems ready
/// here (`others`) or a waiting child can get a slot (`takes_ticket`).
pub(crate) fn may_go_on(now: OccWord, holds: bool, others: bool, takes_ticket: bool) -> bool
    ensures { IsTrue result ↔ (now.closed ≡ false) × ((holds ≡ true) ⊎ ((others ≡ false) × (takes_ticket ≡ false))) }
{
    !now.is_closed() && (holds || !others && !takes_ticket)
}

/// Returns how many of the `left` steps of its slice a thread may still make after it has released a lock.
///
/// At most `STEPS_PAST_FREE` if a lock's next holder runs next on this core (`runs_next`).
pub(crate) fn left_past_free(left: u32, runs_next: bool) -> u32
    ensures { result ≡ (if runs_next then min left STEPS_PAST_FREE else left) }
{
    if runs_next {
        left.min(STEPS_PAST_FREE)
    } else {
        left
    }
}

/// Returns the most steps of a thread's next slice: its `left` extra steps if it `holds` a lock, and never more than
/// `quantum`.
pub(crate) fn most_steps(quantum: u32, holds: bool, left: u32) -> u32
    ensures { result ≡ (if holds then min quantum left else quantum) }
{
    if holds { quantum.min(left) } else { quantum }
}

/// The last of a worker's idle rounds in which it spins.
///
/// A round is a pass of the worker's loop. It is idle if it found nothing; idle rounds are counted from 0 since the
/// last that did.
const LAST_SPIN: u32 = 6;

/// The last idle round (pass of its loop without work) in which a worker spins if it must not yield.
const LAST_SPIN_ALONE: u32 = 10;

/// The last idle round (pass of its loop without work) in which a worker yields, if it is allowed to.
const LAST_YIELD: u32 = 40;

/// Returns true if a worker spins in its idle round (pass of its loop without work) number `round`.
#[inline(always)]
pub(crate) fn spins(round: u32, may_yield: bool) -> bool
    ensures { IsTrue result ↔ (round ≤ (if may_yield then LAST_SPIN else LAST_SPIN_ALONE)) }
{
    let last = if may_yield {
        LAST_SPIN
    } else {
        LAST_SPIN_ALONE
    };
    round <= last
}

/// Returns how often a worker spins in its idle round (pass without work) `round`: doubled each time, up to a limit.
#[inline(always)]
pub(crate) fn spins_of(round: u32) -> u32
    ensures { result ≡ 2 ^ min round LAST_SPIN_ALONE }
{
    1 << round.min(LAST_SPIN_ALONE)
}

/// Returns true if a worker sleeps after `idle` rounds (passes of its loop) in a row that found nothing.
#[inline(always)]
pub(crate) fn sleeps(idle: u32, may_yield: bool) -> bool
    ensures { IsTrue result ↔ ((if may_yield then LAST_YIELD else LAST_SPIN_ALONE) < idle) }
{
    let last = if may_yield {
        LAST_YIELD
    } else {
        LAST_SPIN_ALONE
    };
    idle > last
}

/// Returns true if a round (pass of the loop) that finds no thread in the slots recorded as ready must scan all
/// occupied slots.
///
/// This is so in the first round that finds nothing, and in the last before a sleep.
#[inline(always)]
pub(crate) fn looks_at_all(idle: u32, sleeps: bool) -> bool
    ensures { IsTrue result ↔ (idle ≡ 0) ⊎ (sleeps ≡ true) }
{
    idle == 0 || sleeps
}

/// Returns what a slice of `most` steps leaves of `grace`, the extra steps of a thread that `holds` a lock.
#[inline(always)]
pub(crate) fn grace_left(holds: bool, grace: u32, most: u32) -> u32
    ensures { result ≡ (if holds then grace - most else grace) }
{
    if holds {
        grace.saturating_sub(most)
    } else {
        grace
    }
}

/// The microseconds that a worker sleeps if yields take long and another kernel thread uses an object that the worker
/// needs. That kernel thread seems to have lost its processor.
pub(crate) const STAND_BY: u64 = 50;

/// The longest sleep, in microseconds, of a worker that has cores to open or close, or while threads wait for slots.
const SHORT_SLEEP: u64 = 100;

/// The longest sleep, in microseconds, of a worker with no cores to open or close while no thread waits for a slot.
const LONG_SLEEP: u64 = 20_000;

pub(crate) fn sleep_of(is_waited_for: bool) -> u64
    ensures { result ≡ (if is_waited_for then SHORT_SLEEP else LONG_SLEEP) }
{
    if is_waited_for {
        SHORT_SLEEP
    } else {
        LONG_SLEEP
    }
}
