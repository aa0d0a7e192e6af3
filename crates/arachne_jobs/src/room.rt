//! Shared counters that a worker reads before each fork: of free thread slots, of children that wait for one, and of
//! tags. A tag is the number by which the run identifies a thread.
ghost use Rattle.std.specs.Prelude.{◌≡◌, ◌↔◌, ◌+◌, ◌<◌, ◌≤◌, ◌*◌, ◌%◌, ◌^◌, IsTrue};
ghost use Rattle.arachne_jobs.specs.declared.room.TheConstants.{BLOCK};

use crossbeam_utils::CachePadded;
use std::sync::atomic::{AtomicU64, Ordering};

/// The number of tags (numbers of threads) that a worker gets by one atomic operation.
pub const BLOCK: u64 = 64;

/// Shared counters of the free thread slots, of the children that wait for one, and of the tags (numbers of threads)
/// that were handed out. The first two can be slightly wrong: they only show if it is worth trying to get a slot. The
/// table of threads decides who gets a slot, and a child's join cell decides who runs the child.
#[derive(Drop)]
pub struct Room {
    free: CachePadded<AtomicU64>,
    waiting: CachePadded<AtomicU64>,
    /// The most children that may wait at a time.
    most: u64,
    /// The number of blocks of tags that were handed out.
    blocks: CachePadded<AtomicU64>,
}

impl Room {
    /// Returns the counters of a new run on `cores` cores with `slots` free thread slots each. At most `most_waiting`
    /// children may wait for a slot. Tags (numbers of threads) begin at 1, since the root has 0.
    pub fn new(cores: u8, slots: u8, most_waiting: u64) -> Room
        ensures { result.most ≡ most_waiting }
    {
        Room {
            free: CachePadded::new(AtomicU64::new(places_of(cores, slots))),
            waiting: CachePadded::new(AtomicU64::new(0)),
            most: most_waiting,
            blocks: CachePadded::new(AtomicU64::new(0)),
        }
    }

    /// Returns true if a thread slot seems to be free.
    ///
    /// The slot's core may be closed, or exclusive to one thread.
    #[inline(always)]
    pub fn has_free_place(&self) -> bool {
        seen(&self.free) > 0
    }

    /// Counts one free slot less, after the caller has claimed a slot.
    pub fn place_was_claimed(&self) {
        self.free.fetch_sub(1, Ordering::SeqCst);
    }

    /// Counts one free slot more, after a claimed slot was given back unused or the slot's thread has ended.
    #[inline(always)]
    pub fn place_was_left(&self) {
        self.free.fetch_add(1, Ordering::SeqCst);
    }

    /// Returns true if any child seems to wait for a slot.
    #[inline(always)]
    pub fn is_any_waiting(&self) -> bool {
        seen(&self.waiting) > 0
    }

    /// Returns true if one more child is allowed to wait for a slot.
    #[inline(always)]
    pub fn may_wait(&self) -> bool {
        self.is_room_beside(seen(&self.waiting))
    }

    #[inline(always)]
    fn is_room_beside(&self, waiting: u64) -> bool
        ensures { IsTrue result ↔ waiting < self.now.most }
    {
        waiting < self.most
    }

    #[inline(always)]
    pub(crate) fn child_waits(&self) {
        self.waiting.fetch_add(1, Ordering::SeqCst);
    }

    #[inline(always)]
    pub(crate) fn ticket_was_taken(&self) {
        self.waiting.fetch_sub(1, Ordering::SeqCst);
    }

    /// Hands out `BLOCK` tags (thread numbers), and returns the first. Fewer than 2^58 calls hand out no tag twice. The
    /// number of the block is reduced modulo 2^58, so that its tags are less than 2^64.
    pub fn next_block(&self) -> u64
        ensures { result % BLOCK ≡ 1 }
    {
        let block = self.blocks.fetch_add(1, Ordering::SeqCst);
        BLOCK * (block % (1 << 58)) + 1
    }
}

fn places_of(cores: u8, slots: u8) -> u64
    ensures { result ≡ cores * slots }
{
    u64::from(cores) * u64::from(slots)
}

/// Reads a counter, or 0 if it is below 0, as it can be if a queue entry is popped before its push was counted.
#[inline(always)]
fn seen(number: &AtomicU64) -> u64 {
    or_zero(number.load(Ordering::SeqCst))
}

#[inline(always)]
fn or_zero(number: u64) -> u64
    ensures above { number < 2 ^ 63 → result ≡ number }
    ensures below { 2 ^ 63 ≤ number → result ≡ 0 }
{
    if number > u64::MAX / 2 { 0 } else { number }
}

/// A worker's unused tags (numbers for new threads): `next` and those after it, `left` in all.
#[derive(Debug, Drop)]
pub struct Tags {
    pub next: u64,
    pub left: u64,
}

impl Tags {
    /// Returns the next tag (number for a thread). If no tag is left, gets new tags from `room`.
    pub fn take(&mut self, room: &Room) -> u64
        ensures of_block { 0 < self.old.left → result ≡ self.old.next }
        ensures next { result < u64.MAX → self.new.next ≡ result + 1 }
        ensures fewer { 0 < self.old.left → self.new.left + 1 ≡ self.old.left }
        ensures first { self.old.left ≡ 0 → result % BLOCK ≡ 1 }
        ensures drawn { self.old.left ≡ 0 → self.new.left + 1 ≡ BLOCK }
    {
        if self.left == 0 {
            self.next = room.next_block();
            self.left = BLOCK;
        }
        let tag = self.next;
        self.next = tag.wrapping_add(1);
        self.left -= 1;
        tag
    }
}
