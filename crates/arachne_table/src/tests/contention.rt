//! A test in which two kernel threads contend for the slots of one table.
ghost use Rattle.std.specs.Prelude.{◌≡◌, ◌<◌, ◌≤◌, IfSome};
ghost use Rattle.arachne_words.specs.Seats.{HasNothingOut};

use super::{Bench, TagOnly};
use crate::{Claimed, Contexts, Moved, Taken, WordContexts, WordSeat};
use arachne_core::{CORES, Place, SLOTS, ThreadId};
use std::alloc::Global;
use std::sync::Wait;
use std::test::Fail;
use std::thread;
use std::thread::Threads;

/// The number of threads that each of the two kernel threads puts into the table.
const THREADS: u64 = 10_000;

/// The data of one kernel thread: its seat (its right to use the table), its log, and how many threads it has put into
/// the table and moved.
///
/// For each thread that the kernel thread has put into the table, the log has twice the thread's tag (its number); for
/// each thread that it has ended, twice the tag plus 1.
#[derive(Drop)]
struct Work<S> {
    seat: S,
    log: Vec<u64>,
    posted: u64,
    moved: u64,
}

type Words = WordContexts<TagOnly>;

type WordWork = Work<WordSeat<TagOnly>>;

/// Returns the number that the log has for the end of this thread: twice its tag plus 1.
fn ended(job: &TagOnly) -> u64 {
    job.0.wrapping_mul(2).wrapping_add(1)
}

impl<'a, C: Contexts<TagOnly>, R: Wait> Bench<'a, C, R> {
    /// Claims a slot on a core, and puts a thread there if the claim succeeds. Returns `None` if memory or the
    /// claim is refused.
    fn begin_one(&self, work: &mut Work<C::Seat>, core: u8, tag: u64) -> Option<()>
        requires seat { C.sits self.now.table.now work.old.seat × C.idle self.now.table.now work.old.seat }
        requires core { core < self.now.cores }
        ensures { IfSome result (λ _. C.sits self.now.table.now work.new.seat × C.idle self.now.table.now work.new.seat) }
    {
        match self.table.claim(self.rt, &mut work.seat, core).ok()? {
            Claimed::Place(claim) => {
                self.table
                    .post(self.rt, &mut work.seat, claim, TagOnly(tag))
                    .ok()?;
                work.posted = work.posted.wrapping_add(1);
                work.log.push(tag.wrapping_mul(2)).ok()
            }
            Claimed::Full(_) | Claimed::Closed(_) | Claimed::Lost(_) => Some(()),
        }
    }

    /// Takes the thread in a slot, if it is ready, and ends it. Returns `None` if memory is refused.
    fn end_one(&self, work: &mut Work<C::Seat>, core: u8, index: u8) -> Option<()>
        requires seat { C.sits self.now.table.now work.old.seat × C.idle self.now.table.now work.old.seat }
        requires core { core < self.now.cores }
        requires index { index < self.now.slots }
        ensures { IfSome result (λ _. C.sits self.now.table.now work.new.seat × C.idle self.now.table.now work.new.seat) }
    {
        match self.table.take(self.rt, &mut work.seat, core, index) {
            Taken::Run(held) => {
                let job = self.table.finish(self.rt, &mut work.seat, held).ok()?;
                work.log.push(ended(&job)).ok()
            }
            Taken::NotReady(_) | Taken::Lost(_) => Some(()),
        }
    }

    /// Takes and ends each thread that is ready on a core. Returns `None` if memory is refused.
    fn end_all(&self, work: &mut Work<C::Seat>, core: u8) -> Option<()>
        requires seat { C.sits self.now.table.now work.old.seat × C.idle self.now.table.now work.old.seat }
        requires core { core < self.now.cores }
        ensures { IfSome result (λ _. C.sits self.now.table.now work.new.seat × C.idle self.now.table.now work.new.seat) }
    {
        for index in 0..self.slots {
            self.end_one(work, core, index)?;
        }
        Some(())
    }

    /// Closes core 1, moves those of its threads that no seat holds to core 0, and opens core 1 again. Returns the
    /// number of moved threads.
    fn move_away(&self, work: &mut Work<C::Seat>) -> u64
        requires seat { C.sits self.now.table.now work.old.seat × C.idle self.now.table.now work.old.seat }
        requires cores { 1 < self.now.cores }
        ensures { C.sits self.now.table.now work.new.seat × C.idle self.now.table.now work.new.seat }
    {
        let mut moved: u64 = 0;
        self.table.close_core(self.rt, &mut work.seat, 1);
        for index in 0..self.slots {
            let place = Place { core: 1, index };
            if let Moved::Moved = self.table.move_one(self.rt, &mut work.seat, place, 0) {
                moved = moved.wrapping_add(1);
            }
        }
        self.table.open_core(self.rt, &mut work.seat, 1);
        moved
    }
}

/// Makes rounds until the kernel thread has put all of its threads, the first with the tag `first_tag`, into the table.
/// Returns `None` if memory is refused.
///
/// In each round the kernel thread puts one thread on the last core, and ends the threads that are ready on each core.
/// If `moves` is true, it moves threads away from core 1 in between, and ends none on core 0.
fn all_rounds<C: Contexts<TagOnly>, R: Wait>(
    rt: &R,
    table: &C,
    alloc: Global,
    seat: C::Seat,
    cores: u8,
    moves: bool,
    first_tag: u64,
) -> Option<Work<C::Seat>>
    requires seat { C.sits table.now seat × C.idle table.now seat }
    requires cores { (1 ≤ cores) × (cores ≡ C.core_count table.now) }
    requires slots { SLOTS ≡ C.slot_count table.now }
    ensures { IfSome result (λ w. C.sits table.now w.seat × C.idle table.now w.seat) }
{
    let bench = Bench {
        rt,
        table,
        cores,
        slots: SLOTS,
    };
    let mut work = Work {
        seat,
        log: Vec::new(alloc),
        posted: 0,
        moved: 0,
    };
    for _ in rt.forever() {
        if work.posted == THREADS {
            return Some(work);
        }
        let tag = first_tag.wrapping_add(work.posted);
        bench.begin_one(&mut work, cores - 1, tag)?;
        if moves && cores > 1 {
            work.moved = work.moved.wrapping_add(bench.move_away(&mut work));
        }
        for core in u8::from(moves)..cores {
            bench.end_all(&mut work, core)?;
        }
    }
    unreachable!()
}

/// Runs two kernel threads, each with its own seat (right to use the table), and returns their data afterwards. If
/// `moves` is true, the second of them moves threads away from core 1.
fn work_side_by_side<R: Threads + Wait + Sync>(
    rt: &R,
    table: &Words,
    alloc: Global,
    seat: WordSeat<TagOnly>,
    cores: u8,
    moves: bool,
) -> Option<(WordWork, WordWork)>
    requires seat { (seat.table ≡ table.now.table) × HasNothingOut seat.known }
    requires slots { SLOTS ≡ table.now.shape.places_per_core }
    requires cores { (1 ≤ cores) × (cores ≡ table.now.shape.cores) }
    ensures first { IfSome result (λ w. (w.0.seat.table ≡ table.now.table) × HasNothingOut w.0.seat.known) }
    ensures second { IfSome result (λ w. (w.1.seat.table ≡ table.now.table) × HasNothingOut w.1.seat.known) }
{
    let (first, second) = table.split(seat);
    let (first, second) = thread::join(
        rt,
        move || -> Option<WordWork>
            requires { (first.table ≡ table.now.table) × HasNothingOut first.known × (1 ≤ cores) × (cores ≡ table.now.shape.cores) × (SLOTS ≡ table.now.shape.places_per_core) }
            ensures { IfSome result (λ w. (w.seat.table ≡ table.entry.now.table) × HasNothingOut w.seat.known) }
        { all_rounds::<Words, R>(rt, table, alloc, first, cores, false, 0) },
        move || -> Option<WordWork>
            requires { (second.table ≡ table.now.table) × HasNothingOut second.known × (1 ≤ cores) × (cores ≡ table.now.shape.cores) × (SLOTS ≡ table.now.shape.places_per_core) }
            ensures { IfSome result (λ w. (w.seat.table ≡ table.entry.now.table) × HasNothingOut w.seat.known) }
        { all_rounds::<Words, R>(rt, table, alloc, second, cores, moves, THREADS) },
    );
    Some((first?, second?))
}

/// Returns true if each thread of both kernel threads was put into the table exactly once, and then either has ended or
/// is left in the table, exactly once.
///
/// The function joins the logs of both kernel threads, and counts the threads that are left in the table as ended.
fn are_settled(
    mut log: Vec<u64>,
    other: Vec<u64>,
    left: Vec<(ThreadId, TagOnly)>,
) -> Result<bool, Fail> {
    log.extend(other)?;
    for (_, job) in left {
        log.push(ended(&job))?;
    }
    log.sort()?;
    Ok(log.len() == 4 * THREADS as usize && log.chunks(2).all(|pair| is_pair(pair)))
}

/// Returns true if two entries of a sorted log are one thread's: twice its tag for its start, that plus 1 for its end.
fn is_pair(pair: &[u64]) -> bool {
    match pair {
        [posted, ended] => *posted % 2 == 0 && *ended == posted.wrapping_add(1),
        _ => false,
    }
}

/// Joins the seats (rights to use the table) of both kernel threads, and closes the table. Returns the threads left in
/// the table.
fn left(
    alloc: Global,
    table: Words,
    seat: WordSeat<TagOnly>,
    other: WordSeat<TagOnly>,
) -> Option<Vec<(ThreadId, TagOnly)>>
    requires seat { (seat.table ≡ table.table) × HasNothingOut seat.known }
    requires other { (other.table ≡ table.table) × HasNothingOut other.known }
{
    let seat = table.join_seats(seat, other);
    if !table.is_whole(&seat) {
        return None;
    }
    table.close(alloc, seat).ok()
}

/// Runs two kernel threads on one table of `cores` cores. If `moves` is true, the second of them moves threads away
/// from core 1. Returns true if each thread has ended or is left in the table, exactly once, and the number of moved
/// threads.
fn contend<R: Threads + Wait + Sync>(
    rt: &R,
    alloc: Global,
    cores: u8,
    moves: bool,
) -> Result<(bool, u64), Fail>
    requires some { 1 ≤ cores }
    requires most { cores ≤ CORES }
{
    let (table, seat) = Words::new(alloc, cores, SLOTS, 0)?;
    let works = work_side_by_side(rt, &table, alloc, seat, cores, moves);
    let (first, second) = works.ok_or("no memory")?;
    let moved = first.moved.wrapping_add(second.moved);
    let left = left(alloc, table, first.seat, second.seat).ok_or("not closed")?;
    Ok((are_settled(first.log, second.log, left)?, moved))
}

#[test]
fn two_threads_on_one_core_of_words(rt: HostRuntime) -> Result<(), Fail> {
    let (are_settled, _) = contend(&rt, rt.alloc(), 1, false)?;
    assert!(rt; are_settled);
    Ok(())
}

#[test]
fn two_threads_one_of_which_moves_words(rt: HostRuntime) -> Result<(), Fail> {
    let (are_settled, moved) = contend(&rt, rt.alloc(), 2, true)?;
    assert!(rt; are_settled && moved > 0);
    Ok(())
}
