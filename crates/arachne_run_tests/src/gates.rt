//! An observer of a run (`Gate`) that records which cores run, or delays cores until some event.
use arachne_core::{CORES, ThreadId};
use arachne_judge::Log;
use arachne_lang::Name;
use arachne_run::{Cause, Gate, SliceEnd, WorkerEvent};
use std::hint::spin_loop;
use std::sync::atomic::{AtomicU64, Ordering};
use std::thread::yield_now;

/// The number of polls after which a core gives up waiting for an event of another core, so that the test fails.
const POLLS: u32 = 5_000_000;

const PAUSE: u32 = 500;

const SPINS: u32 = 50_000;

const REST: u32 = 1_000_000;

const LOOKS: u32 = 100;

/// Which events of a run a `Gate` records, and at which of them it makes a core wait.
///
/// A slice is some steps of one thread; each core counts its own from 0. A core that waits in a slice does so before
/// the slice's first step. A closed core parks: its kernel thread sleeps until the core is opened or the run ends.
/// After an event that the variant forbids, the test has failed for good.
#[derive(Clone, Copy)]
pub enum Watching {
    Nothing,
    Cores,
    /// `(a, b)`: core 1 waits in its slice 0 for core 0's slice a, in which core 0 waits for core 1's slice b.
    Meeting(u64, u64),
    /// `(n)`: core 0 waits in its slice n - 1 until core 1 has entered its slice 0. Core 1 waits at the end of its
    /// slice 0 until core 0 has entered its slice n.
    Holding(u64),
    /// `(n)`: core 1 waits in its slice 0 until core 0 has entered n slices.
    Lead(u64),
    /// Core 0 waits in its slice 0 for some time, in which core 1 must not enter a slice.
    First,
    /// `(n)`: core 1 waits in its slice n until an order has closed or opened a core.
    Applying(u64),
    /// `(a, b)`: core 0 waits in its slice a until core 1 is about to park, and in its slice b for core 1's slice 0.
    Granting(u64, u64),
    /// `(n)`: core 0 waits in its slice n until core 1's worker, with nothing to run, has had time to fall asleep, and
    /// in its slice n + 4 until core 1 is about to park. A sleep that times out isn't counted if core 1 was about to
    /// park before that slice, since its worker may then have noticed by itself that its core was closed.
    Parking(u64),
    /// `(core, n)`: core 0 waits in its slice n until `core` is about to park.
    Parked(u8, u64),
    Spills,
    Wakes,
    /// `(n)`: core 0 waits in its slice n until core 1 has entered its slice 0. Core 1 waits in its slice 0 until an
    /// order has closed or opened a core. Before each later slice, core 1's worker must take a thread from the table.
    Anew(u64),
    /// `(a, b)`: core 0 waits in its slice a until a thread on core 1 waits for a child. In its slice b, core 0 pauses:
    /// core 1 is closed and could park, but must not do so before one of its threads has ended.
    ParksLast(u64, u64),
    /// Core 1 waits in its slice 0 until threads were moved from closed cores to others.
    Moving,
    /// `(core, n)`: core 0 waits in its slice n until a thread has left `core`: ended, blocked or moved. Then core 0
    /// waits until `core`, which is closed and has no thread left, is about to park.
    Emptied(u8, u64),
    /// `(n)`: core 1 waits in its slice n until the run is stopped, which wakes a parked core. Core 1 must then enter
    /// no more slices.
    Stopping(u64),
}

#[derive(Drop)]
pub struct Watch {
    watching: Watching,
    pub log: Option<Log>,
    /// The index, from 0, of the only fork of the root whose child gets a core to itself, if the test checks the log.
    pub exclusive: Option<u64>,
    /// The cores that have entered a slice, one bit each; for `Moving`, the cores to which threads were moved.
    pub entered: AtomicU64,
    /// The number of slices that all cores have entered; for `Spills`, the number of children that have waited for a
    /// slot.
    pub slices: AtomicU64,
    pub oversleeps: AtomicU64,
    zero: AtomicU64,
    one: AtomicU64,
    ended: AtomicU64,
    failed: AtomicU64,
}

fn get(word: &AtomicU64) -> u64 {
    word.load(Ordering::SeqCst)
}

fn set(word: &AtomicU64) {
    word.store(1, Ordering::SeqCst);
}

fn count(word: &AtomicU64) {
    word.fetch_add(1, Ordering::SeqCst);
}

/// Returns true if the word became at least `wanted`.
pub(crate) fn comes(word: &AtomicU64, wanted: u64, polls: u32) -> bool {
    for _ in 0..polls {
        if get(word) >= wanted {
            return true;
        }
        yield_now();
    }
    false
}

impl Watch {
    pub fn new(watching: Watching) -> Watch {
        Watch {
            watching,
            log: None,
            exclusive: None,
            entered: AtomicU64::new(0),
            slices: AtomicU64::new(0),
            oversleeps: AtomicU64::new(0),
            zero: AtomicU64::new(0),
            one: AtomicU64::new(0),
            ended: AtomicU64::new(0),
            failed: AtomicU64::new(0),
        }
    }

    pub fn is_over(&self) -> bool {
        let (zero, one) = match self.watching {
            Watching::Nothing | Watching::Cores | Watching::Spills => (0, 0),
            Watching::Lead(wanted) => (wanted, 0),
            Watching::First => (0, 1),
            Watching::Applying(_) | Watching::Anew(_) | Watching::Moving => (1, 0),
            Watching::ParksLast(_, _) => (1, 0),
            Watching::Stopping(_) | Watching::Parked(_, _) => (0, 1),
            _ => (1, 1),
        };
        get(&self.zero) >= zero && get(&self.one) >= one && get(&self.failed) == 0
    }

    /// Returns true if no slice that this observer records begins during `LOOKS` yields.
    pub fn is_still(&self) -> bool {
        let before = get(&self.slices);
        for _ in 0..LOOKS {
            yield_now();
        }
        get(&self.slices) == before
    }

    fn note(&self, core: u8) {
        if core < CORES {
            self.entered
                .fetch_or(1 << u32::from(core), Ordering::SeqCst);
        }
        count(&self.slices);
    }

    /// Gives up after `POLLS` polls, and records that the test has failed.
    fn wait(&self, other: &AtomicU64, wanted: u64) {
        if !comes(other, wanted, POLLS) {
            set(&self.failed);
        }
    }

    fn enter_zero(&self, nth: u64) {
        match self.watching {
            Watching::Meeting(own, _) if nth == own => {
                set(&self.zero);
                self.wait(&self.one, 1);
            }
            Watching::Holding(wanted) if nth.saturating_add(1) == wanted => self.wait(&self.one, 1),
            Watching::Holding(wanted) if nth == wanted => set(&self.zero),
            Watching::Lead(_) => count(&self.zero),
            Watching::First if nth == 0 => {
                for _ in 0..SPINS {
                    if get(&self.one) > 0 {
                        set(&self.failed);
                    }
                    spin_loop();
                }
            }
            Watching::Granting(parked, _) if nth == parked => self.wait(&self.ended, 1),
            Watching::Parking(rest) if nth == rest => {
                self.wait(&self.ended, 1);
                for _ in 0..REST {
                    spin_loop();
                }
            }
            Watching::Parked(_, held) if nth == held => self.wait(&self.one, 1),
            Watching::Anew(held) if nth == held => self.wait(&self.slices, 1),
            Watching::ParksLast(held, _) if nth == held => self.wait(&self.one, 1),
            Watching::ParksLast(_, pause) if nth == pause => {
                let _ = comes(&self.failed, 1, PAUSE);
            }
            Watching::Stopping(_) if nth == 0 => self.wait(&self.slices, 1),
            Watching::Emptied(_, held) if nth >= held => self.empties(nth == held),
            Watching::Granting(_, wanted) if nth == wanted => {
                set(&self.zero);
                self.wait(&self.one, 1);
            }
            Watching::Parking(rest) if nth == rest.wrapping_add(4) => {
                count(&self.slices);
                set(&self.zero);
                self.wait(&self.one, 1);
            }
            _ => {}
        }
    }

    fn empties(&self, is_first: bool) {
        if is_first {
            self.wait(&self.ended, 1);
            set(&self.slices);
        }
        if get(&self.zero) == 0 {
            yield_now();
        } else {
            self.wait(&self.one, 1);
        }
    }

    fn enter_one(&self, nth: u64) {
        match self.watching {
            Watching::Meeting(_, theirs) => {
                if nth == theirs {
                    set(&self.one);
                }
                self.wait(&self.zero, 1);
            }
            Watching::First | Watching::Holding(_) | Watching::Granting(_, _) if nth == 0 => {
                set(&self.one);
            }
            Watching::Applying(held) if nth == held => self.wait(&self.zero, 1),
            Watching::Lead(wanted) if nth == 0 => self.wait(&self.zero, wanted),
            Watching::Stopping(wanted) if nth < wanted => self.wait(&self.ended, 1),
            Watching::Stopping(wanted) if nth == wanted => {
                set(&self.one);
                self.wait(&self.zero, 1);
            }
            Watching::Stopping(wanted) if nth > wanted => set(&self.failed),
            Watching::Anew(_) => {
                if nth == 0 {
                    set(&self.slices);
                    self.wait(&self.zero, 1);
                } else if get(&self.one) == 0 {
                    set(&self.failed);
                }
                self.one.store(0, Ordering::SeqCst);
            }
            Watching::Moving if nth == 0 => self.wait(&self.zero, 1),
            _ => {}
        }
    }

    fn slice_ended(&self, core: u8, end: SliceEnd) {
        match (self.watching, core, end) {
            (Watching::ParksLast(_, _), 1, SliceEnd::Ended) => set(&self.zero),
            (Watching::ParksLast(_, _), 1, SliceEnd::AwaitsChild) => set(&self.one),
            (Watching::Emptied(emptied, _), _, _) if core == emptied && end != SliceEnd::GoesOn => {
                if end == SliceEnd::Ended && get(&self.slices) == 0 {
                    set(&self.zero);
                }
                set(&self.ended);
            }
            (Watching::Holding(_), 1, _) => self.wait(&self.zero, 1),
            (Watching::Stopping(_), 0, _) | (Watching::Parking(_), 1, _) => set(&self.ended),
            _ => {}
        }
    }

    fn parks(&self, core: u8) {
        match self.watching {
            Watching::Parking(_) if core == 1 => {
                self.entered.store(get(&self.slices), Ordering::SeqCst);
                set(&self.one);
            }
            Watching::Granting(_, _) if core == 1 => set(&self.ended),
            Watching::Stopping(_) => set(&self.slices),
            Watching::Parked(wanted, _) | Watching::Emptied(wanted, _) if core == wanted => set(
                &self.one,
            ),
            Watching::ParksLast(_, _) if core == 1 && get(&self.zero) == 0 => set(&self.failed),
            _ => {}
        }
    }
}

impl Gate for Watch {
    fn slice(&self, core: u8, nth: u64) {
        if let Some(log) = &self.log {
            log.slice(core, nth);
        }
        match (self.watching, core) {
            (Watching::Cores, _) => self.note(core),
            (_, 0) => self.enter_zero(nth),
            (_, 1) => self.enter_one(nth),
            (Watching::Stopping(_), 2) if nth == 0 => self.wait(&self.one, 1),
            _ => {}
        }
    }

    fn turn(&self, core: u8, id: ThreadId, name: &Name) {
        if let Some(log) = &self.log {
            let is_alone = name.len() == 1 && self.exclusive == Some(name.number(0));
            log.turn(core, id, is_alone);
        }
        if let (Watching::Anew(_), 1) = (self.watching, core) {
            set(&self.one);
        }
    }

    fn told(&self, core: u8, event: WorkerEvent) {
        if let Some(log) = &self.log {
            log.told(core, event);
        }
        match (event, self.watching) {
            (WorkerEvent::Sliced(_, end), _) => self.slice_ended(core, end),
            (WorkerEvent::Parks, _) => self.parks(core),
            (WorkerEvent::Spilled, Watching::Spills) => count(&self.slices),
            (WorkerEvent::Woken(_, Cause::ChildEnded), Watching::Wakes) => set(&self.zero),
            (WorkerEvent::Woken(_, Cause::IsServed), Watching::Wakes) => set(&self.one),
            (WorkerEvent::MovedAway(receivers), Watching::Moving) => {
                self.entered.fetch_or(receivers, Ordering::SeqCst);
                set(&self.zero);
            }
            (WorkerEvent::MovedAway(_), Watching::Emptied(_, _)) => {
                set(&self.zero);
                set(&self.ended);
            }
            (WorkerEvent::Unparked, Watching::Stopping(_)) => set(&self.zero),
            (WorkerEvent::Overslept, Watching::Parking(_)) if get(&self.entered) == 0 => {}
            (WorkerEvent::Overslept, _) => count(&self.oversleeps),
            (WorkerEvent::Applied(_), Watching::Holding(_)) if get(&self.zero) == 0 => {
                set(&self.failed);
            }
            (WorkerEvent::Applied(_), Watching::Applying(_) | Watching::Anew(_)) => set(&self.zero),
            _ => {}
        }
    }
}
