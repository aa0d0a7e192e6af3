//! Tests of how workers wait. They count calls to sleep, yield and wake, and measure no times.
use super::facts::Fact::{Applied, IsOver, OversleepsUpTo, Slot, Value};
use super::rows::{ROW, Row, rows_hold};
use crate::choosers::{CORE_ONE, SPREAD};
use crate::gates::Watching;
use arachne_policy::OrderKind::Release;
use std::io::{self, ErrorKind};
use std::sync::Wait;
use std::sync::atomic::{AtomicU64, Ordering};
use std::test::Fail;
use std::thread::Threads;
use std::time::{Clock, Duration};

const PASS: u64 = 10;

/// Forwards all calls to `rt`, but its clock advances by 10 ms at each read.
#[derive(Drop)]
pub struct SlowClock<'a, R> {
    rt: &'a R,
    looks: AtomicU64,
    /// Each read of the clock whose number is a multiple of this fails; if it is 0, none does.
    fails: u64,
}

impl<'a, R> SlowClock<'a, R> {
    pub fn new(rt: &'a R, fails: u64) -> SlowClock<'a, R> {
        SlowClock {
            rt,
            looks: AtomicU64::new(0),
            fails,
        }
    }

    pub fn looks(&self) -> u64 {
        self.looks.load(Ordering::SeqCst)
    }
}

impl<'a, R: Threads> Threads for SlowClock<'a, R> {}

impl<'a, R: Wait> Wait for SlowClock<'a, R> {}

impl<'a, R: Clock> Clock for SlowClock<'a, R> {
    fn monotonic(&self) -> io::Result<Duration> {
        let looks = self.looks.fetch_add(1, Ordering::SeqCst).wrapping_add(1);
        if self.fails > 0 && looks % self.fails == 0 {
            return Err(io::Error::from(ErrorKind::Other));
        }
        Ok(Duration::from_millis(looks.wrapping_mul(PASS)))
    }

    fn since_1970(&self) -> io::Result<Duration> {
        self.rt.since_1970()
    }

    fn sleep(&self, duration: Duration) {
        self.rt.sleep(duration);
    }
}

const HELD: &[Row] = &[Row {
    shows: "who yields in vain yields no more",
    locks: 1,
    expr: "(sweep add 1 (num 0) (num 1000) (hold 0 (num 1)))",
    machines: (&[4], &[100]),
    draws: SPREAD,
    facts: &[(Value, 1000)],
    ..ROW
}];

/// After a yield that was of no use, a worker doesn't yield in its next 4,096 rounds (passes of its loop). This run has
/// fewer rounds, so each worker yields at most once, and reads the clock twice for that.
#[test]
fn who_yields_in_vain_yields_no_more(rt: HostRuntime) -> Result<(), Fail> {
    for fails in 0..3 {
        let clock = SlowClock::new(&rt, fails);
        rows_hold(&clock, rt.alloc(), HELD)?;
        let looks = clock.looks();
        if looks > 16 {
            return Err(Fail::new(format_args!("the clock was looked at {looks} times")));
        }
    }
    Ok(())
}

const TELLS: &[Row] = &[
    // The root forks 30 children to core 1, and counts to 5,000 after each. So core 1's worker has run the child and
    // sleeps when the next child is posted, and each sleep times out unless the worker is woken. The program has an
    // exclusive fork, which is never made, so that no thread is moved.
    Row {
        shows: "who sleeps is told of what it may run",
        expr: "(if (num 0) (fork x (num 1) (num 2) (num 3)) (fold (num 0) (num 30) (num 0) (fork n (num 1) (fold (num 0) (num 5000) (num 0) (var 3)) (add (var 1) (var 2)))))",
        machines: (&[2], &[100]),
        draws: CORE_ONE,
        facts: &[(Value, 30), (Slot, 31), (OversleepsUpTo(10), 1)],
        ..ROW
    },
    // Core 1's worker has run a child, has nothing more to run, and sleeps when its core is closed. At most five slices
    // have ended before the pause in which the worker falls asleep.
    Row {
        shows: "who sleeps is told that its core is taken back",
        expr: "(fork n (num 1) (fold (num 0) (num 1000) (num 0) (var 1)) (var 0))",
        machines: (&[2], &[1, 7, 100]),
        draws: CORE_ONE,
        orders: &[(6, Release, 1)],
        watching: Watching::Parking(2),
        facts: &[(Applied, 1), (IsOver, 1), (OversleepsUpTo(0), 1)],
        ..ROW
    },
];

#[test]
fn who_sleeps_is_told(rt: HostRuntime) -> Result<(), Fail> {
    let clock = SlowClock::new(&rt, 0);
    rows_hold(&clock, rt.alloc(), TELLS)
}
