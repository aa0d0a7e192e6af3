//! Tests of the cores on which threads run. The choosers (random generators) decide on which core a fork puts a child.
use super::facts::Fact::{Cores, InPlace, IsOver, LastTwoInSlots, Slot, Threads, Value};
use super::rows::{QUANTA, ROW, Row, rows_hold};
use crate::choosers::{CORE_THREE, Draws, IN_TURN, ONE_EACH};
use crate::gates::Watching;
use std::test::Fail;

pub(super) const FORK: &str = "(fork n (num 2) (num 3) (add (var 0) (var 1)))";

pub(super) const EXCLUSIVE: &str = "(fork x (num 1) (num 2) (add (var 0) (var 1)))";

pub(super) const ALONE: &str =
    "(fork x (num 1) (fold (num 0) (num 1000) (num 0) (var 1)) (add (var 0) (var 1)))";

pub(super) const SWEEP: &str = "(sweep add 2 (num 0) (num 8) (var 0))";

const ROWS: &[Row] = &[
    // Both cores that the fork draws are core 3.
    Row {
        shows: "a fork goes where its choices say",
        expr: FORK,
        machines: (&[4], QUANTA),
        draws: CORE_THREE,
        watching: Watching::Cores,
        facts: &[(Value, 5), (Cores, 0b1001)],
        ..ROW
    },
    // The chooser of core k returns k + 1, so each thread of a chain runs on the core after its parent's.
    Row {
        shows: "each core has its own chooser",
        forks: 3,
        expr: "(num 1)",
        machines: (&[4], QUANTA),
        draws: Draws(ONE_EACH, 0, ONE_EACH),
        watching: Watching::Cores,
        facts: &[(Value, 4), (Cores, 0b1111)],
        ..ROW
    },
    // Core 0's forks draw cores 1, 2 and 3 in turn, and the root forks three threads before it joins any.
    Row {
        shows: "each fork draws a word",
        expr: "(fork n (num 1) (fork n (num 2) (fork n (num 3) (num 4) (var 1)) (var 1)) (var 1))",
        machines: (&[4], QUANTA),
        draws: IN_TURN,
        watching: Watching::Cores,
        facts: &[(Value, 4), (Cores, 0b1111)],
        ..ROW
    },
    // The root and three other threads have all slots while 301 more are forked, for 45 of which the queue has no room.
    // All these forks draw 304 words, which choose cores 0 and 1 in turn. So the next thread is forked to core 0, and
    // core 1 is empty for an exclusive thread.
    Row {
        shows: "each fork draws a word, that of a thread that runs in place at once too",
        expr: "(let (fork n (fold (num 0) (num 20000) (num 0) (var 1)) (fork n (fold (num 0) (num 20000) (num 0) (var 1)) (fork n (fold (num 0) (num 20000) (num 0) (var 1)) (fold (num 0) (num 301) (num 0) (fork n (num 1) (num 1) (var 2))) (var 1)) (var 1)) (var 1)) (fork n (fold (num 0) (num 20000) (num 0) (var 2)) (fork x (num 1) (num 1) (add (var 1) (var 2))) (add (var 1) (var 2))))",
        machines: (&[2], QUANTA),
        slots: 2,
        draws: Draws(0, ONE_EACH, 0),
        facts: &[(Value, 2), (Threads, 307), (LastTwoInSlots, 1)],
        ..ROW
    },
    // The root has the only slot of the core that is drawn. The other cores are tried in ascending order.
    Row {
        shows: "where the core that is drawn is full, the lowest that is not gets the thread",
        expr: FORK,
        machines: (&[4], QUANTA),
        slots: 1,
        watching: Watching::Cores,
        facts: &[(Value, 5), (Slot, 2), (Cores, 0b0011)],
        ..ROW
    },
    Row {
        shows: "a thread that has a core alone runs there",
        expr: EXCLUSIVE,
        machines: (&[2], QUANTA),
        watching: Watching::Cores,
        facts: &[(Value, 3), (Slot, 2), (Cores, 0b0011)],
        ..ROW
    },
    Row {
        shows: "a thread that has a core alone runs beside its parent",
        expr: ALONE,
        machines: (&[2], &[1]),
        watching: Watching::Meeting(500, 0),
        facts: &[(Value, 1), (Slot, 2), (InPlace, 0), (IsOver, 1)],
        ..ROW
    },
];

#[test]
fn threads_run_on_the_cores_that_are_drawn(rt: HostRuntime) -> Result<(), Fail> {
    rows_hold(&rt, rt.alloc(), ROWS)
}
