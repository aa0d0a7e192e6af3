//! Tests of which threads get a slot, which wait for one, and which run inside their parents' slots.
use super::cores::EXCLUSIVE;
use super::facts::Fact::{InPlace, InPlaceUpTo, IsOver, Slot, Spill, Threads, Value};
use super::facts::Telling;
use super::rows::{LOCKED, QUANTA, ROW, Row, rows_hold};
use crate::choosers::{CORE_ONE, Draws, ONE_EACH, SPREAD};
use crate::gates::Watching;
use arachne_policy::OrderKind::Grant;
use std::test::Fail;

pub(super) const MANY: &str = "(sweep add 1 (num 0) (num 901) (var 0))";

pub(super) const BESIDE: &str =
    "(fork n (fold (num 0) (num 5000) (num 0) (var 1)) (fold (num 0) (num 5000) (num 0) (var 1)) (add (var 0) (var 1)))";

pub(super) const BESIDE_LONG: &str =
    "(fork n (fold (num 0) (num 50000) (num 0) (var 1)) (fold (num 0) (num 50000) (num 0) (var 1)) (add (var 0) (var 1)))";

/// A chain of 61 threads, each of which awaits the next. A core has 56 slots, so 5 threads must run inside their
/// parents' slots.
pub(super) const CHAIN: Row = Row {
    shows: "where all places are taken, threads run in their parents'",
    forks: 60,
    expr: "(num 1)",
    machines: (&[1], QUANTA),
    facts: &[(Value, 61), (Slot, 56), (Spill, 0), (InPlace, 5)],
    ..ROW
};

/// The second child finds no free slot, and must get the first child's once that child has ended.
const ONE_WAITS: Row = Row {
    shows: "threads that wait get a place that is left, one after the other",
    expr: "(fork n (fold (num 0) (num 100) (num 0) (var 1)) (fork n (num 2) (fold (num 0) (num 1000) (num 0) (var 1)) (add (var 0) (var 1))) (add (var 0) (var 1)))",
    machines: (&[1], &[1, 7, 100]),
    slots: 2,
    facts: &[(Value, 2)],
    told: (Telling::Ran, "slot spill slot "),
    ..ROW
};

const ROWS: &[Row] = &[
    CHAIN,
    Row {
        slots: 3,
        facts: &[(Value, 61), (Slot, 3), (Spill, 0), (InPlace, 58)],
        ..CHAIN
    },
    Row {
        machines: (&[2, 4, 16, 64], &[1, 100]),
        facts: &[(Value, 61), (Threads, 61), (InPlace, 0)],
        ..CHAIN
    },
    // Forks must get past many full cores.
    Row {
        machines: (&[64], &[100]),
        slots: 2,
        facts: &[(Value, 61), (Slot, 61), (InPlace, 0)],
        ..CHAIN
    },
    // When most of the threads are forked, the queue of waiting children is full.
    Row {
        expr: MANY,
        forks: 0,
        slots: 1,
        facts: &[(Value, 405_450), (Slot, 1), (Spill, 0), (InPlace, 900)],
        ..CHAIN
    },
    Row {
        shows: "a thread that wants a core alone never waits for a place",
        expr: EXCLUSIVE,
        machines: (&[1], QUANTA),
        facts: &[(Value, 3)],
        told: (Telling::Ran, "slot in place "),
        ..ROW
    },
    ONE_WAITS,
    // The root's first child has the other slot, and three more children wait for that slot in turn.
    Row {
        expr: "(fork n (fold (num 0) (num 100) (num 0) (var 1)) (fork n (num 2) (fork n (num 2) (fork n (num 2) (fold (num 0) (num 3000) (num 0) (var 1)) (add (var 0) (var 1))) (add (var 0) (var 1))) (add (var 0) (var 1))) (add (var 0) (var 1)))",
        facts: &[(Value, 6), (Slot, 2), (Spill, 3)],
        told: (Telling::Nothing, ""),
        ..ONE_WAITS
    },
];

#[test]
fn threads_get_places_as_they_come(rt: HostRuntime) -> Result<(), Fail> {
    rows_hold(&rt, rt.alloc(), ROWS)
}

/// At most 55 threads live at once, so each must get one of the core's 56 slots.
const NEVER_FULL: Row = Row {
    shows: "no place is kept on a core that was never full",
    forks: 30,
    expr: "(let (sweep add 1 (num 0) (num 10) (var 0)) (sweep add 1 (num 0) (num 25) (fold (num 0) (num 300) (num 0) (num 0))))",
    machines: (&[1], &[1, 7, 100]),
    facts: &[(Value, 30), (Slot, 64)],
    ..ROW
};

const KEPT: &[Row] = &[
    // The root forks and joins 1,000 threads one after another.
    Row {
        shows: "where two threads live at most, each has a place",
        expr: "(fold (num 0) (num 1000) (num 0) (fork n (num 1) (num 1) (add (var 1) (var 2))))",
        machines: (&[1], QUANTA),
        facts: &[(Value, 1000), (Slot, 1001)],
        ..ROW
    },
    // 100 threads, 44 of which find no slot, and then 1,000 threads one after another, which find a slot.
    Row {
        shows: "places that were kept are given back",
        expr: "(let (sweep add 1 (num 0) (num 100) (fold (num 0) (num 30) (num 0) (num 0))) (fold (num 0) (num 1000) (num 0) (fork n (num 1) (num 1) (add (var 2) (var 3)))))",
        machines: (&[1], QUANTA),
        facts: &[(Value, 1000), (Threads, 1100), (InPlaceUpTo(44), 1)],
        ..ROW
    },
    NEVER_FULL,
    Row {
        expr: "(let (sweep add 1 (num 0) (num 10) (var 0)) (sweep add 1 (num 0) (num 25) (fold (num 0) (num 12000) (num 0) (num 0))))",
        machines: (&[1], &[10_000]),
        ..NEVER_FULL
    },
    // Of 1,000 threads, 134 get a slot when they are forked. If workers kept slots, only 56 would.
    Row {
        shows: "no place is kept where an order may close the core",
        expr: "(sweep add 1 (num 0) (num 1000) (var 0))",
        machines: (&[1], &[1]),
        orders: &[(1_000_000, Grant, 0)],
        facts: &[(Value, 499_500), (InPlaceUpTo(900), 1)],
        ..ROW
    },
];

#[test]
fn places_are_kept_on_full_cores_alone(rt: HostRuntime) -> Result<(), Fail> {
    rows_hold(&rt, rt.alloc(), KEPT)
}

/// Each core waits for a slice of the other, so the two threads must run at the same time.
const MEETING: Row = Row {
    shows: "two long threads run side by side",
    expr: BESIDE,
    machines: (&[2], &[1, 7, 100]),
    draws: CORE_ONE,
    watching: Watching::Meeting(3, 0),
    facts: &[(Value, 0), (Slot, 2), (IsOver, 1)],
    ..ROW
};

/// Core 1's worker has nothing to run, and keeps an empty slot for a later child. A call that finds core 1 full waits
/// for a slot, so the worker must free this one before it sleeps.
const GIVEN_BACK: Row = Row {
    shows: "a kernel thread that sleeps keeps no place",
    expr: "(fork n (fork n (fork n (fork n (fold (num 0) (num 10000) (num 0) (var 1)) (num 1) (var 0)) (num 1) (var 0)) (num 1) (var 0)) (let (fold (num 0) (num 3000) (num 0) (var 1)) (fork n (num 1) (let (fold (num 0) (num 3000) (num 0) (var 2)) (fork n (num 1) (num 1) (num 0))) (num 0))) (var 0))",
    forms: LOCKED,
    machines: (&[2], &[1]),
    slots: 3,
    draws: Draws(ONE_EACH, 0, 0xFFFF_FFFE_FFFF_FFFF),
    facts: &[(Value, 0), (Slot, 7)],
    ..ROW
};

const AT_ONCE: &[Row] = &[
    MEETING,
    Row {
        expr: BESIDE_LONG,
        machines: (&[2], &[10_000]),
        ..MEETING
    },
    GIVEN_BACK,
    Row {
        expr: "(fork n (fork n (fork n (fork n (fold (num 0) (num 400000) (num 0) (var 1)) (num 1) (var 0)) (num 1) (var 0)) (num 1) (var 0)) (let (fold (num 0) (num 60000) (num 0) (var 1)) (fork n (num 1) (let (fold (num 0) (num 60000) (num 0) (var 2)) (fork n (num 1) (num 1) (num 0))) (num 0))) (var 0))",
        machines: (&[2], &[7, 100, 10_000]),
        ..GIVEN_BACK
    },
];

#[test]
fn threads_run_side_by_side(rt: HostRuntime) -> Result<(), Fail> {
    rows_hold(&rt, rt.alloc(), AT_ONCE)
}

/// An exclusive thread, which wants a core for itself, must get the core, which is empty once the normal one has ended.
const THEN_ALONE: Row = Row {
    shows: "a thread that is to be alone gets a core that is empty",
    expr: "(fork n (num 1) (num 2) (fork x (num 3) (num 4) (add (var 2) (var 3))))",
    machines: (&[2], QUANTA),
    draws: SPREAD,
    facts: &[(Value, 7), (Slot, 3)],
    ..ROW
};

const ALONE_AGAIN: &[Row] = &[
    THEN_ALONE,
    Row {
        slots: 1,
        ..THEN_ALONE
    },
];

#[test]
fn a_core_that_is_left_is_free_at_once(rt: HostRuntime) -> Result<(), Fail> {
    for _ in 0..75 {
        rows_hold(&rt, rt.alloc(), ALONE_AGAIN)?;
    }
    Ok(())
}

/// The root waits until core 1 runs the second child, which must get the slot of the first.
const WAITS: Row = Row {
    shows: "a thread that waits gets a place of another core",
    expr: "(fork n (num 1) (fork n (fold (num 0) (num 50000) (num 0) (var 1)) (fold (num 0) (num 50000) (num 0) (var 1)) (add (var 0) (var 1))) (add (var 0) (var 1)))",
    machines: (&[2], &[1, 7]),
    slots: 1,
    draws: CORE_ONE,
    watching: Watching::Meeting(200, 20),
    facts: &[(Value, 1), (IsOver, 1)],
    told: (Telling::Ran, "slot spill slot "),
    ..ROW
};

/// The table answers two of three claims with `Lost`. The worker must repeat these claims.
const LOST: Row = Row {
    shows: "a claim that is lost is tried again",
    expr: "(fork n (fold (num 0) (num 1000) (num 1) (var 1)) (fork n (fold (num 0) (num 1000) (num 1) (var 1)) (fork n (fold (num 0) (num 1000) (num 1) (var 1)) (fork n (fold (num 0) (num 1000) (num 1) (var 1)) (fork n (fold (num 0) (num 1000) (num 1) (var 1)) (fold (num 0) (num 50000) (num 0) (var 1)) (add (var 0) (var 1))) (add (var 0) (var 1))) (add (var 0) (var 1))) (add (var 0) (var 1))) (add (var 0) (var 1)))",
    forms: LOCKED,
    machines: (&[1], QUANTA),
    slots: 5,
    facts: &[(Value, 5)],
    told: (Telling::Ran, "slot spill slot slot slot slot "),
    ..ROW
};

/// The second child must get the slot that the first has left, although its parent could continue.
const KEPT_FOR_ONE: Row = Row {
    shows: "a place that is kept is free for a thread that waits",
    expr: "(fork n (let (fork n (num 1) (num 1) (var 0)) (fork n (num 2) (fold (num 0) (num 40) (num 0) (var 2)) (add (var 1) (var 2)))) (num 3) (var 0))",
    machines: (&[1], &[1, 7]),
    slots: 3,
    facts: &[(Value, 2)],
    told: (Telling::Ran, "slot slot slot spill "),
    ..ROW
};

const TICKETS: &[Row] = &[
    WAITS,
    Row {
        machines: (&[2], &[10_000]),
        watching: Watching::Meeting(2, 1),
        ..WAITS
    },
    // The root holds the lock for so long that its child comes to wait for it. Then the root awaits the child.
    Row {
        shows: "a thread is told as woken for what it waited for",
        locks: 1,
        expr: "(fork n (hold 0 (fold (num 0) (num 2000) (num 2) (var 1))) (hold 0 (fold (num 0) (num 2000) (num 1) (var 1))) (add (var 0) (var 1)))",
        machines: (&[1], &[100]),
        slots: 5,
        watching: Watching::Wakes,
        facts: &[(Value, 3), (IsOver, 1)],
        told: (Telling::Ran, "slot slot "),
        ..ROW
    },
    LOST,
    Row {
        machines: (&[2], QUANTA),
        draws: CORE_ONE,
        told: (Telling::Nothing, ""),
        ..LOST
    },
    KEPT_FOR_ONE,
    Row {
        expr: "(fork n (let (fork n (num 1) (num 1) (var 0)) (fork n (num 2) (fold (num 0) (num 150000) (num 0) (var 2)) (add (var 1) (var 2)))) (num 3) (var 0))",
        machines: (&[1], &[10_000]),
        ..KEPT_FOR_ONE
    },
];

#[test]
fn threads_that_wait_get_places(rt: HostRuntime) -> Result<(), Fail> {
    rows_hold(&rt, rt.alloc(), TICKETS)
}
