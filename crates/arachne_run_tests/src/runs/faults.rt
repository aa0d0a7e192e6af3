//! Tests that a run uses the given table. A run that ends with a fault, while its threads wait or run without end, must
//! return the first fault and join all kernel threads.
use super::cores::{FORK, SWEEP};
use super::facts::Fact::{Cores, Value};
use super::facts::Telling;
use super::rows::{LOCKED, QUANTA, ROW, Row, rows_hold};
use crate::choosers::{CORE_ONE, CORE_THREE, IN_TURN, SPREAD, ZEROS};
use crate::gates::Watching;
use arachne_policy::OrderKind::Release;
use std::test::Fail;

/// The run must end with the fault of the table that refuses to end the child on core 1.
const HANDED_BACK: Row = Row {
    shows: "threads that go on stop",
    expr: "(fork n (fold (num 0) (num 20000) (num 0) (var 1)) (fold (num 0) (num 1000000000000) (num 0) (var 1)) (var 0))",
    forms: LOCKED,
    machines: (&[5], &[1, 100]),
    draws: CORE_ONE,
    watching: Watching::Cores,
    told: (Telling::Nothing, "Worker(Token)"),
    ..ROW
};

/// The run must end with the fault of a claim that was refused memory.
const REFUSED: Row = Row {
    expr: "(fork n (fold (num 0) (num 1000000000000) (num 0) (var 1)) (let (fold (num 0) (num 20000) (num 0) (var 1)) (fork n (num 1) (num 2) (var 1))) (var 0))",
    machines: (&[6], &[1, 100]),
    told: (Telling::Nothing, "Worker(Memory)"),
    ..HANDED_BACK
};

/// A claim is refused memory, and then the table refuses to end a child. The run must return the first of these faults.
const FIRST: Row = Row {
    shows: "the first fault is told",
    expr: "(fork n (num 1) (let (fold (num 0) (num 2000) (num 0) (var 1)) (fork n (num 1) (num 2) (var 1))) (var 0))",
    ..REFUSED
};

const ROWS: &[Row] = &[
    HANDED_BACK,
    // Meanwhile cores 2, 3 and 4 are closed, and their workers are parked (asleep), so that the fault must wake them.
    Row {
        shows: "parked cores are woken",
        orders: &[(0, Release, 2), (0, Release, 3), (0, Release, 4)],
        ..HANDED_BACK
    },
    // The root is on core 0, and its first child on core 1. One of these two threads holds the lock without end, and
    // the other one waits for the lock. The second child, on core 2, ends, and the table refuses this.
    Row {
        shows: "a thread that waits for a lock is left",
        locks: 1,
        expr: "(fork n (hold 0 (fold (num 0) (num 1000000000000) (num 0) (var 1))) (fork n (fold (num 0) (num 20000) (num 0) (var 1)) (hold 0 (fold (num 0) (num 1000000000000) (num 0) (var 1))) (var 1)) (var 0))",
        draws: IN_TURN,
        ..HANDED_BACK
    },
    // Each core has one slot. The root forks more children than there are slots before any of them ends.
    Row {
        shows: "children that wait for a place are left",
        expr: "(sweep add 1 (num 0) (num 300) (fold (num 0) (num 3000) (num 0) (var 2)))",
        slots: 1,
        draws: SPREAD,
        ..HANDED_BACK
    },
    // The root and its first child fill cores 0 and 1, so the second child runs without end inside the root's slot.
    Row {
        shows: "a child in place stops",
        expr: "(fork n (fold (num 0) (num 20000) (num 0) (var 1)) (fork n (fold (num 0) (num 1000000000000) (num 0) (var 1)) (num 1) (var 1)) (var 0))",
        slots: 1,
        orders: &[(0, Release, 2), (0, Release, 3), (0, Release, 4)],
        ..HANDED_BACK
    },
    REFUSED,
    FIRST,
    // This row comes last, so that it runs in a process in which other runs have failed.
    Row {
        shows: "a run goes well behind others that did not",
        expr: SWEEP,
        machines: (&[4], &[1]),
        draws: SPREAD,
        facts: &[(Value, 28)],
        ..ROW
    },
];

const ALONE: Row = Row {
    shows: "what comes back gives no report",
    expr: "(num 7)",
    machines: (&[5], QUANTA),
    ..HANDED_BACK
};

/// The run must return the fault of the claim, and not that of a thread that the table then refuses to end.
const CLAIM: Row = Row {
    shows: "the first fault is told",
    expr: "(fork n (fork n (num 1) (num 2) (add (var 0) (var 1))) (num 3) (add (var 0) (var 1)))",
    machines: (&[6], QUANTA),
    ..REFUSED
};

const TABLES: &[Row] = &[
    ALONE,
    // The table says that all other cores are full.
    Row {
        shows: "full cores run nothing",
        expr: FORK,
        forms: LOCKED,
        machines: (&[7], QUANTA),
        draws: CORE_THREE,
        watching: Watching::Cores,
        facts: &[(Value, 5), (Cores, 0b0001)],
        ..ROW
    },
    CLAIM,
    // The first claim that is refused memory is the root's claim for its child on core 0.
    Row {
        draws: ZEROS,
        ..CLAIM
    },
];

#[test]
fn a_run_goes_through_its_table(rt: HostRuntime) -> Result<(), Fail> {
    rows_hold(&rt, rt.alloc(), TABLES)
}

#[test]
fn a_fault_stops_all_workers(rt: HostRuntime) -> Result<(), Fail> {
    rows_hold(&rt, rt.alloc(), ROWS)
}
