//! Tests of slices: when a slice counts, that it has all of its steps, and that none begins once the run is stopped.
use super::cores::FORK;
use super::facts::Fact::{Applied, Counts, CountsUpTo, IsOver, Value};
use super::facts::Telling;
use super::places::{BESIDE, BESIDE_LONG};
use super::rows::{LOCKED, QUANTA, ROW, Row, rows_hold};
use crate::choosers::CORE_ONE;
use crate::gates::Watching;
use arachne_policy::OrderKind::{Grant, Release};
use std::test::Fail;

/// The order to close core 1 is due after 401 slices, and must not be carried out before then.
const HELD_BACK: Row = Row {
    shows: "a slice counts once it has ended",
    expr: BESIDE,
    machines: (&[2], &[1, 7]),
    draws: CORE_ONE,
    orders: &[(401, Release, 1)],
    watching: Watching::Holding(400),
    facts: &[(Value, 0), (Applied, 1), (IsOver, 1)],
    ..ROW
};

const ENDS: &[Row] = &[
    HELD_BACK,
    Row {
        expr: BESIDE_LONG,
        machines: (&[2], &[10_000]),
        orders: &[(4, Release, 1)],
        watching: Watching::Holding(3),
        ..HELD_BACK
    },
    // The root's first step forks a child to core 1, which must not begin before the observer knows of core 0's slice.
    Row {
        shows: "the gate is told of a slice before its steps",
        expr: FORK,
        machines: (&[2], QUANTA),
        draws: CORE_ONE,
        watching: Watching::First,
        facts: &[(Value, 5), (IsOver, 1)],
        ..ROW
    },
    // All threads are on core 0. The root makes 504 steps, its 100 children one each, each in a slice of its own.
    Row {
        shows: "a slice that ends its thread counts",
        expr: "(fold (num 0) (num 100) (num 0) (fork n (num 1) (num 0) (add (var 1) (var 2))))",
        machines: (&[2], &[1]),
        orders: &[(0, Release, 1), (590, Grant, 1)],
        watching: Watching::Cores,
        facts: &[(Value, 100), (Applied, 2)],
        ..ROW
    },
];

#[test]
fn a_slice_counts_once_it_has_ended(rt: HostRuntime) -> Result<(), Fail> {
    rows_hold(&rt, rt.alloc(), ENDS)
}

const WHOLE: Row = Row {
    shows: "a slice of a thread that goes on has its whole quantum",
    expr: "(fold (num 0) (num 29000) (num 0) (var 1))",
    machines: (&[1], &[10_000]),
    watching: Watching::Cores,
    facts: &[(Value, 0), (Counts(3), 1), (CountsUpTo(3), 1)],
    ..ROW
};

/// A thread that the table refuses to end stops the run while core 1 is in its first slice. Core 1 must begin no other.
const STOPPED: Row = Row {
    shows: "no slice begins once the run is stopped",
    expr: "(fork n (fold (num 0) (num 50000) (num 0) (var 1)) (fork n (fold (num 0) (num 50000) (num 0) (var 1)) (fork x (num 1) (num 2) (num 3)) (num 4)) (num 5))",
    forms: LOCKED,
    machines: (&[5], QUANTA),
    draws: CORE_ONE,
    orders: &[(0, Release, 3)],
    watching: Watching::Stopping(0),
    told: (Telling::Nothing, "Worker(Token)"),
    ..ROW
};

const ROWS: &[Row] = &[
    WHOLE,
    STOPPED,
    // The only thread of core 1 would get its next slice at once.
    Row {
        expr: "(fork n (fold (num 0) (num 50000) (num 0) (var 1)) (fork x (num 1) (num 2) (num 3)) (num 4))",
        ..STOPPED
    },
    // The first thread on core 1 holds the lock for which the second waits, and frees it in core 1's fifth slice.
    Row {
        locks: 1,
        expr: "(fork n (let (hold 0 (fold (num 0) (num 25000) (num 0) (var 1))) (fold (num 0) (num 50000) (num 0) (var 2))) (fork n (hold 0 (num 1)) (fork x (num 1) (num 2) (num 3)) (num 4)) (num 5))",
        machines: (&[5], &[10_000]),
        watching: Watching::Stopping(4),
        ..STOPPED
    },
];

#[test]
fn a_slice_has_its_whole_quantum_and_none_begins_after_a_stop(rt: HostRuntime) -> Result<(), Fail> {
    rows_hold(&rt, rt.alloc(), ROWS)
}
