//! Tests of rules that no contract states and no log shows. A run must count waiting children and slots, move threads
//! from closed cores, and repeat a claim or wake that failed because of a concurrent call.
use super::cores::EXCLUSIVE;
use super::facts::Fact::{Applied, Cores, Counts, Events, InPlace, IsOver, Slot, Threads, Value};
use super::facts::Telling;
use super::orders::GRANTED;
use super::rows::{LOCKED, ROW, Row, rows_hold};
use crate::choosers::{CORE_ONE, Draws, ONE_EACH};
use crate::gates::Watching;
use arachne_policy::OrderKind::{Grant, Release};
use std::test::Fail;

const ROWS: &[Row] = &[
    // The root and another thread have both slots. 300 children in turn wait for a slot until they are joined, and the
    // queue has no room for 44 of them. Then the other thread ends, all tickets are taken, and of two further threads
    // the second waits for the slot of the first.
    Row {
        shows: "as many children wait as the queue has room for, and again once their tickets are taken",
        expr: "(let (fork n (fold (num 0) (num 6000) (num 0) (var 1)) (fold (num 0) (num 300) (num 0) (fork n (num 1) (num 1) (var 1))) (add (var 0) (var 1))) (let (fold (num 0) (num 6000) (num 0) (var 2)) (fork n (fold (num 0) (num 100) (num 0) (var 3)) (fork n (num 2) (fold (num 0) (num 1000) (num 0) (var 3)) (add (var 2) (var 3))) (add (var 2) (var 3)))))",
        machines: (&[1], &[1, 7]),
        slots: 2,
        watching: Watching::Spills,
        facts: &[(Value, 2), (Threads, 304), (Counts(257), 1)],
        ..ROW
    },
    // The root has the only slot. The first sweep leaves the queue full of tickets (queue entries) whose children are
    // gone. In the next two sweeps, the halves with 1,024 iterations still find room.
    Row {
        shows: "a large half waits though the queue is full of tickets whose children are gone",
        expr: "(fold (num 0) (num 3) (num 0) (add (var 1) (sweep add 1 (num 0) (num 2048) (var 2))))",
        machines: (&[1], &[100, 10_000]),
        slots: 1,
        watching: Watching::Spills,
        facts: &[(Value, 6_288_384), (Threads, 6142), (Counts(258), 1)],
        ..ROW
    },
    // While the root waits for a lock that its first child holds, its second child ends, which wakes the root.
    Row {
        shows: "a thread that is woken while it waits for a lock waits on",
        locks: 1,
        expr: "(fork n (hold 0 (fold (num 0) (num 400) (num 0) (var 1))) (let (fold (num 0) (num 40) (num 0) (var 1)) (fork n (fold (num 0) (num 40) (num 0) (var 2)) (hold 0 (num 1)) (add (var 1) (var 2)))) (add (var 0) (var 1)))",
        machines: (&[1], &[1, 7]),
        facts: &[(Value, 1), (Events, 6)],
        ..ROW
    },
    Row {
        shows: "a claim of a whole core that is lost is tried again",
        expr: EXCLUSIVE,
        forms: LOCKED,
        machines: (&[2], &[1, 7, 100]),
        slots: 5,
        facts: &[(Value, 3)],
        told: (Telling::Ran, "slot slot "),
        ..ROW
    },
    Row {
        shows: "a wake that is lost is tried again",
        expr: "(fork n (fold (num 0) (num 1000) (num 0) (var 1)) (num 3) (add (var 0) (var 1)))",
        forms: LOCKED,
        machines: (&[1, 2], &[1, 100]),
        slots: 5,
        draws: CORE_ONE,
        facts: &[(Value, 3)],
        ..ROW
    },
    // The root and 15 others have all slots of the core. The last of these threads forks others, which find no slot,
    // until the queue is full. The other threads end before the last one, and the worker keeps their slots for later
    // children. When the last of them ends, these slots are given back, so that the next thread that is forked gets one
    // at once.
    Row {
        shows: "a place that was kept and is given back is free at once",
        expr: "(fork n (fold (num 0) (num 4000) (num 0) (var 1)) (fork n (fold (num 0) (num 4000) (num 0) (var 1)) (fork n (fold (num 0) (num 4000) (num 0) (var 1)) (fork n (fold (num 0) (num 4000) (num 0) (var 1)) (fork n (fold (num 0) (num 4000) (num 0) (var 1)) (fork n (fold (num 0) (num 4000) (num 0) (var 1)) (fork n (fold (num 0) (num 4000) (num 0) (var 1)) (fork n (fold (num 0) (num 4000) (num 0) (var 1)) (fork n (fold (num 0) (num 4000) (num 0) (var 1)) (fork n (fold (num 0) (num 4000) (num 0) (var 1)) (fork n (fold (num 0) (num 4000) (num 0) (var 1)) (fork n (fold (num 0) (num 4000) (num 0) (var 1)) (fork n (fold (num 0) (num 4000) (num 0) (var 1)) (fork n (fold (num 0) (num 4000) (num 0) (var 1)) (fork n (fold (num 0) (num 4000) (num 0) (fork n (num 1) (num 1) (var 1))) (num 1) (add (var 0) (var 1))) (add (var 0) (var 1))) (add (var 0) (var 1))) (add (var 0) (var 1))) (add (var 0) (var 1))) (add (var 0) (var 1))) (add (var 0) (var 1))) (add (var 0) (var 1))) (add (var 0) (var 1))) (add (var 0) (var 1))) (add (var 0) (var 1))) (add (var 0) (var 1))) (add (var 0) (var 1))) (add (var 0) (var 1))) (add (var 0) (var 1)))",
        machines: (&[1], &[100]),
        slots: 16,
        facts: &[(Value, 1), (InPlace, 999)],
        ..ROW
    },
];

#[test]
fn what_a_thread_is_due_is_heeded(rt: HostRuntime) -> Result<(), Fail> {
    rows_hold(&rt, rt.alloc(), ROWS)
}

/// After core 1 was closed, its worker must put the thread that it ran back into the table.
const ANEW: Row = Row {
    shows: "a thread on a core that is taken back is put back after its slice",
    expr: "(fork n (fold (num 0) (num 400) (num 0) (var 1)) (fold (num 0) (num 4000) (num 0) (var 1)) (add (var 0) (var 1)))",
    machines: (&[2], &[1, 7]),
    draws: CORE_ONE,
    orders: &[(20, Release, 1)],
    watching: Watching::Anew(10),
    facts: &[(Value, 0), (Applied, 1), (IsOver, 1)],
    ..ROW
};

const CLOSED: &[Row] = &[
    ANEW,
    // The child holds a lock from its first slice on. It must leave the closed core, too.
    Row {
        locks: 1,
        expr: "(fork n (hold 0 (fold (num 0) (num 400) (num 0) (var 1))) (fold (num 0) (num 4000) (num 0) (var 1)) (add (var 0) (var 1)))",
        ..ANEW
    },
    // The root, on core 0, forks a thread that has core 1 to itself. That thread awaits a child on core 0 while core 1
    // is closed. Core 1's kernel thread must not park (sleep) yet. If it does, a later order opens core 1, so that the
    // run ends, and the test fails and doesn't hang.
    Row {
        shows: "a closed core's kernel thread parks only once nothing is left there",
        expr: "(fork x (fork n (fold (num 0) (num 800) (num 0) (var 1)) (num 1) (add (var 0) (var 1))) (fold (num 0) (num 5000) (num 0) (var 1)) (add (var 0) (var 1)))",
        machines: (&[2], &[1]),
        orders: &[(100, Release, 1), (4_000, Grant, 1)],
        watching: Watching::ParksLast(50, 500),
        facts: &[(Value, 1), (Applied, 2), (IsOver, 1)],
        ..ROW
    },
    // Cores 1 and 2 are closed. Core 1 has no thread. Core 2 has a thread that comes to wait for the lock that the
    // root, on core 0, holds. This thread must be moved from core 2.
    Row {
        shows: "each core that is taken back is drained",
        locks: 1,
        expr: "(fork n (let (fold (num 0) (num 500) (num 0) (var 1)) (hold 0 (num 1))) (hold 0 (fold (num 0) (num 5000) (num 0) (var 1))) (add (var 0) (var 1)))",
        machines: (&[3], &[1]),
        draws: Draws(2 * ONE_EACH, 0, 0),
        orders: &[(20, Release, 1), (20, Release, 2)],
        watching: Watching::Emptied(2, 1000),
        facts: &[(Value, 1), (Applied, 2), (IsOver, 1)],
        ..ROW
    },
    // Three threads are on core 1 when it is closed, one of them running.
    Row {
        shows: "threads are moved to the first core that has room",
        expr: "(fork n (fold (num 0) (num 1000) (num 0) (var 1)) (fork n (fold (num 0) (num 1000) (num 0) (var 1)) (fork n (fold (num 0) (num 1000) (num 0) (var 1)) (fold (num 0) (num 2000) (num 0) (var 1)) (add (var 0) (var 1))) (add (var 0) (var 1))) (add (var 0) (var 1)))",
        machines: (&[3], &[1, 100]),
        watching: Watching::Moving,
        facts: &[(Value, 0), (Applied, 1), (IsOver, 1), (Cores, 0b001)],
        ..ANEW
    },
    // Core 1 is closed at first, and its kernel thread parks (sleeps). A later order opens core 1, which this table
    // does only after a pause. The kernel thread must be woken after that pause.
    Row {
        shows: "a grant unparks the kernel thread once the core is open",
        forms: LOCKED,
        slots: 9,
        orders: &[(0, Release, 1), (2, Grant, 1)],
        facts: &[(Value, 2), (Applied, 2), (Slot, 2), (IsOver, 1)],
        ..GRANTED
    },
];

#[test]
fn a_core_that_is_taken_back_is_left(rt: HostRuntime) -> Result<(), Fail> {
    rows_hold(&rt, rt.alloc(), CLOSED)
}
