//! Tests of runs in which orders close and open cores.
use super::cores::{ALONE, FORK, SWEEP};
use super::facts::Fact::{Applied, Cores, InPlace, IsOver, Slot, Threads, Value};
use super::places::MANY;
use super::rows::{QUANTA, ROW, Row, rows_hold};
use crate::choosers::{CORE_ONE, CORE_THREE, SPREAD};
use crate::gates::Watching;
use arachne_policy::OrderKind::{Grant, Release};
use std::test::Fail;

/// Core 1 is closed, and then opened by an order, after which it must run a thread.
pub(super) const GRANTED: Row = Row {
    shows: "a grant has a kernel thread that is parked go on",
    expr: "(let (fold (num 0) (num 5) (num 0) (var 1)) (fork n (num 2) (fold (num 0) (num 60) (num 0) (var 2)) (add (var 1) (var 2))))",
    machines: (&[2], &[1]),
    draws: CORE_ONE,
    orders: &[(0, Release, 1), (2, Grant, 1), (25, Release, 1)],
    watching: Watching::Granting(1, 20),
    facts: &[(Value, 2), (Applied, 3), (Slot, 2), (IsOver, 1)],
    ..ROW
};

/// The order falls due while core 0 has nothing to run. Core 1 waits until core 0 has carried it out.
const IDLE: Row = Row {
    shows: "orders are applied while core 0 has nothing to run",
    expr: "(let (fork n (fold (num 0) (num 20000) (num 0) (var 1)) (num 2) (add (var 0) (var 1))) (fold (num 0) (num 20000) (var 0) (var 2)))",
    machines: (&[2], &[1]),
    draws: CORE_ONE,
    orders: &[(25_000, Grant, 1)],
    watching: Watching::Applying(30_000),
    facts: &[(Value, 2), (Applied, 1), (IsOver, 1)],
    ..ROW
};

const GRANTS: &[Row] = &[
    GRANTED,
    Row {
        expr: "(let (fold (num 0) (num 50000) (num 0) (var 1)) (fork n (num 2) (fold (num 0) (num 400000) (num 0) (var 2)) (add (var 1) (var 2))))",
        machines: (&[2], &[10_000]),
        ..GRANTED
    },
    IDLE,
    Row {
        expr: "(let (fork n (fold (num 0) (num 100000) (num 0) (var 1)) (num 2) (add (var 0) (var 1))) (fold (num 0) (num 100000) (var 0) (var 2)))",
        machines: (&[2], &[10_000]),
        orders: &[(13, Grant, 1)],
        watching: Watching::Applying(15),
        ..IDLE
    },
];

#[test]
fn grants_have_cores_go_on(rt: HostRuntime) -> Result<(), Fail> {
    rows_hold(&rt, rt.alloc(), GRANTS)
}

/// Core 0 must run a child that was moved there when core 1 was closed.
const DRAINED: Row = Row {
    shows: "a closed core is drained",
    expr: "(fork n (fold (num 0) (num 3000) (num 0) (var 0)) (fork n (fold (num 0) (num 3000) (num 0) (var 0)) (fold (num 0) (num 1000) (num 0) (var 0)) (add (var 0) (var 1))) (add (var 0) (var 1)))",
    machines: (&[2], &[1]),
    draws: CORE_ONE,
    orders: &[(5, Release, 1)],
    watching: Watching::Lead(2000),
    facts: &[(Value, 6_997), (Applied, 1), (IsOver, 1)],
    ..ROW
};

const ROWS: &[Row] = &[
    // A thousand orders close and open cores while 901 threads run.
    Row {
        shows: "cores come and go",
        expr: MANY,
        machines: (&[4, 64], &[1]),
        draws: SPREAD,
        in_turn: 1000,
        facts: &[(Value, 405_450), (Threads, 901)],
        ..ROW
    },
    // An exclusive thread is forked while only core 0, which has the root, and the cores from 41 on are open.
    Row {
        shows: "a thread alone gets the first open core that is empty, however many cores there are",
        expr: ALONE,
        machines: (&[64], &[100]),
        released: 40,
        watching: Watching::Cores,
        facts: &[(InPlace, 0), (Cores, 1 << 41 | 1), (Applied, 40)],
        ..ROW
    },
    // The root forks nine of 300 threads while core 0 is full and the other cores are closed, so that these children
    // wait. Once the other cores are open, the root forks an exclusive child, which gets a core at once, and another
    // child beside it.
    Row {
        shows: "an exclusive child among those that wait is joined in turn",
        expr: "(sweep add 1 (num 0) (num 300) (if (eq (var 0) (num 299)) (let (fold (num 0) (num 3000) (num 0) (num 0)) (fork x (num 1) (fork n (num 2) (num 3) (add (var 2) (var 3))) (add (var 2) (var 3)))) (num 0)))",
        machines: (&[3], &[1]),
        draws: SPREAD,
        orders: &[
            (0, Release, 1),
            (0, Release, 2),
            (4000, Grant, 1),
            (4000, Grant, 2),
        ],
        facts: &[(Value, 6), (Threads, 302), (Applied, 4)],
        ..ROW
    },
    // The fourth order is never due.
    Row {
        shows: "orders are counted",
        expr: SWEEP,
        machines: (&[4], &[1]),
        draws: SPREAD,
        orders: &[
            (0, Release, 1),
            (1, Release, 2),
            (2, Grant, 1),
            (u64::MAX, Grant, 2),
        ],
        facts: &[(Value, 28), (Applied, 3)],
        ..ROW
    },
    // Core 3 is closed. If all cores were open, both cores that the fork draws would be core 3. Among the open cores,
    // both are core 0.
    Row {
        shows: "a closed core gets no thread",
        expr: FORK,
        machines: (&[4], QUANTA),
        draws: CORE_THREE,
        orders: &[(0, Release, 3)],
        watching: Watching::Cores,
        facts: &[(Value, 5), (Applied, 1), (Cores, 0b0001)],
        ..ROW
    },
    // Core 3 is closed at first, and open again when the root forks, after it has counted to 3,000.
    Row {
        shows: "a granted core gets threads again",
        expr: "(let (fold (num 0) (num 3000) (num 0) (var 0)) (fork n (num 2) (num 3) (add (var 1) (var 2))))",
        machines: (&[4], &[1]),
        draws: CORE_THREE,
        orders: &[(0, Release, 3), (10, Grant, 3)],
        watching: Watching::Cores,
        facts: &[(Value, 5), (Applied, 2), (Cores, 0b1001)],
        ..ROW
    },
    DRAINED,
    Row {
        machines: (&[2], &[100]),
        watching: Watching::Lead(20),
        ..DRAINED
    },
    // A thread that has a core to itself stays there when an order closes the core, and runs beside its parent.
    Row {
        shows: "a thread that has a core alone stays",
        expr: ALONE,
        machines: (&[2], &[1]),
        orders: &[(400, Release, 1)],
        watching: Watching::Meeting(500, 0),
        facts: &[(Value, 1), (Applied, 1), (IsOver, 1), (InPlace, 0)],
        ..ROW
    },
];

#[test]
fn orders_close_and_open_cores(rt: HostRuntime) -> Result<(), Fail> {
    rows_hold(&rt, rt.alloc(), ROWS)
}
