//! Runs programs on many machines, and checks each run's log of events against the rules that every run must keep.
ghost use Rattle.arachne_lang.specs.Checked.{IsChecked};
ghost use Rattle.arachne_lang.specs.Program.{source_of};

use super::Form;
use super::facts::Fact;
use super::facts::Fact::{Applied, GrantsAreHolds, InPlace, IsOver, Value};
use super::rows::{FORMS, Machine, ROW, Row, judge, orders_of, program_of, run_row};
use crate::choosers::{CORE_ONE, SPREAD, ZEROS};
use crate::gates::{Watch, Watching};
use arachne_core::SLOTS;
use arachne_judge::Rule::{
    Alone, CoreZero, Due, InHand, Numbers, OwnCore, Parks, Places, Pulls, Quantum, Stays, Unparks,
    Upwards, Waits,
};
use arachne_judge::{Counts, Log, Rule, Run};
use arachne_lang::Program;
use arachne_policy::OrderKind::{Grant, Release};
use std::alloc::Global;
use std::sync::Wait;
use std::test::Fail;
use std::thread::Threads;
use std::time::Clock;

const ROOM: usize = 120_000;

#[derive(Clone, Copy)]
struct Judged {
    row: Row,
    slots: &'static [u8],
    turns: usize,
    exclusive: Option<u64>,
    steps: u64,
    /// The rules that must be checked at least once over all runs of the test case, besides `ALWAYS`.
    rules: &'static [Rule],
}

const ALWAYS: &[Rule] = &[InHand, Numbers, Quantum];

/// Runs a test case's program once, and returns how often each rule was checked in the run's log. Fails if the report
/// is wrong, a rule is broken, the log had no room for an entry, or there are too few steps.
fn run_is_lawful<R: Threads + Wait + Clock + Sync>(
    rt: &R,
    alloc: Global,
    judged: &Judged,
    program: &Program,
    machine: Machine,
) -> Result<Counts, Fail>
    requires { IsChecked (source_of program.now) }
{
    let (row, (_, cores, quantum)) = (&judged.row, machine);
    let mut watch = Watch::new(row.watching);
    watch.log = Some(Log::new(alloc, ROOM)?);
    watch.exclusive = judged.exclusive;
    let answer = run_row(rt, alloc, row, program, machine, &watch);
    judge(alloc, row, machine, &answer, &watch)?;
    let Some(log) = &watch.log else {
        return Err("no log".into());
    };
    let orders = orders_of(alloc, row, cores)?;
    let run = Run {
        cores: u8::try_from(cores).unwrap_or(0),
        slots: row.slots,
        quantum: u32::try_from(quantum).unwrap_or(0),
        orders: orders.as_slice(),
        has_locks: row.locks > 0,
        has_exclusive: row.expr.contains("fork x"),
    };
    let verdict = arachne_judge::judge(alloc, log, run)?;
    if verdict.broken.is_some() || verdict.steps < judged.steps || !log.is_whole() {
        let (shows, slots) = (row.shows, row.slots);
        let (broken, steps) = (verdict.broken, verdict.steps);
        return Err(Fail::new(format_args!(
            "{shows}: {machine:?} of {slots} places: {broken:?}, {steps} steps"
        )));
    }
    Ok(verdict.counts)
}

/// Returns the number of thread slots of each core, and the kind of context table, with which a run is repeated for the
/// time `turn`.
///
/// With enough repetitions, each machine has every combination.
fn kind_of(judged: &Judged, line: usize, nth: usize, turn: usize) -> (u8, Form) {
    let count = judged.slots.len().max(1);
    let at = line.wrapping_mul(2).wrapping_add(nth).wrapping_add(turn) % count;
    let slots = judged.slots.get(at).copied().unwrap_or(SLOTS);
    let at = line.wrapping_add(nth).wrapping_add(turn / count) % FORMS.len();
    (slots, FORMS[at])
}

fn are_lawful<R: Threads + Wait + Clock + Sync>(
    rt: &R,
    alloc: Global,
    rows: &[Judged],
) -> Result<(), Fail> {
    for judged in rows {
        let program = program_of(alloc, &judged.row)?;
        let mut counts = Counts::new();
        for turn in 0..judged.turns {
            for (line, &quantum) in judged.row.machines.1.iter().enumerate() {
                for (nth, &cores) in judged.row.machines.0.iter().enumerate() {
                    let (slots, form) = kind_of(judged, line, nth, turn);
                    let row = Row {
                        slots,
                        ..judged.row
                    };
                    let judged = Judged { row, ..*judged };
                    let machine = (form, cores, quantum);
                    counts.add_all(&run_is_lawful(rt, alloc, &judged, &program, machine)?);
                }
            }
        }
        let shows = judged.row.shows;
        for &rule in ALWAYS.iter().chain(judged.rules) {
            if counts.of(rule) == 0 {
                return Err(Fail::new(format_args!("{shows}: {rule:?} never comes up")));
            }
        }
    }
    Ok(())
}

const COUNTING: Row = Row {
    shows: "threads that count keep the rules",
    expr: "(sweep add 1 (num 0) (num 40) (fold (num 0) (num 30) (num 0) (var 1)))",
    machines: (&[1, 2, 4, 16, 64], &[1, 3, 100, 10_000]),
    draws: SPREAD,
    facts: &[(Value, 1160), (Fact::Threads, 40)],
    ..ROW
};

const COUNTS: Judged = Judged {
    row: COUNTING,
    slots: &[1, 4, 8, SLOTS],
    turns: 2,
    exclusive: None,
    steps: 1200,
    rules: &[OwnCore, Waits, Upwards],
};

const COUNT: &[Judged] = &[
    COUNTS,
    Judged {
        row: Row {
            in_turn: 60,
            ..COUNTING
        },
        turns: 1,
        rules: &[OwnCore, Waits, Due, CoreZero],
        ..COUNTS
    },
    // Core 1 is closed at first, and its kernel thread parks. Once opened, the core gets a thread, and is closed again.
    Judged {
        row: Row {
            shows: "a core that is closed parks, and one that is granted goes on",
            expr: "(let (fold (num 0) (num 40) (num 0) (var 1)) (fork n (num 2) (fold (num 0) (num 300) (num 0) (var 2)) (add (var 1) (var 2))))",
            machines: (&[2], &[1]),
            draws: CORE_ONE,
            orders: &[(0, Release, 1), (8, Grant, 1), (150, Release, 1)],
            watching: Watching::Parked(1, 6),
            facts: &[(Value, 2), (Applied, 3), (IsOver, 1)],
            ..ROW
        },
        slots: &[SLOTS],
        steps: 300,
        rules: &[Due, CoreZero, Parks, Unparks],
        ..COUNTS
    },
];

#[test]
fn threads_that_count_keep_the_rules(rt: HostRuntime) -> Result<(), Fail> {
    are_lawful(&rt, rt.alloc(), COUNT)
}

const HOLDING: Row = Row {
    shows: "threads that hold a lock keep the rules",
    ledgers: 1,
    locks: 1,
    expr: "(sweep add 1 (num 0) (num 24) (hold 0 (tally 0 (num 5) (fold (num 0) (num 9) (num 0) (var 1)))))",
    facts: &[(Value, 192), (Fact::Threads, 24), (GrantsAreHolds, 1)],
    ..COUNTING
};

const HOLDS: Judged = Judged {
    row: HOLDING,
    steps: 240,
    rules: &[OwnCore, Waits, Pulls],
    ..COUNTS
};

const HOLD: &[Judged] = &[
    HOLDS,
    Judged {
        row: Row {
            in_turn: 600,
            ..HOLDING
        },
        turns: 1,
        rules: &[OwnCore, Waits, Due, CoreZero],
        ..HOLDS
    },
    // Six threads of core 0 each hold a lock for longer than a holder may run at once, so the others come to wait for
    // the lock. Each next holder runs before other threads, while an order is due in each slice.
    Judged {
        row: Row {
            shows: "orders are applied before the slice of a thread that goes next",
            ledgers: 0,
            expr: "(sweep add 1 (num 0) (num 6) (hold 0 (fold (num 0) (num 800) (num 0) (var 1))))",
            machines: (&[2], &[10, 100]),
            draws: ZEROS,
            in_turn: 1000,
            facts: &[(Value, 4794), (Fact::Threads, 6), (GrantsAreHolds, 1)],
            ..HOLDING
        },
        steps: 4800,
        rules: &[Waits, Due, CoreZero],
        ..HOLDS
    },
];

#[test]
fn threads_that_hold_a_lock_keep_the_rules(rt: HostRuntime) -> Result<(), Fail> {
    are_lawful(&rt, rt.alloc(), HOLD)
}

const EXCLUSIVE: Row = Row {
    shows: "a thread that has its core alone, and the others, keep the rules",
    locks: 1,
    expr: "(fork n (fold (num 0) (num 40) (num 0) (var 1)) (fork x (fork n (fold (num 0) (num 40) (num 0) (var 1)) (fold (num 0) (num 60) (num 0) (var 1)) (add (var 0) (var 1))) (sweep add 1 (num 0) (num 20) (hold 0 (fold (num 0) (num 20) (num 0) (var 1)))) (add (var 0) (var 1))) (add (var 0) (var 1)))",
    facts: &[(Value, 380), (GrantsAreHolds, 1)],
    ..COUNTING
};

const EXCLUDES: Judged = Judged {
    row: EXCLUSIVE,
    exclusive: Some(1),
    steps: 500,
    rules: &[OwnCore, Waits, Alone, Stays],
    ..COUNTS
};

const HAVE_A_CORE: &[Judged] = &[
    EXCLUDES,
    Judged {
        row: Row {
            in_turn: 60,
            ..EXCLUSIVE
        },
        turns: 1,
        rules: &[OwnCore, Waits, Alone, Due, CoreZero],
        ..EXCLUDES
    },
];

#[test]
fn a_thread_alone_keeps_the_rules(rt: HostRuntime) -> Result<(), Fail> {
    are_lawful(&rt, rt.alloc(), HAVE_A_CORE)
}

const CHARGED: Judged = Judged {
    row: Row {
        shows: "each step is charged to a slice",
        expr: "(fold (num 0) (num 1000) (num 0) (var 1))",
        machines: (&[2], &[1, 2, 7, 100, 1003]),
        facts: &[(Value, 0)],
        ..ROW
    },
    slots: &[SLOTS],
    steps: 1004,
    rules: &[],
    ..COUNTS
};

/// The slices must include the 5,000 steps of a child that runs inside the root's slot.
const IN_PLACE: Row = Row {
    shows: "the steps of a thread in place are charged to the slices",
    expr: "(fork n (fold (num 0) (num 5000) (num 0) (var 1)) (num 2) (add (var 0) (var 1)))",
    machines: (&[1], &[1, 3, 7, 100, 10_000]),
    facts: &[(Value, 2), (InPlace, 1)],
    ..ROW
};

const PLACED: Judged = Judged {
    row: IN_PLACE,
    slots: &[1],
    steps: 5000,
    ..CHARGED
};

const CHARGE: &[Judged] = &[
    CHARGED,
    Judged {
        row: Row {
            shows: "the steps up to a tally are charged to the slice",
            ledgers: 1,
            expr: "(fold (num 0) (num 100) (num 0) (tally 0 (num 1) (var 1)))",
            facts: &[(Value, 0)],
            ..IN_PLACE
        },
        steps: 300,
        ..CHARGED
    },
    PLACED,
    // After 299 other children, the queue has no room for the child, which begins in its parent's slot at once.
    Judged {
        row: Row {
            expr: "(let (sweep add 1 (num 0) (num 300) (var 0)) (fork n (fold (num 0) (num 5000) (num 0) (var 2)) (num 2) (add (var 1) (var 2))))",
            facts: &[(InPlace, 300)],
            ..IN_PLACE
        },
        ..PLACED
    },
    // The root makes 777 steps, 95 of them before each of its forks but the first. Each child has a slice of its own.
    Judged {
        row: Row {
            shows: "the steps before a posted fork are charged",
            expr: "(fork n (num 1) (let (fold (num 0) (num 90) (num 0) (num 0)) (fork n (num 1) (let (fold (num 0) (num 90) (num 0) (num 0)) (fork n (num 1) (let (fold (num 0) (num 90) (num 0) (num 0)) (fork n (num 1) (let (fold (num 0) (num 90) (num 0) (num 0)) (fork n (num 1) (let (fold (num 0) (num 90) (num 0) (num 0)) (fork n (num 1) (let (fold (num 0) (num 90) (num 0) (num 0)) (fork n (num 1) (let (fold (num 0) (num 90) (num 0) (num 0)) (fork n (num 1) (let (fold (num 0) (num 90) (num 0) (num 0)) (num 1)) (num 1))) (num 1))) (num 1))) (num 1))) (num 1))) (num 1))) (num 1))) (num 1))",
            facts: &[(Value, 1), (InPlace, 0)],
            ..IN_PLACE
        },
        steps: 777,
        ..CHARGED
    },
    // The program has an exclusive fork, which is never made. So no slot is kept for later children.
    Judged {
        row: Row {
            shows: "no child waits while a place is free",
            expr: "(if (num 0) (fork x (num 1) (num 2) (num 3)) (sweep add 1 (num 0) (num 90) (fold (num 0) (num 12) (num 0) (var 1))))",
            draws: SPREAD,
            facts: &[(Value, 990), (Fact::Threads, 90)],
            ..IN_PLACE
        },
        slots: &[1, 3, 8, 40, 55],
        turns: 10,
        steps: 1080,
        rules: &[Upwards, Places, Waits],
        ..CHARGED
    },
];

#[test]
fn each_step_is_charged(rt: HostRuntime) -> Result<(), Fail> {
    are_lawful(&rt, rt.alloc(), CHARGE)
}
