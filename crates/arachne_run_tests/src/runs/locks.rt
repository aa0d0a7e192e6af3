//! Tests of which threads of a run hold a lock, and in which order they do.
use super::facts::Fact::{Events, Grants, GrantsAreHolds, Value};
use super::facts::Telling;
use super::rows::{QUANTA, ROW, Row, rows_hold};
use crate::choosers::SPREAD;
use arachne_run::Report;
use arachne_sleep::LockEvent;
use std::alloc::Global;
use std::test::Fail;

pub(super) fn grants(report: &Report, tag: Option<u64>) -> u64 {
    let mut count = 0u64;
    let Some(history) = report.histories.first() else {
        return count;
    };
    for event in history.iter() {
        if let LockEvent::Grant(who) = event {
            let counts = tag.is_none() || tag == Some(who.tag);
            count = count.wrapping_add(u64::from(counts));
        }
    }
    count
}

/// Returns true if the first lock was granted once to each thread that held it once, and to no other thread.
pub(super) fn grants_are_holds(report: &Report) -> bool {
    let mut counted = 0u64;
    for line in report.threads.iter() {
        let grants = grants(report, Some(line.tag()));
        if grants != u64::from(line.holds().first() == Some(&1)) {
            return false;
        }
        counted = counted.wrapping_add(grants);
    }
    counted == grants(report, None)
}

pub(super) fn events_of(alloc: Global, report: &Report) -> Result<String, Fail> {
    let mut text = String::new(alloc);
    for history in report.histories.iter() {
        for event in history.iter() {
            let (word, who) = match event {
                LockEvent::Ask(who) => ("ask", who),
                LockEvent::Grant(who) => ("grant", who),
                LockEvent::Free(who) => ("free", who),
            };
            let (tag, context, generation) = (who.tag, who.id.context, who.id.generation);
            text.push_str(format!(in alloc; "{word} {tag} {context} {generation}\n")?.as_str())?;
        }
        text.push_str("\n")?;
    }
    Ok(text)
}

/// A thread that asks for the lock while the root holds it must get it next.
const NEXT: Row = Row {
    shows: "a thread that waits is next",
    locks: 1,
    expr: "(fork n (let (fold (num 0) (num 100) (num 0) (var 1)) (hold 0 (num 1))) (hold 0 (fold (num 0) (num 10000) (num 0) (var 1))) (num 2))",
    machines: (&[1, 2, 4, 16], &[1, 7, 100]),
    facts: &[(Value, 2)],
    told: (
        Telling::Events,
        "ask 0 0 0\ngrant 0 0 0\nask 1 1 0\nfree 0 0 0\ngrant 1 1 0\nfree 1 1 0\n\n",
    ),
    ..ROW
};

const ROWS: &[Row] = &[
    Row {
        shows: "each hold is asked for and granted and freed",
        ledgers: 1,
        locks: 1,
        expr: "(sweep add 1 (num 0) (num 8) (hold 0 (tally 0 (num 5) (num 1))))",
        draws: SPREAD,
        facts: &[(Value, 8), (Events, 24), (Grants, 8), (GrantsAreHolds, 1)],
        ..ROW
    },
    // The innermost of 61 threads runs inside its parent's slot, and holds the lock under its own tag (number).
    Row {
        shows: "a thread in place holds by its own tag",
        locks: 1,
        forks: 60,
        expr: "(hold 0 (num 1))",
        machines: (&[1], &[1, 100]),
        facts: &[(Value, 61), (Events, 3), (Grants, 1), (GrantsAreHolds, 1)],
        ..ROW
    },
    NEXT,
    Row {
        expr: "(fork n (let (fold (num 0) (num 100) (num 0) (var 1)) (hold 0 (num 1))) (hold 0 (fold (num 0) (num 30000) (num 0) (var 1))) (num 2))",
        machines: (&[1, 2], &[10_000]),
        ..NEXT
    },
    // Each of two threads holds both locks once. The child begins with lock 0, the root with lock 1.
    Row {
        shows: "each lock has its own history",
        locks: 2,
        expr: "(let (hold 1 (num 1)) (fork n (let (hold 0 (num 1)) (hold 1 (num 1))) (num 2) (hold 0 (num 3))))",
        machines: (&[1, 2], QUANTA),
        facts: &[(Value, 3)],
        told: (
            Telling::Events,
            "ask 1 1 0\ngrant 1 1 0\nfree 1 1 0\nask 0 0 0\ngrant 0 0 0\nfree 0 0 0\n\nask 0 0 0\ngrant 0 0 0\nfree 0 0 0\nask 1 1 0\ngrant 1 1 0\nfree 1 1 0\n\n",
        ),
        ..ROW
    },
];

#[test]
fn locks_are_granted_in_turn(rt: HostRuntime) -> Result<(), Fail> {
    rows_hold(&rt, rt.alloc(), ROWS)
}
