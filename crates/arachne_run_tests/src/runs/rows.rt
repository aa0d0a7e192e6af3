//! Test cases: a program, the machines on which it runs, and the result that each run must have.
ghost use Rattle.std.specs.Prelude.{IfOk};
ghost use Rattle.arachne_lang.specs.Checked.{IsChecked};
ghost use Rattle.arachne_lang.specs.Program.{source_of};

use super::facts::{Fact, Telling, number, told};
use super::{Form, run_on_lock, run_on_words};
use crate::choosers::{Draws, Progression, ZEROS};
use crate::gates::{Watch, Watching};
use arachne_core::SLOTS;
use arachne_lang::{Program, check, parse};
use arachne_policy::{CoreOrder, OrderKind};
use arachne_run::{Report, RunFault, Setup};
use std::alloc::{AllocError, Global};
use std::sync::Wait;
use std::test::Fail;
use std::thread::Threads;
use std::time::Clock;

pub(super) const FORMS: &[Form] = &[Form::Locked, Form::Words];

pub(super) const LOCKED: &[Form] = &[Form::Locked];

pub(super) type Machine = (Form, u64, u64);

#[derive(Clone, Copy)]
pub(super) struct Row {
    pub(super) shows: &'static str,
    pub(super) ledgers: u8,
    pub(super) locks: u8,
    pub(super) forks: usize,
    pub(super) expr: &'static str,
    pub(super) forms: &'static [Form],
    /// The numbers of cores, and the quanta (steps per slice).
    pub(super) machines: (&'static [u64], &'static [u64]),
    pub(super) slots: u8,
    pub(super) draws: Draws,
    /// Orders to open or close cores: the number of slices after which each is due, its kind and its core.
    pub(super) orders: &'static [(u64, OrderKind, u64)],
    /// The number of further orders, all due at once, which close core 1, core 2 and so on.
    pub(super) released: u64,
    pub(super) in_turn: u64,
    pub(super) watching: Watching,
    pub(super) facts: &'static [(Fact, u64)],
    pub(super) told: (Telling, &'static str),
}

pub(super) const ROW: Row = Row {
    shows: "every machine tells the same",
    ledgers: 0,
    locks: 0,
    forks: 0,
    expr: "(num 7)",
    forms: FORMS,
    machines: (&[1, 2, 3, 4, 16], &[1, 100]),
    slots: SLOTS,
    draws: ZEROS,
    orders: &[],
    released: 0,
    in_turn: 0,
    watching: Watching::Nothing,
    facts: &[],
    told: (Telling::Nothing, ""),
};

pub(super) const QUANTA: &[u64] = &[1, 7, 100, 10_000];

pub(super) fn program_of(alloc: Global, row: &Row) -> Result<Program, Fail>
    ensures { IfOk result (λ program. IsChecked (source_of program)) }
{
    let (ledgers, locks, expr) = (row.ledgers, row.locks, row.expr);
    let fronts = "(fork n ".repeat(alloc, row.forks)?;
    let ends = " (num 1) (add (var 0) (var 1)))".repeat(alloc, row.forks)?;
    let text = format!(in alloc;
        "arachne 1\nledgers {ledgers}\nlocks {locks}\n{fronts}{expr}{ends}\n"
    )?;
    let program = parse(alloc, text.as_bytes())?;
    check(&program)?;
    Ok(program)
}

pub(super) fn orders_of(
    alloc: Global,
    row: &Row,
    cores: u64,
) -> Result<Vec<CoreOrder>, AllocError> {
    let mut orders = Vec::new(alloc);
    for &(after, kind, core) in row.orders {
        orders.push(CoreOrder { after, kind, core })?;
    }
    for before in 0..row.released {
        let (after, kind, core) = (0, OrderKind::Release, before + 1);
        orders.push(CoreOrder { after, kind, core })?;
    }
    if cores < 2 {
        return Ok(orders);
    }
    for after in 0..row.in_turn {
        let kind = if after % 2 == 0 {
            OrderKind::Release
        } else {
            OrderKind::Grant
        };
        let core = 1 + after / 2 % (cores - 1);
        orders.push(CoreOrder { after, kind, core })?;
    }
    Ok(orders)
}

fn setup_of(
    alloc: Global,
    row: &Row,
    machine: Machine,
) -> Result<(Setup, Vec<Progression>), AllocError> {
    let (_, cores, quantum) = machine;
    let mut choosers = Vec::new(alloc);
    for nth in 0..cores {
        choosers.push(row.draws.of(nth))?;
    }
    let setup = Setup {
        cores,
        slots: u64::from(row.slots),
        quantum,
        orders: orders_of(alloc, row, cores)?,
    };
    Ok((setup, choosers))
}

pub(super) fn run_row<R: Threads + Wait + Clock + Sync>(
    rt: &R,
    alloc: Global,
    row: &Row,
    program: &Program,
    machine: Machine,
    watch: &Watch,
) -> Result<Report, RunFault>
    requires { IsChecked (source_of program.now) }
{
    let (setup, choosers) = setup_of(alloc, row, machine)?;
    match machine.0 {
        Form::Locked => run_on_lock(rt, alloc, program, setup, choosers, watch),
        Form::Words => run_on_words(rt, alloc, program, setup, choosers, watch),
    }
}

/// Returns the index of the first wrong fact of a test case, and the value that the run has instead.
fn wrong_fact(row: &Row, report: &Report, watch: &Watch) -> Option<(usize, u64)> {
    for (nth, &(fact, expected)) in row.facts.iter().enumerate() {
        let found = number(report, watch, fact);
        if found != expected {
            return Some((nth, found));
        }
    }
    None
}

/// After a fault, each event for which a core waited must have occurred, and no more slices may begin.
pub(super) fn judge(
    alloc: Global,
    row: &Row,
    machine: Machine,
    answer: &Result<Report, RunFault>,
    watch: &Watch,
) -> Result<(), Fail> {
    let wrong = match answer {
        Ok(report) => wrong_fact(row, report, watch),
        Err(_) if watch.is_over() && watch.is_still() => None,
        Err(_) => Some((0, 0)),
    };
    let (shows, (telling, expected)) = (row.shows, row.told);
    let told = told(alloc, answer, telling)?;
    let told = told.as_str();
    if told == expected && wrong.is_none() {
        return Ok(());
    }
    Err(Fail::new(format_args!("{shows}: {machine:?}: {wrong:?} {told}")))
}

pub(super) fn rows_hold<R: Threads + Wait + Clock + Sync>(
    rt: &R,
    alloc: Global,
    rows: &[Row],
) -> Result<(), Fail> {
    for row in rows {
        let program = program_of(alloc, row)?;
        for &form in row.forms {
            for &cores in row.machines.0 {
                for &quantum in row.machines.1 {
                    let (machine, watch) = ((form, cores, quantum), Watch::new(row.watching));
                    let answer = run_row(rt, alloc, row, &program, machine, &watch);
                    judge(alloc, row, machine, &answer, &watch)?;
                }
            }
        }
    }
    Ok(())
}
