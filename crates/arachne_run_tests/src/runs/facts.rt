//! The numbers that a test case expects in a run's report, or from the observer (`Gate`) of the run.
use super::locks::{events_of, grants, grants_are_holds};
use crate::gates::Watch;
use arachne_machine::Ran;
use arachne_run::{Report, RunFault};
use std::alloc::Global;
use std::sync::atomic::Ordering;
use std::test::Fail;

/// A number that a test case can expect of a run. A condition counts as 1 if it holds, and as 0 otherwise.
#[derive(Clone, Copy)]
pub(super) enum Fact {
    Value,
    Threads,
    /// The number of threads that got a slot at once when they were forked.
    Slot,
    LastTwoInSlots,
    /// The number of threads that waited in the queue for a slot, and then got one.
    Spill,
    /// The number of threads that ran inside the slots of their parents.
    InPlace,
    InPlaceUpTo(u64),
    /// The number of orders to open or close a core that the run has carried out.
    Applied,
    /// The cores that have entered a slice or, for `Watching::Moving`, to which threads were moved: one bit each.
    Cores,
    Counts(u64),
    CountsUpTo(u64),
    OversleepsUpTo(u64),
    IsOver,
    /// The number of events (requests, grants and releases) in the first lock's history.
    Events,
    /// The number of grants in the first lock's history (its list of events).
    Grants,
    GrantsAreHolds,
}

pub(super) fn number(report: &Report, watch: &Watch, fact: Fact) -> u64 {
    match fact {
        Fact::Value => report.value,
        Fact::Threads => report.threads.len() as u64,
        Fact::Slot => count_of(report, Ran::Slot),
        Fact::LastTwoInSlots => u64::from(are_last_two_in_slots(report)),
        Fact::Spill => count_of(report, Ran::Spill),
        Fact::InPlace => count_of(report, Ran::InPlace),
        Fact::InPlaceUpTo(most) => u64::from(count_of(report, Ran::InPlace) <= most),
        Fact::Applied => report.applied as u64,
        Fact::Cores => watch.entered.load(Ordering::SeqCst),
        Fact::Counts(least) => u64::from(watch.slices.load(Ordering::SeqCst) >= least),
        Fact::CountsUpTo(most) => u64::from(watch.slices.load(Ordering::SeqCst) <= most),
        Fact::OversleepsUpTo(most) => { u64::from(watch.oversleeps.load(Ordering::SeqCst) <= most) }
        Fact::IsOver => u64::from(watch.is_over()),
        Fact::Events => match report.histories.first() {
            Some(history) => history.len() as u64,
            None => 0,
        },
        Fact::Grants => grants(report, None),
        Fact::GrantsAreHolds => u64::from(grants_are_holds(report)),
    }
}

fn are_last_two_in_slots(report: &Report) -> bool {
    let mut in_slots = 0u64;
    for line in report.threads.iter() {
        in_slots = if line.ran() == Ran::Slot {
            in_slots.wrapping_add(1)
        } else {
            0
        };
    }
    in_slots >= 2
}

fn count_of(report: &Report, ran: Ran) -> u64 {
    let mut count = 0u64;
    for line in report.threads.iter() {
        count = count.wrapping_add(u64::from(line.ran() == ran));
    }
    count
}

/// The part of a report that a test compares as text.
#[derive(Clone, Copy)]
pub(super) enum Telling {
    Nothing,
    Events,
    /// For each thread: in a slot at once, in a slot after it had waited, or inside its parent's slot.
    Ran,
}

pub(super) fn told(
    alloc: Global,
    answer: &Result<Report, RunFault>,
    telling: Telling,
) -> Result<String, Fail> {
    match (answer, telling) {
        (Err(fault), _) => Ok(format!(in alloc; "{fault:?}")?),
        (Ok(_), Telling::Nothing) => Ok(String::new(alloc)),
        (Ok(report), Telling::Events) => events_of(alloc, report),
        (Ok(report), Telling::Ran) => ran_of(alloc, report),
    }
}

fn ran_of(alloc: Global, report: &Report) -> Result<String, Fail> {
    let mut text = String::new(alloc);
    for line in report.threads.iter() {
        text.push_str(match line.ran() {
            Ran::Slot => "slot ",
            Ran::Spill => "spill ",
            Ran::InPlace => "in place ",
        })?;
    }
    Ok(text)
}
