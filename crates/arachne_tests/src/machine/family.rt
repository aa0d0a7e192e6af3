//! Runs all threads of a program: children run inside their parents' slots, or as threads of their own that are joined.
ghost use Rattle.std.specs.Prelude.{◌≡◌, Some, false, IsTrue};
ghost use Rattle.arachne_lang.specs.Program.{source_of};
ghost use Rattle.arachne_machine.specs.declared.pause.Pending.TheVariants as pause;
ghost use Rattle.arachne_machine.specs.Nested.{IsChildOf, pending_in, whole};

use super::shortage::Memory;
use arachne_lang::{Class, Program};
use arachne_machine::{
    NotJoined, NotPlaced, Outcome, OutcomeParts, Pause, Pending, Placing, Spares, Thread,
};
use std::alloc::Global;

const MOST: u64 = 100_000;

#[derive(Clone, Copy, Debug, PartialEq, Eq)]
pub(super) enum Way {
    /// Each child runs inside its parent's slot as soon as it is forked.
    AtFork,
    /// Each child runs inside the slot of the thread that awaits it, from the time of the join.
    AtJoin,
    /// Each child runs as a thread of its own, and is joined after it has ended.
    Alone,
    /// An exclusive child (one that wants a core for itself) runs as a thread of its own, and any other as for
    /// `AtFork`.
    AloneIfExclusive,
}

impl Placing for Way {
    ghost gives_all = { false };

    fn is_any(&mut self, class: Class) -> bool {
        *self != Way::AloneIfExclusive || class == Class::Exclusive
    }

    fn tag(&mut self) -> u64 {
        7
    }
}

/// One run of a program: how its children run, the number of steps of each call, and its memory.
#[derive(Drop)]
pub(super) struct Round {
    way: Way,
    budget: u32,
    pub(super) memory: Memory,
    pub(super) budgets: u64,
    pub(super) asked: u64,
    next: u64,
}

impl Round {
    /// `first` is the first tag of a child that begins inside its parent's slot.
    pub(super) fn new(way: Way, budget: u32, first: u64) -> Round {
        Round {
            way,
            budget,
            memory: Memory::ample(),
            budgets: 0,
            asked: 0,
            next: first,
        }
    }

    fn hear(&mut self, pause: &Pause, tag: u64) {
        match pause {
            Pause::Budget => self.budgets = self.budgets.wrapping_add(1),
            Pause::Asks(_) => self.asked = self.asked.wrapping_add(tag),
            _ => {}
        }
    }

    fn next_tag(&mut self) -> u64 {
        let next = self.next;
        self.next = next.wrapping_add(1);
        next
    }
}

/// The threads, children and outcomes (results) of a run, in lists that have room for all of them.
///
/// Each of `threads` but the last waits for a child, and the last runs. The threads in `children` were forked and have
/// not begun.
#[derive(Drop)]
struct Family<'p> {
    threads: Vec<Thread<'p>>,
    children: Vec<Thread<'p>>,
    outcomes: Vec<Outcome<'p>>,
}

fn make_family<'p>(alloc: Global) -> Option<Family<'p>> {
    Some(Family {
        threads: Vec::with_capacity(alloc, 20).ok()?,
        children: Vec::with_capacity(alloc, 20).ok()?,
        outcomes: Vec::with_capacity(alloc, 1).ok()?,
    })
}

/// Returns true if a thread waits to join a child, and is of the same program as the child.
fn awaits(thread: &Thread, program: &Program) -> bool
    ensures joins { IsTrue result → pending_in thread.now ≡ Some pause.Joins }
    ensures same { IsTrue result → source_of program.now ≡ source_of (whole thread.now).program }
{
    thread.pending() == Some(Pending::Joins) && *program == *thread.program()
}

/// Puts a child inside its parent's slot, with the next tag (number). If memory is refused, tries it once more. Returns
/// `None` if this fails.
fn place<'p>(thread: &mut Thread<'p>, child: Thread<'p>, round: &mut Round) -> Option<()>
    requires forks { pending_in thread.old ≡ Some pause.Forks }
    requires child { IsChildOf thread.old child }
{
    let mut child = child;
    child.set_tag(round.next_tag());
    round.memory.take_again()?;
    match thread.in_place(child) {
        Ok(()) => Some(()),
        Err(NotPlaced::Memory(child)) => {
            round.memory.spare_much();
            thread.in_place(child).ok()
        }
        Err(NotPlaced::Foreign(_)) => None,
    }
}

/// Runs a thread to its next pause, and puts the child inside its slot if it has forked one.
///
/// Returns `None` if `round.budget` is 0, if the test has not answered the last pause, or if the child can't be put
/// there.
fn go_on_in_place(thread: &mut Thread, round: &mut Round) -> Option<()> {
    if round.budget == 0 || thread.pending().is_some() {
        return None;
    }
    let Ok(pause) = thread.advance(round.budget) else {
        round.memory.spare();
        return Some(());
    };
    round.hear(&pause, thread.running_tag());
    match pause {
        Pause::Forks(_, child) => place(thread, child, round),
        _ => Some(()),
    }
}

/// Runs a thread to its next pause, and adds the child to `children` if it has forked one.
///
/// Returns `None` if `round.budget` is 0, if the test has not answered the last pause, or if there is no memory for the
/// child.
fn go_on_apart<'p>(
    alloc: Global,
    thread: &mut Thread<'p>,
    children: &mut Vec<Thread<'p>>,
    round: &mut Round,
) -> Option<()> {
    if round.budget == 0 || thread.pending().is_some() {
        return None;
    }
    let (mut left, mut spares, mut way) = (round.budget, Spares::new(alloc), round.way);
    let Ok(pause) = thread.advance_within(&mut left, &mut spares, &mut way) else {
        round.memory.spare();
        return Some(());
    };
    round.hear(&pause, thread.running_tag());
    match pause {
        Pause::Forks(_, child) => children.push(child).ok(),
        _ => Some(()),
    }
}

/// Answers a thread's request, such as for a lock. Returns `None` if it has no request, or one that concerns another
/// thread.
fn answer(thread: &mut Thread) -> Option<()> {
    match thread.pending() {
        Some(Pending::Asks(_)) => thread.granted(),
        Some(Pending::Frees(_)) => thread.freed(),
        Some(Pending::Tallies(_, _)) => thread.tallied(),
        Some(Pending::Forks) => thread.forked(),
        _ => return None,
    }
    Some(())
}

// If a call fails, a function of its own drops the value, instead of each exit.

fn lose_thread(_thread: Thread) -> Option<()> {
    None
}

fn lose_outcome(_outcome: Outcome) -> Option<()> {
    None
}

/// Puts the newest child inside the slot of the thread that awaits it, where the child then runs. Returns `None` if the
/// thread awaits no child, or there is no child that may run there.
///
/// If memory is refused, puts the child back among `children`.
fn begin<'p>(
    thread: &mut Thread<'p>,
    children: &mut Vec<Thread<'p>>,
    round: &mut Round,
) -> Option<()> {
    let child = children.pop()?;
    if child.pending().is_some() || !awaits(thread, child.program()) {
        return lose_thread(child);
    }
    match thread.in_place(child) {
        Ok(()) => Some(()),
        Err(NotPlaced::Memory(child)) => {
            round.memory.spare();
            children.push(child).ok()
        }
        Err(NotPlaced::Foreign(child)) => lose_thread(child),
    }
}

/// Gives a child's outcome (result) to the thread that awaits it. Returns `None` if the thread awaits no outcome, or
/// the outcome is of another program.
///
/// If memory is refused, puts the outcome back among `outcomes`.
fn join<'p>(
    thread: &mut Thread<'p>,
    outcome: Outcome<'p>,
    outcomes: &mut Vec<Outcome<'p>>,
    round: &mut Round,
) -> Option<()> {
    if !awaits(thread, outcome.program()) {
        return lose_outcome(outcome);
    }
    match thread.joined(outcome) {
        Ok(()) => Some(()),
        Err(NotJoined::Memory(outcome)) => {
            round.memory.spare();
            outcomes.push(outcome).ok()
        }
        Err(NotJoined::Foreign(outcome)) => lose_outcome(outcome),
    }
}

/// Returns `None` if there is no child or memory is refused.
fn begin_apart(family: &mut Family) -> Option<()> {
    let child = family.children.pop()?;
    family.threads.push(child).ok()
}

/// Gives the last thread its child's outcome, or begins the child if it has not run. Returns `None` if there is no
/// child, or it can't begin.
fn await_child(family: &mut Family, round: &mut Round) -> Option<()> {
    let Family {
        threads,
        children,
        outcomes,
    } = family;
    let thread = threads.last_mut()?;
    if let Some(outcome) = outcomes.pop() {
        return join(thread, outcome, outcomes, round);
    }
    match round.way {
        Way::AtFork | Way::AtJoin => begin(thread, children, round),
        Way::Alone | Way::AloneIfExclusive => begin_apart(family),
    }
}

/// Returns `None` if the last thread has not ended, or memory is refused.
fn end(family: &mut Family) -> Option<()> {
    let thread = family.threads.pop()?;
    let Some(Pending::Ended) = thread.pending() else {
        return lose_thread(thread);
    };
    family.outcomes.push(thread.finish()).ok()
}

/// Makes one call on the last thread of `family`. Returns `None` if the call fails, so that the run can't continue.
fn step(alloc: Global, family: &mut Family, round: &mut Round) -> Option<()> {
    let Family {
        threads,
        children,
        ..
    } = family;
    let thread = threads.last_mut()?;
    match thread.pending() {
        None if round.way == Way::AtFork => go_on_in_place(thread, round),
        None => go_on_apart(alloc, thread, children, round),
        Some(Pending::Joins) => await_child(family, round),
        Some(Pending::Ended) => end(family),
        _ => answer(thread),
    }
}

/// While memory is refused, tries again with a little more memory each time.
fn start<'p>(alloc: Global, program: &'p Program, round: &mut Round) -> Option<Thread<'p>> {
    for _ in 0..MOST {
        match Thread::start(alloc, program, 9) {
            Ok(thread) => return Some(thread),
            Err(_) => round.memory.spare(),
        }
    }
    None
}

/// While memory is refused, tries again with a little more memory each time.
fn parts(outcome: Outcome, round: &mut Round) -> Option<OutcomeParts> {
    let mut outcome = outcome;
    for _ in 0..MOST {
        match outcome.into_parts() {
            Ok(parts) => return Some(parts),
            Err(back) => outcome = back,
        }
        round.memory.spare();
    }
    None
}

fn run(alloc: Global, family: &mut Family, round: &mut Round) -> Option<OutcomeParts> {
    for _ in 0..MOST {
        round.memory.begin_call()?;
        if family.threads.is_empty() {
            return parts(family.outcomes.pop()?, round);
        }
        step(alloc, family, round)?;
    }
    None
}

/// Runs a program, and returns the parts of the root's outcome.
///
/// If `is_short` is true, no memory is free when each call begins.
pub(super) fn parts_of(
    alloc: Global,
    program: &Program,
    round: &mut Round,
    is_short: bool,
) -> Option<OutcomeParts> {
    let mut family = make_family(alloc)?;
    if is_short {
        round.memory.use_up(alloc)?;
    }
    let root = start(alloc, program, round)?;
    family.threads.push(root).ok()?;
    let parts = run(alloc, &mut family, round);
    round.memory.give_all_back();
    parts
}
