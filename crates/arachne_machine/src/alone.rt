//! Runs a whole program on the calling kernel thread, and creates no other.
ghost use Rattle.std.specs.Prelude.{[], ◌≡◌, ◌+◌, ◌∷◌, ◌≤◌, ◌<◌, List, map, reverse, sum_by, None, Some, IfOk, OnOk};
ghost use Rattle.arachne_program.specs.Program.{source_of};
ghost use Rattle.arachne_program.specs.Meaning.{meaning_of};
ghost use Rattle.arachne_machine.specs.Outcome.{meaning_in, named_holds, IsOfItsName};
ghost use Rattle.arachne_machine.specs.Nested.{Nested, pending_in};
ghost use Rattle.arachne_machine.specs.Alone.{OnEnd, Rests, RestsAfter, key, turns_after, turns_left};
ghost use Rattle.arachne_machine.specs.declared.pause.Pending.TheVariants as pause;

use crate::detached::DetachedOutcome;
use crate::line::ThreadLine;
use crate::pause::{NotJoined, Pause};
use crate::placing::Everywhere;
use crate::spares::Spares;
use crate::thread::Thread;
use arachne_program::{Line, Meaning, Program, Sequence};
use std::alloc::{AllocError, Global};

/// Runs a program on the calling kernel thread, and returns its value, ledger sums and report lines.
///
/// Always runs the newest thread, for at most `budget` steps at a time. A budget of 0 counts as 1. Each lock is granted
/// at once, since no other thread can hold it. A checked program doesn't fork while it holds a lock.
pub fn run_alone(alloc: Global, program: &Program, budget: u32) -> Result<Meaning, AllocError>
    ensures { IfOk result (λ meaning. meaning ≡ meaning_of (source_of program.now)) }
{
    let root = Thread::start(alloc, program, 0)?;
    let outcome = run_all(alloc, root, budget.max(1))?;
    meaning(alloc, outcome)
}

fn run_all<'p>(alloc: Global, root: Thread<'p>, budget: u32) -> Result<DetachedOutcome, AllocError>
    requires some { 1 ≤ budget }
    requires rests { Rests root.running.program (root ∷ []) [] }
    ensures { IfOk result (λ outcome. key outcome ≡ (root.entry.running.program, [])) }
{
    let mut threads = Vec::new(alloc);
    threads.push(root)?;
    let mut outcomes: Vec<DetachedOutcome> = Vec::new(alloc);
    let mut spares = Spares::new(alloc);
    while let Some(thread) = threads.pop() {
        take_turn(&mut threads, &mut outcomes, &mut spares, thread, budget)?;
    }
    Ok(outcomes.pop().unwrap())
}

#[derive(Drop)]
enum Turn<'p> {
    Goes,
    /// The thread has forked this child, which must run next.
    Forks(Thread<'p>),
    Ends,
}

/// Runs `thread`, the newest, for at most `budget` steps.
///
/// `outcomes` is a stack of outcomes that were not joined yet: at the top those of the newest thread's children, below
/// them those of the next older thread's children, and so on.
fn take_turn<'p>(
    threads: &mut Vec<Thread<'p>>,
    outcomes: &mut Vec<DetachedOutcome>,
    spares: &mut Spares<'p>,
    mut thread: Thread<'p>,
    budget: u32,
) -> Result<(), AllocError>
    requires some { 1 ≤ budget }
    requires rests { Rests thread.running.program (thread ∷ reverse threads.old.items) (map key (reverse outcomes.old.items)) }
    ensures rests { OnOk result (Rests thread.entry.running.program (reverse threads.new.items) (map key (reverse outcomes.new.items))) }
    ensures falls { OnOk result (sum_by turns_left threads.new.items < sum_by turns_left threads.old.items + turns_left thread.entry) }
{
    threads.try_reserve(2)?;
    match go_on(&mut thread, outcomes, spares, budget)? {
        Turn::Goes => {
            threads.push_reserved(thread);
            Ok(())
        }
        Turn::Forks(child) => {
            threads.push_reserved(thread);
            threads.push_reserved(child);
            Ok(())
        }
        Turn::Ends => {
            let contents = spares.take_contents()?;
            outcomes.push(thread.finish_into(contents, spares))?;
            Ok(())
        }
    }
}

fn go_on<'p>(
    thread: &mut Thread<'p>,
    outcomes: &mut Vec<DetachedOutcome>,
    spares: &mut Spares<'p>,
    budget: u32,
) -> Result<Turn<'p>, AllocError>
    requires some { 1 ≤ budget }
    requires rests { (others : List Nested) × Rests thread.old.running.program (thread.old ∷ others) (map key (reverse outcomes.old.items)) }
    ensures rests { IfOk result (λ turn. (others : List Nested) → Rests thread.old.running.program (thread.old ∷ others) (map key (reverse outcomes.old.items))
        → RestsAfter thread.old.running.program turn thread.new others (map key (reverse outcomes.new.items))) }
    ensures falls { IfOk result (λ turn. turns_after turn thread.new < turns_left thread.old) }
    ensures ended { IfOk result (λ turn. OnEnd turn (pending_in thread.new ≡ Some pause.Ended)) }
{
    let mut left = budget;
    match thread.advance_within(&mut left, spares, &mut Everywhere)? {
        Pause::Budget => Ok(Turn::Goes),
        Pause::Forks(_, child) => {
            thread.forked();
            Ok(Turn::Forks(child))
        }
        Pause::Joins => {
            let outcome = outcomes.pop().unwrap();
            match thread.joined_into(outcome, spares) {
                Ok(()) => Ok(Turn::Goes),
                Err(NotJoined::Memory(_)) => return Err(AllocError),
                Err(NotJoined::Foreign(_)) => unreachable!(),
            }
        }
        Pause::Asks(_) => {
            thread.granted();
            Ok(Turn::Goes)
        }
        Pause::Frees(_) => {
            thread.freed();
            Ok(Turn::Goes)
        }
        Pause::Tallies(_, _) => {
            thread.tallied();
            Ok(Turn::Goes)
        }
        Pause::Ended => Ok(Turn::Ends),
    }
}

fn meaning(alloc: Global, outcome: DetachedOutcome) -> Result<Meaning, AllocError>
    ensures means { IfOk result (λ meaning. meaning ≡ meaning_in outcome) }
    ensures of_its_name { IsOfItsName outcome }
{
    let Ok(parts) = outcome.into_parts() else {
        return Err(AllocError);
    };
    let Ok(lines) = parts.lines.into_vec(alloc) else {
        return Err(AllocError);
    };
    let threads: Vec<Line> = lines.into_iter().map(line_of_thread).collect(alloc)?;
    Ok(Meaning {
        value: parts.value,
        totals: parts.sums,
        threads: Sequence::from(threads),
    })
}

fn line_of_thread(line: ThreadLine) -> Line
    ensures { result ≡ named_holds line }
{
    Line {
        name: line.name,
        holds: line.holds,
    }
}
