//! The calls on a handle that split, join or end its executor, or let its worker park.
ghost use Rattle.std.specs.Prelude.{◌≡◌, ◌↔◌, MatchBool, IsTrue};
ghost use Rattle.std.specs.Option.{ForSome, IsSomeAnd};
ghost use Rattle.std.specs.declared.option.Option.TheVariants.{None, Some};
ghost use Rattle.arachne_exec_c.specs.Codes.{refused};
ghost use Rattle.arachne_exec_c.specs.Executing.{Exec, IsIdle, IsJoined, IsWorker, first_of, second_of};
ghost use Rattle.arachne_exec_c.specs.ExecEnd.{IsEndTold};
ghost use Rattle.arachne_exec_c.specs.ExecTold.{IsTold, ParksOrNot};

use crate::codes::{AGAIN, DONE, PARK, REFUSED};
use crate::exec_told::{ArachneExecLeft, end_alone};
use crate::executing::Executing;
use std::alloc::Global;

pub(crate) fn may_park_held(held: &mut Option<Executing>) -> u32
    ensures { IsTold IsWorker ParksOrNot refused held.old held.new result }
{
    match held {
        Some(exec) if exec.is_worker() => if exec.may_park() { PARK } else { AGAIN },
        _ => REFUSED,
    }
}

/// Splits the seat in `mine`, and puts the second one into `theirs`.
///
/// Returns false, and changes nothing, if `mine` is empty or if the executor's reference count can't grow.
pub(crate) fn cut_held(mine: &mut Option<Executing>, theirs: &mut Option<Executing>) -> bool
    requires { theirs.old ≡ None }
    ensures cut { ForSome mine.old (λ old. MatchBool result
        ((mine.new ≡ Some (first_of old)) × (theirs.new ≡ Some (second_of old)))
        ((mine.new ≡ mine.old) × (theirs.new ≡ None))) }
    ensures nothing { mine.old ≡ None → (mine.new ≡ None) × (theirs.new ≡ None) }
{
    let Some(exec) = mine else {
        return false;
    };
    let Ok(part) = exec.split() else {
        return false;
    };
    *theirs = Some(part);
    true
}

/// Ends the handle's executor, and writes the numbers of the jobs that haven't ended to the beginning of `room`.
pub(crate) fn end_held(
    alloc: Global,
    held: &mut Option<Executing>,
    room: &mut [u64],
) -> ArachneExecLeft
    ensures { IsEndTold held.old held.new room.old room.new result }
{
    let Some(exec) = held.take() else {
        return end_alone(REFUSED);
    };
    match exec.end(alloc, room.len()) {
        Ok(jobs) => {
            let count = jobs.len();
            room[..count].copy_from_slice(jobs.as_slice());
            ArachneExecLeft {
                count: count as u64,
                code: DONE,
            }
        }
        Err((exec, code)) => {
            *held = Some(exec);
            end_alone(code)
        }
    }
}

fn is_idle_held(held: &Option<Executing>) -> bool
    ensures { IsTrue result ↔ IsSomeAnd held.now IsIdle }
{
    match held {
        Some(exec) => exec.is_empty_handed() && !exec.is_worker(),
        None => false,
    }
}

/// Joins the seat in `theirs` into the one in `mine`, and returns DONE.
///
/// Returns REFUSED if either of them is empty, or if the seat in `theirs` holds a job or has a worker number.
#[tactic(auto, using(crate::proofs::ExecCut::not_joined))]
pub(crate) fn join_held(mine: &mut Option<Executing>, theirs: &mut Option<Executing>) -> u32
    requires { (a b : Exec) → mine.old ≡ Some a → theirs.old ≡ Some b → b.executor ≡ a.executor }
    ensures { IsJoined mine.old theirs.old mine.new theirs.new result }
{
    if !is_idle_held(theirs) {
        return REFUSED;
    }
    let Some(exec) = mine else {
        return REFUSED;
    };
    let Some(spent) = theirs.take() else {
        return REFUSED;
    };
    exec.join(spent);
    DONE
}
