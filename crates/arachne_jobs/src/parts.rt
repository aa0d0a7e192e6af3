//! The thread of a job and what belongs to it: its ends of join cells, and boxes that later jobs reuse.
ghost use Rattle.std.specs.Prelude.{◌≡◌, ◌≤◌, true, false, IfOk, OnOk, None, Some};
ghost use Rattle.arachne_machine.specs.Nested.{IsPlacing, MayBePlaced, begun_in};
ghost use Rattle.arachne_machine.specs.Suspended.{awaited};
ghost use Rattle.arachne_machine.specs.declared.pause.Pending.TheVariants as pause;
ghost use Rattle.arachne_jobs.specs.Threads.{IsForking, IsGoing, IsAwaiting, name_of, pause_of, program_of, tag_of};
ghost use Rattle.arachne_jobs.specs.Cells.{IsFoundOf, IsOf};
ghost use Rattle.arachne_jobs.specs.Dues.{GoesOnOver, IsJoined, due_to};
ghost use Rattle.arachne_jobs.specs.Slices.{IsLeft, UsesSteps};

use crate::ends::{End, WaitEnd};
use crate::fault::JobFault;
use crate::left::Found;
use crate::openings::{ForkPlacing, Openings};
use crate::room::Room;
use crate::slice::Slice;
use crate::spares::JobSpares;
use crate::ties::Ties;
use crate::wanted::OutcomeReceiver;
use arachne_machine::{Contents, Pause, Thread};
use std::alloc::{AllocError, Global};
use std::marker::Model;

/// A job's thread, with its ends of the join cells by which outcomes (results) get to parents.
///
/// The first end is for the job's own outcome. The other ends are for children that the job has forked and not yet
/// joined, the newest child's last.
#[derive(Drop)]
pub struct Parts<'p> {
    pub(crate) thread: Thread<'p>,
    /// In a box, which later jobs reuse, since `Parts` is moved at a job's begin and end: with five words in place of one
    /// a thread of a chain takes 36 instructions more of some 2,960.
    pub(crate) ties: Box<Ties>,
    /// The box for the thread's outcome, allocated in advance, so that the end of the thread needs no memory.
    pub(crate) contents: Box<Contents>,
    /// The join cells of threads that were queued for a slot (children, or this job), one for each `End::Waits` in
    /// `ties`, in the same order.
    pub(crate) waits: Vec<WaitEnd<'p>>,
}

impl<'p> Model for Parts<'p> {
    ghost use Rattle.std.specs.Prelude.{All};
    ghost use Rattle.arachne_jobs.specs.Threads.{Posted, name_of, program_of};
    ghost use Rattle.arachne_jobs.specs.Ends.{IsEnd, IsWaitEnd};

    ghost Value = { Posted };

    ghost use Rattle.std.specs.Coded.{codes};
    ghost use Rattle.arachne_program.specs.contracts.program.Expr as expr;

    ghost coded = { Prim.hlevel (codes, expr.the_row.coded) };

    ghost view = { λ p. record { thread = p.thread; parent = p.ties.value.parent } };

    ghost invariant = { λ p. All (IsEnd (program_of p.thread) (name_of p.thread)) p.ties.value.ends.items
        × All (IsWaitEnd (program_of p.thread) (name_of p.thread)) p.waits.items };
}

/// The greatest number of empty boxes that a worker keeps.
const MOST: usize = 64;

/// The empty boxes of ended jobs, which new jobs reuse.
#[derive(Drop)]
pub struct SpareBoxes<'p> {
    pub(crate) boxes: Vec<Box<Option<Parts<'p>>>>,
}

impl<'p> Model for SpareBoxes<'p> {
    ghost use Rattle.std.specs.Prelude.{◌≤◌, vec_len};

    ghost Value = { Unit {0} };

    ghost view = { λ s. tt };

    ghost invariant = { λ s. vec_len s.boxes ≤ 64 };
}

impl<'p> SpareBoxes<'p> {
    #[inline(always)]
    pub(crate) fn take(&mut self, alloc: Global) -> Result<Box<Option<Parts<'p>>>, AllocError> {
        match self.boxes.pop() {
            Some(unused) => Ok(unused),
            None => Ok(Box::new(alloc, None)?),
        }
    }

    #[inline(always)]
    pub(crate) fn keep(&mut self, unused: Box<Option<Parts<'p>>>) {
        if self.boxes.len() < MOST {
            let _ = self.boxes.push(unused);
        }
    }
}

impl<'p> Parts<'p> {
    /// Runs the job for at most `left` steps. Tries to join a child at once if the job begins to wait for it. `due` is
    /// copied out of `openings` and back, since `placing` borrows all of `openings`.
    pub(crate) fn advance(
        &mut self,
        left: &mut u32,
        spares: &mut JobSpares<'p>,
        room: &Room,
        openings: &mut Openings,
    ) -> Result<Slice<Thread<'p>>, JobFault>
        requires some { 1 ≤ left.old }
        requires going { IsGoing self.old.thread }
        ensures tag { tag_of self.new.thread ≡ tag_of self.old.thread }
        ensures parent { self.new.parent ≡ self.old.parent }
        ensures left { IfOk result (λ slice. IsLeft (λ j child. IsForking j.thread child) (λ j. pause_of j.thread) slice self.new) }
        ensures steps { IfOk result (λ slice. UsesSteps slice left.old left.new) }
        ensures tallied { OnOk result (GoesOnOver left.old left.new self.old.thread self.new.thread (due_to openings.old.due) (due_to openings.new.due)) }
    {
        let mut due = openings.due;
        let mut placing = ForkPlacing {
            room,
            openings: &mut *openings,
        };
        let paused = self
            .thread
            .advance_tallying(left, &mut spares.threads, &mut placing, &mut due);
        openings.due = due;
        match paused? {
            Pause::Budget => Ok(Slice::Goes),
            Pause::Forks(class, child) => Ok(Slice::Forks(class, child)),
            Pause::Joins => {
                if self.join(spares)? {
                    Ok(Slice::Goes)
                } else {
                    Ok(Slice::Blocks)
                }
            }
            Pause::Asks(lock) => Ok(Slice::Asks(lock)),
            Pause::Frees(lock) => Ok(Slice::Frees(lock)),
            Pause::Tallies(ledger, amount) => Ok(Slice::Tallies(ledger, amount)),
            Pause::Ended => Ok(Slice::Ends),
        }
    }

    /// Puts `child` inside this job's thread slot, in which it runs once the job waits for it.
    pub(crate) fn run_inside(&mut self, child: Thread<'p>) -> Result<(), JobFault>
        requires pending { IsPlacing (pause_of self.old.thread) }
        requires child { MayBePlaced self.old.thread child }
        requires forked { pause_of self.old.thread ≡ Some pause.Forks → awaited self.old.thread.running ≡ Some (name_of child) }
        ensures tag { tag_of self.new.thread ≡ tag_of self.old.thread }
        ensures parent { self.new.parent ≡ self.old.parent }
        ensures answered { OnOk result (pause_of self.new.thread ≡ None) }
        ensures at_join { pause_of self.old.thread ≡ Some pause.Joins → OnOk result (self.new.thread ≡ begun_in self.old.thread child.entry) }
    {
        self.thread.in_place(child)?;
        Ok(())
    }

    /// Adds the receiving end of the join cell of a child that this job has forked.
    pub(crate) fn add_receiver(&mut self, receiver: OutcomeReceiver) -> Result<(), JobFault>
        requires { IsOf (program_of self.old.thread) receiver.opening.key }
        ensures { self.new ≡ self.old }
    {
        self.ties.ends.try_reserve(1)?;
        self.ties.ends.push_reserved(End::Awaits(receiver));
        Ok(())
    }

    /// Joins the child that this job waits for, if it has ended. If the child still waits for a thread slot, it runs
    /// inside this job's slot. If the child runs elsewhere, returns false, and the job must block.
    pub(crate) fn join(&mut self, spares: &mut JobSpares<'p>) -> Result<bool, JobFault>
        requires { IsAwaiting self.old.thread }
        ensures tag { tag_of self.new.thread ≡ tag_of self.old.thread }
        ensures parent { self.new.parent ≡ self.old.parent }
        ensures joined { IfOk result (λ goes. goes ≡ true → IsGoing self.new.thread) }
        ensures answered { IfOk result (λ goes. goes ≡ true → IsJoined self.old.thread self.new.thread) }
        ensures same { IfOk result (λ goes. goes ≡ false → self.new ≡ self.old) }
    {
        match self.find(spares)? {
            Found::Outcome(outcome) => {
                self.thread.joined_into(outcome, &mut spares.threads)?;
                Ok(true)
            }
            Found::Child(child) => {
                self.run_inside(child)?;
                Ok(true)
            }
            Found::Nothing => Ok(false),
        }
    }

    /// Takes out of the join cell what the job awaits: the child's outcome, or the child if it still waits for a slot.
    ///
    /// The newest end is that of the awaited child. If neither is there yet, the end is put back for the next call.
    fn find(&mut self, spares: &mut JobSpares<'p>) -> Result<Found<'p>, JobFault>
        ensures same { self.new ≡ self.old }
        ensures found { IfOk result (IsFoundOf (program_of self.old.thread)) }
    {
        let Some(end) = self.ties.ends.pop() else {
            return Err(JobFault::Foreign);
        };
        match end {
            End::Awaits(receiver) => match receiver.fetch() {
                Ok((outcome, cell)) => {
                    spares.cells.give(cell);
                    Ok(Found::Outcome(outcome))
                }
                Err(receiver) => {
                    self.ties.ends.push_reserved(End::Awaits(receiver));
                    Ok(Found::Nothing)
                }
            },
            End::Waits => match self.waits.pop() {
                Some(WaitEnd { cell, end: None }) => match cell.find() {
                    Ok(found) => Ok(found),
                    Err(_) => {
                        self.waits.push_reserved(WaitEnd { cell, end: None });
                        self.ties.ends.push_reserved(End::Waits);
                        Ok(Found::Nothing)
                    }
                },
                _ => Err(JobFault::Foreign),
            },
            End::Leaves(_) => Err(JobFault::Foreign),
        }
    }
}
