//! A child that waits in its join cell until a worker has a thread slot for it, or until its parent takes it back.
ghost use Rattle.std.specs.Prelude.{◌≡◌, ◌≢◌, ◌↔◌, IfOk, IfErr, IfSome, IsTrue, Some};
ghost use Rattle.std.specs.Arc.{arc_value};
ghost use Rattle.arachne_join.specs.Views.{shown};
ghost use Rattle.arachne_join.specs.declared.view.Role.TheVariants.{Left as HasLeft, Saw};
ghost use Rattle.arachne_jobs.specs.Cells.{HasNotBegun, IsFor, IsFoundFor, IsTold, IsWanted};
ghost use Rattle.arachne_jobs.specs.Threads.{tag_of};

use crate::left::{Found, LeftInCell, Waiting};
use crate::slice::RunTicket;
use crate::wanted::Wanted;
use arachne_contexts::Tagged;
use arachne_core::ThreadId;
use arachne_join::{CellState, JoinCell, Missed, Receipt, SendingEnd};
use arachne_machine::{DetachedOutcome, Thread};
use std::alloc::{AllocError, Global};
use std::marker::Model;
use std::sync::Arc;

type Cell<'p> = JoinCell<LeftInCell<'p>, Wanted>;

type CellEnd<'p> = SendingEnd<LeftInCell<'p>, Wanted>;

/// A reference to the join cell of a child that waits, or has waited, for a slot. Parent and child have one each.
#[derive(Drop)]
pub struct WaitCell<'p> {
    cell: Arc<Cell<'p>>,
}

impl<'p> Model for WaitCell<'p> {
    ghost use Rattle.std.specs.Arc.{arc_value};
    ghost use Rattle.arachne_join.specs.Views.{Cell};
    ghost use Rattle.arachne_jobs.specs.declared.wanted.Wanted.{Wanted};

    ghost Value = { Cell Wanted };

    ghost use Rattle.std.specs.Coded.{codes};
    ghost use Rattle.arachne_program.specs.contracts.program.Expr as expr;

    ghost coded = { Prim.hlevel (codes, expr.the_row.coded) };

    ghost view = { λ c. arc_value c.cell };
}

/// A queue entry for a child that waits for a thread slot.
#[derive(Drop)]
pub struct Ticket<'p> {
    cell: Arc<Cell<'p>>,
    tag: u64,
}

impl<'p> Model for Ticket<'p> {
    ghost use Rattle.std.specs.Prelude.{◌≡◌};
    ghost use Rattle.std.specs.Arc.{arc_value};
    ghost use Rattle.arachne_join.specs.Views.{Cell};
    ghost use Rattle.arachne_jobs.specs.declared.wanted.Wanted.{Wanted};

    ghost Value = { Cell Wanted };

    ghost use Rattle.std.specs.Coded.{codes};
    ghost use Rattle.arachne_program.specs.contracts.program.Expr as expr;

    ghost coded = { Prim.hlevel (codes, expr.the_row.coded) };

    ghost view = { λ t. arc_value t.cell };

    ghost invariant = { λ t. (arc_value t.cell).key.tag.value ≡ t.tag };
}

impl<'p> Tagged for Ticket<'p> {
    ghost tag_of = { λ t. t.key.tag.value };

    fn tag(&self) -> u64 {
        self.tag
    }
}

impl<'p> WaitCell<'p> {
    /// Puts `child` into a new join cell, to wait there for a slot. Returns `child` as the error if memory is refused.
    pub(crate) fn wait(
        alloc: Global,
        child: Thread<'p>,
        parent: ThreadId,
    ) -> Result<(WaitCell<'p>, Ticket<'p>), Thread<'p>>
        requires { HasNotBegun child }
        ensures cell { IfOk result (λ made. IsFor child.entry made.0.key) }
        ensures tag { IfOk result (λ made. made.1.key.tag.value ≡ tag_of child.entry) }
        ensures parent { IfOk result (λ made. made.1.key.parent.value ≡ Some parent) }
        ensures handed_back { IfErr result (λ back. back ≡ child.entry) }
    {
        let wanted = Wanted::of(&child, Some(parent));
        let tag = child.tag();
        let Ok((cell, end, ticket)) = shared_cell(alloc, &wanted) else {
            return Err(child);
        };
        end.put_back(
            &cell,
            LeftInCell::Child(Waiting {
                thread: child,
                parent,
            }),
        );
        Ok((WaitCell { cell }, Ticket { cell: ticket, tag }))
    }

    /// Takes the child's outcome, or the child if it still waits, out of the cell.
    ///
    /// If the cell has neither, the error is its state. `fetch` returns only outcomes, and `take_back` only children.
    pub(crate) fn find(&self) -> Result<Found<'p>, Missed<Wanted>>
        ensures found { IfOk result (IsFoundFor self.now.key) }
        ensures missed { IfErr result (λ missed. (missed.state ≢ CellState.Waiting) × (missed.receipt ≡ shown self.now.table (Saw missed.state))) }
    {
        let missed = match self.cell.fetch() {
            Ok((left, _)) => match left {
                LeftInCell::Outcome(outcome) => return Ok(Found::Outcome(outcome)),
                LeftInCell::Child(_) => unreachable!(),
            },
            Err(missed) => missed,
        };
        if !is_waiting(missed.state) {
            return Err(missed);
        }
        match self.cell.take_back() {
            Ok((left, _)) => match left {
                LeftInCell::Child(waiting) => Ok(Found::Child(waiting.thread)),
                LeftInCell::Outcome(_) => unreachable!(),
            },
            Err(missed) => Err(missed),
        }
    }

    /// Puts the child's outcome into the cell, from which the parent takes it.
    pub(crate) fn leave(self, end: CellEnd<'p>, outcome: DetachedOutcome) -> Receipt<Wanted>
        requires end { end ≡ self.table }
        requires outcome { IsWanted self.key outcome }
        ensures { result ≡ shown self.entry.table HasLeft }
    {
        end.leave(&self.cell, LeftInCell::Outcome(outcome))
    }
}

#[inline(always)]
fn is_waiting(state: CellState) -> bool
    ensures { IsTrue result ↔ (state ≡ CellState.Waiting) }
{
    state == CellState::Waiting
}

impl<'p> RunTicket for Ticket<'p> {
    fn still_waits(&self) -> bool {
        let (state, _) = self.cell.seen();
        is_waiting(state)
    }
}

impl<'p> Ticket<'p> {
    /// Returns the child, if it still waits, with its cell and the sending end.
    pub(crate) fn take(self) -> Option<(Waiting<'p>, WaitCell<'p>, CellEnd<'p>)>
        ensures child { IfSome result (λ taken. IsFor taken.0.thread taken.1.key × HasNotBegun taken.0.thread) }
        ensures told { IfSome result (λ taken. IsTold taken.0 self.entry.key) }
        ensures end { IfSome result (λ taken. taken.2 ≡ taken.1.table) }
    {
        let Ticket { cell, tag: _ } = self;
        match cell.take_back() {
            Ok((left, end)) => match left {
                LeftInCell::Child(waiting) => Some((waiting, WaitCell { cell }, end)),
                LeftInCell::Outcome(_) => unreachable!(),
            },
            Err(_) => None,
        }
    }
}

/// Returns two references to a new, empty join cell, with its sending end between them.
fn shared_cell<'p>(
    alloc: Global,
    wanted: &Wanted,
) -> Result<(Arc<Cell<'p>>, CellEnd<'p>, Arc<Cell<'p>>), AllocError>
    ensures cell { IfOk result (λ made. (arc_value made.0).key ≡ wanted.now) }
    ensures end { IfOk result (λ made. made.1 ≡ (arc_value made.0).table) }
    ensures other { IfOk result (λ made. arc_value made.2 ≡ arc_value made.0) }
{
    let (cell, end) = JoinCell::new(alloc, wanted)?;
    let cell = Arc::new(alloc, cell)?;
    let other = Arc::try_clone(&cell)?;
    Ok((cell, end, other))
}
