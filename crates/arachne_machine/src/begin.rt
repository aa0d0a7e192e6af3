//! The first step of each kind of expression.
use crate::frame::{Control, Frame};
use crate::lookup::{length_in, variable_in};
use crate::placing::Placing;
use crate::spares::Spares;
use crate::state::{Progress, State};
use arachne_program::{Expr, Operation};
use std::alloc::AllocError;

impl<'p> State<'p> {
    ghost use Rattle.std.specs.Prelude.{true, ◌≡◌, ◌≤◌, ◌∷◌, ◌++◌, [], length, slice_index, IfOk, IfSome, OnOk, OnErr};
    ghost use Rattle.std.specs.Borrow.{Bor};
    ghost use Rattle.arachne_program.specs.declared.program.Expr.{Expr as Expression};
    ghost use Rattle.arachne_program.specs.Tree.{Binary};
    ghost use Rattle.arachne_program.specs.Program.{source_of, tree_of};
    ghost use Rattle.arachne_program.specs.Value.{array_at, value_of};
    ghost use Rattle.arachne_machine.specs.declared.frame.Frame.TheVariants as frames;
    ghost use Rattle.arachne_machine.specs.declared.frame.Control.TheVariants as control;
    ghost use Rattle.arachne_machine.specs.declared.state.Progress.TheVariants as ways;
    ghost use Rattle.arachne_machine.specs.Pure.{IsLeaf};
    ghost use Rattle.arachne_machine.specs.Sound.{IsSoundState};
    ghost use Rattle.arachne_machine.specs.Steps.{beginning, Changes, IsSame, LeavesOthers, OnStops, Pushes, Reaches, top};
    ghost use Rattle.arachne_machine.specs.Runs.{beginning_in, Comes};

    /// Makes the first step of `expr`. If this step already yields the value, returns the value and changes nothing.
    #[inline(always)]
    pub fn begin<P: Placing>(
        &mut self,
        expr: &'p Expr,
        left: &mut u32,
        spares: &mut Spares<'p>,
        places: &mut P,
    ) -> Result<Progress<'p>, AllocError>
        requires sound { IsSoundState (beginning_in self.old expr) }
        ensures ok { IfOk result (λ progress. Comes (P.gives_all ≡ true) left.old left.new (beginning_in self.old expr.entry) progress self.new) }
        ensures fewer { left.new ≤ left.old }
        ensures err { OnErr result (IsSame self.old self.new) }
        ensures uncharged { OnErr result (left.new ≡ left.old) }
    {
        match expr {
            Expr::Num(number) => Ok(Progress::Value(*number)),
            Expr::Var(variable) => Ok(Progress::Value(variable_in(
                self.environment.as_slice(),
                *variable,
            ))),
            Expr::Len(array) => Ok(Progress::Value(length_in(self.program, *array))),
            Expr::Item(array, index) => self.enter(Frame::Index(*array), index),
            Expr::Binary(operation, first, second) => self.operate(*operation, first, second, left),
            Expr::If(condition, first, second) => {
                self.enter(Frame::Branch(first, second), condition)
            }
            Expr::Let(bound, body) => self.enter(Frame::Extend(body), bound),
            Expr::Tally(ledger, amount, body) => self.enter(Frame::Amount(*ledger, body), amount),
            Expr::Fold(from, to, first, body) => self.enter(Frame::FoldTo(to, first, body), from),
            Expr::Sweep(reduction, grain, from, to, body) => {
                self.enter(Frame::SweepTo(*reduction, *grain, to, body), from)
            }
            Expr::Hold(lock, body) => self.ask(*lock, body),
            Expr::Fork(class, child, during, after) => {
                if !places.is_any(*class) {
                    return self.fork_here(child, during, after);
                }
                self.fork(*class, child, during, after, spares)
            }
        }
    }

    /// Begins a binary operation.
    ///
    /// If at least 2 steps are left, also evaluates operands that are numbers or variables, and subtracts a step for
    /// each.
    #[inline(always)]
    fn operate(
        &mut self,
        operation: Operation,
        first: &'p Expr,
        second: &'p Expr,
        left: &mut u32,
    ) -> Result<Progress<'p>, AllocError>
        requires start { self.old.level.start ≤ length self.old.frames.items }
        ensures ok { (expr : Bor Expression) → tree_of expr.now ≡ Binary operation (tree_of first.now) (tree_of second.now) →
            IfOk result (λ progress. Reaches left.old left.new (beginning (top self.old) expr) progress (top self.new)) }
        ensures leaves { IfOk result (λ progress. LeavesOthers self.old self.new × OnStops progress ⊥) }
        ensures fewer { left.new ≤ left.old }
        ensures err { OnErr result (IsSame self.old self.new) }
        ensures uncharged { OnErr result (left.new ≡ left.old) }
    {
        if *left >= 2
            && let Some(x) = self.leaf(first)
        {
            if let Some(y) = self.leaf(second) {
                *left -= 2;
                return Ok(Progress::Value(operation.apply(x, y)));
            }
            let begun = self.enter(Frame::Apply(operation, x), second)?;
            *left -= 1;
            return Ok(begun);
        }
        self.enter(Frame::Right(operation, second), first)
    }

    #[inline(always)]
    fn leaf(&self, expr: &Expr) -> Option<u64>
        ensures leaf { IfSome result (λ _. IsLeaf (tree_of expr.now)) }
        ensures value { IfSome result (λ value. value ≡ value_of (source_of self.now.program.now).arrays (tree_of expr.now) self.now.environment.items) }
    {
        match expr {
            Expr::Num(number) => Some(*number),
            Expr::Var(variable) => Some(variable_in(self.environment.as_slice(), *variable)),
            _ => None,
        }
    }

    #[inline(always)]
    fn enter(&mut self, frame: Frame<'p>, part: &'p Expr) -> Result<Progress<'p>, AllocError>
        ensures begins { IfOk result (λ begun. begun ≡ ways.Begin part.entry) }
        ensures ok { OnOk result (Pushes self.old self.new frame.entry) }
        ensures err { OnErr result (IsSame self.old self.new) }
    {
        self.frames.push(frame)?;
        Ok(Progress::Begin(part))
    }

    /// Pauses the thread until it gets the lock, which a frame releases after `body`.
    #[inline(always)]
    fn ask(&mut self, lock: u64, body: &'p Expr) -> Result<Progress<'p>, AllocError>
        ensures stops { IfOk result (λ asked. asked ≡ ways.Stops) }
        ensures ok { OnOk result (Changes self.old self.new self.old.environment.items (self.old.frames.items ++ frames.Release lock ∷ []) (control.Asks lock body.entry)) }
        ensures err { OnErr result (IsSame self.old self.new) }
    {
        self.frames.push(Frame::Release(lock))?;
        self.control = Control::Asks { lock, body };
        Ok(Progress::Stops)
    }
}
