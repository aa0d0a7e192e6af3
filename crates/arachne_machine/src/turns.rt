//! The iterations of folds (sequential loops) and of sweeps (parallel reductions).
use crate::frame::Frame;
use crate::state::{Progress, State};
use crate::worth::body_at_once;
use arachne_program::{Expr, Reduction};

impl<'p> State<'p> {
    ghost use Rattle.std.specs.Prelude.{◌≡◌, ◌+◌, ◌-◌, ◌<◌, ◌≤◌, ◌++◌, ◌∷◌, [], length, vec_len, vec_capacity, MatchOption};
    ghost use Rattle.arachne_program.specs.Program.{source_of, tree_of};
    ghost use Rattle.arachne_program.specs.Value.{with_newest};
    ghost use Rattle.arachne_machine.specs.declared.frame.Frame.TheVariants as frames;
    ghost use Rattle.arachne_machine.specs.declared.frame.Control.TheVariants as control;
    ghost use Rattle.arachne_machine.specs.Pure.{IsWorth};
    ghost use Rattle.arachne_machine.specs.Strands.{Strand};
    ghost use Rattle.arachne_machine.specs.Steps.{Changes, ComesToFold, ComesToSweep, IsSame, LeavesOthers, OnStops, OnValue, Reaches, Turns, top};
    ghost use Rattle.arachne_machine.specs.Runs.{FoldsOn, IsOneStep, SweepsOn, seen_in};

    /// Continues a fold (a sequential loop) over the numbers `next..end`, whose earlier iterations yielded `so_far`.
    ///
    /// Runs iterations in one call each while they have no effects or loops and enough steps are left. Then begins the
    /// next iteration, or ends the loop.
    pub fn turn_fold(
        &mut self,
        next: u64,
        end: u64,
        body: &'p Expr,
        so_far: u64,
        left: &mut u32,
    ) -> Progress<'p>
        requires start { self.old.level.start ≤ length self.old.frames.items }
        requires environment { vec_len self.old.environment + 2 ≤ vec_capacity self.old.environment }
        requires frames { vec_len self.old.frames + 1 ≤ vec_capacity self.old.frames }
        ensures reaches { (before : Strand) → ComesToFold before (top self.old) left.old left.old next end body.entry so_far → Reaches left.old left.new before result (top self.new) }
        ensures leaves { LeavesOthers self.old self.new }
        ensures stops { OnStops result ⊥ }
        ensures fewer { left.new ≤ left.old }
        ensures room { OnValue result (vec_len self.new.environment + 2 ≤ vec_capacity self.new.environment) }
        ensures few { OnValue result (vec_len self.new.frames ≤ vec_len self.old.frames) }
    {
        let (next, so_far) = self.fold_at_once(next, end, body, so_far, left);
        self.begin_fold(next, end, body, so_far, left)
    }

    /// Runs iterations of a fold (a sequential loop) until one has effects or loops, or needs more steps than are left.
    ///
    /// Returns the number of the next iteration, and the value so far.
    #[inline(always)]
    fn fold_at_once(
        &mut self,
        next: u64,
        end: u64,
        body: &'p Expr,
        so_far: u64,
        left: &mut u32,
    ) -> (u64, u64)
        requires environment { vec_len self.old.environment + 2 ≤ vec_capacity self.old.environment }
        requires frames { vec_len self.old.frames + 1 ≤ vec_capacity self.old.frames }
        ensures same { IsSame self.old self.new }
        ensures turns { (before : Strand) → ComesToFold before (top self.old) left.old left.old next end body.entry so_far
            → ComesToFold before (top self.old) left.old left.new result.0 end body.entry result.1 }
        ensures fewer { left.new ≤ left.old }
        ensures environment { vec_len self.new.environment + 2 ≤ vec_capacity self.new.environment }
        ensures frames { vec_len self.new.frames + 1 ≤ vec_capacity self.new.frames }
        ensures few { vec_len self.new.frames ≡ vec_len self.old.frames }
    {
        let mut next = next;
        let mut so_far = so_far;
        while next < end {
            let Some(value) = self.fold_value(next, so_far, body, left) else {
                return (next, so_far);
            };
            next += 1;
            so_far = value;
        }
        (next, so_far)
    }

    /// Runs one iteration of a fold (sequential loop), or returns `None` if it has effects, loops or more than `left`
    /// steps.
    #[inline(always)]
    fn fold_value(&mut self, next: u64, so_far: u64, body: &'p Expr, left: &mut u32) -> Option<u64>
        requires environment { vec_len self.old.environment + 2 ≤ vec_capacity self.old.environment }
        requires frames { vec_len self.old.frames + 1 ≤ vec_capacity self.old.frames }
        ensures same { IsSame self.old self.new }
        ensures worth { MatchOption result (left.new ≡ left.old) (λ value. (left.new + 1 ≤ left.old)
            × IsWorth (source_of self.old.program.now) (tree_of body.now) (with_newest (with_newest self.old.environment.items next) so_far) value (left.old - 1) left.new) }
        ensures environment { vec_len self.new.environment + 2 ≤ vec_capacity self.new.environment }
        ensures frames { vec_len self.new.frames + 1 ≤ vec_capacity self.new.frames }
        ensures few { vec_len self.new.frames ≡ vec_len self.old.frames }
    {
        let count = self.environment.len();
        self.environment.push_reserved(next);
        self.environment.push_reserved(so_far);
        let value = body_at_once(self.program, &mut self.environment, body, left);
        self.environment.truncate(count);
        value
    }

    #[inline(always)]
    fn begin_fold(
        &mut self,
        next: u64,
        end: u64,
        body: &'p Expr,
        so_far: u64,
        left: &mut u32,
    ) -> Progress<'p>
        requires environment { vec_len self.old.environment + 2 ≤ vec_capacity self.old.environment }
        requires frames { vec_len self.old.frames + 1 ≤ vec_capacity self.old.frames }
        ensures turns { FoldsOn self.old (seen_in result self.new) next end body.entry so_far }
        ensures step { IsOneStep left.old left.new result self.new }
        ensures fewer { left.new ≤ left.old }
        ensures room { OnValue result (self.new ≡ self.old) }
    {
        if next >= end {
            return self.hand_result(so_far, left);
        }
        self.environment.push_reserved(next);
        self.environment.push_reserved(so_far);
        let turn = Frame::FoldTurn {
            next: next + 1,
            end,
            body,
        };
        self.go_on(turn, body)
    }

    /// Continues a sweep (a parallel reduction) over the numbers `next..end`, whose earlier values reduce to `so_far`.
    #[inline(always)]
    pub fn turn_sweep(
        &mut self,
        reduction: Reduction,
        next: u64,
        end: u64,
        body: &'p Expr,
        so_far: u64,
        left: &mut u32,
    ) -> Progress<'p>
        requires start { self.old.level.start ≤ length self.old.frames.items }
        requires environment { vec_len self.old.environment + 2 ≤ vec_capacity self.old.environment }
        requires frames { vec_len self.old.frames + 1 ≤ vec_capacity self.old.frames }
        ensures reaches { (before : Strand) → ComesToSweep before (top self.old) left.old left.old reduction next end body.entry so_far → Reaches left.old left.new before result (top self.new) }
        ensures leaves { LeavesOthers self.old self.new }
        ensures stops { OnStops result ⊥ }
        ensures fewer { left.new ≤ left.old }
        ensures room { OnValue result (vec_len self.new.environment + 2 ≤ vec_capacity self.new.environment) }
        ensures few { OnValue result (vec_len self.new.frames ≤ vec_len self.old.frames) }
    {
        let (next, so_far) = self.sweep_at_once(reduction, next, end, body, so_far, left);
        self.begin_sweep(reduction, next, end, body, so_far, left)
    }

    /// Runs iterations of a sweep (a parallel reduction) until one has effects or loops, or needs more steps than are
    /// left.
    ///
    /// Returns the number of the next iteration, and the value so far.
    #[inline(always)]
    fn sweep_at_once(
        &mut self,
        reduction: Reduction,
        next: u64,
        end: u64,
        body: &'p Expr,
        so_far: u64,
        left: &mut u32,
    ) -> (u64, u64)
        requires environment { vec_len self.old.environment + 2 ≤ vec_capacity self.old.environment }
        requires frames { vec_len self.old.frames + 1 ≤ vec_capacity self.old.frames }
        ensures same { IsSame self.old self.new }
        ensures turns { (before : Strand) → ComesToSweep before (top self.old) left.old left.old reduction next end body.entry so_far
            → ComesToSweep before (top self.old) left.old left.new reduction result.0 end body.entry result.1 }
        ensures fewer { left.new ≤ left.old }
        ensures environment { vec_len self.new.environment + 2 ≤ vec_capacity self.new.environment }
        ensures frames { vec_len self.new.frames + 1 ≤ vec_capacity self.new.frames }
        ensures few { vec_len self.new.frames ≡ vec_len self.old.frames }
    {
        let mut next = next;
        let mut so_far = so_far;
        while next < end {
            let Some(value) = self.sweep_value(next, body, left) else {
                return (next, so_far);
            };
            next += 1;
            so_far = reduction.operation().apply(so_far, value);
        }
        (next, so_far)
    }

    /// Runs one iteration of a sweep (parallel reduction), or returns `None` if it has effects, loops or more than
    /// `left` steps.
    #[inline(always)]
    fn sweep_value(&mut self, next: u64, body: &'p Expr, left: &mut u32) -> Option<u64>
        requires environment { vec_len self.old.environment + 2 ≤ vec_capacity self.old.environment }
        requires frames { vec_len self.old.frames + 1 ≤ vec_capacity self.old.frames }
        ensures same { IsSame self.old self.new }
        ensures worth { MatchOption result (left.new ≡ left.old) (λ value. (left.new + 1 ≤ left.old)
            × IsWorth (source_of self.old.program.now) (tree_of body.now) (with_newest self.old.environment.items next) value (left.old - 1) left.new) }
        ensures environment { vec_len self.new.environment + 2 ≤ vec_capacity self.new.environment }
        ensures frames { vec_len self.new.frames + 1 ≤ vec_capacity self.new.frames }
        ensures few { vec_len self.new.frames ≡ vec_len self.old.frames }
    {
        let count = self.environment.len();
        self.environment.push_reserved(next);
        let value = body_at_once(self.program, &mut self.environment, body, left);
        self.environment.truncate(count);
        value
    }

    #[inline(always)]
    fn begin_sweep(
        &mut self,
        reduction: Reduction,
        next: u64,
        end: u64,
        body: &'p Expr,
        so_far: u64,
        left: &mut u32,
    ) -> Progress<'p>
        requires environment { vec_len self.old.environment + 2 ≤ vec_capacity self.old.environment }
        requires frames { vec_len self.old.frames + 1 ≤ vec_capacity self.old.frames }
        ensures turns { SweepsOn self.old (seen_in result self.new) reduction next end body.entry so_far }
        ensures step { IsOneStep left.old left.new result self.new }
        ensures fewer { left.new ≤ left.old }
        ensures room { OnValue result (self.new ≡ self.old) }
    {
        if end <= next {
            return self.hand_result(so_far, left);
        }
        self.environment.push_reserved(next);
        let turn = Frame::SweepTurn {
            reduction,
            next: next + 1,
            end,
            so_far,
            body,
        };
        self.go_on(turn, body)
    }
}
