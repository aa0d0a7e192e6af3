//! The steps that fork a child, or halve a sweep (a parallel reduction over a range of numbers).
use crate::frame::{Control, Frame, Stretch};
use crate::placing::Placing;
use crate::spares::Spares;
use crate::state::{Progress, State};
use arachne_program::{Class, Expr};
use std::alloc::AllocError;

impl<'p> State<'p> {
    ghost use Rattle.std.specs.Prelude.{true, ◌≡◌, ◌≤◌, ◌+◌, ◌<◌, ◌^◌, ◌∷◌, ◌++◌, [], IfOk, OnOk, OnErr};
    ghost use Rattle.arachne_program.specs.Effects.{tabulated};
    ghost use Rattle.arachne_machine.specs.declared.line.Ran.TheVariants as ways;
    ghost use Rattle.arachne_machine.specs.declared.frame.Frame.TheVariants as frames;
    ghost use Rattle.arachne_machine.specs.declared.frame.Control.TheVariants as control;
    ghost use Rattle.arachne_machine.specs.declared.state.Progress.TheVariants as progress;
    ghost use Rattle.arachne_program.specs.declared.program.Class.TheVariants as classes;
    ghost use Rattle.arachne_machine.specs.Sound.{IsSoundState};
    ghost use Rattle.arachne_machine.specs.Runs.{Comes};
    ghost use Rattle.arachne_machine.specs.Steps.{CountsFork, HasLine, IsForkOf, IsSame, IsSpawned};

    /// Forks a child that evaluates `child`. This thread evaluates `during`, joins the child, and evaluates `after`.
    pub fn fork(
        &mut self,
        class: Class,
        child: &'p Expr,
        during: &'p Expr,
        after: &'p Expr,
        spares: &mut Spares<'p>,
    ) -> Result<Progress<'p>, AllocError>
        requires number { self.old.level.forks + 1 < 2 ^ 64 }
        requires line { HasLine self.old }
        ensures counts { OnOk result (CountsFork self.old self.new (frames.Join self.old.level.forks after.entry) (control.Forked during.entry)) }
        ensures child { IfOk result (λ forked. IsForkOf forked class (λ t. IsSpawned self.old (control.Begin child.entry) t)) }
        ensures err { OnErr result (IsSame self.old self.new) }
    {
        let number = self.level.forks;
        self.spawn(
            class,
            Control::Begin(child),
            Frame::Join { number, after },
            Control::Forked(during),
            spares,
        )
    }

    /// Forks a child without a pause.
    ///
    /// The child runs inside this thread's slot, as a function call would, after `during`.
    #[inline(always)]
    pub fn fork_here(
        &mut self,
        child: &'p Expr,
        during: &'p Expr,
        after: &'p Expr,
    ) -> Result<Progress<'p>, AllocError>
        requires number { self.old.level.forks + 1 < 2 ^ 64 }
        ensures begins { IfOk result (λ begun. begun ≡ progress.Begin during.entry) }
        ensures counts { OnOk result (CountsFork self.old self.new (frames.JoinHere self.old.level.forks child.entry after.entry) self.old.control) }
        ensures err { OnErr result (IsSame self.old self.new) }
    {
        let number = self.level.forks;
        let frame = Frame::JoinHere {
            number,
            child,
            after,
        };
        self.frames.push(frame)?;
        self.level.forks += 1;
        Ok(Progress::Begin(during))
    }

    #[inline(always)]
    fn spawn(
        &mut self,
        class: Class,
        begins: Control<'p>,
        frame: Frame<'p>,
        next: Control<'p>,
        spares: &mut Spares<'p>,
    ) -> Result<Progress<'p>, AllocError>
        requires number { self.old.level.forks + 1 < 2 ^ 64 }
        requires line { HasLine self.old }
        ensures counts { OnOk result (CountsFork self.old self.new frame.entry next.entry) }
        ensures child { IfOk result (λ forked. IsForkOf forked class (λ t. IsSpawned self.old begins.entry t)) }
        ensures err { OnErr result (IsSame self.old self.new) }
    {
        let name = self.running_name().child(self.alloc, self.level.forks)?;
        let environment = self.environment.as_slice();
        let state = State::new(
            self.alloc,
            self.program,
            name,
            0,
            begins,
            environment,
            spares,
        )?;
        self.frames.push(frame)?;
        self.level.forks += 1;
        self.control = next;
        Ok(Progress::Forks(class, state))
    }

    /// Begins to reduce a range of numbers, and forks a child for the left half if the range is longer than its grain
    /// (the length up to which it isn't halved).
    #[inline(always)]
    pub fn cover<P: Placing>(
        &mut self,
        stretch: Stretch<'p>,
        left: &mut u32,
        spares: &mut Spares<'p>,
        places: &mut P,
    ) -> Result<Progress<'p>, AllocError>
        requires covers { self.old.control ≡ control.Cover stretch }
        requires sound { IsSoundState self.old }
        ensures ok { IfOk result (λ progress. Comes (P.gives_all ≡ true) left.old left.new self.old progress self.new) }
        ensures fewer { left.new ≤ left.old }
        ensures err { OnErr result (IsSame self.old self.new) }
        ensures uncharged { OnErr result (left.new ≡ left.old) }
    {
        let count = stretch.end.saturating_sub(stretch.first);
        if count > stretch.grain.max(1) {
            let middle = stretch.first + count / 2;
            if !places.is_any_for(Class::Normal, count / 2) {
                return self.halve_here(stretch, middle);
            }
            return self.halve(stretch, middle, spares);
        }
        self.reserve_turn()?;
        let unit = stretch.reduction.unit();
        Ok(self.turn_sweep(
            stretch.reduction,
            stretch.first,
            stretch.end,
            stretch.body,
            unit,
            left,
        ))
    }

    /// Forks a child for the numbers below `middle`, so that this thread next reduces the others.
    fn halve(
        &mut self,
        stretch: Stretch<'p>,
        middle: u64,
        spares: &mut Spares<'p>,
    ) -> Result<Progress<'p>, AllocError>
        requires number { self.old.level.forks + 1 < 2 ^ 64 }
        requires line { HasLine self.old }
        ensures counts { OnOk result (CountsFork self.old self.new (frames.Merge self.old.level.forks stretch.entry.reduction) (control.Halved (record stretch.entry { first = middle }))) }
        ensures child { IfOk result (λ forked. IsForkOf forked classes.Normal (λ t. IsSpawned self.old (control.Cover (record stretch.entry { end = middle })) t)) }
        ensures err { OnErr result (IsSame self.old self.new) }
    {
        let left = Stretch {
            end: middle,
            ..stretch
        };
        let right = Stretch {
            first: middle,
            ..stretch
        };
        let frame = Frame::Merge {
            number: self.level.forks,
            reduction: stretch.reduction,
        };
        self.spawn(
            Class::Normal,
            Control::Cover(left),
            frame,
            Control::Halved(right),
            spares,
        )
    }

    /// Splits `stretch` without a pause. This thread reduces the right half next, and then a child reduces the left
    /// half, as a function call would.
    #[inline(always)]
    fn halve_here(&mut self, stretch: Stretch<'p>, middle: u64) -> Result<Progress<'p>, AllocError>
        requires number { self.old.level.forks + 1 < 2 ^ 64 }
        ensures goes { IfOk result (λ begun. begun ≡ progress.Goes) }
        ensures counts { OnOk result (CountsFork self.old self.new (frames.MergeHere self.old.level.forks (record stretch.entry { end = middle }))
            (control.Cover (record stretch.entry { first = middle }))) }
        ensures err { OnErr result (IsSame self.old self.new) }
    {
        let left = Stretch {
            end: middle,
            ..stretch
        };
        let right = Stretch {
            first: middle,
            ..stretch
        };
        let number = self.level.forks;
        self.frames.push(Frame::MergeHere { number, left })?;
        self.level.forks += 1;
        self.control = Control::Cover(right);
        Ok(Progress::Goes)
    }
}
