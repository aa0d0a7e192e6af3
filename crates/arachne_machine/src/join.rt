//! Begins children inside their parent's thread slot, and joins children.
use crate::contents::Contents;
use crate::frame::{Control, Frame};
use crate::level::{Level, Parent, move_parents};
use crate::line::{Label, Ran};
use crate::placing::Placing;
use crate::state::{Progress, State};
use crate::tables::add_each;
use arachne_program::Name;
use std::alloc::AllocError;
use std::mem::swap;

#[derive(Clone, Copy)]
pub enum Unjoined {
    Foreign,
    Memory,
}

impl<'p> State<'p> {
    ghost use Rattle.std.specs.Prelude.{◌≡◌, ◌≢◌, ◌+◌, ◌≤◌, ◌<◌, ◌^◌, ◌∷◌, ◌++◌, ◌↔◌, [], ℕ, length, reverse, vec_len, vec_capacity, Err, Some, IsTrue, IfOk, OnOk, OnErr};
    ghost use Rattle.arachne_machine.specs.declared.frame.Frame.TheVariants as frames;
    ghost use Rattle.arachne_machine.specs.declared.frame.Control.TheVariants as control;
    ghost use Rattle.arachne_machine.specs.Steps.{Changes, HasLine, HasRoom, IsSame, OnValue, pending_of, suspended, top};
    ghost use Rattle.arachne_machine.specs.Suspended.{awaited};
    ghost use Rattle.arachne_machine.specs.declared.pause.Pending.TheVariants as pause;
    ghost use Rattle.arachne_machine.specs.Runs.{BeginsHere, Descends, FitsInto, HasParent, JoinsOutcome, KeepsRest, LooksSame, ResumesAs, ResumesParent, StandsBefore, TakesIn, TakesLevels};
    ghost use Rattle.arachne_program.specs.Effects.{tabulated};
    ghost use Rattle.arachne_machine.specs.Strands.{Fits};
    ghost use Rattle.arachne_program.specs.declared.program.Program.{Program};
    ghost use Rattle.arachne_machine.specs.Outcome.{finished};
    ghost use Rattle.arachne_machine.specs.declared.join.Unjoined.TheVariants.{Foreign};

    /// Returns true if `name` is that of the child for which the innermost thread (the one that runs) waits.
    pub fn awaits(&self, name: &Name) -> bool
        requires joins { pending_of self.now.control ≡ Some pause.Joins }
        requires line { HasLine self.now }
        ensures { IsTrue result ↔ (awaited (suspended (top self.now)) ≡ Some name.now) }
    {
        match self.control {
            Control::Awaits { number, .. } | Control::AwaitsHalf { number, .. } => {
                name.is_child_of(self.running_name(), number)
            }
            _ => unreachable!(),
        }
    }

    /// Begins child `number` of the innermost thread (the one that runs) inside the same slot, as a function call
    /// would.
    ///
    /// `awaits` is the parent's next action, to wait for the child. If memory is refused, only capacities may change.
    #[inline(always)]
    pub fn begin_here<P: Placing>(
        &mut self,
        number: u64,
        awaits: Control<'p>,
        places: &mut P,
    ) -> Result<(), AllocError>
        requires { HasLine self.old }
        ensures ok { OnOk result (BeginsHere self.old self.new number awaits.entry self.old.control) }
        ensures err { OnErr result (IsSame self.old self.new) }
        ensures frames { OnErr result (self.new.frames ≡ self.old.frames) }
    {
        self.parents.try_reserve(1)?;
        let name = self.running_name().child(self.alloc, number)?;
        let place = self.lines.len();
        let label = Label {
            tag: places.tag(),
            ran: Ran::InPlace,
        };
        self.lines
            .push(self.alloc, name, label, self.program.locks)?;
        self.descend(awaits, place, 0);
        Ok(())
    }

    /// Makes a child the innermost thread (the one that runs), for which its parent waits by `awaits`.
    ///
    /// `place` is the index of the child's report line, and `forks` the number of threads that the child has forked.
    #[inline(always)]
    fn descend(&mut self, awaits: Control<'p>, place: usize, forks: u64)
        requires { vec_len self.old.parents + 1 ≤ vec_capacity self.old.parents }
        ensures descends { Descends self.old self.new awaits.entry place forks }
        ensures frames { self.new.frames ≡ self.old.frames }
    {
        self.parents.push_reserved(Parent {
            level: self.level,
            control: awaits,
        });
        self.level = Level {
            start: self.frames.len(),
            forks,
            place,
        };
    }

    /// Moves `child`, for which the thread of this state waits, and the threads inside its slot into this state, where
    /// they continue. If memory is refused, only lists' capacities may change.
    pub fn take_in(&mut self, child: &mut State<'p>) -> Result<(), AllocError>
        requires { FitsInto self.old child.old }
        ensures ok { OnOk result (TakesIn self.old child.old self.new) }
        ensures err { OnErr result (IsSame self.old self.new) }
        ensures childs { OnErr result (LooksSame child.old child.new) }
        ensures room { OnErr result (HasRoom self.old → HasRoom self.new) }
    {
        self.parents.try_reserve(child.parents.len() + 1)?;
        self.frames.try_reserve(child.frames.len())?;
        let place = self.lines.len();
        let mut own = child.own.take_line(self.alloc);
        own.ran = Ran::InPlace;
        if self
            .lines
            .append(self.alloc, &mut own, &mut child.lines)
            .is_err()
        {
            child.own.put_back(own);
            return Err(AllocError);
        }
        add_each(&mut self.sums, &child.sums);
        self.take_levels(child, place);
        let _ = self.frames.append(&mut child.frames);
        swap(&mut self.environment, &mut child.environment);
        self.control = child.control;
        Ok(())
    }

    /// Takes over the indices and counts of `child` and the threads in its slot, whose report lines begin at `place`.
    #[inline(always)]
    fn take_levels(&mut self, child: &State<'p>, place: usize)
        requires room { vec_len self.old.parents + vec_len child.now.parents + 1 ≤ vec_capacity self.old.parents }
        requires fits { (frames lines : ℕ) × Fits (reverse child.now.parents.items) child.now.level.start child.now.level.place frames lines
            × (length self.old.frames.items + frames < 2 ^ 64) × (place + 1 + lines < 2 ^ 64) }
        ensures levels { TakesLevels self.old child.now self.new place }
        ensures frames { self.new.frames ≡ self.old.frames }
    {
        let start = self.frames.len();
        self.parents.push_reserved(Parent {
            level: self.level,
            control: self.control,
        });
        move_parents(&mut self.parents, &child.parents, start, place);
        self.level = child.level.moved(child.parents.is_empty(), start, place);
    }

    /// Ends the thread that runs inside its parent's slot, and resumes the parent.
    ///
    /// If memory is refused, a later step passes `value` to the parent.
    #[inline(always)]
    pub fn join_here(&mut self, value: u64, left: &mut u32) -> Result<Progress<'p>, AllocError>
        requires parent { HasParent self.old }
        requires room { vec_len self.old.environment + 2 ≤ vec_capacity self.old.environment }
        ensures ok { IfOk result (λ progress. ResumesParent self.old value left.old progress left.new self.new) }
        ensures fewer { left.new ≤ left.old }
        ensures room { IfOk result (λ progress. OnValue progress (vec_len self.new.environment + 2 ≤ vec_capacity self.new.environment)) }
        ensures nearer { IfOk result (λ progress. OnValue progress (vec_len self.new.frames + vec_len self.new.parents < vec_len self.old.frames + vec_len self.old.parents)) }
        ensures err { OnErr result (Changes self.old self.new self.old.environment.items self.old.frames.items (control.Give value)) }
        ensures uncharged { OnErr result (left.new ≡ left.old) }
    {
        if self.frames.try_reserve(1).is_err() {
            return self.refused(value);
        }
        let Some(parent) = self.parents.pop() else {
            unreachable!()
        };
        self.level = parent.level;
        match parent.control {
            Control::Awaits { during, after, .. } => {
                self.bind_joined(value, during);
                Ok(Progress::Begin(after))
            }
            Control::AwaitsHalf {
                right,
                reduction,
                ..
            } => Ok(self.hand_result(reduction.operation().apply(value, right), left)),
            _ => unreachable!(),
        }
    }

    #[inline(always)]
    fn bind_joined(&mut self, value: u64, during: u64)
        requires environment { vec_len self.old.environment + 2 ≤ vec_capacity self.old.environment }
        requires frames { vec_len self.old.frames + 1 ≤ vec_capacity self.old.frames }
        ensures { Changes self.old self.new (self.old.environment.items ++ value ∷ during ∷ [])
            (self.old.frames.items ++ frames.Restore (length self.old.environment.items) ∷ []) self.old.control }
    {
        let length = self.environment.len();
        self.environment.push_reserved(value);
        self.environment.push_reserved(during);
        self.frames.push_reserved(Frame::Restore(length));
    }

    /// Joins the child whose result is `contents`. After an error, only lists' capacities may have changed.
    pub fn join(&mut self, contents: &mut Contents) -> Result<(), Unjoined>
        requires joins { pending_of self.old.control ≡ Some pause.Joins }
        requires line { HasLine self.old }
        requires sums { length contents.old.sums.items ≡ length self.old.sums.items }
        ensures ok { (program : Program) → OnOk result (JoinsOutcome self.old (finished program contents.old) self.new) }
        ensures foreign { (result ≡ Err Foreign) ↔ (awaited (suspended (top self.old)) ≢ Some contents.old.own.name) }
        ensures err { OnErr result (IsSame self.old self.new) }
        ensures left { OnErr result (contents.new ≡ contents.old) }
    {
        if !self.awaits(&contents.own.name) {
            return Err(Unjoined::Foreign);
        }
        if self.reserve_turn().is_err() {
            return Err(Unjoined::Memory);
        }
        if self.take_contents(contents).is_err() {
            return Err(Unjoined::Memory);
        }
        self.resume_joined(contents.value);
        Ok(())
    }

    /// Takes over the report lines and the ledger sums of `contents`.
    ///
    /// If memory is refused, only capacities may change.
    #[inline(always)]
    fn take_contents(&mut self, contents: &mut Contents) -> Result<(), AllocError>
        requires sums { length contents.old.sums.items ≡ length self.old.sums.items }
        ensures lines { OnOk result (self.new.lines ≡ self.old.lines ++ contents.old.own ∷ contents.old.below) }
        ensures few { OnOk result (length self.new.lines < 2 ^ 63) }
        ensures sums { OnOk result ((n : ℕ) (own others : ℕ → ℕ) → self.old.sums.items ≡ tabulated n own → contents.old.sums.items ≡ tabulated n others
            → self.new.sums.items ≡ tabulated n (λ ledger. own ledger + others ledger)) }
        ensures value { contents.new.value ≡ contents.old.value }
        ensures others { self.new ≡ record self.old { lines = self.new.lines; sums = self.new.sums } }
        ensures err { OnErr result ((self.new.lines ≡ self.old.lines) × (self.new.sums ≡ self.old.sums)) }
        ensures left { OnErr result (contents.new ≡ contents.old) }
    {
        self.lines
            .append(self.alloc, &mut contents.own, &mut contents.below)?;
        add_each(&mut self.sums, &contents.sums);
        Ok(())
    }

    #[inline(always)]
    fn resume_joined(&mut self, value: u64)
        requires joins { pending_of self.old.control ≡ Some pause.Joins }
        requires environment { vec_len self.old.environment + 2 ≤ vec_capacity self.old.environment }
        requires frames { vec_len self.old.frames + 1 ≤ vec_capacity self.old.frames }
        ensures resumes { ResumesAs self.old.control self.old.environment.items self.old.frames.items value self.new }
        ensures rest { KeepsRest self.old self.new }
    {
        match self.control {
            Control::Awaits { during, after, .. } => {
                self.bind_joined(value, during);
                self.control = Control::Begin(after);
            }
            Control::AwaitsHalf {
                right,
                reduction,
                ..
            } => {
                self.control = Control::Give(reduction.operation().apply(value, right));
            }
            _ => unreachable!(),
        }
    }

    /// Undoes the step in which the thread began to wait for a child.
    pub fn stand_before_join(&mut self)
        requires joins { pending_of self.old.control ≡ Some pause.Joins }
        requires room { HasRoom self.old }
        ensures { StandsBefore self.old.control self.old self.new }
    {
        match self.control {
            Control::Awaits {
                number,
                during,
                after,
            } => {
                self.frames.push_reserved(Frame::Join { number, after });
                self.control = Control::Give(during);
            }
            Control::AwaitsHalf {
                number,
                right,
                reduction,
            } => {
                self.frames
                    .push_reserved(Frame::Merge { number, reduction });
                self.control = Control::Give(right);
            }
            _ => unreachable!(),
        }
    }
}
