//! The state of a thread between two steps: its next action, its variables and its stack frames.
use crate::contents::Contents;
use crate::frame::{Control, Frame};
use crate::level::{Level, Parent};
use crate::line::{Label, Ran, ThreadLine};
use crate::lines::Lines;
use crate::pause::Pending;
use crate::placing::Placing;
use crate::spares::Spares;
use crate::tables::zeros;
use arachne_program::{Class, Expr, Name, Program, Sequence};
use std::alloc::{AllocError, Global};
use std::mem::{replace, swap};

/// A running thread's line in the report of a run.
#[derive(Drop)]
pub struct Own {
    pub name: Name,
    pub label: Label,
    /// For each lock, the number of times that the thread held it, modulo 2^64.
    pub holds: Vec<u64>,
}

impl Own {
    ghost use Rattle.std.specs.Prelude.{◌≡◌};
    ghost use Rattle.arachne_machine.specs.Strands.{own_line};

    fn vacant(alloc: Global) -> Own {
        Own {
            name: Name::root(alloc),
            label: Label {
                tag: 0,
                ran: Ran::Slot,
            },
            holds: Vec::new(alloc),
        }
    }

    /// Returns the thread's line of the run's report, and leaves an empty name and no counts.
    #[inline(always)]
    pub fn take_line(&mut self, alloc: Global) -> ThreadLine
        ensures line { result ≡ own_line self.old }
        ensures label { self.new.label ≡ self.old.label }
    {
        ThreadLine {
            name: replace(&mut self.name, Name::root(alloc)),
            tag: self.label.tag,
            holds: Sequence::from(replace(&mut self.holds, Vec::new(alloc))),
            ran: self.label.ran,
        }
    }

    /// Puts back the name, and the counts of locks held, of a thread's line of the report that `take_line` has
    /// returned.
    pub fn put_back(&mut self, line: ThreadLine)
        ensures name { self.new.name ≡ line.name }
        ensures holds { self.new.holds.items ≡ line.holds }
        ensures label { self.new.label ≡ self.old.label }
    {
        let ThreadLine {
            name,
            tag: _,
            holds,
            ran: _,
        } = line;
        self.name = name;
        self.holds = holds.into_vec();
    }
}

/// The state of a thread between two steps, together with the children that run inside its thread slot.
///
/// A child without a slot of its own runs inside its parent's slot, as a function call would. Of the threads inside one
/// slot, the *outermost* is the one that the slot was given to, and the *innermost* makes the next step.
#[derive(Drop)]
pub struct State<'p> {
    pub program: &'p Program,
    pub alloc: Global,
    /// The report line of the outermost thread (the slot's owner).
    pub own: Own,
    /// The report lines of the slot owner's descendants that were joined or run inside the slot.
    pub lines: Lines,
    /// For each ledger, the total that all threads of this state have added, modulo 2^64.
    pub sums: Vec<u64>,
    /// The threads that wait for a child inside the same slot, the slot's owner first.
    pub parents: Vec<Parent<'p>>,
    pub level: Level,
    /// The values of the variables of the innermost thread (the one that runs). The variables of each waiting parent
    /// are a prefix of this list.
    pub environment: Vec<u64>,
    /// The stack frames of all threads of this state, those of the slot's owner first.
    pub frames: Vec<Frame<'p>>,
    /// The next action of the innermost thread (the one that runs), or the request at which it has paused.
    pub control: Control<'p>,
}

/// The result of one step of a thread, or of a part of the step.
#[derive(Drop)]
pub enum Progress<'p> {
    /// The step has computed this value, which must next be passed to the newest stack frame.
    Value(u64),
    /// The next step begins this expression.
    Begin(&'p Expr),
    /// The state's field `control` has the next action.
    Goes,
    /// The thread pauses, for another reason than a fork, or has ended.
    Stops,
    /// The step has forked this child, of this class (normal or exclusive).
    Forks(Class, Box<State<'p>>),
}

impl<'p> State<'p> {
    ghost use Rattle.std.specs.Prelude.{true, ◌≡◌, ◌≤◌, ◌-◌, ◌∷◌, ◌<◌, [], length, IfOk, OnOk, OnErr, None, Some};
    ghost use Rattle.arachne_program.specs.Effects.{tabulated};
    ghost use Rattle.arachne_machine.specs.Sound.{IsSoundState};
    ghost use Rattle.arachne_machine.specs.Strands.{owned_of, own_line};
    ghost use Rattle.arachne_machine.specs.Outcome.{IsOfItsName, finished};
    ghost use Rattle.arachne_machine.specs.Steps.{pending_of, top, HasLine, IsLeftOver, IsRenewed, IsSame, OnValue};
    ghost use Rattle.arachne_machine.specs.Runs.{Advances, Comes, RunsOn, current_in};
    ghost use Rattle.arachne_machine.specs.declared.line.Ran.TheVariants as ways;
    ghost use Rattle.arachne_machine.specs.declared.pause.Pending.TheVariants as pause;
    ghost use Rattle.arachne_machine.specs.declared.frame.Control.TheVariants as control;

    /// Creates a thread that starts with the action `control` and with a copy of `environment` as its variables.
    pub fn new(
        alloc: Global,
        program: &'p Program,
        name: Name,
        tag: u64,
        control: Control<'p>,
        environment: &[u64],
        spares: &mut Spares<'p>,
    ) -> Result<Box<State<'p>>, AllocError>
        ensures name { IfOk result (λ t. t.value.own.name ≡ name) }
        ensures label { IfOk result (λ t. t.value.own.label ≡ record { tag = tag; ran = ways.Slot }) }
        ensures holds { IfOk result (λ t. t.value.own.holds.items ≡ tabulated program.now.locks (λ lock. 0)) }
        ensures sums { IfOk result (λ t. t.value.sums.items ≡ tabulated program.now.ledgers (λ ledger. 0)) }
        ensures begins { IfOk result (λ t. IsRenewed program.entry t.value.own t.value.sums.items control.entry environment.now t.value) }
    {
        let label = Label {
            tag,
            ran: Ran::Slot,
        };
        let holds = zeros(alloc, program.locks)?;
        let sums = zeros(alloc, program.ledgers)?;
        let own = Own { name, label, holds };
        let mut state = spares.take(alloc, program)?;
        state.renew(program, own, sums, control, environment)?;
        Ok(state)
    }

    #[cold]
    #[inline(never)]
    pub fn vacant(alloc: Global, program: &'p Program) -> State<'p> {
        State {
            program,
            alloc,
            own: Own::vacant(alloc),
            lines: Lines::new(alloc, program.locks),
            sums: Vec::new(alloc),
            parents: Vec::new(alloc),
            level: Level::outermost(),
            environment: Vec::new(alloc),
            frames: Vec::new(alloc),
            control: Control::Ended(0),
        }
    }

    /// Makes this the state of a new thread; the lists keep their capacities.
    ///
    /// Reserves room for three variables: a sweep's (parallel reduction's) current number, and two that `give` adds.
    fn renew(
        &mut self,
        program: &'p Program,
        own: Own,
        sums: Vec<u64>,
        control: Control<'p>,
        environment: &[u64],
    ) -> Result<(), AllocError>
        ensures { OnOk result (IsRenewed program.entry own sums.items control.entry environment.now self.new) }
    {
        self.environment.clear();
        self.environment.try_reserve(environment.len() + 3)?;
        self.environment.extend_from_slice(environment)?;
        self.frames.clear();
        self.parents.clear();
        self.lines.clear(program.locks);
        self.program = program;
        self.own = own;
        self.sums = sums;
        self.level = Level::outermost();
        self.control = control;
        Ok(())
    }

    /// Runs the thread until it pauses or has made `left` steps. Subtracts the steps that it makes from `left`.
    ///
    /// A step is the evaluation of one node of an expression. At a fork, returns the forked child and its class. If
    /// memory is refused, the thread is as it was before the refused step, which is not subtracted from `left`.
    pub fn advance<P: Placing>(
        &mut self,
        left: &mut u32,
        spares: &mut Spares<'p>,
        places: &mut P,
    ) -> Result<Option<(Class, Box<State<'p>>)>, AllocError>
        requires running { pending_of self.old.control ≡ None }
        requires sound { IsSoundState self.old }
        ensures ok { IfOk result (λ forked. Advances (P.gives_all ≡ true) left.old left.new self.old forked (pending_of self.new.control) self.new) }
        ensures err { OnErr result (RunsOn (P.gives_all ≡ true) left.old left.new 0 self.old self.new) }
        ensures err_left { OnErr result (1 ≤ left.new) }
    {
        let mut rest = *left;
        let mut begins = self.beginning();
        while rest > 0 {
            rest -= 1;
            match self.make(begins, &mut rest, spares, places) {
                Ok(Progress::Begin(expr)) => begins = Some(expr),
                Ok(Progress::Goes) => begins = None,
                Ok(Progress::Stops) => {
                    *left = rest;
                    return Ok(None);
                }
                Ok(Progress::Forks(class, child)) => {
                    *left = rest;
                    return Ok(Some((class, child)));
                }
                Ok(Progress::Value(_)) => unreachable!(),
                Err(refused) => {
                    *left = rest + 1;
                    return Err(refused);
                }
            }
        }
        self.settle(begins);
        *left = 0;
        Ok(None)
    }

    #[inline(always)]
    fn beginning(&self) -> Option<&'p Expr>
        ensures current { current_in result self.now ≡ self.now }
        ensures left_over { result ≡ None → pending_of self.now.control ≡ None → IsLeftOver self.now.control }
    {
        match self.control {
            Control::Begin(expr) => Some(expr),
            _ => None,
        }
    }

    #[inline(always)]
    fn settle(&mut self, begins: Option<&'p Expr>)
        ensures { self.new ≡ current_in begins.entry self.old }
    {
        if let Some(expr) = begins {
            self.control = Control::Begin(expr);
        }
    }

    /// Makes at least one step, and subtracts the number of steps after the first from `left`.
    ///
    /// If `begins` is `None`, begins a part of a sweep (a parallel reduction), or uses a value that an earlier step has
    /// kept. A value that the step yields goes to the newest stack frame.
    #[inline(always)]
    fn make<P: Placing>(
        &mut self,
        begins: Option<&'p Expr>,
        left: &mut u32,
        spares: &mut Spares<'p>,
        places: &mut P,
    ) -> Result<Progress<'p>, AllocError>
        requires left_over { begins ≡ None → IsLeftOver self.old.control }
        requires sound { IsSoundState (current_in begins self.old) }
        ensures ok { IfOk result (λ progress. Comes (P.gives_all ≡ true) left.old left.new (current_in begins.entry self.old) progress self.new) }
        ensures handed { IfOk result (λ progress. OnValue progress ⊥) }
        ensures fewer { left.new ≤ left.old }
        ensures err { OnErr result (RunsOn (P.gives_all ≡ true) left.old left.new 0 (current_in begins.entry self.old) self.new) }
    {
        match self.begin_next(begins, left, spares, places) {
            Ok(Progress::Value(value)) => self.give(value, left, places),
            Ok(progress) => Ok(progress),
            Err(refused) => {
                self.settle(begins);
                Err(refused)
            }
        }
    }

    #[inline(always)]
    fn begin_next<P: Placing>(
        &mut self,
        begins: Option<&'p Expr>,
        left: &mut u32,
        spares: &mut Spares<'p>,
        places: &mut P,
    ) -> Result<Progress<'p>, AllocError>
        requires left_over { begins ≡ None → IsLeftOver self.old.control }
        requires sound { IsSoundState (current_in begins self.old) }
        ensures ok { IfOk result (λ progress. Comes (P.gives_all ≡ true) left.old left.new (current_in begins.entry self.old) progress self.new) }
        ensures fewer { left.new ≤ left.old }
        ensures err { OnErr result (IsSame self.old self.new) }
        ensures uncharged { OnErr result (left.new ≡ left.old) }
    {
        match begins {
            Some(expr) => self.begin(expr, left, spares, places),
            None => self.resume(left, spares, places),
        }
    }

    #[inline(always)]
    fn resume<P: Placing>(
        &mut self,
        left: &mut u32,
        spares: &mut Spares<'p>,
        places: &mut P,
    ) -> Result<Progress<'p>, AllocError>
        requires left_over { IsLeftOver self.old.control }
        requires sound { IsSoundState self.old }
        ensures ok { IfOk result (λ progress. Comes (P.gives_all ≡ true) left.old left.new self.old progress self.new) }
        ensures fewer { left.new ≤ left.old }
        ensures err { OnErr result (IsSame self.old self.new) }
        ensures uncharged { OnErr result (left.new ≡ left.old) }
    {
        match self.control {
            Control::Give(value) => Ok(Progress::Value(value)),
            Control::Cover(stretch) => self.cover(stretch, left, spares, places),
            _ => unreachable!(),
        }
    }

    /// Returns the request at which the innermost thread (the one that runs) has paused, or `Ended`. Returns `None` if
    /// the thread can make a step.
    pub fn pending(&self) -> Option<Pending>
        ensures { result ≡ pending_of self.now.control }
    {
        match self.control {
            Control::Begin(_) | Control::Give(_) | Control::Cover(_) => None,
            Control::Forked(_) | Control::Halved(_) => Some(Pending::Forks),
            Control::Awaits { .. } | Control::AwaitsHalf { .. } => Some(Pending::Joins),
            Control::Asks { lock, .. } => Some(Pending::Asks(lock)),
            Control::Frees { lock, .. } => Some(Pending::Frees(lock)),
            Control::Tallies { ledger, amount, .. } => Some(Pending::Tallies(ledger, amount)),
            Control::Ended(_) => Some(Pending::Ended),
        }
    }

    /// Returns the name of the innermost thread.
    #[inline(always)]
    pub fn running_name(&self) -> &Name
        requires { HasLine self.now }
        ensures { result.now ≡ (top self.now).own.name }
    {
        if self.parents.is_empty() {
            return &self.own.name;
        }
        self.lines.at(self.level.place).name()
    }

    /// Returns the tag (number in the run) of the innermost thread (the one that runs).
    pub fn running_tag(&self) -> u64
        requires { HasLine self.now }
        ensures { result ≡ (top self.now).own.label.tag }
    {
        if self.parents.is_empty() {
            return self.own.label.tag;
        }
        self.lines.at(self.level.place).tag()
    }

    /// Moves the result of an ended thread into `contents`. This state gets the old lists of `contents`, so that the
    /// next thread reuses their memory.
    #[inline(always)]
    pub fn finish(&mut self, contents: &mut Contents)
        requires ended { pending_of self.old.control ≡ Some pause.Ended }
        requires alone { self.old.parents.items ≡ [] }
        requires sound { IsSoundState self.old }
        ensures sums { contents.new.sums.items ≡ self.old.sums.items }
        ensures own { contents.new.own ≡ own_line self.old.own }
        ensures below { contents.new.below ≡ self.old.lines }
        ensures of_its_name { IsOfItsName (finished self.old.program.now contents.new) }
    {
        contents.value = self.value();
        contents.own = self.own.take_line(self.alloc);
        swap(&mut contents.sums, &mut self.sums);
        swap(&mut contents.below, &mut self.lines);
    }

    fn value(&self) -> u64
        requires { pending_of self.now.control ≡ Some pause.Ended }
        ensures { self.now.control ≡ control.Ended result }
    {
        let Control::Ended(value) = self.control else {
            unreachable!()
        };
        value
    }
}
