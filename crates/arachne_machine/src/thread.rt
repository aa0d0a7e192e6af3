//! A thread of a task program, which its caller runs step by step.
ghost use Rattle.std.specs.Prelude.{◌≡◌, ◌≢◌, ◌↔◌, ◌≤◌, ◌+◌, ◌-◌, ℕ, ◌∷◌, [], ◌++◌, true, false, Err, None, Some, IfOk, IfSome, OnOk, IfErr, OnErr, IsTrue};
ghost use Rattle.arachne_program.specs.Effects.{tabulated};
ghost use Rattle.arachne_machine.specs.Suspended.{IsAnswered, IsAsk, IsFree, IsFresh, IsNext, IsTally, Joined, SameThread, added, awaited, own_line_of, raised};
ghost use Rattle.arachne_machine.specs.Advance.{AdvancedAlone, AwaitsAt, Moves, PlacesNone, RefusedAlone, IsForeign, IsCharged, IsNotAwaited, IsSpentAt, PausesAt, child_back, handed_back, pause_seen};
ghost use Rattle.arachne_machine.specs.Nested.{AwaitsElsewhere, FallsBy, IsAlone, IsChildOf, IsNested, IsPlacing, IsRest, MayBePlaced, Nested, PlacesAtFork, SameWhole, alone, begun_in, pending_in, spilled_of, whole, with_tag, work_in};
ghost use Rattle.arachne_machine.specs.Tallying.{AdvancesOver, GainsAt, IsAdvance, IsRefusedAdvance, IsTallied, RefusedOver};
ghost use Rattle.arachne_machine.specs.Faultless.{PausesWithin};
ghost use Rattle.arachne_machine.specs.Kept.{IsSoundChild, nested};
ghost use Rattle.arachne_machine.specs.Outcome.{IsOfItsName, finished};
ghost use Rattle.arachne_machine.specs.Trace.{At, trace_of};
ghost use Rattle.arachne_machine.specs.Work.{work_of};
ghost use Rattle.arachne_program.specs.Checked.{IsChecked};
ghost use Rattle.arachne_program.specs.Program.{source_of};
ghost use Rattle.arachne_machine.specs.declared.pause.Pending.TheVariants as pause;
ghost use Rattle.arachne_machine.specs.declared.join.Unjoined.TheVariants as unjoined;

use crate::contents::Contents;
use crate::detached::DetachedOutcome;
use crate::frame::Control;
use crate::join::Unjoined;
use crate::line::Ran;
use crate::outcome::Outcome;
use crate::pause::{NotJoined, NotPlaced, Pause, Pending};
use crate::placed::Unplaced;
use crate::placing::{Everywhere, Placing, Tallying};
use crate::spares::Spares;
use crate::state::State;
use arachne_program::{Class, Name, Program};
use std::alloc::{AllocError, Global};
use std::marker::Model;
use std::snapshot::Snapshot;

/// A paused thread of a program, together with the children that run inside its slot while it waits for them.
///
/// A thread is not `Clone`, since each thread must run only once.
#[derive(Drop)]
pub struct Thread<'p> {
    state: Box<State<'p>>,
    placed: Vec<Box<State<'p>>>,
}

impl<'p> Model for Thread<'p> {
    ghost use Rattle.arachne_machine.specs.Nested.{Nested};
    ghost use Rattle.arachne_machine.specs.Kept.{IsKept, nested};

    ghost Value = { Nested };

    ghost use Rattle.std.specs.Coded.{codes};
    ghost use Rattle.arachne_program.specs.contracts.program.Expr as expr;

    ghost coded = { Prim.hlevel (codes, expr.the_row.coded) };

    ghost view = { λ t. nested t.state.value t.placed.items };

    ghost invariant = { λ t. IsKept t.state.value t.placed.items };
}

impl<'p> Thread<'p> {
    /// Creates the root thread of a program. `tag` is the thread's number in the run.
    pub fn start(alloc: Global, program: &'p Program, tag: u64) -> Result<Thread<'p>, AllocError>
        ensures alone { IfOk result IsAlone }
        ensures fresh { IfOk result (λ thread. IsFresh program.now [] tag thread.running) }
        ensures sums { IfOk result (λ thread. thread.sums ≡ tabulated program.now.ledgers (λ ledger. 0)) }
        ensures work { IfOk result (λ thread. work_in thread ≡ work_of (source_of program.now).arrays (source_of program.now).root []) }
        ensures trace { IfOk result (λ thread. thread.running.trace ≡ trace_of (source_of program.now).arrays (source_of program.now).root [] ++ At pause.Ended ∷ []) }
    {
        let root = Name::root(alloc);
        let begins = Control::Begin(&program.root);
        let mut spares = Spares::none(alloc);
        let state = State::new(alloc, program, root, tag, begins, &[], &mut spares)?;
        Ok(thread_of(state))
    }

    /// Returns the tag (number in the run) of this thread, not of a child that runs inside its slot.
    pub fn tag(&self) -> u64
        ensures { result ≡ (whole self.now).label.tag }
    {
        self.state.own.label.tag
    }

    /// Returns the name of this thread, not of a child that runs inside its slot.
    pub fn name(&self) -> &Name
        ensures { result.now ≡ (whole self.now).name }
    {
        &self.state.own.name
    }

    pub fn program(&self) -> &'p Program
        ensures { result.now ≡ (whole self.now).program }
    {
        self.state.program
    }

    /// Returns the tag (number in the run) of the thread that makes the next step: this thread, or a child inside its
    /// slot. If the thread has paused, this is the thread whose request must be fulfilled.
    pub fn running_tag(&self) -> u64
        ensures { result ≡ self.now.running.label.tag }
    {
        self.state.running_tag()
    }

    /// Sets this thread's number in the run. Must not be called while a child runs inside the thread's slot.
    pub fn set_tag(&mut self, tag: u64)
        requires { self.old.parents ≡ [] }
        ensures tagged { self.new ≡ record self.old { running = with_tag tag self.old.running } }
        ensures whole { whole self.new ≡ with_tag tag (whole self.old) }
        ensures child { (t : Nested) → IsChildOf t self.old → IsChildOf t self.new }
    {
        self.state.own.label.tag = tag;
    }

    /// Records, for the report, that this thread had to wait for its slot. Must not be called while a child runs inside
    /// that slot.
    pub fn set_spilled(&mut self)
        requires { self.old.parents ≡ [] }
        ensures spilled { self.new ≡ record self.old { running = spilled_of self.old.running } }
        ensures whole { whole self.new ≡ spilled_of (whole self.old) }
    {
        self.state.own.label.ran = Ran::Spill;
    }

    /// Returns the request at which this thread, or a child that runs inside its slot, has paused. Returns `None` if
    /// that thread can make a step.
    pub fn pending(&self) -> Option<Pending>
        ensures pending { result ≡ pending_in self.now }
        ensures next { IsNext self.now.running.pending self.now.running.trace }
        ensures within { IsChecked (source_of (whole self.now).program) → PausesWithin self.now.running }
        ensures nested { IsNested self.now }
    {
        self.state.pending()
    }

    /// Runs the thread until it pauses or has made `budget` steps. Evaluating one node of an expression is a step. The
    /// thread pauses at each fork.
    ///
    /// If memory is refused, the thread is as it was before the refused step, and the caller may call this again.
    pub fn advance(&mut self, budget: u32) -> Result<Pause<'p>, AllocError>
        requires not_paused { pending_in self.old ≡ None }
        requires some { 1 ≤ budget }
        ensures ok { IfOk result (λ pause. Moves budget self.old pause self.new) }
        ensures elsewhere { IfOk result (λ pause. AwaitsAt pause self.new) }
        ensures within { IfOk result (λ pause. IsChecked (source_of (whole self.old).program) → PausesAt pause self.new.running) }
        ensures alone { IfOk result (λ pause. IsAlone self.old → AdvancedAlone budget self.old pause self.new) }
        ensures rest { IsRest self.old.placed self.new.placed }
        ensures err_same { OnErr result (SameWhole self.old self.new) }
        ensures err_work { OnErr result (FallsBy 0 (budget - 1) (work_in self.old) (work_in self.new)) }
        ensures err_pending { OnErr result (pending_in self.new ≡ None) }
        ensures err_alone { OnErr result (IsAlone self.old → RefusedAlone budget self.old self.new) }
    {
        let mut left = budget;
        let mut spares = Spares::none(self.state.alloc);
        self.advance_within(&mut left, &mut spares, &mut Everywhere)
    }

    /// Runs the thread until it pauses or has made `left` steps. Subtracts the steps that it makes from `left`, which
    /// is 0 after the pause `Budget`. Before any other pause, the thread makes at least one step.
    ///
    /// `places` decides at each fork if the child gets a slot of its own. A child with a slot of its own reuses memory
    /// of `spares`. For any other child, the thread doesn't pause, and the child runs inside this thread's slot later.
    /// If memory is refused, the thread is as it was before the refused step, and the caller may call this again.
    pub fn advance_within<P: Placing>(
        &mut self,
        left: &mut u32,
        spares: &mut Spares<'p>,
        places: &mut P,
    ) -> Result<Pause<'p>, AllocError>
        requires not_paused { pending_in self.old ≡ None }
        requires some { 1 ≤ left.old }
        ensures ok { IfOk result (λ pause. Moves left.old self.old pause self.new) }
        ensures spent { IfOk result (λ pause. IsSpentAt pause left.old left.new) }
        ensures charged { IfOk result (λ pause. IsCharged left.old left.new self.old pause self.new) }
        ensures elsewhere { IfOk result (λ pause. AwaitsAt pause self.new) }
        ensures within { IfOk result (λ pause. IsChecked (source_of (whole self.old).program) → PausesAt pause self.new.running) }
        ensures alone { IfOk result (λ pause. IsAlone self.old → PlacesNone self.old pause self.new → AdvancedAlone left.old self.old pause self.new) }
        ensures rest { IsRest self.old.placed self.new.placed }
        ensures sums { OnOk result (self.old.placed ≡ [] → self.new.sums ≡ self.old.sums) }
        ensures everywhere { P.gives_all ≡ true → IfOk result (λ pause. IsAlone self.old → PlacesNone self.old pause self.new) }
        ensures err_same { OnErr result (SameWhole self.old self.new) }
        ensures err_work { OnErr result (FallsBy 0 (left.old - 1) (work_in self.old) (work_in self.new)) }
        ensures err_charged { OnErr result (work_in self.new + left.old ≡ work_in self.old + left.new) }
        ensures err_pending { OnErr result (pending_in self.new ≡ None) }
        ensures err_alone { OnErr result (IsAlone self.old → (whole self.new).forks ≡ (whole self.old).forks → RefusedAlone left.old self.old self.new) }
        ensures err_everywhere { P.gives_all ≡ true → OnErr result (IsAlone self.old → (whole self.new).forks ≡ (whole self.old).forks) }
    {
        let forked = self.stop(left, spares, places)?;
        Ok(pause_of(forked, self.pending()))
    }

    /// Works like `advance_within`, but without a pause for additions to ledgers that `due` collects.
    pub fn advance_tallying<P: Placing, D: Tallying>(
        &mut self,
        left: &mut u32,
        spares: &mut Spares<'p>,
        places: &mut P,
        due: &mut D,
    ) -> Result<Pause<'p>, AllocError>
        requires not_paused { pending_in self.old ≡ None }
        requires some { 1 ≤ left.old }
        ensures over { IfOk result (λ pause. AdvancesOver left.old left.new self.old pause self.new (D.due_to due.old) (D.due_to due.new)) }
        ensures ok { IfOk result (λ pause. Moves left.old self.old pause self.new) }
        ensures spent { IfOk result (λ pause. IsSpentAt pause left.old left.new) }
        ensures charged { IfOk result (λ pause. IsCharged left.old left.new self.old pause self.new) }
        ensures elsewhere { IfOk result (λ pause. AwaitsAt pause self.new) }
        ensures within { IfOk result (λ pause. IsChecked (source_of (whole self.old).program) → PausesAt pause self.new.running) }
        ensures err_over { OnErr result (RefusedOver left.old left.new self.old self.new (D.due_to due.old) (D.due_to due.new)) }
        ensures err_same { OnErr result (SameWhole self.old self.new) }
        ensures err_charged { OnErr result (work_in self.new + left.old ≡ work_in self.old + left.new) }
        ensures err_pending { OnErr result (pending_in self.new ≡ None) }
    {
        while *left > 0 {
            if let Some(forked) = self.stop(left, spares, places)? {
                return Ok(pause_of(Some(forked), None));
            }
            if !self.tally(due) {
                return Ok(pause_of(None, self.pending()));
            }
        }
        Ok(Pause::Budget)
    }

    /// Returns true if the thread has paused to add to a ledger, and was resumed since `due` collects the amount.
    #[inline(always)]
    fn tally<D: Tallying>(&mut self, due: &mut D) -> bool
        ensures made { result ≡ true → (ledger amount : ℕ) × IsTallied ledger amount self.old self.new × GainsAt (D.due_to due.old) ledger amount (D.due_to due.new) }
        ensures none { result ≡ false → (self.new ≡ self.old) × (due.new ≡ due.old) }
    {
        let Control::Tallies { ledger, amount, .. } = self.state.control else {
            return false;
        };
        if !due.take(ledger, amount) {
            return false;
        }
        self.tallied();
        true
    }

    #[inline(always)]
    fn stop<P: Placing>(
        &mut self,
        left: &mut u32,
        spares: &mut Spares<'p>,
        places: &mut P,
    ) -> Result<Option<(Class, Box<State<'p>>)>, AllocError>
        requires not_paused { pending_in self.old ≡ None }
        requires some { 1 ≤ left.old }
        ensures child { IfOk result (λ forked. IfSome forked (λ f. IsSoundChild f.1.value)) }
        ensures advance { IfOk result (λ forked. IsAdvance left.old left.new self.old (pause_seen forked (pending_in self.new)) self.new) }
        ensures everywhere { P.gives_all ≡ true → IfOk result (λ forked. IsAlone self.old → PlacesNone self.old (pause_seen forked (pending_in self.new)) self.new) }
        ensures err { OnErr result (IsRefusedAdvance left.old left.new self.old self.new) }
        ensures err_everywhere { P.gives_all ≡ true → OnErr result (IsAlone self.old → (whole self.new).forks ≡ (whole self.old).forks) }
    {
        let forked = self
            .state
            .advance_with(&mut self.placed, left, spares, places)?;
        Ok(forked)
    }

    /// Resumes a thread that paused at a fork. The caller must have taken the child. Allocates no memory.
    pub fn forked(&mut self)
        requires { pending_in self.old ≡ Some pause.Forks }
        ensures whole { SameWhole self.old self.new }
        ensures same { SameThread self.old.running self.new.running }
        ensures holds { self.new.running.holds ≡ self.old.running.holds }
        ensures locks { self.new.running.locks ≡ self.old.running.locks }
        ensures others { self.new ≡ record self.old { running = self.new.running } }
        ensures pending { pending_in self.new ≡ None }
        ensures work { work_in self.new ≡ work_in self.old }
        ensures trace { IsAnswered self.old.running self.new.running }
    {
        self.state.forked();
    }

    /// Runs a child inside this thread's slot, as a function call would.
    ///
    /// If this thread has paused at a fork, `child` must be the forked child, which begins when this thread waits for
    /// it. If this thread waits to join a child, `child` must be that child, which runs at once. After an error nothing
    /// has changed, and the error has the child.
    pub fn in_place(&mut self, child: Thread<'p>) -> Result<(), NotPlaced<'p>>
        requires pending { IsPlacing (pending_in self.old) }
        requires child { MayBePlaced self.old child }
        requires forked { pending_in self.old ≡ Some pause.Forks → awaited self.old.running ≡ Some (whole child).name }
        ensures whole { SameWhole self.old self.new }
        ensures at_fork { pending_in self.old ≡ Some pause.Forks → OnOk result (PlacesAtFork self.old child.entry self.new) }
        ensures at_join { pending_in self.old ≡ Some pause.Joins → OnOk result (self.new ≡ begun_in self.old child.entry) }
        ensures pending { OnOk result (pending_in self.new ≡ None) }
        ensures work { OnOk result (work_in self.new ≡ work_in self.old + work_in child.entry) }
        ensures foreign { IsNotAwaited result ↔ (awaited self.old.running ≢ Some (whole child.entry).name) }
        ensures err { OnErr result (self.new ≡ self.old) }
        ensures handed_back { IfErr result (λ e. child_back e ≡ child.entry) }
    {
        let Thread { state, mut placed } = child;
        match self.state.place(&mut self.placed, state, &mut placed) {
            Ok(()) => Ok(()),
            Err(Unplaced::Foreign(state)) => Err(NotPlaced::Foreign(Thread { state, placed })),
            Err(Unplaced::Memory(state)) => Err(NotPlaced::Memory(Thread { state, placed })),
        }
    }

    /// Resumes a thread that paused to ask for a lock. The thread must hold the lock now. Allocates no memory.
    pub fn granted(&mut self)
        requires { IsAsk (pending_in self.old) }
        ensures whole { SameWhole self.old self.new }
        ensures same { SameThread self.old.running self.new.running }
        ensures holds { (lock : ℕ) × (pending_in self.old ≡ Some (pause.Asks lock)) × (self.new.running.holds ≡ raised self.old.running.holds lock 1) }
        ensures locks { self.new.running.locks ≡ self.old.running.locks }
        ensures others { self.new ≡ record self.old { running = self.new.running } }
        ensures pending { pending_in self.new ≡ None }
        ensures work { work_in self.new ≡ work_in self.old }
        ensures trace { IsAnswered self.old.running self.new.running }
    {
        self.state.granted();
    }

    /// Resumes a thread that paused to release a lock, which must now be free. Allocates no memory.
    pub fn freed(&mut self)
        requires { IsFree (pending_in self.old) }
        ensures whole { SameWhole self.old self.new }
        ensures same { SameThread self.old.running self.new.running }
        ensures holds { self.new.running.holds ≡ self.old.running.holds }
        ensures locks { (lock : ℕ) × (pending_in self.old ≡ Some (pause.Frees lock)) × (self.old.running.locks ≡ lock ∷ self.new.running.locks) }
        ensures others { self.new ≡ record self.old { running = self.new.running } }
        ensures pending { pending_in self.new ≡ None }
        ensures work { work_in self.new ≡ work_in self.old }
        ensures trace { IsAnswered self.old.running self.new.running }
    {
        self.state.freed();
    }

    /// Resumes a thread that paused to add to a ledger, after the caller has added the amount. Allocates no memory.
    pub fn tallied(&mut self)
        requires { IsTally (pending_in self.old) }
        ensures whole { SameWhole self.old self.new }
        ensures same { SameThread self.old.running self.new.running }
        ensures sums { (ledger amount : ℕ) × (pending_in self.old ≡ Some (pause.Tallies ledger amount)) × (self.new.sums ≡ raised self.old.sums ledger amount) }
        ensures holds { self.new.running.holds ≡ self.old.running.holds }
        ensures locks { self.new.running.locks ≡ self.old.running.locks }
        ensures others { self.new ≡ record self.old { running = self.new.running; sums = self.new.sums } }
        ensures pending { pending_in self.new ≡ None }
        ensures work { work_in self.new ≡ work_in self.old }
        ensures trace { IsAnswered self.old.running self.new.running }
    {
        self.state.tallied();
    }

    /// Joins the child that this thread waits for and that has the outcome `outcome`, and resumes the thread. After an
    /// error nothing has changed, and the error has the outcome.
    pub fn joined(&mut self, outcome: Outcome<'p>) -> Result<(), NotJoined<Outcome<'p>>>
        requires pending { pending_in self.old ≡ Some pause.Joins }
        requires program { source_of outcome.program ≡ source_of (whole self.old).program }
        ensures whole { SameWhole self.old self.new }
        ensures ok { OnOk result (Joined self.old.running outcome.entry self.new.running) }
        ensures sums { OnOk result (self.new.sums ≡ added self.old.sums outcome.entry.sums) }
        ensures others { self.new ≡ record self.old { running = self.new.running; sums = self.new.sums } }
        ensures pending { OnOk result (pending_in self.new ≡ None) }
        ensures work { work_in self.new ≡ work_in self.old }
        ensures foreign { IsForeign result ↔ (awaited self.old.running ≢ Some outcome.entry.name) }
        ensures err { OnErr result (self.new ≡ self.old) }
        ensures handed_back { IfErr result (λ e. handed_back e ≡ outcome.entry) }
    {
        let Outcome { program, contents } = outcome;
        let mut contents = contents;
        match self.join(&Snapshot::of(program), &mut contents) {
            Ok(()) => Ok(()),
            Err(Unjoined::Foreign) => Err(NotJoined::Foreign(Outcome { program, contents })),
            Err(Unjoined::Memory) => Err(NotJoined::Memory(Outcome { program, contents })),
        }
    }

    /// Joins like `joined`, but takes the outcome in a box, which `spares` keeps for a later outcome.
    pub fn joined_into(
        &mut self,
        outcome: DetachedOutcome,
        spares: &mut Spares<'p>,
    ) -> Result<(), NotJoined<DetachedOutcome>>
        requires pending { pending_in self.old ≡ Some pause.Joins }
        requires program { source_of outcome.program ≡ source_of (whole self.old).program }
        ensures whole { SameWhole self.old self.new }
        ensures ok { OnOk result (Joined self.old.running outcome self.new.running) }
        ensures sums { OnOk result (self.new.sums ≡ added self.old.sums outcome.sums) }
        ensures others { self.new ≡ record self.old { running = self.new.running; sums = self.new.sums } }
        ensures pending { OnOk result (pending_in self.new ≡ None) }
        ensures work { work_in self.new ≡ work_in self.old }
        ensures foreign { IsForeign result ↔ (awaited self.old.running ≢ Some outcome.name) }
        ensures err { OnErr result (self.new ≡ self.old) }
        ensures handed_back { IfErr result (λ e. handed_back e ≡ outcome) }
    {
        let DetachedOutcome { program, contents } = outcome;
        let mut contents = contents;
        match self.join(&program, &mut contents) {
            Ok(()) => {
                spares.keep_contents(contents);
                Ok(())
            }
            Err(Unjoined::Foreign) => Err(NotJoined::Foreign(DetachedOutcome {
                program,
                contents,
            })),
            Err(Unjoined::Memory) => Err(NotJoined::Memory(DetachedOutcome { program, contents })),
        }
    }

    #[inline(always)]
    fn join(&mut self, program: &Snapshot<Program>, contents: &mut Contents) -> Result<(), Unjoined>
        requires pending { pending_in self.old ≡ Some pause.Joins }
        requires program { source_of program.now.value ≡ source_of (whole self.old).program }
        requires of_its_name { IsOfItsName (finished program.now.value contents.old) }
        ensures whole { SameWhole self.old self.new }
        ensures ok { OnOk result (Joined self.old.running (finished program.now.value contents.old) self.new.running) }
        ensures sums { OnOk result (self.new.sums ≡ added self.old.sums contents.old.sums.items) }
        ensures others { self.new ≡ record self.old { running = self.new.running; sums = self.new.sums } }
        ensures pending { OnOk result (pending_in self.new ≡ None) }
        ensures work { work_in self.new ≡ work_in self.old }
        ensures foreign { (result ≡ Err unjoined.Foreign) ↔ (awaited self.old.running ≢ Some contents.old.own.name) }
        ensures err { OnErr result (self.new ≡ self.old) }
        ensures left { OnErr result (contents.new ≡ contents.old) }
    {
        // Used only by the proof; a `Snapshot` has size 0.
        let _ = program;
        self.state.join(contents)
    }

    /// Returns the outcome of a thread that has ended. Allocates no memory.
    pub fn finish(self) -> Outcome<'p>
        requires { pending_in self ≡ Some pause.Ended }
        ensures program { result.program ≡ (whole self.entry).program }
        ensures name { result.name ≡ (whole self.entry).name }
        ensures sums { result.sums ≡ self.entry.sums }
        ensures lines { result.lines ≡ own_line_of (whole self.entry) ∷ (whole self.entry).below }
    {
        let mut state = self.state;
        let program = state.program;
        let mut parts = Contents::vacant(state.alloc);
        state.finish(&mut parts);
        Outcome {
            program,
            contents: parts,
        }
    }

    /// Returns the outcome of a thread that has ended, in the box `contents`. `spares` keeps the thread's other memory.
    pub fn finish_into(self, contents: Box<Contents>, spares: &mut Spares<'p>) -> DetachedOutcome
        requires { pending_in self ≡ Some pause.Ended }
        ensures program { result.program ≡ (whole self.entry).program }
        ensures name { result.name ≡ (whole self.entry).name }
        ensures sums { result.sums ≡ self.entry.sums }
        ensures lines { result.lines ≡ own_line_of (whole self.entry) ∷ (whole self.entry).below }
    {
        let mut state = self.state;
        let mut contents = contents;
        let program = Snapshot::of(state.program);
        state.finish(&mut contents);
        spares.keep(state);
        DetachedOutcome { program, contents }
    }
}

fn thread_of<'p>(state: Box<State<'p>>) -> Thread<'p>
    requires { IsSoundChild state.value }
    ensures { result ≡ nested state.entry.value [] }
{
    let alloc = state.alloc;
    Thread {
        state,
        placed: Vec::new(alloc),
    }
}

#[inline(always)]
fn pause_of<'p>(forked: Option<(Class, Box<State<'p>>)>, pending: Option<Pending>) -> Pause<'p>
    requires { IfSome forked (λ f. IsSoundChild f.1.value) }
    ensures { result ≡ pause_seen forked.entry pending }
{
    if let Some((class, child)) = forked {
        return Pause::Forks(class, thread_of(child));
    }
    match pending {
        None | Some(Pending::Forks) => Pause::Budget,
        Some(Pending::Joins) => Pause::Joins,
        Some(Pending::Asks(lock)) => Pause::Asks(lock),
        Some(Pending::Frees(lock)) => Pause::Frees(lock),
        Some(Pending::Tallies(ledger, amount)) => Pause::Tallies(ledger, amount),
        Some(Pending::Ended) => Pause::Ended,
    }
}
