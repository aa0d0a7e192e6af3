//! Passes values to stack frames.
use crate::frame::{Control, Frame, Stretch};
use crate::lookup::item_in;
use crate::placing::Placing;
use crate::state::{Progress, State};
use arachne_program::Expr;
use std::alloc::AllocError;

impl<'p> State<'p> {
    ghost use Rattle.std.specs.Prelude.{true, ◌≡◌, ◌+◌, ◌<◌, ◌≤◌, ◌++◌, ◌∷◌, [], length, slice_index, vec_len, vec_capacity, IfOk, IsErr, OnOk, OnErr};
    ghost use Rattle.arachne_program.specs.Program.{source_of};
    ghost use Rattle.arachne_program.specs.Value.{array_at, with_newest};
    ghost use Rattle.arachne_machine.specs.declared.state.State.{State as Whole};
    ghost use Rattle.arachne_machine.specs.declared.frame.Frame.TheVariants as frames;
    ghost use Rattle.arachne_machine.specs.declared.frame.Control.TheVariants as control;
    ghost use Rattle.arachne_machine.specs.Ending.{without_newest};
    ghost use Rattle.arachne_machine.specs.Strands.{Strand};
    ghost use Rattle.arachne_machine.specs.Sound.{IsSoundState};
    ghost use Rattle.arachne_machine.specs.Steps.{Changes, HasLine, HasRoom, OnStops, IsPauseOrRange, IsOfRange, IsPopped, IsSame, IsWithin, LeavesOthers, OnValue, Pushes, Reaches, Turns, giving, top};
    ghost use Rattle.arachne_machine.specs.Runs.{Comes, FoldsOn, HandsResult, IsOneStep, IsPoppedIn, RunsOn, SweepsOn, giving_in, seen_in};
    ghost use Rattle.arachne_machine.specs.declared.state.Progress.TheVariants as ways;

    /// Passes `value` to the newest stack frame, the result to the next frame, and so on, until a frame needs a further
    /// step or no frame is left.
    ///
    /// If that ends a child that runs inside its parent's slot, the parent joins the child and resumes. If memory is
    /// refused, the thread keeps the value, and a later step passes it on.
    #[inline(always)]
    pub fn give<P: Placing>(
        &mut self,
        mut value: u64,
        left: &mut u32,
        places: &mut P,
    ) -> Result<Progress<'p>, AllocError>
        requires sound { IsSoundState (giving_in self.old value) }
        ensures ok { IfOk result (λ progress. Comes (P.gives_all ≡ true) left.old left.new (giving_in self.old value) progress self.new) }
        ensures handed { IfOk result (λ progress. OnValue progress ⊥) }
        ensures fewer { left.new ≤ left.old }
        ensures err { OnErr result (RunsOn (P.gives_all ≡ true) left.old left.new 0 (giving_in self.old value) self.new) }
    {
        if self.environment.try_reserve(2).is_err() {
            return self.refused(value);
        }
        loop {
            match self.hand_newest(value, left, places)? {
                Progress::Value(next) => value = next,
                progress => return Ok(progress),
            }
        }
    }

    /// Passes `value` to the newest frame, or ends a thread without frames.
    ///
    /// If the thread ran inside its parent's slot, the parent joins it and resumes.
    #[inline(always)]
    fn hand_newest<P: Placing>(
        &mut self,
        value: u64,
        left: &mut u32,
        places: &mut P,
    ) -> Result<Progress<'p>, AllocError>
        requires sound { IsSoundState (giving_in self.old value) }
        requires environment { vec_len self.old.environment + 2 ≤ vec_capacity self.old.environment }
        ensures ok { IfOk result (λ progress. Comes (P.gives_all ≡ true) left.old left.new (giving_in self.old value) progress self.new) }
        ensures fewer { left.new ≤ left.old }
        ensures room { IfOk result (λ progress. OnValue progress (vec_len self.new.environment + 2 ≤ vec_capacity self.new.environment)) }
        ensures nearer { IfOk result (λ progress. OnValue progress (vec_len self.new.frames + vec_len self.new.parents < vec_len self.old.frames + vec_len self.old.parents)) }
        ensures err { OnErr result (IsSame (giving_in self.old value) self.new) }
        ensures uncharged { OnErr result (left.new ≡ left.old) }
    {
        if self.frames.len() > self.level.start {
            let Some(frame) = self.frames.pop() else {
                unreachable!()
            };
            return self.hand(frame, value, left, places);
        }
        if self.parents.is_empty() {
            self.control = Control::Ended(value);
            return Ok(Progress::Stops);
        }
        self.join_here(value, left)
    }

    /// Keeps `value` for a later step, since memory was refused. Always returns this error.
    #[cold]
    #[inline(never)]
    pub fn refused(&mut self, value: u64) -> Result<Progress<'p>, AllocError>
        ensures turns { Turns self.old self.new (control.Give value) }
        ensures refused { IsErr result }
    {
        self.control = Control::Give(value);
        Err(AllocError)
    }

    /// Reserves room for two more variables and one more frame, the most that passing a value to a frame can add.
    pub fn reserve_turn(&mut self) -> Result<(), AllocError>
        ensures same { IsSame self.old self.new }
        ensures environment { OnOk result (vec_len self.new.environment + 2 ≤ vec_capacity self.new.environment) }
        ensures frames { OnOk result (vec_len self.new.frames + 1 ≤ vec_capacity self.new.frames) }
    {
        self.environment.try_reserve(2)?;
        self.frames.try_reserve(1)
    }

    /// Passes `value` to `frame`, or pushes `frame` again if memory is refused.
    #[inline(always)]
    fn hand<P: Placing>(
        &mut self,
        frame: Frame<'p>,
        value: u64,
        left: &mut u32,
        places: &mut P,
    ) -> Result<Progress<'p>, AllocError>
        requires start { self.old.level.start ≤ length self.old.frames.items }
        requires line { HasLine self.old }
        requires environment { vec_len self.old.environment + 2 ≤ vec_capacity self.old.environment }
        requires frames { vec_len self.old.frames + 1 ≤ vec_capacity self.old.frames }
        ensures made { (before : Whole) → IsPoppedIn frame.entry before (giving_in self.old value) → IsSoundState before → IfOk result (λ progress. Comes (P.gives_all ≡ true) left.old left.new before progress self.new) }
        ensures fewer { left.new ≤ left.old }
        ensures room { IfOk result (λ progress. OnValue progress (vec_len self.new.environment + 2 ≤ vec_capacity self.new.environment)) }
        ensures frames { IfOk result (λ progress. OnValue progress (vec_len self.new.frames ≤ vec_len self.old.frames)) }
        ensures parents { IfOk result (λ progress. OnValue progress (vec_len self.new.parents ≤ vec_len self.old.parents)) }
        ensures err { OnErr result (Changes self.old self.new self.old.environment.items (self.old.frames.items ++ frame.entry ∷ []) (control.Give value)) }
        ensures uncharged { OnErr result (left.new ≡ left.old) }
    {
        match frame {
            Frame::JoinHere {
                number,
                child,
                after,
            } => {
                let awaits = Control::Awaits {
                    number,
                    during: value,
                    after,
                };
                if self.begin_here(number, awaits, places).is_err() {
                    self.stand_before(frame, value);
                    return Err(AllocError);
                }
                Ok(Progress::Begin(child))
            }
            Frame::MergeHere { number, left: half } => {
                let awaits = Control::AwaitsHalf {
                    number,
                    right: value,
                    reduction: half.reduction,
                };
                if self.begin_here(number, awaits, places).is_err() {
                    self.stand_before(frame, value);
                    return Err(AllocError);
                }
                self.control = Control::Cover(half);
                Ok(Progress::Goes)
            }
            _ => Ok(self.hand_within(frame, value, left)),
        }
    }

    #[cold]
    #[inline(never)]
    fn stand_before(&mut self, frame: Frame<'p>, value: u64)
        requires { vec_len self.old.frames + 1 ≤ vec_capacity self.old.frames }
        ensures { Changes self.old self.new self.old.environment.items (self.old.frames.items ++ frame.entry ∷ []) (control.Give value) }
    {
        self.frames.push_reserved(frame);
        self.control = Control::Give(value);
    }

    /// Passes `value` to a frame that doesn't begin a child.
    #[inline(always)]
    fn hand_within(&mut self, frame: Frame<'p>, value: u64, left: &mut u32) -> Progress<'p>
        requires within { IsWithin frame }
        requires start { self.old.level.start ≤ length self.old.frames.items }
        requires environment { vec_len self.old.environment + 2 ≤ vec_capacity self.old.environment }
        requires frames { vec_len self.old.frames + 1 ≤ vec_capacity self.old.frames }
        ensures made { (before : Strand) → IsPopped frame.entry before (giving (top self.old) value) → Reaches left.old left.new before result (top self.new) }
        ensures leaves { LeavesOthers self.old self.new }
        ensures stops { OnStops result (HasRoom self.new) }
        ensures fewer { left.new ≤ left.old }
        ensures room { OnValue result (vec_len self.new.environment + 2 ≤ vec_capacity self.new.environment) }
        ensures frames { OnValue result (vec_len self.new.frames ≤ vec_len self.old.frames) }
    {
        match frame {
            Frame::Index(array) => Progress::Value(item_in(self.program, array, value)),
            Frame::Apply(operation, first) => Progress::Value(operation.apply(first, value)),
            Frame::Restore(length) => {
                self.environment.truncate(length);
                Progress::Value(value)
            }
            Frame::Right(operation, right) => self.go_on(Frame::Apply(operation, value), right),
            Frame::Branch(first, second) => {
                let next = if value == 0 { second } else { first };
                Progress::Begin(next)
            }
            Frame::Extend(body) => self.extend(value, body),
            Frame::FoldTurn { next, end, body } => {
                self.drop_newest(2);
                self.turn_fold(next, end, body, value, left)
            }
            Frame::SweepTurn {
                reduction,
                next,
                end,
                so_far,
                body,
            } => {
                self.drop_newest(1);
                let value = reduction.operation().apply(so_far, value);
                self.turn_sweep(reduction, next, end, body, value, left)
            }
            _ => self.hand_on(frame, value, left),
        }
    }

    /// Passes `value` to a frame at which the thread pauses, or to one that `hand_to_range` accepts.
    #[inline(always)]
    fn hand_on(&mut self, frame: Frame<'p>, value: u64, left: &mut u32) -> Progress<'p>
        requires later { IsPauseOrRange frame }
        requires start { self.old.level.start ≤ length self.old.frames.items }
        requires environment { vec_len self.old.environment + 2 ≤ vec_capacity self.old.environment }
        requires frames { vec_len self.old.frames + 1 ≤ vec_capacity self.old.frames }
        ensures made { (before : Strand) → IsPopped frame.entry before (giving (top self.old) value) → Reaches left.old left.new before result (top self.new) }
        ensures leaves { LeavesOthers self.old self.new }
        ensures stops { OnStops result (HasRoom self.new) }
        ensures fewer { left.new ≤ left.old }
        ensures room { OnValue result (vec_len self.new.environment + 2 ≤ vec_capacity self.new.environment) }
        ensures frames { OnValue result (vec_len self.new.frames ≤ vec_len self.old.frames) }
    {
        match frame {
            Frame::Amount(ledger, body) => {
                self.control = Control::Tallies {
                    ledger,
                    amount: value,
                    body,
                };
                Progress::Stops
            }
            Frame::Release(lock) => {
                self.control = Control::Frees { lock, value };
                Progress::Stops
            }
            Frame::Join { number, after } => {
                self.control = Control::Awaits {
                    number,
                    during: value,
                    after,
                };
                Progress::Stops
            }
            Frame::Merge { number, reduction } => {
                self.control = Control::AwaitsHalf {
                    number,
                    right: value,
                    reduction,
                };
                Progress::Stops
            }
            _ => self.hand_to_range(frame, value, left),
        }
    }

    /// Passes `value` to a frame that waits for a loop's range or first value.
    #[inline(always)]
    fn hand_to_range(&mut self, frame: Frame<'p>, value: u64, left: &mut u32) -> Progress<'p>
        requires range { IsOfRange frame }
        requires start { self.old.level.start ≤ length self.old.frames.items }
        requires environment { vec_len self.old.environment + 2 ≤ vec_capacity self.old.environment }
        requires frames { vec_len self.old.frames + 1 ≤ vec_capacity self.old.frames }
        ensures made { (before : Strand) → IsPopped frame.entry before (giving (top self.old) value) → Reaches left.old left.new before result (top self.new) }
        ensures leaves { LeavesOthers self.old self.new }
        ensures stops { OnStops result (HasRoom self.new) }
        ensures fewer { left.new ≤ left.old }
        ensures room { OnValue result (vec_len self.new.environment + 2 ≤ vec_capacity self.new.environment) }
        ensures frames { OnValue result (vec_len self.new.frames ≤ vec_len self.old.frames) }
    {
        match frame {
            Frame::FoldTo(to, first, body) => self.go_on(Frame::FoldFirst(value, first, body), to),
            Frame::FoldFirst(from, first, body) => {
                self.go_on(Frame::FoldStart(from, value, body), first)
            }
            Frame::FoldStart(from, to, body) => self.turn_fold(from, to, body, value, left),
            Frame::SweepTo(reduction, grain, to, body) => {
                self.go_on(Frame::SweepStart(reduction, grain, value, body), to)
            }
            Frame::SweepStart(reduction, grain, first, body) => {
                self.control = Control::Cover(Stretch {
                    reduction,
                    grain,
                    first,
                    end: value,
                    body,
                });
                Progress::Goes
            }
            _ => unreachable!(),
        }
    }

    /// Pushes `frame`, and begins the expression `part`, for whose value the frame waits. Allocates nothing.
    #[inline(always)]
    pub fn go_on(&mut self, frame: Frame<'p>, part: &'p Expr) -> Progress<'p>
        requires { vec_len self.old.frames + 1 ≤ vec_capacity self.old.frames }
        ensures begins { result ≡ ways.Begin part.entry }
        ensures same { Pushes self.old self.new frame.entry }
    {
        self.frames.push_reserved(frame);
        Progress::Begin(part)
    }

    #[inline(always)]
    fn extend(&mut self, value: u64, body: &'p Expr) -> Progress<'p>
        requires environment { vec_len self.old.environment + 1 ≤ vec_capacity self.old.environment }
        requires frames { vec_len self.old.frames + 1 ≤ vec_capacity self.old.frames }
        ensures begins { result ≡ ways.Begin body.entry }
        ensures same { Changes self.old self.new (with_newest self.old.environment.items value)
            (self.old.frames.items ++ frames.Restore (length self.old.environment.items) ∷ []) self.old.control }
    {
        let length = self.environment.len();
        self.environment.push_reserved(value);
        self.frames.push_reserved(Frame::Restore(length));
        Progress::Begin(body)
    }

    /// Returns `value`, the result of a loop, if a step is left for this, and otherwise keeps it for a later step.
    #[inline(always)]
    pub fn hand_result(&mut self, value: u64, left: &mut u32) -> Progress<'p>
        ensures same { Changes self.old (seen_in result self.new) self.old.environment.items self.old.frames.items (control.Give value) }
        ensures step { IsOneStep left.old left.new result self.new }
        ensures hands { HandsResult self.old value left.old result left.new self.new }
        ensures fewer { left.new ≤ left.old }
        ensures room { OnValue result (self.new ≡ self.old) }
    {
        if *left == 0 {
            self.control = Control::Give(value);
            return Progress::Goes;
        }
        *left -= 1;
        Progress::Value(value)
    }

    #[inline(always)]
    fn drop_newest(&mut self, count: usize)
        requires environment { vec_len self.old.environment + 2 ≤ vec_capacity self.old.environment }
        requires frames { vec_len self.old.frames + 1 ≤ vec_capacity self.old.frames }
        ensures same { Changes self.old self.new (without_newest count self.old.environment.items) self.old.frames.items self.old.control }
        ensures environment { vec_len self.new.environment + 2 ≤ vec_capacity self.new.environment }
        ensures frames { vec_len self.new.frames + 1 ≤ vec_capacity self.new.frames }
    {
        let length = self.environment.len().saturating_sub(count);
        self.environment.truncate(length);
    }
}
