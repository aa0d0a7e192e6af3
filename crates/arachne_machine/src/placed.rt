//! Children that run inside their parent's slot, from the time when the parent waits for them.
use crate::frame::Control;
use crate::line::Ran;
use crate::placing::Placing;
use crate::spares::Spares;
use crate::state::State;
use arachne_program::Class;
use std::alloc::AllocError;

#[derive(Drop)]
pub enum Unplaced<'p> {
    Foreign(Box<State<'p>>),
    Memory(Box<State<'p>>),
}

/// In these functions, `placed` has the children inside a thread's slot that have not begun, the newest last.
impl<'p> State<'p> {
    ghost use Rattle.std.specs.Prelude.{◌≡◌, ◌≤◌, None, Some, true, All, IfOk, OnOk, OnErr};
    ghost use Rattle.arachne_machine.specs.declared.pause.Pending.TheVariants as pause;
    ghost use Rattle.arachne_machine.specs.Steps.{HasLine, HasRoom, pending_of, suspended, top};
    ghost use Rattle.arachne_machine.specs.Runs.{FitsInto};
    ghost use Rattle.arachne_machine.specs.Nested.{IsPlacing};
    ghost use Rattle.arachne_machine.specs.Suspended.{awaited};
    ghost use Rattle.arachne_machine.specs.Kept.{AdvancesWith, IsKept, Places, StandsBack, TakesUp, Went};

    /// Runs the thread until it pauses or has made `left` steps, and subtracts these from `left`.
    ///
    /// When the innermost thread (the one that runs) begins to wait for the last child of `placed`, that child runs
    /// inside this slot. If memory is refused, the thread is as it was before the refused step, which is not subtracted
    /// from `left`.
    pub fn advance_with<P: Placing>(
        &mut self,
        placed: &mut Vec<Box<State<'p>>>,
        left: &mut u32,
        spares: &mut Spares<'p>,
        places: &mut P,
    ) -> Result<Option<(Class, Box<State<'p>>)>, AllocError>
        requires kept { IsKept self.old placed.old.items }
        requires running { pending_of self.old.control ≡ None }
        ensures ok { IfOk result (λ forked. AdvancesWith (P.gives_all ≡ true) left.old left.new self.old placed.old.items forked (pending_of self.new.control) self.new placed.new.items) }
        ensures err { OnErr result (Went (P.gives_all ≡ true) left.old left.new self.old placed.old.items self.new placed.new.items) }
        ensures err_left { OnErr result (1 ≤ left.new) }
    {
        // Used only by the proof: as the first value of `left` fits 32 bits, all later values of `left` do too.
        let _had = *left;
        while *left > 0 {
            if let Some(forked) = self.advance(left, spares, places)? {
                return Ok(Some(forked));
            }
            match self.take_up(placed, spares) {
                Ok(true) => {}
                Ok(false) => return Ok(None),
                Err(refused) => {
                    *left += 1;
                    return Err(refused);
                }
            }
        }
        Ok(None)
    }

    /// Moves the last child of `placed` into this state, and returns true, if the innermost thread waits for it.
    #[inline(always)]
    fn take_up(
        &mut self,
        placed: &mut Vec<Box<State<'p>>>,
        spares: &mut Spares<'p>,
    ) -> Result<bool, AllocError>
        requires line { HasLine self.old }
        requires room { pending_of self.old.control ≡ Some pause.Joins → HasRoom self.old }
        requires fit { All (λ child. FitsInto self.old child.value) placed.old.items }
        ensures ok { IfOk result (λ taken. TakesUp taken self.old placed.old.items self.new placed.new.items) }
        ensures err { OnErr result (StandsBack self.old placed.old.items self.new placed.new.items) }
    {
        match self.control {
            Control::Awaits { .. } | Control::AwaitsHalf { .. } => self.take_newest(placed, spares),
            _ => Ok(false),
        }
    }

    /// If memory is refused, undoes the step that began the wait.
    #[cold]
    #[inline(never)]
    fn take_newest(
        &mut self,
        placed: &mut Vec<Box<State<'p>>>,
        spares: &mut Spares<'p>,
    ) -> Result<bool, AllocError>
        requires joins { pending_of self.old.control ≡ Some pause.Joins }
        requires line { HasLine self.old }
        requires room { HasRoom self.old }
        requires fit { All (λ child. FitsInto self.old child.value) placed.old.items }
        ensures ok { IfOk result (λ taken. TakesUp taken self.old placed.old.items self.new placed.new.items) }
        ensures err { OnErr result (StandsBack self.old placed.old.items self.new placed.new.items) }
    {
        let Some(mut child) = placed.pop() else {
            return Ok(false);
        };
        if !self.awaits(&child.own.name) {
            placed.push_reserved(child);
            return Ok(false);
        }
        if self.take_in(&mut child).is_err() {
            placed.push_reserved(child);
            self.stand_before_join();
            return Err(AllocError);
        }
        spares.keep(child);
        Ok(true)
    }

    /// Puts `child` inside this thread's slot, to run there as a function call would. `others` are the children that
    /// wait inside the child's own slot.
    ///
    /// If this thread has just forked `child`, the child begins when this thread waits for it. If this thread already
    /// waits for `child`, the child runs at once. After an error, only lists' capacities may have changed.
    pub fn place(
        &mut self,
        placed: &mut Vec<Box<State<'p>>>,
        child: Box<State<'p>>,
        others: &mut Vec<Box<State<'p>>>,
    ) -> Result<(), Unplaced<'p>>
        requires placing { IsPlacing (pending_of self.old.control) }
        requires line { HasLine self.old }
        requires fits { FitsInto self.old child.value }
        requires forked { pending_of self.old.control ≡ Some pause.Forks → awaited (suspended (top self.old)) ≡ Some child.value.own.name }
        ensures { Places result self.old placed.old.items child.entry.value others.old.items self.new placed.new.items others.new.items }
    {
        match self.control {
            Control::Awaits { .. } | Control::AwaitsHalf { .. } => {
                self.go_on_with(placed, child, others)
            }
            _ => self.wait_with(placed, child, others),
        }
    }

    fn wait_with(
        &mut self,
        placed: &mut Vec<Box<State<'p>>>,
        child: Box<State<'p>>,
        grandchildren: &mut Vec<Box<State<'p>>>,
    ) -> Result<(), Unplaced<'p>>
        requires forks { pending_of self.old.control ≡ Some pause.Forks }
        requires forked { awaited (suspended (top self.old)) ≡ Some child.value.own.name }
        ensures { Places result self.old placed.old.items child.entry.value grandchildren.old.items self.new placed.new.items grandchildren.new.items }
    {
        let mut waiting = child;
        if placed.try_reserve(grandchildren.len() + 1).is_err() {
            return Err(Unplaced::Memory(waiting));
        }
        let _ = placed.append(grandchildren);
        waiting.own.label.ran = Ran::InPlace;
        placed.push_reserved(waiting);
        self.forked();
        Ok(())
    }

    fn go_on_with(
        &mut self,
        placed: &mut Vec<Box<State<'p>>>,
        child: Box<State<'p>>,
        others: &mut Vec<Box<State<'p>>>,
    ) -> Result<(), Unplaced<'p>>
        requires joins { pending_of self.old.control ≡ Some pause.Joins }
        requires line { HasLine self.old }
        requires fits { FitsInto self.old child.value }
        ensures { Places result self.old placed.old.items child.entry.value others.old.items self.new placed.new.items others.new.items }
    {
        let mut child = child;
        let is_awaited = self.awaits(&child.own.name);
        if !is_awaited {
            return Err(Unplaced::Foreign(child));
        }
        if placed.try_reserve(others.len()).is_err() || self.take_in(&mut child).is_err() {
            return Err(Unplaced::Memory(child));
        }
        let _ = placed.append(others);
        Ok(())
    }
}
