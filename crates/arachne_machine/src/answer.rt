//! Resumes a paused thread after the caller has fulfilled the thread's request.
use crate::frame::Control;
use crate::state::State;
use crate::tables::add_at;

impl<'p> State<'p> {
    ghost use Rattle.std.specs.Prelude.{◌≡◌, ℕ, Some};
    ghost use Rattle.std.specs.Borrow.{Bor};
    ghost use Rattle.arachne_program.specs.declared.program.Expr.{Expr};
    ghost use Rattle.arachne_machine.specs.declared.state.State.{State as TheState};
    ghost use Rattle.arachne_machine.specs.declared.pause.Pending.TheVariants as pause;
    ghost use Rattle.arachne_machine.specs.declared.frame.Control.TheVariants as control;
    ghost use Rattle.arachne_machine.specs.Suspended.{IsAsk, IsFree, IsTally};
    ghost use Rattle.arachne_machine.specs.Steps.{HasLine, Turns, pending_of};
    ghost use Rattle.arachne_machine.specs.Runs.{CountsHold, CountsTally, after_fork};

    /// Resumes a thread that paused at a fork. The caller must have taken the child.
    pub fn forked(&mut self)
        requires { pending_of self.old.control ≡ Some pause.Forks }
        ensures { Turns self.old self.new (after_fork self.old.control) }
    {
        match self.control {
            Control::Forked(during) => self.control = Control::Begin(during),
            Control::Halved(right) => self.control = Control::Cover(right),
            _ => {}
        }
    }

    /// Resumes a thread that paused to ask for a lock. The thread must hold the lock now.
    pub fn granted(&mut self)
        requires asks { IsAsk (pending_of self.old.control) }
        requires line { HasLine self.old }
        ensures { (lock : ℕ) × (body : Bor Expr) × (counted : TheState) × (self.old.control ≡ control.Asks lock body) × CountsHold self.old counted lock
            × (self.new ≡ record counted { control = control.Begin body }) }
    {
        let Control::Asks { lock, body } = self.control else {
            unreachable!()
        };
        self.count_hold(lock);
        self.control = Control::Begin(body);
    }

    fn count_hold(&mut self, lock: u64)
        requires { HasLine self.old }
        ensures { CountsHold self.old self.new lock }
    {
        if self.parents.is_empty() {
            add_at(&mut self.own.holds, lock, 1);
        } else {
            self.lines.count_hold(self.level.place, lock);
        }
    }

    /// Resumes a thread that paused to release a lock, which must now be free.
    pub fn freed(&mut self)
        requires { IsFree (pending_of self.old.control) }
        ensures { (lock value : ℕ) × (self.old.control ≡ control.Frees lock value) × Turns self.old self.new (control.Give value) }
    {
        let Control::Frees { lock: _, value } = self.control else {
            unreachable!()
        };
        self.control = Control::Give(value);
    }

    /// Resumes a thread that paused to add to a ledger, after the caller has added the amount.
    ///
    /// Also adds the amount to the sum that becomes part of the thread's outcome.
    pub fn tallied(&mut self)
        requires { IsTally (pending_of self.old.control) }
        ensures { (ledger amount : ℕ) × (body : Bor Expr) × (counted : TheState) × (self.old.control ≡ control.Tallies ledger amount body) × CountsTally self.old counted ledger amount
            × (self.new ≡ record counted { control = control.Begin body }) }
    {
        let Control::Tallies {
            ledger,
            amount,
            body,
        } = self.control
        else {
            unreachable!()
        };
        self.count_tally(ledger, amount);
        self.control = Control::Begin(body);
    }

    fn count_tally(&mut self, ledger: u64, amount: u64)
        ensures { CountsTally self.old self.new ledger amount }
    {
        add_at(&mut self.sums, ledger, amount);
    }
}
