//! The state of a sleep lock, as the lock's table stores it while no seat has it.
ghost use Rattle.std.specs.Prelude.{◌≡◌, [], None};
ghost use Rattle.arachne_sleep.specs.History.{IsSound};
ghost use Rattle.arachne_sleep.specs.Calls.{IsAsked, IsFreed, IsChecked, pass_asked};
ghost use Rattle.arachne_sleep.specs.Histories.{place_of};

use crate::answer::{AskFault, Asked, Freed, NotHolder, Pass};
use crate::history::History;
use crate::lock_state::LockState;
use crate::who::Who;
use crossbeam_utils::CachePadded;
use std::alloc::Global;
use std::marker::Model;

/// A lock's state, on cache lines of its own. `last_pass` exists only for proofs. It is the index, in the lock's
/// history, of the grant that the last call returned.
#[derive(Drop)]
pub struct GuardedState {
    state: CachePadded<LockState>,
    last_pass: Option<usize>,
}

impl Model for GuardedState {
    ghost use Rattle.crossbeam_utils.specs.Padded.{padded_value};
    ghost use Rattle.arachne_sleep.specs.Histories.{pass_at};
    ghost use Rattle.arachne_sleep.specs.Views.{Guarded};

    ghost Value = { Guarded };

    ghost view = { λ g. record { state = padded_value g.state; last_pass = pass_at (padded_value g.state).number (padded_value g.state).history g.last_pass } };
}

fn place_asked(answer: &Result<Asked, AskFault>) -> Option<usize>
    ensures { result ≡ place_of (pass_asked answer.now) }
{
    match answer {
        Ok(Asked::Granted(pass)) => Some(pass.at),
        Ok(Asked::Queued { at: _ }) => None,
        Err(_) => None,
    }
}

fn place_checked(pass: &Option<Pass>) -> Option<usize>
    ensures { result ≡ place_of pass.now }
{
    match pass {
        Some(pass) => Some(pass.at),
        None => None,
    }
}

impl GuardedState {
    pub(crate) fn new(alloc: Global, number: u8) -> Self
        ensures state { result.state ≡ record { number = number; history = [] } }
    {
        GuardedState {
            state: CachePadded::new(LockState::new(alloc, number)),
            last_pass: None,
        }
    }

    pub(crate) fn ask(&mut self, who: Who) -> Result<Asked, AskFault>
        ensures asked { IsAsked self.old.state self.new.state who result }
        ensures pass { self.new.last_pass ≡ pass_asked result }
        ensures sound { IsSound self.new.state.history }
    {
        let answer = self.state.ask(who);
        self.last_pass = place_asked(&answer);
        answer
    }

    pub(crate) fn free(&mut self, who: Who) -> Result<Freed, NotHolder>
        ensures freed { IsFreed self.old.state self.new.state who result }
        ensures pass { self.new.last_pass ≡ None }
        ensures sound { IsSound self.new.state.history }
    {
        let answer = self.state.free(who);
        self.last_pass = None;
        answer
    }

    pub(crate) fn check(&mut self, who: Who) -> Option<Pass>
        ensures checked { IsChecked self.old.state self.new.state who result }
        ensures pass { self.new.last_pass ≡ result }
        ensures sound { IsSound self.new.state.history }
    {
        let _ = self.state.history();
        let answer = self.state.check(who);
        self.last_pass = place_checked(&answer);
        answer
    }

    pub(crate) fn into_history(self) -> History
        ensures events { result.items ≡ self.state.history }
        ensures sound { IsSound self.state.history }
    {
        let GuardedState {
            state,
            last_pass: _,
        } = self;
        state.into_inner().into_history()
    }
}
