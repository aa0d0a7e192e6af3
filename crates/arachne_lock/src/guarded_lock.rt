//! The state of a lock, as the locks' table stores it while no seat has it.
ghost use Rattle.std.specs.Prelude.{◌≡◌, [], Option};
ghost use Rattle.arachne_lock.specs.State.{unused, IsAsked, IsFreed, IsWithdrawn, IsChecked};
ghost use Rattle.arachne_lock.specs.Deeds.{events_of, asked_events, freed_events, withdrawn_events};

use crate::answer::{Admitted, AskRefusal, NotOwner, Released, Withdrawn};
use crate::event::LockDeed;
use crate::lock_entry::LockEntry;
use crossbeam_utils::CachePadded;
use std::alloc::Global;
use std::marker::Model;

/// A lock's state, on cache lines of its own, and the effect of the last call on the lock. `deed` is only for proofs.
#[derive(Drop)]
pub struct GuardedLock {
    state: CachePadded<LockEntry>,
    deed: LockDeed,
}

impl Model for GuardedLock {
    ghost use Rattle.crossbeam_utils.specs.Padded.{padded_value};
    ghost use Rattle.arachne_lock.specs.Deeds.{events_of};
    ghost use Rattle.arachne_lock.specs.Views.{Guarded};

    ghost Value = { Guarded };

    ghost view = { λ g. record { lock = padded_value g.state; events = events_of g.deed } };
}

fn asked_deed(who: u64, answer: &Result<Admitted, AskRefusal>) -> LockDeed
    ensures { events_of result ≡ asked_events who answer.now }
{
    match answer {
        Ok(Admitted::Granted { at: _ }) => LockDeed::Granted(who),
        Ok(Admitted::Queued { at: _ }) => LockDeed::Queued(who),
        Err(_) => LockDeed::Nothing,
    }
}

fn freed_deed(who: u64, answer: &Result<Released, NotOwner>) -> LockDeed
    ensures { events_of result ≡ freed_events who answer.now }
{
    match answer {
        Ok(
            Released {
                next: Some(next),
                at: _,
            },
        ) => LockDeed::Handed(who, *next),
        Ok(Released { next: None, at: _ }) => LockDeed::Freed(who),
        Err(_) => LockDeed::Nothing,
    }
}

fn withdrawn_deed(who: u64, answer: &Withdrawn) -> LockDeed
    ensures { events_of result ≡ withdrawn_events who answer.now }
{
    match answer {
        Withdrawn::Left { at: _ } => LockDeed::Left(who),
        Withdrawn::Holds { at: _ } => LockDeed::Nothing,
        Withdrawn::Outside => LockDeed::Nothing,
    }
}

impl GuardedLock {
    pub(crate) fn new(alloc: Global) -> Self
        ensures { result.lock ≡ unused }
    {
        GuardedLock {
            state: CachePadded::new(LockEntry::new(alloc)),
            deed: LockDeed::Nothing,
        }
    }

    pub(crate) fn ask(&mut self, who: u64) -> Result<Admitted, AskRefusal>
        ensures asked { IsAsked self.old.lock self.new.lock who result }
        ensures events { self.new.events ≡ asked_events who result }
    {
        let answer = self.state.ask(who);
        self.deed = asked_deed(who, &answer);
        answer
    }

    pub(crate) fn free(&mut self, who: u64) -> Result<Released, NotOwner>
        ensures freed { IsFreed self.old.lock self.new.lock who result }
        ensures events { self.new.events ≡ freed_events who result }
    {
        let answer = self.state.free(who);
        self.deed = freed_deed(who, &answer);
        answer
    }

    pub(crate) fn withdraw(&mut self, who: u64) -> Withdrawn
        ensures withdrawn { IsWithdrawn self.old.lock self.new.lock who result }
        ensures events { self.new.events ≡ withdrawn_events who result }
    {
        let answer = self.state.withdraw(who);
        self.deed = withdrawn_deed(who, &answer);
        answer
    }

    pub(crate) fn check(&mut self, who: u64) -> Option<u64>
        ensures checked { IsChecked self.old.lock self.new.lock who result }
        ensures events { self.new.events ≡ [] }
    {
        self.deed = LockDeed::Nothing;
        self.state.check(who)
    }
}
