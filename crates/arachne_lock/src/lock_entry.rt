//! The state of a lock: the task that holds it, the tasks that wait for it, and its number of events.
ghost use Rattle.std.specs.Prelude.{◌≡◌, ◌↔◌, ◌+◌, ◌%◌, ◌^◌, IsTrue};

use crate::answer::{Admitted, AskRefusal, NotOwner, Released, Withdrawn};
use crate::waiter_queue::WaiterQueue;
use std::alloc::Global;
use std::marker::Model;

/// The task that holds a lock (`who`), and the event number of its grant (`at`).
#[derive(Clone, Copy, Debug, PartialEq, Eq)]
pub struct Holder {
    pub who: u64,
    pub at: u64,
}

/// The state of one lock. Each call takes constant time, but `ask` may allocate, and `withdraw` searches the queue.
#[derive(Debug, Drop)]
pub(crate) struct LockEntry {
    owner: Option<Holder>,
    waiters: WaiterQueue,
    count: u64,
}

impl Model for LockEntry {
    ghost use Rattle.arachne_lock.specs.State.{Lock};

    ghost Value = { Lock };

    ghost view = { λ s. record { owner = s.owner; queue = s.waiters; count = s.count } };
}

impl LockEntry {
    ghost use Rattle.arachne_lock.specs.State.{unused, holder_of, later, IsAsked, IsFreed, IsWithdrawn, IsChecked};

    pub(crate) fn new(alloc: Global) -> Self
        ensures { result ≡ unused }
    {
        LockEntry {
            owner: None,
            waiters: WaiterQueue::new(alloc),
            count: 0,
        }
    }

    /// Allocates only if `who` must wait.
    pub(crate) fn ask(&mut self, who: u64) -> Result<Admitted, AskRefusal>
        ensures { IsAsked self.old self.new who result }
    {
        if self.holds(who) || self.waiters.contains(who) {
            return Err(AskRefusal::AlreadyIn);
        }
        if self.owner.is_none() {
            let at = self.later(1);
            self.owner = Some(Holder { who, at });
            self.count = self.later(2);
            return Ok(Admitted::Granted { at });
        }
        self.waiters.push(who)?;
        let at = self.count;
        self.count = self.later(1);
        Ok(Admitted::Queued { at })
    }

    /// Frees the lock, and grants it to the task that has waited longest, if any waits.
    pub(crate) fn free(&mut self, who: u64) -> Result<Released, NotOwner>
        ensures { IsFreed self.old self.new who result }
    {
        if !self.holds(who) {
            return Err(NotOwner);
        }
        let at = self.count;
        let next = self.waiters.pop();
        match next {
            Some(next) => {
                self.owner = Some(Holder {
                    who: next,
                    at: self.later(1),
                });
                self.count = self.later(2);
            }
            None => {
                self.owner = None;
                self.count = self.later(1);
            }
        }
        Ok(Released { next, at })
    }

    pub(crate) fn withdraw(&mut self, who: u64) -> Withdrawn
        ensures { IsWithdrawn self.old self.new who result }
    {
        if let Some(at) = self.check(who) {
            return Withdrawn::Holds { at };
        }
        if !self.waiters.contains(who) {
            return Withdrawn::Outside;
        }
        self.waiters.remove(who);
        let at = self.count;
        self.count = self.later(1);
        Withdrawn::Left { at }
    }

    pub(crate) fn check(&self, who: u64) -> Option<u64>
        ensures { IsChecked self.now self.now who result }
    {
        match self.owner {
            Some(holder) if holder.who == who => Some(holder.at),
            _ => None,
        }
    }

    fn holds(&self, who: u64) -> bool
        ensures { IsTrue result ↔ (holder_of self.now.owner ≡ Some who) }
    {
        self.owner.is_some_and(|holder| holder.who == who)
    }

    /// Returns the number of the lock's next event, plus `more`, modulo 2^64.
    fn later(&self, more: u64) -> u64
        ensures { result ≡ later self.now.count more }
    {
        self.count.wrapping_add(more)
    }
}
