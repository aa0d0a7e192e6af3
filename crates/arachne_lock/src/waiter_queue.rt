//! The queue of the tasks that wait for a lock. No task is in it twice.
ghost use Rattle.std.specs.Prelude.{◌≡◌, ◌↔◌, [], ◌∷◌, ◌++◌, drop, slice_get, Contains, IsTrue, OnOk, OnErr};
ghost use Rattle.arachne_lock.specs.Law.{without};

use std::alloc::{AllocError, Global};
use std::collections::{HashSet, VecDeque};
use std::marker::Model;

/// A queue in which each task is at most once. A set of the same tasks lets `contains` take constant time.
#[derive(Debug, Drop)]
pub(crate) struct WaiterQueue {
    order: VecDeque<u64>,
    members: HashSet<u64>,
}

// Contracts describe a queue by its tasks, the longest waiting first.
impl Model for WaiterQueue {
    ghost use Rattle.std.specs.Prelude.{List, ℕ};
    ghost use Rattle.arachne_lock.specs.WaiterQueue.{IsIndexed};

    ghost Value = { List ℕ };

    ghost view = { λ q. q.order.items };

    ghost invariant = { IsIndexed };
}

impl WaiterQueue {
    pub(crate) fn new(alloc: Global) -> Self
        ensures { result ≡ [] }
    {
        WaiterQueue {
            order: VecDeque::new(alloc),
            members: HashSet::new(alloc),
        }
    }

    pub(crate) fn contains(&self, who: u64) -> bool
        ensures { IsTrue result ↔ Contains self.now who }
    {
        self.members.contains(&who)
    }

    pub(crate) fn push(&mut self, who: u64) -> Result<(), AllocError>
        requires { ¬ Contains self.old who }
        ensures ok { OnOk result (self.new ≡ self.old ++ who ∷ []) }
        ensures err { OnErr result (self.new ≡ self.old) }
    {
        self.order.reserve(1)?;
        self.members.insert(who)?;
        self.order.push_back_reserved(who);
        Ok(())
    }

    pub(crate) fn pop(&mut self) -> Option<u64>
        ensures front { result ≡ slice_get self.old 0 }
        ensures rest { self.new ≡ drop 1 self.old }
    {
        let front = self.order.pop_front()?;
        self.members.remove(&front);
        Some(front)
    }

    pub(crate) fn remove(&mut self, who: u64)
        ensures { self.new ≡ without who self.old }
    {
        self.members.remove(&who);
        self.order.retain(|waiter| *waiter != who);
    }
}
