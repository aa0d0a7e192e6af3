//! Orders to close a core or to open it again, which are carried out one after another.
ghost use Rattle.std.specs.Prelude.{◌≡◌, ◌<◌, ◌≤◌, ◌↔◌, length, IsTrue, IfOk, IfSome, MatchOption};
ghost use Rattle.arachne_core.specs.declared.layout.TheConstants.{CORES};
ghost use Rattle.arachne_policy.specs.Orders.{AreInOrder};

use arachne_policy::{CoreOrder, OrderKind};
use std::alloc::{AllocError, Global};
use std::marker::Model;

/// The effect of an order to close or open a core.
#[derive(Clone, Copy, Debug, PartialEq, Eq)]
pub enum Effect {
    Closes(u8),
    Opens(u8),
    /// The core is closed already, or open already.
    Nothing,
}

/// A list of orders to open or close cores, how many of them were carried out, and which cores are closed now.
#[derive(Debug, Drop)]
pub struct Orders {
    list: Vec<CoreOrder>,
    pub(crate) applied: usize,
    closed: Vec<bool>,
}

impl Model for Orders {
    ghost use Rattle.std.specs.Prelude.{vec_len};
    ghost use Rattle.arachne_arbiter.specs.Orders.{Progress, AreKept};

    ghost Value = { Progress };

    ghost view = { λ o. record { list = o.list.items; cores = vec_len o.closed; applied = o.applied } };

    ghost invariant = { λ o. AreKept o.list.items o.applied o.closed.items };
}

impl Orders {
    ghost use Rattle.arachne_arbiter.specs.Orders.{next_effect, with_next, IsDue, IsNoneDue, IsWithin};

    /// Creates the record of the orders in `list`, to close or open cores. There are `cores` cores, all of them open.
    pub fn new(alloc: Global, list: Vec<CoreOrder>, cores: u8) -> Result<Orders, AllocError>
        requires orders { AreInOrder cores list.items }
        requires cores { cores ≤ CORES }
        ensures { IfOk result (λ orders. orders ≡ record { list = list.items; cores = cores; applied = 0 }) }
    {
        let closed = vec![in alloc; false; usize::from(cores)]?;
        Ok(Orders {
            list,
            applied: 0,
            closed,
        })
    }

    pub fn has_any(&self) -> bool
        ensures { IsTrue result ↔ (0 < length self.now.list) }
    {
        !self.list.is_empty()
    }

    pub fn are_over(&self) -> bool
        ensures { IsTrue result ↔ (self.now.applied ≡ length self.now.list) }
    {
        self.applied == self.list.len()
    }

    /// Returns the effect of the next order (to close or open a core) if it is due after `ended` slices (some steps of
    /// one thread each), and counts the order as carried out. Otherwise returns `None`, and changes nothing.
    pub fn next_due(&mut self, ended: u64) -> Option<Effect>
        ensures due { MatchOption result (IsNoneDue self.old ended) (λ _. IsDue self.old ended) }
        ensures effect { IfSome result (λ effect. (effect ≡ next_effect self.old) × IsWithin self.old.cores effect) }
        ensures after { MatchOption result (self.new ≡ self.old) (λ _. self.new ≡ with_next self.old) }
    {
        let order = *self.list.get(self.applied)?;
        if order.after > ended {
            return None;
        }
        self.applied += 1;
        let closes = order.kind == OrderKind::Release;
        let closed = &mut self.closed[order.core as usize];
        if *closed == closes {
            return Some(Effect::Nothing);
        }
        *closed = closes;
        let core = order.core as u8;
        Some(if closes {
            Effect::Closes(core)
        } else {
            Effect::Opens(core)
        })
    }
}
