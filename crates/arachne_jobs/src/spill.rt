//! The queue of tickets, which many threads push to and pop from without a lock.
//!
//! A *ticket* is an entry for a child that waits for a thread slot. Each user of the queue needs a *pass*, its right to
//! push and pop. In contracts, a pass records the tags that were pushed and popped with it. A pass can be split for
//! another user, and passes can be joined again. The *weight* of a pass is its share of the first pass. If a pass with
//! the whole weight finds the queue empty, as many items with each tag were popped as were pushed.
ghost use Rattle.std.specs.Prelude.{◌≡◌, ◌≢◌, ◌↔◌, ◌++◌, [], ◌∷◌, ℕ, List, IfOk, IfErr, OnOk, OnErr, IfSome, IfNone, IsTrue};
ghost use mathlib.Core.Option.{some};
ghost use lib.ListN.{get_elem?};
ghost use Rattle.arachne_weights.specs.Tokens.{held};
ghost use Rattle.arachne_weights.specs.Weight.{whole, first_part, second_part, joined};
ghost use Rattle.arachne_weights.specs.declared.token.Token.{Token};
ghost use Rattle.arachne_jobs.specs.Balance.{IsBalanced, opening_pass, after_push, after_pop, after_split, after_join};
ghost use Rattle.arachne_jobs.specs.Views.{IsPassOf, IsWhole, IsAheadBy, WasSeen, HasCounted, AllCameOut, capacity};
ghost use Rattle.arachne_jobs.specs.declared.spill.Known.{Known};

use crate::room::Room;
use crate::slice::RunTicket;
use arachne_contexts::Tagged;
use arachne_weights::{Token, Weight};
use crossbeam_queue::protocol::{Join, Lesson, Outcome, Protocol, Split};
use crossbeam_queue::{Pass, RuledArrayQueue};
use std::alloc::{AllocError, Global};
use std::collections::LinkedList;
use std::marker::Model;
use std::sync::Wait;

/// The greatest number of items in a queue.
pub const CAPACITY: usize = 256;

/// The tags of the items that were pushed, and of those that were popped, with a pass (a right to use the queue).
///
/// Exists only in contracts.
pub struct Known {
    pub pushed: LinkedList<u64>,
    pub popped: LinkedList<u64>,
}

/// A pass (right to use a queue) as the queue's invariant sees it. Exists only in contracts.
pub type View = Token<Known>;

/// A right to use a queue. In contracts, a pass records the tags (numbers) of the items pushed and popped with it. It
/// must be used only with its queue. After a pass was dropped, `is_whole` is false for all others.
#[derive(Drop)]
pub struct SpillPass<T> {
    pass: Pass<T, View>,
    weight: Weight,
}

impl<T> Model for SpillPass<T> {
    ghost use Rattle.arachne_jobs.specs.Views.{PassView};
    ghost use Rattle.arachne_jobs.specs.Passes.{IsHeld};

    ghost Value = { PassView };

    ghost view = { λ p. record { table = p.pass.table_id; weight = p.weight; pushed = p.pass.me.0.client.known.pushed; popped = p.pass.me.0.client.known.popped } };

    ghost invariant = { λ p. IsHeld p.weight p.pass };
}

/// A first-in, first-out queue of at most 256 items, for many threads at once.
#[derive(Drop)]
pub struct SpillQueue<T: Tagged + Drop> {
    ring: RuledArrayQueue<T, View, Balanced, Global>,
}

impl<T: Tagged + Drop> Model for SpillQueue<T> {
    ghost use Rattle.std.specs.Prelude.{◌≡◌};
    ghost use Rattle.arachne_jobs.specs.Views.{QueueView, capacity};

    ghost Value = { QueueView };

    ghost view = { λ q. record { table = q.ring.table.shared.table_id } };

    ghost invariant = { λ q. q.ring.cap ≡ capacity };
}

impl<T: Tagged + Drop> SpillQueue<T> {
    /// Returns an empty queue, and the first pass (right to use it), of whose weight each later pass gets a part.
    pub fn new(alloc: Global) -> Result<(SpillQueue<T>, SpillPass<T>), AllocError>
        ensures { IfOk result (λ made. made.1 ≡ record { table = made.0.table; weight = whole; pushed = []; popped = [] }) }
    {
        let (ring, pass) = RuledArrayQueue::ruled(alloc, CAPACITY)?;
        let pass = SpillPass {
            pass,
            weight: Weight::whole(),
        };
        Ok((SpillQueue { ring }, pass))
    }

    /// Appends `item` at the back. If the queue was full at some moment of the call, returns `item` as the error. In
    /// that case, if all other passes were joined into `pass`, 256 more items were pushed with `pass` than were popped.
    pub fn push<R: Wait>(&self, rt: &R, pass: &mut SpillPass<T>, item: T) -> Result<(), T>
        requires own { IsPassOf self.now pass.old }
        ensures pushed { OnOk result (pass.new ≡ record pass.old { pushed = pass.old.pushed ++ T.tag_of item ∷ [] }) }
        ensures same { OnErr result (pass.new ≡ pass.old) }
        ensures handed_back { IfErr result (λ back. back ≡ item) }
        ensures full { OnErr result (WasSeen T.tag_of pass.old capacity) }
        ensures whole { OnErr result (IsWhole pass.old → IsAheadBy pass.old capacity) }
    {
        self.ring.push_as::<Push, R>(rt, &mut pass.pass, item)
    }

    /// Removes and returns the item at the front, or returns `None` if the queue was empty at some moment of the call.
    /// In that case, if all other passes were joined into `pass`, as many items with each tag were popped as were
    /// pushed.
    pub fn pop<R: Wait>(&self, rt: &R, pass: &mut SpillPass<T>) -> Option<T>
        requires own { IsPassOf self.now pass.old }
        ensures popped { IfSome result (λ item. pass.new ≡ record pass.old { popped = pass.old.popped ++ T.tag_of item ∷ [] }) }
        ensures same { IfNone result (pass.new ≡ pass.old) }
        ensures empty { IfNone result (WasSeen T.tag_of pass.old 0) }
        ensures all_out { IfNone result (IsWhole pass.old → AllCameOut pass.old) }
    {
        self.ring.pop_as::<Pop, R>(rt, &mut pass.pass)
    }

    /// Returns the number of items in the queue at some moment of the call. If all other passes were joined into
    /// `pass`, this is the number of items pushed with `pass` less the number popped with it.
    pub fn len<R: Wait>(&self, rt: &R, pass: &mut SpillPass<T>) -> usize
        requires own { IsPassOf self.now pass.old }
        ensures same { pass.new ≡ pass.old }
        ensures seen { WasSeen T.tag_of pass.old result }
        ensures whole { IsWhole pass.old → IsAheadBy pass.old result }
        ensures all_out { result ≡ 0 → IsWhole pass.old → AllCameOut pass.old }
    {
        self.ring.len_as::<Push, R>(rt, &mut pass.pass)
    }

    /// Returns true if the queue was full at some moment of the call.
    pub fn is_full<R: Wait>(&self, rt: &R, pass: &mut SpillPass<T>) -> bool
        requires own { IsPassOf self.now pass.old }
        ensures same { pass.new ≡ pass.old }
        ensures counted { (count : ℕ) × (IsTrue result ↔ (count ≡ capacity)) × HasCounted T.tag_of pass.old count }
    {
        self.len(rt, pass) == CAPACITY
    }

    /// Returns true if the queue was empty at some moment of the call.
    pub fn is_empty<R: Wait>(&self, rt: &R, pass: &mut SpillPass<T>) -> bool
        requires own { IsPassOf self.now pass.old }
        ensures same { pass.new ≡ pass.old }
        ensures counted { (count : ℕ) × (IsTrue result ↔ (count ≡ 0)) × HasCounted T.tag_of pass.old count }
        ensures all_out { IsTrue result → IsWhole pass.old → AllCameOut pass.old }
    {
        self.len(rt, pass) == 0
    }

    /// Splits `pass` in two, for another user of the queue. The first keeps the record of what was pushed and popped.
    /// Each of the two gets half of the weight of `pass` (its share of the first pass), rounded up for the first. If
    /// the weight is at most 1, both get weight 0.
    pub fn split<R: Wait>(&self, _rt: &R, pass: SpillPass<T>) -> (SpillPass<T>, SpillPass<T>)
        requires own { IsPassOf self.now pass }
        ensures first { result.0 ≡ record pass { weight = first_part pass.weight } }
        ensures second { result.1 ≡ record { table = pass.table; weight = second_part pass.weight; pushed = []; popped = [] } }
    {
        let SpillPass { mut pass, weight } = pass;
        let (first, second) = weight.split();
        let other = self.ring.another::<Deal>(&mut pass);
        (
            SpillPass {
                pass,
                weight: first,
            },
            SpillPass {
                pass: other,
                weight: second,
            },
        )
    }

    /// Joins two passes into one, with the recorded tags of both and the sum of their weights (parts of the whole).
    pub fn join_passes<R: Wait>(
        &self,
        _rt: &R,
        pass: SpillPass<T>,
        other: SpillPass<T>,
    ) -> SpillPass<T>
        requires own { IsPassOf self.now pass }
        requires other { IsPassOf self.now other }
        ensures { result ≡ record pass { weight = joined pass.weight other.weight; pushed = pass.pushed ++ other.pushed; popped = pass.popped ++ other.popped } }
    {
        let SpillPass { mut pass, weight } = pass;
        let SpillPass {
            pass: spent,
            weight: added,
        } = other;
        self.ring.absorb::<Deal>(&mut pass, spent);
        SpillPass {
            pass,
            weight: weight.join(added),
        }
    }

    /// Returns true if all other passes (rights to use the queue) were joined into `pass`.
    pub fn is_whole(&self, pass: &SpillPass<T>) -> bool
        ensures { IsTrue result ↔ IsWhole pass.now }
    {
        pass.weight.is_whole()
    }
}

/// Pushes `ticket` (a waiting child's entry), and counts one waiting child more in `room`. If the queue is full,
/// returns `ticket` as the error.
#[inline(always)]
pub fn put_ticket<R: Wait, K: Tagged + Drop>(
    rt: &R,
    tickets: &SpillQueue<K>,
    room: &Room,
    pass: &mut SpillPass<K>,
    ticket: K,
) -> Result<(), K>
    requires { IsPassOf tickets.now pass.old }
    ensures pass { IsPassOf tickets.now pass.new }
    ensures put { OnOk result (pass.new ≡ record pass.old { pushed = pass.old.pushed ++ K.tag_of ticket ∷ [] }) }
    ensures same { OnErr result (pass.new ≡ pass.old) }
    ensures handed_back { IfErr result (λ back. back ≡ ticket) }
{
    tickets.push(rt, pass, ticket)?;
    room.child_waits();
    Ok(())
}

/// Pops the oldest ticket (a waiting child's entry), if there is one, and counts one waiting child less in `room`.
#[inline(always)]
pub fn next_ticket<R: Wait, K: Tagged + Drop>(
    rt: &R,
    tickets: &SpillQueue<K>,
    room: &Room,
    pass: &mut SpillPass<K>,
) -> Option<K>
    requires { IsPassOf tickets.now pass.old }
    ensures pass { IsPassOf tickets.now pass.new }
    ensures taken { IfSome result (λ next. pass.new ≡ record pass.old { popped = pass.old.popped ++ K.tag_of next ∷ [] }) }
    ensures same { IfNone result (pass.new ≡ pass.old) }
{
    let ticket = tickets.pop(rt, pass)?;
    room.ticket_was_taken();
    Some(ticket)
}

/// The most entries, of children that still wait, that one call of `make_room` pushes again.
const MOST_LIVE: u32 = 8;

/// If `is_wanted` is true and the queue is full, tries to make room for one more child's entry. Pops entries, the
/// oldest first, until there is room. Drops each entry whose child no longer waits, and pushes the others again. Gives
/// up after it has pushed `MOST_LIVE` entries again.
pub fn make_room<R: Wait, K: RunTicket>(
    rt: &R,
    tickets: &SpillQueue<K>,
    room: &Room,
    pass: &mut SpillPass<K>,
    is_wanted: bool,
)
    requires { IsPassOf tickets.now pass.old }
    ensures { IsPassOf tickets.now pass.new }
{
    if !is_wanted {
        return;
    }
    let mut live = 0;
    for _ in 0..CAPACITY {
        if live >= MOST_LIVE || !tickets.is_full(rt, pass) {
            return;
        }
        let Some(ticket) = next_ticket(rt, tickets, room, pass) else {
            return;
        };
        if ticket.still_waits() {
            live += 1;
            // If the queue was filled meanwhile, the ticket is dropped, and the child waits only for its parent.
            let _ = put_ticket(rt, tickets, room, pass, ticket);
        }
    }
}

// The invariant of the queue, and the kinds of atomic operation on it. These types exist only for proofs.

/// The invariant: for each tag, as many items were pushed as were popped or are in the queue.
pub struct Balanced;

impl<T: Tagged> Protocol<T, View> for Balanced {
    ghost use Rattle.arachne_jobs.specs.Balance.{IsBalanced, opening_pass};

    ghost holds = { IsBalanced T.tag_of };

    ghost first = { opening_pass };
}

pub struct Push;

impl<T: Tagged> Outcome<T, View> for Push {
    ghost use Rattle.arachne_jobs.specs.Balance.{Pushed};

    ghost then = { Pushed T.tag_of };
}

impl<T: Tagged> Lesson<T, View> for Push {
    ghost use Rattle.arachne_jobs.specs.Balance.{IsMoment};

    ghost fact = { IsMoment T.tag_of };
}

pub struct Pop;

impl<T: Tagged> Outcome<T, View> for Pop {
    ghost use Rattle.arachne_jobs.specs.Balance.{Popped};

    ghost then = { Popped T.tag_of };
}

impl<T: Tagged> Lesson<T, View> for Pop {
    ghost use Rattle.arachne_jobs.specs.Balance.{IsMoment};

    ghost fact = { IsMoment T.tag_of };
}

pub struct Deal;

impl Split<View> for Deal {
    ghost use Rattle.arachne_jobs.specs.Balance.{first_pass, second_pass};

    ghost left = { first_pass };

    ghost right = { second_pass };
}

impl Join<View> for Deal {
    ghost use Rattle.arachne_weights.specs.Tokens.{spent};
    ghost use Rattle.arachne_jobs.specs.Balance.{blank, joined_pass};

    ghost both = { joined_pass };

    ghost spent = { spent blank };
}

/// For each tag, as many items were pushed as were popped or are in the queue, at the start and after each operation.
pub fn tags_stay_balanced<T>()
    ensures at_first { (tag_of : T → ℕ) → IsBalanced tag_of [] (opening_pass ∷ []) }
    ensures after_a_push { (tag_of : T → ℕ) (items : List T) (passes : List (Token Known)) → IsBalanced tag_of items passes
        → (place weight : ℕ) (known : Known) → get_elem? passes place ≡ some (held weight known)
        → (item : T) → IsBalanced tag_of (items ++ item ∷ []) (after_push passes place weight known (tag_of item)) }
    ensures after_a_pop { (tag_of : T → ℕ) (item : T) (items : List T) (passes : List (Token Known)) → IsBalanced tag_of (item ∷ items) passes
        → (place weight : ℕ) (known : Known) → get_elem? passes place ≡ some (held weight known)
        → IsBalanced tag_of items (after_pop passes place weight known (tag_of item)) }
    ensures after_a_split { (tag_of : T → ℕ) (items : List T) (passes : List (Token Known)) → IsBalanced tag_of items passes
        → (place weight : ℕ) (known : Known) → get_elem? passes place ≡ some (held weight known)
        → IsBalanced tag_of items (after_split passes place weight known) }
    ensures after_a_join { (tag_of : T → ℕ) (items : List T) (passes : List (Token Known)) → IsBalanced tag_of items passes
        → (place weight : ℕ) (known : Known) → get_elem? passes place ≡ some (held weight known)
        → (other added : ℕ) (others : Known) → other ≢ place → get_elem? passes other ≡ some (held added others)
        → IsBalanced tag_of items (after_join passes place weight known other added others) }
{}
