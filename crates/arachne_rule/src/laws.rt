//! The effect of each kind of atomic operation (*step*) on the table. Each law is the contract of an empty function.
//!
//! A table of user threads consists of words, values, and a record for each seat (right to call it). A step changes one
//! word. Each law says that a step has the effect of one allowed change of threads, contexts (thread records) and
//! slots, such as a claim, or no effect. So between any two steps, no two threads share a context or a slot. In the
//! code, `Steps` says which change a step is, and `EachCarried` and the like to which seats a law applies.
ghost use Rattle.std.specs.Prelude.{◌≡◌, ◌≢◌, ℕ, ◌+◌, ◌-◌, ◌^◌, ◌<◌, ◌≤◌, ◌⊎◌, Some, true, false, bit_and, bit_or, []};
ghost use mathlib.Core.Option as slot;
ghost use lib.ListN.{get_elem?};
ghost use Rattle.arachne_core.specs.ContextTable.{IsVacantFrom};
ghost use Rattle.arachne_core.specs.Occupancy.{occupancy_of};
ghost use Rattle.arachne_core.specs.declared.place.Place.{Place};
ghost use Rattle.arachne_core.specs.declared.event.Event.TheVariants as event;
ghost use Rattle.arachne_core.specs.declared.mark.Mark.TheVariants as mark;
ghost use Rattle.arachne_core.specs.declared.state.Rest.TheVariants as rest;
ghost use Rattle.arachne_core.specs.World.{Thread, IsContext};
ghost use Rattle.arachne_core.specs.OwnedOnce.{OwnedOnce};
ghost use Rattle.arachne_core.specs.Run.{IsDrained};
ghost use Rattle.arachne_rule.specs.declared.view.Carried.{Carried};
ghost use Rattle.arachne_rule.specs.declared.view.Record.{Record};
ghost use Rattle.arachne_rule.specs.declared.view.Shape.{Shape};
ghost use Rattle.arachne_rule.specs.Rule.{is_closed, HasNoOccupied};
ghost use Rattle.arachne_rule.specs.Plays.{Carries, HasEnded};
ghost use Rattle.arachne_rule.specs.Layout.{contexts_in, occ_index, name_index};
ghost use Rattle.arachne_rule.specs.History.{records_of};
ghost use Rattle.arachne_rule.specs.Table.{Holds, HoldsAfter};
ghost use Rattle.arachne_rule.specs.Ending.{IsSettled, left_from};
ghost use Rattle.arachne_rule.specs.Left.{mark_at, HasAtHome, IsNamedAtHome, with_word, after_look, after_learning, after_claim, after_alone, after_release, after_post, after_take, after_keeping_name, after_retire, after_last_retire, after_rest_ready, after_rest_blocked, after_wake, after_move, after_naming_target, after_replacing, after_naming_source, after_split, after_join};
ghost use Rattle.arachne_rule.specs.Laws.{Steps, StepsTo, thread_at, IsGoneForGood, EachCore, EachSeat, EachNoting, EachFreePlace, EachEmptyCore, EachMarked, EachCarried, EachValue, EachHeld, EachTarget, EachUnnamed, EachTwoSeats, EachOtherSeat, EachTwoCarried, IsReplayed, IsStepIn, EachFirst, EachTable, EachKnown, EachStep, EachWhole, first_table};

use crate::layout::SPACING;
use arachne_core::SLOTS;

// ---- loads

/// To read an occupancy word or a mark word changes no thread, context or slot.
pub fn a_look_is_still<T>()
    ensures { EachNoting T (λ s noting. Steps s event.Still (after_look s noting)) }
{}

/// If a seat has claimed a context, or has taken its thread, the word of the context's slot stores the context's
/// number, once that number was stored there (`named`).
///
/// To read that word through this seat changes no thread, context or slot.
pub fn learning_is_still<T>()
    ensures { EachCarried T (λ s c. c.named ≡ true → c.away ≡ false → IsNamedAtHome s c × Steps s event.Still (after_learning s c)) }
{}

// ---- claims

/// A compare-exchange that adds a free slot to an open core's occupancy word claims that slot.
pub fn a_claim_is_claim<T>()
    ensures { EachFreePlace T (λ s p. (x : ℕ) × (s.world.at x ≡ p) × Steps s (event.Claim s.seat x) (after_claim s p x)) }
{}

/// A compare-exchange of a core's occupancy word from 0 claims the whole core for one thread, at slot 0.
pub fn a_claim_of_a_core_is_alone<T>()
    ensures { EachEmptyCore T (λ s core. (x : ℕ) × (s.world.at x ≡ record { core = core; index = 0 }) × Steps s (event.Alone s.seat x) (after_alone s core x)) }
{}

/// Subtracting from a core's occupancy word what a claim has added frees the claimed slot.
pub fn a_release_is_release<T>()
    ensures { EachCarried T (λ s c. c.held ≡ false → c.named ≡ true → c.away ≡ false → Steps s (event.Release s.seat c.context) (after_release s c)) }
{}

// ---- threads come and go

/// A store of READY to the mark word of a claimed context puts a new thread and its value into the table.
pub fn a_post_is_post<T>()
    ensures { EachValue T (λ s c value. c.held ≡ false → c.named ≡ true → Steps s (event.Post s.seat c.context (s.tag_in value)) (after_post s c value)) }
{}

/// A compare-exchange of a thread's mark word from READY to HELD takes the thread, with its value.
pub fn a_take_is_take<T>()
    ensures { EachMarked T mark.Ready (λ s x. (value : T) × HasAtHome s x (Some value) × Steps s (event.Take s.seat x) (after_take s x value)) }
{}

/// To store the number of a taken thread's context in the word of the thread's slot changes no thread, context or slot.
pub fn keeping_the_name_is_still<T>()
    ensures { EachCarried T (λ s c. c.held ≡ true → Steps s event.Still (after_keeping_name s c)) }
{}

/// A swap of a taken thread's mark word to FREE ends the thread, and raises the word's generation (count of ended
/// threads) by 1.
///
/// The thread must not be the last one that its context may have.
pub fn a_retire_is_retire<T>()
    ensures { EachCarried T (λ s c. c.held ≡ true → c.named ≡ true → c.generation < s.world.last → Steps s (event.Retire s.seat c.context) (after_retire s c)) }
{}

/// A swap of a taken thread's mark word to SPENT ends the last thread that a context (thread record) may have.
pub fn a_last_retire_is_retire<T>()
    ensures { EachCarried T (λ s c. c.held ≡ true → c.generation ≡ s.world.last → Steps s (event.Retire s.seat c.context) (after_last_retire s c)) }
{}

// ---- rest and wake

/// A store of READY to the mark word of a taken thread puts the thread back, ready, with its value.
pub fn resting_ready_is_rest<T>()
    ensures { EachHeld T (λ s c value. Steps s (event.Rest s.seat c.context rest.Ready) (after_rest_ready s c value)) }
{}

/// A compare-exchange of a taken thread's mark word from HELD to BLOCKED puts the thread back, with its value.
pub fn resting_blocked_is_rest<T>()
    ensures { EachHeld T (λ s c value. (mark_at s c.context).mark ≡ mark.Held → Steps s (event.Rest s.seat c.context rest.Blocked) (after_rest_blocked s c value)) }
{}

/// A compare-exchange of a thread's mark word from BLOCKED to READY, by any caller, wakes the thread.
pub fn a_wake_is_wake<T>()
    ensures { EachMarked T mark.Blocked (λ s x. Steps s (event.Wake (thread_at s x)) (after_wake mark.Ready s x)) }
{}

/// A compare-exchange of a thread's mark word from HELD to WOKEN, by any caller, records a wake of the running thread.
pub fn marking_woken_is_wake<T>()
    ensures { EachMarked T mark.Held (λ s x. Steps s (event.Wake (thread_at s x)) (after_wake mark.Woken s x)) }
{}

// ---- cores

/// Setting the closed bit of a core's occupancy word by an `or` closes the core.
pub fn a_close_is_close_core<T>()
    ensures { EachCore T (λ tag_in bits w d b core. StepsTo tag_in bits w (event.CloseCore core) d (with_word b core (bit_or (b.occ core) (2 ^ 62)))) }
{}

/// Clearing the closed bit of a core's occupancy word by an `and` opens the core.
pub fn an_open_is_open_core<T>()
    ensures { EachCore T (λ tag_in bits w d b core. StepsTo tag_in bits w (event.OpenCore core) d (with_word b core (bit_and (b.occ core) (2 ^ 64 - 1 - 2 ^ 62)))) }
{}

// ---- a move

/// A compare-exchange of only the slot in the mark word of a thread that nobody runs moves the thread to that slot.
///
/// The caller must have claimed the new slot on another core, and neither core may be exclusive to one thread.
pub fn a_move_is_move<T>()
    ensures { EachTarget T (λ s x c. c.alone ≡ false → (mark_at s x).place.core ≢ c.place.core → Steps s (event.Move s.seat x c.context) (after_move s x c)) }
{}

/// After a move, the number of the moved thread's context is stored in the word of its new slot.
///
/// The thread was moved before, so this store changes no thread, context or slot.
pub fn naming_the_target_is_still<T>()
    ensures { EachUnnamed T (λ s p x. Steps s event.Still (after_naming_target s p x)) }
{}

/// After a move, the slot that the thread has left is stored in the mark word of the free context whose slot it got.
/// The caller has still claimed this context.
pub fn replacing_is_still<T>()
    ensures { EachCarried T (λ s c. c.held ≡ false → Steps s event.Still (after_replacing s c)) }
{}

/// After a move, the number of the free context whose slot the thread got is stored in the word of the slot that it
/// left.
///
/// The context's mark word must already name this slot.
pub fn naming_the_source_is_still<T>()
    ensures { EachCarried T (λ s c. c.held ≡ false → c.shown ≡ c.place → Steps s event.Still (after_naming_source s c)) }
{}

// ---- seats

pub fn a_split_is_still<T>()
    ensures { EachSeat T (λ s. Steps s event.Still (after_split s)) }
{}

/// To join a seat that has neither a claim nor a thread into another changes no thread, context or slot.
pub fn a_join_is_still<T>()
    ensures { EachOtherSeat T (λ s other added o. o.carried ≡ [] → Steps s event.Still (after_join s other added o)) }
{}

// ---- the rule of a whole table

pub fn the_rule_holds_at_first<T>()
    ensures { EachFirst T (λ tag_in bits shape words. Holds tag_in bits shape (first_table shape words)) }
{}

/// In each state that a table can be in, no two threads share a context (thread record) or a slot.
///
/// A sequence of allowed changes (a claim, a post, a take or another) leads from a new table to each such state.
pub fn a_table_shows_a_run<T>()
    ensures { EachTable T (λ t. OwnedOnce t.rule.world × IsReplayed t) }
{}

/// A table still meets its rules after an atomic operation that makes one allowed change (a claim, a post, a take or
/// another), if the words then say what that change makes of the threads, contexts and slots.
pub fn a_step_keeps_the_rule<T>()
    ensures { EachStep T (λ t e next. HoldsAfter t.tag_in t.bits t.shape t.rule e next) }
{}

/// A core's occupancy word is at least two cache lines away from every other word of the table.
pub fn an_occupancy_word_stands_apart()
    ensures marks { (shape : Shape) (core x : ℕ) → x < contexts_in shape → x + SPACING ≤ occ_index (contexts_in shape) core }
    ensures cores { (n core next : ℕ) → core < next → occ_index n core + SPACING ≤ occ_index n next }
    ensures names { (n core : ℕ) (p : Place) → p.index < SLOTS
        → (name_index n p + SPACING ≤ occ_index n core) ⊎ (occ_index n core + SPACING ≤ name_index n p) }
{}

/// The atomic operations in the record of a seat (right to call) are exactly those made through it. Each found in its
/// word the value that the record gives, and made a change that was allowed then.
pub fn a_record_is_a_step<T>()
    ensures all { EachKnown T (λ t h k. k.records ≡ records_of h t.rule.history) }
    ensures each { EachKnown T (λ t h k. (at : ℕ) (r : Record) → get_elem? k.records at ≡ slot.some r → IsStepIn t h r) }
{}

/// No two seats have claimed or hold the same context or the same slot.
pub fn a_context_has_one_carrier<T>()
    ensures context { EachTwoSeats T (λ s j o. (c f : Carried) → IsContext s.world c.context → Carries s.known c → Carries o f → c.context ≡ f.context → s.seat ≡ j) }
    ensures place { EachTwoCarried T (λ s c j f. c.place ≡ f.place → (c.context ≡ f.context) × (s.seat ≡ j)) }
{}

/// An ended thread is no longer in its context and can't be woken, whoever claims the context later.
pub fn an_ended_thread_is_gone<T>()
    ensures { EachSeat T (λ s. (t : Thread) → HasEnded s.known t → IsContext s.world t.0.context × IsGoneForGood s t.0) }
{}

/// In an occupancy word, only the bits of slots that the core has are ever set.
pub fn a_word_shows_no_index_past_the_places<T>()
    ensures { EachCore T (λ tag_in bits w d b core. IsVacantFrom w.slots (occupancy_of (b.occ core))) }
{}

pub fn a_drained_word_shows_a_drained_core<T>()
    ensures { EachCore T (λ tag_in bits w d b core. is_closed (b.occ core) ≡ true → HasNoOccupied w.slots (b.occ core) → IsDrained w core) }
{}

/// If only one seat (right to call) is left, and it has neither a claim nor a thread, each thread that was put into the
/// table has ended or is still there, with its value.
pub fn what_was_posted_has_ended_or_is_left<T>()
    ensures { EachWhole T (λ t k slots. IsSettled t.tag_in k (left_from t.bits 0 t.table.words slots)) }
{}
