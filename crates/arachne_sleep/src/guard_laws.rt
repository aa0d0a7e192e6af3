//! Laws of the atomic operations on a lock's guard word, which is 1 during a call on the lock and otherwise 0. Each law
//! is the contract of an empty function.
//! Each law says that one operation keeps the invariant of the lock's table, in any state of the table, and which
//! entries the operation adds to the log of the caller's seat (a kernel thread's right to call the lock).
ghost use Rattle.std.specs.Prelude.{◌≡◌, ℕ, ◌==◌, List, [], ◌∷◌, slice_get, Some};
ghost use mathlib.Core.Option.{some};
ghost use lib.ListN.{get_elem?};
ghost use prog.Atomic.{either};
ghost use Rattle.atomic_table.specs.Table.{opening, Allows, Splits, Joins};
ghost use Rattle.arachne_weights.specs.Tokens.{held};
ghost use Rattle.arachne_sleep.specs.declared.event.LockEvent.{LockEvent};
ghost use Rattle.arachne_sleep.specs.declared.view.Known.{Known};
ghost use Rattle.arachne_sleep.specs.declared.view.Record.{Record};
ghost use Rattle.arachne_sleep.specs.declared.view.SeatLog.{SeatLog};
ghost use Rattle.arachne_sleep.specs.Views.{Guarded};
ghost use Rattle.arachne_sleep.specs.Words.{guard_word, first_words};
ghost use Rattle.arachne_sleep.specs.Trace.{Entry, Tells, records_of, IsStepOf};
ghost use Rattle.arachne_sleep.specs.Rule.{Board, IsKept, idle_known, first_view, first_seat, second_seat, joined_seat, spent_seat};
ghost use Rattle.arachne_sleep.specs.Steps.{Mine, idle, Takes, GivesBack, IsReturnable};

/// The table of a new lock meets the invariant.
pub fn the_rule_holds_at_first()
    ensures { (number : ℕ) (guarded : Guarded) → guarded.state ≡ record { number = number; history = [] }
        → IsKept number (opening first_words (guarded ∷ []) (first_view number)) }
{}

/// A compare-exchange of a lock's atomic word from 0 to 1 keeps the invariant.
///
/// If it succeeds, the caller's seat has the lock's state, whose history extends each history in the seat's log. If it
/// fails, another seat has the lock's state.
pub fn a_try_keeps_the_rule()
    ensures { (number slots id weight : ℕ) (log : SeatLog)
        → Allows (IsKept number) slots id (idle weight log) guard_word (λ n. either (n == 0) 1 n) (Takes (idle weight log)) }
{}

/// A store of 0 to a lock's atomic word keeps the invariant.
///
/// The seat puts the lock's state back, with a history that extends the one that it found when it took the state.
pub fn giving_back_keeps_the_rule()
    ensures { (number slots id : ℕ) (me : Mine) (guarded : Guarded) (before : List LockEvent) → slots ≡ 1 → IsReturnable me guarded before
        → Allows (IsKept number) slots id me guard_word (λ _. 0) (λ _ after. GivesBack me after) }
{}

/// A split of a seat keeps the invariant. The new seat's log has the histories that the old seat has read, but no
/// events.
pub fn a_split_keeps_the_rule()
    ensures { (number id weight : ℕ) (log : SeatLog)
        → Splits (IsKept number) id (held weight (idle_known log)) (first_seat (held weight (idle_known log))) (second_seat (held weight (idle_known log))) }
{}

/// A join of two seats keeps the invariant. The resulting seat's log has the entries of both logs.
pub fn a_join_keeps_the_rule()
    ensures { (number id weight : ℕ) (log : SeatLog) (other added : ℕ) (theirs : SeatLog)
        → Joins (IsKept number) id (held weight (idle_known log)) other (held added (idle_known theirs))
        (joined_seat (held weight (idle_known log)) (held added (idle_known theirs))) spent_seat }
{}

/// The log of a seat (a right to call) has exactly the seat's own operations on the lock's atomic word.
///
/// Each operation found the value that the operation before it, of whatever seat, has left in the word.
pub fn a_record_is_a_step()
    ensures all { (number : ℕ) (board : Board) → (rule : IsKept number board) → (place weight : ℕ) (known : Known)
        → get_elem? board.views place ≡ some (held weight known) → known.log.records ≡ records_of place rule.trace }
    ensures each { (number : ℕ) (board : Board) → (rule : IsKept number board) → (place weight : ℕ) (known : Known)
        → get_elem? board.views place ≡ some (held weight known)
        → (at : ℕ) (step : Record) → slice_get known.log.records at ≡ Some step → IsStepOf rule.trace place step }
    ensures replays { (number : ℕ) (board : Board) → (rule : IsKept number board) → Tells rule.trace board.words board.views }
{}
