//! Laws that hold for each lock at any time. Each law is the contract of an empty function.
ghost use Rattle.std.specs.Prelude.{ℕ, List};
ghost use Rattle.atomic_table.specs.Table.{Enters, Arrives};
ghost use Rattle.arachne_lock.specs.declared.event.QueueEvent.{QueueEvent};
ghost use Rattle.arachne_lock.specs.History.{IsLawful};
ghost use Rattle.arachne_lock.specs.Promises.{HasOneHolderAtATime, GrantsNoneThatLeft, IsHeldWell};
ghost use Rattle.arachne_lock.specs.Rule.{Board, IsKept};

/// In each history that the rules of a lock allow, one task at a time holds the lock.
///
/// Between any two grants, the task of the first grant frees the lock. Each free follows a grant to the same task,
/// without another grant or free between them.
pub fn one_holder_at_a_time()
    ensures { (events : List QueueEvent) → IsLawful events → HasOneHolderAtATime events }
{}

/// In each history that the rules of a lock allow, a task that has left the queue gets the lock only if it asks again.
pub fn one_that_left_is_not_granted()
    ensures { (events : List QueueEvent) → IsLawful events → GrantsNoneThatLeft events }
{}

/// So far, no two tasks have held a lock at the same time, and no lock was granted to a task after it had left the
/// queue, unless it asked again.
///
/// Both laws hold for each lock between any two atomic operations. All calls on a lock form one history.
pub fn locks_have_one_holder()
    ensures { (locks : ℕ) (board : Board) → (rule : IsKept locks board) → (lock : ℕ) → IsHeldWell (rule.histories lock) }
{}

/// Each seat (a kernel thread's right to call the locks), except the first, was split off another seat, whose log
/// counts the split. No atomic operation on a lock's words creates a seat.
pub fn seats_are_split_off()
    ensures enters { (locks word : ℕ) → ¬ Enters (IsKept locks) locks word (λ n view. Unit {0}) }
    ensures arrives { (locks word : ℕ) (f : ℕ → ℕ) → ¬ Arrives (IsKept locks) locks word f (λ n seat. Unit {0}) }
{}
