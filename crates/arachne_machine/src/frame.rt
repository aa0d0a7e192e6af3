//! A thread's next action, and its stack frames.
use arachne_program::{Expr, Operation, Reduction};

#[derive(Clone, Copy)]
pub struct Stretch<'p> {
    pub reduction: Reduction,
    /// The greatest length of a range that isn't halved between two threads.
    pub grain: u64,
    pub first: u64,
    pub end: u64,
    pub body: &'p Expr,
}

/// The next action of a thread, or the request at which it has paused.
#[derive(Clone, Copy)]
pub enum Control<'p> {
    Begin(&'p Expr),
    Give(u64),
    Cover(Stretch<'p>),
    /// The thread has paused at a fork, after which it evaluates this expression.
    Forked(&'p Expr),
    /// The thread has paused at the fork of a child for a range's left half, and next reduces this right half.
    Halved(Stretch<'p>),
    /// The thread waits to join child `number`, and then evaluates `after`. It has computed `during` while the child
    /// ran.
    Awaits {
        number: u64,
        during: u64,
        after: &'p Expr,
    },
    /// The thread waits to join child `number`, which reduces the left half of a range. The right half yielded `right`.
    AwaitsHalf {
        number: u64,
        right: u64,
        reduction: Reduction,
    },
    Asks {
        lock: u64,
        body: &'p Expr,
    },
    Frees {
        lock: u64,
        value: u64,
    },
    /// The thread asks the caller to add `amount` to a ledger, and then evaluates `body`.
    Tallies {
        ledger: u64,
        amount: u64,
        body: &'p Expr,
    },
    Ended(u64),
}

/// A stack frame, which waits for the value of a part of an expression.
#[derive(Clone, Copy)]
pub enum Frame<'p> {
    /// Waits for an index into the array that has this number.
    Index(u64),
    /// Waits for the left operand. This expression is the right one.
    Right(Operation, &'p Expr),
    /// Waits for the right operand. The left one has this value.
    Apply(Operation, u64),
    /// Waits for a condition: the first expression follows if it is not 0, otherwise the second.
    Branch(&'p Expr, &'p Expr),
    /// Waits for the value of a new variable, with which the thread then evaluates this expression.
    Extend(&'p Expr),
    /// Waits for an amount to add to the ledger of this number. This expression follows.
    Amount(u64, &'p Expr),
    /// Waits for the value computed under the lock of this number, and then releases the lock.
    Release(u64),
    /// Waits for the value that this thread computes while child `number` runs. The join and `after` follow.
    Join {
        number: u64,
        after: &'p Expr,
    },
    /// Waits for the value of a range's right half. The join of child `number`, which reduces the left half, follows.
    Merge {
        number: u64,
        reduction: Reduction,
    },
    /// Waits for the value that this thread computes before child `number` runs inside this thread's slot.
    JoinHere {
        number: u64,
        child: &'p Expr,
        after: &'p Expr,
    },
    /// Waits for the value of a range's right half. Child `number` then reduces the half `left` inside this thread's
    /// slot.
    MergeHere {
        number: u64,
        left: Stretch<'p>,
    },
    /// Waits for the lower end of a fold (a sequential loop). Fields: the upper end, the first value, and the body.
    FoldTo(&'p Expr, &'p Expr, &'p Expr),
    /// Waits for the upper end of a fold (a sequential loop). Fields: the lower end, the first value, and the body.
    FoldFirst(u64, &'p Expr, &'p Expr),
    /// Waits for the first value of a fold (a sequential loop). Fields: the lower end, the upper end, and the body.
    FoldStart(u64, u64, &'p Expr),
    /// Waits for the value of one iteration of a fold (a sequential loop). The iterations for `next..end` follow.
    FoldTurn {
        next: u64,
        end: u64,
        body: &'p Expr,
    },
    /// Waits for the lower end of a sweep (a parallel reduction). Fields: the reduction, the greatest length that is
    /// not halved, the upper end, and the body.
    SweepTo(Reduction, u64, &'p Expr, &'p Expr),
    /// Waits for the upper end of a sweep (a parallel reduction). Fields: the reduction, the greatest length that is
    /// not halved, the lower end, and the body.
    SweepStart(Reduction, u64, u64, &'p Expr),
    /// Waits for the body's value for one number of a sweep (a parallel reduction). The numbers `next..end` follow.
    SweepTurn {
        reduction: Reduction,
        next: u64,
        end: u64,
        so_far: u64,
        body: &'p Expr,
    },
    /// Waits for any value, and then removes the variables from this index on.
    Restore(usize),
}
