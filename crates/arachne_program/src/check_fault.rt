//! The reasons for which the checker refuses a program.
use thiserror::Error;

/// The reason why the checker refused a program.
///
/// Most faults carry the number of the faulty node, counted from 0 in the order of the program's text.
#[derive(Clone, Copy, Debug, PartialEq, Eq, Error)]
pub enum CheckFault {
    #[error("the nesting is too deep")]
    Nesting,
    /// The program has more than 4,096 nodes, 64 arrays, 1,000,000 items in all arrays, 16 ledgers or 16 locks.
    #[error("the program is over a limit")]
    OverLimit,
    /// The node of this number uses an array that the program does not have.
    #[error("node {0}: there is no such array")]
    NoArray(u64),
    /// The node of this number uses a ledger (a shared sum) that the program does not have.
    #[error("node {0}: there is no such ledger")]
    NoLedger(u64),
    /// The node of this number uses a lock that the program does not have.
    #[error("node {0}: there is no such lock")]
    NoLock(u64),
    /// The node of this number uses a variable that no expression around the node binds.
    #[error("node {0}: the variable is not bound")]
    Unbound(u64),
    /// The node of this number forks, sweeps or takes a lock inside an expression that is evaluated under a lock.
    #[error("node {0}: a fork, a sweep or a hold within a hold")]
    WithinHold(u64),
    /// The node of this number is a sweep (parallel reduction) with the grain (greatest length that is not halved) 0.
    #[error("node {0}: the grain is 0")]
    NoGrain(u64),
}
