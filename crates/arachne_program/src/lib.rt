//! The programs of the task language, as trees of expressions, and the definition of their results on one thread.
//!
//! A thread of a program may *fork* a child and join it later, and *hold* a lock while it evaluates an expression. A
//! thread may also *tally* an amount, which adds it to a *ledger*, a sum that no thread reads. A *fold* is a sequential
//! loop over a range of numbers. A *sweep* is a reduction over a range that is halved among child threads, down to a
//! length, its *grain*.
#![tactic(auto)]

mod byte_list;
mod check_fault;
mod meaning;
mod name;
mod program;
mod sequence;
mod word_list;

pub use check_fault::CheckFault;
pub use meaning::{Line, Meaning};
pub use name::Name;
pub use program::{Class, Expr, Operation, Program, Reduction};
pub use sequence::Sequence;
