//! Parses, prints, checks and evaluates programs of the task language, all on one kernel thread.
#![tactic(auto)]

mod checker;
mod evaluator;
mod laws;
mod printing;
mod reading;
mod text_fault;

pub use arachne_program::{
    CheckFault, Class, Expr, Line, Meaning, Name, Operation, Program, Reduction, Sequence,
};
pub use checker::check;
pub use evaluator::eval;
pub use laws::{
    accepted_texts_have_no_fault, names_differ, other_texts_have_a_first_fault, texts_differ,
};
pub use printing::print;
pub use reading::{Stop, figures, number, parse, word};
pub use text_fault::TextFault;
