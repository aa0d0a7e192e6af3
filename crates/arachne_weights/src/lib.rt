//! Weights, by which the last user of a shared object knows that nobody else uses it any more.
//!
//! Each thread that uses a shared object has a token. The first token has the whole weight, a split divides a token's
//! weight, and a join adds the weights of two. So the thread whose token has the whole weight is the only user of the
//! object.
#![tactic(auto)]

mod laws;
mod token;
mod weight;

pub use laws::{tokens_within_the_whole, whole_is_alone};
pub use token::Token;
pub use weight::Weight;
