//! Decisions on cores: which one gets a new thread, when to add or remove one, and whether orders to do so are valid.
//!
//! Every call is a pure function of numbers, which allocates no memory and never waits.
#![tactic(auto)]

mod choices;
mod estimator;
pub mod laws;
mod limits;
mod orders;
mod samples;

pub use choices::{CoreLoad, two_choices};
pub use estimator::Estimator;
pub use limits::{MAX_CORES, MAX_COUNT};
pub use orders::{CoreOrder, OrderFault, OrderFaultKind, OrderKind, check_orders};
pub use samples::{Advice, BadSample, Sample};
