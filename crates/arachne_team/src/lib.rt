//! Starts a team of kernel threads and joins them. A value of the caller's, the *share*, is split among the kernel
//! threads, and each returns its part when it ends.
#![tactic(auto)]

mod start;
mod team;

pub use start::work_together;
pub use team::{Team, TeamFault};
