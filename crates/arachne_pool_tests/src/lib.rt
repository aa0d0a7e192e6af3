//! Tests of pools for what no contract says: that kernel threads take part, that jobs are woken, and on which cores
//! jobs run. The crates under test are proved without these tests.
//!
//! A test case is a `Row`: a pool, and what kernel threads do with it, as lists of *acts* with the expected result of
//! each. A *spell* is the part of a test case that one of two kernel threads does, at the same time as the other does
//! its own. A *round* is one pass of a worker's loop.
#![tactic(auto)]

#[cfg(test)]
mod board;
#[cfg(test)]
mod rounds;
#[cfg(test)]
mod rows;
#[cfg(test)]
mod runs;
#[cfg(test)]
mod serving;
#[cfg(test)]
mod spells;
#[cfg(test)]
mod tasks;
