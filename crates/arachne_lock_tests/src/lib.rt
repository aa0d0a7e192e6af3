//! Tests of locks for hosts (programs that have their own scheduler), only by public calls: behaviour that no contract
//! states.
//!
//! The locks are proved without these tests.
#![tactic(auto)]

#[cfg(test)]
mod rows;
#[cfg(test)]
mod shortage;
