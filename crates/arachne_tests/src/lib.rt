//! Tests of the library crates by their public calls only, with a module for each crate.
//!
//! The crates are proved without these tests.
#![tactic(auto)]

#[cfg(test)]
mod join;
#[cfg(test)]
mod lang;
#[cfg(test)]
mod ledger;
#[cfg(test)]
mod machine;
#[cfg(test)]
mod policy;
#[cfg(test)]
mod pure_core;
#[cfg(test)]
mod sleep;
#[cfg(test)]
mod spill;
