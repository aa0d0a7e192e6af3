//! Tests of whole runs: of a program's report, and of how a run uses its table, its random generators (*choosers*) and
//! its observer (`Gate`). No proof depends on them.
//!
//! A test case is a `Row`: a program, the machines (numbers of cores and of steps per slice) on which it runs, and what
//! its report must show. A *ticket* is the queue entry of a child that waits for a slot. See also `docs/glossary.md`.
#![tactic(auto)]

#[cfg(test)]
mod altered;
#[cfg(test)]
mod choosers;
#[cfg(test)]
mod gates;
#[cfg(test)]
mod runs;
