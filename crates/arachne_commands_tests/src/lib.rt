//! Tests of the program's commands by public calls only. No proof depends on these tests.
#![tactic(auto)]

#[cfg(test)]
mod commands;
