//! Tests of an executor by its public calls only.
#![tactic(auto)]

#[cfg(test)]
mod calls;
#[cfg(test)]
mod shortage;
#[cfg(test)]
mod sizes;
#[cfg(test)]
mod turns;
