//! Runs one example for each crate that can be used on its own. Each example is a module to copy.
#![tactic(auto)]

mod join;
mod lang;
mod ledger;
mod policy;
mod sleep;
mod table;

use anyhow::Result;

fn main(rt: HostRuntime) -> Result<()> {
    lang::show(&rt, rt.alloc())?;
    policy::show(&rt, rt.alloc())?;
    ledger::show(&rt, rt.alloc())?;
    join::show(&rt, rt.alloc())?;
    sleep::show(&rt, rt.alloc())?;
    table::show(&rt, rt.alloc())
}
