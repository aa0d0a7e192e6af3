//! An example of the executor `arachne_exec`: jobs that wait for others, run by two and then by four kernel threads.
#![tactic(auto)]

mod relay;

use crate::relay::Relay;
use anyhow::{Context, Result};
use arachne_team::work_together;

/// The number of jobs that the relay has for each kernel thread.
const JOBS: usize = 500;

fn main(rt: HostRuntime) -> Result<()> {
    for team in [2, 4] {
        let (relay, seat) = Relay::new(rt.alloc(), team, JOBS)?;
        let joined = work_together(&rt, rt.alloc(), &relay, seat);
        let seat = joined.context("a kernel thread was refused")?;
        let ended = relay.ended();
        let left = relay.close(rt.alloc(), seat).context("memory was refused")?;
        println!(rt;
            "{team} kernel threads: {ended} jobs ended, each after the one before it; {left} are left"
        )?;
    }
    Ok(())
}
