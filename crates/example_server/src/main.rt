//! A server over the pool, which answers a list of requests, and holds as many cores as the load asks for.
//!
//! `example_server < LIST` prints how many requests were answered. `example_server CORES INTERVAL [PATIENCE] < LIST`
//! also prints a log. Times are in microseconds.
#![tactic(auto)]

mod job;
mod keeper;
mod print;
mod requests;
mod send;
mod server;
mod start;
mod timer;

use anyhow::{Result, bail};
use keeper::Settings;
use requests::{Due, requests};
use start::run;
use std::env;
use std::io::Read;

/// Returns the number in the argument of index `place`, or `other` if there is no such argument.
fn number(words: &[String], place: usize, other: u64) -> u64 {
    let number = words.get(place).and_then(|word| word.as_str().parse().ok());
    number.unwrap_or(other)
}

fn settings(words: &[String]) -> Settings {
    Settings {
        most: number(words, 1, 2).clamp(1, 63) as u8,
        interval: number(words, 2, 1000).saturating_mul(1000),
        patience: number(words, 3, 10_000_000).saturating_mul(1000),
    }
}

/// Reads the list of requests from the standard input.
fn list(rt: &HostRuntime) -> Result<Vec<Due>> {
    let mut text = String::new(rt.alloc());
    rt.reader().read_to_string(&mut text)?;
    match requests(rt.alloc(), text.as_str())? {
        Some(list) => Ok(list),
        None => bail!("a line of the input is no request"),
    }
}

fn main(rt: HostRuntime) -> Result<()> {
    let words: Vec<String> = env::args(&rt)?.collect(rt.alloc())?;
    let settings = settings(words.as_slice());
    let list = list(&rt)?;
    let Some(report) = run(&rt, rt.alloc(), list.as_slice(), settings, rt) else {
        bail!("memory or a kernel thread was refused");
    };
    print::summary(&rt, &report, list.len())?;
    if words.len() > 1 {
        print::log(&rt, rt.alloc(), &report)?;
    }
    Ok(())
}
