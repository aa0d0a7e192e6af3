//! Tests of the program in a process whose memory is used up; each run has a little more memory than the run before.
use super::endings::{Told, shown, status_of, told_by};
use super::fakes::{Script, Tray};
use super::spelling::{parts_of, spelled};
use arachne_shortage::Hoard;
use std::alloc::{AllocError, Global};
use std::process::Abort;
use std::sync::Wait;
use std::thread::Threads;
use std::time::Clock;

const RUNS: u64 = 5_000;

const BYTES: usize = 100;

const WANTS: &[&[u8]] = &[b"fault 30\n", b"fault 35\n"];

/// Returns true if the run ends as expected.
///
/// Returns false if memory or a kernel thread was refused, and `None` if it ends in any other way.
fn is_told<R: Threads + Wait + Clock + Sync>(
    rt: &R,
    alloc: Global,
    words: &[&str],
    input: &[u8],
    told: Told<'_>,
    output: &mut Tray,
    faults: &mut Tray,
) -> Option<bool> {
    output.kept.clear();
    faults.kept.clear();
    let status = status_of(rt, alloc, words, &mut Script::of(input), output, faults);
    let (output, faults) = (output.kept.as_slice(), faults.kept.as_slice());
    if status == told.status && output == told.output && shown(status, faults) == told.faults {
        return Some(true);
    }
    let wants = WANTS.contains(&faults);
    if status == 1 && output.is_empty() && wants {
        return Some(false);
    }
    None
}

const ROWS: &[&str] = &[
    "arachne run --cores 1 --names < arachne 1|ledgers 1|locks 1|(sweep add 1 (num 0) (num 8) (hold 0 (tally 0 (num 5) (num 1))))| => 0 value 8|ledger 0 40|threads 8|thread / 1|thread /2 1|thread /1 1|thread /1/0 1|thread /0 1|thread /0/1 1|thread /0/0 1|thread /0/0/0 1|!",
    "arachne eval --names < arachne 1|ledgers 0|locks 1|(fork n (hold 0 (num 2)) (num 3) (add (var 0) (var 1)))| => 0 value 5|threads 2|thread / 0|thread /0 1|!",
    "arachne check < arachne 1|ledgers 0|locks 0|(num 7)| => 0 ok|!",
    "arachne policy < 2 151 100 1900 1000|3 100 100 1809 1000| => 0 add|remove|!",
    "arachne run 0:take:1 <  => 2 !fault 26 order 0|",
    "arachne eval --cores 4 <  => 2 !usage",
    "arachne help policy <  => 2 !usage",
];

/// Once memory was used up, the C library gives no memory to a new kernel thread, even after memory was freed, so that
/// runs on several cores need not end as they do with enough memory.
const ON_CORES: &[&str] = &[
    "arachne run --cores 4 --quantum 1 --names 0:release:1 1:release:2 2:grant:1 < arachne 1|ledgers 0|locks 0|(sweep add 2 (num 0) (num 8) (var 0))| => 0 value 28|threads 4|thread /|thread /1|thread /0|thread /0/0|!",
];

/// Runs a test case with no memory, and then with a little more each time, until it ends as expected.
///
/// Stops after `most` runs. Returns the number of runs.
fn ends_at_last<R: Abort + Threads + Wait + Clock + Sync>(
    rt: &R,
    alloc: Global,
    row: &str,
    most: u64,
) -> Result<u64, AllocError> {
    let (words, input, told) = parts_of(row);
    let (input, told) = (spelled(alloc, input)?, spelled(alloc, told)?);
    let parts: Vec<&str> = words.split(' ').collect(alloc)?;
    let (parts, input, told) = (parts.as_slice(), input.as_bytes(), told_by(told.as_str()));
    let mut output = Tray::with_room(alloc, 1_000)?;
    let mut faults = Tray::with_room(alloc, 2_000)?;
    let with_memory = is_told(rt, alloc, parts, input, told, &mut output, &mut faults);
    assert!(rt; with_memory == Some(true), "{words}");
    let mut hoard = Hoard::take(alloc)?;
    let mut runs = 0u64;
    for _ in 0..most {
        runs = runs.wrapping_add(1);
        let ended = is_told(rt, alloc, parts, input, told, &mut output, &mut faults);
        assert!(rt; ended.is_some(), "{words}: {runs}");
        if ended == Some(true) {
            break;
        }
        hoard.give_back(BYTES);
    }
    Ok(runs)
}

/// Each test case must need more than ten runs. On one core, it must at last end as with enough memory.
#[test]
fn each_growth_is_refused(rt: HostRuntime) -> Result<(), AllocError> {
    for &row in ROWS {
        let runs = ends_at_last(&rt, rt.alloc(), row, RUNS)?;
        assert!(rt; runs > 10 && runs < RUNS, "{row}: {runs}");
    }
    for &row in ON_CORES {
        let runs = ends_at_last(&rt, rt.alloc(), row, 200)?;
        assert!(rt; runs > 10);
    }
    Ok(())
}
