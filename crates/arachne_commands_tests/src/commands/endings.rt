//! Runs the program and compares its exit status, its output and its error messages with the expected ones.
use super::fakes::{Script, Tray};
use arachne_commands::drive;
use std::alloc::{AllocError, Global};
use std::process::Abort;
use std::sync::Wait;
use std::thread::Threads;
use std::time::Clock;

/// The expected exit status, output and error messages of a run.
///
/// The word `usage` stands for any usage text of the command-line parser `clap`.
#[derive(Clone, Copy)]
pub(super) struct Told<'a> {
    pub(super) status: u8,
    pub(super) output: &'a [u8],
    pub(super) faults: &'a [u8],
}

pub(super) fn fault(line: &[u8]) -> Told<'_> {
    Told {
        status: 1,
        output: b"",
        faults: line,
    }
}

/// Parses an expected result: the exit status, the output and, after a `!`, the error messages.
pub(super) fn told_by(row: &str) -> Told<'_> {
    let (status, streams) = row.split_once(' ').unwrap_or((row, ""));
    let (output, faults) = streams.split_once('!').unwrap_or((streams, ""));
    Told {
        status: match status {
            "0" => 0,
            "1" => 1,
            _ => 2,
        },
        output: output.as_bytes(),
        faults: faults.as_bytes(),
    }
}

pub(super) fn shown(status: u8, faults: &[u8]) -> &[u8] {
    if status == 2 && !faults.starts_with(b"fault") && !b"fault".starts_with(faults) {
        return b"usage";
    }
    faults
}

/// Has no contract on the streams, so that the proofs of the tests are short.
pub(super) fn status_of<R: Threads + Wait + Clock + Sync>(
    rt: &R,
    alloc: Global,
    words: &[&str],
    input: &mut Script<'_>,
    output: &mut Tray,
    faults: &mut Tray,
) -> u8 {
    drive(rt, alloc, words, input, output, faults)
}

/// Returns true if the program ends as expected with these arguments and streams.
///
/// After a success, the output must have been flushed once, at its end. If the arguments are refused, the program must
/// not read the input.
pub(super) fn ends<R: Threads + Wait + Clock + Sync>(
    rt: &R,
    alloc: Global,
    words: &str,
    input: &mut Script<'_>,
    output: &mut Tray,
    faults: &mut Tray,
    told: Told<'_>,
) -> Result<bool, AllocError> {
    let words: Vec<&str> = words.split(' ').collect(alloc)?;
    let status = status_of(rt, alloc, words.as_slice(), input, output, faults);
    Ok(
        status == told.status
            && output.kept.as_slice() == told.output
            && shown(status, faults.kept.as_slice()) == told.faults
            && (status != 0 || output.is_flushed_once())
            && (status != 2 || input.reads == 0),
    )
}

pub(super) fn assert_ends<R: Abort + Threads + Wait + Clock + Sync>(
    rt: &R,
    alloc: Global,
    words: &str,
    input: &mut Script<'_>,
    told: Told<'_>,
) -> Result<(), AllocError> {
    let (mut output, mut faults) = (Tray::new(alloc), Tray::new(alloc));
    let is_right = ends(rt, alloc, words, input, &mut output, &mut faults, told)?;
    assert!(rt; is_right, "{words}");
    Ok(())
}
