//! Tests with streams that fail, that give or take few bytes at a time, and that never end.
use super::endings::{Told, assert_ends, ends, fault, status_of, told_by};
use super::fakes::{Failure, Script, Tray};
use super::spelling::{parts_of, spelled};
use arachne_cli::{Fault, INPUT_LIMIT, refuse};
use std::alloc::{AllocError, Global};
use std::io::ErrorKind;
use std::process::Abort;
use std::sync::Wait;
use std::thread::Threads;
use std::time::Clock;

const COMMANDS: &[&str] = &[
    "arachne run --cores 2 --quantum 1 --names 0:release:1 3:grant:1 < arachne 1|ledgers 1|locks 1|(sweep add 1 (num 0) (num 2) (hold 0 (tally 0 (num 5) (num 1))))| => 0 value 2|ledger 0 10|threads 2|thread / 1|thread /0 1|!",
    "arachne eval --names < arachne 1|ledgers 0|locks 1|(fork n (hold 0 (num 2)) (num 3) (add (var 0) (var 1)))| => 0 value 5|threads 2|thread / 0|thread /0 1|!",
    "arachne check < arachne 1|ledgers 0|locks 0|(num 7)| => 0 ok|!",
    "arachne policy < 2 151 100 1900 1000|3 100 100 1809 1000| => 0 add|remove|!",
];

/// Each of the commands, on an input that takes four reads, with a fifth that finds the end.
const LONG: &[&str] = &[
    "arachne run --cores 2 < arachne 1|array[ 1*100000]|ledgers 0|locks 0|(len 0)| => 0 value 100000|threads 1|!",
    "arachne eval < arachne 1|array[ 1*100000]|ledgers 0|locks 0|(len 0)| => 0 value 100000|threads 1|!",
    "arachne check < arachne 1|array[ 1*100000]|ledgers 0|locks 0|(len 0)| => 0 ok|!",
    "arachne policy < [2 151 100 1900 1000|3 100 100 1809 1000|*5000] => 0 [add|remove|*5000]!",
];

const REFUSED: &[&str] = &[
    "arachne run --cores 2 < arachne 1|ledgers 0|locks 0|(var 0)| => 1 !fault 8 node 0|",
    "arachne eval < arachne 1|ledgers 0|locks 0|(num 18446744073709551616)| => 1 !fault 3 at 52|",
    "arachne check <  => 1 !fault 1 at 0|",
    "arachne policy < 0 1 1 1 1| => 1 !fault 12 line 1|",
    "arachne run 0:take:1 <  => 2 !fault 26 order 0|",
];

const STEPS: &[usize] = &[1, 7, usize::MAX];

/// Errors that a stream returns, only once if the second field is true.
const ERRORS: &[(ErrorKind, bool)] = &[
    (ErrorKind::Interrupted, true),
    (ErrorKind::Interrupted, false),
    (ErrorKind::WouldBlock, true),
    (ErrorKind::WouldBlock, false),
    (ErrorKind::Other, true),
    (ErrorKind::Other, false),
];

/// Makes each read of a test case fail, one after another, and checks that the program reads no more.
///
/// The input gives at most `step` bytes at a time. Returns the number of reads.
fn each_read_fails<R: Abort + Threads + Wait + Clock + Sync>(
    rt: &R,
    alloc: Global,
    row: &str,
    step: usize,
) -> Result<u64, AllocError> {
    let (words, input, told) = parts_of(row);
    let (input, told) = (spelled(alloc, input)?, spelled(alloc, told)?);
    let mut whole = Script::of(input.as_bytes());
    whole.step = step;
    assert_ends(rt, alloc, words, &mut whole, told_by(told.as_str()))?;
    for before in 0..whole.reads {
        let at = before.wrapping_add(1);
        for &(error, once) in ERRORS {
            let mut input = Script::of(input.as_bytes());
            input.step = step;
            input.failure = Some(Failure {
                at,
                error: Some(error),
                once,
            });
            assert_ends(rt, alloc, words, &mut input, fault(b"fault 37\n"))?;
            assert!(rt; input.reads == at, "{words}: {at} {error:?} {once}");
        }
    }
    Ok(whole.reads)
}

#[test]
fn a_failed_read_is_not_tried_again(rt: HostRuntime) -> Result<(), AllocError> {
    for &row in COMMANDS {
        for &step in STEPS {
            each_read_fails(&rt, rt.alloc(), row, step)?;
        }
    }
    for &row in LONG {
        assert!(rt; each_read_fails(&rt, rt.alloc(), row, usize::MAX)? == 5);
    }
    Ok(())
}

/// Inputs without an end: the arguments, and the text that is repeated.
const ENDLESS: &[(&str, &str)] = &[
    ("arachne run", "a"),
    ("arachne eval", "arachne 1\nledgers 0\nlocks 0\n(num 7)\n"),
    ("arachne check", "(add "),
    ("arachne policy", "0 1 1 1 1 7\n"),
];

/// An input above the limit must be reported before any fault in its text.
#[test]
fn readers_that_never_end(rt: HostRuntime) -> Result<(), AllocError> {
    for &(words, text) in ENDLESS {
        let text = text.repeat(rt.alloc(), 2_000)?;
        let mut input = Script::of(b"");
        input.again = text.as_bytes();
        assert_ends(&rt, rt.alloc(), words, &mut input, fault(b"fault 36\n"))?;
        assert!(rt; input.given == INPUT_LIMIT as u64 + 1);
    }
    Ok(())
}

/// The ways in which a write fails: with an error, or by taking no byte (`None`), and whether only once.
const FAILS: &[(Option<ErrorKind>, bool)] = &[
    (None, true),
    (None, false),
    (Some(ErrorKind::Interrupted), true),
    (Some(ErrorKind::Interrupted), false),
    (Some(ErrorKind::WouldBlock), true),
    (Some(ErrorKind::WouldBlock), false),
    (Some(ErrorKind::Other), true),
    (Some(ErrorKind::Other), false),
];

#[derive(Clone, Copy, Debug)]
enum Stream {
    Output,
    Flush,
    Faults,
}

#[derive(Clone, Copy)]
struct Case<'a> {
    words: &'a str,
    input: &'a [u8],
    row: &'a str,
    step: usize,
}

fn trays(alloc: Global, step: usize, stream: Stream, failure: Option<Failure>) -> (Tray, Tray) {
    let (mut output, mut faults) = (Tray::new(alloc), Tray::new(alloc));
    output.step = step;
    faults.step = step;
    match stream {
        Stream::Output => output.failure = failure,
        Stream::Flush => output.flush_failure = failure,
        Stream::Faults => faults.failure = failure,
    }
    (output, faults)
}

/// Returns the bytes that were taken before write number `at`, if each earlier write took `step` bytes.
fn taken(bytes: &[u8], at: u64, step: usize) -> &[u8] {
    let count = (at as usize).saturating_sub(1).saturating_mul(step);
    &bytes[..count.min(bytes.len())]
}

fn told_of<'a>(case: &Case<'a>, stream: Stream, at: u64) -> Told<'a> {
    let told = told_by(case.row);
    match stream {
        Stream::Output => Told {
            status: 1,
            output: taken(told.output, at, case.step),
            faults: b"fault 38\n",
        },
        Stream::Flush => Told {
            status: 1,
            faults: b"fault 38\n",
            ..told
        },
        Stream::Faults => Told {
            faults: taken(told.faults, at, case.step),
            ..told
        },
    }
}

/// Checks how a run in which one call fails, or none, ends, and returns the number of calls on `stream`.
fn calls_of<R: Abort + Threads + Wait + Clock + Sync>(
    rt: &R,
    alloc: Global,
    case: &Case<'_>,
    stream: Stream,
    failure: Option<Failure>,
) -> Result<u64, AllocError> {
    let (mut output, mut faults) = trays(alloc, case.step, stream, failure);
    let mut script = Script::of(case.input);
    let told = match failure {
        Some(failure) => told_of(case, stream, failure.at),
        None => told_by(case.row),
    };
    let (words, output_end, faults_end) = (case.words, &mut output, &mut faults);
    let is_right = ends(rt, alloc, words, &mut script, output_end, faults_end, told)?;
    assert!(rt; is_right, "{words}: {stream:?} {failure:?}");
    Ok(match stream {
        Stream::Output => output.writes,
        Stream::Flush => output.flushes,
        Stream::Faults => faults.writes,
    })
}

/// Makes each call on `stream` fail, one after another, in each way. Checks that no later call on `stream` is made.
fn each_call_fails<R: Abort + Threads + Wait + Clock + Sync>(
    rt: &R,
    alloc: Global,
    case: &Case<'_>,
    stream: Stream,
) -> Result<(), AllocError> {
    let calls = calls_of(rt, alloc, case, stream, None)?;
    for at in 1..=calls {
        for &(error, once) in FAILS {
            let failure = Some(Failure { at, error, once });
            let made = calls_of(rt, alloc, case, stream, failure)?;
            assert!(rt; made == at, "{failure:?}");
        }
    }
    Ok(())
}

/// Tests that the program repeats no failed call: a write of the output, its flush, or a write of an error message. If
/// the message can't be written, the output and the exit status must not change.
#[test]
fn a_failed_write_is_not_tried_again(rt: HostRuntime) -> Result<(), AllocError> {
    let alloc = rt.alloc();
    for rows in [COMMANDS, REFUSED] {
        for &row in rows {
            let (words, input, told) = parts_of(row);
            let (input, text) = (spelled(alloc, input)?, spelled(alloc, told)?);
            for &step in STEPS {
                let case = Case {
                    words,
                    input: input.as_bytes(),
                    row: text.as_str(),
                    step,
                };
                for stream in [Stream::Output, Stream::Flush, Stream::Faults] {
                    each_call_fails(&rt, alloc, &case, stream)?;
                }
            }
        }
    }
    Ok(())
}

/// Command lines that `clap` (the parser of arguments) answers with a text.
const USAGE: &[&str] = &["arachne", "arachne eval --cores 4", "arachne run --help"];

/// Tests that, if the arguments are refused, the exit status is the same even if the usage text can't be written.
///
/// No test interrupts every write: `std` repeats an interrupted write of that text, and would not end.
#[test]
fn a_usage_that_fails_changes_nothing(rt: HostRuntime) -> Result<(), AllocError> {
    let alloc = rt.alloc();
    for &words in USAGE {
        let words: Vec<&str> = words.split(' ').collect(alloc)?;
        for at in 1..40 {
            for &(error, once) in FAILS {
                if error == Some(ErrorKind::Interrupted) && !once {
                    continue;
                }
                let mut script = Script::of(b"");
                let failure = Some(Failure { at, error, once });
                let (mut output, mut faults) = trays(alloc, 16, Stream::Faults, failure);
                let status = status_of(
                    &rt,
                    alloc,
                    words.as_slice(),
                    &mut script,
                    &mut output,
                    &mut faults,
                );
                assert!(rt; status == 2 && script.reads == 0 && output.writes == 0);
            }
        }
    }
    Ok(())
}

/// Tests that the longest error message is written whole, even if the writer takes one byte at a time.
#[test]
fn the_longest_fault_line_is_written_whole(rt: HostRuntime) {
    for &step in STEPS {
        let mut faults = Tray::new(rt.alloc());
        faults.step = step;
        let status = refuse(&mut faults, Fault::NoOrder { index: usize::MAX }.line());
        let line = b"fault 26 order 18446744073709551615\n";
        assert!(rt; status == 1 && faults.kept.as_slice() == line.as_slice());
    }
}
