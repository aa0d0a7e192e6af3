//! A program with the commands `eval`, `check` and `policy` of `arachne`, but not `run`.
#![tactic(auto)]

use arachne_cli::{drive, process_words, refuse_words};
use std::io;
use std::process::ExitCode;

fn main(rt: HostRuntime) -> ExitCode {
    let (input, output, faults) = (&mut rt.reader(), &mut io::writer(&rt), &mut rt.stderr());
    let code = match process_words(&rt) {
        Ok(words) => drive(rt.alloc(), words.as_slice(), input, output, faults),
        Err(error) => refuse_words(faults, &error),
    };
    ExitCode::from(code)
}
