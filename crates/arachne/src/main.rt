//! The program `arachne`: runs, evaluates and checks programs of the task language, and judges samples of a load.
#![tactic(auto)]

use arachne_commands::{drive, process_words, refuse_words};
use std::io;
use std::process::ExitCode;

fn main(rt: HostRuntime) -> ExitCode {
    let (input, output, faults) = (&mut rt.reader(), &mut io::writer(&rt), &mut rt.stderr());
    let code = match process_words(&rt) {
        Ok(words) => drive(&rt, rt.alloc(), words.as_slice(), input, output, faults),
        Err(error) => refuse_words(faults, &error),
    };
    ExitCode::from(code)
}
