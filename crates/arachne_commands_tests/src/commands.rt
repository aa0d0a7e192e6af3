//! Tests of the program over readers, writers, memory and arguments (*words*) that the tests make.
use arachne_commands::refuse_words;
use std::alloc::Global;
use std::io::{self, ErrorKind};
use std::process::Abort;

mod endings;
mod fakes;
mod shortage;
mod spelling;
mod streams;

/// Tests of arguments that can't be read. Fields: the error with which reading them fails, the exit code, and the
/// beginning of the printed text.
const NO_WORDS: &[(ErrorKind, u8, &str)] = &[
    (ErrorKind::OutOfMemory, 1, "fault 30\n"),
    (ErrorKind::InvalidData, 2, "error: "),
];

/// Checks the exit code and the printed text of a program whose arguments can't be read.
fn assert_without_words<R: Abort>(rt: &R, alloc: Global, kind: ErrorKind, code: u8, told: &str) {
    let error = io::Error::from(kind);
    let mut faults = Vec::new(alloc);
    let status = refuse_words(&mut faults, &error);
    let is_told = faults.starts_with(told.as_bytes()) && (code == 2 || faults.len() == told.len());
    assert!(rt; status == code && is_told, "{told}");
}

#[test]
fn words_that_cannot_be_had(rt: HostRuntime) {
    for &(kind, code, told) in NO_WORDS {
        assert_without_words(&rt, rt.alloc(), kind, code, told);
    }
}
