//! Reads the command-line arguments of this process.
use std::alloc::{Alloc, Global};
use std::env::{self, Env};
use std::io;

/// Returns the command-line arguments of this process, of which the first is the program's own name.
pub fn process_words<R: Env + Alloc<A = Global>>(rt: &R) -> io::Result<Vec<String>> {
    let words = env::args(rt)?;
    Ok(words.collect(rt.alloc())?)
}
