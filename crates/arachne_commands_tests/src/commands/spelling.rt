//! Reads the rows of tests: a command line, an input and the expected end, as `arachne eval < INPUT => 0
//! OUTPUT!FAULTS`.
use std::alloc::{AllocError, Global};

/// Appends one piece of a text in the short notation. A piece `PART*N]TAIL` (without a `[`) stands for PART, N times,
/// and then TAIL. A piece without `]` stands for itself.
fn append(text: &mut String, piece: &str) -> Result<(), AllocError> {
    let Some((repeated, rest)) = piece.split_once(']') else {
        return text.push_str(piece);
    };
    let (part, times) = repeated.split_once('*').unwrap_or((repeated, "1"));
    for _ in 0..times.parse::<u32>().unwrap_or(0) {
        text.push_str(part)?;
    }
    text.push_str(rest)
}

/// Expands a text in the short notation: each `|` stands for the end of a line, and `[PART*N]` for PART, N times.
pub(super) fn spelled(alloc: Global, row: &str) -> Result<String, AllocError> {
    let lines = row.replace(alloc, '|', "\n")?;
    let mut text = String::new(alloc);
    for piece in lines.split('[') {
        append(&mut text, piece)?;
    }
    Ok(text)
}

pub(super) fn parts_of(row: &str) -> (&str, &str, &str) {
    let (words, rest) = row.split_once(" < ").unwrap_or((row, ""));
    let (input, told) = rest.split_once(" => ").unwrap_or((rest, ""));
    (words, input, told)
}
