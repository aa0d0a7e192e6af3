//! The error of parsing a text that is not the text of a program.
use thiserror::Error;

/// The reason why a text was not accepted as a program. Each error in the text has the index of its byte, counted from
/// 0.
#[derive(Clone, Copy, Debug, PartialEq, Eq, Error)]
pub enum TextFault {
    /// Memory was refused. This says nothing about the text.
    #[error("out of memory")]
    Memory,
    /// The text does not begin with the line `arachne 1`.
    #[error("byte {at}: the header is missing")]
    Header { at: usize },
    /// The text breaks the grammar at byte `at`, or ends there too early.
    #[error("byte {at}: the text departs from the grammar")]
    Syntax { at: usize },
    /// The digit at byte `at` is the first that takes a number out of its range.
    #[error("byte {at}: the number is too large")]
    Number { at: usize },
    /// The opening bracket at byte `at` is the first that is nested 65 levels deep.
    #[error("byte {at}: the nesting is too deep")]
    Nesting { at: usize },
}
