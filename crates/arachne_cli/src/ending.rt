//! Writes the program's output, or an error message, at the end of the program, and determines its exit status.
ghost use Rattle.std.specs.Prelude.{◌≡◌, ◌≢◌, ◌≤◌, IfErr, OnOk, OnErr};
ghost use Rattle.std.specs.Io.KnownBytes.{Appends};
ghost use Rattle.std.specs.IoError.{error_kind};
ghost use Rattle.arachne_cli.specs.Fault.{fault_line, line_text};
ghost use Rattle.arachne_cli.specs.Ends.{AppendsFront, IsTold};

use crate::command_line::NotAsked;
use crate::fault::{Fault, FaultLine};
use crate::stream::write_bytes;
use arrayvec::ArrayString;
use clap::error::ErrorKind;
use std::fmt::Write as _;
use std::io::{self, ErrorKind as StreamFault, Write};

/// The exit status after success.
pub const DONE: u8 = 0;

/// The exit status after a fault.
pub const FAULT: u8 = 1;

/// The exit status after wrong arguments.
pub const WORDS: u8 = 2;

/// The size in bytes of a buffer that holds the error message of any fault.
const LINE: usize = 64;

/// Writes all of `text` to `output`, and flushes `output` once. Returns `Err` at the first error of the writer.
pub fn finish<W: Write>(output: &mut W, text: &str) -> Result<(), Fault>
    ensures ok { OnOk result (Appends (W.contents output.old) (W.contents output.new) text.now) }
    ensures front { OnErr result (AppendsFront (W.contents output.old) (W.contents output.new) text.now) }
    ensures err { IfErr result (λ fault. fault ≡ Fault.Write) }
{
    write_bytes(output, text.as_bytes())?;
    match output.flush() {
        Ok(()) => Ok(()),
        Err(_) => Err(Fault::Write),
    }
}

/// Writes the error message `line` to `faults`, and ignores errors of that writer. Always returns the exit status 1.
/// Allocates no memory.
pub fn refuse<W: Write>(faults: &mut W, line: FaultLine) -> u8
    ensures status { result ≡ 1 }
    ensures line { AppendsFront (W.contents faults.old) (W.contents faults.new) (line_text line) }
{
    let mut text = ArrayString::<LINE>::new();
    if let Ok(()) = writeln!(text, "{line}") {
        let _ = write_bytes(faults, text.as_bytes());
    }
    FAULT
}

/// Writes to `faults` the reason why the arguments of the process could not be read. Returns the exit status: 1 if
/// memory was refused, otherwise 2.
pub fn refuse_words<W: Write>(faults: &mut W, error: &io::Error) -> u8
    ensures memory { error_kind error.now ≡ StreamFault.OutOfMemory
        → (result ≡ 1) × AppendsFront (W.contents faults.old) (W.contents faults.new) (fault_line Fault.Memory) }
    ensures other { error_kind error.now ≢ StreamFault.OutOfMemory → result ≡ 2 }
{
    if error.kind() == StreamFault::OutOfMemory {
        return refuse(faults, Fault::Memory.line());
    }
    let _ = writeln!(faults, "error: {error}");
    WORDS
}

/// Writes `why`, the reason why the arguments are no valid request, to `faults`. Returns the exit status: 1 if memory
/// was refused, otherwise 2.
pub fn refuse_request<W: Write>(faults: &mut W, why: &NotAsked) -> u8
    ensures some { 1 ≤ result }
    ensures most { result ≤ 2 }
    ensures memory { result ≡ 1 → AppendsFront (W.contents faults.old) (W.contents faults.new) (fault_line Fault.Memory) }
    ensures told { result ≡ 2 → IsTold why.now (W.contents faults.old) (W.contents faults.new) }
{
    match why {
        NotAsked::NoOrder { index } => {
            refuse(faults, Fault::NoOrder { index: *index }.line());
            WORDS
        }
        NotAsked::Refused(error) if error.kind() == ErrorKind::OutOfMemory => {
            refuse(faults, Fault::Memory.line())
        }
        NotAsked::Refused(error) => {
            let _ = write!(faults, "{error}");
            WORDS
        }
    }
}
