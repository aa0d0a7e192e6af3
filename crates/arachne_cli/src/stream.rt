//! Reads an input of limited length to its end, and writes byte slices in full.
ghost use Rattle.std.specs.Prelude.{◌≡◌, ◌≢◌, ◌≤◌, ◌+◌, List, ℕ, length, OnOk, OnErr, IfOk, IfErr, IfSome};
ghost use Rattle.std.specs.Io.KnownBytes.{Appends, Consumes};
ghost use Rattle.arachne_cli.specs.declared.command_line.SerialRequest.{SerialRequest};
ghost use Rattle.arachne_cli.specs.Answers.{IsCause, input_limit};
ghost use Rattle.arachne_cli.specs.Ends.{AppendsFront};

use crate::fault::Fault;
use std::alloc::Global;
use std::io::{Read, Write};

/// The greatest length of an input, in bytes.
pub const INPUT_LIMIT: usize = 33_554_432;

/// The greatest number of bytes that one read asks for.
const CHUNK: usize = 65_536;

/// Reads `input` to its end. Reads at most `INPUT_LIMIT + 1` bytes.
///
/// Returns `Err` at the first error of the reader, if memory is refused, or if the input is longer than `INPUT_LIMIT`.
pub fn read_input<R: Read>(alloc: Global, input: &mut R) -> Result<Vec<u8>, Fault>
    ensures whole { IfOk result (λ bytes. IfSome (R.remaining input.old) (λ text. bytes.items ≡ text)) }
    ensures within { IfOk result (λ bytes. length bytes.items ≤ input_limit) }
    ensures cause { (request : SerialRequest) → IfErr result (λ fault. (fault ≢ Fault.Write) × IfSome (R.remaining input.old) (λ text. IsCause request text fault)) }
    ensures no_more { (bytes : List ℕ) × Consumes (R.remaining input.old) (R.remaining input.new) bytes × (length bytes ≤ input_limit + 1) }
{
    let mut bytes = Vec::new(alloc);
    let mut chunk = [0u8; CHUNK];
    while bytes.len() <= INPUT_LIMIT {
        let room = CHUNK.min(INPUT_LIMIT + 1 - bytes.len());
        let part = &mut chunk[..room];
        let Ok(count) = input.read(part) else {
            return Err(Fault::Read);
        };
        if count == 0 {
            return Ok(bytes);
        }
        let Ok(()) = bytes.extend_from_slice(&part[..count]) else {
            return Err(Fault::Memory);
        };
    }
    Err(Fault::TooLong)
}

/// Writes all of `bytes` to `writer`.
///
/// Returns `Err` at the first error of the writer, or if a call of the writer's `write` accepts no byte. In both cases
/// only a prefix of `bytes` was written.
pub fn write_bytes<W: Write>(writer: &mut W, bytes: &[u8]) -> Result<(), Fault>
    ensures ok { OnOk result (Appends (W.contents writer.old) (W.contents writer.new) bytes.now) }
    ensures err { IfErr result (λ fault. fault ≡ Fault.Write) }
    ensures front { OnErr result (AppendsFront (W.contents writer.old) (W.contents writer.new) bytes.now) }
{
    let mut written = 0;
    while written < bytes.len() {
        match writer.write(&bytes[written..]) {
            Ok(count) if count > 0 => written += count,
            _ => return Err(Fault::Write),
        }
    }
    Ok(())
}
