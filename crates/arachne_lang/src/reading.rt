//! Parses the text of a program, or says at which byte the text has its first error.

ghost use Rattle.std.specs.Prelude.{◌≡◌, ◌⊎◌, Err, IfOk, IfErr, IsErrAnd, MatchResult};
ghost use Rattle.arachne_lang.specs.declared.text_fault.TextFault.{TextFault as Fault};
ghost use Rattle.arachne_program.specs.Tree.{Source};
ghost use Rattle.arachne_program.specs.Program.{source_of};
ghost use Rattle.arachne_lang.specs.Spelling.{header, text_of};
ghost use Rattle.arachne_lang.specs.Text.{IsAccepted, IsFirstFault, StartsWith};
ghost use Rattle.arachne_lang.specs.Reading.{Gives, program_at};

mod arrays;
mod expressions;
mod heads;
mod numbers;
mod stop;
mod words;

use crate::text_fault::TextFault;
use arachne_program::Program;
use arrays::array_lines;
use expressions::expression;
use numbers::small_number;
pub use numbers::{figures, number};
use std::alloc::Global;
pub use stop::Stop;
pub use words::word;

const NESTING: u8 = 64;

/// Parses the text of a program. Returns `Err` with the first error of the text, or if memory is refused.
///
/// Takes time linear in the length of the text, and memory only for the boxes and the arrays of the program.
pub fn parse(alloc: Global, text: &[u8]) -> Result<Program, TextFault>
    // If a program is returned, it is accepted, and `text` is its text.
    ensures accepted { IfOk result (λ program. IsAccepted (source_of program) × (text_of (source_of program) ≡ text.now)) }
    // If `text` is the text of an accepted program, that program is returned, unless memory is refused.
    ensures every_text { (source : Source) → IsAccepted source → text_of source ≡ text.now
        → MatchResult result (λ program. source_of program ≡ source) (λ fault. fault ≡ TextFault.Memory) }
    // If `text` does not begin with the header, the error says that, even if memory is refused.
    ensures no_header { ¬ StartsWith header text.now → result ≡ Err (Fault.Header 0) }
    // If an error is returned, it is the first error of `text`, or says that memory was refused.
    ensures first_fault { IfErr result (λ fault. (fault ≡ TextFault.Memory) ⊎ IsFirstFault text.now fault) }
    // If `text` has a first error, that error is returned, unless memory is refused.
    ensures every_fault { (first : Fault) → IsFirstFault text.now first → IsErrAnd result (λ fault. (fault ≡ TextFault.Memory) ⊎ (fault ≡ first)) }
{
    let Ok(rest) = word(text, b"arachne 1\n") else {
        return Err(TextFault::Header { at: 0 });
    };
    match program(alloc, rest) {
        Ok(program) => Ok(program),
        Err(stop) => Err(stop.fault(text)),
    }
}

/// Parses a program from the text behind its header.
#[tactic(auto, unfolding(crate::specs::Reading::program_at, crate::specs::Reading::source_at, crate::specs::Reading::lines_at))]
fn program(alloc: Global, text: &[u8]) -> Result<Program, Stop<'_>>
    ensures { Gives source_of result (program_at text.now) }
{
    let (arrays, rest) = array_lines(alloc, text)?;
    let rest = word(rest, b"ledgers ")?;
    let (ledgers, rest) = small_number(rest, b"\n")?;
    let rest = word(rest, b"locks ")?;
    let (locks, rest) = small_number(rest, b"\n")?;
    let (root, rest) = expression(alloc, NESTING, rest)?;
    let rest = word(rest, b"\n")?;
    if !rest.is_empty() {
        return Err(Stop::Departs(rest));
    }
    Ok(Program {
        arrays,
        ledgers,
        locks,
        root,
    })
}
