//! Parses the input of the command `policy`: one sample of a load per line, with five numbers each.

ghost use Rattle.std.specs.Prelude.{◌≡◌, ◌⊎◌, List, IfOk, IfErr, IsErrAnd, MatchResult};
ghost use Rattle.arachne_lang.specs.declared.text_fault.TextFault.{TextFault as Fault};
ghost use Rattle.arachne_policy.specs.declared.samples.Sample.{Sample as Measured};
ghost use Rattle.arachne_cli.specs.Samples.{AreInRange, IsFirstFault, IsOfMemory, samples_text};
ghost use Rattle.arachne_lang.specs.Reading.{Gives, IsAtByte};
ghost use Rattle.arachne_cli.specs.Reading.{sample_at};

use arachne_lang::{Stop, TextFault, number};
use arachne_policy::Sample;
use std::alloc::Global;

/// Parses all samples in `text`, one per line. Returns `Err` with the first error of the text, or if memory is refused.
///
/// Takes time linear in the length of `text`, and allocates memory only for the samples.
pub fn read_samples(alloc: Global, text: &[u8]) -> Result<Vec<Sample>, TextFault>
    // If samples are returned, their numbers are in range, and `text` is their text.
    ensures accepted { IfOk result (λ samples. AreInRange samples.items × (samples_text samples.items ≡ text.now)) }
    // If `text` is the text of samples whose numbers are in range, they are returned, unless memory is refused.
    ensures every_text { (samples : List Measured) → AreInRange samples → samples_text samples ≡ text.now
        → MatchResult result (λ read. read.items ≡ samples) IsOfMemory }
    // If an error is returned, it is the first error of `text`, or says that memory was refused.
    ensures first_fault { IfErr result (λ fault. (fault ≡ TextFault.Memory) ⊎ IsFirstFault text.now fault) }
    // If `text` has a first error, that error is returned, unless memory is refused.
    ensures every_fault { (first : Fault) → IsFirstFault text.now first → IsErrAnd result (λ fault. (fault ≡ TextFault.Memory) ⊎ (fault ≡ first)) }
{
    let mut samples = Vec::new(alloc);
    let mut rest = text;
    while !rest.is_empty() {
        let (sample, behind) = match line(rest) {
            Ok(read) => read,
            Err(stop) => return Err(stop.fault(text)),
        };
        let Ok(()) = samples.push(sample) else {
            return Err(TextFault::Memory);
        };
        rest = behind;
    }
    Ok(samples)
}

/// Parses the line at the front of `text`, and returns the text after it with the sample.
#[tactic(auto, unfolding(crate::specs::Reading::sample_at))]
fn line(text: &[u8]) -> Result<(Sample, &[u8]), Stop<'_>>
    ensures read { Gives (λ read. (read.0, read.1.now)) result (sample_at text.now) }
    ensures at_byte { IfErr result IsAtByte }
{
    let (cores, rest) = number(text, b" ")?;
    let (runnable, rest) = number(rest, b" ")?;
    let (scans, rest) = number(rest, b" ")?;
    let (busy, rest) = number(rest, b" ")?;
    let (elapsed, rest) = number(rest, b"\n")?;
    let sample = Sample {
        cores,
        runnable,
        scans,
        busy,
        elapsed,
    };
    Ok((sample, rest))
}
