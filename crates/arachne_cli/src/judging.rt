//! The command `policy`, which gives the core policy's advice (add or remove a core, or neither) for each sample of a
//! load.

ghost use Rattle.std.specs.Prelude.{◌≡◌, ◌≢◌, ◌≤◌, length, IfOk, IfErr, string_bytes};
ghost use Rattle.arachne_policy.specs.declared.limits.TheConstants.{MAX_CORES};
ghost use Rattle.arachne_cli.specs.Answers.{IsAnswer, IsCause, input_limit};
ghost use Rattle.arachne_cli.specs.Judging.{AreGood, IsUnjudged, advice_lines};

use crate::command_line::SerialRequest;
use crate::fault::Fault;
use crate::samples::read_samples;
use arachne_policy::{Estimator, Sample};
use std::alloc::Global;
use std::fmt::Write;

/// The settings of the core policy, which advises to add or remove a core.
#[derive(Clone, Copy, Debug, PartialEq, Eq)]
pub struct Settings {
    /// The average number of ready threads on a core, in thousandths, above which the policy advises to add a core.
    pub up: u64,
    /// How far the number of busy cores must fall after a core was added, in thousandths, before one is removed.
    pub hysteresis: u64,
    /// The greatest number of cores.
    pub max: u8,
}

/// Parses all samples in `text`, and returns the output of `policy`: a line of advice for each.
pub fn judgement(alloc: Global, text: &[u8], settings: Settings) -> Result<String, Fault>
    requires within { length text.now ≤ input_limit }
    requires most { settings.max ≤ MAX_CORES }
    ensures answers { IfOk result (λ output. IsAnswer (SerialRequest.Policy settings) text.now (string_bytes output)) }
    ensures cause { IfErr result (λ fault. (fault ≢ Fault.Write) × IsCause (SerialRequest.Policy settings) text.now fault) }
    // The error `Read` can't occur, since the input was already read.
    ensures not_read { IfErr result (λ fault. fault ≢ Fault.Read) }
{
    let samples = match read_samples(alloc, text) {
        Ok(samples) => samples,
        Err(fault) => return Err(Fault::InText(fault)),
    };
    judge(alloc, settings, samples.as_slice())
}

/// Returns a line for each of `samples`, with the core policy's advice, which also depends on the earlier samples.
///
/// Returns `Err` at the first sample for which the policy can give no advice.
fn judge(alloc: Global, settings: Settings, samples: &[Sample]) -> Result<String, Fault>
    requires { settings.max ≤ MAX_CORES }
    ensures good { IfOk result (λ text. AreGood settings samples.now) }
    ensures advice { IfOk result (λ text. string_bytes text ≡ advice_lines settings samples.now) }
    ensures bad { IfErr result (λ fault. IsUnjudged settings samples.now fault) }
{
    let mut estimator = Estimator::new(settings.up, settings.hysteresis, settings.max);
    let mut lines = String::new(alloc);
    for (index, sample) in samples.iter().enumerate() {
        let Ok(advice) = estimator.estimate(*sample) else {
            return Err(Fault::BadSample { line: index + 1 });
        };
        let Ok(()) = writeln!(lines, "{advice}") else {
            return Err(Fault::Memory);
        };
    }
    Ok(lines)
}
