//! Passes one sample of a load after another to the core policy, which advises when to ask for a core, and when to give
//! one back.

ghost use Rattle.std.specs.Prelude.{◌≡◌, [], IfOk};
ghost use Rattle.arachne_policy.specs.Advice.{advices};
ghost use Rattle.arachne_policy.specs.State.{StandsFor};

use anyhow::Result;
use arachne_policy::{Advice, BadSample, Estimator, Sample};
use std::alloc::{AllocError, Global};
use thiserror::Error;

#[derive(Debug, Drop, Error)]
enum JudgeError {
    #[error(transparent)]
    Bad(#[from] BadSample),
    #[error(transparent)]
    Memory(#[from(alloc)] AllocError),
}

/// Returns the policy's advice on each sample, given the earlier samples.
fn judge_all(
    alloc: Global,
    mut estimator: Estimator,
    samples: &[Sample],
) -> Result<Vec<Advice>, JudgeError>
    requires { StandsFor estimator [] }
    ensures { IfOk result (λ answers. answers.items ≡ advices estimator.settings samples.now) }
{
    let mut answers = Vec::with_capacity(alloc, samples.len())?;
    for sample in samples {
        answers.push(estimator.estimate(*sample)?)?;
    }
    Ok(answers)
}

/// Returns a sample of one second on `cores` cores. 100 scans saw `runnable` ready threads in all. Cores ran threads
/// for `busy` milliseconds in all.
fn sample(cores: u64, runnable: u64, busy: u64) -> Sample {
    Sample {
        cores,
        runnable,
        scans: 100,
        busy,
        elapsed: 1000,
    }
}

pub fn show(rt: &impl Print, alloc: Global) -> Result<()> {
    // On two cores there was too much work, so a third core was requested. Now there is work for only 1.8 cores.
    let samples = [
        sample(2, 151, 1900),
        sample(3, 100, 1810),
        sample(3, 100, 1809),
    ];
    let answers = judge_all(alloc, Estimator::new(1500, 90, 16), &samples)?;
    for advice in answers {
        println!(rt; "{advice}")?;
    }
    Ok(())
}
