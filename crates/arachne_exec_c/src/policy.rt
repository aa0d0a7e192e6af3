//! The C functions that advise, from samples of the load, when to ask for a core and when to give one back.
//!
//! An estimator lies in the caller's memory. Whatever that memory holds, no call allocates or has undefined behaviour.
ghost use Rattle.std.specs.Prelude.{◌≡◌, ◌≢◌, ◌≤◌, ◌↔◌, List, [], IsTrue, MatchBool};
ghost use Rattle.arachne_policy.specs.declared.samples.Sample.{Sample as Past};
ghost use Rattle.arachne_policy.specs.State.{most_cores, StandsFor};
ghost use Rattle.arachne_exec_c.specs.Estimating.{state_of, sample_of, number_of, refused, HasJudged, MayJudge};

use crate::codes::{ADD, REFUSED, REMOVE, STAY};
use arachne_policy::{Advice, Estimator, MAX_CORES, Sample};

/// An estimator: its settings, and for each number of cores a threshold. If the utilisation (average number of busy
/// cores) is below the threshold by more than `hysteresis`, the advice is to give one core back.
#[repr(C)]
#[derive(Clone, Copy)]
pub struct ArachneEstimator {
    pub up: u64,
    pub hysteresis: u64,
    pub max: u64,
    pub thresholds: [u64; MAX_CORES],
}

/// The measured load of a host (the program that uses the cores) in one period, on all its cores together.
#[repr(C)]
#[derive(Clone, Copy)]
pub struct ArachneSample {
    pub cores: u64,
    pub runnable: u64,
    pub scans: u64,
    pub busy: u64,
    pub elapsed: u64,
}

/// Prepares `estimator` for its first sample. Returns false, and changes nothing, if `max`, the greatest number of
/// cores, is above 64. The advice is ADD if scans of cores see more than `up` / 1000 runnable threads on average.
/// `hysteresis` is in thousandths of a core.
#[unsafe(no_mangle)]
pub extern "C" fn arachne_estimator_new(
    up: u64,
    hysteresis: u64,
    max: u64,
    estimator: &mut ArachneEstimator,
) -> bool
    ensures most { IsTrue result ↔ (max ≤ most_cores) }
    ensures made { MatchBool result
        (((state_of estimator.new).settings ≡ record { up = up; hysteresis = hysteresis; max = max }) × StandsFor (state_of estimator.new) [])
        (estimator.new ≡ estimator.old) }
{
    if max > MAX_CORES as u64 {
        return false;
    }
    *estimator = ArachneEstimator {
        up,
        hysteresis,
        max,
        thresholds: *Estimator::new(up, hysteresis, max as u8).thresholds(),
    };
    true
}

/// Returns the advice on `sample`: STAY, ADD or REMOVE.
///
/// Returns REFUSED, and changes nothing, if `sample` has values that no measurement can have, or if the estimator's
/// `max` is greater than 64.
#[unsafe(no_mangle)]
pub extern "C" fn arachne_estimator_judge(
    estimator: &mut ArachneEstimator,
    sample: &ArachneSample,
) -> u32
    ensures judged { (result ≢ refused) ↔ MayJudge estimator.old sample.now }
    ensures bad { result ≡ refused → estimator.new ≡ estimator.old }
    ensures settings { (state_of estimator.new).settings ≡ (state_of estimator.old).settings }
    // The result is the advice after the earlier samples. Afterwards `estimator` stands for the earlier samples and
    // `sample`.
    ensures history { (past : List Past) → StandsFor (state_of estimator.old) past → MayJudge estimator.old sample.now
        → HasJudged past estimator.old sample.now result estimator.new }
{
    if estimator.max > MAX_CORES as u64 {
        return REFUSED;
    }
    let (up, hysteresis, max) = (estimator.up, estimator.hysteresis, estimator.max as u8);
    let mut judging = Estimator::resume(up, hysteresis, max, &estimator.thresholds);
    let Ok(advice) = judging.estimate(as_sample(sample)) else {
        return REFUSED;
    };
    estimator.thresholds = *judging.thresholds();
    as_number(advice)
}

fn as_sample(sample: &ArachneSample) -> Sample
    ensures { result ≡ sample_of sample.now }
{
    Sample {
        cores: sample.cores,
        runnable: sample.runnable,
        scans: sample.scans,
        busy: sample.busy,
        elapsed: sample.elapsed,
    }
}

fn as_number(advice: Advice) -> u32
    ensures { result ≡ number_of advice }
{
    match advice {
        Advice::Stay => STAY,
        Advice::Add => ADD,
        Advice::Remove => REMOVE,
    }
}
