//! Prints the server's report, and a log that says when each request was sent, began and ended.
use crate::keeper::Judged;
use crate::requests::Class;
use crate::send::Report;
use std::alloc::Global;
use std::io::{self, BufWriter, Write};

/// Prints the part of the report that doesn't depend on time.
pub fn summary(rt: &impl Print, report: &Report, requests: usize) -> io::Result<()> {
    let (mut slow, mut sum) = (0usize, 0u64);
    for answer in report.answers.iter() {
        slow = slow.saturating_add(usize::from(answer.request.due.class == Class::Slow));
        sum = sum.wrapping_add(answer.value);
    }
    let served = report.answers.len();
    println!(rt; "{served} of {requests} requests served; the sum of their answers is {sum}")?;
    if slow > 0 {
        println!(rt; "{slow} of them waited for the slow part")?;
    }
    Ok(())
}

/// Prints how the policy judged the load, and when each request was sent, began and ended, in nanoseconds.
pub fn log(rt: &impl Print, alloc: Global, report: &Report) -> io::Result<()> {
    let mut out = BufWriter::new(alloc, io::writer(rt))?;
    let since_begin = |time: u64| time.saturating_sub(report.begin);
    for Judged { at, sample, advice } in report.judged.iter() {
        let at = since_begin(*at) / 1000;
        let (busy, elapsed) = (sample.busy / 1000, sample.elapsed / 1000);
        let (cores, runnable, scans) = (sample.cores, sample.runnable, sample.scans);
        writeln!(
            out,
            "at {at} us: {cores} cores, {runnable} runnable in {scans} scans, {busy} of {elapsed} us busy, {advice}"
        )?;
    }
    for answer in report.answers.iter() {
        let (number, sent) = (answer.request.number, since_begin(answer.request.taken));
        let (began, ended) = (since_begin(answer.began), since_begin(answer.ended));
        writeln!(
            out,
            "request {number}: sent {sent}, began {began}, ended {ended}"
        )?;
    }
    out.flush()
}
