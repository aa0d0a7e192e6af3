//! Formats the output of `run`: a program's value, the sums of its ledgers, and its threads.
ghost use Rattle.std.specs.Prelude.{◌≡◌, ◌++◌, IfOk, OnOk, map, string_bytes};
ghost use Rattle.std.specs.List.{flat_map};
ghost use Rattle.arachne_machine.specs.Outcome.{named_holds};
ghost use Rattle.arachne_run.specs.Reports.{meaning_in};
ghost use Rattle.arachne_cli.specs.Output.{output_of, thread_line};

use arachne_cli::{summary, write_thread};
use arachne_machine::ThreadLines;
use arachne_run::Report;
use std::alloc::{AllocError, Global};

/// Returns the output of `run` for `report`. If `names` is true, the output also has a line for each thread.
pub fn render_report(alloc: Global, report: &Report, names: bool) -> Result<String, AllocError>
    ensures { IfOk result (λ text. string_bytes text ≡ output_of names (meaning_in report.now)) }
{
    let threads = report.threads.len();
    let mut text = summary(alloc, report.value, report.totals.as_slice(), threads)?;
    if names {
        write_threads(&mut text, &report.threads)?;
    }
    Ok(text)
}

fn write_threads(text: &mut String, threads: &ThreadLines) -> Result<(), AllocError>
    ensures { OnOk result (string_bytes text.new ≡ string_bytes text.old ++ flat_map thread_line (map named_holds threads.now)) }
{
    for thread in threads.iter() {
        write_thread(text, thread.name(), thread.holds())?;
    }
    Ok(())
}
