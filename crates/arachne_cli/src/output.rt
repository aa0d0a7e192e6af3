//! Formats the output of `eval`: a program's value, the sums of its ledgers, and its threads.
ghost use Rattle.std.specs.Prelude.{◌≡◌, ◌++◌, OnOk, IfOk, string_bytes};
ghost use Rattle.std.specs.List.{flat_map};
ghost use Rattle.arachne_cli.specs.Output.{output_of, summary_of, ledger_lines, thread_line, name_text};

use arachne_lang::{Line, Meaning, Name};
use std::alloc::{AllocError, Global};
use std::fmt::Write;

/// Returns the output of `eval` for `meaning`, the result of a program. If `names` is true, the output also has a line
/// for each thread.
pub fn render(alloc: Global, meaning: &Meaning, names: bool) -> Result<String, AllocError>
    ensures { IfOk result (λ text. string_bytes text ≡ output_of names meaning.now) }
{
    let threads = meaning.threads.as_slice();
    let mut text = summary(
        alloc,
        meaning.value,
        meaning.totals.as_slice(),
        threads.len(),
    )?;
    if names {
        write_threads(&mut text, threads)?;
    }
    Ok(text)
}

/// Returns the lines of output for a program's value, the sum of each ledger, and the number of threads.
pub fn summary(
    alloc: Global,
    value: u64,
    totals: &[u64],
    threads: usize,
) -> Result<String, AllocError>
    ensures { IfOk result (λ text. string_bytes text ≡ summary_of value totals.now threads) }
{
    let mut text = String::new(alloc);
    writeln!(text, "value {}", value)?;
    write_totals(&mut text, totals)?;
    writeln!(text, "threads {}", threads)?;
    Ok(text)
}

fn write_threads(text: &mut String, threads: &[Line]) -> Result<(), AllocError>
    ensures { OnOk result (string_bytes text.new ≡ string_bytes text.old ++ flat_map thread_line threads.now) }
{
    for thread in threads {
        write_thread(text, &thread.name, thread.holds.as_slice())?;
    }
    Ok(())
}

#[tactic(auto, using(crate::proofs::Lines::ledger_lines_append))]
fn write_totals(text: &mut String, totals: &[u64]) -> Result<(), AllocError>
    ensures { OnOk result (string_bytes text.new ≡ string_bytes text.old ++ ledger_lines 0 totals.now) }
{
    for (ledger, total) in totals.iter().enumerate() {
        writeln!(text, "ledger {ledger} {total}")?;
    }
    Ok(())
}

/// Appends the line of the thread `name` to `text`. `holds` has, for each lock, the number of times that the thread
/// held the lock.
#[tactic(auto, using(crate::proofs::Lines::after_spaces_append))]
pub fn write_thread(text: &mut String, name: &Name, holds: &[u64]) -> Result<(), AllocError>
    ensures { OnOk result (string_bytes text.new ≡ string_bytes text.old ++ thread_line (record { name = name.now; holds = holds.now })) }
{
    text.push_str("thread ")?;
    write_name(text, name)?;
    for hold in holds {
        write!(text, " {hold}")?;
    }
    text.push_str("\n")?;
    Ok(())
}

/// Appends the name of a thread, such as `/0/2`; the root's is `/`.
fn write_name(text: &mut String, name: &Name) -> Result<(), AllocError>
    ensures { OnOk result (string_bytes text.new ≡ string_bytes text.old ++ name_text name.now) }
{
    if name.len() == 0 {
        text.push_str("/")?;
    }
    for k in 0..name.len() {
        let fork = name.number(k);
        write!(text, "/{fork}")?;
    }
    Ok(())
}
