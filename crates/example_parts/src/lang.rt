//! Reads the text of a program, checks the program and evaluates it on one kernel thread.

ghost use Rattle.std.specs.Prelude.{◌≡◌, IfOk};
ghost use Rattle.arachne_lang.specs.Meaning.{meaning_of};
ghost use Rattle.arachne_lang.specs.Spelling.{text_of};
ghost use Rattle.arachne_lang.specs.Tree.{Source};

use anyhow::Result;
use arachne_lang::{CheckFault, Meaning, TextFault, check, eval, parse};
use std::alloc::{AllocError, Global};
use thiserror::Error;

/// A program of two threads, each of which takes lock 0 and adds to ledger 0 (a counter).
const TEXT: &str = "arachne 1
ledgers 1
locks 1
(fork n (hold 0 (tally 0 (num 5) (num 1))) (hold 0 (tally 0 (num 7) (num 2))) (add (var 0) (var 1)))
";

/// The reason why a program text can't be evaluated.
#[derive(Debug, Drop, Error)]
enum Refused {
    #[error(transparent)]
    Text(#[from] TextFault),
    #[error(transparent)]
    Program(#[from] CheckFault),
    #[error(transparent)]
    Memory(#[from(alloc)] AllocError),
}

/// Parses, checks and evaluates the program in `text`. Returns its value, the totals of its ledgers (counters) and its
/// threads.
fn meaning(alloc: Global, text: &[u8]) -> Result<Meaning, Refused>
    ensures { IfOk result (λ meaning. (program : Source) × (text_of program ≡ text.now) × (meaning ≡ meaning_of program)) }
{
    let program = parse(alloc, text)?;
    check(&program)?;
    let meaning = eval(alloc, &program)?;
    Ok(meaning)
}

pub fn show(rt: &impl Print, alloc: Global) -> Result<()> {
    let meaning = meaning(alloc, TEXT.as_bytes())?;
    println!(rt; "value {}", meaning.value)?;
    for (ledger, total) in meaning.totals.as_slice().iter().enumerate() {
        println!(rt; "ledger {ledger} {total}")?;
    }
    for line in meaning.threads.as_slice() {
        let holds = line.holds.as_slice().len();
        println!(rt; "a thread {} below the root, {holds} lock", line.name.len())?;
    }
    Ok(())
}
