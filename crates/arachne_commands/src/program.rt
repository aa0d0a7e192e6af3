//! Runs a command of `arachne` on any arguments and streams.
ghost use Rattle.std.specs.Prelude.{◌≡◌, ◌≢◌, ◌≤◌, length, IfOk, IfErr, IfSome, ◌+◌, List, ℕ, map, None, true, string_bytes};
ghost use Rattle.std.specs.Io.KnownBytes.{Consumes, Keeps};
ghost use Rattle.arachne_cli.specs.declared.fault.Fault.TheVariants.{Write as WriteFailed};
ghost use Rattle.arachne_cli.specs.CommandLine.{IsAllowed, asked_by, is_taken};
ghost use Rattle.arachne_cli.specs.Answers.{input_limit};
ghost use Rattle.arachne_commands.specs.Drive.{HasToldFault, HasToldNoOrder, IsAnswer, IsAnswered, IsCause};

use crate::fault::Fault;
use crate::report::render_report;
use crate::running::run_program;
use arachne_cli::{
    DONE, Request, checked_program, finish, read_input, read_words, refuse, refuse_request,
};
use std::alloc::Global;
use std::convert::AsStr;
use std::io::{Read, Write};
use std::sync::Wait;
use std::thread::Threads;
use std::time::Clock;

/// Reads all of `input`, and returns the output of the command `request` for it.
fn answer<R: Threads + Wait + Clock + Sync, I: Read>(
    rt: &R,
    alloc: Global,
    request: Request,
    input: &mut I,
) -> Result<String, Fault>
    requires { IsAllowed request }
    ensures answers { IfOk result (λ text. IfSome (I.remaining input.old) (λ known. IsAnswer request known (string_bytes text))) }
    ensures cause { IfErr result (λ fault. (fault ≢ Fault.Cli WriteFailed) × IfSome (I.remaining input.old) (λ known. IsCause request known fault)) }
    ensures reads { (bytes : List ℕ) × Consumes (I.remaining input.old) (I.remaining input.new) bytes × (length bytes ≤ input_limit + 1) }
{
    match request {
        Request::Run(settings) => {
            let text = read_input(alloc, input)?;
            let program = checked_program(alloc, text.as_slice())?;
            let names = settings.names;
            let report = run_program(rt, alloc, &program, settings)?;
            Ok(render_report(alloc, &report, names)?)
        }
        Request::Serial(request) => Ok(arachne_cli::answer(alloc, request, input)?),
    }
}

/// Runs the command that the arguments `words` ask for, on these streams. Returns the exit status.
///
/// The first argument must be the program's own name. The status is 0 after success, 1 after a fault, and 2 if the
/// arguments are refused or an order to grant or release a core is malformed. If the status is not 0, a message is
/// written to `faults`. No byte is written to `output` before the whole output is known.
///
/// The command `run` starts kernel threads, and this call can then block.
pub fn drive<R: Threads + Wait + Clock + Sync, S: AsStr, I: Read, W: Write, E: Write>(
    rt: &R,
    alloc: Global,
    words: &[S],
    input: &mut I,
    output: &mut W,
    faults: &mut E,
) -> u8
    // If the status is 0, the output that the arguments ask for is written to `output`, and nothing to `faults`.
    ensures done { result ≡ 0 → IsAnswered (map S.text words.entry.now) (I.remaining input.old) (W.contents output.old) (W.contents output.new) }
    ensures quiet { result ≡ 0 → Keeps (E.contents faults.old) (E.contents faults.new) }
    // If the status is 1, the fault's message is written to `faults`, or as much of it as that writer took.
    ensures fault { result ≡ 1 → HasToldFault (map S.text words.entry.now) (I.remaining input.old)
        (W.contents output.old) (W.contents output.new) (E.contents faults.old) (E.contents faults.new) }
    ensures reads { (bytes : List ℕ) × Consumes (I.remaining input.old) (I.remaining input.new) bytes × (length bytes ≤ input_limit + 1) }
    ensures unread { result ≡ 2 → Keeps (I.remaining input.old) (I.remaining input.new) }
    // If the parser accepts the arguments and they make a request, the status is not 2.
    ensures words { result ≡ 2 → is_taken (map S.text words.entry.now) ≡ true → asked_by (map S.text words.entry.now) ≡ None }
    // If the status is 2 although the parser accepts the arguments, the fault's message is about the first malformed
    // order.
    ensures no_order { result ≡ 2 → is_taken (map S.text words.entry.now) ≡ true
        → HasToldNoOrder (map S.text words.entry.now) (E.contents faults.old) (E.contents faults.new) }
    ensures refused { result ≡ 2 → Keeps (W.contents output.old) (W.contents output.new) }
    ensures status { result ≤ 2 }
{
    let request = match read_words(alloc, words) {
        Ok(request) => request,
        Err(why) => return refuse_request(faults, &why),
    };
    let text = match answer(rt, alloc, request, input) {
        Ok(text) => text,
        Err(fault) => return refuse(faults, fault.line()),
    };
    match finish(output, text.as_str()) {
        Ok(()) => DONE,
        Err(fault) => refuse(faults, fault.line()),
    }
}
