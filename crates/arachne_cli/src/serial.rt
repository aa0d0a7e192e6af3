//! The commands `eval`, `check` and `policy` as functions, and the program that has only these three.
ghost use Rattle.std.specs.Prelude.{◌≡◌, ◌≢◌, ◌≤◌, ◌+◌, Bool, List, ℕ, length, map, IfOk, IfErr, IfSome, None, true, string_bytes};
ghost use Rattle.std.specs.Io.KnownBytes.{Consumes, Keeps};
ghost use Rattle.arachne_lang.specs.Program.{source_of};
ghost use Rattle.arachne_cli.specs.CommandLine.{MayAnswer, asked_serially, is_taken};
ghost use Rattle.arachne_cli.specs.Answers.{IsAnswer, IsCause, IsProgramOf, input_limit};
ghost use Rattle.arachne_cli.specs.Ends.{HasToldFault, IsAnswered};

use crate::command_line::{Request, SerialRequest, read_words};
use crate::ending::{DONE, WORDS, finish, refuse, refuse_request};
use crate::fault::Fault;
use crate::judging::judgement;
use crate::output::render;
use crate::stream::read_input;
use arachne_lang::{Program, check, eval, parse};
use std::alloc::Global;
use std::convert::AsStr;
use std::io::{Read, Write};

/// Reads all of `input`, and returns the output of the command `request` for it.
pub fn answer<I: Read>(
    alloc: Global,
    request: SerialRequest,
    input: &mut I,
) -> Result<String, Fault>
    requires { MayAnswer request }
    ensures answers { IfOk result (λ text. IfSome (I.remaining input.old) (λ known. IsAnswer request known (string_bytes text))) }
    ensures cause { IfErr result (λ fault. (fault ≢ Fault.Write) × IfSome (I.remaining input.old) (λ known. IsCause request known fault)) }
    ensures reads { (bytes : List ℕ) × Consumes (I.remaining input.old) (I.remaining input.new) bytes × (length bytes ≤ input_limit + 1) }
{
    let text = read_input(alloc, input)?;
    match request {
        SerialRequest::Eval { names } => evaluation(alloc, text.as_slice(), names),
        SerialRequest::Check => verdict(alloc, text.as_slice()),
        SerialRequest::Policy(settings) => judgement(alloc, text.as_slice(), settings),
    }
}

/// Parses, checks and evaluates a program, and returns the output of `eval`.
fn evaluation(alloc: Global, text: &[u8], names: bool) -> Result<String, Fault>
    requires { length text.now ≤ input_limit }
    ensures answers { IfOk result (λ output. IsAnswer (SerialRequest.Eval names) text.now (string_bytes output)) }
    ensures cause { IfErr result (λ fault. (fault ≢ Fault.Write) × IsCause (SerialRequest.Eval names) text.now fault) }
    ensures not_read { IfErr result (λ fault. fault ≢ Fault.Read) }
{
    let program = checked_program(alloc, text)?;
    let meaning = eval(alloc, &program)?;
    let output = render(alloc, &meaning, names)?;
    Ok(output)
}

/// Parses and checks a program, and returns the output of `check`.
fn verdict(alloc: Global, text: &[u8]) -> Result<String, Fault>
    requires { length text.now ≤ input_limit }
    ensures answers { IfOk result (λ output. IsAnswer SerialRequest.Check text.now (string_bytes output)) }
    ensures cause { IfErr result (λ fault. (fault ≢ Fault.Write) × IsCause SerialRequest.Check text.now fault) }
    ensures not_read { IfErr result (λ fault. fault ≢ Fault.Read) }
{
    let _program = checked_program(alloc, text)?;
    let output = String::from_str(alloc, "ok\n")?;
    Ok(output)
}

/// Parses and checks the program in `text`, and returns the program.
pub fn checked_program(alloc: Global, text: &[u8]) -> Result<Program, Fault>
    requires { length text.now ≤ input_limit }
    ensures program { IfOk result (λ program. IsProgramOf text.now (source_of program)) }
    ensures check { IfErr result (λ fault. (fault ≢ Fault.Write) × IsCause SerialRequest.Check text.now fault) }
    ensures not_read { IfErr result (λ fault. fault ≢ Fault.Read) }
    ensures eval { (names : Bool) → IfErr result (λ fault. IsCause (SerialRequest.Eval names) text.now fault) }
{
    let program = parse(alloc, text)?;
    check(&program)?;
    Ok(program)
}

/// Runs the command that the arguments `words` ask for, unless that is `run`. Returns the exit status.
///
/// The first argument must be the program's own name. The status is 0 after success. The status is 1 after a fault,
/// whose message is then written to `faults`. The status is 2 if the arguments were refused or ask for `run`. Writes no
/// byte to `output` before the whole output is known.
pub fn drive<S: AsStr, I: Read, W: Write, E: Write>(
    alloc: Global,
    words: &[S],
    input: &mut I,
    output: &mut W,
    faults: &mut E,
) -> u8
    // If the status is 0, the output that the arguments ask for is written to `output`, and nothing to `faults`.
    ensures done { result ≡ 0 → IsAnswered (map S.text words.entry.now) (I.remaining input.old) (W.contents output.old) (W.contents output.new) }
    ensures quiet { result ≡ 0 → Keeps (E.contents faults.old) (E.contents faults.new) }
    // If the status is 1, the fault's message is written to `faults`, or as much of it as that writer took.
    ensures fault { result ≡ 1 → HasToldFault (map S.text words.entry.now) (I.remaining input.old)
        (W.contents output.old) (W.contents output.new) (E.contents faults.old) (E.contents faults.new) }
    ensures reads { (bytes : List ℕ) × Consumes (I.remaining input.old) (I.remaining input.new) bytes × (length bytes ≤ input_limit + 1) }
    ensures unread { result ≡ 2 → Keeps (I.remaining input.old) (I.remaining input.new) }
    // If the parser accepts the arguments and they make a request for a command other than `run`, the status is not 2.
    ensures words { result ≡ 2 → is_taken (map S.text words.entry.now) ≡ true → asked_serially (map S.text words.entry.now) ≡ None }
    ensures refused { result ≡ 2 → Keeps (W.contents output.old) (W.contents output.new) }
    ensures status { result ≤ 2 }
{
    let request = match read_words(alloc, words) {
        Ok(Request::Serial(request)) => request,
        Ok(Request::Run(_)) => return refuse_run(faults),
        Err(why) => return refuse_request(faults, &why),
    };
    let text = match answer(alloc, request, input) {
        Ok(text) => text,
        Err(fault) => return refuse(faults, fault.line()),
    };
    match finish(output, text.as_str()) {
        Ok(()) => DONE,
        Err(fault) => refuse(faults, fault.line()),
    }
}

/// Writes that this program has no command `run`, and returns the exit status 2.
fn refuse_run<W: Write>(faults: &mut W) -> u8
    ensures { result ≡ 2 }
{
    let _ = writeln!(faults, "error: 'run' is a command of the whole program");
    WORDS
}
