//! Parses the command-line arguments of `arachne` into a request.
ghost use Rattle.std.specs.Prelude.{◌≡◌, IfOk, IfErr, IfSome, map, None, Ok, Some, true, false};
ghost use Rattle.arachne_cli.specs.CommandLine.{IsAllowed, IsNoOrderAmong, IsNoOrderMet, IsUnasked, asked_by, check_command, eval_command, is_set, machine_command, names_flag, no_order_met, number_option, number_under, order_words, orders_rule, policy_asked, policy_command, program, request_met, run_alone, run_asked, run_command, task_commands, with_orders};
ghost use Rattle.arachne_cli.specs.Orders.{orders_of};
ghost use Rattle.std.specs.Result.{result_err};
ghost use Rattle.clap.specs.declared.builder.command.Command.TheViews.{out-Command};
ghost use Rattle.clap.specs.Words.{app_of, rows_of, rule_of, found_of, subcommand_rows_of};

use crate::judging::Settings;
use crate::orders::read_order;
use arachne_lang::Sequence;
use arachne_policy::{CoreOrder, MAX_CORES};
use clap::builder::ValueParser;
use clap::error::ErrorKind;
use clap::{Arg, ArgAction, ArgMatches, Command, Error};
use std::alloc::{AllocError, Global};
use std::convert::AsStr;

/// The command that the command-line arguments ask for, with its settings.
#[derive(Debug, Drop)]
pub enum Request {
    /// Run a program on several cores, with a kernel thread for each.
    Run(RunSettings),
    /// Run a command that needs only the calling kernel thread.
    Serial(SerialRequest),
}

/// A command that needs only the calling kernel thread.
#[derive(Clone, Copy, Debug)]
pub enum SerialRequest {
    /// Evaluate a program. If `names` is true, also print a line for each of the program's threads.
    Eval { names: bool },
    /// Check whether a program is valid.
    Check,
    /// For each sample of a load, print the advice of the core policy: to add a core, to remove one, or neither.
    Policy(Settings),
}

/// The settings of a run, as the command line gives them. They may have any values here; the command `run` later
/// refuses those out of its range.
#[derive(Debug, Drop)]
pub struct RunSettings {
    /// The number of cores.
    pub cores: u64,
    /// The seed of the cores' random generators, by which a fork chooses the child's core.
    pub seed: u64,
    /// The greatest number of steps that a thread runs before its core may run another thread.
    pub quantum: u64,
    /// The number of thread slots of each core, each with room for one thread.
    pub slots: u64,
    /// True if the output must have a line for each of the program's threads.
    pub names: bool,
    /// The orders to take cores away or grant them while the program runs.
    pub orders: Sequence<CoreOrder>,
}

/// The reason why the arguments are no valid request.
#[derive(Debug, Drop)]
pub enum NotAsked {
    /// An order to grant or release a core is malformed. `index` is the index of the first malformed one among the
    /// orders, counted from 0.
    NoOrder { index: usize },
    /// The parser refused the arguments, or memory was refused. The error has the text to print.
    Refused(Error),
}

impl From<AllocError> for NotAsked {
    ghost use Rattle.arachne_cli.specs.CommandLine.{IsWantOfMemory};

    ghost from_gives = { λ _ fault. IsWantOfMemory fault };

    fn from(error: AllocError) -> NotAsked {
        NotAsked::Refused(Error::from(error))
    }
}

#[tactic(auto, unfolding(crate::specs::CommandLine::program))]
fn command<'a>(alloc: Global) -> Result<Command<'a>, AllocError>
    ensures { IfOk result (λ command. app_of command ≡ program) }
{
    let tasks = task_commands(alloc)?;
    let policy = policy_command(alloc)?;
    let arachne = tasks.subcommand(policy)?;
    Ok(arachne)
}

/// Returns a parser with only the subcommands that read a program's text.
#[tactic(auto, unfolding(crate::specs::CommandLine::task_commands))]
fn task_commands<'a>(alloc: Global) -> Result<Command<'a>, AllocError>
    ensures { IfOk result (λ command. app_of command ≡ task_commands) }
{
    let eval = eval_command(alloc)?;
    let arachne = run_alone(alloc)?
        .subcommand(eval)?
        .subcommand(check_command(alloc))?;
    Ok(arachne)
}

#[tactic(auto, unfolding(crate::specs::CommandLine::run_alone))]
fn run_alone<'a>(alloc: Global) -> Result<Command<'a>, AllocError>
    ensures { IfOk result (λ command. app_of command ≡ run_alone) }
{
    let run = run_command(alloc)?;
    let arachne = Command::new(alloc, "arachne")
        .about("Run and evaluate programs of the task language, and judge samples of a load")
        .version("0.9.0")
        .after_help(
            "Each command reads its text from standard input:\n  arachne run < examples/fork.task",
        )
        .subcommand_required(true)
        .subcommand(run)?;
    Ok(arachne)
}

fn names_flag<'a>(alloc: Global) -> Arg<'a>
    ensures rule { rule_of result ≡ names_flag }
    ensures local { result.global ≡ false }
{
    Arg::new(alloc, "names")
        .long("names")
        .action(ArgAction::SetTrue)
        .help("Print a line for each thread")
}

/// Returns the argument `ORDER`, an order to grant or release a core, which can be repeated.
fn order_words<'a>(alloc: Global) -> Arg<'a>
    ensures rule { rule_of result ≡ orders_rule }
    ensures local { result.global ≡ false }
{
    Arg::new(alloc, "order")
        .value_name("ORDER")
        .action(ArgAction::Append)
        .help(
            "AFTER:grant:CORE or AFTER:release:CORE: once so many slices have ended, a core is granted or taken back",
        )
}

#[tactic(auto, unfolding(crate::specs::CommandLine::run_command))]
fn run_command<'a>(alloc: Global) -> Result<Command<'a>, AllocError>
    ensures app { IfOk result (λ command. app_of command ≡ run_command) }
    ensures local { IfOk result (λ command. (out-Command command).has_globals ≡ false) }
{
    let names = names_flag(alloc);
    let orders = order_words(alloc);
    let slots = number_option(
        alloc,
        "slots",
        u64::MAX,
        "56",
        "For how many threads each core has places, 1 to 56",
    );
    let machine = machine_command(alloc)?;
    let run = machine.arg(slots)?.arg(names)?.arg(orders)?;
    Ok(run)
}

/// Returns the subcommand `run` with only the options `--cores`, `--seed` and `--quantum`.
#[tactic(auto, unfolding(crate::specs::CommandLine::machine_command))]
fn machine_command<'a>(alloc: Global) -> Result<Command<'a>, AllocError>
    ensures app { IfOk result (λ command. app_of command ≡ machine_command) }
    ensures local { IfOk result (λ command. (out-Command command).has_globals ≡ false) }
{
    let cores = number_option(
        alloc,
        "cores",
        u64::MAX,
        "4",
        "How many cores there are, 1 to 64",
    );
    let seed = number_option(
        alloc,
        "seed",
        u64::MAX,
        "1",
        "From which the choices of the cores begin",
    );
    let quantum = number_option(
        alloc,
        "quantum",
        u64::MAX,
        "100",
        "The most steps that a thread goes on for at a time, 1 to 10000",
    );
    let run = Command::new(alloc, "run")
        .about("Run the task text on the input, on a kernel thread for each core")
        .after_help(
            "The task text comes from standard input:\n  arachne run --cores 2 250:release:1 900:grant:1 < examples/rounds.task",
        )
        .arg(cores)?
        .arg(seed)?
        .arg(quantum)?;
    Ok(run)
}

#[tactic(auto, unfolding(crate::specs::CommandLine::eval_command))]
fn eval_command<'a>(alloc: Global) -> Result<Command<'a>, AllocError>
    ensures app { IfOk result (λ command. app_of command ≡ eval_command) }
    ensures local { IfOk result (λ command. (out-Command command).has_globals ≡ false) }
{
    let names = names_flag(alloc);
    let eval = Command::new(alloc, "eval")
        .about("Evaluate the task text on the input, on one thread")
        .after_help(
            "The task text comes from standard input:\n  arachne eval --names < examples/nested.task",
        )
        .arg(names)?;
    Ok(eval)
}

#[tactic(auto, unfolding(crate::specs::CommandLine::check_command))]
fn check_command<'a>(alloc: Global) -> Command<'a>
    ensures app { app_of result ≡ check_command }
    ensures local { (out-Command result).has_globals ≡ false }
{
    Command::new(alloc, "check")
        .about("Say whether the program of the task text on the input may run")
        .after_help(
            "The task text comes from standard input:\n  arachne check < examples/histogram.task",
        )
}

/// Returns an option for a number up to `most`, whose default is `standard`.
fn number_option<'a>(
    alloc: Global,
    name: &'a str,
    most: u64,
    standard: &'a str,
    help: &'a str,
) -> Arg<'a>
    ensures rule { rule_of result ≡ number_option name.now most standard.now }
    ensures local { result.global ≡ false }
{
    Arg::new(alloc, name)
        .long(name)
        .value_name("N")
        .value_parser(ValueParser::Unsigned(0, most))
        .default_value(standard)
        .help(help)
}

#[tactic(auto, unfolding(crate::specs::CommandLine::policy_command))]
fn policy_command<'a>(alloc: Global) -> Result<Command<'a>, AllocError>
    ensures app { IfOk result (λ command. app_of command ≡ policy_command) }
    ensures local { IfOk result (λ command. (out-Command command).has_globals ≡ false) }
{
    let up = number_option(
        alloc,
        "up",
        u64::MAX,
        "1500",
        "The load over which a core is asked for, in thousandths of a thread",
    );
    let hysteresis = number_option(
        alloc,
        "hysteresis",
        u64::MAX,
        "90",
        "How far the utilisation falls before a core is given back, in thousandths of a core",
    );
    let max = number_option(
        alloc,
        "max",
        MAX_CORES as u64,
        "16",
        "The most cores, up to 64",
    );
    let policy = Command::new(alloc, "policy")
        .about("Judge the samples on the input: add a core, stay, or remove one")
        .after_help(
            "The samples come from standard input, five numbers a line:\n  arachne policy --max 8 < examples/load.samples",
        )
        .arg(up)?
        .arg(hysteresis)?
        .arg(max)?;
    Ok(policy)
}

fn is_flag_set(matches: &ArgMatches<'_>, flag: &str) -> bool
    ensures { result ≡ is_set flag.now (rows_of (found_of matches.now)) }
{
    match matches.get_str(flag) {
        Some(text) => text == "true",
        None => false,
    }
}

/// Returns the value of an option, or `None` if it has no value that fits 64 bits.
fn number_in(matches: &ArgMatches<'_>, option: &str) -> Option<u64>
    ensures { result ≡ number_under option.now (rows_of (found_of matches.now)) }
{
    let Some(text) = matches.get_str(option) else {
        return None;
    };
    match text.parse::<u64>() {
        Ok(number) => Some(number),
        Err(_) => None,
    }
}

/// Returns the request for `policy`, or `None` if one of its numbers is out of range.
fn policy_in(matches: &ArgMatches<'_>) -> Option<Request>
    ensures asked { result ≡ policy_asked (rows_of (found_of matches.now)) }
    ensures allowed { IfSome result IsAllowed }
{
    let up = number_in(matches, "up")?;
    let hysteresis = number_in(matches, "hysteresis")?;
    let max = number_in(matches, "max")?;
    if max > MAX_CORES as u64 {
        return None;
    }
    Some(Request::Serial(SerialRequest::Policy(Settings {
        up,
        hysteresis,
        max: max as u8,
    })))
}

/// Parses orders to grant or release cores.
///
/// If a word is malformed, the error has the index of the first such word.
fn orders_in(alloc: Global, words: &[&str]) -> Result<Sequence<CoreOrder>, NotAsked>
    ensures orders { IfOk result (λ orders. orders_of (map (λ word. word.now) words.now) ≡ Ok orders) }
    ensures none { IfErr result (IsNoOrderAmong (map (λ word. word.now) words.now)) }
{
    let mut orders = Vec::with_capacity(alloc, words.len())?;
    for (index, word) in words.iter().enumerate() {
        let Some(order) = read_order(word) else {
            return Err(NotAsked::NoOrder { index });
        };
        let Ok(()) = orders.push(order) else {
            return Err(NotAsked::from(AllocError));
        };
    }
    Ok(Sequence::from(orders))
}

fn orders_met(alloc: Global, matches: &ArgMatches<'_>) -> Result<Sequence<CoreOrder>, NotAsked>
    ensures orders { IfOk result (λ orders. orders_of (order_words (rows_of (found_of matches.now))) ≡ Ok orders) }
    ensures none { IfErr result (IsNoOrderAmong (order_words (rows_of (found_of matches.now)))) }
{
    match matches.get_raw("order") {
        Some(words) => orders_in(alloc, words),
        None => Ok(Sequence::from(Vec::new(alloc))),
    }
}

/// Returns the request for `run`, or `None` if a number doesn't fit 64 bits.
fn run_in(alloc: Global, matches: &ArgMatches<'_>) -> Result<Option<Request>, NotAsked>
    ensures asked { IfOk result (λ request. request ≡ run_asked (rows_of (found_of matches.now))) }
    ensures allowed { IfOk result (λ request. IfSome request IsAllowed) }
    ensures orders { IfOk result (λ request. result_err (orders_of (order_words (rows_of (found_of matches.now)))) ≡ None) }
    ensures none { IfErr result (IsNoOrderAmong (order_words (rows_of (found_of matches.now)))) }
{
    let orders = orders_met(alloc, matches)?;
    Ok(run_by(matches, orders))
}

fn run_by(matches: &ArgMatches<'_>, orders: Sequence<CoreOrder>) -> Option<Request>
    ensures asked { result ≡ with_orders (rows_of (found_of matches.now)) orders }
    ensures allowed { IfSome result IsAllowed }
{
    let cores = number_in(matches, "cores")?;
    let seed = number_in(matches, "seed")?;
    let quantum = number_in(matches, "quantum")?;
    let slots = number_in(matches, "slots")?;
    Some(Request::Run(RunSettings {
        cores,
        seed,
        quantum,
        slots,
        names: is_flag_set(matches, "names"),
        orders,
    }))
}

/// Returns the request in the parsed arguments, or `None` if there is no such subcommand or a number is out of range.
fn request_in(alloc: Global, matches: &ArgMatches<'_>) -> Result<Option<Request>, NotAsked>
    ensures asked { IfOk result (λ request. request ≡ request_met (subcommand_rows_of matches.now)) }
    ensures allowed { IfOk result (λ request. IfSome request IsAllowed) }
    ensures orders { IfOk result (λ request. no_order_met (subcommand_rows_of matches.now) ≡ None) }
    ensures none { IfErr result (IsNoOrderMet (subcommand_rows_of matches.now)) }
{
    let Some((name, entries)) = matches.subcommand() else {
        return Ok(None);
    };
    match name {
        "run" => run_in(alloc, entries),
        "eval" => Ok(Some(Request::Serial(SerialRequest::Eval {
            names: is_flag_set(entries, "names"),
        }))),
        "check" => Ok(Some(Request::Serial(SerialRequest::Check))),
        "policy" => Ok(policy_in(entries)),
        _ => Ok(None),
    }
}

/// Parses the command-line arguments. The first must be the program's own name.
///
/// Returns `Err` if the parser refuses the arguments, if an order to grant or release a core is malformed, or if memory
/// is refused.
pub fn read_words<'a, S: AsStr>(alloc: Global, words: &'a [S]) -> Result<Request, NotAsked>
    ensures asked { IfOk result (λ request. asked_by (map S.text words.entry.now) ≡ Some request) }
    ensures allowed { IfOk result IsAllowed }
    ensures refused { IfErr result (IsUnasked (map S.text words.entry.now)) }
{
    let mut command = command(alloc)?;
    let matches = match command.try_get_matches_from_mut(words) {
        Ok(matches) => matches,
        Err(error) => return Err(NotAsked::Refused(error)),
    };
    match request_in(alloc, &matches)? {
        Some(request) => Ok(request),
        None => Err(NotAsked::Refused(command.error(
            ErrorKind::InvalidSubcommand,
            "no such command",
        )?)),
    }
}
