//! Parses the words of a command line. Start with [`command`].

ghost use Rattle.std.specs.Prelude.{◌≡◌, map, codes, false, true, IfOk, MatchResult, Some, option_map, option_and_then};
ghost use Rattle.clap.specs.Words.{app_of, first_of, found_of, new_app, rows_of, rule_of, subcommand_rows_of, with_rule, with_subcommand};
ghost use Rattle.clap.specs.declared.Command.TheViews.{out-Command as fields_of};
ghost use Rattle.command_line.specs.CommandLine.{Asks, AreWordsRefused, IsCommand, check, check_of, judging, needed, needed_option, number_option};
ghost use Rattle.command_line.specs.CommandLine.{option, over_guarantees, replay, replay_of, replay_over, route, route_of, running, serve, serve_at};
ghost use Rattle.command_line.specs.CommandLine.{serve_for, serve_of, verify, verify_of, wanted_by, wanted_of, warren, with_subcommands};

use crate::asked::Asked;
use clap::builder::ValueParser;
use clap::error::ErrorKind;
use clap::{Arg, ArgAction, ArgMatches, Command, Error};
use std::alloc::{AllocError, Global};
use std::convert::AsStr;

/// The version that `--version` prints after the program's name.
const VERSION: &str = "0.1.0";

/// Returns the rule of a positional argument `id` that has to be given; the help text describes it by `help`.
fn needed<'a>(alloc: Global, id: &'a str, help: &'a str) -> Arg<'a>
    ensures rule { rule_of result ≡ needed id.entry.now }
    ensures local { result.global ≡ false }
{
    Arg::new(alloc, id)
        .help(help)
        .required(true)
        .action(ArgAction::Set)
}

/// Returns the rule of an optional `--id FILE`, described by `help`.
fn option<'a>(alloc: Global, id: &'a str, help: &'a str) -> Arg<'a>
    ensures rule { rule_of result ≡ option id.entry.now }
    ensures local { result.global ≡ false }
{
    Arg::new(alloc, id)
        .help(help)
        .long(id)
        .value_name("FILE")
        .action(ArgAction::Set)
}

/// Returns the rule of an option `--id` that has to be given, with a text called `value`, described by `help`.
fn needed_option<'a>(alloc: Global, id: &'a str, value: &'a str, help: &'a str) -> Arg<'a>
    ensures rule { rule_of result ≡ needed_option id.entry.now }
    ensures local { result.global ≡ false }
{
    Arg::new(alloc, id)
        .help(help)
        .long(id)
        .value_name(value)
        .required(true)
        .action(ArgAction::Set)
}

/// Returns the rule of an optional `--id N` for a number from `least` to 2^64 - 1, described by `help`.
fn number_option<'a>(alloc: Global, least: u64, id: &'a str, help: &'a str) -> Arg<'a>
    ensures rule { rule_of result ≡ number_option least id.entry.now }
    ensures local { result.global ≡ false }
{
    Arg::new(alloc, id)
        .help(help)
        .long(id)
        .value_name("N")
        .value_parser(ValueParser::Unsigned(least, u64::MAX))
        .action(ArgAction::Set)
}

/// Returns a command without arguments, described by `about`.
fn bare<'a>(alloc: Global, name: &'a str, about: &'a str) -> Command<'a>
    ensures { IsCommand result (new_app name.entry.now) }
{
    Command::new(alloc, name).about(about)
}

/// Adds an argument to the command.
fn with_argument<'a>(command: Command<'a>, argument: Arg<'a>) -> Result<Command<'a>, AllocError>
    requires command { (fields_of command).has_globals ≡ false }
    requires argument { argument.global ≡ false }
    ensures { IfOk result (λ c. IsCommand c (with_rule (app_of command.entry) (rule_of argument.entry))) }
{
    command.arg(argument)
}

/// Adds the argument CERTS to the command: a certificates file that has to be given.
fn with_certificates<'a>(alloc: Global, command: Command<'a>) -> Result<Command<'a>, AllocError>
    requires { (fields_of command).has_globals ≡ false }
    ensures { IfOk result (λ c. IsCommand c (with_rule (app_of command.entry) (needed (codes "CERTS")))) }
{
    let help = "The certificates file, a certificate for each guarantee in the same order";
    with_argument(command, needed(alloc, "CERTS", help))
}

/// Returns a command with the arguments DEFS and GUARANTEES, described by `about`.
fn over_guarantees<'a>(
    alloc: Global,
    name: &'a str,
    about: &'a str,
) -> Result<Command<'a>, AllocError>
    ensures { IfOk result (λ c. IsCommand c (over_guarantees name.entry.now)) }
{
    let command = bare(alloc, name, about);
    let command = with_argument(command, needed(alloc, "DEFS", "The definitions file"))?;
    with_argument(command, needed(alloc, "GUARANTEES", "The guarantees file"))
}

/// Defines `check DEFS GUARANTEES [--out FILE]`.
fn check_command<'a>(alloc: Global) -> Result<Command<'a>, AllocError>
    ensures { IfOk result (λ c. IsCommand c check) }
{
    let about = "Tells of each guarantee whether it holds, or a key that breaks it";
    let command = over_guarantees(alloc, "check", about)?;
    let out = "The file to write the certificates to, where every guarantee holds";
    with_argument(command, option(alloc, "out", out))
}

/// Defines `verify DEFS GUARANTEES CERTS`.
fn verify_command<'a>(alloc: Global) -> Result<Command<'a>, AllocError>
    ensures { IfOk result (λ c. IsCommand c verify) }
{
    let about = "Tells of each guarantee whether its certificate is accepted";
    let command = over_guarantees(alloc, "verify", about)?;
    with_certificates(alloc, command)
}

/// Defines `serve DEFS GUARANTEES CERTS --listen IP:PORT`.
fn serve_at<'a>(alloc: Global) -> Result<Command<'a>, AllocError>
    ensures { IfOk result (λ c. IsCommand c serve_at) }
{
    let about = "Serves clients under guarantees that are shown by their certificates";
    let command = over_guarantees(alloc, "serve", about)?;
    let command = with_certificates(alloc, command)?;
    let address = "The address at which clients connect";
    let listen = needed_option(alloc, "listen", "IP:PORT", address);
    with_argument(command, listen)
}

/// Defines `serve DEFS GUARANTEES CERTS --listen IP:PORT [--turns N]`.
fn serve_for<'a>(alloc: Global) -> Result<Command<'a>, AllocError>
    ensures { IfOk result (λ c. IsCommand c serve_for) }
{
    let command = serve_at(alloc)?;
    let help = "How many turns to serve; without it, until the process is ended";
    with_argument(command, number_option(alloc, 0, "turns", help))
}

/// Defines `serve DEFS GUARANTEES CERTS --listen IP:PORT [--turns N] [--reload N]`.
fn serve_command<'a>(alloc: Global) -> Result<Command<'a>, AllocError>
    ensures { IfOk result (λ c. IsCommand c serve) }
{
    let command = serve_for(alloc)?;
    let help = "After how many turns the three files are read again; without it, never";
    with_argument(command, number_option(alloc, 1, "reload", help))
}

/// Defines `replay SCRIPT [--definitions FILE]`.
fn replay_over<'a>(alloc: Global) -> Result<Command<'a>, AllocError>
    ensures { IfOk result (λ c. IsCommand c replay_over) }
{
    let command = bare(alloc, "replay", "Runs a script and prints what it puts out");
    let command = with_argument(command, needed(alloc, "SCRIPT", "The script file"))?;
    let definitions = "The definitions file to run over, in place of the built-in topology";
    with_argument(command, option(alloc, "definitions", definitions))
}

/// Defines `replay SCRIPT [--definitions FILE] [--guarantees FILE] [--certificates FILE]`.
fn replay_command<'a>(alloc: Global) -> Result<Command<'a>, AllocError>
    ensures { IfOk result (λ c. IsCommand c replay) }
{
    let command = replay_over(alloc)?;
    let guarantees = "The guarantees file to run under; without it there are none";
    let command = with_argument(command, option(alloc, "guarantees", guarantees))?;
    let certificates = "The certificates file of the guarantees; without it there are none";
    with_argument(command, option(alloc, "certificates", certificates))
}

/// Defines `route DEFS EXCHANGE KEY`.
fn route_command<'a>(alloc: Global) -> Result<Command<'a>, AllocError>
    ensures { IfOk result (λ c. IsCommand c route) }
{
    let about = "Prints the queues to which a key leads from an exchange";
    let command = bare(alloc, "route", about);
    let command = with_argument(command, needed(alloc, "DEFS", "The definitions file"))?;
    let exchange = "The exchange that a message is sent to; \"\" is the default exchange";
    let command = with_argument(command, needed(alloc, "EXCHANGE", exchange))?;
    let key = "The routing key that it is sent under";
    with_argument(command, needed(alloc, "KEY", key))
}

/// Defines the program, without its subcommands.
fn program<'a>(alloc: Global) -> Command<'a>
    ensures { app_of result ≡ with_subcommands (codes "warren") }
{
    Command::new(alloc, "warren")
        .version(VERSION)
        .about("A message broker for AMQP 0-9-1 whose routing is certified")
        .subcommand_required(true)
}

/// Adds a subcommand to the program.
fn with_command<'a>(program: Command<'a>, command: Command<'a>) -> Result<Command<'a>, AllocError>
    requires { (fields_of command).has_globals ≡ false }
    ensures { IfOk result (λ c. app_of c ≡ with_subcommand (app_of program.entry) (app_of command.entry).top) }
{
    program.subcommand(command)
}

/// Defines the program with the subcommands that judge guarantees, `check` and `verify`.
fn with_judging<'a>(alloc: Global) -> Result<Command<'a>, AllocError>
    ensures { IfOk result (λ c. app_of c ≡ judging) }
{
    let check = check_command(alloc)?;
    let warren = with_command(program(alloc), check)?;
    with_command(warren, verify_command(alloc)?)
}

/// Adds the subcommands that run a broker, `replay` and `serve`.
fn with_running<'a>(alloc: Global) -> Result<Command<'a>, AllocError>
    ensures { IfOk result (λ c. app_of c ≡ running) }
{
    let warren = with_judging(alloc)?;
    let warren = with_command(warren, replay_command(alloc)?)?;
    with_command(warren, serve_command(alloc)?)
}

/// Defines the program with all its subcommands.
fn warren_command<'a>(alloc: Global) -> Result<Command<'a>, AllocError>
    ensures { IfOk result (λ c. app_of c ≡ warren) }
{
    let warren = with_running(alloc)?;
    with_command(warren, route_command(alloc)?)
}

/// Returns the text given for argument `id`, if any.
fn text_of<'a>(given: &ArgMatches<'a>, id: &str) -> Option<&'a str>
    ensures { option_map (λ s. s.now) result ≡ first_of id.now (rows_of (found_of given.now)) }
{
    given.get_str(id)
}

/// Returns the command that the arguments of `check` ask for.
fn check<'a>(given: &ArgMatches<'a>) -> Option<Asked<'a>>
    ensures { option_map wanted_of result ≡ check_of (rows_of (found_of given.now)) }
{
    let definitions = text_of(given, "DEFS")?;
    let guarantees = text_of(given, "GUARANTEES")?;
    Some(Asked::Check {
        definitions,
        guarantees,
        out: text_of(given, "out"),
    })
}

/// Returns the command that the arguments of `verify` ask for.
fn verify<'a>(given: &ArgMatches<'a>) -> Option<Asked<'a>>
    ensures { option_map wanted_of result ≡ verify_of (rows_of (found_of given.now)) }
{
    let definitions = text_of(given, "DEFS")?;
    let guarantees = text_of(given, "GUARANTEES")?;
    let certificates = text_of(given, "CERTS")?;
    Some(Asked::Verify {
        definitions,
        guarantees,
        certificates,
    })
}

/// Returns the command that the arguments of `replay` ask for, or `None` if a needed one is missing.
fn replay<'a>(given: &ArgMatches<'a>) -> Option<Asked<'a>>
    ensures { option_map wanted_of result ≡ replay_of (rows_of (found_of given.now)) }
{
    let script = text_of(given, "SCRIPT")?;
    Some(Asked::Replay {
        script,
        definitions: text_of(given, "definitions"),
        guarantees: text_of(given, "guarantees"),
        certificates: text_of(given, "certificates"),
    })
}

/// Returns the command that the arguments of `serve` ask for, or `None` if a required argument is missing.
fn serve<'a>(given: &ArgMatches<'a>) -> Option<Asked<'a>>
    ensures { option_map wanted_of result ≡ serve_of (rows_of (found_of given.now)) }
{
    let definitions = text_of(given, "DEFS")?;
    let guarantees = text_of(given, "GUARANTEES")?;
    let certificates = text_of(given, "CERTS")?;
    let listen = text_of(given, "listen")?;
    Some(Asked::Serve {
        definitions,
        guarantees,
        certificates,
        listen,
        turns: text_of(given, "turns"),
        reload: text_of(given, "reload"),
    })
}

/// Returns the command that the arguments of `route` ask for, or `None` if a needed one is missing.
fn route<'a>(given: &ArgMatches<'a>) -> Option<Asked<'a>>
    ensures { option_map wanted_of result ≡ route_of (rows_of (found_of given.now)) }
{
    let definitions = text_of(given, "DEFS")?;
    let exchange = text_of(given, "EXCHANGE")?;
    let key = text_of(given, "KEY")?;
    Some(Asked::Route {
        definitions,
        exchange,
        key,
    })
}

/// Returns the command that the subcommand called `name` asks for with the arguments `given`.
fn named<'a>(name: &str, given: &ArgMatches<'a>) -> Option<Asked<'a>>
    ensures { option_map wanted_of result ≡ wanted_by (name.now, rows_of (found_of given.now)) }
{
    match name {
        "check" => check(given),
        "verify" => verify(given),
        "replay" => replay(given),
        "serve" => serve(given),
        "route" => route(given),
        _ => None,
    }
}

/// Returns the command that the parsed words ask for.
fn asked<'a>(matches: &ArgMatches<'a>) -> Option<Asked<'a>>
    ensures { option_map wanted_of result ≡ option_and_then wanted_by (subcommand_rows_of matches.now) }
{
    let (name, given) = matches.subcommand()?;
    named(name, given)
}

/// Parses `words` as a call of `program`. Fails as [`command`] does.
fn ask<'a, S: AsStr>(program: &mut Command<'a>, words: &'a [S]) -> Result<Asked<'a>, Error>
    requires { app_of program.old ≡ warren }
    ensures { MatchResult result (λ asked. Asks (map S.text words.entry.now) asked) (λ e. AreWordsRefused (map S.text words.entry.now) e) }
{
    let matches = program.try_get_matches_from_mut(words)?;
    let asked = asked(&matches);
    drop(matches);
    match asked {
        Some(asked) => Ok(asked),
        None => Err(program.error(ErrorKind::MissingSubcommand, "a command is missing")?),
    }
}

/// Parses a command line. The first of `words` is the program's name.
///
/// Fails with clap's error if the words ask for no command, as a call for help does: the error's own text is what to show. Its
/// kind is `OutOfMemory` if an allocation failed.
pub fn command<'a, S: AsStr>(alloc: Global, words: &'a [S]) -> Result<Asked<'a>, Error>
    ensures { MatchResult result (λ asked. Asks (map S.text words.entry.now) asked) (λ e. AreWordsRefused (map S.text words.entry.now) e) }
{
    let mut program = warren_command(alloc)?;
    let asked = ask(&mut program, words);
    drop(program);
    asked
}
