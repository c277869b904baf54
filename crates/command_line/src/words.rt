//! The words of the command line.

ghost use Rattle.std.specs.Prelude.{◌≡◌, ◌≤◌, codes, false, map, IfOk, IfSome};
ghost use Rattle.std.specs.String.{string_bytes};
ghost use Rattle.clap.specs.Words.{app_of, first_of, found_of, new_app, rows_of, rule_of, subcommand_rows_of, with_rule, with_subcommand};
ghost use Rattle.clap.specs.declared.builder.command.Command.TheViews.{out-Command as fields_of};
ghost use Rattle.command_line.specs.Commands.{replay_app, run_app, gen_app, mrt_app, number_rule, flag_rule, largest_seed, most_events, generated, has_flag, named, number_in, number_to, command_of};

use addr4::Memory;
use clap::builder::ValueParser;
use clap::error::ErrorKind;
use clap::{Arg, ArgAction, ArgMatches};
use std::alloc::{AllocError, Global};

/// A command of the program.
#[derive(Clone, Copy, PartialEq, Eq)]
pub enum Command {
    /// `run`, quiet where `--quiet` follows.
    Run(bool),
    /// `gen SEED COUNT`, quiet where `--quiet` is there.
    Gen(u64, u32, bool),
    /// `check`
    Check,
    /// `mrt`, with AS numbers of four octets where `--as4` follows.
    Mrt(bool),
}

/// The largest COUNT.
const MOST_EVENTS: u64 = 60_000;

/// A number that must be there.
fn number<'a>(alloc: Global, id: &'a str, most: u64) -> Arg<'a>
    ensures rule { rule_of result ≡ number_rule id.now most }
    ensures local { result.global ≡ false }
{
    Arg::new(alloc, id)
        .required(true)
        .action(ArgAction::Set)
        .value_parser(ValueParser::Unsigned(0, most))
}

/// A flag, which may be there.
fn flag<'a>(alloc: Global, name: &'a str) -> Arg<'a>
    ensures rule { rule_of result ≡ flag_rule name.now }
    ensures local { result.global ≡ false }
{
    Arg::new(alloc, name).long(name).action(ArgAction::SetTrue)
}

/// `run [--quiet]`
fn run_command<'a>(alloc: Global) -> Result<clap::Command<'a>, AllocError>
    ensures app { IfOk result (λ command. app_of command ≡ run_app) }
    ensures local { IfOk result (λ command. (fields_of command).has_globals ≡ false) }
{
    clap::Command::new(alloc, "run").arg(flag(alloc, "quiet"))
}

/// `gen SEED COUNT`
fn numbers_command<'a>(alloc: Global) -> Result<clap::Command<'a>, AllocError>
    ensures app { IfOk result (λ command. app_of command ≡ with_rule (with_rule (new_app (codes "gen")) (number_rule (codes "seed") largest_seed)) (number_rule (codes "count") most_events)) }
    ensures local { IfOk result (λ command. (fields_of command).has_globals ≡ false) }
{
    clap::Command::new(alloc, "gen")
        .arg(number(alloc, "seed", u64::MAX))?
        .arg(number(alloc, "count", MOST_EVENTS))
}

/// `gen SEED COUNT [--quiet]`
fn gen_command<'a>(alloc: Global) -> Result<clap::Command<'a>, AllocError>
    ensures app { IfOk result (λ command. app_of command ≡ gen_app) }
    ensures local { IfOk result (λ command. (fields_of command).has_globals ≡ false) }
{
    let command = numbers_command(alloc)?;
    command.arg(flag(alloc, "quiet"))
}

/// `replay` with `run`.
fn with_run<'a>(alloc: Global) -> Result<clap::Command<'a>, AllocError>
    ensures { IfOk result (λ command. app_of command ≡ with_subcommand (new_app (codes "replay")) run_app.top) }
{
    let run = run_command(alloc)?;
    clap::Command::new(alloc, "replay").subcommand(run)
}

/// `replay` with `run` and `gen`.
fn with_gen<'a>(alloc: Global) -> Result<clap::Command<'a>, AllocError>
    ensures { IfOk result (λ command. app_of command ≡ with_subcommand (with_subcommand (new_app (codes "replay")) run_app.top) gen_app.top) }
{
    let command = with_run(alloc)?;
    match gen_command(alloc) {
        Ok(generated) => command.subcommand(generated),
        Err(fault) => {
            drop(command);
            Err(fault)
        }
    }
}

/// `replay` with `run`, `gen` and `check`.
fn with_check<'a>(alloc: Global) -> Result<clap::Command<'a>, AllocError>
    ensures { IfOk result (λ command. app_of command ≡ with_subcommand (with_subcommand (with_subcommand (new_app (codes "replay")) run_app.top) gen_app.top) (new_app (codes "check")).top) }
{
    let command = with_gen(alloc)?;
    command.subcommand(clap::Command::new(alloc, "check"))
}

/// `mrt [--as4]`
fn mrt_command<'a>(alloc: Global) -> Result<clap::Command<'a>, AllocError>
    ensures app { IfOk result (λ command. app_of command ≡ mrt_app) }
    ensures local { IfOk result (λ command. (fields_of command).has_globals ≡ false) }
{
    clap::Command::new(alloc, "mrt").arg(flag(alloc, "as4"))
}

/// What the command line may be.
fn replay_command<'a>(alloc: Global) -> Result<clap::Command<'a>, AllocError>
    ensures { IfOk result (λ command. app_of command ≡ replay_app) }
{
    let command = with_check(alloc)?;
    match mrt_command(alloc) {
        Ok(mrt) => command.subcommand(mrt),
        Err(fault) => {
            drop(command);
            Err(fault)
        }
    }
}

/// Whether a flag stands among the words of a command.
fn has_flag(matches: &ArgMatches, name: &str) -> bool
    ensures { result ≡ has_flag name.now (rows_of (found_of matches.now)) }
{
    match matches.get_str(name) {
        Some(text) => text == "true",
        None => false,
    }
}

/// The number that a text is, where it is one that is at most so large.
fn number_in(text: &str, most: u64) -> Option<u64>
    ensures value { result ≡ number_in most text.now }
    ensures most { IfSome result (λ number. number ≤ most) }
{
    match text.parse::<u64>() {
        Ok(number) if number <= most => Some(number),
        _ => None,
    }
}

/// The number of an argument, where it is one that is at most so large.
fn number_of(matches: &ArgMatches, id: &str, most: u64) -> Option<u64>
    ensures value { result ≡ number_to most (first_of id.now (rows_of (found_of matches.now))) }
    ensures most { IfSome result (λ number. number ≤ most) }
{
    match matches.get_str(id) {
        Some(text) => number_in(text, most),
        None => None,
    }
}

/// `gen` with its numbers.
fn generated(matches: &ArgMatches) -> Option<Command>
    ensures { result ≡ generated (rows_of (found_of matches.now)) }
{
    let seed = number_of(matches, "seed", u64::MAX);
    let count = number_of(matches, "count", MOST_EVENTS);
    match (seed, count) {
        (Some(seed), Some(count)) => {
            let quiet = has_flag(matches, "quiet");
            Some(Command::Gen(seed, count as u32, quiet))
        }
        _ => None,
    }
}

/// The command that was met.
fn named(matches: &ArgMatches) -> Option<Command>
    ensures { result ≡ named (subcommand_rows_of matches.now) }
{
    let (name, inner) = matches.subcommand()?;
    if name == "run" {
        return Some(Command::Run(has_flag(inner, "quiet")));
    }
    if name == "gen" {
        return generated(inner);
    }
    if name == "check" {
        return Some(Command::Check);
    }
    if name == "mrt" {
        Some(Command::Mrt(has_flag(inner, "as4")))
    } else {
        None
    }
}

/// The command that the words are; the first word is the program's name.
pub fn read_command(alloc: Global, words: &[String]) -> Result<Option<Command>, Memory>
    ensures { IfOk result (λ command. command ≡ command_of (map string_bytes words.now)) }
{
    let command = replay_command(alloc)?;
    match command.try_get_matches_from(words) {
        Ok(matches) => {
            let command = named(&matches);
            drop(matches);
            Ok(command)
        }
        Err(error) => {
            let kind = error.kind();
            drop(error);
            match kind {
                ErrorKind::OutOfMemory => Err(Memory),
                _ => Ok(None),
            }
        }
    }
}
