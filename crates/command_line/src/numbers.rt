//! The options whose values are numbers: how `clap` gets them, and how they are read.
ghost use Rattle.std.specs.Prelude.{◌≡◌, ◌≤◌, false, IfOk};
ghost use Rattle.clap.specs.Words.{app_of, found_of, rows_of, rule_of, with_rule};
ghost use Rattle.clap.specs.declared.builder.command.Command.TheViews.{out-Command as fields_of};
ghost use Rattle.command_line.specs.Numbers.{as_numbered, number_of, rule_of_number, written_of, number_of_text as read_of};

use clap::builder::ValueParser;
use clap::{Arg, ArgAction, ArgMatches, Command};
use std::alloc::{AllocError, Global};

/// An option whose value is a number, within a range.
#[derive(Clone, Copy)]
pub(crate) struct Number {
    pub name: &'static str,
    pub low: u64,
    pub high: u64,
}

/// The command with one option more, which has this number where it is left out.
pub(crate) fn with_number<'a>(
    alloc: Global,
    command: Command<'a>,
    number: Number,
    default: &'static str,
    help: &'static str,
) -> Result<Command<'a>, AllocError>
    requires local { (fields_of command).has_globals ≡ false }
    ensures app { IfOk result (λ more. app_of more ≡ with_rule (app_of command.entry) (rule_of_number (as_numbered number) default.now)) }
    ensures local { IfOk result (λ more. (fields_of more).has_globals ≡ false) }
{
    command.arg(argument(alloc, number, default, help))
}

fn argument<'a>(alloc: Global, number: Number, default: &'static str, help: &'static str) -> Arg<'a>
    ensures rule { rule_of result ≡ rule_of_number (as_numbered number) default.now }
    ensures local { result.global ≡ false }
{
    Arg::new(alloc, number.name)
        .long(number.name)
        .help(help)
        .value_name("N")
        .default_value(default)
        .value_parser(ValueParser::unsigned(number.low, number.high))
        .action(ArgAction::Set)
}

/// The number that stands for an option, within its range.
pub(crate) fn number_in(words: &ArgMatches<'_>, number: Number) -> u64
    requires { number.low ≤ number.high }
    ensures read { result ≡ number_of (as_numbered number) (rows_of (found_of words.now)) }
    ensures within { (number.low ≤ result) × (result ≤ number.high) }
{
    let read = written_in(words, number.name);
    if read < number.low {
        number.low
    } else if number.high < read {
        number.high
    } else {
        read
    }
}

/// The number that is written for the option of this name, or 0.
fn written_in(words: &ArgMatches<'_>, name: &str) -> u64
    ensures { result ≡ written_of name.now (rows_of (found_of words.now)) }
{
    match words.get_str(name) {
        Some(text) => number_of_text(text),
        None => 0,
    }
}

fn number_of_text(text: &str) -> u64
    ensures { result ≡ read_of text.now }
{
    match text.parse::<u64>() {
        Ok(number) => number,
        Err(_) => 0,
    }
}
