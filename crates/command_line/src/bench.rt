//! `bench`, and what is read of its words.
ghost use Rattle.std.specs.Prelude.{◌≡◌, ◌∷◌, [], false, option_map, IfOk};
ghost use Rattle.std.specs.Option.{option_map_or};
ghost use Rattle.clap.specs.Words.{app_of, found_of, kind_of, rows_of, rule_of};
ghost use Rattle.clap.specs.declared.error.kind.ErrorKind.TheVariants.{InvalidValue};
ghost use Rattle.clap.specs.declared.builder.command.Command.TheViews.{out-Command as fields_of};
ghost use Rattle.command_line.specs.Drawn.{IsDrawable};
ghost use Rattle.command_line.specs.Bench.{bench_app, drawn_of, form_faults, form_of, times_rule, with_optional, word_faults};
ghost use Rattle.command_line.specs.Bench.{form_named as spec_form_named};

use crate::drawn::Drawn;
use crate::numbers::{number_in, with_number};
use crate::options::{
    CLIENTS, PERCENT_QUERIED, PERCENT_USER, QUERIES, RELATIONS, SEED, TRANSACTIONS, TRIES,
};
use crate::texts;
use crate::words::explained;
use crate::work::TimesForm;
use clap::error::ErrorKind;
use clap::{Arg, ArgAction, ArgMatches, Command, Error};
use std::alloc::{AllocError, Global};
use std::fmt::Write;
use text_formats::Options;

/// The words that `--times` takes, of which the first stands for none.
const PROSE: &str = "prose";

const VALUES: &str = "csv";

/// The subcommand, with all its options.
pub(crate) fn bench_command<'a>(alloc: Global) -> Result<Command<'a>, AllocError>
    ensures app { IfOk result (λ command. app_of command ≡ bench_app) }
    ensures local { IfOk result (λ command. (fields_of command).has_globals ≡ false) }
{
    let named = explained(
        Command::new(alloc, "bench"),
        texts::BENCH,
        texts::BENCH_ENDING,
    );
    let with_clients = with_number(alloc, named, CLIENTS, "2", texts::CLIENTS)?;
    let with_queries = with_number(alloc, with_clients, QUERIES, "10", texts::QUERIES)?;
    let with_share = with_number(
        alloc,
        with_queries,
        PERCENT_QUERIED,
        "60",
        texts::PERCENT_QUERIED,
    )?;
    let with_relations = with_number(alloc, with_share, RELATIONS, "100", texts::RELATIONS)?;
    let with_transactions = with_number(
        alloc,
        with_relations,
        TRANSACTIONS,
        "1000",
        texts::TRANSACTIONS,
    )?;
    let with_users = with_number(
        alloc,
        with_transactions,
        PERCENT_USER,
        "90",
        texts::PERCENT_USER,
    )?;
    let with_seed = with_number(alloc, with_users, SEED, "1", texts::SEED)?;
    let with_tries = with_number(alloc, with_seed, TRIES, "1000", texts::TRIES)?;
    with_tries.arg(times(alloc))
}

fn times<'a>(alloc: Global) -> Arg<'a>
    ensures rule { rule_of result ≡ times_rule }
    ensures local { result.global ≡ false }
{
    with_optional_value(Arg::new(alloc, "times"))
        .long("times")
        .help(texts::TIMES)
        .value_name("FORM")
        .default_missing_value(PROSE)
        .action(ArgAction::Set)
}

/// The option, whose value may be left out.
fn with_optional_value<'a>(option: Arg<'a>) -> Arg<'a>
    ensures rule { rule_of result ≡ with_optional (rule_of option.entry) }
    ensures local { result.global ≡ option.entry.global }
{
    option.num_args(..=1usize)
}

/// The sessions that are to be drawn and run.
pub(crate) fn drawn_in(words: &ArgMatches<'_>) -> Drawn
    ensures read { result ≡ drawn_of (rows_of (found_of words.now)) }
    ensures drawable { IsDrawable result }
{
    let options = Options {
        clients: number_in(words, CLIENTS) as u32,
        queries: number_in(words, QUERIES) as u32,
        percent_queried: number_in(words, PERCENT_QUERIED) as u32,
        relations: number_in(words, RELATIONS) as u32,
        transactions: number_in(words, TRANSACTIONS) as u32,
        percent_user: number_in(words, PERCENT_USER) as u32,
    };
    Drawn {
        options,
        seed: number_in(words, SEED),
        tries: number_in(words, TRIES),
    }
}

/// The form in which the time that the run took is asked for.
pub(crate) fn form_in(words: &ArgMatches<'_>) -> TimesForm
    ensures { result ≡ form_of (rows_of (found_of words.now)) }
{
    match words.get_str("times") {
        Some(word) => form_named(word),
        None => TimesForm::Unasked,
    }
}

fn form_named(word: &str) -> TimesForm
    ensures { result ≡ spec_form_named word.now }
{
    if word == VALUES {
        TimesForm::Values
    } else {
        TimesForm::Prose
    }
}

/// The word after `--times` that names no form.
pub(crate) fn unknown_form<'a>(words: &ArgMatches<'a>) -> Option<&'a str>
    ensures { form_faults (rows_of (found_of words.now)) ≡ option_map_or (λ _. InvalidValue ∷ []) result [] }
{
    unknown_among(words.get_str("times"))
}

fn unknown_among<'a>(word: Option<&'a str>) -> Option<&'a str>
    ensures { word_faults (option_map (λ s. s.now) word.entry) ≡ option_map_or (λ _. InvalidValue ∷ []) result [] }
{
    match word {
        Some(word) if word != PROSE && word != VALUES => Some(word),
        _ => None,
    }
}

/// What is wrong with a word that names no form.
pub(crate) fn form_fault(alloc: Global, word: &str) -> Result<Error, AllocError>
    ensures { IfOk result (λ error. kind_of error ≡ InvalidValue) }
{
    let mut text = String::new(alloc);
    write!(
        text,
        "invalid value '{word}' for '--times [<FORM>]'\n  [possible values: {PROSE}, {VALUES}]"
    )?;
    let mut bench = with_whole_name(bench_command(alloc)?)?;
    bench.error(ErrorKind::InvalidValue, text.as_str())
}

fn with_whole_name<'a>(command: Command<'a>) -> Result<Command<'a>, AllocError> {
    command.bin_name("proust_tool bench")
}
