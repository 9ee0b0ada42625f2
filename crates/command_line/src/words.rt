//! How words are read: the task and the file that they name.
ghost use Rattle.std.specs.Prelude.{◌≡◌, ◌≢◌, ◌≤◌, ◌∷◌, [], false, map, option_map, option_and_then, IsErr, IfOk};
ghost use Rattle.std.specs.Option.{option_map_or};
ghost use Rattle.std.specs.String.{string_bytes};
ghost use Rattle.clap.specs.Words.{FailsBy, app_of, found_of, kind_of, rows_of, rule_of, subcommand_of, subcommand_rows_of};
ghost use Rattle.clap.specs.declared.builder.command.Command.TheViews.{out-Command as fields_of};
ghost use Rattle.command_line.specs.declared.work.Task.TheVariants.{OnFile};
ghost use Rattle.command_line.specs.Ends.{IsDoable};
ghost use Rattle.command_line.specs.Words.{explore_app, faults, file_word, named_file, not_dash};
ghost use Rattle.command_line.specs.Words.{tool_app, step_app, vacation_app, file_rule, task_by};
ghost use Rattle.command_line.specs.Words.{faults_of_forms, lanes_rule, step_work, step_work_by, task_of, vacation_work};
ghost use Rattle.clap.specs.declared.error.kind.ErrorKind.TheVariants.{InvalidValue};

use crate::bench::{bench_command, drawn_in, form_fault, form_in, unknown_form};
use crate::numbers::{number_in, with_number};
use crate::options::{MOST, WORKERS};
use crate::texts;
use crate::texts::{NAME, VERSION};
use crate::work::{Task, Work};
use clap::error::ErrorKind;
use clap::{Arg, ArgAction, ArgMatches, Command, Error};
use seq_model::{ACTOR_LIMIT, Memory};
use std::alloc::{AllocError, Global};

fn command<'a>(alloc: Global) -> Result<Command<'a>, AllocError>
    ensures { IfOk result (λ command. app_of command ≡ tool_app) }
{
    let bare = Command::new(alloc, NAME)
        .version(VERSION)
        .no_binary_name(true)
        .subcommand_required(true);
    let described = with_name(explained(bare, texts::TOOL, texts::TOOL_ENDING))?;
    let step = step_command(alloc)?;
    let with_step = described.subcommand(step)?;
    let explore = explore_command(alloc)?;
    let with_explore = with_step.subcommand(explore)?;
    let vacation = vacation_command(alloc)?;
    let with_vacation = with_explore.subcommand(vacation)?;
    let bench = bench_command(alloc)?;
    with_vacation.subcommand(bench)
}

/// The command, whose usage lines call the program by its name.
fn with_name<'a>(command: Command<'a>) -> Result<Command<'a>, AllocError>
    ensures { IfOk result (λ named. app_of named ≡ app_of command.entry) }
{
    command.bin_name(NAME)
}

/// The command, of which help says what it does, and at the end a text.
pub(crate) fn explained<'a>(
    command: Command<'a>,
    about: &'static str,
    ending: &'static str,
) -> Command<'a>
    ensures app { app_of result ≡ app_of command.entry }
    ensures local { (fields_of result).has_globals ≡ (fields_of command.entry).has_globals }
{
    command.about(about).after_help(ending)
}

fn step_command<'a>(alloc: Global) -> Result<Command<'a>, AllocError>
    ensures app { IfOk result (λ command. app_of command ≡ step_app) }
    ensures local { IfOk result (λ command. (fields_of command).has_globals ≡ false) }
{
    let named = explained(Command::new(alloc, "step"), texts::STEP, texts::STEP_ENDING);
    let with_lanes = named.arg(lanes(alloc))?;
    with_lanes.arg(file(alloc))
}

fn lanes<'a>(alloc: Global) -> Arg<'a>
    ensures rule { rule_of result ≡ lanes_rule }
    ensures local { result.global ≡ false }
{
    Arg::new(alloc, "lanes")
        .long("lanes")
        .help(texts::LANES)
        .action(ArgAction::SetTrue)
}

fn explore_command<'a>(alloc: Global) -> Result<Command<'a>, AllocError>
    ensures app { IfOk result (λ command. app_of command ≡ explore_app) }
    ensures local { IfOk result (λ command. (fields_of command).has_globals ≡ false) }
{
    let named = explained(
        Command::new(alloc, "explore"),
        texts::EXPLORE,
        texts::EXPLORE_ENDING,
    );
    let with_most = with_number(alloc, named, MOST, "100000", texts::MOST)?;
    with_most.arg(file(alloc))
}

fn vacation_command<'a>(alloc: Global) -> Result<Command<'a>, AllocError>
    ensures app { IfOk result (λ command. app_of command ≡ vacation_app) }
    ensures local { IfOk result (λ command. (fields_of command).has_globals ≡ false) }
{
    let named = explained(
        Command::new(alloc, "vacation"),
        texts::VACATION,
        texts::VACATION_ENDING,
    );
    let with_workers = with_number(alloc, named, WORKERS, "0", texts::WORKERS)?;
    with_workers.arg(file(alloc))
}

fn file<'a>(alloc: Global) -> Arg<'a>
    ensures rule { rule_of result ≡ file_rule }
    ensures local { result.global ≡ false }
{
    Arg::new(alloc, "FILE")
        .help(texts::FILE)
        .required(true)
        .action(ArgAction::Set)
}

/// The words as they were read, or what is wrong with them.
pub(crate) fn matches_of<'a>(alloc: Global, words: &'a [String]) -> Result<ArgMatches<'a>, Error>
    ensures faults { FailsBy (faults (map string_bytes words.entry.now)) result }
    ensures subcommand { IfOk result (λ matches. subcommand_rows_of matches ≡ subcommand_of tool_app (map string_bytes words.entry.now)) }
{
    let command = command(alloc)?;
    match command.try_get_matches_from(words) {
        Ok(matches) => with_known_form(alloc, matches),
        Err(error) => Err(error),
    }
}

/// The words, unless one after `--times` names no form.
fn with_known_form<'a>(alloc: Global, matches: ArgMatches<'a>) -> Result<ArgMatches<'a>, Error>
    ensures faults { FailsBy (faults_of_forms (subcommand_rows_of matches.entry)) result }
    ensures same { IfOk result (λ known. known ≡ matches.entry) }
{
    match unknown_form_in(&matches) {
        Some(word) => refuse_form(alloc, word),
        None => Ok(matches),
    }
}

fn refuse_form<'a>(alloc: Global, word: &str) -> Result<ArgMatches<'a>, Error>
    ensures faults { FailsBy (InvalidValue ∷ []) result }
    ensures err { IsErr result }
{
    Err(form_fault(alloc, word)?)
}

fn unknown_form_in<'a>(matches: &ArgMatches<'a>) -> Option<&'a str>
    ensures { faults_of_forms (subcommand_rows_of matches.now) ≡ option_map_or (λ _. InvalidValue ∷ []) result [] }
{
    match matches.subcommand() {
        Some((_, words)) => unknown_form(words),
        None => None,
    }
}

/// The task that they name.
pub(crate) fn task_in(matches: &ArgMatches<'_>) -> Task
    ensures task { result ≡ task_of (subcommand_rows_of matches.now) }
    ensures doable { IsDoable result }
{
    match matches.subcommand() {
        Some((name, words)) => task_of_words(name, words),
        None => Task::OnFile(Work::Step),
    }
}

fn task_of_words(name: &str, words: &ArgMatches<'_>) -> Task
    ensures task { result ≡ task_by name.now (rows_of (found_of words.now)) }
    ensures doable { IsDoable result }
{
    if name == "vacation" {
        Task::OnFile(work_on_sessions(number_in(words, WORKERS)))
    } else if name == "bench" {
        Task::OnDrawn(drawn_in(words), form_in(words))
    } else if name == "explore" {
        Task::OnFile(Work::Explore(number_in(words, MOST)))
    } else {
        Task::OnFile(work_on_script(words))
    }
}

fn work_on_script(words: &ArgMatches<'_>) -> Work
    ensures work { result ≡ step_work (rows_of (found_of words.now)) }
    ensures doable { IsDoable (OnFile result) }
{
    match words.get_str("lanes") {
        Some(word) => work_by_flag(word),
        None => Work::Step,
    }
}

fn work_by_flag(word: &str) -> Work
    ensures work { result ≡ step_work_by word.now }
    ensures doable { IsDoable (OnFile result) }
{
    if word == "true" {
        Work::Lanes
    } else {
        Work::Step
    }
}

fn work_on_sessions(workers: u64) -> Work
    requires { workers ≤ ACTOR_LIMIT }
    ensures work { result ≡ vacation_work workers }
    ensures doable { IsDoable (OnFile result) }
{
    if workers == 0 {
        Work::Vacation
    } else {
        Work::Served(workers as usize)
    }
}

/// The file that the words name. There is none for `-` and for refused words.
pub fn file_of(alloc: Global, words: &[String]) -> Result<Option<String>, Memory>
    ensures { IfOk result (λ file. option_map string_bytes file ≡ named_file (map string_bytes words.now)) }
{
    match matches_of(alloc, words) {
        Ok(matches) => file_in(alloc, &matches),
        Err(error) => none_for(error),
    }
}

/// Refused words name no file; but words that could not be read as memory ran out might.
fn none_for(error: Error) -> Result<Option<String>, Memory>
    ensures none { IfOk result (λ file. (file ≡ None) × (kind_of error ≢ ErrorKind.OutOfMemory)) }
    ensures memory { IsErr result → kind_of error ≡ ErrorKind.OutOfMemory }
{
    if error.kind() == ErrorKind::OutOfMemory {
        return Err(Memory);
    }
    Ok(None)
}

fn file_in(alloc: Global, matches: &ArgMatches<'_>) -> Result<Option<String>, Memory>
    ensures { IfOk result (λ file. option_map string_bytes file ≡ option_and_then not_dash (file_word (subcommand_rows_of matches.now))) }
{
    let Some((_, words)) = matches.subcommand() else {
        return Ok(None);
    };
    file_but_dash(alloc, words.get_str("FILE"))
}

fn file_but_dash(alloc: Global, file: Option<&str>) -> Result<Option<String>, Memory>
    ensures { IfOk result (λ name. option_map string_bytes name ≡ option_and_then not_dash (option_map (λ s. s.now) file.entry)) }
{
    match file {
        Some(file) if file != "-" => Ok(Some(String::from_str(alloc, file)?)),
        _ => Ok(None),
    }
}
