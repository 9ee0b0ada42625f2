//! Explorations beside runs of their scripts, and beside all schedules.
use command_line::NoProgress;
use interleavings::{Exploration, Schedules, explore, explore_script};
use seq_model::Memory;
use session_text::{RunFault, print_trace, run_script};
use std::alloc::Global;
use std::fmt::Write;
use text_formats::parse_steps;

/// At most so many runs are made.
const MOST: u64 = 100_000;

/// How many outcomes the script's exploration prints, and how many of them are what `step` prints of the script beside them.
pub fn print_replayed(text: &mut String, script: &str) -> Result<(), RunFault> {
    let alloc = *text.allocator();
    let bytes = explore(alloc, script.as_bytes(), MOST, &NoProgress)?;
    let printed = std::str::from_utf8(bytes.as_slice()).unwrap_or("no text\n");
    let (outcomes, ending) = printed.split_once("outcomes ").unwrap_or(("", ""));
    let replayed = count_replayed(alloc, outcomes)?;
    Ok(print_counts(text, ending.lines().next().unwrap_or(""), replayed)?)
}

fn print_counts(text: &mut String, outcomes: &str, replayed: u64) -> Result<(), Memory> {
    Ok(writeln!(text, "outcomes {outcomes} replayed {replayed}")?)
}

fn count_replayed(alloc: Global, outcomes: &str) -> Result<u64, RunFault> {
    let mut replayed = 0u64;
    for outcome in outcomes.split("outcome ") {
        if let Some((told, script)) = outcome.split_once("script\n") {
            let (_, told) = told.split_once('\n').unwrap_or(("", ""));
            if is_replay(alloc, told, script)? {
                replayed = replayed.saturating_add(1);
            }
        }
    }
    Ok(replayed)
}

fn is_replay(alloc: Global, told: &str, script: &str) -> Result<bool, RunFault> {
    let script = parse_steps(alloc, script.as_bytes())?;
    let run = run_script(alloc, &script)?;
    let printed = print_trace(alloc, &run)?;
    Ok(printed.as_slice() == told.as_bytes())
}

/// How many outcomes and interleavings the script's exploration has, and how many one under all schedules; and how many outcomes of the
/// one the other has, and by no shorter script.
pub fn print_beside_all(text: &mut String, script: &str) -> Result<(), RunFault> {
    let alloc = *text.allocator();
    let script = parse_steps(alloc, script.as_bytes())?;
    let few = explore_script(alloc, &script, 1, Schedules::Apart, MOST, &NoProgress)?;
    let all = explore_script(alloc, &script, 1, Schedules::All, u64::MAX, &NoProgress)?;
    print_found(text, "apart", &few, &all)?;
    Ok(print_found(text, "all", &all, &few)?)
}

// How many outcomes were found, how many of them the other has, and how many of these by no shorter script.
fn print_found(
    text: &mut String,
    name: &str,
    found: &Exploration,
    other: &Exploration,
) -> Result<(), Memory> {
    let mut shared = 0u64;
    let mut shortest = 0u64;
    for outcome in found.outcomes.as_slice() {
        if let Some(index) = other.index_of(outcome.key.as_slice()) {
            shared = shared.saturating_add(1);
            if outcome.script.lines.len() <= other.outcomes[index].script.lines.len() {
                shortest = shortest.saturating_add(1);
            }
        }
    }
    let outcomes = found.outcomes.len();
    let interleavings = found.interleavings;
    let complete = if found.is_complete { "yes" } else { "no" };
    write!(
        text,
        "{name}: outcomes {outcomes} shared {shared} shortest {shortest} "
    )?;
    Ok(writeln!(text, "interleavings {interleavings} complete {complete}")?)
}
