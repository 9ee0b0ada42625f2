//! What is printed of an exploration, and of a script.
ghost use Rattle.std.specs.Prelude.{◌≡◌, ◌++◌, IfOk, OnOk, flat_map};
ghost use Rattle.std.specs.String.{string_bytes};
ghost use Rattle.interleavings.specs.Explorations.{complete_text, ending_text, exploration_text, outcome_count_text, outcome_text};
ghost use Rattle.interleavings.specs.Explorations.{run_count_text, title_text, yes_or_no_text};
ghost use Rattle.interleavings.specs.ScriptPrints.{clock_text, collection_text, contents_text, line_text, script_text, steps_text};

use crate::outcomes::{Exploration, Outcome};
use seq_model::{Held, Memory};
use session_text::{print_numbers, print_pairs, print_request, print_trace, print_words};
use std::alloc::Global;
use std::fmt::Write;
use text_formats::{Collection, EventLine, STEP_LIMIT, Script};

/// The outcomes with their scripts, and then how many there are, how many interleavings were run to their end, and whether that is all.
pub(crate) fn print_exploration(alloc: Global, exploration: &Exploration) -> Result<Vec<u8>, Memory>
    ensures { IfOk result (λ text. text.items ≡ exploration_text exploration.now) }
{
    let mut text = Vec::new(alloc);
    print_outcomes(alloc, &mut text, exploration.outcomes.as_slice())?;
    let ending = print_ending(alloc, exploration)?;
    text.extend_from_slice(ending.as_bytes())?;
    Ok(text)
}

fn print_outcomes(alloc: Global, text: &mut Vec<u8>, outcomes: &[Outcome]) -> Result<(), Memory>
    ensures { OnOk result (text.new.items ≡ text.old.items ++ flat_map outcome_text outcomes.now) }
{
    for outcome in outcomes {
        print_outcome(alloc, text, outcome)?;
    }
    Ok(())
}

fn print_outcome(alloc: Global, text: &mut Vec<u8>, outcome: &Outcome) -> Result<(), Memory>
    ensures { OnOk result (text.new.items ≡ text.old.items ++ outcome_text outcome.now) }
{
    let title = print_title(alloc, outcome.count)?;
    text.extend_from_slice(title.as_bytes())?;
    let printed = print_trace(alloc, &outcome.run)?;
    text.extend_from_slice(printed.as_slice())?;
    text.extend_from_slice(b"script\n")?;
    let script = print_script(alloc, &outcome.script)?;
    text.extend_from_slice(script.as_slice())?;
    Ok(())
}

fn print_title(alloc: Global, count: u64) -> Result<String, Memory>
    ensures { IfOk result (λ title. string_bytes title ≡ title_text count) }
{
    let mut title = String::new(alloc);
    writeln!(title, "outcome of {count} interleavings")?;
    Ok(title)
}

fn print_ending(alloc: Global, exploration: &Exploration) -> Result<String, Memory>
    ensures { IfOk result (λ ending. string_bytes ending ≡ ending_text exploration.now) }
{
    let mut ending = String::new(alloc);
    print_outcome_count(&mut ending, exploration.outcomes.len())?;
    print_run_count(&mut ending, exploration.interleavings)?;
    print_complete(&mut ending, exploration.is_complete)?;
    Ok(ending)
}

fn print_outcome_count(text: &mut String, count: usize) -> Result<(), Memory>
    ensures { OnOk result (string_bytes text.new ≡ string_bytes text.old ++ outcome_count_text count) }
{
    writeln!(text, "outcomes {count}")?;
    Ok(())
}

fn print_run_count(text: &mut String, count: u64) -> Result<(), Memory>
    ensures { OnOk result (string_bytes text.new ≡ string_bytes text.old ++ run_count_text count) }
{
    writeln!(text, "interleavings {count}")?;
    Ok(())
}

fn print_complete(text: &mut String, is_complete: bool) -> Result<(), Memory>
    ensures { OnOk result (string_bytes text.new ≡ string_bytes text.old ++ complete_text is_complete) }
{
    text.push_str("audit ok\n")?;
    let complete = yes_or_no(is_complete);
    writeln!(text, "complete {complete}")?;
    Ok(())
}

fn yes_or_no(holds: bool) -> &'static str
    ensures { result.now ≡ yes_or_no_text holds }
{
    if holds { "yes" } else { "no" }
}

/// The text of a script.
fn print_script(alloc: Global, script: &Script) -> Result<Vec<u8>, Memory>
    ensures { IfOk result (λ text. text.items ≡ script_text script.now) }
{
    let mut text = String::new(alloc);
    print_words(&mut text, script.words.as_slice())?;
    print_clock(&mut text, script.clock)?;
    print_collections(&mut text, script.collections.as_slice())?;
    print_lines(&mut text, script.lines.as_slice())?;
    Ok(text.into_bytes())
}

fn print_collections(text: &mut String, collections: &[Collection]) -> Result<(), Memory>
    ensures { OnOk result (string_bytes text.new ≡ string_bytes text.old ++ flat_map collection_text collections.now) }
{
    for collection in collections {
        print_collection(text, collection)?;
    }
    Ok(())
}

fn print_lines(text: &mut String, lines: &[EventLine]) -> Result<(), Memory>
    ensures { OnOk result (string_bytes text.new ≡ string_bytes text.old ++ flat_map line_text lines.now) }
{
    for line in lines {
        print_line(text, line)?;
    }
    Ok(())
}

fn print_clock(text: &mut String, clock: u64) -> Result<(), Memory>
    ensures { OnOk result (string_bytes text.new ≡ string_bytes text.old ++ clock_text clock) }
{
    if clock > 0 {
        writeln!(text, "clock {clock}")?;
    }
    Ok(())
}

fn print_collection(text: &mut String, collection: &Collection) -> Result<(), Memory>
    ensures { OnOk result (string_bytes text.new ≡ string_bytes text.old ++ collection_text collection.now) }
{
    print_contents(text, collection.stripes, &collection.held)?;
    text.push('\n')?;
    Ok(())
}

fn print_contents(text: &mut String, stripes: u32, held: &Held<u64>) -> Result<(), Memory>
    ensures { OnOk result (string_bytes text.new ≡ string_bytes text.old ++ contents_text stripes held.now) }
{
    match held {
        Held::Map(map) => {
            write!(text, "map {stripes}")?;
            print_pairs(text, map.iter())
        }
        Held::Bag(counts) => {
            write!(text, "bag {stripes}")?;
            print_pairs(text, counts.iter())
        }
        Held::Pq(counts) => {
            write!(text, "pq {stripes}")?;
            print_pairs(text, counts.iter())
        }
        Held::Queue { head: _, items } => {
            write!(text, "queue {stripes}")?;
            let (front, back) = items.as_slices();
            print_numbers(text, front)?;
            print_numbers(text, back)
        }
    }
}

fn print_line(text: &mut String, line: &EventLine) -> Result<(), Memory>
    ensures { OnOk result (string_bytes text.new ≡ string_bytes text.old ++ line_text line.now) }
{
    match line {
        EventLine::Ask(actor, request) => {
            write!(text, "{actor} ")?;
            print_request(text, request)?;
        }
        EventLine::Do(actor, request) => {
            write!(text, "{actor} do ")?;
            print_request(text, request)?;
        }
        EventLine::Steps(actor, count) => {
            write!(text, "{actor}")?;
            print_steps(text, *count)?;
        }
        EventLine::Starve(actor) => write!(text, "{actor} starve")?,
        EventLine::Alternate(first, second) => write!(text, "alt {first} {second}")?,
    }
    text.push('\n')?;
    Ok(())
}

fn print_steps(text: &mut String, count: u64) -> Result<(), Memory>
    ensures { OnOk result (string_bytes text.new ≡ string_bytes text.old ++ steps_text count) }
{
    if count == 1 {
        text.push_str(" step")?;
    } else if count == STEP_LIMIT {
        text.push_str(" go")?;
    } else {
        write!(text, " step {count}")?;
    }
    Ok(())
}
