//! Prints the result of a script.
ghost use Rattle.std.specs.Prelude.{◌≡◌, ◌++◌, IfOk, OnOk, flat_map};
ghost use Rattle.std.specs.String.{string_bytes};
ghost use Rattle.session_text.specs.TracePrints.{number_text, pair_text, reply_text, answer_text};
ghost use Rattle.session_text.specs.TracePrints.{record_text, half_text, held_text, words_text};
ghost use Rattle.session_text.specs.TracePrints.{state_text, notice_text, run_text, trace_text};

use crate::run::ScriptRun;
use seq_model::{Answer, Held, Memory, Notice, Record, Reply, State};
use std::alloc::Global;
use std::collections::btree_map::Iter;
use std::fmt::Write;
use step_world::Trace;

/// The text of the result of a script: a line for each notice, then the records, the half-done commits, and what words
/// and collections hold.
pub fn print_trace(alloc: Global, run: &ScriptRun) -> Result<Vec<u8>, Memory>
    ensures { IfOk result (λ text. text.items ≡ run_text run.now) }
{
    let mut text = String::new(alloc);
    print_notices(&mut text, run.notices.as_slice())?;
    print_result(&mut text, &run.trace)?;
    Ok(text.into_bytes())
}

/// Adds the records of a trace, the half-done commits, and what words and collections hold.
pub(crate) fn print_result(text: &mut String, trace: &Trace<u64>) -> Result<(), Memory>
    ensures { OnOk result (string_bytes text.new ≡ string_bytes text.old ++ trace_text trace.now) }
{
    print_records(text, trace.records.as_slice())?;
    print_halves(text, trace.half.as_slice())?;
    print_state(text, &trace.state)
}

fn print_notices(text: &mut String, notices: &[Notice<u64>]) -> Result<(), Memory>
    ensures { OnOk result (string_bytes text.new ≡ string_bytes text.old ++ flat_map notice_text notices.now) }
{
    for notice in notices {
        print_notice(text, notice)?;
    }
    Ok(())
}

fn print_records(text: &mut String, records: &[(u32, Record<u64>)]) -> Result<(), Memory>
    ensures { OnOk result (string_bytes text.new ≡ string_bytes text.old ++ flat_map record_text records.now) }
{
    for (actor, made) in records {
        print_record(text, *actor, made)?;
    }
    Ok(())
}

fn print_halves(text: &mut String, half: &[u64]) -> Result<(), Memory>
    ensures { OnOk result (string_bytes text.new ≡ string_bytes text.old ++ flat_map half_text half.now) }
{
    for number in half {
        writeln!(text, "half {number}")?;
    }
    Ok(())
}

fn print_notice(text: &mut String, notice: &Notice<u64>) -> Result<(), Memory>
    ensures { OnOk result (string_bytes text.new ≡ string_bytes text.old ++ notice_text notice.now) }
{
    match notice {
        Notice::Quiet => {}
        Notice::Answered(actor, answer) => {
            write!(text, "{actor}: ")?;
            print_answer(text, answer)?;
            text.push('\n')?;
        }
        Notice::Refused(actor, refusal) => {
            writeln!(text, "{actor}: {refusal}")?;
        }
    }
    Ok(())
}

/// Adds an answer.
pub(crate) fn print_answer(text: &mut String, answer: &Answer<u64>) -> Result<(), Memory>
    ensures { OnOk result (string_bytes text.new ≡ string_bytes text.old ++ answer_text answer.now) }
{
    match answer {
        Answer::Begun(clock) => write!(text, "begun {clock}")?,
        Answer::Replied(reply) => print_reply(text, reply)?,
        Answer::Committed(number) => write!(text, "committed {number}")?,
        Answer::Aborted => text.push_str("aborted")?,
    }
    Ok(())
}

fn print_reply(text: &mut String, reply: &Reply<u64>) -> Result<(), Memory>
    ensures { OnOk result (string_bytes text.new ≡ string_bytes text.old ++ reply_text reply.now) }
{
    match reply {
        Reply::Done => text.push_str("done")?,
        Reply::Full => text.push_str("full")?,
        Reply::Nothing => text.push_str("none")?,
        Reply::Value(n) | Reply::Found(n) => write!(text, "some {n}")?,
        Reply::Number(n) => write!(text, "{n}")?,
        Reply::Yes => text.push_str("true")?,
        Reply::No => text.push_str("false")?,
    }
    Ok(())
}

fn print_record(text: &mut String, actor: u32, made: &Record<u64>) -> Result<(), Memory>
    ensures { OnOk result (string_bytes text.new ≡ string_bytes text.old ++ record_text (actor, made.now)) }
{
    let kind = if made.writes { "write" } else { "read" };
    let number = made.number;
    let calls = made.calls.len();
    writeln!(text, "record {number} {kind} actor {actor} calls {calls}")?;
    Ok(())
}

fn print_state(text: &mut String, state: &State<u64>) -> Result<(), Memory>
    ensures { OnOk result (string_bytes text.new ≡ string_bytes text.old ++ state_text state.now) }
{
    print_words(text, state.words())?;
    for held in state.held() {
        print_held(text, held)?;
        text.push('\n')?;
    }
    Ok(())
}

/// Adds the line of words, where there are some.
pub fn print_words(text: &mut String, words: &[u64]) -> Result<(), Memory>
    ensures { OnOk result (string_bytes text.new ≡ string_bytes text.old ++ words_text words.now) }
{
    if !words.is_empty() {
        text.push_str("words")?;
        print_numbers(text, words)?;
        text.push('\n')?;
    }
    Ok(())
}

fn print_held(text: &mut String, held: &Held<u64>) -> Result<(), Memory>
    ensures { OnOk result (string_bytes text.new ≡ string_bytes text.old ++ held_text held.now) }
{
    match held {
        Held::Map(map) => {
            text.push_str("map")?;
            print_pairs(text, map.iter())
        }
        Held::Bag(counts) => {
            text.push_str("bag")?;
            print_pairs(text, counts.iter())
        }
        Held::Pq(counts) => {
            text.push_str("pq")?;
            print_pairs(text, counts.iter())
        }
        Held::Queue { head, items } => {
            let head = *head;
            write!(text, "queue {head}")?;
            let (front, back) = items.as_slices();
            print_numbers(text, front)?;
            print_numbers(text, back)
        }
    }
}

/// Adds numbers, each after a space.
pub fn print_numbers(text: &mut String, numbers: &[u64]) -> Result<(), Memory>
    ensures { OnOk result (string_bytes text.new ≡ string_bytes text.old ++ flat_map number_text numbers.now) }
{
    for number in numbers {
        write!(text, " {number}")?;
    }
    Ok(())
}

/// Adds pairs, each after a space, with a colon between key and value.
pub fn print_pairs(text: &mut String, pairs: Iter<'_, u64, u64>) -> Result<(), Memory>
    ensures { OnOk result (string_bytes text.new ≡ string_bytes text.old ++ flat_map pair_text pairs.entry) }
{
    for (key, value) in pairs {
        write!(text, " {key}:{value}")?;
    }
    Ok(())
}
