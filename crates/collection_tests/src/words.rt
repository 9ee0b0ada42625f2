//! Moves of actors on a table of words.
use crate::sets::print_found;
use row_parts::{Call, call_of, location, location_in, number_in, print_all};
use seq_model::Refusal;
use std::alloc::Global;
use std::fmt::Write;
use step_core::{WordAnswer, WordRecord, WordRefusal, WordRequest, Words};

// What a move is answered.
type Answer = Result<Option<WordAnswer>, WordRefusal>;

// The calls have functions of their own, since what they promise is no concern of the rows.
fn ask(words: &mut Words, actor: u32, request: WordRequest) -> Answer {
    words.ask(actor, request)
}

fn step(words: &mut Words, actor: u32) -> Answer {
    words.step(actor)
}

/// The words that a row spells.
pub fn words_of(alloc: Global, row: &str) -> Result<Vec<u64>, Refusal> {
    let mut words = Vec::new(alloc);
    for token in row.split(' ') {
        let (count, word) = token.split_once('*').unwrap_or(("1", token));
        let word = number_in(word)?;
        for _ in 0..location_in(count)? {
            words.push(word)?;
        }
    }
    Ok(words)
}

/// Prints what a move is answered.
pub fn tell(text: &mut String, answer: Answer) -> Result<(), Refusal> {
    let told = match answer {
        Err(WordRefusal::Memory) => return Err(Refusal::Memory),
        Err(refusal) => write!(text, "{refusal}"),
        Ok(Some(answer)) => write!(text, "{answer:?}"),
        Ok(None) => text.push_str(".."),
    };
    Ok(told?)
}

/// Answers a row that speaks of a table.
pub fn answer_on(
    text: &mut String,
    words: &mut Words,
    name: &str,
    others: &str,
) -> Result<(), Refusal> {
    match name {
        "left" => print_left(text, words),
        "calls" => print_calls(text, words.history()),
        "value" => {
            let at = location_in(others)? as usize;
            print_found(text, words.values().get(at).copied(), "..")
        }
        actor => make_all(text, words, location_in(actor)?, others),
    }
}

fn print_left(text: &mut String, words: &Words) -> Result<(), Refusal> {
    print_all(text, "words", words.values())?;
    for record in words.history() {
        let (number, actor) = (record.number, record.actor);
        let kind = if record.writes { "write" } else { "read" };
        let calls = record.calls.as_slice().len();
        write!(text, ", record {number} {kind} actor {actor} calls {calls}")?;
    }
    Ok(())
}

fn print_calls(text: &mut String, history: &[WordRecord]) -> Result<(), Refusal> {
    for record in history {
        for call in record.calls.as_slice() {
            write!(text, "{call:?} ")?;
        }
    }
    Ok(text.push_str("in all")?)
}

fn make_all(text: &mut String, words: &mut Words, actor: u32, moves: &str) -> Result<(), Refusal> {
    let mut first = true;
    for asked in moves.split("; ") {
        if !first {
            text.push_str(", ")?;
        }
        first = false;
        let answer = made(words, actor, asked)?;
        tell(text, answer)?;
    }
    Ok(())
}

fn made(words: &mut Words, actor: u32, asked: &str) -> Result<Answer, Refusal> {
    if let Some(asked) = asked.strip_prefix("ask ") {
        let request = request(call_of(asked)?)?;
        return Ok(ask(words, actor, request));
    }
    let call = call_of(asked)?;
    match call.name {
        "step" => Ok(step(words, actor)),
        "snapshot" => Ok(Ok(match words.snapshot(actor) {
            Some(number) => Some(WordAnswer::Number(number)),
            None => None,
        })),
        "read_first" | "write_first" => Ok(touch(words, actor, call, location(call.at)?)),
        _ => Ok(run(words, actor, request(call)?)),
    }
}

fn request(call: Call<'_>) -> Result<WordRequest, Refusal> {
    let at = location(call.at)?;
    match call.name {
        "begin" => Ok(WordRequest::Begin),
        "begin_read" => Ok(WordRequest::BeginRead),
        "read" => Ok(WordRequest::Read(at)),
        "write" => Ok(WordRequest::Write(at, call.value)),
        "lock" => Ok(WordRequest::Lock),
        "store" => Ok(WordRequest::Store),
        "release" => Ok(WordRequest::Release),
        "cancel" => Ok(WordRequest::Cancel),
        "abort" => Ok(WordRequest::Abort),
        "close" => Ok(WordRequest::Close),
        _ => Err(Refusal::NoSuch),
    }
}

// Asks an actor for something, and steps it until that is answered.
fn run(words: &mut Words, actor: u32, request: WordRequest) -> Answer {
    let mut answer = ask(words, actor, request)?;
    for _ in 0..20u32 {
        if answer.is_some() {
            return Ok(answer);
        }
        answer = step(words, actor)?;
    }
    Ok(answer)
}

// Reads the first so many locations, or writes to each.
fn touch(words: &mut Words, actor: u32, call: Call<'_>, count: u32) -> Answer {
    let mut last = None;
    for location in 0..count {
        let request = if call.name == "read_first" {
            WordRequest::Read(location)
        } else {
            WordRequest::Write(location, call.value)
        };
        last = run(words, actor, request)?;
    }
    Ok(last)
}
