//! Rows on states of the sequential model, on what refusals print, and on copies of events.
use row_parts::{
    Call as Spelled, call_of, location, parts_of, print_all, print_held, print_reply, refusal_of,
    script_of, split, state_of,
};
use seq_model::{Call, Event, Refusal, Request, State};
use std::alloc::AllocError;
use std::fmt::Write;
use step_core::WordRefusal;
use text_formats::EventLine;

fn tell_call(text: &mut String, state: &mut State<u64>, call: &Call<u64>) -> Result<(), Refusal> {
    let told = match state.apply(call) {
        Ok(reply) => print_reply(text, &reply),
        Err(Refusal::NoSuch) => text.push_str("NoSuch"),
        Err(refusal) => return Err(refusal),
    };
    told?;
    Ok(text.push_str("; ")?)
}

// The state that a script leaves, whose calls are printed.
fn left_by(text: &mut String, row: &str) -> Result<State<u64>, Refusal> {
    let alloc = *text.allocator();
    let script = script_of(alloc, row)?;
    let mut state = state_of(alloc, &script, script.clock)?;
    for line in script.lines.as_slice() {
        match line {
            EventLine::Ask(_, Request::Call(call)) => tell_call(text, &mut state, call)?,
            _ => return Err(Refusal::NoSuch),
        }
    }
    Ok(state)
}

/// `SCRIPT`: what the calls are answered, and what they leave.
pub fn answer_state(text: &mut String, row: &str) -> Result<(), Refusal> {
    let state = left_by(text, row)?;
    print_all(text, "words", state.words())?;
    for held in state.held() {
        text.push_str(", ")?;
        print_held(text, held)?;
    }
    Ok(())
}

/// `SCRIPT | SCRIPT`: whether a copy of what the first leaves is the same as what the second does.
pub fn answer_same(text: &mut String, row: &str) -> Result<(), Refusal> {
    let (one, other) = split(row, " | ")?;
    let one = left_by(text, one)?;
    let other = left_by(text, other)?;
    let copy = one.try_copy(*text.allocator())?;
    let same = copy.same(&other);
    Ok(text.push_str(if same { "the same" } else { "another" })?)
}

/// `LINE`: a copy of the event that the line asks.
pub fn answer_event(text: &mut String, row: &str) -> Result<(), Refusal> {
    let script = script_of(*text.allocator(), row)?;
    match script.lines.as_slice().first() {
        Some(EventLine::Ask(actor, request)) => tell_copy(text, *actor, request),
        _ => Err(Refusal::NoSuch),
    }
}

fn tell_copy(text: &mut String, actor: u32, request: &Request<u64>) -> Result<(), Refusal> {
    let copy = Event::Ask(actor, request.try_copy()?).try_copy()?;
    let Event::Ask(actor, request) = &copy else {
        return Err(Refusal::NoSuch);
    };
    write!(text, "{actor} asks ")?;
    Ok(print_request(text, request)?)
}

fn print_request(text: &mut String, request: &Request<u64>) -> Result<(), AllocError> {
    match request {
        Request::Begin => text.push_str("begin"),
        Request::BeginRead => text.push_str("begin_read"),
        Request::Call(call) => print_call(text, call),
        Request::Commit => text.push_str("commit"),
        Request::Abort => text.push_str("abort"),
    }
}

fn print_call(text: &mut String, call: &Call<u64>) -> Result<(), AllocError> {
    let (name, number, _) = parts_of(&call.op);
    let target = call.target;
    write!(text, "{name} of {target}")?;
    match number {
        Some(number) => write!(text, " {number}"),
        None => Ok(()),
    }
}

fn word_refusal_of(call: Spelled<'_>) -> Result<WordRefusal, Refusal> {
    let (location, word) = (location(call.at)?, call.value);
    match call.name {
        "moved" => Ok(WordRefusal::Moved { location, word }),
        "busy" => Ok(WordRefusal::Busy { location, word }),
        "invalid" => Ok(WordRefusal::Invalid { location, word }),
        "exhausted" => Ok(WordRefusal::Exhausted { clock: word }),
        "no_such" => Ok(WordRefusal::NoSuch),
        "too_long" => Ok(WordRefusal::TooLong),
        "not_idle" => Ok(WordRefusal::NotIdle),
        "no_transaction" => Ok(WordRefusal::NoTransaction),
        "memory" => Ok(WordRefusal::Memory),
        _ => Err(Refusal::NoSuch),
    }
}

/// `NAME NUMBERS`: what the refusal prints, one of words or any.
pub fn answer_refusal(text: &mut String, of_words: bool, row: &str) -> Result<(), Refusal> {
    let call = call_of(row)?;
    let printed = if of_words {
        write!(text, "{}", word_refusal_of(call)?)
    } else {
        write!(text, "{}", refusal_of(call)?)
    };
    Ok(printed?)
}
