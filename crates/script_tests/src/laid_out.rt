//! A trace that is laid out by hand, and what is printed of it.
use row_parts::{Call as Spelled, call_of, location_in, number_in, refusal_of, split, state_of};
use seq_model::{Answer, Call, Items, Notice, Op, Record, Refusal, Reply, State};
use session_text::{ScriptRun, print_trace};
use std::alloc::Global;
use step_world::Trace;
use text_formats::parse_steps;

/// Prints the trace of these lines:
///
/// - `1 Committed 4`: actor 1 is answered this: an answer, a reply or a refusal; `Quiet` is none;
/// - `half 4`, and `record 4 write actor 64 calls 1`.
///
/// What words and collections hold stands above a line `--`, as a script's header, whose clock is the index of a queue's first item.
pub fn print_laid_out(text: &mut String, laid_out: &str) -> Result<(), Refusal> {
    let alloc = *text.allocator();
    let (header, lines) = laid_out.split_once("--\n").unwrap_or(("", laid_out));
    let state = header_of(alloc, header)?;
    let trace = Trace {
        records: Items::new(alloc),
        aborted: Items::new(alloc),
        state,
        half: Items::new(alloc),
    };
    let mut run = run_of(alloc, trace)?;
    add_all(&mut run, alloc, lines)?;
    print_run(text, &run)
}

/// Prints a trace, with nothing printed before it.
pub fn print_trace_alone(text: &mut String, trace: Trace<u64>) -> Result<(), Refusal> {
    let run = run_of(*text.allocator(), trace)?;
    print_run(text, &run)
}

fn print_run(text: &mut String, run: &ScriptRun) -> Result<(), Refusal> {
    let printed = print_trace(*text.allocator(), run)?;
    Ok(text.push_str(std::str::from_utf8(printed.as_slice()).unwrap_or("no text\n"))?)
}

fn run_of(alloc: Global, trace: Trace<u64>) -> Result<ScriptRun, Refusal> {
    let opening = header_of(alloc, "")?;
    Ok(ScriptRun {
        notices: Items::new(alloc),
        opening,
        trace,
    })
}

fn header_of(alloc: Global, header: &str) -> Result<State<u64>, Refusal> {
    let script = parse_steps(alloc, header.as_bytes())?;
    state_of(alloc, &script, script.clock)
}

fn add_all(run: &mut ScriptRun, alloc: Global, lines: &str) -> Result<(), Refusal> {
    for line in lines.lines() {
        let (first, others) = line.split_once(' ').unwrap_or((line, ""));
        let added = match first {
            "Quiet" => run.notices.push(Notice::Quiet),
            "half" => run.trace.half.push(number_in(others)?),
            "record" => run.trace.records.push(record_in(alloc, others)?),
            actor => run.notices.push(notice_in(actor, others)?),
        };
        added?;
    }
    Ok(())
}

fn notice_in(actor: &str, told: &str) -> Result<Notice<u64>, Refusal> {
    let (actor, told) = (location_in(actor)?, call_of(told)?);
    match answer_of(told) {
        Some(answer) => Ok(Notice::Answered(actor, answer)),
        None => Ok(Notice::Refused(actor, refusal_of(told)?)),
    }
}

fn answer_of(told: Spelled<'_>) -> Option<Answer<u64>> {
    match told.name {
        "Begun" => Some(Answer::Begun(told.at)),
        "Committed" => Some(Answer::Committed(told.at)),
        "Aborted" => Some(Answer::Aborted),
        "Done" => Some(Answer::Replied(Reply::Done)),
        "Full" => Some(Answer::Replied(Reply::Full)),
        "Nothing" => Some(Answer::Replied(Reply::Nothing)),
        "Value" => Some(Answer::Replied(Reply::Value(told.at))),
        "Found" => Some(Answer::Replied(Reply::Found(told.at))),
        "Number" => Some(Answer::Replied(Reply::Number(told.at))),
        "Yes" => Some(Answer::Replied(Reply::Yes)),
        "No" => Some(Answer::Replied(Reply::No)),
        _ => None,
    }
}

// `4 write actor 64 calls 1`: the number, whether it wrote, the actor and how many calls.
fn record_in(alloc: Global, record: &str) -> Result<(u32, Record<u64>), Refusal> {
    let (head, count) = split(record, " calls ")?;
    let (head, actor) = split(head, " actor ")?;
    let (number, kind) = split(head, " ")?;
    let (number, actor, count) = (number_in(number)?, location_in(actor)?, number_in(count)?);
    let mut calls = Items::new(alloc);
    for word in 0..count {
        let op = Op::Write(word);
        calls.push((Call { target: 0, op }, Reply::Done))?;
    }
    let record = Record {
        number,
        writes: kind == "write",
        calls,
    };
    Ok((actor, record))
}
