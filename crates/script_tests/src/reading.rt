//! A script, as it was read.
use row_parts::{parts_of, print_all, print_held};
use seq_model::{Memory, Refusal, Request};
use std::alloc::AllocError;
use std::fmt::Write;
use text_formats::{EventLine, Script, parse_steps};

/// Prints what was read of a script: its words, its clock, its collections, and its lines.
pub fn print_script(text: &mut String, lines: &str) -> Result<(), Refusal> {
    let script = parse_steps(*text.allocator(), lines.as_bytes())?;
    Ok(print_read(text, &script)?)
}

fn print_read(text: &mut String, script: &Script) -> Result<(), Memory> {
    print_all(text, "words", script.words.as_slice())?;
    writeln!(text, "\nclock {}", script.clock)?;
    for collection in script.collections.as_slice() {
        write!(text, "{} stripes, ", collection.stripes)?;
        print_held(text, &collection.held)?;
        text.push('\n')?;
    }
    for line in script.lines.as_slice() {
        print_line(text, line)?;
        text.push('\n')?;
    }
    Ok(())
}

fn print_line(text: &mut String, line: &EventLine) -> Result<(), AllocError> {
    match line {
        EventLine::Ask(actor, request) => {
            write!(text, "{actor} asks ")?;
            print_request(text, request)
        }
        EventLine::Do(actor, request) => {
            write!(text, "{actor} does ")?;
            print_request(text, request)
        }
        EventLine::Steps(actor, count) => write!(text, "{actor} takes {count} steps"),
        EventLine::Starve(actor) => write!(text, "{actor} starves"),
        EventLine::Alternate(one, other) => write!(text, "{one} and {other} in turn"),
    }
}

fn print_request(text: &mut String, request: &Request<u64>) -> Result<(), AllocError> {
    let call = match request {
        Request::Begin => return text.push_str("Begin"),
        Request::BeginRead => return text.push_str("BeginRead"),
        Request::Commit => return text.push_str("Commit"),
        Request::Abort => return text.push_str("Abort"),
        Request::Call(call) => call,
    };
    let (name, first, second) = parts_of(&call.op);
    write!(text, "of {}: {name}", call.target)?;
    if let Some(first) = first {
        write!(text, " {first}")?;
    }
    match second {
        Some(second) => write!(text, " {second}"),
        None => Ok(()),
    }
}
