//! Session files, and the actions that they say.
use super::prints::{print_lines, print_reply};
use row_parts::number_in;
use seq_model::Refusal;
use std::alloc::Global;
use text_formats::{Line, parse_sessions};
use vac_model::{Action, ActionRefusal, ActionReply, Tables};

/// The numbers of a row.
pub fn numbers_of(alloc: Global, row: &str) -> Result<Vec<u64>, Refusal> {
    let mut numbers = Vec::new(alloc);
    if row.is_empty() {
        return Ok(numbers);
    }
    for token in row.split(' ') {
        numbers.push(number_in(token)?)?;
    }
    Ok(numbers)
}

fn bytes_of(alloc: Global, file: &str) -> Result<Vec<u8>, Refusal> {
    let mut bytes = Vec::new(alloc);
    for byte in file.as_bytes() {
        bytes.push(match byte {
            b'|' => b'\n',
            b'?' => 0xff,
            other => *other,
        })?;
    }
    Ok(bytes)
}

// What the parser promises is no concern of the rows.
pub fn parsed(alloc: Global, bytes: Vec<u8>) -> Result<(Tables, Vec<Action>), Refusal> {
    parse_sessions(alloc, bytes.as_slice())
}

// Tables that are out of balance have none.
fn act(tables: &mut Tables, action: &Action) -> Result<ActionReply, Refusal> {
    if !tables.balanced() {
        return Err(Refusal::NoSuch);
    }
    match tables.act(action) {
        Ok(reply) => Ok(reply),
        Err(ActionRefusal::TooLong) => Err(Refusal::TooLong),
        Err(ActionRefusal::Memory) => Err(Refusal::Memory),
    }
}

/// Makes the action, and prints its reply.
pub fn answer_action(
    text: &mut String,
    tables: &mut Tables,
    action: Action,
) -> Result<(), Refusal> {
    let reply = act(tables, &action)?;
    print_reply(text, tables, reply)
}

/// Reads a session file.
pub fn answer_file(text: &mut String, file: &str) -> Result<(), Refusal> {
    let alloc = *text.allocator();
    drop(parsed(alloc, bytes_of(alloc, file)?)?);
    Ok(text.push_str(" read")?)
}

/// Makes the sessions of a file, which commit with these numbers: what is printed.
pub fn answer_printed(text: &mut String, numbers: &[u64], file: &str) -> Result<(), Refusal> {
    let alloc = *text.allocator();
    let (mut tables, actions) = parsed(alloc, bytes_of(alloc, file)?)?;
    print_made(text, &mut tables, numbers, actions.as_slice())
}

fn print_made(
    text: &mut String,
    tables: &mut Tables,
    numbers: &[u64],
    actions: &[Action],
) -> Result<(), Refusal> {
    let alloc = *text.allocator();
    let mut lines = Vec::new(alloc);
    for (number, action) in numbers.iter().zip(actions) {
        lines.push(Line::Done(*number, act(tables, action)?))?;
    }
    print_lines(text, lines.as_slice(), tables)
}
