//! What actions answer and what tables hold, as text.
use seq_model::{LastAbort, Refusal};
use std::alloc::Global;
use std::fmt::Write;
use text_formats::{Line, print_sessions};
use vac_model::{ActionReply, Kind, Tables, is_balanced_by_tally};

/// What is printed of sessions, and of what the tables hold.
pub fn lines_of(alloc: Global, lines: &[Line], tables: &Tables) -> Result<String, Refusal> {
    let printed = print_sessions(alloc, lines, tables)?;
    match String::from_utf8(printed) {
        Ok(printed) => Ok(printed),
        Err(_) => Err(Refusal::NoSuch),
    }
}

/// Prints what came of sessions after the line of the row, the last line without its line feed.
pub fn print_lines(text: &mut String, lines: &[Line], tables: &Tables) -> Result<(), Refusal> {
    text.push('\n')?;
    let printed = lines_of(*text.allocator(), lines, tables)?;
    Ok(text.push_str(printed.strip_suffix('\n').unwrap_or(""))?)
}

/// Prints sessions without a receipt, for each kind of cause.
pub fn print_missed(text: &mut String) -> Result<(), Refusal> {
    let stale = Refusal::Stale {
        location: 3,
        base_edition: 5,
        word_edition: 4,
    };
    let lines = [
        Line::Missed(LastAbort::Refused(stale)),
        Line::Missed(LastAbort::Refused(Refusal::Exhausted { clock: 9 })),
        Line::Missed(LastAbort::GivenUp),
        Line::Missed(LastAbort::NotStarted),
    ];
    let tables = Tables::new(*text.allocator());
    print_lines(text, &lines, &tables)
}

/// Prints the reply as a session's, without the numbers before it.
pub fn print_reply(text: &mut String, tables: &Tables, reply: ActionReply) -> Result<(), Refusal> {
    text.push(' ')?;
    let lines = [Line::Done(0, reply)];
    let printed = lines_of(*text.allocator(), &lines, tables);
    drop(lines);
    let printed = printed?;
    let (line, _) = printed.split_once('\n').unwrap_or(("", ""));
    Ok(text.push_str(line.strip_prefix("1 0: ").unwrap_or(line))?)
}

/// Prints what the tables hold, and the tickets.
pub fn print_left(text: &mut String, tables: &Tables) -> Result<(), Refusal> {
    print_lines(text, &[], tables)?;
    for (number, ticket) in tables.tickets() {
        let (kind, id) = (name_of(ticket.kind), ticket.id);
        let (customer, units) = (ticket.customer, ticket.units);
        write!(
            text,
            "\nticket {number}: customer {customer} {kind} {id} {units}"
        )?;
    }
    print_end(text, tables)
}

/// The name of a kind.
pub fn name_of(kind: Kind) -> &'static str {
    match kind {
        Kind::Car => "car",
        Kind::Flight => "flight",
        Kind::Room => "room",
    }
}

// How many were taken off each queue, the next ticket, and what both tests of balance say.
fn print_end(text: &mut String, tables: &Tables) -> Result<(), Refusal> {
    let by_tally = is_balanced_by_tally(*text.allocator(), tables)?;
    let balanced = match (tables.balanced(), by_tally) {
        (true, true) => "yes",
        (false, false) => "no",
        _ => "in doubt",
    };
    let cars = tables.waiting(Kind::Car).head;
    let flights = tables.waiting(Kind::Flight).head;
    let rooms = tables.waiting(Kind::Room).head;
    let next = tables.next_ticket();
    write!(
        text,
        "\ntaken off {cars} {flights} {rooms}\nnext {next}\nbalanced {balanced}"
    )?;
    Ok(())
}
