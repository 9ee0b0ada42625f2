//! The rows, and who answers each.
use super::draws::{answer_drawn, opened_by_draws};
use super::events::action_in;
use super::files::{answer_action, answer_file, answer_printed, numbers_of};
use super::limits::{answer_built, answer_copy, answer_places};
use super::parts::{of_parts, rebuilt};
use super::prints::{print_left, print_missed};
use row_parts::tell_refusal;
use seq_model::{Memory, Refusal};
use std::alloc::Global;
use std::fmt::Write;
use vac_model::{ActionRefusal, Tables};

/// The rows, each with its answer. An empty row and one that begins with `#` have none. What is
/// refused is answered by the refusal.
///
/// - `empty` opens tables that hold nothing, in the place of those before. `next 9` opens tables with one car of one unit, where 9 is
///   the next ticket; `line 1 0` such in whose queue of cars these tickets stand, for which nobody waits; `opening SEED OPTIONS` those
///   that are drawn from a seed.
/// - `reserve 7 1 car 1`, and any other line of an action in a session file, makes the action on the tables that were opened last.
///   `asks UNITS COUNT` is a reservation that asks for so many units of car 1, so many times; `adds UNITS PRICE`, `takes UNITS 0` and
///   `drops COUNT 0` are updates that add room 1, take units of it, or drop flight 1 so many times. They are made only where they
///   are not allowed.
/// - `left`: what the tables hold, as after the sessions of a session file; then the tickets, how many were taken off the queue of
///   each kind, the next ticket, and what both tests of balance say. `rebuilt`: the same of tables of these tables' parts.
/// - `places 9 8`: what a customer with nine bookings and eight waits is answered for a unit that is free, and for one that is not.
/// - `copy 1 0`: whether a customer with one booking is the same as a copy with none more.
/// - `refusals`: what the refusals of an action print. `missed`: what is printed of sessions without a receipt.
/// - `file: TEXT` reads a session file, in which `|` stands for a line feed and `?` for a byte that is no text.
///   `printed NUMBERS: TEXT` makes its sessions, which commit with these numbers: what is printed.
/// - `drawn SEED WORKER OPTIONS`: the sessions of a worker. The options are clients, queries, the share of the ids, relations,
///   transactions and the share of the reservations.
pub fn answer_rows(text: &mut String, rows: &str) -> Result<(), Memory> {
    let mut tables = Tables::new(*text.allocator());
    for row in rows.lines() {
        text.push_str(row)?;
        if !matches!(row.as_bytes(), [] | [b'#', ..]) {
            text.push_str(" =")?;
            let answered = answer_row(text, &mut tables, row);
            tell_refusal(text, " ", answered, "")?;
        }
        text.push('\n')?;
    }
    Ok(())
}

fn answer_row(text: &mut String, tables: &mut Tables, row: &str) -> Result<(), Refusal> {
    let alloc = *text.allocator();
    let (head, file) = row.split_once(": ").unwrap_or((row, ""));
    let (name, others) = head.split_once(' ').unwrap_or((head, ""));
    match name {
        "left" => print_left(text, tables),
        "rebuilt" => print_left(text, &rebuilt(alloc, tables)?),
        "refusals" => {
            let (long, memory) = (ActionRefusal::TooLong, ActionRefusal::Memory);
            Ok(write!(text, " {long} {memory}")?)
        }
        "missed" => print_missed(text),
        "file" => answer_file(text, file),
        "reserve" | "delete" | "update" | "item" | "bill" => {
            answer_action(text, tables, action_in(alloc, row)?)
        }
        _ => {
            let numbers = numbers_of(alloc, others)?;
            answer_numbers(text, tables, name, numbers.as_slice(), file)
        }
    }
}

fn answer_numbers(
    text: &mut String,
    tables: &mut Tables,
    name: &str,
    numbers: &[u64],
    file: &str,
) -> Result<(), Refusal> {
    match name {
        "asks" | "adds" | "takes" | "drops" => answer_built(text, tables, name, numbers),
        "places" => answer_places(text, tables, numbers),
        "copy" => answer_copy(text, numbers),
        "printed" => answer_printed(text, numbers, file),
        "drawn" => answer_drawn(text, numbers),
        _ => {
            *tables = opened(*text.allocator(), name, numbers)?;
            Ok(text.push_str(" opened")?)
        }
    }
}

fn opened(alloc: Global, name: &str, numbers: &[u64]) -> Result<Tables, Refusal> {
    if name == "empty" {
        return Ok(Tables::new(alloc));
    }
    let [first, others @ ..] = numbers else {
        return Err(Refusal::NoSuch);
    };
    match name {
        "next" => of_parts(alloc, 1, &[], *first),
        "line" => of_parts(alloc, 0, numbers, 2),
        "opening" => opened_by_draws(alloc, *first, others),
        _ => Err(Refusal::NoSuch),
    }
}
