//! Prints what came of sessions.
ghost use Rattle.std.specs.Prelude.{◌≡◌, ◌+◌, ◌++◌, IfOk, OnOk, flat_map, codes};
ghost use Rattle.std.specs.FinMap as map;
ghost use Rattle.std.specs.String.{string_bytes};
ghost use Rattle.text_formats.specs.SessionLines.{kind_token};
ghost use Rattle.text_formats.specs.SessionPrints.{line_text, lines_text, outcome_text, printed, booking_text, changed_text, changes_text};
ghost use Rattle.text_formats.specs.SessionPrints.{customer_line, item_text, items_text, missed_text};
ghost use Rattle.text_formats.specs.SessionPrints.{number_text, part_text, parts_text, queue_text};
ghost use Rattle.text_formats.specs.SessionPrints.{reply_text, tables_text, wait_text};

use seq_model::{LastAbort, Memory};
use std::alloc::{AllocError, Global};
use std::fmt::Write;
use vac_model::{ActionReply, Booking, ChangeReply, Each, Item, Kind, KindReply, Tables, Wait};

/// What became of a session.
#[derive(Drop)]
pub enum Line {
    /// The number of its commit, and its reply.
    Done(u64, ActionReply),
    /// Why it has no receipt.
    Missed(LastAbort),
}

/// The text of what came of sessions: a line for each, from 1, and then what the tables hold.
pub fn print_sessions(alloc: Global, lines: &[Line], tables: &Tables) -> Result<Vec<u8>, Memory>
    ensures { IfOk result (λ text. text.items ≡ printed lines.now tables.now) }
{
    let mut text = String::new(alloc);
    print_lines(&mut text, lines)?;
    print_tables(&mut text, tables)?;
    Ok(text.into_bytes())
}

fn print_lines(text: &mut String, lines: &[Line]) -> Result<(), AllocError>
    ensures { OnOk result (string_bytes text.new ≡ string_bytes text.old ++ lines_text 1 lines.now) }
{
    let mut session = 1;
    for line in lines {
        print_line(text, session, line)?;
        session += 1;
    }
    Ok(())
}

fn print_line(text: &mut String, session: u64, line: &Line) -> Result<(), AllocError>
    ensures { OnOk result (string_bytes text.new ≡ string_bytes text.old ++ line_text session line.now) }
{
    write!(text, "{session} ")?;
    print_outcome(text, line)?;
    text.push('\n')?;
    Ok(())
}

fn print_outcome(text: &mut String, line: &Line) -> Result<(), AllocError>
    ensures { OnOk result (string_bytes text.new ≡ string_bytes text.old ++ outcome_text line.now) }
{
    match line {
        Line::Done(number, reply) => {
            write!(text, "{number}: ")?;
            print_reply(text, reply)
        }
        Line::Missed(cause) => print_missed(text, *cause),
    }
}

fn print_missed(text: &mut String, cause: LastAbort) -> Result<(), AllocError>
    ensures { OnOk result (string_bytes text.new ≡ string_bytes text.old ++ missed_text cause) }
{
    match cause {
        LastAbort::Refused(refusal) => write!(text, "missed: {refusal}"),
        LastAbort::GivenUp => text.push_str("missed: given up"),
        LastAbort::NotStarted => text.push_str("missed: not started"),
    }
}

fn print_reply(text: &mut String, reply: &ActionReply) -> Result<(), AllocError>
    ensures { OnOk result (string_bytes text.new ≡ string_bytes text.old ++ reply_text reply.now) }
{
    match reply {
        ActionReply::Reserved(parts) => print_parts(text, parts),
        ActionReply::Deleted(bill, served) => write!(text, "bill {bill} served {served}"),
        ActionReply::Updated(changes) => print_changes(text, changes.as_slice()),
        ActionReply::Found(item) => print_item(text, item),
        ActionReply::Bill(sum) => write!(text, "bill {sum}"),
        ActionReply::Absent => text.push_str("absent"),
    }
}

fn print_parts(text: &mut String, parts: &Each<KindReply>) -> Result<(), AllocError>
    ensures { OnOk result (string_bytes text.new ≡ string_bytes text.old ++ parts_text parts.now) }
{
    print_part(text, &parts.car)?;
    text.push_str(", ")?;
    print_part(text, &parts.flight)?;
    text.push_str(", ")?;
    print_part(text, &parts.room)
}

fn print_part(text: &mut String, part: &KindReply) -> Result<(), AllocError>
    ensures { OnOk result (string_bytes text.new ≡ string_bytes text.old ++ part_text part.now) }
{
    match part {
        KindReply::Nothing => text.push_str("nothing"),
        KindReply::Already(id) => write!(text, "already {id}"),
        KindReply::Full(id) => write!(text, "full {id}"),
        KindReply::Booked(id, units, price) => write!(text, "booked {id} {units} {price}"),
        KindReply::NoFree(id) => write!(text, "nofree {id}"),
        KindReply::Waits(id, ticket) => write!(text, "waits {id} {ticket}"),
    }
}

fn print_changes(text: &mut String, changes: &[ChangeReply]) -> Result<(), AllocError>
    ensures { OnOk result (string_bytes text.new ≡ string_bytes text.old ++ changes_text changes.now) }
{
    let [first, others @ ..] = changes else {
        return Ok(());
    };
    text.push_str(word_of(*first))?;
    print_others(text, others)
}

fn print_others(text: &mut String, changes: &[ChangeReply]) -> Result<(), AllocError>
    ensures { OnOk result (string_bytes text.new ≡ string_bytes text.old ++ flat_map (λ made. codes " " ++ changed_text made) changes.now) }
{
    for changed in changes {
        let word = word_of(*changed);
        write!(text, " {word}")?;
    }
    Ok(())
}

fn word_of(changed: ChangeReply) -> &'static str
    ensures { result.now ≡ changed_text changed }
{
    match changed {
        ChangeReply::Done => "done",
        ChangeReply::Refused => "refused",
    }
}

fn print_item(text: &mut String, item: &Item) -> Result<(), AllocError>
    ensures { OnOk result (string_bytes text.new ≡ string_bytes text.old ++ item_text item.now) }
{
    let Item {
        total,
        used,
        free,
        price,
    } = *item;
    write!(text, "total {total} used {used} free {free} price {price}")
}

fn print_tables(text: &mut String, tables: &Tables) -> Result<(), AllocError>
    ensures { OnOk result (string_bytes text.new ≡ string_bytes text.old ++ tables_text tables.now) }
{
    print_items(text, Kind::Car, tables)?;
    print_items(text, Kind::Flight, tables)?;
    print_items(text, Kind::Room, tables)?;
    print_customers(text, tables)?;
    print_queue(text, Kind::Car, tables)?;
    print_queue(text, Kind::Flight, tables)?;
    print_queue(text, Kind::Room, tables)
}

fn print_items(text: &mut String, kind: Kind, tables: &Tables) -> Result<(), AllocError>
    ensures { OnOk result (string_bytes text.new ≡ string_bytes text.old ++ items_text kind tables.now) }
{
    let word = name_of(kind);
    for (id, item) in tables.items(kind) {
        write!(text, "{word} {id}: ")?;
        print_item(text, item)?;
        text.push('\n')?;
    }
    Ok(())
}

fn print_customers(text: &mut String, tables: &Tables) -> Result<(), AllocError>
    ensures { OnOk result (string_bytes text.new ≡ string_bytes text.old ++ flat_map customer_line (map.entries tables.now.customers)) }
{
    for (number, customer) in tables.customers() {
        write!(text, "customer {number}:")?;
        print_bookings(text, customer.bookings.as_slice())?;
        print_waits(text, customer.waits.as_slice())?;
        text.push('\n')?;
    }
    Ok(())
}

fn print_bookings(text: &mut String, bookings: &[Booking]) -> Result<(), AllocError>
    ensures { OnOk result (string_bytes text.new ≡ string_bytes text.old ++ flat_map booking_text bookings.now) }
{
    for booking in bookings {
        let Booking {
            kind,
            id,
            units,
            price,
        } = *booking;
        let word = name_of(kind);
        write!(text, " {word} {id} {units} {price}")?;
    }
    Ok(())
}

fn print_waits(text: &mut String, waits: &[Wait]) -> Result<(), AllocError>
    ensures { OnOk result (string_bytes text.new ≡ string_bytes text.old ++ flat_map wait_text waits.now) }
{
    for wait in waits {
        let Wait {
            kind,
            id,
            units,
            ticket,
        } = *wait;
        let word = name_of(kind);
        write!(text, " wait {word} {id} {units} {ticket}")?;
    }
    Ok(())
}

fn print_queue(text: &mut String, kind: Kind, tables: &Tables) -> Result<(), AllocError>
    ensures { OnOk result (string_bytes text.new ≡ string_bytes text.old ++ queue_text kind tables.now) }
{
    let tickets = &tables.waiting(kind).tickets;
    if tickets.len() == 0 {
        return Ok(());
    }
    let word = name_of(kind);
    write!(text, "waiting {word}:")?;
    let (front, back) = tickets.as_slices();
    print_numbers(text, front)?;
    print_numbers(text, back)?;
    text.push('\n')?;
    Ok(())
}

fn print_numbers(text: &mut String, numbers: &[u64]) -> Result<(), AllocError>
    ensures { OnOk result (string_bytes text.new ≡ string_bytes text.old ++ flat_map number_text numbers.now) }
{
    for number in numbers {
        write!(text, " {number}")?;
    }
    Ok(())
}

fn name_of(kind: Kind) -> &'static str
    ensures { result.now ≡ kind_token kind }
{
    match kind {
        Kind::Car => "car",
        Kind::Flight => "flight",
        Kind::Room => "room",
    }
}
