//! Rows of records: audits on one word that is 0 at first, and records in commit order.
use row_parts::{location_in, number_in, print_all, split};
use seq_model::{AuditFault, Call, Items, Op, Record, Refusal, Reply, State, audit, insert_record};
use std::alloc::{AllocError, Global};
use std::fmt::Write;

fn call_in(row: &str) -> Result<(Call<u64>, Reply<u64>), Refusal> {
    let (target, made) = split(row, " ")?;
    let (made, number) = split(made, " ")?;
    let (target, number) = (location_in(target)?, number_in(number)?);
    match made {
        "wrote" => {
            let op = Op::Write(number);
            Ok((Call { target, op }, Reply::Done))
        }
        "found" => {
            let op = Op::Read;
            Ok((Call { target, op }, Reply::Number(number)))
        }
        _ => Err(Refusal::NoSuch),
    }
}

// `NUMBER KIND`, and the calls after a comma each.
fn record_in(alloc: Global, row: &str) -> Result<Record<u64>, Refusal> {
    let (head, made) = row.split_once(", ").unwrap_or((row, ""));
    let (number, kind) = split(head, " ")?;
    let number = number_in(number)?;
    let writes = match kind {
        "writer" => true,
        "reader" => false,
        _ => return Err(Refusal::NoSuch),
    };
    let mut calls = Items::new(alloc);
    if !made.is_empty() {
        for call in made.split(", ") {
            calls.push(call_in(call)?)?;
        }
    }
    Ok(Record {
        number,
        writes,
        calls,
    })
}

fn records_in(alloc: Global, rows: &str) -> Result<Vec<Record<u64>>, Refusal> {
    let mut records = Vec::new(alloc);
    for row in rows.split("; ") {
        records.push(record_in(alloc, row)?)?;
    }
    Ok(records)
}

fn word_of(alloc: Global, word: u64) -> Result<State<u64>, Refusal> {
    let words = vec![in alloc; word]?;
    State::new(words, Vec::new(alloc))
}

/// `LAST: RECORDS`: what an audit answers that leaves the word at the last value.
pub fn answer_audit(text: &mut String, row: &str) -> Result<(), Refusal> {
    let alloc = *text.allocator();
    let (last, records) = split(row, ": ")?;
    let records = records_in(alloc, records)?;
    let last = word_of(alloc, number_in(last)?)?;
    let opening = word_of(alloc, 0)?;
    match audit(alloc, &opening, records.as_slice(), &last) {
        Ok(()) => Ok(text.push_str("no fault")?),
        Err(AuditFault::Memory) => Err(Refusal::Memory),
        Err(fault) => Ok(print_fault(text, fault)?),
    }
}

fn print_fault(text: &mut String, fault: AuditFault) -> Result<(), AllocError> {
    write!(text, "{fault}, ")?;
    match fault {
        AuditFault::DoubleNumber(number) => print_all(text, "DoubleNumber", &[number]),
        AuditFault::WrongReply { entry, call } => print_all(text, "WrongReply", &[entry, call]),
        AuditFault::WrongState => text.push_str("WrongState"),
        AuditFault::Memory => Ok(()),
    }
}

type Placed = Vec<(u32, Record<u64>)>;

fn in_order(alloc: Global, first: &str, second: &str) -> Result<Placed, Refusal> {
    let mut records = Vec::new(alloc);
    insert_record(&mut records, 1, record_in(alloc, first)?)?;
    let second = record_in(alloc, second)?;
    insert_record(&mut records, 2, second.try_copy(alloc)?)?;
    Ok(records)
}

/// `RECORD; RECORD`: the record of actor 1 and a copy of that of actor 2, in commit order.
pub fn answer_records(text: &mut String, row: &str) -> Result<(), Refusal> {
    let (first, second) = split(row, "; ")?;
    let records = in_order(*text.allocator(), first, second)?;
    text.push_str("in order")?;
    for (actor, record) in records.as_slice() {
        let number = record.number;
        let kind = if record.writes { "writer" } else { "reader" };
        let calls = record.calls.len();
        write!(text, "; {actor}: {number} {kind}, calls {calls}")?;
    }
    Ok(())
}
