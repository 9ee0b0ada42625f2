//! Changes that a row spells, and outcomes as text.
use conflict::{Change, Changes, LocSet, Outcome};
use replay_log::{Base, Log};
use row_parts::{Call, call_of, print_all, print_reply};
use seq_model::{Memory, Refusal};
use std::alloc::{AllocError, Global};

fn change_of(call: Call<'_>) -> Result<Change<u64>, Refusal> {
    match call.name {
        "put" => Ok(Change::Put(call.at, call.value)),
        "remove" => Ok(Change::Remove(call.at)),
        "add" => Ok(Change::Add(call.at)),
        "take" => Ok(Change::Take(call.at)),
        "least" => Ok(Change::SetLeast(Some(call.at))),
        "enqueue" => Ok(Change::Enqueue(call.at, call.value)),
        "dequeue" => Ok(Change::Dequeue(call.at)),
        _ => Err(Refusal::NoSuch),
    }
}

/// The changes that the row spells, with `, ` between.
pub fn changes_of(alloc: Global, row: &str) -> Result<Changes<u64>, Refusal> {
    let mut changes = Vec::new(alloc);
    for spelled in row.split(", ") {
        changes.push(change_of(call_of(spelled)?)?)?;
    }
    Ok(changes)
}

/// Prints the reply, what the outcome reads and writes, and its changes.
pub fn print_outcome(
    text: &mut String,
    base: &Base<u64>,
    outcome: &Outcome<u64>,
) -> Result<(), Memory> {
    print_reply(text, &outcome.reply)?;
    print_locations(text, ", reads", base.reads(outcome)?)?;
    print_locations(text, ", writes", base.writes(outcome)?)?;
    let changes = base.changes(outcome)?;
    Ok(print_changes(text, changes.as_slice())?)
}

/// Prints a name, and these locations after it.
pub fn print_locations(text: &mut String, name: &str, set: LocSet) -> Result<(), AllocError> {
    print_all(text, name, set.as_slice())
}

/// Prints a log's changes.
pub fn print_log(text: &mut String, log: Log<u64>) -> Result<(), AllocError> {
    text.push_str("log")?;
    print_changes(text, log.changes())
}

// Each after a comma.
fn print_changes(text: &mut String, changes: &[Change<u64>]) -> Result<(), AllocError> {
    for change in changes {
        print_change(text, change)?;
    }
    Ok(())
}

fn print_change(text: &mut String, change: &Change<u64>) -> Result<(), AllocError> {
    match change {
        Change::Put(key, value) => print_all(text, ", Put", &[*key, *value]),
        Change::Remove(key) => print_all(text, ", Remove", &[*key]),
        Change::Add(element) => print_all(text, ", Add", &[*element]),
        Change::Take(element) => print_all(text, ", Take", &[*element]),
        Change::SetLeast(Some(least)) => print_all(text, ", SetLeast", &[*least]),
        Change::SetLeast(None) => text.push_str(", SetLeast none"),
        Change::Enqueue(index, item) => print_all(text, ", Enqueue", &[*index, *item]),
        Change::Dequeue(index) => print_all(text, ", Dequeue", &[*index]),
    }
}
