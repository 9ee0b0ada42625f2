//! Lock words, and the read set and the write set.
use row_parts::{Call, call_of, location};
use seq_model::Refusal;
use std::fmt::Write;
use tx_sets::{AccessSet, SetRefusal};
use vlock_word::LockWord;

/// Answers a row on a lock word.
pub fn answer_lock(text: &mut String, row: &str) -> Result<(), Refusal> {
    let call = call_of(row)?;
    let version = u64::from(location(call.at)?);
    let told = match call.name {
        "free" => write!(text, "{}", LockWord::free(version).bits()),
        "locked" => write!(text, "{}", LockWord::locked(version).bits()),
        "read" => {
            let word = LockWord::read(version);
            write!(text, "{word:?}")
        }
        "usable" => {
            let usable = LockWord::read(version).usable(call.value);
            text.push_str(if usable { "yes" } else { "no" })
        }
        _ => return Err(Refusal::NoSuch),
    };
    Ok(told?)
}

/// Makes the calls on a set.
pub fn call_all<Role>(
    text: &mut String,
    set: &mut AccessSet<Role>,
    calls: &str,
) -> Result<(), Refusal> {
    let mut first = true;
    for call in calls.split("; ") {
        if !first {
            text.push_str(", ")?;
        }
        first = false;
        answer_call(text, set, call_of(call)?)?;
    }
    Ok(())
}

fn answer_call<Role>(
    text: &mut String,
    set: &mut AccessSet<Role>,
    call: Call<'_>,
) -> Result<(), Refusal> {
    let at = location(call.at)?;
    match call.name {
        "reserve" => tell(text, set.reserve(at as usize)),
        "put" => tell(text, set.put(at, call.value)),
        "put_first" => tell(text, put_first(set, at, call.value)),
        "find" => print_found(text, set.find(at), "none"),
        "len" => print_found(text, Some(set.len() as u64), "none"),
        "all" => print_entries(text, set.in_order()),
        _ => Err(Refusal::NoSuch),
    }
}

fn put_first<Role>(set: &mut AccessSet<Role>, count: u32, value: u64) -> Result<(), SetRefusal> {
    for at in 0..count {
        set.put(at, value)?;
    }
    Ok(())
}

fn tell(text: &mut String, answer: Result<(), SetRefusal>) -> Result<(), Refusal> {
    let told = match answer {
        Ok(()) => text.push_str("done"),
        Err(SetRefusal::Memory) => return Err(Refusal::Memory),
        Err(SetRefusal::TooLong) => text.push_str("TooLong"),
    };
    Ok(told?)
}

/// Prints a number, or the other text where there is none.
pub fn print_found(text: &mut String, found: Option<u64>, none: &str) -> Result<(), Refusal> {
    let printed = match found {
        Some(value) => write!(text, "{value}"),
        None => text.push_str(none),
    };
    Ok(printed?)
}

fn print_entries(text: &mut String, entries: &[(u32, u64)]) -> Result<(), Refusal> {
    for (at, value) in entries {
        write!(text, "{at}:{value} ")?;
    }
    Ok(text.push_str("in all")?)
}
