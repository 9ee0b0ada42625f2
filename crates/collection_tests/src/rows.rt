//! The rows, and who answers each.
use crate::alone::{answer_new, answer_of_kind, answer_raised, answer_two_puts};
use crate::audits::{answer_audit, answer_records};
use crate::bench::Bench;
use crate::changes::print_locations;
use crate::models::{answer_event, answer_refusal, answer_same, answer_state};
use crate::parts::{answer_below, answer_editions, answer_hash_map, answer_meet, set_in};
use crate::sets::{answer_lock, call_all};
use crate::words::{answer_on, tell, words_of};
use row_parts::{script_of, split, tell_refusal};
use seq_model::{Memory, Refusal};
use std::alloc::{AllocError, Global};
use std::fmt::Write;
use step_core::Words;
use text_formats::number;
use tx_sets::{ReadSet, WriteSet};

// What was opened last. Rows that open nothing may speak of it.
#[derive(Drop)]
enum Opened {
    Nothing,
    Collection(Bench),
    Words(Words),
}

/// The rows, each with its answer. How many have one is said at the end. An empty row and one that begins with `#` have none. What is
/// refused is answered by the refusal. A call, and what opens a collection, are lines of a step script, of which several stand in one row
/// with `; ` between; the script's clock is the index of a queue's first item.
///
/// Rows that stand by themselves:
/// - `as KIND COLLECTION` opens as a base of one kind what a script's header says.
/// - `new KIND STRIPES` opens an empty base: the editions of its locations. `raised KIND STRIPES at LOCATIONS: CHANGES` replays
///   changes that write these locations: the editions, those of a copy, and what the copy holds.
/// - `two puts logged`: the editions after two puts, each logged with the same location; `two puts touched`: what is copied then for
///   two keys and for the number of all.
/// - `state SCRIPT`: what calls are answered on a state of the sequential model, and what they leave. `same SCRIPT | SCRIPT`:
///   whether a copy of what the first leaves is the same as what the second does. `event LINE`: a copy of what the line asks.
/// - `audit LAST: RECORDS`: the fault of records on one word that is 0 at first. A record is `2 writer, 0 wrote 6, 0 found 6`.
///   `records RECORD; RECORD`: the first record, of actor 1, and a copy of the second, of actor 2, in commit order.
/// - `refusal moved 3 8`: what a refusal prints, one of words where a table of words was opened last.
/// - `set LOCATIONS`, `below COUNT has LOCATIONS`, `meet reads 0, writes; reads 0 2, writes 0 2`: sets of locations, and whether
///   two calls conflict with these. `editions COUNT raised LOCATIONS`: a copy of editions, of which none, one or two are raised.
/// - `table STEPS`: the hash map, on which `put KEY VALUE`, `remove KEY` and `get KEY` are made, and one of a copy's entries.
/// - `lock free 4`, `lock locked 4`: the number of a lock word of this version. `lock read 9`: the lock word of a number;
///   `lock usable 9 4`: whether that is usable at this reading of the clock.
/// - `reads CALLS` and `writes CALLS` make calls, with `; ` between, on a read set and on a write set of their own: `reserve COUNT`,
///   `put LOCATION VALUE`, `put_first COUNT VALUE`, which puts it at each of the first so many locations, `find LOCATION`, `len`
///   and `all`.
///
/// `clock 5; queue 2 8` opens a collection, which takes the place of what was opened before. Of a collection speak:
/// - `1 call 0 peek` is looked at: its reply, what it reads and writes, and its changes. `1 do call 0 dequeue` is made, too, on
///   the collection and on the sequential model, which is to reply the same.
/// - `holds`, `model`: what the collection holds, and what the model does.
/// - `beside CALLS | CALLS` makes the first calls on a copy, then the others on the collection, and shows what either holds.
/// - `copied CALLS` makes the calls on a copy; `shadowed CALLS` on the shadow of a copy, which then shows its log; `remembered CALLS`
///   on a memo in two stripes, likewise.
/// - `replay CHANGES` replays changes, which raise no edition; `reopened STRIPES` opens a copy anew.
/// - `conflict CALLS`: whether the outcomes of two calls conflict here.
///
/// `table 3 1 5*0` opens a table of words, which takes the place likewise: its clock, and then its words, of which `5*0` are five. Of it
/// speak:
/// - `1 begin; write 0 5; lock` has an actor make moves, each of which is answered. `begin`, `begin_read`, `read LOCATION`,
///   `write LOCATION VALUE`, `lock`, `store`, `release`, `cancel`, `abort` and `close` are requests, which continue up to their
///   answers; after `ask` they are asked alone. `step` is one step, and `snapshot` the clock of the open transaction.
///   `read_first COUNT` reads the first so many locations, and `write_first COUNT VALUE` writes to each: the last answer, or the
///   first refusal.
/// - `value LOCATION`: the word. `left`: all words, and the records. `calls`: the calls of the records.
pub fn answer_all(alloc: Global, rows: &str) -> Result<String, Memory> {
    let mut text = String::new(alloc);
    let mut opened = Opened::Nothing;
    let answered = answer_each(&mut text, &mut opened, rows);
    drop(opened);
    answered?;
    Ok(text)
}

fn answer_each(text: &mut String, opened: &mut Opened, rows: &str) -> Result<(), AllocError> {
    let mut count = 0u64;
    for row in rows.lines() {
        text.push_str(row)?;
        if !matches!(row.as_bytes(), [] | [b'#', ..]) {
            count = count.saturating_add(1);
            text.push_str(" = ")?;
            let answered = answer_row(text, opened, row);
            tell_refusal(text, "", answered, "")?;
        }
        text.push('\n')?;
    }
    writeln!(text, "rows {count}")
}

fn answer_row(text: &mut String, opened: &mut Opened, row: &str) -> Result<(), Refusal> {
    let alloc = *text.allocator();
    let (verb, others) = row.split_once(' ').unwrap_or((row, ""));
    match verb {
        "as" => answer_of_kind(text, others),
        "new" => answer_new(text, others),
        "raised" => answer_raised(text, others),
        "two" => answer_two_puts(text, others),
        "state" => answer_state(text, others),
        "same" => answer_same(text, others),
        "event" => answer_event(text, others),
        "audit" => answer_audit(text, others),
        "records" => answer_records(text, others),
        "refusal" => answer_refusal(text, matches!(opened, Opened::Words(_)), others),
        "set" => Ok(print_locations(text, "holds", set_in(alloc, row)?)?),
        "below" => answer_below(text, others),
        "meet" => answer_meet(text, others),
        "editions" => answer_editions(text, others),
        "lock" => answer_lock(text, others),
        "reads" => call_all(text, &mut ReadSet::new(alloc), others),
        "writes" => call_all(text, &mut WriteSet::new(alloc), others),
        "table" => answer_table(text, opened, others),
        "clock" | "map" | "bag" | "pq" | "queue" => answer_opening(text, opened, row),
        _ => match opened {
            Opened::Collection(bench) => bench.answer(text, row),
            Opened::Words(words) => answer_on(text, words, verb, others),
            Opened::Nothing => Err(Refusal::NoSuch),
        },
    }
}

fn answer_opening(text: &mut String, opened: &mut Opened, row: &str) -> Result<(), Refusal> {
    let alloc = *text.allocator();
    let script = script_of(alloc, row)?;
    let bench = Bench::open(alloc, &script)?;
    open(text, opened, Opened::Collection(bench))
}

fn open(text: &mut String, opened: &mut Opened, new: Opened) -> Result<(), Refusal> {
    *opened = new;
    Ok(text.push_str("opened")?)
}

// A table of words begins with its clock.
fn answer_table(text: &mut String, opened: &mut Opened, row: &str) -> Result<(), Refusal> {
    let (clock, values) = split(row, " ")?;
    let Some(clock) = number(clock) else {
        return answer_hash_map(text, row);
    };
    let alloc = *text.allocator();
    match Words::new(alloc, clock, words_of(alloc, values)?) {
        Ok(words) => open(text, opened, Opened::Words(words)),
        Err(refusal) => tell(text, Err(refusal)),
    }
}
