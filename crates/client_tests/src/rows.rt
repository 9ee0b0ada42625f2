//! The rows, and the answer to each.
use crate::contents::print_closed;
use crate::handles::{All, all_of, open};
use crate::layouts::opens;
use crate::numbers::{Brittle, Number};
use crate::refusals::{print_explained, print_failures};
use crate::scripts::{Script, print_ran, run_at_store};
use crate::sessions::{answer_clients, print_learnt, print_tally};
use crate::steps::{first_word, number_of};
use crate::values::print_given;
use crate::{examples, lent};
use std::alloc::{AllocError, Global};
use std::fmt::Write;
use std::thread::Threads;
use wolimevar::{Refusal, Store, Tally};

/// Prints each row with its answer, and in the end how many there were. The rows stand in parts, between which a line is empty; a row that
/// begins with `#` is none.
///
/// A part on a store begins with a row that opens it: `store N`, of maps of numbers, or `brittle N`, whose map holds values that can't all
/// be copied, N being the store's number. At the end of the part the store is closed, and what it held is printed.
///
/// - `do STEPS`, `look STEPS` and `once STEPS` run a transaction, `once` with no attempt asked for. STEPS, between which stands `; `, are
///   calls: a handle (`map`, `bag`, `least`, `queue`, `full_bag`, `full_least`, `wide_map`, `wide_bag`, `lanes`, or a word, `a`, `b` or
///   `c`; with `other.` before it that of another store, with `beyond.` one beyond the layout, with `reversed.` one of another kind), what
///   is done, and numbers. After ` ?` what refuses a call ends the body. `until refused CALL` is taken as often as it is answered, and
///   `abort N` aborts.
/// - `clients N PART / PART` has so many sessions do these parts, see [`crate::sessions`].
/// - `learn N` learns a number, and `tally` counts how the store's attempts ended.
///
/// The parts `lent` and `examples` are one test each, see [`crate::lent`] and [`crate::examples`]. Elsewhere stand `layout KIND N`,
/// `value TYPE`, `tally` of no attempts, `failures`, and `explain`.
pub fn answer_all<R: Threads + Sync>(
    rt: &R,
    alloc: Global,
    text: &mut String,
    rows: &str,
) -> Result<(), AllocError> {
    for part in rows.split("\n\n") {
        let (first, rest) = part.split_once('\n').unwrap_or((part, ""));
        match answer_part(rt, alloc, text, first, rest) {
            Ok(()) => {}
            Err(Refusal::Memory) => return Err(AllocError),
            Err(refusal) => writeln!(text, "failed: {refusal}")?,
        }
    }
    writeln!(text, "rows {}", count_of(rows))
}

fn is_row(row: &str) -> bool {
    !matches!(row.as_bytes(), [] | [b'#', ..])
}

fn count_of(rows: &str) -> u64 {
    let mut count = 0u64;
    for row in rows.lines() {
        if is_row(row) {
            count = count.saturating_add(1);
        }
    }
    count
}

fn answer_part<R: Threads + Sync>(
    rt: &R,
    alloc: Global,
    text: &mut String,
    first: &str,
    rows: &str,
) -> Result<(), Refusal> {
    writeln!(text, "{first}")?;
    let (kind, number) = first_word(first);
    match kind {
        "store" => answer_at::<R, u64>(rt, alloc, text, number_of(number), rows),
        "brittle" => answer_at::<R, Brittle>(rt, alloc, text, number_of(number), rows),
        "lent" => lent::test::<R, u64>(rt, alloc, text),
        "examples" => examples::test(rt, alloc, text),
        _ => answer_rows_alone(alloc, text, rows),
    }
}

/// The rows of a part on a store of this number.
fn answer_at<R: Threads + Sync, V: Number + Send + Sync>(
    rt: &R,
    alloc: Global,
    text: &mut String,
    number: u64,
    rows: &str,
) -> Result<(), Refusal> {
    let number = u32::try_from(number).unwrap_or(0);
    let all: All<V> = all_of(alloc, number)?;
    let mut store = open(alloc, number)?;
    let answered = answer_rows(rt, text, &mut store, &all, rows);
    let closed = print_closed(text, store.close(), &all);
    answered?;
    Ok(closed?)
}

fn answer_rows<R: Threads + Sync, V: Number + Send + Sync>(
    rt: &R,
    text: &mut String,
    store: &mut Store<V>,
    all: &All<V>,
    rows: &str,
) -> Result<(), AllocError> {
    for row in rows.lines() {
        if is_row(row) {
            write!(text, "{row} = ")?;
            answer(rt, text, store, all, row)?;
            text.push('\n')?;
        }
    }
    Ok(())
}

fn answer<R: Threads + Sync, V: Number + Send + Sync>(
    rt: &R,
    text: &mut String,
    store: &mut Store<V>,
    all: &All<V>,
    row: &str,
) -> Result<(), AllocError> {
    let (verb, steps) = first_word(row);
    match verb {
        "clients" => answer_clients(rt, text, store, all, steps),
        "learn" => {
            let learnt = store.learn(number_of(steps));
            print_learnt(text, learnt, store.last_number())
        }
        "tally" => print_tally(text, store.tally()),
        _ => print_ran(text, &run_at_store(store, verb, &Script { all, steps })),
    }
}

fn answer_rows_alone(alloc: Global, text: &mut String, rows: &str) -> Result<(), Refusal> {
    for row in rows.lines() {
        if is_row(row) {
            answer_alone(alloc, text, row)?;
        }
    }
    Ok(())
}

fn answer_alone(alloc: Global, text: &mut String, row: &str) -> Result<(), Refusal> {
    if row == "explain" {
        return Ok(print_explained(text)?);
    }
    write!(text, "{row} = ")?;
    let (verb, asked) = first_word(row);
    match verb {
        "layout" => print_opened(text, opens(alloc, asked))?,
        "value" => print_given(text, asked)?,
        "tally" => print_tally(text, Tally::new())?,
        _ => print_failures(text)?,
    }
    Ok(text.push('\n')?)
}

fn print_opened(text: &mut String, opened: Result<(), Refusal>) -> Result<(), AllocError> {
    match opened {
        Ok(()) => text.push_str("opens"),
        Err(refusal) => write!(text, "{refusal}"),
    }
}
