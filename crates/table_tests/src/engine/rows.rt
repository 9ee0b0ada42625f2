//! Rows at a seat.
ghost use Rattle.table_tests.specs.Fit.{IsFit};

use super::requests::{ask_row, attempt_words, begin_as, learn_number, make_often};
use crate::borrowed::calls::{Placed, Style};
use crate::borrowed::ends::{End, end_of};
use crate::borrowed::lists::calls_of;
use crate::borrowed::transacted::transact;
use crate::resumed;
use crate::shared::{Answer, Meeting, Page, Stand, Told};
use seq_model::Refusal;
use shared_table::TxTable;
use std::alloc::Global;
use text_formats::number;
use tx_engine::TxSeat;

/// Answers the row if it is one of this seat; unless an allocation failed before: then no other seat is to wait for this one.
pub fn answer_at<V: Told>(
    page: &mut Page<V>,
    table: &TxTable<V>,
    seat: &mut TxSeat<V>,
    stand: Stand,
    meeting: &Meeting,
    row: &str,
)
    requires fit { IsFit table.now seat.old }
    ensures fit { IsFit table.now seat.new }
{
    let (who, words) = row.split_once(' ').unwrap_or(("", row));
    if number(who) == Some(stand.worker) && !page.wants_memory() {
        meeting.wait_for_row(stand.above);
        page.begin_row(row);
        let answered = answer(page, table, seat, stand, meeting, row, words);
        page.hear(answered);
        page.end_row();
        meeting.end_row(stand.above);
    }
}

fn answer<V: Told>(
    page: &mut Page<V>,
    table: &TxTable<V>,
    seat: &mut TxSeat<V>,
    stand: Stand,
    meeting: &Meeting,
    row: &str,
    words: &str,
) -> Result<Answer<V>, Refusal>
    requires fit { IsFit table.now seat.old }
    ensures fit { IsFit table.now seat.new }
{
    let alloc = page.alloc();
    let (verb, others) = words.split_once(' ').unwrap_or((words, ""));
    match verb {
        "do" => ask_row(alloc, table, seat, row),
        "learn" => learn_number(table, seat, others),
        "meets" | "attempts" | "gives" => {
            attempt_words(alloc, table, seat, stand.worker, meeting, words)
        }
        "leaves" => leave(alloc, table, seat, others),
        "repeats" => repeat(alloc, table, seat, others),
        "last" => Ok(Answer::Number(seat.last_number())),
        "waits" => {
            meeting.wait_for_receipts();
            Ok(Answer::Said("waited"))
        }
        _ => borrow(page, table, seat, stand, meeting, words),
    }
}

// A transaction begins, makes these calls, and is left open.
fn leave<V: Told>(
    alloc: Global,
    table: &TxTable<V>,
    seat: &mut TxSeat<V>,
    calls: &str,
) -> Result<Answer<V>, Refusal>
    requires fit { IsFit table.now seat.old }
    ensures fit { IsFit table.now seat.new }
{
    begin_as(table, seat, false)?;
    make_often(alloc, table, seat, calls, 1)?;
    Ok(Answer::Said("left open"))
}

// `4095 1 do read 0`: how often, and the calls.
fn repeat<V: Told>(
    alloc: Global,
    table: &TxTable<V>,
    seat: &mut TxSeat<V>,
    words: &str,
) -> Result<Answer<V>, Refusal>
    requires fit { IsFit table.now seat.old }
    ensures fit { IsFit table.now seat.new }
{
    let (times, calls) = words.split_once(' ').unwrap_or(("", words));
    let Some(times) = number(times) else {
        return Err(Refusal::NoSuch);
    };
    make_often(alloc, table, seat, calls, times)?;
    Ok(Answer::Said("made"))
}

// How the calls of a transaction are made, how it ends, and its calls.
fn borrowed_of<V: Told>(
    alloc: Global,
    words: &str,
) -> Result<(Style, End, Vec<Placed<V>>), Refusal> {
    let (verb, others) = words.split_once(' ').unwrap_or((words, ""));
    let (style, words) = match verb {
        "typed" => (Style::Typed, others),
        "typed_map" => (Style::TypedMap, others),
        _ => (Style::Plain, words),
    };
    let (verb, calls) = words.split_once(' ').unwrap_or((words, ""));
    match end_of(verb) {
        Some(end) => Ok((style, end, calls_of(alloc, calls)?)),
        None => Err(Refusal::NoSuch),
    }
}

// A transaction that borrows the seat. None is left open.
#[tactic(auto, using(crate::proofs::FitLemmas::rests_fit))]
fn borrow<V: Told>(
    page: &mut Page<V>,
    table: &TxTable<V>,
    seat: &mut TxSeat<V>,
    stand: Stand,
    meeting: &Meeting,
    words: &str,
) -> Result<Answer<V>, Refusal>
    requires fit { IsFit table.now seat.old }
    ensures fit { IsFit table.now seat.new }
{
    let (style, end, calls) = borrowed_of(page.alloc(), words)?;
    let answered = transact(
        page,
        table,
        seat,
        stand,
        style,
        meeting,
        end,
        calls.as_slice(),
    );
    resumed::abort(table, seat);
    answered
}
