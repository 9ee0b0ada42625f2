//! Requests at a seat.
ghost use Rattle.table_tests.specs.Fit.{IsFit};

use crate::shared::{Answer, Listed, Meeting, Told, job_of};
use crate::{resumed, shown};
use row_parts::script_of;
use seq_model::{Refusal, Request};
use shared_table::TxTable;
use std::alloc::Global;
use text_formats::{EventLine, number};
use tx_engine::{Attempt, Pause, TxSeat, attempt_with, learn};

/// The request that this row spells.
pub fn ask_row<V: Told>(
    alloc: Global,
    table: &TxTable<V>,
    seat: &mut TxSeat<V>,
    row: &str,
) -> Result<Answer<V>, Refusal>
    requires fit { IsFit table.now seat.old }
    ensures fit { IsFit table.now seat.new }
{
    let script = script_of(alloc, row)?;
    match script.lines.as_slice().first() {
        Some(EventLine::Do(_, request)) => ask(table, seat, request),
        _ => Err(Refusal::NoSuch),
    }
}

fn ask<V: Told>(
    table: &TxTable<V>,
    seat: &mut TxSeat<V>,
    request: &Request<u64>,
) -> Result<Answer<V>, Refusal>
    requires fit { IsFit table.now seat.old }
    ensures fit { IsFit table.now seat.new }
{
    match request {
        Request::Begin => begin_as(table, seat, false),
        Request::BeginRead => begin_as(table, seat, true),
        Request::Call(call) => {
            let call = V::call_of(call)?;
            Ok(Answer::Replied(shown::call(table, seat, call)?))
        }
        Request::Commit => Ok(Answer::Committed(shown::commit(table, seat)?)),
        Request::Abort => {
            shown::abort(table, seat);
            Ok(Answer::Said("aborted"))
        }
    }
}

/// A transaction begins, a declared reader or not, and is left open.
#[tactic(auto, using(crate::proofs::FitLemmas::rests_fit))]
pub fn begin_as<V: Told>(
    table: &TxTable<V>,
    seat: &mut TxSeat<V>,
    declared: bool,
) -> Result<Answer<V>, Refusal>
    requires fit { IsFit table.now seat.old }
    ensures fit { IsFit table.now seat.new }
{
    match resumed::begin(table, seat, declared) {
        Ok(number) => Ok(Answer::Begun(number)),
        Err(refusal) => Err(refusal),
    }
}

/// A number that the seat learns. What was open there is aborted.
#[tactic(auto, using(crate::proofs::FitLemmas::rests_fit))]
pub fn learn_number<V: Told>(
    table: &TxTable<V>,
    seat: &mut TxSeat<V>,
    digits: &str,
) -> Result<Answer<V>, Refusal>
    requires fit { IsFit table.now seat.old }
    ensures fit { IsFit table.now seat.new }
{
    let Some(told) = number(digits) else {
        return Err(Refusal::NoSuch);
    };
    let learnt = learn(table, seat, told);
    resumed::abort(table, seat);
    learnt?;
    Ok(Answer::Said("learnt"))
}

/// An attempt of the job that these words spell, by a worker that is held before its commit if they say so. The meeting is notified of
/// its receipt.
pub fn attempt_words<V: Told>(
    alloc: Global,
    table: &TxTable<V>,
    seat: &mut TxSeat<V>,
    worker: u64,
    meeting: &Meeting,
    words: &str,
) -> Result<Answer<V>, Refusal>
    requires fit { IsFit table.now seat.old }
    ensures fit { IsFit table.now seat.new }
{
    let job = job_of(alloc, words)?;
    let is_held = words.starts_with("meets ");
    match attempt(table, seat, &job, worker, meeting, is_held) {
        Ok(Attempt::Committed(receipt)) => {
            meeting.after_receipt(worker, receipt.number);
            Ok(Answer::Committed(receipt))
        }
        Ok(Attempt::GivenUp) => Ok(Answer::Said("given up")),
        Err(refusal) => Err(refusal),
    }
}

#[tactic(auto, using(crate::proofs::FitLemmas::rests_fit))]
fn attempt<V: Told>(
    table: &TxTable<V>,
    seat: &mut TxSeat<V>,
    job: &Listed,
    worker: u64,
    meeting: &Meeting,
    is_held: bool,
) -> Result<Attempt<V>, Refusal>
    requires fit { IsFit table.now seat.old }
    ensures fit { IsFit table.now seat.new }
{
    if is_held {
        attempt_with(table, seat, job, worker, meeting)
    } else {
        tx_engine::attempt(table, seat, job)
    }
}

/// The calls of these lines are made so often, up to the first that is refused.
pub fn make_often<V: Told>(
    alloc: Global,
    table: &TxTable<V>,
    seat: &mut TxSeat<V>,
    lines: &str,
    times: u64,
) -> Result<(), Refusal>
    requires fit { IsFit table.now seat.old }
    ensures fit { IsFit table.now seat.new }
{
    let script = script_of(alloc, lines)?;
    'times: for _ in 0..times {
        make_each(table, seat, script.lines.as_slice())?;
    }
    Ok(())
}

fn make_each<V: Told>(
    table: &TxTable<V>,
    seat: &mut TxSeat<V>,
    lines: &[EventLine],
) -> Result<(), Refusal>
    requires fit { IsFit table.now seat.old }
    ensures fit { IsFit table.now seat.new }
{
    'calls: for line in lines {
        match line {
            EventLine::Do(_, Request::Call(call)) => {
                let call = V::call_of(call)?;
                drop(shown::call(table, seat, call)?);
            }
            _ => return Err(Refusal::NoSuch),
        }
    }
    Ok(())
}
