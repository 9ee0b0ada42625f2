//! Attempts of a job at one seat, up to a receipt.
ghost use Rattle.tx_engine.specs.Ready.{IsReady};

use crate::shared::{Answer, Page, Told, job_of};
use seq_model::Refusal;
use shared_table::{Kind, TxTable};
use std::alloc::Global;
use tx_engine::TxSeat;
use workers::{LastAbort, NoPause, retry};

/// So often a write is tried where other seats may stand in its way.
pub const AMONG_OTHERS: u64 = 1_000_000;

/// So often where none is at work: nothing may refuse it.
pub const ALONE: u64 = 1;

/// The jobs of these rows, one after another, each in up to so many attempts.
pub fn retry_rows<V: Told>(
    page: &mut Page<V>,
    tries: u64,
    table: &TxTable<V>,
    seat: &mut TxSeat<V>,
    rows: &str,
)
    requires ready { IsReady table.now seat.old }
    ensures ready { IsReady table.now seat.new }
{
    'rows: for row in rows.lines() {
        if let Some(words) = row.strip_prefix("1 ") {
            page.begin_row(row);
            let answered = retry_words(page.alloc(), tries, table, seat, words);
            page.hear(answered);
            page.end_row();
        }
    }
}

fn retry_words<V: Told>(
    alloc: Global,
    tries: u64,
    table: &TxTable<V>,
    seat: &mut TxSeat<V>,
    words: &str,
) -> Result<Answer<V>, Refusal>
    requires ready { IsReady table.now seat.old }
    ensures ready { IsReady table.now seat.new }
{
    if tries == 0 {
        return Err(Refusal::NoSuch);
    }
    let job = job_of(alloc, words)?;
    match retry(table, seat, &job, tries, 1, &NoPause) {
        Ok(receipt) => Ok(Answer::Committed(receipt)),
        Err(LastAbort::Refused(refusal)) => Err(refusal),
        Err(LastAbort::GivenUp) => Ok(Answer::Said("given up")),
        Err(LastAbort::NotStarted) => Ok(Answer::Said("not started")),
    }
}

/// Where an allocation failed, here or in a job that was to have no memory, the seat commits a write after it, in up to so many attempts;
/// but not at the limit of the clock.
pub fn commit_after<V: Told>(
    page: &mut Page<V>,
    table: &TxTable<V>,
    seat: &mut TxSeat<V>,
    tries: u64,
    is_refused: bool,
)
    requires ready { IsReady table.now seat.old }
    ensures ready { IsReady table.now seat.new }
{
    if is_refused || page.wants_memory() {
        page.begin_row("after");
        match retry_words(page.alloc(), tries, table, seat, write_of(table)) {
            Ok(answer) => page.hear(Ok(answer)),
            Err(Refusal::Exhausted { clock: _ }) => {}
            Err(refusal) => page.fail(refusal),
        }
        page.end_row();
    }
}

// A write on the first word, or else on the first collection, whatever its kind.
fn write_of<V: Told>(table: &TxTable<V>) -> &'static str {
    if table.words() > 0 {
        return "runs 1 do write 0 77";
    }
    match table.block(0) {
        Some(block) => match block.kind {
            Kind::Map => "runs 1 do call 0 put 5 77",
            Kind::Bag => "runs 1 do call 0 add 5",
            Kind::Pq => "runs 1 do call 0 insert 5",
            Kind::Queue => "runs 1 do call 0 enqueue 5",
        },
        None => "gives up",
    }
}
