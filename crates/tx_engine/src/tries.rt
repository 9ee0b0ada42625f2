//! Attempts of a job, up to a receipt.
ghost use Rattle.std.specs.Prelude.{◌≡◌, ◌≤◌, ◌↔◌, IfErr, IfOk, IsTrue};
ghost use Rattle.shared_table.specs.Seated.{opening_of};
ghost use Rattle.actor_laws.specs.KnownStages.{Rests};
ghost use Rattle.tx_engine.specs.Ready.{IsReady, standing};
ghost use Rattle.tx_engine.specs.Retries.{HasReceipt, HasNoReceipt, IsTransient};

use crate::attempts::{Attempt, attempt_with};
use crate::pause::Pause;
use crate::priority::{Priority, Waiting};
use crate::seats::TxSeat;
use seq_model::{Job, LastAbort, Record, Refusal, Value};
use shared_table::TxTable;
use std::hint::spin_loop;
use std::thread::yield_now;

/// After so many attempts a worker yields where it spun before.
const SPINS: u64 = 10;

/// Between two attempts a worker yields at most so often.
const YIELDS: u64 = 64;

/// Whether others stood in the way, so that another attempt may end otherwise.
fn is_transient(refusal: Refusal) -> bool
    ensures { IsTrue result ↔ IsTransient refusal }
{
    matches!(
        refusal,
        Refusal::Moved { .. }
            | Refusal::Busy { .. }
            | Refusal::Stale { .. }
            | Refusal::GateBusy { .. }
            | Refusal::Invalid { .. }
    )
}

/// Waits after so many attempts, longer after each up to a limit.
fn wait(attempts: u64) {
    if attempts < SPINS {
        for _ in 0..attempts * attempts {
            spin_loop();
        }
    } else {
        for _ in 0..(attempts - SPINS + 1).min(YIELDS) {
            yield_now();
        }
    }
}

/// The attempts of a job, see `retry`, with its priority among the jobs of other workers.
pub(crate) fn retry_in<V: Value, J: Job<V>, P: Pause>(
    table: &TxTable<V>,
    seat: &mut TxSeat<V>,
    job: &J,
    tries: u64,
    worker: u64,
    pause: &P,
    priority: &Priority,
    waiting: &mut Waiting,
) -> Result<Record<V>, LastAbort>
    requires some { 1 ≤ tries }
    requires ready { IsReady table.now seat.old }
    ensures ready { IsReady table.now seat.new }
    ensures rests { standing (opening_of table.now) seat.new.seat ≡ Rests }
    ensures receipt { IfOk result (HasReceipt (J.asks job.now) table.now tries seat.old.seat seat.new.seat) }
    ensures none { IfErr result (HasNoReceipt (J.asks job.now) table.now tries seat.old.seat seat.new.seat) }
{
    let mut last = LastAbort::GivenUp;
    'tries: for i in 0..tries {
        wait(i);
        priority.wait(waiting, i);
        match attempt_with(table, seat, job, worker, pause) {
            Ok(Attempt::Committed(receipt)) => {
                pause.after_receipt(worker, receipt.number);
                return Ok(receipt);
            }
            Ok(Attempt::GivenUp) => return Err(LastAbort::GivenUp),
            Err(refusal) => {
                pause.after_refusal(worker, refusal);
                last = LastAbort::Refused(refusal);
                if !is_transient(refusal) {
                    return Err(last);
                }
            }
        }
    }
    Err(last)
}

/// At most so many attempts of a job, until one has a receipt. The seat gains that one, and no other, and its number is the last one of the
/// seat from then on.
///
/// `Refused` as the last attempt was: after an attempt that others stood in the way of comes the next, any other refusal is the last.
/// `GivenUp` where the job aborted its transaction; never `NotStarted`. The seat gains no receipt then. In the end it has no transaction.
pub fn retry<V: Value, J: Job<V>, P: Pause>(
    table: &TxTable<V>,
    seat: &mut TxSeat<V>,
    job: &J,
    tries: u64,
    worker: u64,
    pause: &P,
) -> Result<Record<V>, LastAbort>
    requires some { 1 ≤ tries }
    requires ready { IsReady table.now seat.old }
    ensures ready { IsReady table.now seat.new }
    ensures rests { standing (opening_of table.now) seat.new.seat ≡ Rests }
    ensures receipt { IfOk result (HasReceipt (J.asks job.now) table.now tries seat.old.seat seat.new.seat) }
    ensures none { IfErr result (HasNoReceipt (J.asks job.now) table.now tries seat.old.seat seat.new.seat) }
{
    let priority = Priority::new();
    let mut waiting = Waiting::of(worker);
    retry_in(
        table,
        seat,
        job,
        tries,
        worker,
        pause,
        &priority,
        &mut waiting,
    )
}
