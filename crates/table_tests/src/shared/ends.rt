//! How a table ends.
ghost use Rattle.std.specs.Prelude.{All, IfOk};
ghost use Rattle.seq_model.specs.Calls.{IsWithinLimits};
ghost use Rattle.shared_table.specs.Ends.{held_in};
ghost use Rattle.tx_engine.specs.Ready.{IsReady};

use super::answers::Answer;
use super::pages::Page;
use super::told::Told;
use row_parts::script_of;
use seq_model::{AuditFault, Items, Memory, Record, Refusal, Request, State, Value, audit};
use shared_table::{Closed, TxTable};
use std::alloc::Global;
use text_formats::EventLine;
use tx_engine::TxSeat;

/// How many shares a seat has into which all were joined.
const ALL_SHARES: u64 = 64;

/// The seat closes the table. `NoSuch` where the seat has not all shares.
pub fn close<V: Value>(table: TxTable<V>, seat: TxSeat<V>) -> Result<Closed<V>, Refusal>
    requires ready { IsReady table seat }
    ensures within { IfOk result (λ closed. All IsWithinLimits (held_in closed)) }
{
    if seat.shares() != ALL_SHARES {
        return Err(Refusal::NoSuch);
    }
    Ok(seat.close(table)?)
}

/// What the receipts leave, one after another, is what is there at last; else `NotIdle`.
pub fn audit_receipts<V: Value>(
    alloc: Global,
    opening: &State<V>,
    receipts: &[Record<V>],
    last: &State<V>,
) -> Result<(), Refusal> {
    match audit(alloc, opening, receipts, last) {
        Ok(()) => Ok(()),
        Err(AuditFault::Memory) => Err(Refusal::Memory),
        Err(_) => Err(Refusal::NotIdle),
    }
}

/// The receipts of all workers join these.
pub fn keep_all<V: Value>(
    receipts: &mut Vec<Record<V>>,
    lists: Items<Items<Record<V>>>,
) -> Result<(), Memory> {
    for list in lists.into_vec() {
        receipts.append(&mut list.into_vec())?;
    }
    Ok(())
}

/// Answers each row `closed 1 do CALL` on the state that a closed table held.
pub fn print_closed<V: Told>(page: &mut Page<V>, last: &mut State<V>, rows: &str) {
    for row in rows.lines() {
        if let Some(call) = row.strip_prefix("closed ") {
            page.begin_row(row);
            let answered = answer_call(page.alloc(), last, call);
            page.hear(answered);
            page.end_row();
        }
    }
}

fn answer_call<V: Told>(
    alloc: Global,
    last: &mut State<V>,
    call: &str,
) -> Result<Answer<V>, Refusal> {
    let script = script_of(alloc, call)?;
    match script.lines.as_slice().first() {
        Some(EventLine::Do(_, Request::Call(call))) => {
            Ok(Answer::Replied(last.apply(&V::call_of(call)?)?))
        }
        _ => Err(Refusal::NoSuch),
    }
}
