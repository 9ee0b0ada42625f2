//! A transaction at a seat of a shared table, one of whose copies is refused.
ghost use Rattle.tx_engine.specs.Ready.{IsReady};

use super::borrowers::commit_calls;
use super::rations::{Ration, Rationed, get};
use super::tables::Made;
use seq_model::{Record, Refusal};
use shared_table::TxTable;
use tx_engine::TxSeat;

/// The transaction is run with the copy at this position refused; whether one was. It is answered as `Memory` then, and else it
/// commits; the same seat commits the next one.
pub fn refuse(
    table: &TxTable<Rationed>,
    seat: &mut TxSeat<Rationed>,
    ration: &Ration,
    place: u64,
    receipts: &mut Vec<Record<Rationed>>,
) -> Made
    requires ready { IsReady table.now seat.old }
    ensures ready { IsReady table.now seat.new }
{
    ration.refuse(place);
    let first = commit_puts(table, seat, ration);
    let was_refused = ration.lift();
    keep(receipts, first, was_refused)?;
    receipts.push(commit_puts(table, seat, ration)?)?;
    Ok(was_refused)
}

// A refused copy is answered as `Memory`, and nothing else is.
fn keep(
    receipts: &mut Vec<Record<Rationed>>,
    committed: Result<Record<Rationed>, Refusal>,
    was_refused: bool,
) -> Result<(), Refusal> {
    match committed {
        Ok(receipt) => receipts.push(receipt)?,
        Err(Refusal::Memory) if was_refused => return Ok(()),
        Err(refusal) => return Err(refusal),
    }
    if was_refused {
        return Err(Refusal::NotIdle);
    }
    Ok(())
}

/// Puts a value at two keys and gets them, in a transaction that borrows the seat, and commits.
pub fn commit_puts(
    table: &TxTable<Rationed>,
    seat: &mut TxSeat<Rationed>,
    ration: &Ration,
) -> Result<Record<Rationed>, Refusal>
    requires ready { IsReady table.now seat.old }
    ensures ready { IsReady table.now seat.new }
{
    let calls = [ration.put(5)?, get(5), ration.put(6)?, get(6)];
    commit_calls(table, seat, calls)
}
