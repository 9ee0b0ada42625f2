//! Transactions that borrow their seat, at any type of values.
ghost use Rattle.std.specs.Prelude.{◌≡◌};
ghost use Rattle.tx_engine.specs.Ready.{HasBegunSince, IsReady};

use seq_model::{Call, Record, Refusal, Value};
use shared_table::TxTable;
use tx_engine::{Tx, TxSeat, begin};

/// Makes these calls in one transaction, and commits. A call that runs out of memory has aborted it, so there is nothing to commit then.
pub fn commit_calls<V: Value>(
    table: &TxTable<V>,
    seat: &mut TxSeat<V>,
    calls: [Call<V>; 4],
) -> Result<Record<V>, Refusal>
    requires ready { IsReady table.now seat.old }
    ensures ready { IsReady table.now seat.new }
{
    match begin(seat, table) {
        Ok(mut tx) => {
            let called = call_each(&mut tx, calls);
            let committed = tx.commit();
            match called {
                Ok(()) => committed,
                Err(refusal) => Err(refusal),
            }
        }
        Err(refusal) => Err(refusal),
    }
}

fn call_each<V: Value>(tx: &mut Tx<'_, V>, calls: [Call<V>; 4]) -> Result<(), Refusal>
    requires ready { IsReady tx.old.table.now tx.old.seat.now }
    requires since { HasBegunSince tx.old.table.now tx.old.seat.now }
    ensures same_reference { tx.new.seat.ghost_name ≡ tx.old.seat.ghost_name }
    ensures same_table { tx.new.table.now ≡ tx.old.table.now }
    ensures ready { IsReady tx.new.table.now tx.new.seat.now }
    ensures since { HasBegunSince tx.new.table.now tx.new.seat.now }
{
    let [first, second, third, fourth] = calls;
    call(tx, first)?;
    call(tx, second)?;
    call(tx, third)?;
    call(tx, fourth)
}

fn call<V: Value>(tx: &mut Tx<'_, V>, asked: Call<V>) -> Result<(), Refusal>
    requires ready { IsReady tx.old.table.now tx.old.seat.now }
    requires since { HasBegunSince tx.old.table.now tx.old.seat.now }
    ensures same_reference { tx.new.seat.ghost_name ≡ tx.old.seat.ghost_name }
    ensures same_table { tx.new.table.now ≡ tx.old.table.now }
    ensures ready { IsReady tx.new.table.now tx.new.seat.now }
    ensures since { HasBegunSince tx.new.table.now tx.new.seat.now }
{
    let Call { target, op } = asked;
    let _ = tx.call(op, target)?;
    Ok(())
}
