//! Requests of a transaction that is left open at its seat from one to the next.
ghost use Rattle.std.specs.Prelude.{◌≡◌, IfErr, IfOk};
ghost use Rattle.shared_table.specs.Seated.{opening_of};
ghost use Rattle.actor_laws.specs.KnownStages.{Rests};
ghost use Rattle.tx_engine.specs.Borrowed.{IsAborted};
ghost use Rattle.tx_engine.specs.Ready.{HasBegunSince, HasCalled, HasFinished, IsReady, standing};

use seq_model::{Op, Record, Refusal, Reply, Value};
use shared_table::TxTable;
use tx_engine::{TxSeat, begin_read, resume};

/// A begin, of a declared reader or not. It gives the number at which the transaction has begun.
pub fn begin<V: Value>(
    table: &TxTable<V>,
    seat: &mut TxSeat<V>,
    declared: bool,
) -> Result<u64, Refusal>
    requires ready { IsReady table.now seat.old }
    ensures ready { IsReady table.now seat.new }
    ensures since { IfOk result (λ _. HasBegunSince table.now seat.new) }
    ensures rests { IfErr result (λ _. standing (opening_of table.now) seat.new.seat ≡ Rests) }
{
    if declared {
        match begin_read(seat, table) {
            Ok(tx) => Ok(tx.began_at()),
            Err(refusal) => Err(refusal),
        }
    } else {
        match tx_engine::begin(seat, table) {
            Ok(tx) => Ok(tx.began_at()),
            Err(refusal) => Err(refusal),
        }
    }
}

/// A call.
pub fn call<V: Value>(
    table: &TxTable<V>,
    seat: &mut TxSeat<V>,
    target: u32,
    op: Op<V>,
) -> Result<Reply<V>, Refusal>
    requires ready { IsReady table.now seat.old }
    requires since { HasBegunSince table.now seat.old }
    ensures called { HasCalled table.now seat.old seat.new (record { target = target; op = op }) result }
{
    resume(seat, table).call(op, target)
}

/// A commit.
pub fn commit<V: Value>(table: &TxTable<V>, seat: &mut TxSeat<V>) -> Result<Record<V>, Refusal>
    requires ready { IsReady table.now seat.old }
    requires since { HasBegunSince table.now seat.old }
    ensures finished { HasFinished table.now seat.old seat.new result }
{
    resume(seat, table).commit()
}

/// An abort.
pub fn abort<V: Value>(table: &TxTable<V>, seat: &mut TxSeat<V>)
    requires ready { IsReady table.now seat.old }
    ensures { IsAborted table.now seat.old seat.new }
{
    resume(seat, table).abort();
}
