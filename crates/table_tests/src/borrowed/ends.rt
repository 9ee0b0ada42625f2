//! How a transaction that borrows its seat ends, at any type of values.
ghost use Rattle.tx_engine.specs.Ready.{HasBegunSince, IsReady};

use crate::shared::Answer;
use seq_model::{Refusal, Value};
use tx_engine::Tx;

/// How a transaction is to end.
#[derive(Clone, Copy)]
pub enum End {
    Commits,
    /// It is a declared reader, which commits.
    Reads,
    Aborts,
    /// It is dropped while it is open.
    Drops,
}

/// How a transaction ends by this verb.
pub fn end_of(verb: &str) -> Option<End> {
    match verb {
        "commits" => Some(End::Commits),
        "reads" => Some(End::Reads),
        "aborts" => Some(End::Aborts),
        "drops" => Some(End::Drops),
        _ => None,
    }
}

/// A transaction ends.
pub fn end_as<V: Value>(tx: Tx<'_, V>, end: End) -> Result<Answer<V>, Refusal>
    requires ready { IsReady tx.table.now tx.seat.now }
    requires since { HasBegunSince tx.table.now tx.seat.now }
    ensures ready { IsReady tx.entry.table.now tx.exit.1.0.now }
{
    match end {
        End::Commits | End::Reads => commit(tx),
        End::Aborts => abort(tx),
        End::Drops => Ok(Answer::Said("dropped")),
    }
}

fn commit<V: Value>(tx: Tx<'_, V>) -> Result<Answer<V>, Refusal>
    requires ready { IsReady tx.table.now tx.seat.now }
    requires since { HasBegunSince tx.table.now tx.seat.now }
    ensures ready { IsReady tx.entry.table.now tx.exit.1.0.now }
{
    match tx.commit() {
        Ok(receipt) => Ok(Answer::Committed(receipt)),
        Err(refusal) => Err(refusal),
    }
}

fn abort<V: Value>(tx: Tx<'_, V>) -> Result<Answer<V>, Refusal>
    requires ready { IsReady tx.table.now tx.seat.now }
    requires since { HasBegunSince tx.table.now tx.seat.now }
    ensures ready { IsReady tx.entry.table.now tx.exit.1.0.now }
{
    tx.abort();
    Ok(Answer::Said("aborted"))
}
