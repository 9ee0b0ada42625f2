//! What handles call.
ghost use Rattle.std.specs.Prelude.{◌≡◌, ◌+◌, IfOk};
ghost use Rattle.tx_handles.specs.HandleCalls.{HasSummed};
ghost use Rattle.tx_handles.specs.Gates.{place_of};
ghost use Rattle.tx_handles.specs.MadeCall.{HasMade};

use crate::gates::Gates;
use crate::replies::number_in;
use seq_model::{Op, Refusal, Reply, Value};

/// A transaction, as handles call it.
///
/// Contracts see the number of its store, and the calls that it has made, each with its reply (`shown`).
pub trait MakesCalls<V> {
    ghost use Rattle.std.specs.Prelude.{IfOk};
    ghost use Rattle.tx_handles.specs.MadeCall.{HasMade, RefusesForeign, TransactionShown};

    ghost shown: { Self → TransactionShown V };

    /// A call by a handle on the word or the collection with this number. `NoSuch` where the handle's store has another number than the
    /// transaction's; the transaction is unchanged then.
    fn call(&mut self, store: u32, number: u32, op: Op<V>) -> Result<Reply<V>, Refusal>
        ensures made { IfOk result (λ reply. HasMade (shown self.old) store number op reply (shown self.new)) }
        ensures foreign { RefusesForeign (shown self.old) store result (shown self.new) };

    /// The lane of its client.
    fn lane(&self) -> u64;
}

/// A call on the one of these collections that has the key.
pub(crate) fn call_at<V: Value, T: MakesCalls<V>>(
    tx: &mut T,
    store: u32,
    gates: Gates,
    key: u64,
    op: Op<V>,
) -> Result<Reply<V>, Refusal>
    ensures { IfOk result (λ reply. HasMade (T.shown tx.old) store (gates.first + place_of gates key) op reply (T.shown tx.new)) }
{
    let number = gates.number(gates.place(key))?;
    tx.call(store, number, op)
}

/// How many keys, or items, these collections have together. `TooLong` where they are more than a `u64` can say.
pub(crate) fn total_len<V: Value, T: MakesCalls<V>>(
    tx: &mut T,
    store: u32,
    gates: Gates,
) -> Result<u64, Refusal>
    ensures { IfOk result (λ total. HasSummed (T.shown tx.old) store gates total (T.shown tx.new)) }
{
    let mut total = 0u64;
    'gates: for i in 0..u64::from(gates.others) + 1 {
        let number = gates.number(i)?;
        let reply = tx.call(store, number, Op::Len)?;
        let count = number_in(reply)?;
        let Some(more) = total.checked_add(count) else {
            return Err(Refusal::TooLong);
        };
        total = more;
    }
    Ok(total)
}
