//! A transaction, as a body sees it.
ghost use Rattle.std.specs.Prelude.{◌≡◌, IfOk};
ghost use Rattle.tx_engine.specs.Ready.{HasBegunSince, HasCalled, IsReady};
ghost use Rattle.tx_handles.specs.MadeCall.{HasMade, RefusesForeign, with_call};

use crate::scope::Scope;
use actor_parts::Boxed;
use seq_model::{Op, Refusal, Reply, Value};
use shared_table::TxTable;
use std::marker::{Model, PhantomData};
use tx_engine::{TxSeat, resume};
use tx_handles::MakesCalls;

/// The transaction in which a body runs. Its calls are made by the handles of the store's layout.
///
/// What a call may be refused as:
///
/// - `NoSuch`, by a handle of a store with another number, of another kind, or beyond the layout, and for a change in a `look`; `TooLong`,
///   beyond 4,096 calls, or more locations than a transaction may read or write. The transaction is unchanged, and may continue.
/// - `Moved`, `Stale` or `GateBusy`: another transaction stood in the way. `Memory`: an allocation failed. The transaction has ended and
///   has changed nothing. Each later call is refused as `NoTransaction`, or by a handle of a store with another number as `NoSuch`. The
///   body's caller gets the refusal that ended the transaction.
///
/// Contracts see the number of its store, and the calls that it has made, each with its reply; once a call has ended the transaction, there
/// are none.
#[derive(Drop)]
pub struct Transaction<'t, V, S: Scope<V>> {
    pub(crate) table: &'t TxTable<V>,
    pub(crate) seat: Boxed<TxSeat<V>>,
    /// The number of its store, which the handles of the store's layout have too.
    pub(crate) store: u32,
    /// The lane of its client.
    pub(crate) lane: u64,
    /// The refusal of the last call, if it was refused.
    pub(crate) refused: Option<Refusal>,
    pub(crate) scope: PhantomData<S>,
}

impl<'t, V, S: Scope<V>> Model for Transaction<'t, V, S> {
    ghost use Rattle.tx_handles.specs.MadeCall.{TransactionShown};

    ghost Value = { TransactionShown V };

    ghost use Rattle.shared_table.specs.Seated.{opening_of};
    ghost use Rattle.tx_client.specs.Frames.{IsUnderWay, transaction_at};

    ghost view = { λ a. transaction_at a.store (opening_of a.table.now) a.seat.seat };

    ghost invariant = { λ a. IsUnderWay S.frame a.table.now a.seat };
}

/// The refusal of the last call. Where an earlier call has ended the transaction, it is that call's refusal.
fn last_refusal(refused: Option<Refusal>, cause: Refusal) -> Option<Refusal> {
    match cause {
        Refusal::NoTransaction => refused,
        _ => Some(cause),
    }
}

/// The same after a call by a handle of another store.
fn foreign_refusal(refused: Option<Refusal>, is_open: bool) -> Option<Refusal> {
    if is_open {
        Some(Refusal::NoSuch)
    } else {
        refused
    }
}

/// A call of the transaction that is open at the seat.
fn call_at<V: Value>(
    table: &TxTable<V>,
    seat: &mut TxSeat<V>,
    target: u32,
    op: Op<V>,
) -> Result<Reply<V>, Refusal>
    requires ready { IsReady table.now seat.old }
    requires since { HasBegunSince table.now seat.old }
    ensures called { HasCalled table.now seat.old seat.new (record { target = target; op = op }) result }
{
    resume(seat, table).call(op, target)
}

impl<'t, V: Value, S: Scope<V>> Transaction<'t, V, S> {
    /// A call on the word or the collection with this number. A call that is answered is added to the calls that were made.
    fn request(&mut self, target: u32, op: Op<V>) -> Result<Reply<V>, Refusal>
        ensures { IfOk result (λ reply. self.new ≡ with_call self.old target op reply) }
    {
        match call_at(self.table, self.seat.get_mut(), target, op) {
            Ok(reply) => {
                self.refused = None;
                Ok(reply)
            }
            Err(cause) => {
                self.refused = last_refusal(self.refused, cause);
                Err(cause)
            }
        }
    }
}

impl<'t, V: Value, S: Scope<V>> MakesCalls<V> for Transaction<'t, V, S> {
    ghost shown = { λ t. t };

    fn call(&mut self, store: u32, number: u32, op: Op<V>) -> Result<Reply<V>, Refusal>
        ensures made { IfOk result (λ reply. HasMade self.old store number op reply self.new) }
        ensures foreign { RefusesForeign self.old store result self.new }
    {
        if self.store != store {
            self.refused = foreign_refusal(self.refused, self.seat.get().is_open());
            return Err(Refusal::NoSuch);
        }
        self.request(number, op)
    }

    fn lane(&self) -> u64 {
        self.lane
    }
}
