//! The handle of a map.
ghost use Rattle.std.specs.Prelude.{◌≡◌, IfOk};
ghost use Rattle.seq_model.specs.Calls.{value_reply};
ghost use Rattle.seq_model.specs.declared.call.Op.TheVariants as op;
ghost use Rattle.tx_handles.specs.HandleCalls.{MapAnswers, MapCounts};

use crate::calls::{MakesCalls, call_at, total_len};
use crate::gates::Gates;
use crate::replies::value_in;
use seq_model::{Op, Refusal, Value};
use std::marker::PhantomData;

/// A map from `u64` keys to values.
#[derive(Drop)]
#[derive_where(Clone, Copy)]
pub struct Map<V> {
    pub store: u32,
    pub gates: Gates,
    values: PhantomData<V>,
}

/// The map over these collections of a store.
pub fn map_at<V>(store: u32, gates: Gates) -> Map<V>
    ensures store { result.store ≡ store }
    ensures gates { result.gates ≡ gates }
{
    Map {
        store,
        gates,
        values: PhantomData,
    }
}

impl<V: Value> Map<V> {
    /// A copy of the value at a key.
    ///
    /// ```
    /// let held = map.put(tx, 1, 20)?; // Some(10)
    /// let found = map.get(tx, 1)?; // Some(20)
    /// ```
    pub fn get<T: MakesCalls<V>>(&self, tx: &mut T, key: u64) -> Result<Option<V>, Refusal>
        ensures { IfOk result (λ found. MapAnswers (T.shown tx.old) self.now key (op.Get key) (value_reply found) (T.shown tx.new)) }
    {
        let reply = call_at(tx, self.store, self.gates, key, Op::Get(key))?;
        value_in(reply)
    }

    /// Puts a value at a key, and returns the value that was there before.
    ///
    /// ```
    /// let before = map.put(tx, 1, 10)?; // None
    /// let held = map.put(tx, 1, 20)?; // Some(10)
    /// ```
    pub fn put<T: MakesCalls<V>>(
        &self,
        tx: &mut T,
        key: u64,
        value: V,
    ) -> Result<Option<V>, Refusal>
        ensures { IfOk result (λ held. MapAnswers (T.shown tx.old) self.now key (op.Put key value) (value_reply held) (T.shown tx.new)) }
    {
        let reply = call_at(tx, self.store, self.gates, key, Op::Put(key, value))?;
        value_in(reply)
    }

    /// Removes a key, and returns the value that was there.
    ///
    /// ```
    /// let removed = map.remove(tx, 1)?; // Some(20)
    /// let then = map.get(tx, 1)?; // None
    /// ```
    pub fn remove<T: MakesCalls<V>>(&self, tx: &mut T, key: u64) -> Result<Option<V>, Refusal>
        ensures { IfOk result (λ held. MapAnswers (T.shown tx.old) self.now key (op.Remove key) (value_reply held) (T.shown tx.new)) }
    {
        let reply = call_at(tx, self.store, self.gates, key, Op::Remove(key))?;
        value_in(reply)
    }

    /// How many keys the map has. It reads every stripe.
    ///
    /// ```
    /// let before = map.put(tx, 1, 10)?; // None
    /// let keys = map.len(tx)?; // 1
    /// ```
    pub fn len<T: MakesCalls<V>>(&self, tx: &mut T) -> Result<u64, Refusal>
        ensures { IfOk result (λ count. MapCounts (T.shown tx.old) self.now count (T.shown tx.new)) }
    {
        total_len(tx, self.store, self.gates)
    }
}
