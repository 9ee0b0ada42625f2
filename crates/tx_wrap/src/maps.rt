//! The typed calls on a map.
ghost use Rattle.std.specs.Prelude.{◌≡◌};
ghost use Rattle.seq_model.specs.declared.call.Op.TheVariants as op;
ghost use Rattle.tx_engine.specs.Ready.{HasBegunSince, HasCalled, IsReady};

use seq_model::{Op, Refusal, Reply, Value};
use std::marker::PhantomData;
use tx_engine::Tx;

/// The map of this number.
#[derive_where(Clone, Copy)]
pub struct TMap<V> {
    number: u32,
    values: PhantomData<V>,
}

impl<V: Value> TMap<V> {
    /// A handle on the map of this number. That there is one is found by its calls, which are `NoSuch` otherwise.
    pub fn new(number: u32) -> TMap<V>
        ensures { result.number ≡ number }
    {
        TMap {
            number,
            values: PhantomData,
        }
    }

    /// What the map holds at a key: `Value`, or `Nothing`.
    pub fn get(&self, tx: &mut Tx<'_, V>, key: u64) -> Result<Reply<V>, Refusal>
        requires ready { IsReady tx.old.table.now tx.old.seat.now }
        requires since { HasBegunSince tx.old.table.now tx.old.seat.now }
        ensures same_reference { tx.new.seat.ghost_name ≡ tx.old.seat.ghost_name }
        ensures same_table { tx.new.table.now ≡ tx.old.table.now }
        ensures called { HasCalled tx.old.table.now tx.old.seat.now tx.new.seat.now
            (record { target = self.now.number; op = op.Get key }) result }
    {
        tx.call(Op::Get(key), self.number)
    }

    /// The map holds the value at the key from then on; the answer is what it held there: `Value`, or `Nothing`.
    pub fn put(&self, tx: &mut Tx<'_, V>, key: u64, value: V) -> Result<Reply<V>, Refusal>
        requires ready { IsReady tx.old.table.now tx.old.seat.now }
        requires since { HasBegunSince tx.old.table.now tx.old.seat.now }
        ensures same_reference { tx.new.seat.ghost_name ≡ tx.old.seat.ghost_name }
        ensures same_table { tx.new.table.now ≡ tx.old.table.now }
        ensures called { HasCalled tx.old.table.now tx.old.seat.now tx.new.seat.now
            (record { target = self.now.number; op = op.Put key value }) result }
    {
        tx.call(Op::Put(key, value), self.number)
    }

    /// The map holds nothing at the key from then on; the answer is what it held there: `Value`, or `Nothing`.
    pub fn remove(&self, tx: &mut Tx<'_, V>, key: u64) -> Result<Reply<V>, Refusal>
        requires ready { IsReady tx.old.table.now tx.old.seat.now }
        requires since { HasBegunSince tx.old.table.now tx.old.seat.now }
        ensures same_reference { tx.new.seat.ghost_name ≡ tx.old.seat.ghost_name }
        ensures same_table { tx.new.table.now ≡ tx.old.table.now }
        ensures called { HasCalled tx.old.table.now tx.old.seat.now tx.new.seat.now
            (record { target = self.now.number; op = op.Remove key }) result }
    {
        tx.call(Op::Remove(key), self.number)
    }

    /// How many keys the map has: `Number`.
    pub fn len(&self, tx: &mut Tx<'_, V>) -> Result<Reply<V>, Refusal>
        requires ready { IsReady tx.old.table.now tx.old.seat.now }
        requires since { HasBegunSince tx.old.table.now tx.old.seat.now }
        ensures same_reference { tx.new.seat.ghost_name ≡ tx.old.seat.ghost_name }
        ensures same_table { tx.new.table.now ≡ tx.old.table.now }
        ensures called { HasCalled tx.old.table.now tx.old.seat.now tx.new.seat.now
            (record { target = self.now.number; op = op.Len }) result }
    {
        tx.call(Op::Len, self.number)
    }
}
