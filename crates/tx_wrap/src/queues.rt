//! The typed calls on a queue.
ghost use Rattle.std.specs.Prelude.{◌≡◌};
ghost use Rattle.seq_model.specs.declared.call.Op.TheVariants as op;
ghost use Rattle.tx_engine.specs.Ready.{HasBegunSince, HasCalled, IsReady};

use seq_model::{Op, Refusal, Reply, Value};
use tx_engine::Tx;

/// The queue of this number.
#[derive(Clone, Copy)]
pub struct TQueue {
    number: u32,
}

impl TQueue {
    /// A handle on the queue of this number. That there is one is found by its calls, which are `NoSuch` otherwise.
    pub fn new(number: u32) -> TQueue
        ensures { result.number ≡ number }
    {
        TQueue { number }
    }

    /// The item is the last one: `Done`, or `Full` at the limit of the index, and nothing is changed.
    pub fn enqueue<V: Value>(&self, tx: &mut Tx<'_, V>, item: u64) -> Result<Reply<V>, Refusal>
        requires ready { IsReady tx.old.table.now tx.old.seat.now }
        requires since { HasBegunSince tx.old.table.now tx.old.seat.now }
        ensures same_reference { tx.new.seat.ghost_name ≡ tx.old.seat.ghost_name }
        ensures same_table { tx.new.table.now ≡ tx.old.table.now }
        ensures called { HasCalled tx.old.table.now tx.old.seat.now tx.new.seat.now
            (record { target = self.now.number; op = op.Enqueue item }) result }
    {
        tx.call(Op::Enqueue(item), self.number)
    }

    /// The first item is taken off: `Found`, or `Nothing` where there is none.
    pub fn dequeue<V: Value>(&self, tx: &mut Tx<'_, V>) -> Result<Reply<V>, Refusal>
        requires ready { IsReady tx.old.table.now tx.old.seat.now }
        requires since { HasBegunSince tx.old.table.now tx.old.seat.now }
        ensures same_reference { tx.new.seat.ghost_name ≡ tx.old.seat.ghost_name }
        ensures same_table { tx.new.table.now ≡ tx.old.table.now }
        ensures called { HasCalled tx.old.table.now tx.old.seat.now tx.new.seat.now
            (record { target = self.now.number; op = op.Dequeue }) result }
    {
        tx.call(Op::Dequeue, self.number)
    }

    /// The first item: `Found`, or `Nothing` where there is none.
    pub fn peek<V: Value>(&self, tx: &mut Tx<'_, V>) -> Result<Reply<V>, Refusal>
        requires ready { IsReady tx.old.table.now tx.old.seat.now }
        requires since { HasBegunSince tx.old.table.now tx.old.seat.now }
        ensures same_reference { tx.new.seat.ghost_name ≡ tx.old.seat.ghost_name }
        ensures same_table { tx.new.table.now ≡ tx.old.table.now }
        ensures called { HasCalled tx.old.table.now tx.old.seat.now tx.new.seat.now
            (record { target = self.now.number; op = op.Peek }) result }
    {
        tx.call(Op::Peek, self.number)
    }

    /// How many items the queue has: `Number`.
    pub fn len<V: Value>(&self, tx: &mut Tx<'_, V>) -> Result<Reply<V>, Refusal>
        requires ready { IsReady tx.old.table.now tx.old.seat.now }
        requires since { HasBegunSince tx.old.table.now tx.old.seat.now }
        ensures same_reference { tx.new.seat.ghost_name ≡ tx.old.seat.ghost_name }
        ensures same_table { tx.new.table.now ≡ tx.old.table.now }
        ensures called { HasCalled tx.old.table.now tx.old.seat.now tx.new.seat.now
            (record { target = self.now.number; op = op.Len }) result }
    {
        tx.call(Op::Len, self.number)
    }
}
