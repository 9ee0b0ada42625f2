//! The typed calls on a priority queue.
ghost use Rattle.std.specs.Prelude.{◌≡◌};
ghost use Rattle.seq_model.specs.declared.call.Op.TheVariants as op;
ghost use Rattle.tx_engine.specs.Ready.{HasBegunSince, HasCalled, IsReady};

use seq_model::{Op, Refusal, Reply, Value};
use tx_engine::Tx;

/// The priority queue of this number.
#[derive(Clone, Copy)]
pub struct TPq {
    number: u32,
}

impl TPq {
    /// A handle on the priority queue of this number. That there is one is found by its calls, which are `NoSuch` otherwise.
    pub fn new(number: u32) -> TPq
        ensures { result.number ≡ number }
    {
        TPq { number }
    }

    /// The least element: `Found`, or `Nothing` where there is none.
    pub fn least<V: Value>(&self, tx: &mut Tx<'_, V>) -> Result<Reply<V>, Refusal>
        requires ready { IsReady tx.old.table.now tx.old.seat.now }
        requires since { HasBegunSince tx.old.table.now tx.old.seat.now }
        ensures same_reference { tx.new.seat.ghost_name ≡ tx.old.seat.ghost_name }
        ensures same_table { tx.new.table.now ≡ tx.old.table.now }
        ensures called { HasCalled tx.old.table.now tx.old.seat.now tx.new.seat.now
            (record { target = self.now.number; op = op.Least }) result }
    {
        tx.call(Op::Least, self.number)
    }

    /// One more copy of the element: `Done`, or `Full` at the limit of copies, and nothing is changed.
    pub fn insert<V: Value>(&self, tx: &mut Tx<'_, V>, element: u64) -> Result<Reply<V>, Refusal>
        requires ready { IsReady tx.old.table.now tx.old.seat.now }
        requires since { HasBegunSince tx.old.table.now tx.old.seat.now }
        ensures same_reference { tx.new.seat.ghost_name ≡ tx.old.seat.ghost_name }
        ensures same_table { tx.new.table.now ≡ tx.old.table.now }
        ensures called { HasCalled tx.old.table.now tx.old.seat.now tx.new.seat.now
            (record { target = self.now.number; op = op.Insert element }) result }
    {
        tx.call(Op::Insert(element), self.number)
    }

    /// One copy of the least element is taken: `Found`, or `Nothing` where there is none.
    pub fn take_least<V: Value>(&self, tx: &mut Tx<'_, V>) -> Result<Reply<V>, Refusal>
        requires ready { IsReady tx.old.table.now tx.old.seat.now }
        requires since { HasBegunSince tx.old.table.now tx.old.seat.now }
        ensures same_reference { tx.new.seat.ghost_name ≡ tx.old.seat.ghost_name }
        ensures same_table { tx.new.table.now ≡ tx.old.table.now }
        ensures called { HasCalled tx.old.table.now tx.old.seat.now tx.new.seat.now
            (record { target = self.now.number; op = op.TakeLeast }) result }
    {
        tx.call(Op::TakeLeast, self.number)
    }
}
