//! The typed calls on a multiset.
ghost use Rattle.std.specs.Prelude.{◌≡◌};
ghost use Rattle.seq_model.specs.declared.call.Op.TheVariants as op;
ghost use Rattle.tx_engine.specs.Ready.{HasBegunSince, HasCalled, IsReady};

use seq_model::{Op, Refusal, Reply, Value};
use tx_engine::Tx;

/// The multiset of this number.
#[derive(Clone, Copy)]
pub struct TBag {
    number: u32,
}

impl TBag {
    /// A handle on the multiset of this number. That there is one is found by its calls, which are `NoSuch` otherwise.
    pub fn new(number: u32) -> TBag
        ensures { result.number ≡ number }
    {
        TBag { number }
    }

    /// How many copies of the element the multiset has: `Number`.
    pub fn count<V: Value>(&self, tx: &mut Tx<'_, V>, element: u64) -> Result<Reply<V>, Refusal>
        requires ready { IsReady tx.old.table.now tx.old.seat.now }
        requires since { HasBegunSince tx.old.table.now tx.old.seat.now }
        ensures same_reference { tx.new.seat.ghost_name ≡ tx.old.seat.ghost_name }
        ensures same_table { tx.new.table.now ≡ tx.old.table.now }
        ensures called { HasCalled tx.old.table.now tx.old.seat.now tx.new.seat.now
            (record { target = self.now.number; op = op.Count element }) result }
    {
        tx.call(Op::Count(element), self.number)
    }

    /// One more copy of the element: `Done`, or `Full` at the limit of copies, and nothing is changed.
    pub fn add<V: Value>(&self, tx: &mut Tx<'_, V>, element: u64) -> Result<Reply<V>, Refusal>
        requires ready { IsReady tx.old.table.now tx.old.seat.now }
        requires since { HasBegunSince tx.old.table.now tx.old.seat.now }
        ensures same_reference { tx.new.seat.ghost_name ≡ tx.old.seat.ghost_name }
        ensures same_table { tx.new.table.now ≡ tx.old.table.now }
        ensures called { HasCalled tx.old.table.now tx.old.seat.now tx.new.seat.now
            (record { target = self.now.number; op = op.Add element }) result }
    {
        tx.call(Op::Add(element), self.number)
    }

    /// One copy less of the element: `Yes`, or `No` where it has none.
    pub fn take<V: Value>(&self, tx: &mut Tx<'_, V>, element: u64) -> Result<Reply<V>, Refusal>
        requires ready { IsReady tx.old.table.now tx.old.seat.now }
        requires since { HasBegunSince tx.old.table.now tx.old.seat.now }
        ensures same_reference { tx.new.seat.ghost_name ≡ tx.old.seat.ghost_name }
        ensures same_table { tx.new.table.now ≡ tx.old.table.now }
        ensures called { HasCalled tx.old.table.now tx.old.seat.now tx.new.seat.now
            (record { target = self.now.number; op = op.Take element }) result }
    {
        tx.call(Op::Take(element), self.number)
    }
}
