//! The typed calls on a word.
ghost use Rattle.std.specs.Prelude.{◌≡◌};
ghost use Rattle.seq_model.specs.declared.call.Op.TheVariants as op;
ghost use Rattle.tx_engine.specs.Ready.{HasBegunSince, HasCalled, IsReady};

use seq_model::{Op, Refusal, Reply, Value};
use tx_engine::Tx;

/// The word of this number.
#[derive(Clone, Copy)]
pub struct TWord {
    number: u32,
}

impl TWord {
    /// A handle on the word of this number. That there is one is found by its calls, which are `NoSuch` otherwise.
    pub fn new(number: u32) -> TWord
        ensures { result.number ≡ number }
    {
        TWord { number }
    }

    /// What the word holds: `Number`.
    pub fn read<V: Value>(&self, tx: &mut Tx<'_, V>) -> Result<Reply<V>, Refusal>
        requires ready { IsReady tx.old.table.now tx.old.seat.now }
        requires since { HasBegunSince tx.old.table.now tx.old.seat.now }
        ensures same_reference { tx.new.seat.ghost_name ≡ tx.old.seat.ghost_name }
        ensures same_table { tx.new.table.now ≡ tx.old.table.now }
        ensures called { HasCalled tx.old.table.now tx.old.seat.now tx.new.seat.now
            (record { target = self.now.number; op = op.Read }) result }
    {
        tx.call(Op::Read, self.number)
    }

    /// The word holds this number, once the transaction commits: `Done`.
    pub fn write<V: Value>(&self, tx: &mut Tx<'_, V>, word: u64) -> Result<Reply<V>, Refusal>
        requires ready { IsReady tx.old.table.now tx.old.seat.now }
        requires since { HasBegunSince tx.old.table.now tx.old.seat.now }
        ensures same_reference { tx.new.seat.ghost_name ≡ tx.old.seat.ghost_name }
        ensures same_table { tx.new.table.now ≡ tx.old.table.now }
        ensures called { HasCalled tx.old.table.now tx.old.seat.now tx.new.seat.now
            (record { target = self.now.number; op = op.Write word }) result }
    {
        tx.call(Op::Write(word), self.number)
    }
}
