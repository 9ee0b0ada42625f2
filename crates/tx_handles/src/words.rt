//! The handle of a word.
ghost use Rattle.std.specs.Prelude.{◌≡◌, IfOk};
ghost use Rattle.seq_model.specs.declared.call.Op.TheVariants as op;
ghost use Rattle.seq_model.specs.declared.call.Reply.TheVariants as replies;
ghost use Rattle.tx_handles.specs.MadeCall.{HasMade};

use crate::calls::MakesCalls;
use crate::replies::{done_in, number_in};
use seq_model::{Op, Refusal, Value};

/// A word: one `u64`.
#[derive(Clone, Copy)]
pub struct Word {
    pub store: u32,
    pub number: u32,
}

impl Word {
    /// What the word holds.
    ///
    /// ```
    /// word.write(tx, 7)?;
    /// let held = word.read(tx)?; // 7
    /// ```
    pub fn read<V: Value, T: MakesCalls<V>>(&self, tx: &mut T) -> Result<u64, Refusal>
        ensures { IfOk result (λ held. HasMade (T.shown tx.old) self.now.store self.now.number op.Read (replies.Number held)
            (T.shown tx.new)) }
    {
        let reply = tx.call(self.store, self.number, Op::Read)?;
        number_in(reply)
    }

    /// Writes the word. Other transactions see it once this one commits.
    ///
    /// ```
    /// let held = word.read(tx)?; // 7
    /// word.write(tx, held.saturating_add(1))?;
    /// let then = word.read(tx)?; // 8
    /// ```
    pub fn write<V: Value, T: MakesCalls<V>>(&self, tx: &mut T, word: u64) -> Result<(), Refusal>
        ensures { IfOk result (λ _. HasMade (T.shown tx.old) self.now.store self.now.number (op.Write word) replies.Done (T.shown tx.new)) }
    {
        let reply = tx.call(self.store, self.number, Op::Write(word))?;
        done_in(reply)
    }
}
