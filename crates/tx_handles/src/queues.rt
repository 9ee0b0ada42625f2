//! The handle of a queue.
ghost use Rattle.std.specs.Prelude.{◌≡◌, IfOk};
ghost use Rattle.seq_model.specs.Calls.{found_reply};
ghost use Rattle.seq_model.specs.declared.call.Op.TheVariants as op;
ghost use Rattle.seq_model.specs.declared.call.Reply.TheVariants as replies;
ghost use Rattle.tx_handles.specs.MadeCall.{HasMade, room_reply};

use crate::calls::MakesCalls;
use crate::replies::{found_in, number_in, room_in};
use seq_model::{Full, Op, Refusal, Value};

/// A queue of `u64` items, first in, first out.
#[derive(Clone, Copy)]
pub struct Queue {
    pub store: u32,
    pub number: u32,
}

impl Queue {
    /// Adds an item at the end. [`Full`] once the queue's positions are used up.
    ///
    /// ```
    /// queue.enqueue(tx, 6)??;
    /// queue.enqueue(tx, 7)??;
    /// let first = queue.peek(tx)?; // Some(6)
    /// ```
    pub fn enqueue<V: Value, T: MakesCalls<V>>(
        &self,
        tx: &mut T,
        item: u64,
    ) -> Result<Result<(), Full>, Refusal>
        ensures { IfOk result (λ added. HasMade (T.shown tx.old) self.now.store self.now.number (op.Enqueue item) (room_reply added)
            (T.shown tx.new)) }
    {
        let reply = tx.call(self.store, self.number, Op::Enqueue(item))?;
        room_in(reply)
    }

    /// Takes the first item out, and returns it.
    ///
    /// ```
    /// let first = queue.peek(tx)?; // Some(6)
    /// let taken = queue.dequeue(tx)?; // Some(6)
    /// let items = queue.len(tx)?; // 1
    /// ```
    pub fn dequeue<V: Value, T: MakesCalls<V>>(&self, tx: &mut T) -> Result<Option<u64>, Refusal>
        ensures { IfOk result (λ found. HasMade (T.shown tx.old) self.now.store self.now.number op.Dequeue (found_reply found)
            (T.shown tx.new)) }
    {
        let reply = tx.call(self.store, self.number, Op::Dequeue)?;
        found_in(reply)
    }

    /// The first item. It is not taken out.
    ///
    /// ```
    /// let first = queue.peek(tx)?; // Some(6)
    /// let taken = queue.dequeue(tx)?; // Some(6)
    /// ```
    pub fn peek<V: Value, T: MakesCalls<V>>(&self, tx: &mut T) -> Result<Option<u64>, Refusal>
        ensures { IfOk result (λ found. HasMade (T.shown tx.old) self.now.store self.now.number op.Peek (found_reply found)
            (T.shown tx.new)) }
    {
        let reply = tx.call(self.store, self.number, Op::Peek)?;
        found_in(reply)
    }

    /// How many items the queue has.
    ///
    /// ```
    /// let taken = queue.dequeue(tx)?; // Some(6)
    /// let items = queue.len(tx)?; // 1
    /// ```
    pub fn len<V: Value, T: MakesCalls<V>>(&self, tx: &mut T) -> Result<u64, Refusal>
        ensures { IfOk result (λ count. HasMade (T.shown tx.old) self.now.store self.now.number op.Len (replies.Number count)
            (T.shown tx.new)) }
    {
        let reply = tx.call(self.store, self.number, Op::Len)?;
        number_in(reply)
    }
}
