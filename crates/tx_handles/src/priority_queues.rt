//! The handle of a priority queue.
ghost use Rattle.std.specs.Prelude.{◌≡◌, IfOk};
ghost use Rattle.seq_model.specs.Calls.{found_reply};
ghost use Rattle.seq_model.specs.declared.call.Op.TheVariants as op;
ghost use Rattle.tx_handles.specs.MadeCall.{HasMade, room_reply};

use crate::calls::MakesCalls;
use crate::replies::{found_in, room_in};
use seq_model::{Full, Op, Refusal, Value};

/// A priority queue of `u64` elements, the least first. An element may be in it more than once.
#[derive(Clone, Copy)]
pub struct PriorityQueue {
    pub store: u32,
    pub number: u32,
}

impl PriorityQueue {
    /// The least element. It is not taken out.
    ///
    /// ```
    /// priorities.insert(tx, 5)??;
    /// priorities.insert(tx, 4)??;
    /// let least = priorities.least(tx)?; // Some(4)
    /// ```
    pub fn least<V: Value, T: MakesCalls<V>>(&self, tx: &mut T) -> Result<Option<u64>, Refusal>
        ensures { IfOk result (λ found. HasMade (T.shown tx.old) self.now.store self.now.number op.Least (found_reply found)
            (T.shown tx.new)) }
    {
        let reply = tx.call(self.store, self.number, Op::Least)?;
        found_in(reply)
    }

    /// Inserts one copy of the element. [`Full`] where it has 4,294,967,295 copies already.
    ///
    /// ```
    /// priorities.insert(tx, 4)??;
    /// let least = priorities.least(tx)?; // Some(4)
    /// ```
    pub fn insert<V: Value, T: MakesCalls<V>>(
        &self,
        tx: &mut T,
        element: u64,
    ) -> Result<Result<(), Full>, Refusal>
        ensures { IfOk result (λ inserted. HasMade (T.shown tx.old) self.now.store self.now.number (op.Insert element)
            (room_reply inserted) (T.shown tx.new)) }
    {
        let reply = tx.call(self.store, self.number, Op::Insert(element))?;
        room_in(reply)
    }

    /// Takes one copy of the least element out, and returns it. It reads every stripe, so it costs as much as there are stripes.
    ///
    /// ```
    /// let taken = priorities.take_least(tx)?; // Some(4)
    /// let then = priorities.least(tx)?; // Some(5)
    /// ```
    pub fn take_least<V: Value, T: MakesCalls<V>>(&self, tx: &mut T) -> Result<Option<u64>, Refusal>
        ensures { IfOk result (λ found. HasMade (T.shown tx.old) self.now.store self.now.number op.TakeLeast (found_reply found)
            (T.shown tx.new)) }
    {
        let reply = tx.call(self.store, self.number, Op::TakeLeast)?;
        found_in(reply)
    }
}
