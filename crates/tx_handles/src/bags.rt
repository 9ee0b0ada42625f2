//! The handle of a multiset.
ghost use Rattle.std.specs.Prelude.{◌≡◌, IfOk};
ghost use Rattle.seq_model.specs.declared.call.Op.TheVariants as op;
ghost use Rattle.seq_model.specs.declared.call.Reply.TheVariants as replies;
ghost use Rattle.tx_handles.specs.HandleCalls.{BagAnswers};
ghost use Rattle.tx_handles.specs.MadeCall.{room_reply, yes_reply};

use crate::calls::{MakesCalls, call_at};
use crate::gates::Gates;
use crate::replies::{number_in, room_in, yes_in};
use seq_model::{Full, Op, Refusal, Value};

/// A multiset of `u64` elements.
#[derive(Clone, Copy)]
pub struct Bag {
    pub store: u32,
    pub gates: Gates,
}

impl Bag {
    /// How many copies of the element the multiset has.
    ///
    /// ```
    /// bag.add(tx, 3)??;
    /// bag.add(tx, 3)??;
    /// let copies = bag.count(tx, 3)?; // 2
    /// ```
    pub fn count<V: Value, T: MakesCalls<V>>(
        &self,
        tx: &mut T,
        element: u64,
    ) -> Result<u64, Refusal>
        ensures { IfOk result (λ count. BagAnswers (T.shown tx.old) self.now element (op.Count element) (replies.Number count)
            (T.shown tx.new)) }
    {
        let reply = call_at(tx, self.store, self.gates, element, Op::Count(element))?;
        number_in(reply)
    }

    /// Adds one copy of the element. [`Full`] where it has 4,294,967,295 copies already.
    ///
    /// ```
    /// bag.add(tx, 3)??;
    /// let copies = bag.count(tx, 3)?; // 2
    /// ```
    pub fn add<V: Value, T: MakesCalls<V>>(
        &self,
        tx: &mut T,
        element: u64,
    ) -> Result<Result<(), Full>, Refusal>
        ensures { IfOk result (λ added. BagAnswers (T.shown tx.old) self.now element (op.Add element) (room_reply added) (T.shown tx.new)) }
    {
        let reply = call_at(tx, self.store, self.gates, element, Op::Add(element))?;
        room_in(reply)
    }

    /// Takes one copy of the element out, and returns whether there was one.
    ///
    /// ```
    /// let copies = bag.count(tx, 3)?; // 2
    /// let taken = bag.take(tx, 3)?; // true
    /// let left = bag.count(tx, 3)?; // 1
    /// ```
    pub fn take<V: Value, T: MakesCalls<V>>(
        &self,
        tx: &mut T,
        element: u64,
    ) -> Result<bool, Refusal>
        ensures { IfOk result (λ taken. BagAnswers (T.shown tx.old) self.now element (op.Take element) (yes_reply taken) (T.shown tx.new)) }
    {
        let reply = call_at(tx, self.store, self.gates, element, Op::Take(element))?;
        yes_in(reply)
    }
}
