//! The handle of a queue in lanes.
ghost use Rattle.std.specs.Prelude.{◌≡◌, ◌+◌, ◌≤◌, IfOk};
ghost use Rattle.tx_handles.specs.Lanes.{HasDoneWithLanes, HasTakenFrom, IsAdded, IsCounted, IsTaken};

use crate::calls::{MakesCalls, total_len};
use crate::gates::Gates;
use crate::replies::{found_in, room_in};
use seq_model::{Full, Op, Refusal, Value};

/// A queue of `u64` items in lanes, for work that many threads give and take. Items are in order within a lane, and in none between lanes.
///
/// Each client has a lane of its own, or shares it with few: it enqueues there, and looks there first for an item.
#[derive(Clone, Copy)]
pub struct Lanes {
    pub store: u32,
    pub gates: Gates,
}

impl Lanes {
    /// Which lane is a client's own, counted from 0.
    fn own(self, lane: u64) -> u64
        ensures { result ≤ self.gates.others }
    {
        lane % (u64::from(self.gates.others) + 1)
    }

    /// Adds an item at the end of the client's lane. [`Full`] once the lane's positions are used up.
    ///
    /// ```
    /// jobs.enqueue(tx, 6)??;
    /// ```
    pub fn enqueue<V: Value, T: MakesCalls<V>>(
        &self,
        tx: &mut T,
        item: u64,
    ) -> Result<Result<(), Full>, Refusal>
        ensures { IfOk result (λ added. HasDoneWithLanes (T.shown tx.old) self.now (λ lanes t. IsAdded self.now.gates lanes item added t)
            (T.shown tx.new)) }
    {
        let number = self.gates.number(self.own(tx.lane()))?;
        let reply = tx.call(self.store, number, Op::Enqueue(item))?;
        room_in(reply)
    }

    /// Takes the first item of a lane out, and returns it: of the client's own lane, or of the next one after it that has any, the first
    /// lane being after the last. `None` where all lanes are empty.
    ///
    /// ```
    /// jobs.enqueue(tx, 6)??;
    /// jobs.enqueue(tx, 7)??;
    /// let taken = jobs.dequeue(tx)?; // Some(6)
    /// ```
    #[tactic(auto, using(crate::proofs::LaneLemmas::taken_first))]
    pub fn dequeue<V: Value, T: MakesCalls<V>>(&self, tx: &mut T) -> Result<Option<u64>, Refusal>
        ensures { IfOk result (λ found. HasDoneWithLanes (T.shown tx.old) self.now (λ lanes t. IsTaken self.now.gates lanes found t)
            (T.shown tx.new)) }
    {
        let own = self.own(tx.lane());
        let last = u64::from(self.gates.others) + 1;
        match self.dequeue_from(tx, own, last)? {
            Some(item) => Ok(Some(item)),
            None => self.dequeue_from(tx, 0, own),
        }
    }

    /// Takes the first item out of the first lane from `first` on and before `end` that has any.
    fn dequeue_from<V: Value, T: MakesCalls<V>>(
        &self,
        tx: &mut T,
        first: u64,
        end: u64,
    ) -> Result<Option<u64>, Refusal>
        requires { end ≤ self.now.gates.others + 1 }
        ensures { IfOk result (λ found. HasTakenFrom (T.shown tx.old) self.now first end found (T.shown tx.new)) }
    {
        'lanes: for i in first..end {
            let number = self.gates.number(i)?;
            let reply = tx.call(self.store, number, Op::Dequeue)?;
            let found = found_in(reply)?;
            if let Some(item) = found {
                return Ok(Some(item));
            }
        }
        Ok(None)
    }

    /// How many items all lanes have.
    ///
    /// ```
    /// let left = jobs.len(tx)?; // 1
    /// ```
    pub fn len<V: Value, T: MakesCalls<V>>(&self, tx: &mut T) -> Result<u64, Refusal>
        ensures { IfOk result (λ count. HasDoneWithLanes (T.shown tx.old) self.now (λ lanes t. IsCounted self.now.gates lanes count t)
            (T.shown tx.new)) }
    {
        total_len(tx, self.store, self.gates)
    }
}
