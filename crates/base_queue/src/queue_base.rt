//! The collection of a queue.
ghost use Rattle.std.specs.Prelude.{◌≡◌, ◌+◌, ◌-◌, ◌^◌, [], ◌<◌, ◌≤◌, Some, None, All, IsOk, replicate, IfOk, IfErr, OnOk, length};
ghost use Rattle.std.specs.Prelude.{option_to_list, slice_index};
ghost use Rattle.std.specs.Vec.{vec_capacity};
ghost use Rattle.seq_model.specs.Calls.{IsRefusal, IsWithinLimits};
ghost use Rattle.conflict.specs.Rules.{applied};
ghost use Rattle.conflict.specs.Footprints.{cell_location};
ghost use Rattle.conflict.specs.Editions.{raised};
ghost use Rattle.conflict.specs.Refusals.{IsTooLong, IsNoSuchOrTooLong, IsStripeCount};
ghost use Rattle.base_queue.specs.Conflicts.{rules, queue_view, view_of, outcome_of, reads_of, writes_of, changes_of};

use crate::cells::Cells;
use conflict::{Change, Changes, Conflict, Editions, LocSet, Note, Outcome, is_stripe_count};
use seq_model::{Held, INDEX_LIMIT, Memory, Op, Refusal, Reply, Value};
use std::alloc::Global;
use std::marker::Model;

/// A queue in stripes, with an edition for its head, its tail and each stripe.
pub struct QueueBase {
    cells: Cells,
    stripes: u32,
    editions: Editions,
}

impl Drop for QueueBase {
    fn drop(self) {
        let QueueBase {
            cells: _,
            stripes: _,
            editions: _,
        } = self;
    }
}

impl Model for QueueBase {
    ghost use Rattle.std.specs.Prelude.{◌≡◌, ℕ, ◌+◌, length};
    ghost use Rattle.std.specs.Coded.{coded_ℕ};
    ghost use Rattle.conflict.specs.BaseView.{BaseView, base_view_code};
    ghost use Rattle.conflict.specs.Refusals.{IsStripeCount};
    ghost use Rattle.base_queue.specs.Conflicts.{Shown, shown_code};

    ghost Value = { BaseView Shown ℕ };

    ghost coded = { base_view_code shown_code coded_ℕ };

    ghost view = { λ a. record {
      shown = a.cells.shown;
      stripes = a.stripes;
      editions = a.editions;
      room = a.cells.room;
    } };

    ghost invariant = { λ a. IsStripeCount a.stripes × (length a.editions ≡ a.stripes + 2) };
}

impl QueueBase {
    /// An empty queue whose first item will have index 0, in so many stripes, 1 to `STRIPE_LIMIT`, with edition 0 for each
    /// location. Another number of stripes is refused as TooLong.
    pub fn new(alloc: Global, stripes: u32) -> Result<QueueBase, Refusal>
        ensures empty { IfOk result (λ base. base.shown ≡ queue_view 0 []) }
        ensures stripes { IfOk result (λ base. base.stripes ≡ stripes) }
        ensures editions { IfOk result (λ base. base.editions ≡ replicate (stripes + 2) 0) }
        ensures refused { IfErr result (λ refusal. IsTooLong refusal (IsStripeCount stripes)) }
        ensures fits { IsOk result → IsStripeCount stripes }
    {
        if !is_stripe_count(stripes) {
            return Err(Refusal::TooLong);
        }
        let editions = Editions::new(alloc, stripes + 2)?;
        Ok(QueueBase {
            cells: Cells::new(alloc)?,
            stripes,
            editions,
        })
    }

    /// A queue that holds this, with edition 0 for each location. What another kind of collection holds is refused as NoSuch,
    /// and else a number of stripes that `new` refuses, or items whose indexes would pass `INDEX_LIMIT`, as TooLong. Only then
    /// memory is asked for.
    pub fn open<V: Drop>(alloc: Global, stripes: u32, held: Held<V>) -> Result<QueueBase, Refusal>
        ensures shown { IfOk result (λ base. view_of held ≡ Some base.shown) }
        ensures stripes { IfOk result (λ base. base.stripes ≡ stripes) }
        ensures editions { IfOk result (λ base. base.editions ≡ replicate (stripes + 2) 0) }
        ensures refused { IfErr result
            (λ refusal. IsNoSuchOrTooLong refusal (view_of held ≡ None) (IsStripeCount stripes × IsWithinLimits held)) }
        ensures fits { IsOk result → IsStripeCount stripes × IsWithinLimits held }
    {
        match held {
            Held::Queue { head, items } => QueueBase::of_items(
                alloc,
                stripes,
                head,
                items.into_vec().as_slice(),
            ),
            _ => Err(Refusal::NoSuch),
        }
    }

    fn of_items(alloc: Global, stripes: u32, head: u64, items: &[u64]) -> Result<QueueBase, Refusal>
        ensures shown { IfOk result (λ base. base.shown ≡ queue_view head items.now) }
        ensures stripes { IfOk result (λ base. base.stripes ≡ stripes) }
        ensures editions { IfOk result (λ base. base.editions ≡ replicate (stripes + 2) 0) }
        ensures refused { IfErr result
            (λ refusal. IsTooLong refusal (IsStripeCount stripes × (head + length items.now ≤ INDEX_LIMIT))) }
        ensures fits { IsOk result → IsStripeCount stripes × (head + length items.now ≤ INDEX_LIMIT) }
    {
        if !is_stripe_count(stripes) {
            return Err(Refusal::TooLong);
        }
        if head > INDEX_LIMIT || items.len() as u64 > INDEX_LIMIT - head {
            return Err(Refusal::TooLong);
        }
        let editions = Editions::new(alloc, stripes + 2)?;
        let cells = Cells::of_items(alloc, head, items)?;
        Ok(QueueBase {
            cells,
            stripes,
            editions,
        })
    }

    /// What the queue holds: its head, and the items by rising index. `Memory` where an allocation fails.
    pub fn held<V>(&self) -> Result<Held<V>, Memory>
        ensures { IfOk result (λ held. held ≡ (rules V).held_of self.now.shown) }
    {
        let items = self.cells.to_items(self.editions.allocator())?;
        Ok(Held::Queue {
            head: self.cells.head(),
            items,
        })
    }

    /// The outcome that the call has here. A call of another kind is refused as NoSuch, and nothing else is refused.
    pub fn outcome<V>(&self, op: &Op<V>) -> Result<Outcome<V>, Refusal>
        ensures ok { IfOk result (λ outcome. outcome_of op.now self.now.shown ≡ Some outcome) }
        ensures refused { IfErr result (λ refusal. IsRefusal refusal (outcome_of op.now self.now.shown ≡ None)) }
        ensures served { ¬ (outcome_of op.now self.now.shown ≡ None) → IsOk result }
    {
        let head = Note::Index(self.cells.head());
        let (op, reply, note) = match op {
            Op::Enqueue(item) => return Ok(self.enqueue_outcome(*item)),
            Op::Dequeue => (Op::Dequeue, self.cells.first(), head),
            Op::Peek => (Op::Peek, self.cells.first(), head),
            Op::Len => (Op::Len, Reply::Number(self.len()), Note::Plain),
            _ => return Err(Refusal::NoSuch),
        };
        Ok(Outcome { op, reply, note })
    }

    fn len(&self) -> u64
        ensures { result ≡ self.now.shown.tail - self.now.shown.head }
    {
        self.cells.tail().saturating_sub(self.cells.head())
    }

    fn enqueue_outcome<V>(&self, item: u64) -> Outcome<V>
        ensures { outcome_of (Op.Enqueue item) self.now.shown ≡ Some result }
    {
        let tail = self.cells.tail();
        if tail < INDEX_LIMIT {
            Outcome {
                op: Op::Enqueue(item),
                reply: Reply::Done,
                note: Note::Index(tail),
            }
        } else {
            Outcome {
                op: Op::Enqueue(item),
                reply: Reply::Full,
                note: Note::Plain,
            }
        }
    }

    fn cell(&self, index: u64) -> u32
        ensures place { result ≡ cell_location self.now.stripes index }
        ensures after { 1 < result }
    {
        (index % self.stripes as u64) as u32 + 2
    }

    /// The locations that the outcome reads. They are never refused.
    pub fn reads<V>(&self, outcome: &Outcome<V>) -> Result<LocSet, Memory>
        ensures locations { IfOk result (λ set. set ≡ reads_of self.now.stripes outcome.now) }
        ensures served { IsOk result }
    {
        let alloc = self.editions.allocator();
        Ok(match (&outcome.op, outcome.note) {
            (Op::Enqueue(_), Note::Index(tail)) => LocSet::pair(alloc, 1, self.cell(tail)),
            (Op::Enqueue(_), _) => LocSet::single(alloc, 1),
            (Op::Dequeue | Op::Peek, Note::Index(head)) => LocSet::pair(alloc, 0, self.cell(head)),
            (Op::Len, _) => LocSet::pair(alloc, 0, 1),
            _ => LocSet::empty(alloc),
        })
    }

    /// The locations that the outcome writes. They are never refused.
    pub fn writes<V>(&self, outcome: &Outcome<V>) -> Result<LocSet, Memory>
        ensures locations { IfOk result (λ set. set ≡ writes_of self.now.stripes outcome.now) }
        ensures served { IsOk result }
    {
        let alloc = self.editions.allocator();
        Ok(match (&outcome.op, &outcome.reply, outcome.note) {
            (Op::Enqueue(_), Reply::Done, Note::Index(tail)) => {
                LocSet::pair(alloc, 1, self.cell(tail))
            }
            (Op::Dequeue, Reply::Found(_), Note::Index(head)) => {
                LocSet::pair(alloc, 0, self.cell(head))
            }
            _ => LocSet::empty(alloc),
        })
    }

    /// What the outcome changes. Where that is nothing, it is never refused.
    pub fn changes<V: Drop>(&self, outcome: &Outcome<V>) -> Result<Changes<V>, Memory>
        ensures changes { IfOk result (λ changes. changes.items ≡ changes_of outcome.now) }
        ensures served { changes_of outcome.now ≡ [] → IsOk result }
    {
        let mut changes = Vec::new(self.editions.allocator());
        if let Some(change) = change_in(outcome) {
            changes.push(change)?;
        }
        Ok(changes)
    }

    /// Makes room for the changes. The queue is unchanged and keeps its room, also where an allocation fails. Where there is room already,
    /// nothing is refused.
    pub fn prepare<V>(&mut self, changes: &[Change<V>]) -> Result<(), Memory>
        ensures shown { self.new.shown ≡ self.old.shown }
        ensures stripes { self.new.stripes ≡ self.old.stripes }
        ensures editions { self.new.editions ≡ self.old.editions }
        ensures ok { OnOk result (length changes.now ≤ self.new.room) }
        ensures room { self.old.room ≤ self.new.room }
        ensures served { length changes.now ≤ self.old.room → IsOk result }
    {
        self.cells.reserve(changes.len())
    }

    /// Applies the changes in order, and raises the edition of each written location by one. There has to be room for the
    /// changes, so it takes no memory and is never refused. It uses up the room for these changes alone.
    pub fn replay<V: Drop>(&mut self, mut changes: Changes<V>, written: &LocSet)
        requires prepared { length changes.items ≤ self.old.room }
        requires within { All (λ location. location < self.old.stripes + 2) written.now }
        requires below { All (λ location. slice_index self.old.editions location < 2 ^ 63) written.now }
        ensures shown { self.new.shown ≡ applied (rules V) changes.items self.old.shown }
        ensures stripes { self.new.stripes ≡ self.old.stripes }
        ensures editions { self.new.editions ≡ raised written.now self.old.editions }
        ensures room { self.old.room ≤ self.new.room + length changes.items }
    {
        self.replay_from(&mut changes, written);
    }

    /// What `replay` does, of the changes in a list that is left empty and keeps its memory.
    pub fn replay_from<V: Drop>(&mut self, changes: &mut Vec<Change<V>>, written: &LocSet)
        requires prepared { length changes.old.items ≤ self.old.room }
        requires within { All (λ location. location < self.old.stripes + 2) written.now }
        requires below { All (λ location. slice_index self.old.editions location < 2 ^ 63) written.now }
        ensures shown { self.new.shown ≡ applied (rules V) changes.old.items self.old.shown }
        ensures stripes { self.new.stripes ≡ self.old.stripes }
        ensures editions { self.new.editions ≡ raised written.now self.old.editions }
        ensures room { self.old.room ≤ self.new.room + length changes.old.items }
        ensures emptied { changes.new.items ≡ [] }
        ensures capacity { vec_capacity changes.new ≡ vec_capacity changes.old }
    {
        apply_changes(&mut self.cells, changes);
        self.editions.raise(written);
    }

    /// In how many stripes the queue is.
    pub fn stripes(&self) -> u32
        ensures { result ≡ self.now.stripes }
    {
        self.stripes
    }

    /// The edition of the location: how many replays have written it.
    pub fn edition(&self, location: u32) -> u64
        requires { location < self.now.stripes + 2 }
        ensures { result ≡ slice_index self.now.editions location }
    {
        self.editions.edition(location)
    }

    /// A queue that holds the same, with the same editions. `Memory` where an allocation fails.
    pub fn try_copy(&self) -> Result<QueueBase, Memory>
        ensures shown { IfOk result (λ copy. copy.shown ≡ self.now.shown) }
        ensures stripes { IfOk result (λ copy. copy.stripes ≡ self.now.stripes) }
        ensures editions { IfOk result (λ copy. copy.editions ≡ self.now.editions) }
    {
        Ok(QueueBase {
            cells: self.cells.try_copy()?,
            stripes: self.stripes,
            editions: self.editions.try_copy()?,
        })
    }

    /// Becomes a queue that holds the same as the other, with its editions, in the memory that it has as far as that suffices. Where an
    /// allocation fails, what it holds is left open.
    pub fn copy_from(&mut self, other: &QueueBase) -> Result<(), Memory>
        ensures shown { OnOk result (self.new.shown ≡ other.now.shown) }
        ensures stripes { OnOk result (self.new.stripes ≡ other.now.stripes) }
        ensures editions { OnOk result (self.new.editions ≡ other.now.editions) }
    {
        if self.stripes != other.stripes {
            *self = other.try_copy()?;
            return Ok(());
        }
        self.cells.copy_from(&other.cells)?;
        self.editions.copy_from(&other.editions);
        Ok(())
    }
}

/// What the outcome changes in a queue, which is one thing at most. It takes no memory.
pub fn change_in<V>(outcome: &Outcome<V>) -> Option<Change<V>>
    ensures { option_to_list result ≡ changes_of outcome.now }
{
    match (&outcome.op, &outcome.reply, outcome.note) {
        (Op::Enqueue(item), Reply::Done, Note::Index(tail)) => Some(Change::Enqueue(tail, *item)),
        (Op::Dequeue, Reply::Found(_), Note::Index(head)) => Some(Change::Dequeue(head)),
        _ => None,
    }
}

fn apply_changes<V: Drop>(cells: &mut Cells, changes: &mut Vec<Change<V>>)
    requires { length changes.old.items ≤ cells.old.room }
    ensures shown { cells.new.shown ≡ applied (rules V) changes.old.items cells.old.shown }
    ensures room { cells.old.room ≤ cells.new.room + length changes.old.items }
    ensures emptied { changes.new.items ≡ [] }
    ensures capacity { vec_capacity changes.new ≡ vec_capacity changes.old }
{
    changes.reverse();
    while let Some(change) = changes.pop() {
        cells.change(change);
    }
}

impl<V: Value> Conflict<V> for QueueBase {
    ghost use Rattle.std.specs.Prelude.{◌≡◌, ℕ, Option};
    ghost use Rattle.base_queue.specs.Conflicts.{Shown, rules};
    ghost use Rattle.base_queue.specs.FrameLemmas.{laws};

    ghost Shown = { Shown };

    ghost Point = { ℕ };

    ghost Answer = { Option ℕ };

    ghost rules = { rules V };

    ghost shown = { λ s. s.shown };

    ghost stripes = { λ s. s.stripes };

    fn outcome(&self, op: &Op<V>) -> Result<Outcome<V>, Refusal> {
        QueueBase::outcome(self, op)
    }

    fn reads(&self, outcome: &Outcome<V>) -> Result<LocSet, Memory> {
        QueueBase::reads(self, outcome)
    }

    fn writes(&self, outcome: &Outcome<V>) -> Result<LocSet, Memory> {
        QueueBase::writes(self, outcome)
    }

    fn changes(&self, outcome: &Outcome<V>) -> Result<Changes<V>, Memory> {
        QueueBase::changes(self, outcome)
    }

    ghost laws = { laws };
}
