//! What one collection holds, and the sequential call on it.
ghost use Rattle.std.specs.Prelude.{◌≡◌, ◌↔◌, ◌+◌, ◌≤◌, Some, None, Err, is_some, IsTrue, IfOk, IfErr, OnErr, length};
ghost use Rattle.std.specs.FinMap as map;
ghost use Rattle.seq_model.specs.declared.held.Held.TheVariants.{Map, Bag, Pq, Queue};
ghost use Rattle.seq_model.specs.Calls.{map_call, multiset_call, priority_queue_call, queue_call, held_call, add_call, value_reply};
ghost use Rattle.seq_model.specs.Calls.{found_reply, IsRefusal, IsWithinLimits, TakesMemory};
ghost use Rattle.seq_model.specs.Counts.{HasFewCopies};

use crate::call::{Op, Reply};
use crate::counts::Counts;
use crate::entries::Entries;
use crate::limits::{COPY_LIMIT, INDEX_LIMIT};
use crate::queue_items::QueueItems;
use crate::refusal::{Memory, Refusal};
use crate::value::Value;
use std::alloc::Global;

/// What one collection holds.
#[derive(Drop)]
pub enum Held<V> {
    /// A map from keys to values.
    Map(Entries<V>),
    /// A multiset.
    Bag(Counts),
    /// A multiset that is read by its least element.
    Pq(Counts),
    /// A queue; `head` is the index of its first item.
    Queue { head: u64, items: QueueItems },
}

impl<V> Reply<V> {
    // The value that a map held, if there was one.
    fn of_value(value: Option<V>) -> Reply<V>
        ensures { result ≡ value_reply value }
    {
        match value {
            Some(value) => Reply::Value(value),
            None => Reply::Nothing,
        }
    }

    // The element that was found, if there was one.
    fn of_element(element: Option<u64>) -> Reply<V>
        ensures { result ≡ found_reply element }
    {
        match element {
            Some(element) => Reply::Found(element),
            None => Reply::Nothing,
        }
    }
}

impl<V: Value> Entries<V> {
    /// The sequential call on one map. `NoSuch` where a map doesn't know the call, `Memory` where an allocation fails; either leaves the
    /// map as it was.
    pub fn apply(&mut self, op: &Op<V>) -> Result<Reply<V>, Refusal>
        ensures ok { IfOk result (λ reply. map_call op.now self.old ≡ Some (reply, self.new)) }
        ensures refused { IfErr result (λ refusal. IsRefusal refusal (map_call op.now self.old ≡ None)) }
        ensures err { OnErr result (self.new ≡ self.old) }
        ensures memory { result ≡ Err Refusal.Memory → TakesMemory op.now (Map self.old) }
    {
        match op {
            Op::Get(key) => match self.get(*key) {
                Some(value) => Ok(Reply::Value(value.try_copy()?)),
                None => Ok(Reply::Nothing),
            },
            Op::Put(key, value) => {
                let value = value.try_copy()?;
                let old = self.insert(*key, value)?;
                Ok(Reply::of_value(old))
            }
            Op::Remove(key) => Ok(Reply::of_value(self.remove(*key))),
            Op::Len => Ok(Reply::Number(self.len() as u64)),
            _ => Err(Refusal::NoSuch),
        }
    }
}

impl Counts {
    fn add<V>(&mut self, element: u64) -> Result<Reply<V>, Refusal>
        requires { HasFewCopies self.old }
        ensures within { HasFewCopies self.new }
        ensures ok { IfOk result (λ reply. add_call element self.old ≡ (reply, self.new)) }
        ensures refused { IfErr result (λ refusal. IsRefusal refusal ⊥) }
        ensures err { OnErr result (self.new ≡ self.old) }
        ensures memory { result ≡ Err Refusal.Memory → map.get self.old element ≡ None }
    {
        let count = self.copies(element);
        if count >= COPY_LIMIT {
            return Ok(Reply::Full);
        }
        self.set_copies(element, count + 1)?;
        Ok(Reply::Done)
    }

    fn apply_multiset<V>(&mut self, op: &Op<V>) -> Result<Reply<V>, Refusal>
        requires { HasFewCopies self.old }
        ensures within { HasFewCopies self.new }
        ensures ok { IfOk result (λ reply. multiset_call op.now self.old ≡ Some (reply, self.new)) }
        ensures refused { IfErr result (λ refusal. IsRefusal refusal (multiset_call op.now self.old ≡ None)) }
        ensures err { OnErr result (self.new ≡ self.old) }
        ensures memory { result ≡ Err Refusal.Memory → TakesMemory op.now (Bag self.old) }
    {
        match op {
            Op::Count(element) => Ok(Reply::Number(self.copies(*element))),
            Op::Add(element) => self.add(*element),
            Op::Take(element) => {
                let count = self.copies(*element);
                if count == 0 {
                    return Ok(Reply::No);
                }
                self.set_copies(*element, count - 1)?;
                Ok(Reply::Yes)
            }
            _ => Err(Refusal::NoSuch),
        }
    }

    fn apply_priority_queue<V>(&mut self, op: &Op<V>) -> Result<Reply<V>, Refusal>
        requires { HasFewCopies self.old }
        ensures within { HasFewCopies self.new }
        ensures ok { IfOk result (λ reply. priority_queue_call op.now self.old ≡ Some (reply, self.new)) }
        ensures refused { IfErr result (λ refusal. IsRefusal refusal (priority_queue_call op.now self.old ≡ None)) }
        ensures err { OnErr result (self.new ≡ self.old) }
        ensures memory { result ≡ Err Refusal.Memory → TakesMemory op.now (Pq self.old) }
    {
        match op {
            Op::Least => Ok(Reply::of_element(self.least())),
            Op::Insert(element) => self.add(*element),
            Op::TakeLeast => match self.least() {
                Some(element) => {
                    let count = self.copies(element);
                    self.set_copies(element, count.saturating_sub(1))?;
                    Ok(Reply::Found(element))
                }
                None => Ok(Reply::Nothing),
            },
            _ => Err(Refusal::NoSuch),
        }
    }
}

fn apply_queue<V>(head: &mut u64, items: &mut QueueItems, op: &Op<V>) -> Result<Reply<V>, Refusal>
    requires { head.old + length items.old ≤ INDEX_LIMIT }
    ensures ok { IfOk result
        (λ reply. queue_call op.now head.old items.old ≡ Some (reply, head.new, items.new)) }
    ensures refused { IfErr result (λ refusal. IsRefusal refusal (queue_call op.now head.old items.old ≡ None)) }
    ensures err { OnErr result ((head.new ≡ head.old) × (items.new ≡ items.old)) }
    ensures within { head.new + length items.new ≤ INDEX_LIMIT }
    ensures memory { result ≡ Err Refusal.Memory → TakesMemory op.now (Queue head.old items.old) }
{
    match op {
        Op::Enqueue(item) => {
            if *head + items.len() as u64 >= INDEX_LIMIT {
                return Ok(Reply::Full);
            }
            items.push(*item)?;
            Ok(Reply::Done)
        }
        Op::Dequeue => match items.take_first() {
            Some(first) => {
                *head += 1;
                Ok(Reply::Found(first))
            }
            None => Ok(Reply::Nothing),
        },
        Op::Peek => Ok(Reply::of_element(items.first())),
        Op::Len => Ok(Reply::Number(items.len() as u64)),
        _ => Err(Refusal::NoSuch),
    }
}

impl<V> Held<V> {
    /// Whether numbers of copies and queue indexes are within their limits.
    pub fn is_within_limits(&self) -> bool
        ensures { IsTrue result ↔ IsWithinLimits self.now }
    {
        match self {
            Held::Map(_) => true,
            Held::Bag(counts) | Held::Pq(counts) => counts.has_few_copies(),
            Held::Queue { head, items } => {
                *head <= INDEX_LIMIT && items.len() as u64 <= INDEX_LIMIT - *head
            }
        }
    }
}

impl<V> Held<V> {
    /// Whether the call is one of this kind of collection.
    pub fn serves(&self, op: &Op<V>) -> bool
        ensures { result ≡ is_some (held_call op.now self.now) }
    {
        match self {
            Held::Map(_) => matches!(op, Op::Get(_) | Op::Put(_, _) | Op::Remove(_) | Op::Len),
            Held::Bag(_) => matches!(op, Op::Count(_) | Op::Add(_) | Op::Take(_)),
            Held::Pq(_) => matches!(op, Op::Least | Op::Insert(_) | Op::TakeLeast),
            Held::Queue { .. } => {
                matches!(op, Op::Enqueue(_) | Op::Dequeue | Op::Peek | Op::Len)
            }
        }
    }
}

impl<V: Value> Held<V> {
    /// The sequential call on one collection. `NoSuch` where it is of a kind that doesn't know the call, `Memory` where an allocation
    /// fails; either leaves the collection as it was.
    pub fn apply(&mut self, op: &Op<V>) -> Result<Reply<V>, Refusal>
        requires { IsWithinLimits self.old }
        ensures within { IsWithinLimits self.new }
        ensures ok { IfOk result (λ reply. held_call op.now self.old ≡ Some (reply, self.new)) }
        ensures refused { IfErr result (λ refusal. IsRefusal refusal (held_call op.now self.old ≡ None)) }
        ensures err { OnErr result (self.new ≡ self.old) }
        ensures memory { result ≡ Err Refusal.Memory → TakesMemory op.now self.old }
    {
        match self {
            Held::Map(map) => map.apply(op),
            Held::Bag(counts) => counts.apply_multiset(op),
            Held::Pq(counts) => counts.apply_priority_queue(op),
            Held::Queue { head, items } => apply_queue(head, items, op),
        }
    }

    /// An equal collection. `Memory` where an allocation fails.
    pub fn try_copy(&self, alloc: Global) -> Result<Held<V>, Memory>
        ensures { IfOk result (λ copy. copy ≡ self.now) }
    {
        Ok(match self {
            Held::Map(map) => Held::Map(map.try_copy(alloc)?),
            Held::Bag(counts) => Held::Bag(counts.try_copy(alloc)?),
            Held::Pq(counts) => Held::Pq(counts.try_copy(alloc)?),
            Held::Queue { head, items } => Held::Queue {
                head: *head,
                items: items.try_copy()?,
            },
        })
    }

    /// Whether both are of one kind and hold the same.
    pub fn same(&self, other: &Held<V>) -> bool
        ensures { IsTrue result ↔ (self.now ≡ other.now) }
    {
        match (self, other) {
            (Held::Map(mine), Held::Map(theirs)) => mine.same(theirs),
            (Held::Bag(mine), Held::Bag(theirs)) => mine.same(theirs),
            (Held::Pq(mine), Held::Pq(theirs)) => mine.same(theirs),
            (
                Held::Queue { head, items },
                Held::Queue {
                    head: other_head,
                    items: other_items,
                },
            ) => *head == *other_head && items.same(other_items),
            _ => false,
        }
    }
}
