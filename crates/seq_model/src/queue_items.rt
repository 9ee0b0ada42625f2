//! The items of a queue.
ghost use Rattle.std.specs.Prelude.{◌≡◌, ◌++◌, ◌∷◌, [], length, take, drop, ◌↔◌, IsTrue, IfOk, OnOk, OnErr};
ghost use Rattle.seq_model.specs.Queues.{first_of, rest_of};

use crate::refusal::Memory;
use std::alloc::Global;
use std::collections::VecDeque;
use std::marker::Model;

/// The items of a queue, first to last. Contracts see the list; neither end costs more than a constant.
pub struct QueueItems {
    items: VecDeque<u64>,
}

impl Drop for QueueItems {
    fn drop(self) {
        let QueueItems { items: _ } = self;
    }
}

impl Model for QueueItems {
    ghost use Rattle.std.specs.Prelude.{List, ℕ};

    ghost Value = { List ℕ };

    ghost view = { λ a. a.items.items };
}

impl QueueItems {
    /// No items. It takes no memory.
    pub fn new(alloc: Global) -> QueueItems
        ensures { result ≡ [] }
    {
        QueueItems {
            items: VecDeque::new(alloc),
        }
    }

    /// These items, first to last, in the memory that they have.
    pub fn from_vec(items: Vec<u64>) -> QueueItems
        ensures { result ≡ items.items }
    {
        QueueItems {
            items: VecDeque::from_vec(items),
        }
    }

    /// The items, first to last, in a vector. It takes no memory.
    pub fn into_vec(self) -> Vec<u64>
        ensures { result.items ≡ self }
    {
        let QueueItems { items } = self;
        items.into_vec()
    }

    /// The items, first to last, in two pieces.
    pub fn as_slices(&self) -> (&[u64], &[u64])
        ensures { result.0.now ++ result.1.now ≡ self.now }
    {
        self.items.as_slices()
    }

    /// How many items there are.
    pub fn len(&self) -> usize
        ensures { result ≡ length self.now }
    {
        self.items.len()
    }

    /// The first item, if there is one.
    pub fn first(&self) -> Option<u64>
        ensures { result ≡ first_of self.now }
    {
        self.items.front().copied()
    }

    /// Adds an item after the last. `Memory` where an allocation fails, which leaves the items as they were.
    pub fn push(&mut self, item: u64) -> Result<(), Memory>
        ensures ok { OnOk result (self.new ≡ self.old ++ item ∷ []) }
        ensures err { OnErr result (self.new ≡ self.old) }
    {
        self.items.push_back(item)?;
        Ok(())
    }

    /// The item at this position, where there is one.
    pub fn get(&self, place: usize) -> Option<u64>
        ensures { result ≡ first_of (drop place self.now) }
    {
        self.items.get(place).copied()
    }

    /// Adds copies of items after the last. `Memory` where an allocation fails, which leaves the items as they were.
    pub fn append(&mut self, more: &QueueItems) -> Result<(), Memory>
        ensures ok { OnOk result (self.new ≡ self.old ++ more.now) }
        ensures err { OnErr result (self.new ≡ self.old) }
    {
        let mut copy = more.try_copy()?;
        self.items.append(&mut copy.items)?;
        Ok(())
    }

    /// Keeps the first items, so many of them.
    pub fn truncate(&mut self, len: usize)
        ensures { self.new ≡ take len self.old }
    {
        self.items.truncate(len);
    }

    /// Takes the first item out, where there is one.
    pub fn take_first(&mut self) -> Option<u64>
        ensures first { result ≡ first_of self.old }
        ensures rest { self.new ≡ rest_of self.old }
    {
        self.items.pop_front()
    }

    /// Equal items. `Memory` where an allocation fails.
    pub fn try_copy(&self) -> Result<QueueItems, Memory>
        ensures { IfOk result (λ copy. copy ≡ self.now) }
    {
        let (front, back) = self.items.as_slices();
        let mut items = Vec::from_slice(*self.items.allocator(), front)?;
        items.extend_from_slice(back)?;
        Ok(QueueItems::from_vec(items))
    }

    /// Whether both have the same items in the same order.
    pub fn same(&self, other: &QueueItems) -> bool
        ensures { IsTrue result ↔ (self.now ≡ other.now) }
    {
        self.items == other.items
    }
}
