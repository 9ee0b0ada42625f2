//! The items of a queue by their indexes. An item keeps its index for as long as it stands in the queue, and no index returns.
ghost use Rattle.std.specs.Prelude.{◌≡◌, ◌+◌, ◌-◌, ◌<◌, ◌≤◌, [], Some, None, IsOk, IfOk, OnOk, length, drop};
ghost use Rattle.std.specs.FinMap.{get, insert, remove, values};
ghost use Rattle.seq_model.specs.Calls.{found_reply};
ghost use Rattle.base_queue.specs.Conflicts.{cells_from, change_shown, queue_view};
ghost use Rattle.base_queue.specs.SharedList.{with_odd};

use crate::shared_list::SharedList;
use conflict::Change;
use seq_model::{Entries, INDEX_LIMIT, Memory, QueueItems, Reply};
use std::alloc::Global;
use std::marker::Model;

/// Cells that hold items, the index of the first item, and the index that the next one gets.
#[derive(Drop)]
pub struct Cells {
    /// The items from index `first` on, after as many as are gone.
    items: SharedList,
    gone: usize,
    first: u64,
    /// What has become of single cells, in order, since a change came that no call makes: an item at another index than the next, or one
    /// taken out elsewhere than at the front.
    odd: Vec<(u64, Option<u64>)>,
    head: u64,
    tail: u64,
}

impl Model for Cells {
    ghost use Rattle.std.specs.Prelude.{◌+◌, ◌-◌, ◌≤◌, min, length, drop};
    ghost use Rattle.std.specs.Vec.{vec_capacity, vec_len};
    ghost use Rattle.seq_model.specs.declared.limits.TheConstants.{INDEX_LIMIT};
    ghost use Rattle.conflict.specs.BaseView.{RoomyView, roomy_view_code};
    ghost use Rattle.base_queue.specs.Conflicts.{Shown, shown_code, cells_from};
    ghost use Rattle.base_queue.specs.SharedList.{with_odd};

    ghost Value = { RoomyView Shown };

    ghost coded = { roomy_view_code shown_code };

    ghost view = { λ a. record {
      shown = record { cells = with_odd (cells_from a.first (drop a.gone a.items.items)) a.odd.items; head = a.head; tail = a.tail };
      room = min a.items.room (vec_capacity a.odd - vec_len a.odd);
    } };

    ghost invariant = { λ a. (a.head ≤ INDEX_LIMIT) × (a.tail ≤ INDEX_LIMIT) × (a.gone ≤ length a.items.items)
        × (a.gone ≤ a.first) × (a.first + (length a.items.items - a.gone) ≤ INDEX_LIMIT) };
}

impl Cells {
    /// No item, and the next one gets index 0. `Memory` where an allocation fails.
    pub fn new(alloc: Global) -> Result<Cells, Memory>
        ensures { IfOk result (λ cells. cells.shown ≡ queue_view 0 []) }
    {
        Cells::of_items(alloc, 0, &[])
    }

    /// Items from this index on. `Memory` where an allocation fails.
    pub fn of_items(alloc: Global, head: u64, items: &[u64]) -> Result<Cells, Memory>
        requires { head + length items.now ≤ INDEX_LIMIT }
        ensures { IfOk result (λ cells. cells.shown ≡ queue_view head items.now) }
    {
        Ok(Cells {
            items: SharedList::of_slice(alloc, items)?,
            gone: 0,
            first: head,
            odd: Vec::new(alloc),
            head,
            tail: head + items.len() as u64,
        })
    }

    /// The index of the first item.
    pub fn head(&self) -> u64
        ensures { result ≡ self.now.shown.head }
    {
        self.head
    }

    /// The index that the next item gets.
    pub fn tail(&self) -> u64
        ensures { result ≡ self.now.shown.tail }
    {
        self.tail
    }

    /// What a call that looks at the first item answers.
    pub fn first<V>(&self) -> Reply<V>
        ensures { result ≡ found_reply (get self.now.shown.cells self.now.shown.head) }
    {
        match self.item(self.head) {
            Some(item) => Reply::Found(item),
            None => Reply::Nothing,
        }
    }

    fn item(&self, index: u64) -> Option<u64>
        ensures { result ≡ get self.now.shown.cells index }
    {
        let mut at = self.odd.len();
        while at > 0 {
            at -= 1;
            if self.odd[at].0 == index {
                return self.odd[at].1;
            }
        }
        standing(&self.items, self.gone, self.first, index)
    }

    /// Makes room for this many changes. Where there is room for them, it is never refused.
    pub fn reserve(&mut self, more: usize) -> Result<(), Memory>
        ensures shown { self.new.shown ≡ self.old.shown }
        ensures ok { OnOk result (more ≤ self.new.room) }
        ensures room { self.old.room ≤ self.new.room }
        ensures served { more ≤ self.old.room → IsOk result }
    {
        self.gone -= self.items.settle(self.gone);
        self.items.reserve(more)?;
        self.odd.reserve(more)?;
        Ok(())
    }

    /// Makes one change, which takes no memory. An index past the limit is no change.
    pub fn change<V: Drop>(&mut self, change: Change<V>)
        requires { 0 < self.old.room }
        ensures shown { self.new.shown ≡ change_shown self.old.shown change }
        ensures room { self.old.room ≤ self.new.room + 1 }
    {
        match change {
            Change::Enqueue(index, item) => {
                if index < INDEX_LIMIT {
                    self.put_in(index, item);
                    self.tail = index + 1;
                }
            }
            Change::Dequeue(index) => {
                if index < INDEX_LIMIT {
                    self.take_out(index);
                    self.head = index + 1;
                }
            }
            _ => {}
        }
    }

    // Puts an item into the cell of an index.
    fn put_in(&mut self, index: u64, item: u64)
        requires room { 0 < self.old.room }
        requires below { index < INDEX_LIMIT }
        ensures cells { self.new.shown.cells ≡ insert self.old.shown.cells index item }
        ensures ends { (self.new.shown.head ≡ self.old.shown.head) × (self.new.shown.tail ≡ self.old.shown.tail) }
        ensures room { self.old.room ≤ self.new.room + 1 }
    {
        let left = (self.items.len() - self.gone) as u64;
        if self.odd.is_empty() && index == self.first + left {
            self.items.push(item);
        } else {
            self.odd.push_reserved((index, Some(item)));
        }
    }

    // Empties the cell of an index.
    fn take_out(&mut self, index: u64)
        requires room { 0 < self.old.room }
        ensures cells { self.new.shown.cells ≡ remove self.old.shown.cells index }
        ensures ends { (self.new.shown.head ≡ self.old.shown.head) × (self.new.shown.tail ≡ self.old.shown.tail) }
        ensures room { self.old.room ≤ self.new.room + 1 }
    {
        if self.odd.is_empty() && index == self.first && self.gone < self.items.len() {
            self.gone += 1;
            self.first += 1;
        } else {
            self.odd.push_reserved((index, None));
        }
    }

    /// The items, by rising index. `Memory` where an allocation fails.
    pub fn to_items(&self, alloc: Global) -> Result<QueueItems, Memory>
        ensures { IfOk result (λ items. items ≡ values self.now.shown.cells) }
    {
        let mut entries = Entries::new(alloc);
        let mut index = self.first;
        for place in self.gone..self.items.len() {
            entries.insert(index, self.items.at(place))?;
            index += 1;
        }
        for (index, item) in self.odd.as_slice() {
            match item {
                Some(item) => {
                    entries.insert(*index, *item)?;
                }
                None => {
                    entries.remove(*index);
                }
            }
        }
        let mut items = QueueItems::new(alloc);
        for (_, item) in entries.into_iter() {
            items.push(item)?;
        }
        Ok(items)
    }

    /// A copy, which shares the chunks. `Memory` where an allocation for the last few items fails, or the chunks can't be shared.
    pub fn try_copy(&self) -> Result<Cells, Memory>
        ensures { IfOk result (λ copy. copy.shown ≡ self.now.shown) }
    {
        Ok(Cells {
            items: self.items.try_copy()?,
            gone: self.gone,
            first: self.first,
            odd: Vec::from_slice(*self.odd.allocator(), self.odd.as_slice())?,
            head: self.head,
            tail: self.tail,
        })
    }

    /// Becomes a copy of the others, in the memory that they have as far as that suffices.
    pub fn copy_from(&mut self, others: &Cells) -> Result<(), Memory>
        ensures { OnOk result (self.new.shown ≡ others.now.shown) }
    {
        self.items.copy_from(&others.items)?;
        self.gone = others.gone;
        self.first = others.first;
        self.head = others.head;
        self.tail = others.tail;
        self.odd.clear();
        self.odd.extend_from_slice(others.odd.as_slice())?;
        Ok(())
    }
}

// The item of this index, where the items from `first` on stand after as many as are gone.
fn standing(items: &SharedList, gone: usize, first: u64, index: u64) -> Option<u64>
    requires gone { gone ≤ length items.now.items }
    ensures { result ≡ get (cells_from first (drop gone items.now.items)) index }
{
    if index < first {
        return None;
    }
    let place = index - first;
    if place < (items.len() - gone) as u64 {
        Some(items.at(gone + place as usize))
    } else {
        None
    }
}
