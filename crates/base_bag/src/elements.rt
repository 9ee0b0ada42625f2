//! The elements of a multiset with the numbers of their copies. An element without copies is not kept.
ghost use Rattle.std.specs.Prelude.{◌≡◌, ◌+◌, ◌<◌, ◌≤◌, IsOk, IfOk, OnOk};
ghost use Rattle.std.specs.FinMap.{empty};
ghost use Rattle.seq_model.specs.Counts.{copies, with_copies};
ghost use Rattle.base_bag.specs.Conflicts.{change_multiset};

use conflict::{Change, RoomMap};
use seq_model::{COPY_LIMIT, Counts, Memory, counts_of};
use std::alloc::Global;
use std::marker::Model;

/// A multiset with room for more elements.
#[derive(Drop)]
pub struct Elements {
    table: RoomMap<u64>,
}

impl Model for Elements {
    ghost use Rattle.std.specs.Prelude.{ℕ};
    ghost use Rattle.std.specs.Ordering.{nat_cmp};
    ghost use Rattle.std.specs.FinMap as map;
    ghost use Rattle.std.specs.Coded.{coded_ℕ};
    ghost use Rattle.seq_model.specs.Counts.{HasNoZero};
    ghost use Rattle.conflict.specs.BaseView.{RoomyView, roomy_view_code};

    ghost Value = { RoomyView (map.FinMap nat_cmp ℕ) };

    ghost coded = { roomy_view_code (map.code coded_ℕ coded_ℕ) };

    ghost view = { λ a. record { shown = a.table.contents; room = a.table.room } };

    ghost invariant = { λ a. HasNoZero a.table.contents };
}

impl Elements {
    /// The empty multiset. It takes no memory.
    pub fn new(alloc: Global) -> Elements
        ensures { result.shown ≡ empty }
    {
        Elements {
            table: RoomMap::new(alloc),
        }
    }

    /// These elements with their copies. `Memory` where an allocation fails.
    pub fn of_counts(alloc: Global, counts: Counts) -> Result<Elements, Memory>
        ensures { IfOk result (λ elements. elements.shown ≡ counts) }
    {
        let table = RoomMap::of_entries(alloc, counts.into_entries())?;
        Ok(Elements { table })
    }

    /// A copy of the elements with the numbers of their copies. `Memory` where an allocation fails.
    pub fn to_counts(&self) -> Result<Counts, Memory>
        ensures { IfOk result (λ counts. counts ≡ self.now.shown) }
    {
        Ok(counts_of(self.table.to_entries()?))
    }

    /// How many copies of the element there are, 0 for one that is not there.
    pub fn copies(&self, element: u64) -> u64
        ensures { result ≡ copies self.now.shown element }
    {
        self.table.get(element).copied().unwrap_or(0)
    }

    /// Makes room for this many changes. Where there is room for them, it takes no memory.
    pub fn reserve(&mut self, more: usize) -> Result<(), Memory>
        ensures shown { self.new.shown ≡ self.old.shown }
        ensures ok { OnOk result (more ≤ self.new.room) }
        ensures room { self.old.room ≤ self.new.room }
        ensures served { more ≤ self.old.room → IsOk result }
    {
        self.table.reserve(more)
    }

    /// Makes one change, which takes no memory.
    pub fn change<V: Drop>(&mut self, change: Change<V>)
        requires { 0 < self.old.room }
        ensures shown { self.new.shown ≡ change_multiset self.old.shown change }
        ensures room { self.old.room ≤ self.new.room + 1 }
    {
        match change {
            Change::Add(element) => {
                let count = self.copies(element);
                if count < COPY_LIMIT {
                    self.set_copies(element, count + 1);
                }
            }
            Change::Take(element) => {
                let count = self.copies(element);
                self.set_copies(element, count.saturating_sub(1));
            }
            _ => {}
        }
    }

    fn set_copies(&mut self, element: u64, count: u64)
        requires { 0 < self.old.room }
        ensures shown { self.new.shown ≡ with_copies self.old.shown element count }
        ensures room { self.old.room ≤ self.new.room + 1 }
    {
        if count == 0 {
            self.table.remove(element);
        } else {
            self.table.insert_reserved(element, count);
        }
    }

    /// An equal multiset. `Memory` where an allocation fails.
    pub fn try_copy(&self) -> Result<Elements, Memory>
        ensures { IfOk result (λ copy. copy.shown ≡ self.now.shown) }
    {
        let table = self.table.try_copy()?;
        Ok(Elements { table })
    }
}
