//! A hash map with numbers as keys, which contracts see as a finite map and the room for more entries. The room is what lets
//! a replay be proved to take no memory: `reserve` promises it, and `insert_reserved` needs it.
ghost use Rattle.std.specs.Prelude.{◌≡◌, ◌+◌, ◌^◌, ◌<◌, ◌≤◌, IsOk, IfOk, OnOk, length, replicate, slice_index, slice_set};
ghost use Rattle.std.specs.Option.{option_copied};
ghost use Rattle.std.specs.FinMap as map;
ghost use Rattle.conflict.specs.Counts.{stripe_counts};

use indexmap::IndexMap;
use seq_model::{Entries, Items, Memory, Value};
use std::alloc::Global;
use std::marker::Model;

/// A finite map from numbers. Its order of entries is left open.
pub struct RoomMap<V> {
    entries: IndexMap<u64, V>,
    alloc: Global,
}

impl<V: Drop> Drop for RoomMap<V> {
    fn drop(self) {
        let RoomMap {
            entries: _,
            alloc: _,
        } = self;
    }
}

impl<V> Model for RoomMap<V> {
    ghost use Rattle.conflict.specs.RoomMap.{Room, room_code, room_of};
    ghost use Rattle.conflict.specs.Lookups.{IsUnique};

    ghost Value = { Room V };

    ghost coded = { room_code V.code };

    ghost view = { λ a. room_of a.entries };

    ghost invariant = { λ a. IsUnique a.entries };
}

impl<V: Drop> RoomMap<V> {
    /// The empty map. It takes no memory.
    pub fn new(alloc: Global) -> RoomMap<V>
        ensures { result.contents ≡ map.empty }
    {
        RoomMap {
            entries: IndexMap::new(alloc),
            alloc,
        }
    }

    /// How many keys there are.
    pub fn len(&self) -> usize
        ensures { result ≡ map.len self.now.contents }
    {
        self.entries.len()
    }

    /// The value of the key, if it has one.
    pub fn get(&self, key: u64) -> Option<&V>
        ensures { option_copied result ≡ map.get self.now.contents key }
    {
        self.entries.get(&key)
    }

    /// How many keys are on each of so many stripes, in order: a key is on that of its remainder. `Memory` where an allocation for the list
    /// fails.
    pub fn counts(&self, stripes: u32) -> Result<Items<u64>, Memory>
        requires { 0 < stripes }
        ensures { IfOk result (λ counts. counts ≡ stripe_counts stripes self.now.contents) }
    {
        let mut counts = no_counts(self.alloc, stripes)?;
        for (key, _) in self.entries.iter() {
            count_one(&mut counts, (*key % stripes as u64) as usize);
        }
        Ok(Items::from_vec(counts))
    }

    /// Makes room for this many more entries. Where there is room for them, it takes no memory.
    pub fn reserve(&mut self, more: usize) -> Result<(), Memory>
        ensures contents { self.new.contents ≡ self.old.contents }
        ensures ok { OnOk result (more ≤ self.new.room) }
        ensures room { self.old.room ≤ self.new.room }
        ensures served { more ≤ self.old.room → IsOk result }
    {
        self.entries.reserve(more)?;
        Ok(())
    }

    /// Gives the key the value. It takes no memory, and at most one place of the room.
    #[inline(always)]
    pub fn insert_reserved(&mut self, key: u64, value: V)
        requires { 0 < self.old.room }
        ensures contents { self.new.contents ≡ map.insert self.old.contents key value }
        ensures room { self.old.room ≤ self.new.room + 1 }
    {
        let _ = self.entries.insert(key, value).unwrap();
    }

    /// Takes all keys out. The memory is kept.
    pub fn clear(&mut self)
        ensures contents { self.new.contents ≡ map.empty }
        ensures room { self.old.room ≤ self.new.room }
    {
        self.entries.clear();
    }

    /// Takes the key out, if it is there. The room is kept.
    pub fn remove(&mut self, key: u64)
        ensures contents { self.new.contents ≡ map.remove self.old.contents key }
        ensures room { self.old.room ≤ self.new.room }
    {
        let _ = self.entries.swap_remove(&key);
    }
}

impl<V: Value> RoomMap<V> {
    /// A table of these entries. `Memory` where an allocation fails; the entries are dropped then.
    pub fn of_entries(alloc: Global, entries: Entries<V>) -> Result<RoomMap<V>, Memory>
        ensures { IfOk result (λ table. table.contents ≡ entries) }
    {
        let mut table = RoomMap::new(alloc);
        table.reserve(entries.len())?;
        for (key, value) in entries.into_iter() {
            table.insert_reserved(key, value);
        }
        Ok(table)
    }

    /// A table with copies of the values. `Memory` where an allocation fails.
    pub fn try_copy(&self) -> Result<RoomMap<V>, Memory>
        ensures { IfOk result (λ copy. copy.contents ≡ self.now.contents) }
    {
        let mut copy = RoomMap::new(self.alloc);
        copy.copy_from(self)?;
        Ok(copy)
    }

    /// Becomes a copy of the other, in the memory that it has as far as that suffices. Where an allocation fails, what it holds is left
    /// open.
    pub fn copy_from(&mut self, other: &RoomMap<V>) -> Result<(), Memory>
        ensures { OnOk result (self.new.contents ≡ other.now.contents) }
    {
        self.clear();
        self.reserve(other.entries.len())?;
        for (key, value) in other.entries.iter() {
            self.insert_reserved(*key, value.try_copy()?);
        }
        Ok(())
    }

    /// Copies of the entries, in the order of their keys. `Memory` where an allocation fails.
    pub fn to_entries(&self) -> Result<Entries<V>, Memory>
        ensures { IfOk result (λ entries. entries ≡ self.now.contents) }
    {
        let mut entries = Entries::new(self.alloc);
        for (key, value) in self.entries.iter() {
            entries.insert(*key, value.try_copy()?)?;
        }
        Ok(entries)
    }
}

fn no_counts(alloc: Global, stripes: u32) -> Result<Vec<u64>, Memory>
    ensures { IfOk result (λ counts. counts.items ≡ replicate stripes 0) }
{
    Ok(vec![in alloc; 0; stripes as usize]?)
}

fn count_one(counts: &mut Vec<u64>, stripe: usize)
    requires within { stripe < length counts.old.items }
    requires below { slice_index counts.old.items stripe < 2 ^ 63 }
    ensures { counts.new.items ≡ slice_set counts.old.items stripe (slice_index counts.old.items stripe + 1) }
{
    counts[stripe] += 1;
}
