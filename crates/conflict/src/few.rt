//! Up to sixteen keys in a list, and more of them in a table. Contracts see what they see of the table: a finite map, and the room
//! for more entries.
ghost use Rattle.std.specs.Prelude.{◌≡◌, ◌+◌, ◌-◌, ◌<◌, ◌≤◌, [], IfOk, IsOk, OnErr, OnOk, false, length, min, nat_eq};
ghost use Rattle.std.specs.List.{position_or_len};
ghost use Rattle.std.specs.Option.{option_copied};
ghost use Rattle.std.specs.Ordering.{nat_cmp};
ghost use Rattle.std.specs.FinMap as map;
ghost use Rattle.conflict.specs.Few.{room_of};

use crate::table::RoomMap;
use seq_model::Memory;
use std::alloc::Global;
use std::marker::Model;

/// How many keys are few.
const FEW: usize = 16;

/// A finite map from numbers. Its keys stand in the list, or all in the table.
pub struct FewKeys<V> {
    few: Vec<(u64, V)>,
    many: RoomMap<V>,
    is_many: bool,
}

impl<V: Drop> Drop for FewKeys<V> {
    fn drop(self) {
        let FewKeys {
            few: _,
            many: _,
            is_many: _,
        } = self;
    }
}

impl<V> Model for FewKeys<V> {
    ghost use Rattle.std.specs.Prelude.{◌≡◌, false};
    ghost use Rattle.std.specs.FinMap as map;
    ghost use Rattle.conflict.specs.RoomMap.{Room, room_code};
    ghost use Rattle.conflict.specs.Few.{room_of};

    ghost Value = { Room V };

    ghost coded = { room_code V.code };

    ghost view = { λ a. room_of a.is_many a.few.items a.few.cap a.many };

    ghost invariant = { λ a. a.is_many ≡ false → a.many.contents ≡ map.empty };
}

impl<V: Drop> FewKeys<V> {
    /// No key yet. It takes no memory.
    pub fn new(alloc: Global) -> FewKeys<V>
        ensures { result.contents ≡ map.empty }
    {
        FewKeys {
            few: Vec::new(alloc),
            many: RoomMap::new(alloc),
            is_many: false,
        }
    }

    /// The value of the key, if it has one.
    #[inline(always)]
    pub fn get(&self, key: u64) -> Option<&V>
        ensures { option_copied result ≡ map.get self.now.contents key }
    {
        if self.is_many {
            return self.many.get(key);
        }
        let few = self.few.as_slice();
        let place = position_of(few, key);
        if place < few.len() {
            Some(&few[place].1)
        } else {
            None
        }
    }

    /// Makes room for this many more entries. Where there is room for them, it takes no memory. Keys and room are kept, also where an
    /// allocation fails.
    pub fn reserve(&mut self, more: usize) -> Result<(), Memory>
        ensures contents { self.new.contents ≡ self.old.contents }
        ensures ok { OnOk result (more ≤ self.new.room) }
        ensures room { self.old.room ≤ self.new.room }
        ensures served { more ≤ self.old.room → IsOk result }
    {
        if self.is_many {
            return self.many.reserve(more);
        }
        if more > left(&self.few) {
            self.is_many = grow(&mut self.few, &mut self.many, more)?;
        }
        Ok(())
    }

    /// Gives the key the value. It takes no memory, and at most one place of the room.
    #[inline(always)]
    pub fn insert_reserved(&mut self, key: u64, value: V)
        requires { 0 < self.old.room }
        ensures contents { self.new.contents ≡ map.insert self.old.contents key value }
        ensures room { self.old.room ≤ self.new.room + 1 }
    {
        if self.is_many {
            put_many(&mut self.many, key, value);
        } else {
            put_few(&mut self.few, key, value);
        }
    }

    /// Takes all keys out. The memory of list and table is kept, and the room is that of the list.
    pub fn clear(&mut self)
        ensures { self.new.contents ≡ map.empty }
    {
        self.few.clear();
        if self.is_many {
            self.many.clear();
            self.is_many = false;
        }
    }

    /// Takes the key out, if it is there. The room is kept.
    pub fn remove(&mut self, key: u64)
        ensures contents { self.new.contents ≡ map.remove self.old.contents key }
        ensures room { self.old.room ≤ self.new.room }
    {
        if self.is_many {
            self.many.remove(key);
        } else {
            self.few.retain(|entry| entry.0 != key);
        }
    }
}

// How many more entries the list takes.
fn left<V>(few: &Vec<(u64, V)>) -> usize
    ensures { result ≡ min few.now.cap 16 - length few.now.items }
{
    few.capacity().min(FEW).saturating_sub(few.len())
}

// Where the key stands first in the list. One that doesn't stand there has the list's length.
fn position_of<V>(few: &[(u64, V)], key: u64) -> usize
    ensures { result ≡ position_or_len (λ entry. nat_eq key entry.0) few.now }
{
    let mut place = 0;
    while place < few.len() {
        if key == few[place].0 {
            return place;
        }
        place += 1;
    }
    place
}

// Gives the key in the list the value.
fn put_few<V: Drop>(few: &mut Vec<(u64, V)>, key: u64, value: V)
    requires { length few.old.items < min few.old.cap 16 }
    ensures contents { map.from_entries {R = nat_cmp} few.new.items ≡ map.insert (map.from_entries few.old.items) key value }
    ensures len { length few.new.items ≤ length few.old.items + 1 }
    ensures capacity { few.new.cap ≡ few.old.cap }
{
    let place = position_of(few.as_slice(), key);
    if place < few.len() {
        few[place].1 = value;
    } else {
        few.push_reserved((key, value));
    }
}

// What the table takes of the stack is not taken where keys are few.
#[cold]
#[inline(never)]
fn put_many<V: Drop>(many: &mut RoomMap<V>, key: u64, value: V)
    requires { 0 < many.old.room }
    ensures contents { many.new.contents ≡ map.insert many.old.contents key value }
    ensures room { many.old.room ≤ many.new.room + 1 }
{
    many.insert_reserved(key, value);
}

// Makes room for more keys than the list has memory for: in the list, or in the table, to which all keys go then. Answers whether they
// are there.
#[cold]
#[inline(never)]
fn grow<V: Drop>(
    few: &mut Vec<(u64, V)>,
    many: &mut RoomMap<V>,
    more: usize,
) -> Result<bool, Memory>
    requires { many.old.contents ≡ map.empty }
    ensures contents { IfOk result (λ is_many.
        (room_of is_many few.new.items few.new.cap many.new).contents ≡ map.from_entries few.old.items) }
    ensures ok { IfOk result (λ is_many. more ≤ (room_of is_many few.new.items few.new.cap many.new).room) }
    ensures empty { IfOk result (λ is_many. is_many ≡ false → many.new.contents ≡ map.empty) }
    ensures err { OnErr result
        ((few.new.items ≡ few.old.items) × (few.old.cap ≤ few.new.cap) × (many.new.contents ≡ map.empty)) }
{
    if more <= FEW.saturating_sub(few.len()) {
        fill_up(few)?;
        return Ok(false);
    }
    move_all(few, many, more)?;
    Ok(true)
}

// Makes room for all keys that the list may have.
fn fill_up<V>(few: &mut Vec<(u64, V)>) -> Result<(), Memory>
    ensures items { few.new.items ≡ few.old.items }
    ensures kept { few.old.cap ≤ few.new.cap }
    ensures ok { OnOk result (16 ≤ few.new.cap) }
{
    few.reserve(FEW.saturating_sub(few.len()))?;
    Ok(())
}

// Makes room for more keys in the empty table, and moves those of the list there.
fn move_all<V: Drop>(
    few: &mut Vec<(u64, V)>,
    many: &mut RoomMap<V>,
    more: usize,
) -> Result<(), Memory>
    requires { many.old.contents ≡ map.empty }
    ensures contents { OnOk result (many.new.contents ≡ map.from_entries few.old.items) }
    ensures ok { OnOk result (more ≤ many.new.room) }
    ensures err { OnErr result
        ((few.new.items ≡ few.old.items) × (few.new.cap ≡ few.old.cap) × (many.new.contents ≡ map.empty)) }
{
    match few.len().checked_add(more) {
        Some(all) => many.reserve(all)?,
        None => return Err(Memory),
    }
    move_entries(few, many);
    Ok(())
}

fn move_entries<V: Drop>(few: &mut Vec<(u64, V)>, many: &mut RoomMap<V>)
    requires empty { many.old.contents ≡ map.empty }
    requires room { length few.old.items ≤ many.old.room }
    ensures contents { many.new.contents ≡ map.from_entries few.old.items }
    ensures room { many.old.room ≤ many.new.room + length few.old.items }
{
    while let Some((key, value)) = few.pop() {
        many.insert_reserved(key, value);
    }
}
