//! The log of a transaction's changes to a collection.
ghost use Rattle.std.specs.Prelude.{◌≡◌, ◌+◌, ◌*◌, ◌^◌, ◌<◌, ◌≤◌, [], ◌∷◌, ◌++◌, All, IsOk, OnOk, OnErr, length, option_to_list};
ghost use Rattle.std.specs.Prelude.{slice_index};
ghost use Rattle.std.specs.Vec.{vec_capacity};
ghost use Rattle.replay_log.specs.Base.{IsPreparedFor, LeavesPrepared, after, editions_of, locations_of, shown_of, stripes_of};
ghost use Rattle.replay_log.specs.Log.{AreRaised};

use crate::base::Base;
use conflict::{Change, Changes, LocSet};
use seq_model::{Memory, Value};
use smallvec::SmallVec;
use std::alloc::Global;
use std::marker::Model;
use std::mem;

/// Changes in order, with the locations that they write. Up to eight locations take no memory, the same one counted as often as
/// it was pushed.
#[derive(Drop)]
pub struct Log<V> {
    changes: Vec<Change<V>>,
    locations: SmallVec<u32, 8>,
}

impl<V> Model for Log<V> {
    ghost use Rattle.std.specs.Prelude.{◌-◌};
    ghost use Rattle.std.specs.Vec.{vec_capacity, vec_len};
    ghost use Rattle.replay_log.specs.Log.{LogView};

    ghost Value = { LogView V };

    ghost view = { λ a. record {
      changes = a.changes.items;
      locations = a.locations.items;
      room = vec_capacity a.changes - vec_len a.changes;
      places = a.locations.capacity;
    } };
}

impl<V: Drop> Log<V> {
    /// The empty log. It takes no memory.
    pub fn new(alloc: Global) -> Log<V>
        ensures changes { result.changes ≡ [] }
        ensures locations { result.locations ≡ [] }
        ensures places { result.places ≡ 8 }
    {
        Log {
            changes: Vec::new(alloc),
            locations: SmallVec::new(alloc),
        }
    }

    /// Drops all changes, with their locations. The memory is kept.
    pub fn clear(&mut self)
        ensures changes { self.new.changes ≡ [] }
        ensures locations { self.new.locations ≡ [] }
        ensures room { self.old.room ≤ self.new.room }
        ensures places { self.old.places ≤ self.new.places }
    {
        self.changes.clear();
        self.locations.clear();
    }
}

impl<V: Value> Log<V> {
    /// Appends a change, with the locations that it writes. Where there is room for both it takes no memory and is not refused. A
    /// refused push leaves the log as it was, and its room.
    pub fn push(&mut self, change: Change<V>, locations: &LocSet) -> Result<(), Memory>
        ensures changes { OnOk result (self.new.changes ≡ self.old.changes ++ change ∷ []) }
        ensures locations { OnOk result (self.new.locations ≡ self.old.locations ++ locations.now) }
        ensures err { OnErr result ((self.new.changes ≡ self.old.changes) × (self.new.locations ≡ self.old.locations)) }
        ensures served { 0 < self.old.room → length self.old.locations + length locations.now ≤ self.old.places → IsOk result }
        ensures room { self.old.room ≤ self.new.room + 1 }
        ensures places { self.old.places ≤ self.new.places }
    {
        self.changes.reserve(1)?;
        self.locations.extend_from_slice(locations.as_slice())?;
        self.changes.push_reserved(change);
        Ok(())
    }

    /// Makes room for so many more changes, each with two locations. The log is unchanged and keeps its room, also where an allocation
    /// fails. Where there is room already, nothing is refused.
    #[inline(always)]
    pub fn reserve(&mut self, more: usize) -> Result<(), Memory>
        ensures changes { self.new.changes ≡ self.old.changes }
        ensures locations { self.new.locations ≡ self.old.locations }
        ensures ok { OnOk result ((more ≤ self.new.room) × (length self.new.locations + 2 * more ≤ self.new.places)) }
        ensures served { more ≤ self.old.room → length self.old.locations + 2 * more ≤ self.old.places → IsOk result }
        ensures room { self.old.room ≤ self.new.room }
        ensures places { self.old.places ≤ self.new.places }
    {
        self.changes.reserve(more)?;
        let places = more.checked_mul(2).ok_or(Memory)?;
        self.locations.reserve(places)?;
        Ok(())
    }

    /// Appends changes that are made together, with the locations that they write. There has to be room for them, so it takes no
    /// memory and is never refused.
    pub fn append(&mut self, mut changes: Changes<V>, locations: &LocSet)
        requires room { length changes.items ≤ self.old.room }
        requires places { length self.old.locations + length locations.now ≤ self.old.places }
        ensures changes { self.new.changes ≡ self.old.changes ++ changes.items }
        ensures locations { self.new.locations ≡ self.old.locations ++ locations.now }
        ensures room { self.old.room ≤ self.new.room + length changes.items }
        ensures places { self.old.places ≤ self.new.places }
    {
        self.append_from(&mut changes, locations);
    }

    /// What `append` does, of the changes in a list that is left empty and keeps its memory.
    pub fn append_from(&mut self, changes: &mut Vec<Change<V>>, locations: &LocSet)
        requires room { length changes.old.items ≤ self.old.room }
        requires places { length self.old.locations + length locations.now ≤ self.old.places }
        ensures changes { self.new.changes ≡ self.old.changes ++ changes.old.items }
        ensures locations { self.new.locations ≡ self.old.locations ++ locations.now }
        ensures room { self.old.room ≤ self.new.room + length changes.old.items }
        ensures places { self.old.places ≤ self.new.places }
        ensures emptied { changes.new.items ≡ [] }
        ensures capacity { vec_capacity changes.new ≡ vec_capacity changes.old }
    {
        self.changes.append(changes).unwrap();
        self.locations
            .extend_from_slice(locations.as_slice())
            .unwrap();
    }

    /// Appends a change, if there is one, with the locations that are written. There has to be room for them, so it takes no memory
    /// and is never refused.
    pub fn append_one(&mut self, change: Option<Change<V>>, locations: &LocSet)
        requires room { length (option_to_list change) ≤ self.old.room }
        requires places { length self.old.locations + length locations.now ≤ self.old.places }
        ensures changes { self.new.changes ≡ self.old.changes ++ option_to_list change }
        ensures locations { self.new.locations ≡ self.old.locations ++ locations.now }
        ensures room { self.old.room ≤ self.new.room + length (option_to_list change) }
        ensures places { self.old.places ≤ self.new.places }
    {
        if let Some(only) = change {
            self.changes.push_reserved(only);
        }
        self.locations
            .extend_from_slice(locations.as_slice())
            .unwrap();
    }

    /// The changes, in order: what a base has to be prepared for.
    pub fn changes(&self) -> &[Change<V>]
        ensures { result.now ≡ self.now.changes }
    {
        self.changes.as_slice()
    }

    /// Applies the changes to the base in order, and raises by one the edition of each location that was pushed with them, however
    /// often. There has to be room in the base for the changes, so it takes no memory and is never refused.
    pub fn fold_into(self, base: &mut Base<V>)
        requires prepared { IsPreparedFor self.changes base.old }
        requires within { All (λ location. location < locations_of (stripes_of base.old) (shown_of base.old)) self.locations }
        requires below { All (λ location. slice_index (editions_of base.old) location < 2 ^ 63) self.locations }
        ensures shown { shown_of base.new ≡ after self.changes (shown_of base.old) }
        ensures stripes { stripes_of base.new ≡ stripes_of base.old }
        ensures editions { AreRaised self.locations (editions_of base.old) (editions_of base.new) }
        ensures room { LeavesPrepared self.changes base.old base.new }
    {
        let mut log = self;
        log.fold(base);
    }

    /// What `fold_into` does, of a log that is left empty and keeps its memory.
    pub fn fold(&mut self, base: &mut Base<V>)
        requires prepared { IsPreparedFor self.old.changes base.old }
        requires within { All (λ location. location < locations_of (stripes_of base.old) (shown_of base.old)) self.old.locations }
        requires below { All (λ location. slice_index (editions_of base.old) location < 2 ^ 63) self.old.locations }
        ensures shown { shown_of base.new ≡ after self.old.changes (shown_of base.old) }
        ensures stripes { stripes_of base.new ≡ stripes_of base.old }
        ensures editions { AreRaised self.old.locations (editions_of base.old) (editions_of base.new) }
        ensures room { LeavesPrepared self.old.changes base.old base.new }
        ensures changes { self.new.changes ≡ [] }
        ensures locations { self.new.locations ≡ [] }
        ensures kept { self.old.room + length self.old.changes ≤ self.new.room }
    {
        let empty = SmallVec::new(*self.changes.allocator());
        let locations = mem::replace(&mut self.locations, empty);
        let written = LocSet::from_locations(locations);
        base.replay_from(&mut self.changes, &written);
        let mut emptied = written.into_locations();
        emptied.clear();
        self.locations = emptied;
    }
}
