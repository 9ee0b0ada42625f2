//! The collection of a map.
ghost use Rattle.std.specs.Prelude.{◌≡◌, ◌+◌, ◌^◌, ◌<◌, ◌≤◌, [], ◌%◌, Some, None, All, IsOk, replicate, IfOk, IfErr, OnOk, length};
ghost use Rattle.std.specs.Prelude.{slice_index};
ghost use Rattle.std.specs.Vec.{vec_capacity};
ghost use Rattle.std.specs.FinMap as map;
ghost use Rattle.seq_model.specs.Calls.{IsRefusal, value_reply};
ghost use Rattle.conflict.specs.Rules.{applied};
ghost use Rattle.conflict.specs.Counts.{stripe_counts};
ghost use Rattle.conflict.specs.Footprints.{key_location};
ghost use Rattle.conflict.specs.Editions.{raised};
ghost use Rattle.conflict.specs.Refusals.{IsTooLong, IsNoSuchOrTooLong, IsStripeCount};
ghost use Rattle.base_map.specs.Conflicts.{rules, view_of, outcome_of, reads_of, writes_of, changes_of};

use crate::footprints::{change_in, location_in, reads_in, writes_in};
use conflict::{
    Change, Changes, Conflict, Editions, LocSet, Note, Outcome, RoomMap, is_stripe_count,
};
use seq_model::{Entries, Held, Items, Memory, Op, Refusal, Reply, Value};
use std::alloc::Global;
use std::marker::Model;

/// A map in stripes, with an edition for each.
pub struct MapBase<V> {
    table: RoomMap<V>,
    stripes: u32,
    editions: Editions,
}

impl<V: Drop> Drop for MapBase<V> {
    fn drop(self) {
        let MapBase {
            table: _,
            stripes: _,
            editions: _,
        } = self;
    }
}

impl<V> Model for MapBase<V> {
    ghost use Rattle.std.specs.Prelude.{◌≡◌, ℕ, length};
    ghost use Rattle.std.specs.Ordering.{nat_cmp};
    ghost use Rattle.std.specs.FinMap as map;
    ghost use Rattle.std.specs.Coded.{coded_ℕ};
    ghost use Rattle.conflict.specs.BaseView.{BaseView, base_view_code};
    ghost use Rattle.conflict.specs.Refusals.{IsStripeCount};

    ghost Value = { BaseView (map.FinMap nat_cmp V) ℕ };

    ghost coded = { base_view_code (map.code coded_ℕ V.code) coded_ℕ };

    ghost view = { λ a. record {
      shown = a.table.contents;
      stripes = a.stripes;
      editions = a.editions;
      room = a.table.room;
    } };

    ghost invariant = { λ a. IsStripeCount a.stripes × (length a.editions ≡ a.stripes) };
}

impl<V: Value> MapBase<V> {
    /// An empty map in so many stripes, 1 to `STRIPE_LIMIT`, with edition 0 for each. Another number is refused as TooLong.
    pub fn new(alloc: Global, stripes: u32) -> Result<MapBase<V>, Refusal>
        ensures empty { IfOk result (λ base. base.shown ≡ map.empty) }
        ensures stripes { IfOk result (λ base. base.stripes ≡ stripes) }
        ensures editions { IfOk result (λ base. base.editions ≡ replicate stripes 0) }
        ensures refused { IfErr result (λ refusal. IsTooLong refusal (IsStripeCount stripes)) }
        ensures fits { IsOk result → IsStripeCount stripes }
    {
        if !is_stripe_count(stripes) {
            return Err(Refusal::TooLong);
        }
        let editions = Editions::new(alloc, stripes)?;
        Ok(MapBase {
            table: RoomMap::new(alloc),
            stripes,
            editions,
        })
    }

    /// A map that holds this, with edition 0 for each stripe. What another kind of collection holds is refused as NoSuch, and
    /// else a number of stripes that `new` refuses as TooLong. Only then memory is asked for.
    pub fn open(alloc: Global, stripes: u32, held: Held<V>) -> Result<MapBase<V>, Refusal>
        ensures shown { IfOk result (λ base. view_of held ≡ Some base.shown) }
        ensures stripes { IfOk result (λ base. base.stripes ≡ stripes) }
        ensures editions { IfOk result (λ base. base.editions ≡ replicate stripes 0) }
        ensures refused { IfErr result
            (λ refusal. IsNoSuchOrTooLong refusal (view_of held ≡ None) (IsStripeCount stripes)) }
        ensures fits { IsOk result → IsStripeCount stripes }
    {
        match held {
            Held::Map(entries) => MapBase::of_entries(alloc, stripes, entries),
            _ => Err(Refusal::NoSuch),
        }
    }

    fn of_entries(alloc: Global, stripes: u32, entries: Entries<V>) -> Result<MapBase<V>, Refusal>
        ensures shown { IfOk result (λ base. base.shown ≡ entries) }
        ensures stripes { IfOk result (λ base. base.stripes ≡ stripes) }
        ensures editions { IfOk result (λ base. base.editions ≡ replicate stripes 0) }
        ensures refused { IfErr result (λ refusal. IsTooLong refusal (IsStripeCount stripes)) }
        ensures fits { IsOk result → IsStripeCount stripes }
    {
        if !is_stripe_count(stripes) {
            return Err(Refusal::TooLong);
        }
        let editions = Editions::new(alloc, stripes)?;
        let table = RoomMap::of_entries(alloc, entries)?;
        Ok(MapBase {
            table,
            stripes,
            editions,
        })
    }

    /// What the map holds: copies of its entries. `Memory` where an allocation fails.
    pub fn held(&self) -> Result<Held<V>, Memory>
        ensures { IfOk result (λ held. held ≡ (rules V).held_of self.now.shown) }
    {
        Ok(Held::Map(self.table.to_entries()?))
    }

    /// The outcome that the call has here. A call of another kind is refused as NoSuch.
    pub fn outcome(&self, op: &Op<V>) -> Result<Outcome<V>, Refusal>
        ensures ok { IfOk result (λ outcome. outcome_of op.now self.now.shown ≡ Some outcome) }
        ensures refused { IfErr result (λ refusal. IsRefusal refusal (outcome_of op.now self.now.shown ≡ None)) }
    {
        let reply = match op {
            Op::Get(key) | Op::Put(key, _) | Op::Remove(key) => self.value_at(*key)?,
            Op::Len => Reply::Number(self.len() as u64),
            _ => return Err(Refusal::NoSuch),
        };
        let op = op.try_copy()?;
        Ok(Outcome {
            op,
            reply,
            note: Note::Plain,
        })
    }

    fn value_at(&self, key: u64) -> Result<Reply<V>, Memory>
        ensures { IfOk result (λ reply. reply ≡ value_reply (map.get self.now.shown key)) }
    {
        match self.table.get(key) {
            Some(value) => Ok(Reply::Value(value.try_copy()?)),
            None => Ok(Reply::Nothing),
        }
    }

    /// The value of the key, as a copy. `Memory` where an allocation for it fails.
    pub fn entry(&self, key: u64) -> Result<Option<V>, Memory>
        ensures { IfOk result (λ entry. entry ≡ map.get self.now.shown key) }
    {
        Ok(match self.table.get(key) {
            Some(value) => Some(value.try_copy()?),
            None => None,
        })
    }

    /// Where the map's memory comes from.
    pub fn allocator(&self) -> Global {
        self.editions.allocator()
    }

    /// How many keys are on each stripe, in order. `Memory` where an allocation for the list fails.
    pub fn counts(&self) -> Result<Items<u64>, Memory>
        ensures { IfOk result (λ counts. counts ≡ stripe_counts self.now.stripes self.now.shown) }
    {
        self.table.counts(self.stripes)
    }

    /// The number of keys.
    pub fn len(&self) -> usize
        ensures { result ≡ map.len self.now.shown }
    {
        self.table.len()
    }

    /// In how many stripes the map is.
    pub fn stripes(&self) -> u32
        ensures { result ≡ self.now.stripes }
    {
        self.stripes
    }

    /// The location of the key.
    pub fn location_of(&self, key: u64) -> u32
        ensures location { result ≡ key_location self.now.stripes key }
        ensures within { result < self.now.stripes }
    {
        location_in(self.stripes, key)
    }

    /// The locations that the outcome reads. Up to eight are never refused.
    pub fn reads(&self, outcome: &Outcome<V>) -> Result<LocSet, Memory>
        ensures locations { IfOk result (λ set. set ≡ reads_of self.now.stripes outcome.now) }
        ensures served { length (reads_of self.now.stripes outcome.now) ≤ 8 → IsOk result }
    {
        reads_in(self.editions.allocator(), self.stripes, outcome)
    }

    /// The locations that the outcome writes. They are never refused.
    pub fn writes(&self, outcome: &Outcome<V>) -> Result<LocSet, Memory>
        ensures locations { IfOk result (λ set. set ≡ writes_of self.now.stripes outcome.now) }
        ensures served { IsOk result }
    {
        writes_in(self.editions.allocator(), self.stripes, outcome)
    }

    /// What the outcome changes. Where that is nothing, it is never refused.
    pub fn changes(&self, outcome: &Outcome<V>) -> Result<Changes<V>, Memory>
        ensures changes { IfOk result (λ changes. changes.items ≡ changes_of outcome.now) }
        ensures served { changes_of outcome.now ≡ [] → IsOk result }
    {
        let mut changes = Vec::new(self.editions.allocator());
        if let Some(change) = change_in(outcome)? {
            changes.push(change)?;
        }
        Ok(changes)
    }

    /// Makes room for the changes. The map is unchanged and keeps its room, also where an allocation fails. Where there is room already,
    /// nothing is refused.
    pub fn prepare(&mut self, changes: &[Change<V>]) -> Result<(), Memory>
        ensures shown { self.new.shown ≡ self.old.shown }
        ensures stripes { self.new.stripes ≡ self.old.stripes }
        ensures editions { self.new.editions ≡ self.old.editions }
        ensures ok { OnOk result (length changes.now ≤ self.new.room) }
        ensures room { self.old.room ≤ self.new.room }
        ensures served { length changes.now ≤ self.old.room → IsOk result }
    {
        self.table.reserve(changes.len())
    }

    /// Applies the changes in order, and raises the edition of each written location by one. There has to be room for the
    /// changes, so it takes no memory and is never refused. It uses up the room for these changes alone.
    pub fn replay(&mut self, mut changes: Changes<V>, written: &LocSet)
        requires prepared { length changes.items ≤ self.old.room }
        requires within { All (λ location. location < self.old.stripes) written.now }
        requires below { All (λ location. slice_index self.old.editions location < 2 ^ 63) written.now }
        ensures shown { self.new.shown ≡ applied (rules V) changes.items self.old.shown }
        ensures stripes { self.new.stripes ≡ self.old.stripes }
        ensures editions { self.new.editions ≡ raised written.now self.old.editions }
        ensures room { self.old.room ≤ self.new.room + length changes.items }
    {
        self.replay_from(&mut changes, written);
    }

    /// What `replay` does, of the changes in a list that is left empty and keeps its memory.
    pub fn replay_from(&mut self, changes: &mut Vec<Change<V>>, written: &LocSet)
        requires prepared { length changes.old.items ≤ self.old.room }
        requires within { All (λ location. location < self.old.stripes) written.now }
        requires below { All (λ location. slice_index self.old.editions location < 2 ^ 63) written.now }
        ensures shown { self.new.shown ≡ applied (rules V) changes.old.items self.old.shown }
        ensures stripes { self.new.stripes ≡ self.old.stripes }
        ensures editions { self.new.editions ≡ raised written.now self.old.editions }
        ensures room { self.old.room ≤ self.new.room + length changes.old.items }
        ensures emptied { changes.new.items ≡ [] }
        ensures capacity { vec_capacity changes.new ≡ vec_capacity changes.old }
    {
        apply_changes(&mut self.table, changes);
        self.editions.raise(written);
    }

    /// The edition of the location: how many replays have written it.
    pub fn edition(&self, location: u32) -> u64
        requires { location < self.now.stripes }
        ensures { result ≡ slice_index self.now.editions location }
    {
        self.editions.edition(location)
    }

    /// A map that holds the same, with the same editions. `Memory` where an allocation fails.
    pub fn try_copy(&self) -> Result<MapBase<V>, Memory>
        ensures shown { IfOk result (λ copy. copy.shown ≡ self.now.shown) }
        ensures stripes { IfOk result (λ copy. copy.stripes ≡ self.now.stripes) }
        ensures editions { IfOk result (λ copy. copy.editions ≡ self.now.editions) }
    {
        Ok(MapBase {
            table: self.table.try_copy()?,
            stripes: self.stripes,
            editions: self.editions.try_copy()?,
        })
    }
}

fn apply_changes<V: Drop>(table: &mut RoomMap<V>, changes: &mut Vec<Change<V>>)
    requires { length changes.old.items ≤ table.old.room }
    ensures contents { table.new.contents ≡ applied (rules V) changes.old.items table.old.contents }
    ensures room { table.old.room ≤ table.new.room + length changes.old.items }
    ensures emptied { changes.new.items ≡ [] }
    ensures capacity { vec_capacity changes.new ≡ vec_capacity changes.old }
{
    changes.reverse();
    while let Some(change) = changes.pop() {
        match change {
            Change::Put(key, value) => table.insert_reserved(key, value),
            Change::Remove(key) => table.remove(key),
            _ => {}
        }
    }
}

impl<V: Value> Conflict<V> for MapBase<V> {
    ghost use Rattle.std.specs.Prelude.{ℕ, Option};
    ghost use Rattle.std.specs.Ordering.{nat_cmp};
    ghost use Rattle.std.specs.FinMap as map;
    ghost use Rattle.base_map.specs.Conflicts.{rules};
    ghost use Rattle.base_map.specs.FrameLemmas.{laws};

    ghost Shown = { map.FinMap nat_cmp V };

    ghost Point = { ℕ };

    ghost Answer = { Option V };

    ghost rules = { rules V };

    ghost shown = { λ s. s.shown };

    ghost stripes = { λ s. s.stripes };

    fn outcome(&self, op: &Op<V>) -> Result<Outcome<V>, Refusal> {
        MapBase::outcome(self, op)
    }

    fn reads(&self, outcome: &Outcome<V>) -> Result<LocSet, Memory> {
        MapBase::reads(self, outcome)
    }

    fn writes(&self, outcome: &Outcome<V>) -> Result<LocSet, Memory> {
        MapBase::writes(self, outcome)
    }

    fn changes(&self, outcome: &Outcome<V>) -> Result<Changes<V>, Memory> {
        MapBase::changes(self, outcome)
    }

    ghost laws = { laws };
}
