//! What a collection that may lie over several gates holds at the end.
ghost use Rattle.std.specs.Prelude.{◌≡◌, ◌+◌, ◌-◌, ◌^◌, ◌≤◌, Some, min, slice_get};
ghost use Rattle.std.specs.Option.{option_copied};
ghost use Rattle.std.specs.FinMap as map;
ghost use Rattle.std.specs.Map.Iter.{TakesFirst, deref_pair};
ghost use Rattle.seq_model.specs.Counts.{copies};
ghost use Rattle.seq_model.specs.declared.held.Held.TheVariants as held;
ghost use Rattle.tx_handles.specs.Gates.{LieOver};
ghost use Rattle.tx_handles.specs.Lanes.{AreLanes, total_of};
ghost use Rattle.std.specs.Iterator.{YieldsFirstBy, item_count};
ghost use Rattle.tx_handles.specs.Read.{HasAll, bag_entries, bag_left, left_in, map_entries, map_left};

use crate::gates::Gates;
use seq_model::{Held, QueueItems, Value};
use std::collections::btree_map::Iter;

/// The entries of a map.
#[derive(Drop)]
#[derive_where(Clone, Copy)]
pub struct MapEntries<'a, V> {
    held: &'a [Held<V>],
    gates: Gates,
}

impl<'a, V: Value> MapEntries<'a, V> {
    /// Returns what the collections of these gates hold, of all that a store held.
    pub fn new(held: &'a [Held<V>], gates: Gates) -> Self
        ensures held { result.held.now ≡ held.now }
        ensures gates { result.gates ≡ gates }
    {
        MapEntries { held, gates }
    }

    /// The value at a key.
    ///
    /// ```
    /// let value = entries.get(1); // Some(10)
    /// ```
    #[tactic(auto, using(crate::proofs::GateLemmas::got_of))]
    pub fn get(&self, key: u64) -> Option<&'a V>
        ensures { (whole : _) → LieOver held.Map self.now.gates whole self.now.held.now → option_copied result ≡ map.get whole key }
    {
        match self.gates.held_at(self.held, self.gates.place(key)) {
            Some(Held::Map(entries)) => entries.get(key),
            _ => None,
        }
    }

    /// How many keys there are.
    ///
    /// ```
    /// let keys = entries.len(); // 1
    /// ```
    #[tactic(auto, using(crate::proofs::ReadLemmas::entries_count, crate::proofs::SumLemmas::then_below))]
    pub fn len(&self) -> usize
        ensures { (whole : _) → LieOver held.Map self.now.gates whole self.now.held.now → result ≡ min (map.len whole) (2 ^ 64 - 1) }
    {
        let mut total = 0usize;
        'gates: for i in 0..u64::from(self.gates.others) + 1 {
            if let Some(Held::Map(entries)) = self.gates.held_at(self.held, i) {
                total = total.saturating_add(entries.len());
            }
        }
        total
    }

    /// The entries, rising by key where the map has one gate, and else those of one gate after those of another.
    ///
    /// ```
    /// for (key, value) in entries.iter() {
    ///     writeln!(text, "{key} {value}")?;
    /// }
    /// ```
    pub fn iter(&self) -> MapIter<'a, V>
        ensures { (whole : _) → LieOver held.Map self.now.gates whole self.now.held.now → HasAll (map_left result) whole }
    {
        MapIter {
            part: None,
            held: self.held,
            gates: self.gates,
            place: 0,
        }
    }
}

/// The next entry of a part that was begun.
fn next_in<'a, X>(part: &mut Option<Iter<'a, u64, X>>) -> Option<(&'a u64, &'a X)>
    ensures { TakesFirst deref_pair (left_in part.old) result (left_in part.new) }
{
    match part {
        Some(part) => part.next(),
        None => None,
    }
}

/// The entries of the map at a position.
fn map_at<'a, V>(held: &'a [Held<V>], gates: Gates, place: u64) -> Option<Iter<'a, u64, V>>
    ensures { left_in result ≡ map_entries (slice_get held.now (gates.first + place)) }
{
    match gates.held_at(held, place) {
        Some(Held::Map(entries)) => Some(entries.iter()),
        _ => None,
    }
}

/// The entries of a map, one after another.
pub struct MapIter<'a, V> {
    part: Option<Iter<'a, u64, V>>,
    held: &'a [Held<V>],
    gates: Gates,
    /// The first position that wasn't begun yet.
    place: u64,
}

impl<'a, V: Drop> Drop for MapIter<'a, V> {
    fn drop(self) {
        let MapIter {
            part: _,
            held: _,
            gates: _,
            place: _,
        } = self;
    }
}

impl<'a, V: Value> MapIter<'a, V> {
    #[tactic(auto, using(crate::proofs::ReadLemmas::goes_on, crate::proofs::ReadLemmas::ends))]
    fn step(&mut self) -> Option<(&'a u64, &'a V)>
        ensures { TakesFirst deref_pair (map_left self.old) result (map_left self.new) }
    {
        'gates: for place in self.place..u64::from(self.gates.others) + 1 {
            if let Some(entry) = next_in(&mut self.part) {
                return Some(entry);
            }
            self.place = place + 1;
            self.part = map_at(self.held, self.gates, place);
        }
        next_in(&mut self.part)
    }
}

impl<'a, V: Value> Iterator for MapIter<'a, V> {
    type Item = (&'a u64, &'a V);

    ghost next_gives = { YieldsFirstBy deref_pair map_left };

    ghost remaining = { item_count map_left };

    fn next(&mut self) -> Option<(&'a u64, &'a V)> {
        self.step()
    }
}

/// The elements of a multiset, each with how many copies there are.
#[derive(Drop)]
#[derive_where(Clone, Copy)]
pub struct BagCounts<'a, V> {
    held: &'a [Held<V>],
    gates: Gates,
}

impl<'a, V: Value> BagCounts<'a, V> {
    /// Returns what the collections of these gates hold, of all that a store held.
    pub fn new(held: &'a [Held<V>], gates: Gates) -> Self
        ensures held { result.held.now ≡ held.now }
        ensures gates { result.gates ≡ gates }
    {
        BagCounts { held, gates }
    }

    /// How many copies of an element there are.
    ///
    /// ```
    /// let copies = counts.copies(3); // 2
    /// ```
    #[tactic(auto, using(crate::proofs::GateLemmas::copies_of))]
    pub fn copies(&self, element: u64) -> u64
        ensures { (whole : _) → LieOver held.Bag self.now.gates whole self.now.held.now → result ≡ copies whole element }
    {
        match self.gates.held_at(self.held, self.gates.place(element)) {
            Some(Held::Bag(counts)) => counts.copies(element),
            _ => 0,
        }
    }

    /// The elements with the numbers of their copies, rising where the multiset has one gate, and else those of one gate after those of
    /// another.
    ///
    /// ```
    /// for (element, copies) in counts.iter() {
    ///     writeln!(text, "{element} {copies}")?;
    /// }
    /// ```
    pub fn iter(&self) -> BagIter<'a, V>
        ensures { (whole : _) → LieOver held.Bag self.now.gates whole self.now.held.now → HasAll (bag_left result) whole }
    {
        BagIter {
            part: None,
            held: self.held,
            gates: self.gates,
            place: 0,
        }
    }
}

/// The elements of the multiset at a position, with the numbers of their copies.
fn bag_at<'a, V>(held: &'a [Held<V>], gates: Gates, place: u64) -> Option<Iter<'a, u64, u64>>
    ensures { left_in result ≡ bag_entries (slice_get held.now (gates.first + place)) }
{
    match gates.held_at(held, place) {
        Some(Held::Bag(counts)) => Some(counts.iter()),
        _ => None,
    }
}

/// The elements of a multiset, one after another, with the numbers of their copies.
pub struct BagIter<'a, V> {
    part: Option<Iter<'a, u64, u64>>,
    held: &'a [Held<V>],
    gates: Gates,
    /// The first position that wasn't begun yet.
    place: u64,
}

impl<'a, V> Drop for BagIter<'a, V> {
    fn drop(self) {
        let BagIter {
            part: _,
            held: _,
            gates: _,
            place: _,
        } = self;
    }
}

impl<'a, V: Value> BagIter<'a, V> {
    #[tactic(auto, using(crate::proofs::ReadLemmas::goes_on, crate::proofs::ReadLemmas::ends))]
    fn step(&mut self) -> Option<(&'a u64, &'a u64)>
        ensures { TakesFirst deref_pair (bag_left self.old) result (bag_left self.new) }
    {
        'gates: for place in self.place..u64::from(self.gates.others) + 1 {
            if let Some(entry) = next_in(&mut self.part) {
                return Some(entry);
            }
            self.place = place + 1;
            self.part = bag_at(self.held, self.gates, place);
        }
        next_in(&mut self.part)
    }
}

impl<'a, V: Value> Iterator for BagIter<'a, V> {
    type Item = (&'a u64, &'a u64);

    ghost next_gives = { YieldsFirstBy deref_pair bag_left };

    ghost remaining = { item_count bag_left };

    fn next(&mut self) -> Option<(&'a u64, &'a u64)> {
        self.step()
    }
}

/// The items of a queue in lanes.
#[derive(Drop)]
#[derive_where(Clone, Copy)]
pub struct LaneItems<'a, V> {
    held: &'a [Held<V>],
    gates: Gates,
}

impl<'a, V: Value> LaneItems<'a, V> {
    /// Returns what the collections of these gates hold, of all that a store held.
    pub fn new(held: &'a [Held<V>], gates: Gates) -> Self
        ensures held { result.held.now ≡ held.now }
        ensures gates { result.gates ≡ gates }
    {
        LaneItems { held, gates }
    }

    /// The items of one lane, counted from 0, the first one first.
    ///
    /// ```
    /// let first = lanes.lane(0).and_then(|items| items.first()); // Some(7)
    /// ```
    pub fn lane(&self, lane: u32) -> Option<&'a QueueItems>
        ensures { (lanes : _) → AreLanes self.now.gates lanes self.now.held.now → lane ≤ self.now.gates.others
            → option_copied result ≡ Some (lanes lane) }
    {
        if lane > self.gates.others {
            return None;
        }
        match self.gates.held_at(self.held, u64::from(lane)) {
            Some(Held::Queue { head: _, items }) => Some(items),
            _ => None,
        }
    }

    /// How many items all lanes have.
    ///
    /// ```
    /// let items = lanes.len(); // 1
    /// ```
    #[tactic(auto, using(crate::proofs::SumLemmas::then_below))]
    pub fn len(&self) -> usize
        ensures { (lanes : _) → AreLanes self.now.gates lanes self.now.held.now
            → result ≡ min (total_of lanes (self.now.gates.others + 1)) (2 ^ 64 - 1) }
    {
        let mut total = 0usize;
        'gates: for i in 0..u64::from(self.gates.others) + 1 {
            if let Some(Held::Queue { head: _, items }) = self.gates.held_at(self.held, i) {
                total = total.saturating_add(items.len());
            }
        }
        total
    }
}
