//! The elements of a priority queue, and copies of them that cost little. They stand in two lists that all copies share and that are never
//! changed, the one laid over the other, and over both each copy lays what has changed since: new numbers of copies of some elements. Of
//! either list the first entries may be gone.
//!
//! The base lays what has changed into a new upper list once that is some 64 entries, and both into a new lower one once the upper one
//! would have 32 times the root of the number of elements. So a copy has few entries of its own, and an insert costs about a quarter of
//! that root in moves, 280 of a million elements.
ghost use Rattle.std.specs.Prelude.{◌≡◌, ◌+◌, ◌^◌, ◌<◌, ◌≤◌, OnOk, OnErr, IsOk, IfOk};
ghost use Rattle.std.specs.FinMap as map;
ghost use Rattle.seq_model.specs.Entries.{IsRising, inserts};
ghost use Rattle.seq_model.specs.Counts.{HasNoZero, copies, with_copies, least};
ghost use Rattle.conflict.specs.Multisets.{one_fewer};
ghost use Rattle.base_pq.specs.Laid.{first_kept, laid, layered, lesser};

use crate::merge::merged;
use crate::rest::Rest;
use crate::sorted::Sorted;
use seq_model::{Counts, Entries, Memory, counts_of};
use std::alloc::Global;
use std::marker::Model;

/// How many changed elements a copy carries before they are laid into a list that is shared.
const OWN: usize = 64;

/// The upper list has fewer entries than so many times the root of the number of those in the lower one.
const UPPER: usize = 32;

/// A multiset of numbers.
#[derive(Drop)]
pub struct Elements {
    lower: Rest,
    /// The copies of the elements that have changed since the lower list was made.
    upper: Rest,
    /// Those that have changed since the upper one was made.
    own: Sorted,
    /// Whether it is a copy. A copy lives for one transaction, so it never lays what has changed into a list.
    copied: bool,
}

impl Model for Elements {
    ghost use Rattle.std.specs.FinMap as map;
    ghost use Rattle.seq_model.specs.Counts.{HasNoZero};
    ghost use Rattle.base_pq.specs.ElementsView.{ElementsView, elements_code};
    ghost use Rattle.base_pq.specs.Laid.{laid, layered};

    ghost Value = { ElementsView };

    ghost coded = { elements_code };

    ghost view = { λ a. record {
      elements = laid a.lower (map.entries (layered a.upper a.own.elements));
      room = a.own.room;
    } };

    ghost invariant = { λ a. HasNoZero (laid a.lower (map.entries (layered a.upper a.own.elements))) };
}

impl Elements {
    /// The empty multiset. It takes no memory.
    pub fn new(alloc: Global) -> Elements
        ensures { result.elements ≡ map.empty }
    {
        Elements {
            lower: Rest::empty(),
            upper: Rest::empty(),
            own: Sorted::new(alloc),
            copied: false,
        }
    }

    /// These elements, in a list that copies share, where there is memory for it.
    pub fn of_counts(alloc: Global, counts: Counts) -> Result<Elements, Memory>
        ensures { IfOk result (λ elements. elements.elements ≡ counts) }
    {
        let mut elements = Elements::new(alloc);
        let entries = counts.into_entries();
        for (element, copies) in entries.into_iter() {
            elements.give(element, copies)?;
        }
        elements.settle();
        Ok(elements)
    }

    /// A copy of the elements with the numbers of their copies. `Memory` where an allocation fails.
    pub fn to_counts(&self, alloc: Global) -> Result<Counts, Memory>
        ensures { IfOk result (λ counts. counts ≡ self.now.elements) }
    {
        let all = self.to_entries(alloc)?;
        let mut entries = Entries::new(alloc);
        insert_all(&mut entries, all.as_slice())?;
        Ok(counts_of(entries))
    }

    // The elements with the numbers of their copies, rising.
    fn to_entries(&self, alloc: Global) -> Result<Vec<(u64, u64)>, Memory>
        ensures all { IfOk result (λ all. all.items ≡ map.entries self.now.elements) }
        ensures no_zero { HasNoZero self.now.elements }
    {
        let changed = layered(alloc, &self.upper, &self.own)?;
        merged(alloc, self.lower.as_slice(), changed.as_slice(), false)
    }

    /// The least element that is left where one copy of an element is taken out.
    pub fn least_without(&self, element: u64) -> Option<u64>
        ensures { result ≡ least (one_fewer self.now.elements element) }
    {
        let changed = lesser(
            self.first_kept(self.own.as_slice(), element),
            self.first_kept(self.upper.as_slice(), element),
        );
        lesser(changed, self.first_kept(self.lower.as_slice(), element))
    }

    // The first in the list that is left where one copy of an element is taken out.
    fn first_kept(&self, list: &[(u64, u64)], element: u64) -> Option<u64>
        ensures { result ≡ first_kept (λ q. copies (one_fewer self.now.elements element) q) list.now }
    {
        for (kept, _) in list {
            if self.copies_without(element, *kept) != 0 {
                return Some(*kept);
            }
        }
        None
    }

    fn copies_without(&self, element: u64, kept: u64) -> u64
        ensures { result ≡ copies (one_fewer self.now.elements element) kept }
    {
        let count = self.copies(kept);
        if kept == element {
            count.saturating_sub(1)
        } else {
            count
        }
    }

    /// How many copies of the element there are, 0 for one that is not there.
    pub fn copies(&self, element: u64) -> u64
        ensures { result ≡ copies self.now.elements element }
    {
        if let Some(count) = self.own.get(element) {
            return count;
        }
        if let Some(count) = self.upper.get(element) {
            return count;
        }
        self.lower.get(element).unwrap_or(0)
    }

    /// Makes room for one element more than so many, for which there is room. Where there is room for it, it is never refused.
    pub fn reserve_after(&mut self, held: usize) -> Result<(), Memory>
        requires { held ≤ self.old.room }
        ensures elements { self.new.elements ≡ self.old.elements }
        ensures ok { OnOk result (held < self.new.room) }
        ensures room { self.old.room ≤ self.new.room }
        ensures small { held + 1 < 2 ^ 64 }
        ensures served { held < self.old.room → IsOk result }
    {
        self.own.reserve_after(held)
    }

    /// Where much has changed, lays it into a list that copies share from now on, if there is memory for one.
    pub fn settle(&mut self)
        ensures elements { self.new.elements ≡ self.old.elements }
        ensures room { self.old.room ≤ self.new.room }
    {
        if self.copied {
            return;
        }
        let kept = self.lower.len();
        let spent = self.lower.gone() > kept.max(OWN);
        if self.own.len() < OWN && !spent {
            return;
        }
        let alloc = self.own.allocator();
        let most = if spent { 0 } else { UPPER * kept.isqrt() };
        if let Ok((lower, upper)) = settled(alloc, &self.lower, &self.upper, &self.own, most) {
            self.lower = lower;
            self.upper = upper;
            self.own.clear();
        }
    }

    // Gives an element this number of copies, with room for it made first.
    fn give(&mut self, element: u64, count: u64) -> Result<(), Memory>
        ensures ok { OnOk result (self.new.elements ≡ with_copies self.old.elements element count) }
        ensures err { OnErr result (self.new.elements ≡ self.old.elements) }
    {
        self.own.reserve_after(0)?;
        self.set_copies(element, count);
        Ok(())
    }

    /// Gives an element this number of copies. It takes no memory.
    pub fn set_copies(&mut self, element: u64, count: u64)
        requires { 0 < self.old.room }
        ensures elements { self.new.elements ≡ with_copies self.old.elements element count }
        ensures room { self.old.room ≤ self.new.room + 1 }
    {
        if count == 0 && self.lower.let_go(element) && self.upper.let_go(element) {
            self.own.remove(element);
        } else {
            self.own.put(element, count);
        }
    }

    /// A copy, which shares the lists. `Memory` where an allocation for what has changed since fails, or a list can't be shared.
    pub fn try_copy(&self, alloc: Global) -> Result<Elements, Memory>
        ensures { IfOk result (λ copy. copy.elements ≡ self.now.elements) }
    {
        Ok(Elements {
            lower: self.lower.share()?,
            upper: self.upper.share()?,
            own: self.own.try_copy(alloc)?,
            copied: true,
        })
    }

    /// Becomes a copy of the other, in the memory that it has as far as that suffices. Where an allocation fails, it is unchanged.
    pub fn copy_from(&mut self, other: &Elements) -> Result<(), Memory>
        ensures { OnOk result (self.new.elements ≡ other.now.elements) }
    {
        let lower = other.lower.share()?;
        let upper = other.upper.share()?;
        self.own.copy_from(&other.own)?;
        self.lower = lower;
        self.upper = upper;
        self.copied = true;
        Ok(())
    }
}

// The lower and the upper list to be shared from now on: what has changed is laid into the upper one, or, if that would have so many
// entries, into the lower one.
fn settled(
    alloc: Global,
    lower: &Rest,
    upper: &Rest,
    own: &Sorted,
    most: usize,
) -> Result<(Rest, Rest), Memory>
    ensures { IfOk result (λ made. laid made.0 (map.entries made.1)
        ≡ laid lower.now (map.entries (layered upper.now own.now.elements))) }
{
    let changed = layered(alloc, upper, own)?;
    if changed.len() < most {
        return Ok((lower.share()?, Rest::of(alloc, changed)?));
    }
    let all = merged(alloc, lower.as_slice(), changed.as_slice(), false)?;
    Ok((Rest::of(alloc, all)?, Rest::empty()))
}

// The numbers of the upper list with those of one's own laid over them, rising, also where they are 0.
fn layered(alloc: Global, upper: &Rest, own: &Sorted) -> Result<Vec<(u64, u64)>, Memory>
    ensures { IfOk result (λ made. made.items ≡ map.entries (layered upper.now own.now.elements)) }
{
    merged(alloc, upper.as_slice(), own.as_slice(), true)
}

fn insert_all(entries: &mut Entries<u64>, list: &[(u64, u64)]) -> Result<(), Memory>
    ensures { OnOk result (entries.new ≡ inserts entries.old list.now) }
{
    for (element, copies) in list {
        entries.insert(*element, *copies)?;
    }
    Ok(())
}

// The lesser of two, where there are two.
fn lesser(one: Option<u64>, other: Option<u64>) -> Option<u64>
    ensures { result ≡ lesser one other }
{
    match (one, other) {
        (None, _) => other,
        (_, None) => one,
        (Some(x), Some(y)) => { if y < x { other } else { one } }
    }
}
