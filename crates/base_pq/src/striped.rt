//! The elements of a priority queue, in one list whatever the number of stripes, with room for changes by stripe.
ghost use Rattle.std.specs.Prelude.{◌≡◌, ℕ, ◌+◌, ◌<◌, ◌≤◌, ◌%◌, OnOk, IsOk, IfOk, Some, slice_index_or};
ghost use Rattle.std.specs.FinMap.{empty};
ghost use Rattle.seq_model.specs.Counts.{copies, with_copies, least};
ghost use Rattle.conflict.specs.Multisets.{one_fewer};
ghost use Rattle.base_pq.specs.Room.{HasRoom, IsNoLess, room_taken};

use crate::elements::Elements;
use crate::room::{Places, give_each, take_each};
use conflict::Change;
use seq_model::{Counts, Memory};
use std::alloc::Global;
use std::marker::Model;

/// A multiset of numbers, each on the stripe of its remainder by their number.
#[derive(Drop)]
pub struct Striped {
    elements: Elements,
    places: Places,
}

impl Model for Striped {
    ghost use Rattle.std.specs.Prelude.{◌<◌, ◌≤◌, length, sum};
    ghost use Rattle.base_pq.specs.StripedView.{StripedView, striped_code};

    ghost Value = { StripedView };

    ghost coded = { striped_code };

    ghost view = { λ a. record {
      elements = a.elements.elements;
      stripes = length a.places.free.items;
      room = a.places.free.items;
    } };

    ghost invariant = { λ a. (0 < length a.places.free.items) × (sum a.places.free.items ≤ a.places.held)
        × (a.places.held ≤ a.elements.room) };
}

impl Striped {
    /// No element, in so many stripes, with no room. `Memory` where an allocation fails.
    pub fn new(alloc: Global, stripes: u32) -> Result<Striped, Memory>
        requires { 0 < stripes }
        ensures elements { IfOk result (λ striped. striped.elements ≡ empty) }
        ensures stripes { IfOk result (λ striped. striped.stripes ≡ stripes) }
    {
        Ok(Striped {
            elements: Elements::new(alloc),
            places: Places::new(alloc, stripes as usize)?,
        })
    }

    /// These elements, with no room. `Memory` where an allocation fails.
    pub fn of_counts(alloc: Global, stripes: u32, counts: Counts) -> Result<Striped, Memory>
        requires { 0 < stripes }
        ensures elements { IfOk result (λ striped. striped.elements ≡ counts) }
        ensures stripes { IfOk result (λ striped. striped.stripes ≡ stripes) }
    {
        let elements = Elements::of_counts(alloc, counts)?;
        let places = Places::new(alloc, stripes as usize)?;
        Ok(Striped { elements, places })
    }

    /// A copy of the elements with the numbers of their copies. `Memory` where an allocation fails.
    pub fn to_counts(&self, alloc: Global) -> Result<Counts, Memory>
        ensures { IfOk result (λ counts. counts ≡ self.now.elements) }
    {
        self.elements.to_counts(alloc)
    }

    /// How many copies of the element there are, 0 for one that is not there.
    pub fn copies(&self, element: u64) -> u64
        ensures { result ≡ copies self.now.elements element }
    {
        self.elements.copies(element)
    }

    /// The least element that is left where one copy of an element is taken out.
    pub fn least_without(&self, element: u64) -> Option<u64>
        ensures { result ≡ least (one_fewer self.now.elements element) }
    {
        self.elements.least_without(element)
    }

    /// Gives an element this number of copies. There has to be room in its stripe, so it takes no memory.
    pub fn set_copies(&mut self, element: u64, count: u64)
        requires { 0 < slice_index_or self.old.room (element % self.old.stripes) 0 }
        ensures elements { self.new.elements ≡ with_copies self.old.elements element count }
        ensures stripes { self.new.stripes ≡ self.old.stripes }
        ensures room { (i : ℕ) → slice_index_or self.old.room i 0
            ≤ slice_index_or self.new.room i 0 + room_taken i (Some (element % self.old.stripes)) }
    {
        let at = (element % self.places.free.len() as u64) as usize;
        self.places.free[at] -= 1;
        self.places.held -= 1;
        self.elements.set_copies(element, count);
    }

    /// Makes room for the changes, in each stripe for as many as fall on it. Only those stripes are looked at. Where there is room for
    /// the changes, it is never refused.
    pub fn reserve<V>(&mut self, changes: &[Change<V>]) -> Result<(), Memory>
        ensures elements { self.new.elements ≡ self.old.elements }
        ensures stripes { self.new.stripes ≡ self.old.stripes }
        ensures ok { OnOk result (HasRoom self.new.stripes self.new.room changes.now) }
        ensures room { IsNoLess self.old.room self.new.room }
        ensures served { HasRoom self.old.stripes self.old.room changes.now → IsOk result }
    {
        self.elements.settle();
        let taken = take_each(&mut self.elements, &mut self.places, changes);
        give_each(&mut self.places, &changes[..taken]);
        if taken < changes.len() {
            return Err(Memory);
        }
        Ok(())
    }

    /// A copy, which has no room. `Memory` where an allocation fails.
    pub fn try_copy(&self, alloc: Global) -> Result<Striped, Memory>
        ensures elements { IfOk result (λ copy. copy.elements ≡ self.now.elements) }
        ensures stripes { IfOk result (λ copy. copy.stripes ≡ self.now.stripes) }
    {
        Ok(Striped {
            elements: self.elements.try_copy(alloc)?,
            places: Places::new(alloc, self.places.free.len())?,
        })
    }

    /// Becomes a copy of the other, of as many stripes, in the memory that it has as far as that suffices. It keeps no room.
    pub fn copy_from(&mut self, other: &Striped) -> Result<(), Memory>
        requires { self.old.stripes ≡ other.now.stripes }
        ensures elements { OnOk result (self.new.elements ≡ other.now.elements) }
        ensures stripes { self.new.stripes ≡ self.old.stripes }
    {
        self.places.clear();
        self.elements.copy_from(&other.elements)
    }
}
