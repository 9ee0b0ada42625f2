//! How a priority queue makes room for changes without a look at the stripes that they don't fall on.
//!
//! All elements stand in one list, and each stripe has a number of *places*: how many of its elements may be put there with no memory
//! taken. The list has room for all places together. Room is made as changes use it up: each change takes a place of its stripe, and where
//! none is free, one is added. Then all places that were taken are given back.
ghost use Rattle.std.specs.Prelude.{◌≡◌, ℕ, ◌+◌, ◌<◌, ◌≤◌, Some, IfOk, OnOk, OnErr, IsOk, length, slice_index_or, sum, take};
ghost use Rattle.base_pq.specs.Room.{HasRoom, fallen, falling, room_taken, stripe_of};

use crate::elements::Elements;
use conflict::Change;
use seq_model::Memory;
use std::alloc::Global;

/// Places for elements, by stripe.
#[derive(Drop)]
pub struct Places {
    /// How many are free in each stripe.
    pub free: Vec<usize>,
    /// How many the list of elements has room for: those that are free, and those that are taken and will be given back.
    pub held: usize,
}

impl Places {
    /// None in any of so many stripes. `Memory` where an allocation fails.
    pub fn new(alloc: Global, stripes: usize) -> Result<Places, Memory>
        ensures count { IfOk result (λ places. length places.free.items ≡ stripes) }
        ensures fits { IfOk result (λ places. sum places.free.items ≤ places.held) }
        ensures held { IfOk result (λ places. places.held ≡ 0) }
    {
        let free = vec![in alloc; 0; stripes]?;
        Ok(Places { free, held: 0 })
    }

    /// Takes all places away. Where there is none, no stripe is looked at.
    pub fn clear(&mut self)
        requires fits { sum self.old.free.items ≤ self.old.held }
        ensures count { length self.new.free.items ≡ length self.old.free.items }
        ensures fits { sum self.new.free.items ≤ self.new.held }
        ensures held { self.new.held ≡ 0 }
    {
        if self.held != 0 {
            self.free.as_mut_slice().fill(0);
            self.held = 0;
        }
    }
}

/// The stripe, of so many, whose elements the change changes.
fn stripe_of<V>(count: usize, change: &Change<V>) -> Option<usize>
    requires { 0 < count }
    ensures { result ≡ stripe_of count change.now }
{
    match change {
        Change::Add(element) | Change::Take(element) => Some((*element % count as u64) as usize),
        _ => None,
    }
}

/// Takes a place of its stripe for each of the changes, and adds one where none is free. It answers for how many of them, from the first
/// on, there was memory.
pub fn take_each<V>(elements: &mut Elements, places: &mut Places, changes: &[Change<V>]) -> usize
    requires some { 0 < length places.old.free.items }
    requires fits { sum places.old.free.items ≤ places.old.held }
    requires room { places.old.held ≤ elements.old.room }
    ensures elements { elements.new.elements ≡ elements.old.elements }
    ensures within { result ≤ length changes.now }
    ensures count { length places.new.free.items ≡ length places.old.free.items }
    ensures fits { sum places.new.free.items + fallen (length places.old.free.items) (take result changes.now) ≤ places.new.held }
    ensures room { places.new.held ≤ elements.new.room }
    ensures taken { (i : ℕ) → slice_index_or places.old.free.items i 0
        ≤ slice_index_or places.new.free.items i 0 + falling (length places.old.free.items) i (take result changes.now) }
    ensures served { HasRoom (length places.old.free.items) places.old.free.items changes.now → result ≡ length changes.now }
{
    let count = places.free.len();
    let mut done = 0;
    for change in changes {
        if let Some(at) = stripe_of(count, change) {
            if take_one(elements, places, at).is_err() {
                return done;
            }
        }
        done += 1;
    }
    done
}

// Takes a place of this stripe, and adds one if none is free.
fn take_one(elements: &mut Elements, places: &mut Places, at: usize) -> Result<(), Memory>
    requires inside { at < length places.old.free.items }
    requires room { places.old.held ≤ elements.old.room }
    ensures elements { elements.new.elements ≡ elements.old.elements }
    ensures count { length places.new.free.items ≡ length places.old.free.items }
    ensures fits { OnOk result (sum places.new.free.items + places.old.held + 1 ≤ sum places.old.free.items + places.new.held) }
    ensures err { OnErr result (places.new ≡ places.old) }
    ensures room { places.new.held ≤ elements.new.room }
    ensures taken { (i : ℕ) → slice_index_or places.old.free.items i 0
        ≤ slice_index_or places.new.free.items i 0 + room_taken i (Some at) }
    ensures served { 0 < slice_index_or places.old.free.items at 0 → IsOk result }
{
    if places.free[at] > 0 {
        places.free[at] -= 1;
        return Ok(());
    }
    elements.reserve_after(places.held)?;
    places.held += 1;
    Ok(())
}

/// Gives back the place that each of the changes has taken of its stripe.
pub fn give_each<V>(places: &mut Places, changes: &[Change<V>])
    requires some { 0 < length places.old.free.items }
    requires taken { sum places.old.free.items + fallen (length places.old.free.items) changes.now ≤ places.old.held }
    ensures count { length places.new.free.items ≡ length places.old.free.items }
    ensures fits { sum places.new.free.items ≤ places.new.held }
    ensures held { places.new.held ≡ places.old.held }
    ensures given { (i : ℕ) → slice_index_or places.new.free.items i 0
        ≡ slice_index_or places.old.free.items i 0 + falling (length places.old.free.items) i changes.now }
{
    let count = places.free.len();
    for change in changes {
        if let Some(at) = stripe_of(count, change) {
            places.free[at] += 1;
        }
    }
}
