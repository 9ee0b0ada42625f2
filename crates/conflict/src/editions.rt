//! The editions of a collection's locations: for each the number of commits that changed it. A reader compares the edition of
//! a copy with that of the location to see that the copy is not stale.
ghost use Rattle.std.specs.Prelude.{◌≡◌, ◌^◌, ◌<◌, All, replicate, IfOk, length, slice_index};
ghost use Rattle.conflict.specs.Editions.{raised};

use crate::loc_set::LocSet;
use seq_model::Memory;
use std::alloc::Global;
use std::marker::Model;

/// An edition for each location from 0 on. Contracts see it as the list of the editions.
pub struct Editions {
    numbers: Vec<u64>,
}

impl Drop for Editions {
    fn drop(self) {
        let Editions { numbers: _ } = self;
    }
}

impl Model for Editions {
    ghost use Rattle.std.specs.Prelude.{List, ℕ};

    ghost Value = { List ℕ };

    ghost view = { λ a. a.numbers.items };
}

impl Editions {
    /// The edition 0 for so many locations. `Memory` where an allocation fails.
    pub fn new(alloc: Global, locations: u32) -> Result<Editions, Memory>
        ensures { IfOk result (λ editions. editions ≡ replicate locations 0) }
    {
        let numbers = vec![in alloc; 0; locations as usize]?;
        Ok(Editions { numbers })
    }

    /// The edition of the location, one of those that there are.
    pub fn edition(&self, location: u32) -> u64
        requires { location < length self.now }
        ensures { result ≡ slice_index self.now location }
    {
        self.numbers[location as usize]
    }

    /// Raises the edition of each of these locations by one.
    pub fn raise(&mut self, written: &LocSet)
        requires within { All (λ location. location < length self.old) written.now }
        requires below { All (λ location. slice_index self.old location < 2 ^ 63) written.now }
        ensures raised { self.new ≡ raised written.now self.old }
        ensures len { length self.new ≡ length self.old }
    {
        raise_numbers(&mut self.numbers, written);
    }

    /// The same editions. `Memory` where an allocation fails.
    pub fn try_copy(&self) -> Result<Editions, Memory>
        ensures { IfOk result (λ copy. copy ≡ self.now) }
    {
        let numbers = Vec::from_slice(*self.numbers.allocator(), self.numbers.as_slice())?;
        Ok(Editions { numbers })
    }

    /// Becomes a copy of the others, of which there are as many. It takes no memory.
    pub fn copy_from(&mut self, others: &Editions)
        requires { length self.old ≡ length others.now }
        ensures { self.new ≡ others.now }
    {
        self.numbers.copy_from_slice(others.numbers.as_slice());
    }

    /// Where the memory of the list comes from.
    pub fn allocator(&self) -> Global {
        *self.numbers.allocator()
    }
}

fn raise_numbers(numbers: &mut Vec<u64>, written: &LocSet)
    requires within { All (λ location. location < length numbers.old.items) written.now }
    requires below { All (λ location. slice_index numbers.old.items location < 2 ^ 63) written.now }
    ensures items { numbers.new.items ≡ raised written.now numbers.old.items }
    ensures len { length numbers.new.items ≡ length numbers.old.items }
{
    for location in written.as_slice() {
        numbers[*location as usize] += 1;
    }
}
