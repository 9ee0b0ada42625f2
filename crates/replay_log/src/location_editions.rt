//! Locations, each with an edition.
ghost use Rattle.std.specs.Prelude.{◌≡◌, ◌≤◌, ◌++◌, ◌∷◌, [], OnErr, OnOk, length};

use seq_model::Memory;
use smallvec::SmallVec;
use std::alloc::Global;
use std::marker::Model;

/// Locations, each with an edition. Contracts see their list. One location takes no memory.
#[derive(Drop)]
pub struct LocationEditions {
    entries: SmallVec<(u32, u64), 1>,
}

impl Model for LocationEditions {
    ghost use Rattle.std.specs.Prelude.{List, ℕ};

    ghost Value = { List (ℕ × ℕ) };

    ghost view = { λ a. a.entries.items };
}

impl LocationEditions {
    /// No location. It takes no memory.
    pub fn new(alloc: Global) -> LocationEditions
        ensures { result ≡ [] }
    {
        LocationEditions {
            entries: SmallVec::new(alloc),
        }
    }

    /// One location.
    pub fn single(alloc: Global, location: u32, edition: u64) -> LocationEditions
        ensures { result ≡ (location, edition) ∷ [] }
    {
        let mut entries = SmallVec::new(alloc);
        entries.push_reserved((location, edition));
        LocationEditions { entries }
    }

    /// For how many locations there is memory: for one at least.
    pub fn capacity(&self) -> usize
        ensures { 1 ≤ result }
    {
        self.entries.capacity()
    }

    /// Takes all locations out. The memory is kept.
    pub fn clear(&mut self)
        ensures { self.new ≡ [] }
    {
        self.entries.clear();
    }

    /// Adds a location with its edition after the last. `Memory` where an allocation fails, which leaves the list as it was.
    pub fn push(&mut self, entry: (u32, u64)) -> Result<(), Memory>
        ensures ok { OnOk result (self.new ≡ self.old ++ entry ∷ []) }
        ensures err { OnErr result (self.new ≡ self.old) }
    {
        self.entries.push(entry)?;
        Ok(())
    }

    /// The locations with their editions, as they were added.
    pub fn as_slice(&self) -> &[(u32, u64)]
        ensures { result.now ≡ self.now }
    {
        self.entries.as_slice()
    }
}
