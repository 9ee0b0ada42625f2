//! Small sets of locations, and when two outcomes conflict by theirs.
ghost use Rattle.std.specs.Prelude.{◌≡◌, ◌<◌, ◌≤◌, ◌↔◌, ℕ, [], ◌∷◌, IsTrue, IsOk, IfOk, Any, Contains};
ghost use Rattle.std.specs.List.{range_with_len};
ghost use Rattle.std.specs.List.Sorted.{IsStrictlyIncreasing};
ghost use Rattle.conflict.specs.Rules.{AreConflicting};

use seq_model::Memory;
use smallvec::SmallVec;
use std::alloc::Global;
use std::marker::Model;

/// A set of locations. Contracts see it as the list of its locations, which rises strictly. Up to eight take no memory.
pub struct LocSet {
    locations: SmallVec<u32, 8>,
}

impl Drop for LocSet {
    fn drop(self) {
        let LocSet { locations: _ } = self;
    }
}

impl Model for LocSet {
    ghost use Rattle.std.specs.Prelude.{List, ℕ};
    ghost use Rattle.std.specs.List.Sorted.{IsStrictlyIncreasing};

    ghost Value = { List ℕ };

    ghost view = { λ a. a.locations.items };

    ghost invariant = { λ a. IsStrictlyIncreasing a.locations.items };
}

impl LocSet {
    /// No location.
    pub fn empty(alloc: Global) -> LocSet
        ensures { result ≡ [] }
    {
        LocSet {
            locations: SmallVec::new(alloc),
        }
    }

    /// One location.
    pub fn single(alloc: Global, location: u32) -> LocSet
        ensures { result ≡ location ∷ [] }
    {
        let mut locations = SmallVec::new(alloc);
        locations.push_reserved(location);
        LocSet { locations }
    }

    /// Two locations, the lower one first.
    pub fn pair(alloc: Global, lower: u32, higher: u32) -> LocSet
        requires { lower < higher }
        ensures { result ≡ lower ∷ higher ∷ [] }
    {
        let mut locations = SmallVec::new(alloc);
        locations.push_reserved(lower);
        locations.push_reserved(higher);
        LocSet { locations }
    }

    /// The first `count` locations, from 0 on. Up to eight are never refused.
    pub fn all_below(alloc: Global, count: u32) -> Result<LocSet, Memory>
        ensures locations { IfOk result (λ set. set ≡ range_with_len 0 count) }
        ensures served { count ≤ 8 → IsOk result }
    {
        let mut locations = SmallVec::new(alloc);
        for location in 0..count {
            locations.push(location)?;
        }
        Ok(LocSet { locations })
    }

    /// The set of these locations, in whatever order and however often they come. It takes no memory.
    pub fn from_locations(mut locations: SmallVec<u32, 8>) -> LocSet
        ensures members { (location : ℕ) → Contains result location ↔ Contains locations.items location }
        ensures rising { IsStrictlyIncreasing result }
    {
        locations.as_mut_slice().sort_unstable();
        locations.dedup();
        LocSet { locations }
    }

    /// The locations, rising.
    pub fn as_slice(&self) -> &[u32]
        ensures locations { result.now ≡ self.now }
        ensures rising { IsStrictlyIncreasing self.now }
    {
        self.locations.as_slice()
    }

    /// The list of its locations, with its memory.
    pub fn into_locations(self) -> SmallVec<u32, 8>
        ensures { result.items ≡ self }
    {
        let LocSet { locations } = self;
        locations
    }

    /// Whether the location is in the set.
    pub fn contains(&self, location: u32) -> bool
        ensures { IsTrue result ↔ Contains self.now location }
    {
        self.as_slice().contains(&location)
    }

    // Whether the two sets have a location in common.
    fn meets(&self, other: &LocSet) -> bool
        ensures { IsTrue result ↔ Any (Contains other.now) self.now }
    {
        self.as_slice()
            .iter()
            .any(|location| other.contains(*location))
    }
}

/// Whether two outcomes conflict: a location that one of them writes is read by the other.
pub fn conflicts(
    reads: &LocSet,
    writes: &LocSet,
    other_reads: &LocSet,
    other_writes: &LocSet,
) -> bool
    ensures { IsTrue result
        ↔ AreConflicting reads.now writes.now other_reads.now other_writes.now }
{
    writes.meets(other_reads) || other_writes.meets(reads)
}
