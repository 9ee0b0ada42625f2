//! The locations of a call on a collection that is copied, with the editions with which they were copied.
ghost use Rattle.std.specs.Prelude.{◌≡◌, ◌+◌, ◌<◌, ◌≤◌, ◌^◌, [], ◌∷◌, All, IfOk, IfSome, OnOk};
ghost use Rattle.conflict.specs.Footprints.{all_below};
ghost use Rattle.replay_log.specs.Base.{reads_of, shown_of, stripes_of};
ghost use Rattle.shadow.specs.KeyLocation.{written_there};
ghost use Rattle.actor_parts.specs.Footprints.{IsPositionOf, known_edition, location_count, reads_in, with_known, writes_in};

use crate::copies::{CopyOfCollection, PrivateCopy};
use conflict::{LocSet, Outcome};
use replay_log::Base;
use seq_model::{Memory, Op, Reply, Value};
use shadow::KeyLocation;
use std::collections::VecDeque;

/// Where the copy of a collection stands. A transaction touches few collections.
pub fn position_of<V>(copies: &[CopyOfCollection<V>], collection: u32) -> Option<usize>
    ensures { IsPositionOf copies.now collection result }
{
    let mut i = 0;
    while i < copies.len() {
        if copies[i].collection == collection {
            return Some(i);
        }
        i += 1;
    }
    None
}

/// How many locations a base has, where an outcome reads them all.
pub(crate) fn all_read<V: Value>(base: &Base<V>, outcome: &Outcome<V>) -> Option<u32>
    ensures { IfSome result (λ count.
        reads_of (stripes_of base.now) outcome.now (shown_of base.now) ≡ all_below count) }
{
    match (base, &outcome.op, &outcome.reply) {
        (Base::Map(base), Op::Len, _) => Some(base.stripes()),
        (Base::Pq(base), Op::TakeLeast, Reply::Found(_)) => {
            let stripes = base.stripes();
            if stripes < u32::MAX {
                Some(stripes + 1)
            } else {
                None
            }
        }
        _ => None,
    }
}

impl<V: Value> PrivateCopy<V> {
    /// The locations that an outcome reads. `Memory` where an allocation fails; up to eight locations take none.
    pub fn reads(&self, outcome: &Outcome<V>) -> Result<LocSet, Memory>
        ensures { IfOk result (λ set. set ≡ reads_in self.now outcome.now) }
    {
        match self {
            PrivateCopy::Keys(memo, _) => memo.get().reads(outcome),
            PrivateCopy::Whole(shadow) => shadow.get().base().reads(outcome),
        }
    }

    /// How many locations there are, where an outcome reads them all: they take no set.
    pub(crate) fn all_read(&self, outcome: &Outcome<V>) -> Option<u32>
        ensures { IfSome result (λ count. reads_in self.now outcome.now ≡ all_below count) }
    {
        match self {
            PrivateCopy::Keys(memo, _) => memo.get().all_read(outcome),
            PrivateCopy::Whole(shadow) => all_read(shadow.get().base(), outcome),
        }
    }

    /// The locations that an outcome writes, two at most. They take no memory.
    pub fn writes(&self, outcome: &Outcome<V>) -> Result<LocSet, Memory>
        ensures { IfOk result (λ set. set ≡ writes_in self.now outcome.now) }
    {
        match self {
            PrivateCopy::Keys(memo, _) => memo.get().writes(outcome),
            PrivateCopy::Whole(shadow) => shadow.get().base().writes(outcome),
        }
    }

    /// The location of the key of an outcome, which is all that it reads, and whether it writes there; none for an outcome on no key of a
    /// map or a multiset.
    pub(crate) fn key_location(&self, outcome: &Outcome<V>) -> Option<KeyLocation>
        ensures reads { IfSome result (λ at. reads_in self.now outcome.now ≡ at.location ∷ []) }
        ensures writes { IfSome result (λ at. writes_in self.now outcome.now ≡ written_there at) }
    {
        match self {
            PrivateCopy::Keys(memo, _) => memo.get().key_location(outcome),
            PrivateCopy::Whole(_) => None,
        }
    }

    /// The edition with which a location was copied.
    #[inline(always)]
    pub fn edition(&self, location: u32) -> u64
        requires { location < location_count self.now }
        ensures { result ≡ known_edition self.now location }
    {
        match self {
            PrivateCopy::Keys(_, editions) => match editions.get().get(location as u64) {
                Some(edition) => *edition,
                None => 0,
            },
            PrivateCopy::Whole(shadow) => shadow.get().base().edition(location),
        }
    }
}

/// Locations of a collection that begins at location `first`, with the editions with which they were copied, in place of what the list
/// held.
pub(crate) fn with_known<V: Value>(
    left: &mut VecDeque<(u32, u64)>,
    copied: &PrivateCopy<V>,
    first: u32,
    locations: &LocSet,
) -> Result<(), Memory>
    requires within { All (λ location. location < location_count copied.now) locations.now }
    requires range { All (λ location. first + location < 2 ^ 32) locations.now }
    ensures { OnOk result (left.new.items ≡ with_known copied.now first locations.now) }
{
    left.clear();
    for location in locations.as_slice() {
        left.push_back((first + *location, copied.edition(*location)))?;
    }
    Ok(())
}

/// The first `count` locations likewise.
pub(crate) fn with_known_below<V: Value>(
    left: &mut VecDeque<(u32, u64)>,
    copied: &PrivateCopy<V>,
    first: u32,
    count: u32,
) -> Result<(), Memory>
    requires within { count ≤ location_count copied.now }
    requires range { first + count ≤ 2 ^ 32 }
    ensures { OnOk result (left.new.items ≡ with_known copied.now first (all_below count)) }
{
    left.clear();
    for location in 0..count {
        left.push_back((first + location, copied.edition(location)))?;
    }
    Ok(())
}
