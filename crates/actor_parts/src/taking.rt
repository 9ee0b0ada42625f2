//! What a call touches joins what a transaction has of collections, while the gate of its collection is held, and is taken back where
//! the call is not made.
ghost use Rattle.std.specs.Prelude.{◌≡◌, ◌+◌, ◌<◌, ◌≤◌, ◌^◌, IfOk, IfSome, OnErr, OnOk, Some, false, length, slice_index};
ghost use Rattle.std.specs.FinMap.{get};
ghost use Rattle.std.specs.Vec.{vec_capacity, vec_len};
ghost use Rattle.conflict.specs.Footprints.{key_location};
ghost use Rattle.conflict.specs.declared.outcome.Outcome.{Outcome};
ghost use Rattle.replay_log.specs.Base.{locations_of, outcome_of, shown_of, stripes_of};
ghost use Rattle.actor_parts.specs.PrivateCopy.{IsKept};
ghost use Rattle.actor_parts.specs.CopyList.{HaveSame};
ghost use Rattle.actor_parts.specs.Sizes.{HasAtMost, is_on_key};
ghost use Rattle.actor_parts.specs.Taking.{IsAdded, IsOnKey, IsPushed, IsTakenAt, IsTakenFrom, TakenBack, TakesBack, fits_base};
ghost use Rattle.actor_parts.specs.Taking.{key_touch};
ghost use Rattle.actor_parts.specs.declared.copies.BaseExcerpt.TheVariants.{Keys};

use crate::copies::{BaseExcerpt, CopyOfCollection, PrivateCopy, find};
use crate::first::{first_copy, first_key};
use crate::footprints::{all_read, position_of};
use crate::room::{has_room, has_room_below, surely_fits};
use crate::spares::Spares;
use base_map::MapBase;
use replay_log::Base;
use seq_model::{Memory, Op, Value};
use std::alloc::Global;
use step_core::Actor;

/// A call reads at most the stripes of its collection and so many locations more.
const OTHER_READS: usize = 2;

/// A call writes at most so many locations.
const MOST_WRITES: usize = 2;

/// Whether the call is on one key of a map or a multiset, if on any.
#[inline(always)]
fn is_on_key<V: Value>(base: &Base<V>, op: &Op<V>) -> bool
    ensures { result ≡ is_on_key (shown_of base.now) op.now }
{
    match base {
        Base::Map(_) => !matches!(op, Op::Len),
        Base::Bag(_) => true,
        Base::Pq(_) | Base::Queue(_) => false,
    }
}

/// How many locations the call on the base, which has so many stripes, reads and writes at most. On a key it is the one of the key.
#[inline(always)]
fn most_of<V: Value>(base: &Base<V>, stripes: u32, op: &Op<V>) -> (usize, usize)
    requires { stripes ≡ stripes_of base.now }
    ensures { HasAtMost base.now op.now result.0 result.1 }
{
    if is_on_key(base, op) {
        (1, 1)
    } else {
        (stripes as usize + OTHER_READS, MOST_WRITES)
    }
}

/// Whether the locations of the call on the base as it is, which has so many stripes, fit the sets of the transaction. The collection
/// begins at location `first`. It is asked before anything is learnt for the call: an edition that is learnt is not forgotten. Where the
/// sets have room for the locations of any call on the base, the outcome of this one is not sought.
#[inline(always)]
pub fn fits_base<V: Value>(
    words: &Actor,
    base: &Base<V>,
    stripes: u32,
    first: u32,
    op: &Op<V>,
) -> Result<bool, Memory>
    requires count { stripes ≡ stripes_of base.now }
    requires stripes { 0 < stripes_of base.now }
    requires range { first + locations_of (stripes_of base.now) (shown_of base.now) ≤ 2 ^ 32 }
    ensures fits { IfOk result (λ fits. (o : Outcome V) → outcome_of op.now (shown_of base.now) ≡ Some o →
        fits ≡ fits_base words.now base.now first o) }
    ensures known { IfOk result (λ fits. fits ≡ false → (o : Outcome V) × (outcome_of op.now (shown_of base.now) ≡ Some o)) }
{
    let (reads, writes) = most_of(base, stripes, op);
    if surely_fits(words, reads, writes) {
        Ok(true)
    } else {
        fits_outcome(words, base, first, op)
    }
}

#[inline(never)]
fn fits_outcome<V: Value>(
    words: &Actor,
    base: &Base<V>,
    first: u32,
    op: &Op<V>,
) -> Result<bool, Memory>
    requires stripes { 0 < stripes_of base.now }
    requires range { first + locations_of (stripes_of base.now) (shown_of base.now) ≤ 2 ^ 32 }
    ensures { IfOk result (λ fits. (o : Outcome V) × (outcome_of op.now (shown_of base.now) ≡ Some o)
        × (fits ≡ fits_base words.now base.now first o)) }
{
    match base.outcome(op) {
        Ok(outcome) => {
            let writes = base.writes(&outcome)?;
            match all_read(base, &outcome) {
                Some(count) => Ok(has_room_below(words, first, count, &writes)),
                None => {
                    let reads = base.reads(&outcome)?;
                    Ok(has_room(words, first, &reads, &writes))
                }
            }
        }
        Err(_) => Err(Memory),
    }
}

/// The copy has what was found besides. A whole collection that is copied already has all.
fn add<V: Value>(
    copied: &mut PrivateCopy<V>,
    spares: &mut Spares<V>,
    found: BaseExcerpt<V>,
) -> Result<(), Memory>
    ensures ok { OnOk result (IsAdded found copied.old copied.new) }
    ensures err { OnErr result (IsKept copied.old copied.new) }
{
    match found {
        BaseExcerpt::Keys(touch) => {
            let editions = copied.learn(touch)?;
            spares.keep_editions(editions);
        }
        BaseExcerpt::Whole(_) => {}
    }
    Ok(())
}

// Room for one copy more, and to keep its memory once it goes.
fn make_room<V: Drop>(
    copies: &mut Vec<CopyOfCollection<V>>,
    spares: &mut Spares<V>,
) -> Result<(), Memory>
    ensures items { copies.new.items ≡ copies.old.items }
    ensures ok { OnOk result (vec_len copies.new < vec_capacity copies.new) }
{
    copies.reserve(1)?;
    spares.reserve(copies.len().saturating_add(1))?;
    Ok(())
}

#[inline(never)]
fn push_first<V: Value>(
    copies: &mut Vec<CopyOfCollection<V>>,
    spares: &mut Spares<V>,
    alloc: Global,
    stripes: u32,
    collection: u32,
    found: BaseExcerpt<V>,
) -> Result<(), Memory>
    ensures ok { OnOk result (IsPushed stripes collection found copies.old.items copies.new.items) }
    ensures err { OnErr result (copies.new.items ≡ copies.old.items) }
{
    make_room(copies, spares)?;
    match first_copy(spares, alloc, stripes, found) {
        Ok(copied) => {
            copies.push_reserved(CopyOfCollection { collection, copied });
            Ok(())
        }
        Err(_) => Err(Memory),
    }
}

/// What was found of the collection for a call is taken: where there is a copy of it that learns it, and else a first copy. Returns where
/// that stands. `Memory`, where an allocation fails, leaves the pieces that there were.
pub fn take<V: Value>(
    copies: &mut Vec<CopyOfCollection<V>>,
    spares: &mut Spares<V>,
    alloc: Global,
    stripes: u32,
    collection: u32,
    found: BaseExcerpt<V>,
) -> Result<usize, Memory>
    ensures ok { IfOk result (λ place. IsTakenAt stripes collection found place copies.old.items copies.new.items) }
    ensures err { OnErr result (HaveSame copies.old.items copies.new.items) }
{
    match position_of(copies, collection) {
        Some(place) => {
            match add(&mut copies[place].copied, spares, found) {
                Ok(()) => Ok(place),
                Err(_) => Err(Memory),
            }
        }
        None => {
            let place = copies.len();
            push_first(copies, spares, alloc, stripes, collection, found)?;
            Ok(place)
        }
    }
}

#[inline(never)]
fn push_key<V: Value>(
    copies: &mut Vec<CopyOfCollection<V>>,
    spares: &mut Spares<V>,
    alloc: Global,
    stripes: u32,
    collection: u32,
    key: u64,
    value: Option<V>,
    location: u32,
    edition: u64,
) -> Result<(), Memory>
    ensures ok { OnOk result
        (IsPushed stripes collection (Keys (key_touch key value location edition)) copies.old.items copies.new.items) }
    ensures err { OnErr result (copies.new.items ≡ copies.old.items) }
{
    make_room(copies, spares)?;
    match first_key(spares, alloc, stripes, key, value, location, edition) {
        Ok(copied) => {
            copies.push_reserved(CopyOfCollection { collection, copied });
            Ok(())
        }
        Err(_) => Err(Memory),
    }
}

/// What the map has of the key is taken, as by `take`.
fn take_key<V: Value>(
    copies: &mut Vec<CopyOfCollection<V>>,
    spares: &mut Spares<V>,
    alloc: Global,
    stripes: u32,
    collection: u32,
    map: &MapBase<V>,
    key: u64,
) -> Result<usize, Memory>
    ensures ok { IfOk result (λ place. IsTakenAt stripes collection
        (Keys (key_touch key (get map.now.shown key) (key_location map.now.stripes key)
        (slice_index map.now.editions (key_location map.now.stripes key))))
        place copies.old.items copies.new.items) }
    ensures err { OnErr result (HaveSame copies.old.items copies.new.items) }
{
    let location = map.location_of(key);
    let edition = map.edition(location);
    let value = map.entry(key)?;
    match position_of(copies, collection) {
        Some(place) => {
            copies[place]
                .copied
                .learn_key(key, value, location, edition)?;
            Ok(place)
        }
        None => {
            let place = copies.len();
            push_key(
                copies, spares, alloc, stripes, collection, key, value, location, edition,
            )?;
            Ok(place)
        }
    }
}

fn take_found<V: Value>(
    copies: &mut Vec<CopyOfCollection<V>>,
    spares: &mut Spares<V>,
    alloc: Global,
    stripes: u32,
    collection: u32,
    base: &Base<V>,
    op: &Op<V>,
) -> Result<usize, Memory>
    ensures ok { IfOk result (λ place. IsTakenFrom stripes collection base.now op.now place copies.old.items copies.new.items) }
    ensures err { OnErr result (HaveSame copies.old.items copies.new.items) }
{
    match find(spares, alloc, base, op) {
        Ok(found) => {
            let place = take(copies, spares, alloc, stripes, collection, found)?;
            Ok(place)
        }
        Err(_) => Err(Memory),
    }
}

/// The key that a call on a map is on, if it is on one.
fn map_key<V>(op: &Op<V>) -> Option<u64>
    ensures { IfSome result (λ key. IsOnKey key op.now) }
{
    match op {
        Op::Get(key) | Op::Put(key, _) | Op::Remove(key) => Some(*key),
        _ => None,
    }
}

/// What the call touches of the base is found and taken. `Memory`, where an allocation fails or the call is of another kind, leaves the
/// pieces that there were.
pub fn take_from<V: Value>(
    copies: &mut Vec<CopyOfCollection<V>>,
    spares: &mut Spares<V>,
    alloc: Global,
    stripes: u32,
    collection: u32,
    base: &Base<V>,
    op: &Op<V>,
) -> Result<usize, Memory>
    ensures ok { IfOk result (λ place. IsTakenFrom stripes collection base.now op.now place copies.old.items copies.new.items) }
    ensures err { OnErr result (HaveSame copies.old.items copies.new.items) }
{
    match base {
        Base::Map(map) => match map_key(op) {
            Some(key) => {
                let place = take_key(copies, spares, alloc, stripes, collection, map, key)?;
                Ok(place)
            }
            None => take_found(copies, spares, alloc, stripes, collection, base, op),
        },
        _ => take_found(copies, spares, alloc, stripes, collection, base, op),
    }
}

/// What was taken for a call that is not made goes: the copy at this position forgets what the call touches, where it is one of the first
/// `count` copies, and goes itself where it is not.
pub fn take_back<V: Value>(
    copies: &mut Vec<CopyOfCollection<V>>,
    count: usize,
    place: usize,
    op: &Op<V>,
)
    requires { place < length copies.old.items }
    ensures { TakesBack count place op.now copies.old.items copies.new.items }
{
    if place < count {
        copies[place].copied.forget(op);
    } else {
        copies.truncate(count);
    }
}

/// What was taken for a call that is not made, and is taken back, leaves the pieces that there were.
pub fn taken_back<V: Value>()
    ensures { TakenBack V }
{}
