//! What is copied of a map or a multiset for a call: a key, or how many keys each stripe has, or their sum.
ghost use Rattle.std.specs.Prelude.{◌≡◌, ◌∷◌, [], Some, None, IfOk, IfErr, slice_index};
ghost use Rattle.std.specs.FinMap.{get};
ghost use Rattle.seq_model.specs.Calls.{IsRefusal};
ghost use Rattle.seq_model.specs.declared.call.Op.TheVariants.{Len};
ghost use Rattle.conflict.specs.Footprints.{all_below, key_location};
ghost use Rattle.replay_log.specs.Base.{OfMap, OfBag};
ghost use Rattle.replay_log.specs.Touches.{editions_at, summed_by, touched_by, touched_locations};
ghost use Rattle.replay_log.specs.declared.touch.TouchedKey.TheVariants as touched;

use crate::location_editions::LocationEditions;
use base_bag::BagBase;
use base_map::MapBase;
use seq_model::{Items, Memory, Op, Refusal, Value};
use std::mem;

/// What is copied.
#[derive(Drop)]
pub enum TouchedKey<V> {
    /// In a map, the key with its value, if it has one.
    Entry(u64, Option<V>),
    /// In a multiset, the element with the number of its copies.
    Copies(u64, u64),
    /// Of a map, the number of keys on each stripe, in order: a key is on that of its remainder.
    Counts(Items<u64>),
    /// Of a map, the number of all its keys.
    Total(u64),
}

/// What is copied, with the editions of the locations that it was copied from.
#[derive(Drop)]
pub struct Touch<V> {
    pub editions: LocationEditions,
    pub held: TouchedKey<V>,
}

pub(crate) fn touch_map<V: Value>(base: &MapBase<V>, op: &Op<V>) -> Result<Touch<V>, Refusal>
    ensures editions { IfOk result
        (λ touch. touch.editions ≡ editions_at (touched_locations base.now.stripes touch.held) base.now.editions) }
    ensures held { IfOk result (λ touch. touched_by base.now.stripes op.now (OfMap base.now.shown) ≡ Some touch.held) }
    ensures refused { IfErr result (λ refusal. IsRefusal refusal (touched_by base.now.stripes op.now (OfMap base.now.shown) ≡ None)) }
{
    let key = match op {
        Op::Get(key) | Op::Put(key, _) | Op::Remove(key) => *key,
        Op::Len => return Ok(touch_counts(base)?),
        _ => return Err(Refusal::NoSuch),
    };
    Ok(touch_key(base, key)?)
}

/// The same with the counts summed, in the memory of the list that is lent.
pub(crate) fn touch_map_summed<V: Value>(
    base: &MapBase<V>,
    op: &Op<V>,
    lent: &mut LocationEditions,
) -> Result<Touch<V>, Refusal>
    ensures editions { IfOk result
        (λ touch. touch.editions ≡ editions_at (touched_locations base.now.stripes touch.held) base.now.editions) }
    ensures held { IfOk result (λ touch. summed_by base.now.stripes op.now (OfMap base.now.shown) ≡ Some touch.held) }
    ensures refused { IfErr result (λ refusal. IsRefusal refusal (summed_by base.now.stripes op.now (OfMap base.now.shown) ≡ None)) }
{
    let key = match op {
        Op::Get(key) | Op::Put(key, _) | Op::Remove(key) => *key,
        Op::Len => return Ok(touch_total(base, lent)?),
        _ => return Err(Refusal::NoSuch),
    };
    Ok(touch_key(base, key)?)
}

fn touch_key<V: Value>(base: &MapBase<V>, key: u64) -> Result<Touch<V>, Memory>
    ensures editions { IfOk result
        (λ touch. touch.editions ≡ editions_at (key_location base.now.stripes key ∷ []) base.now.editions) }
    ensures held { IfOk result (λ touch. touch.held ≡ touched.Entry key (get base.now.shown key)) }
{
    let location = base.location_of(key);
    let editions = LocationEditions::single(base.allocator(), location, base.edition(location));
    let held = TouchedKey::Entry(key, base.entry(key)?);
    Ok(Touch { editions, held })
}

fn touch_counts<V: Value>(base: &MapBase<V>) -> Result<Touch<V>, Memory>
    ensures editions { IfOk result
        (λ touch. touch.editions ≡ editions_at (touched_locations base.now.stripes touch.held) base.now.editions) }
    ensures held { IfOk result (λ touch. touched_by base.now.stripes Len (OfMap base.now.shown) ≡ Some touch.held) }
{
    let mut fresh = LocationEditions::new(base.allocator());
    let editions = all_editions(base, &mut fresh)?;
    let held = TouchedKey::Counts(base.counts()?);
    Ok(Touch { editions, held })
}

fn touch_total<V: Value>(base: &MapBase<V>, lent: &mut LocationEditions) -> Result<Touch<V>, Memory>
    ensures editions { IfOk result
        (λ touch. touch.editions ≡ editions_at (touched_locations base.now.stripes touch.held) base.now.editions) }
    ensures held { IfOk result (λ touch. summed_by base.now.stripes Len (OfMap base.now.shown) ≡ Some touch.held) }
{
    let editions = all_editions(base, lent)?;
    let held = TouchedKey::Total(base.len() as u64);
    Ok(Touch { editions, held })
}

fn all_editions<V: Value>(
    base: &MapBase<V>,
    lent: &mut LocationEditions,
) -> Result<LocationEditions, Memory>
    ensures { IfOk result (λ editions. editions ≡ editions_at (all_below base.now.stripes) base.now.editions) }
{
    let mut editions = mem::replace(lent, LocationEditions::new(base.allocator()));
    editions.clear();
    for location in 0..base.stripes() {
        editions.push((location, base.edition(location)))?;
    }
    Ok(editions)
}

pub(crate) fn touch_bag<V: Value>(base: &BagBase, op: &Op<V>) -> Result<Touch<V>, Refusal>
    ensures editions { IfOk result
        (λ touch. touch.editions ≡ editions_at (touched_locations base.now.stripes touch.held) base.now.editions) }
    ensures held { IfOk result (λ touch. touched_by base.now.stripes op.now (OfBag base.now.shown) ≡ Some touch.held) }
    ensures refused { IfErr result (λ refusal. IsRefusal refusal (touched_by base.now.stripes op.now (OfBag base.now.shown) ≡ None)) }
{
    let element = match op {
        Op::Count(element) | Op::Add(element) | Op::Take(element) => *element,
        _ => return Err(Refusal::NoSuch),
    };
    let location = base.location_of(element);
    let editions = LocationEditions::single(base.allocator(), location, base.edition(location));
    let held = TouchedKey::Copies(element, base.copies(element));
    Ok(Touch { editions, held })
}
