//! What an outcome of a map reads, writes and changes. It takes the number of stripes, and no map.
ghost use Rattle.std.specs.Prelude.{◌≡◌, ◌<◌, ◌≤◌, [], IsOk, IfOk, length, option_to_list};
ghost use Rattle.conflict.specs.Footprints.{key_location};
ghost use Rattle.base_map.specs.Conflicts.{changes_of, reads_of, writes_of};

use conflict::{Change, LocSet, Outcome};
use seq_model::{Memory, Op, Reply, Value};
use std::alloc::Global;

/// The location of the key.
pub fn location_in(stripes: u32, key: u64) -> u32
    requires { 0 < stripes }
    ensures location { result ≡ key_location stripes key }
    ensures within { result < stripes }
{
    (key % stripes as u64) as u32
}

/// The locations that the outcome reads. Up to eight are never refused.
pub fn reads_in<V>(alloc: Global, stripes: u32, outcome: &Outcome<V>) -> Result<LocSet, Memory>
    requires { 0 < stripes }
    ensures locations { IfOk result (λ set. set ≡ reads_of stripes outcome.now) }
    ensures served { length (reads_of stripes outcome.now) ≤ 8 → IsOk result }
{
    match &outcome.op {
        Op::Get(key) | Op::Put(key, _) | Op::Remove(key) => {
            Ok(LocSet::single(alloc, location_in(stripes, *key)))
        }
        Op::Len => LocSet::all_below(alloc, stripes),
        _ => Ok(LocSet::empty(alloc)),
    }
}

/// The locations that the outcome writes. They are never refused.
pub fn writes_in<V>(alloc: Global, stripes: u32, outcome: &Outcome<V>) -> Result<LocSet, Memory>
    requires { 0 < stripes }
    ensures locations { IfOk result (λ set. set ≡ writes_of stripes outcome.now) }
    ensures served { IsOk result }
{
    Ok(match (&outcome.op, &outcome.reply) {
        (Op::Put(key, _), _) | (Op::Remove(key), Reply::Value(_)) => {
            LocSet::single(alloc, location_in(stripes, *key))
        }
        _ => LocSet::empty(alloc),
    })
}

/// What the outcome changes, which is one thing at most. Where it is nothing, it is never refused.
pub fn change_in<V: Value>(outcome: &Outcome<V>) -> Result<Option<Change<V>>, Memory>
    ensures change { IfOk result (λ change. option_to_list change ≡ changes_of outcome.now) }
    ensures served { changes_of outcome.now ≡ [] → IsOk result }
{
    Ok(match (&outcome.op, &outcome.reply) {
        (Op::Put(key, value), _) => Some(Change::Put(*key, value.try_copy()?)),
        (Op::Remove(key), Reply::Value(_)) => Some(Change::Remove(*key)),
        _ => None,
    })
}
