//! What an outcome of a multiset reads, writes and changes. It takes the number of stripes, and no multiset.
ghost use Rattle.std.specs.Prelude.{◌≡◌, ◌<◌, IsOk, IfOk, option_to_list};
ghost use Rattle.conflict.specs.Footprints.{key_location};
ghost use Rattle.base_bag.specs.Conflicts.{changes_of, reads_of, writes_of};

use conflict::{Change, LocSet, Outcome};
use seq_model::{Memory, Op, Reply};
use std::alloc::Global;

/// The location of the element.
pub fn location_in(stripes: u32, element: u64) -> u32
    requires { 0 < stripes }
    ensures location { result ≡ key_location stripes element }
    ensures within { result < stripes }
{
    (element % stripes as u64) as u32
}

/// The locations that the outcome reads. They are never refused.
pub fn reads_in<V>(alloc: Global, stripes: u32, outcome: &Outcome<V>) -> Result<LocSet, Memory>
    requires { 0 < stripes }
    ensures locations { IfOk result (λ set. set ≡ reads_of stripes outcome.now) }
    ensures served { IsOk result }
{
    Ok(match &outcome.op {
        Op::Count(element) | Op::Add(element) | Op::Take(element) => {
            LocSet::single(alloc, location_in(stripes, *element))
        }
        _ => LocSet::empty(alloc),
    })
}

/// The locations that the outcome writes. They are never refused.
pub fn writes_in<V>(alloc: Global, stripes: u32, outcome: &Outcome<V>) -> Result<LocSet, Memory>
    requires { 0 < stripes }
    ensures locations { IfOk result (λ set. set ≡ writes_of stripes outcome.now) }
    ensures served { IsOk result }
{
    Ok(match (&outcome.op, &outcome.reply) {
        (Op::Add(element), Reply::Done) | (Op::Take(element), Reply::Yes) => {
            LocSet::single(alloc, location_in(stripes, *element))
        }
        _ => LocSet::empty(alloc),
    })
}

/// What the outcome changes, which is one thing at most. It is never refused.
pub fn change_in<V: Drop>(outcome: &Outcome<V>) -> Result<Option<Change<V>>, Memory>
    ensures change { IfOk result (λ change. option_to_list change ≡ changes_of outcome.now) }
    ensures served { IsOk result }
{
    Ok(match (&outcome.op, &outcome.reply) {
        (Op::Add(element), Reply::Done) => Some(Change::Add(*element)),
        (Op::Take(element), Reply::Yes) => Some(Change::Take(*element)),
        _ => None,
    })
}
