//! What an opening is refused for, and the bases of its collections.
ghost use Rattle.std.specs.Prelude.{◌≡◌, ◌<◌, ◌≤◌, All, IfNone, IfOk, IfSome, Some, length, replicate};
ghost use Rattle.seq_model.specs.Calls.{IsWithinLimits};
ghost use Rattle.conflict.specs.Refusals.{IsStripeCountOf};
ghost use Rattle.replay_log.specs.Base.{editions_of, locations_of, shown_of, stripes_of, view_of};
ghost use Rattle.replay_log.specs.Collections.{kind_of_held};
ghost use Rattle.replay_log.specs.Contents.{end_of, size_by};
ghost use Rattle.actor_parts.specs.Openings.{AreOpened, AreStripeCounts, blocks_of};

use crate::blocks::{COLLECTION_LIMIT, TABLE_LIMIT};
use conflict::is_stripe_count_of;
use replay_log::Base;
use seq_model::{Held, Memory, Refusal, Value};
use std::alloc::Global;

// How many locations a collection has in so many stripes.
fn size<V>(held: &Held<V>, stripes: u32) -> usize
    ensures { result ≡ size_by (kind_of_held held.now) stripes }
{
    let count = stripes as usize;
    match held {
        Held::Map(_) | Held::Bag(_) => count,
        Held::Pq(_) => count + 1,
        Held::Queue { .. } => count + 2,
    }
}

/// How many locations there are, of so many words and of these collections; none, where a collection can't have so many stripes, or
/// there are more locations than a world may have.
pub fn locations<V>(words: usize, stripes: &[u32], held: &[Held<V>]) -> Option<usize>
    requires { length stripes.now ≡ length held.now }
    ensures count { IfSome result (λ count. count ≡ end_of words (blocks_of stripes.now held.now)) }
    ensures fits { IfSome result (λ count. AreStripeCounts stripes.now held.now × (count ≤ TABLE_LIMIT)) }
    ensures none { IfNone result (AreStripeCounts stripes.now held.now → TABLE_LIMIT < end_of words (blocks_of stripes.now held.now)) }
{
    if words > TABLE_LIMIT as usize {
        return None;
    }
    let mut end = words;
    for (i, count) in stripes.iter().enumerate() {
        let collection = &held[i];
        if !is_stripe_count_of(collection, *count) {
            return None;
        }
        end += size(collection, *count);
        if end > TABLE_LIMIT as usize {
            return None;
        }
    }
    Some(end)
}

fn open_base<V: Value>(alloc: Global, stripes: u32, held: Held<V>) -> Result<Base<V>, Memory>
    requires count { IsStripeCountOf held stripes }
    requires within { IsWithinLimits held }
    ensures shown { IfOk result (λ base. view_of held ≡ Some (shown_of base)) }
    ensures stripes { IfOk result (λ base. stripes_of base ≡ stripes) }
    ensures editions { IfOk result (λ base. editions_of base ≡ replicate (locations_of stripes (shown_of base)) 0) }
{
    match Base::open(alloc, stripes, held) {
        Ok(base) => Ok(base),
        Err(Refusal::Memory) => Err(Memory),
        Err(_) => unreachable!(),
    }
}

/// The base of each collection, in so many stripes. `Memory` where an allocation fails.
pub fn open_bases<V: Value>(
    alloc: Global,
    stripes: &[u32],
    held: Vec<Held<V>>,
) -> Result<Vec<Base<V>>, Memory>
    requires same { length stripes.now ≡ length held.items }
    requires few { length stripes.now ≤ COLLECTION_LIMIT }
    requires counts { AreStripeCounts stripes.now held.items }
    requires within { All IsWithinLimits held.items }
    ensures { IfOk result (λ bases. AreOpened stripes.now held.items bases.items) }
{
    let mut bases = Vec::with_capacity(alloc, stripes.len())?;
    for collection in held {
        let base = open_base(alloc, stripes[bases.len()], collection)?;
        bases.push(base)?;
    }
    Ok(bases)
}
