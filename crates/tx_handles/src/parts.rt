//! What each of the collections holds at first over which a collection lies.
ghost use Rattle.std.specs.Prelude.{◌≡◌, All, IfOk, map};
ghost use Rattle.std.specs.FinMap.{empty};
ghost use Rattle.seq_model.specs.Counts.{HasNoZero};
ghost use Rattle.seq_model.specs.declared.held.Held.TheVariants as held;
ghost use Rattle.tx_handles.specs.Gates.{AreParts};
ghost use Rattle.tx_handles.specs.Lanes.{AreFirstOf};

use crate::gates::Gates;
use seq_model::{Entries, Held, Memory, QueueItems, Value, counts_of};
use std::alloc::Global;

/// The entries of each of the collections.
pub fn parts_of<T: Drop>(
    alloc: Global,
    gates: Gates,
    entries: Entries<T>,
) -> Result<Vec<Entries<T>>, Memory>
    ensures { IfOk result (λ parts. AreParts gates entries parts.items) }
{
    let mut parts = no_parts(alloc, gates)?;
    'entries: for (key, value) in entries.into_iter() {
        let place = gates.place(key) as usize;
        let _ = parts[place].insert(key, value)?;
    }
    Ok(parts)
}

/// No entries for each of the collections.
#[tactic(auto, using(crate::proofs::LayoutLemmas::one_more))]
fn no_parts<T: Drop>(alloc: Global, gates: Gates) -> Result<Vec<Entries<T>>, Memory>
    ensures { IfOk result (λ parts. AreParts gates empty parts.items) }
{
    let mut parts = Vec::new(alloc);
    'parts: for _ in 0..u64::from(gates.others) + 1 {
        parts.push(Entries::new(alloc))?;
    }
    Ok(parts)
}

/// Maps of these entries.
pub fn maps_of<V: Value>(alloc: Global, parts: Vec<Entries<V>>) -> Result<Vec<Held<V>>, Memory>
    ensures { IfOk result (λ all. all.items ≡ map held.Map parts.items) }
{
    let mut all = Vec::with_capacity(alloc, parts.len())?;
    'parts: for part in parts {
        all.push(Held::Map(part))?;
    }
    Ok(all)
}

/// Multisets of these counts.
pub fn bags_of<V: Value>(alloc: Global, parts: Vec<Entries<u64>>) -> Result<Vec<Held<V>>, Memory>
    requires { All HasNoZero parts.items }
    ensures { IfOk result (λ all. all.items ≡ map held.Bag parts.items) }
{
    let mut all = Vec::with_capacity(alloc, parts.len())?;
    'parts: for part in parts {
        all.push(Held::Bag(counts_of(part)))?;
    }
    Ok(all)
}

/// Queues of which the first one has these items.
#[tactic(auto, using(crate::proofs::LayoutLemmas::one_more, crate::proofs::LayoutLemmas::first_lanes))]
pub fn lanes_of<V: Value>(
    alloc: Global,
    gates: Gates,
    items: QueueItems,
) -> Result<Vec<Held<V>>, Memory>
    ensures { IfOk result (λ all. AreFirstOf gates items all.items) }
{
    let mut all = Vec::with_capacity(alloc, gates.others as usize + 1)?;
    all.push(Held::Queue { head: 0, items })?;
    'lanes: for _ in 0..gates.others {
        all.push(Held::Queue {
            head: 0,
            items: QueueItems::new(alloc),
        })?;
    }
    Ok(all)
}
