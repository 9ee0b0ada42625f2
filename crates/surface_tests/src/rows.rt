//! Contents that the parts share.
use seq_model::{Counts, Entries, Held, Items, Kind, Memory, QueueItems, Refusal, Shape, State};
use std::alloc::Global;

/// What a call answered is as it must be.
pub fn ensure(is: bool) -> Result<(), Refusal> {
    if is { Ok(()) } else { Err(Refusal::NoSuch) }
}

fn counts_of_one(alloc: Global) -> Result<Counts, Memory> {
    let mut counts = Counts::new(alloc);
    counts.set_copies(5, 1)?;
    Ok(counts)
}

/// A map that holds 20 at 2, a multiset or a priority queue of one 5, or a queue of one 8, at index 0.
pub fn held_of_one(alloc: Global, kind: Kind) -> Result<Held<u64>, Memory> {
    match kind {
        Kind::Map => {
            let mut entries = Entries::new(alloc);
            entries.insert(2, 20)?;
            Ok(Held::Map(entries))
        }
        Kind::Bag => Ok(Held::Bag(counts_of_one(alloc)?)),
        Kind::Pq => Ok(Held::Pq(counts_of_one(alloc)?)),
        Kind::Queue => {
            let mut items = QueueItems::new(alloc);
            items.push(8)?;
            Ok(Held::Queue { head: 0, items })
        }
    }
}

/// Two stripes for each of four collections, at clock 0.
pub fn shape(alloc: Global) -> Result<Shape, Memory> {
    Ok(Shape {
        stripes: Items::from_vec(vec![in alloc; 2; 4]?),
        clock: 0,
    })
}

/// The word 7, and a collection of each kind.
pub fn state(alloc: Global) -> Result<State<u64>, Refusal> {
    let mut held = Vec::with_capacity(alloc, 4)?;
    for kind in [Kind::Map, Kind::Bag, Kind::Pq, Kind::Queue].as_slice() {
        held.push(held_of_one(alloc, *kind)?)?;
    }
    State::new(vec![in alloc; 7]?, held)
}
