//! The stores, and the handles by which rows call them: their own, and some that they don't have.
use crate::numbers::Number;
use std::alloc::Global;
use wolimevar::{
    Bag, Counts, Lanes, Layout, Map, Memory, PriorityQueue, Queue, QueueItems, Refusal, Store, Word,
};

/// The most copies of an element.
const COPIES: u64 = 4_294_967_295;

/// How many words and queues a store has that no row calls. They are laid out before the others, so that the handles of a layout without
/// them are of another kind here.
const UNUSED: u64 = 3;

/// How many collections a store has in all, which is more than its words.
const COLLECTIONS: u64 = 18;

/// Words, a collection of each kind, two in which 7 has the most copies that it can have, and a map, a multiset and a queue that lie over
/// three gates.
#[derive(Drop)]
#[derive_where(Clone, Copy)]
pub struct Handles<V> {
    pub words: [Word; 3],
    pub wide_map: Map<V>,
    pub wide_bag: Bag,
    pub lanes: Lanes,
    pub map: Map<V>,
    pub bag: Bag,
    pub least: PriorityQueue,
    pub queue: Queue,
    pub full_least: PriorityQueue,
    pub full_bag: Bag,
}

/// The handles of a store, and those of another store, beyond the layout, and of another kind.
#[derive(Drop)]
#[derive_where(Clone, Copy)]
pub struct All<V> {
    pub alloc: Global,
    pub own: Handles<V>,
    pub other: Handles<V>,
    pub beyond: Handles<V>,
    pub reversed: Handles<V>,
}

impl<V> All<V> {
    /// The handles that a word names, and which of them: `other.map` is the map of another store, and `map` the store's own.
    pub fn named<'a>(&'a self, word: &'a str) -> (&'a Handles<V>, &'a str) {
        let Some((whose, name)) = word.split_once('.') else {
            return (&self.own, word);
        };
        match whose {
            "other" => (&self.other, name),
            "beyond" => (&self.beyond, name),
            _ => (&self.reversed, name),
        }
    }
}

fn lay_out_unused<V: Number>(
    alloc: Global,
    layout: &mut Layout<V>,
    count: u64,
) -> Result<(), Refusal> {
    for _ in 0..count {
        layout.word(0)?;
        layout.queue(1, QueueItems::new(alloc))?;
    }
    Ok(())
}

fn words<V: Number>(layout: &mut Layout<V>) -> Result<[Word; 3], Refusal> {
    Ok([layout.word(0)?, layout.word(0)?, layout.word(3)?])
}

fn full(alloc: Global) -> Result<Counts, Memory> {
    let mut counts = Counts::new(alloc);
    counts.set_copies(7, COPIES)?;
    Ok(counts)
}

/// Each collection is three after one of another kind.
fn lay_out<V: Number>(
    alloc: Global,
    layout: &mut Layout<V>,
    unused: u64,
) -> Result<Handles<V>, Refusal> {
    lay_out_unused(alloc, layout, unused)?;
    Ok(Handles {
        words: words(layout)?,
        wide_map: layout.map_over(3, 2, V::entries(alloc)?)?,
        wide_bag: layout.bag_over(3, 2, Counts::new(alloc))?,
        lanes: layout.lanes(3, 1, QueueItems::new(alloc))?,
        map: layout.map(2, V::entries(alloc)?)?,
        bag: layout.bag(2, Counts::new(alloc))?,
        least: layout.priority_queue(2, Counts::new(alloc))?,
        queue: layout.queue(1, QueueItems::new(alloc))?,
        full_least: layout.priority_queue(1, full(alloc)?)?,
        full_bag: layout.bag(1, full(alloc)?)?,
    })
}

/// Handles of a store of this number, which is never opened.
fn handles_of<V: Number>(alloc: Global, number: u32, unused: u64) -> Result<Handles<V>, Refusal> {
    let mut layout = Layout::numbered(alloc, number);
    let handles = lay_out(alloc, &mut layout, unused);
    drop(layout);
    handles
}

/// All handles for a store of this number.
pub fn all_of<V: Number>(alloc: Global, number: u32) -> Result<All<V>, Refusal> {
    Ok(All {
        alloc,
        own: handles_of(alloc, number, UNUSED)?,
        other: handles_of(alloc, number.saturating_add(1), UNUSED)?,
        beyond: handles_of(alloc, number, COLLECTIONS)?,
        reversed: handles_of(alloc, number, 0)?,
    })
}

/// A store of this number.
pub fn open<V: Number>(alloc: Global, number: u32) -> Result<Store<V>, Refusal> {
    let mut layout = Layout::numbered(alloc, number);
    lay_out(alloc, &mut layout, UNUSED)?;
    layout.open()
}
