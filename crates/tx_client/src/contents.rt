//! What a store holds at its end.
ghost use Rattle.std.specs.Prelude.{◌≡◌, IfSome, Some, slice_get};
ghost use Rattle.seq_model.specs.declared.held.Held.TheVariants as held;
ghost use Rattle.tx_client.specs.HeldAt.{AreHeld, HeldAt, WordAt};

use seq_model::{Counts, Held, QueueItems, State, Value};
use tx_handles::{Bag, BagCounts, LaneItems, Lanes, Map, MapEntries, PriorityQueue, Queue, Word};

/// What the words and the collections of a store hold once it is closed, read by their handles. A handle of a store with another number, of
/// another kind, or beyond the layout finds `None`.
pub struct Contents<V> {
    pub(crate) store: u32,
    pub(crate) state: State<V>,
}

impl<V: Drop> Drop for Contents<V> {
    fn drop(self) {
        let Contents { store: _, state: _ } = self;
    }
}

/// What the store with this number holds.
pub fn contents_of<V>(store: u32, state: State<V>) -> Contents<V>
    ensures store { result.store ≡ store }
    ensures state { result.state ≡ state }
{
    Contents { store, state }
}

impl<V: Value> Contents<V> {
    /// The collection with this number, at the store with this number.
    fn held(&self, store: u32, number: u32) -> Option<&Held<V>>
        ensures { IfSome result (λ found. HeldAt self.now.store self.now.state store number found.now) }
    {
        if self.store != store {
            return None;
        }
        self.state.held().get(number as usize)
    }

    /// What the collections of the store with this number hold.
    fn all_held(&self, store: u32) -> Option<&[Held<V>]>
        ensures { IfSome result (λ held. (self.now.store ≡ store) × (held.now ≡ self.now.state.held)) }
    {
        if self.store != store {
            return None;
        }
        Some(self.state.held())
    }

    /// The entries of a map.
    ///
    /// ```
    /// let entries = contents.map(map);
    /// let value = entries.and_then(|entries| entries.get(1)); // Some(10)
    /// ```
    pub fn map(&self, map: Map<V>) -> Option<MapEntries<'_, V>>
        ensures { IfSome result (λ entries. AreHeld self.now.store self.now.state map.store map.gates entries.held.now entries.gates) }
    {
        let held = self.all_held(map.store)?;
        let gates = map.gates;
        match gates.held_at(held, 0) {
            Some(Held::Map(_)) => Some(MapEntries::new(held, gates)),
            _ => None,
        }
    }

    /// The elements of a multiset, each with how many copies there are.
    ///
    /// ```
    /// let counts = contents.bag(bag);
    /// let copies = counts.map(|counts| counts.copies(3)); // Some(2)
    /// ```
    pub fn bag(&self, bag: Bag) -> Option<BagCounts<'_, V>>
        ensures { IfSome result (λ counts. AreHeld self.now.store self.now.state bag.store bag.gates counts.held.now counts.gates) }
    {
        let held = self.all_held(bag.store)?;
        let gates = bag.gates;
        match gates.held_at(held, 0) {
            Some(Held::Bag(_)) => Some(BagCounts::new(held, gates)),
            _ => None,
        }
    }

    /// The elements of a priority queue, each with how many copies there are.
    ///
    /// ```
    /// let counts = contents.priority_queue(priorities);
    /// let least = counts.and_then(|counts| counts.least()); // Some(5)
    /// ```
    pub fn priority_queue(&self, queue: PriorityQueue) -> Option<&Counts>
        ensures { IfSome result (λ counts. HeldAt self.now.store self.now.state queue.store queue.number (held.Pq counts.now)) }
    {
        match self.held(queue.store, queue.number) {
            Some(Held::Pq(counts)) => Some(counts),
            _ => None,
        }
    }

    /// The items of a queue, the first one first.
    ///
    /// ```
    /// let items = contents.queue(queue);
    /// let first = items.and_then(|items| items.first()); // Some(6)
    /// ```
    pub fn queue(&self, queue: Queue) -> Option<&QueueItems>
        ensures { IfSome result (λ items. (head : _)
            × HeldAt self.now.store self.now.state queue.store queue.number (held.Queue head items.now)) }
    {
        match self.held(queue.store, queue.number) {
            Some(Held::Queue { head: _, items }) => Some(items),
            _ => None,
        }
    }

    /// The items of a queue in lanes.
    ///
    /// ```
    /// let lanes = contents.lanes(jobs);
    /// ```
    pub fn lanes(&self, lanes: Lanes) -> Option<LaneItems<'_, V>>
        ensures { IfSome result (λ items. AreHeld self.now.store self.now.state lanes.store lanes.gates items.held.now items.gates) }
    {
        let held = self.all_held(lanes.store)?;
        let gates = lanes.gates;
        match gates.held_at(held, 0) {
            Some(Held::Queue { .. }) => Some(LaneItems::new(held, gates)),
            _ => None,
        }
    }

    /// What a word holds.
    ///
    /// ```
    /// let contents = store.close()?;
    /// let held = contents.word(word); // Some(7)
    /// ```
    pub fn word(&self, word: Word) -> Option<u64>
        ensures { IfSome result (λ number. WordAt self.now.store self.now.state word.store word.number number) }
    {
        if self.store != word.store {
            return None;
        }
        self.state.words().get(word.number as usize).copied()
    }
}
