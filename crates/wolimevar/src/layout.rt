//! What a store opens with.
ghost use Rattle.std.specs.Prelude.{◌≡◌, ◌++◌, ◌∷◌, [], IfOk, OnErr, OnOk, Some, map, slice_get};
ghost use Rattle.tx_handles.specs.Gates.{LieOver};
ghost use Rattle.seq_model.specs.declared.held.Held.TheVariants as held;

use crate::store::Store;
use actor_parts::Boxed;
use seq_model::{Counts, Entries, Held, Items, Memory, QueueItems, Refusal, Shape, State, Value};
use std::alloc::Global;
use tx_client::Tally;
use tx_engine::TxSeat;
use tx_handles::{Bag, Gates, Map, PriorityQueue, Queue, Word, map_at};

/// A collection: how many stripes it is in, and what it holds at first.
#[derive(Drop)]
pub(crate) struct Collection<V> {
    pub(crate) stripes: u32,
    pub(crate) held: Held<V>,
}

/// What a store opens with. Each word and each collection that is added returns its handle, by which transactions call it.
///
/// A collection is in 1 to 4,096 stripes, a priority queue in at most 4,095. Calls on different stripes of it don't conflict, so more
/// stripes let more transactions commit beside each other. But `len` of a map and `take_least` read all stripes, each a location more.
pub struct Layout<V> {
    pub(crate) alloc: Global,
    pub(crate) store: u32,
    /// What keys are hashed with in collections over several gates.
    pub(crate) seed: u64,
    pub(crate) words: Vec<u64>,
    pub(crate) collections: Vec<Collection<V>>,
}

impl<V: Drop> Drop for Layout<V> {
    fn drop(self) {
        let Layout {
            alloc: _,
            store: _,
            seed: _,
            words: _,
            collections: _,
        } = self;
    }
}

impl<V: Value> Layout<V> {
    /// An empty layout, whose store has the number 0.
    ///
    /// ```
    /// let mut layout: Layout<u64> = Layout::new(alloc);
    /// let store = layout.open()?;
    /// ```
    pub fn new(alloc: Global) -> Layout<V>
        ensures store { result.store ≡ 0 }
    {
        Layout::numbered(alloc, 0)
    }

    /// An empty layout, whose store has this number. A program with several stores gives each another number: a handle is `NoSuch` at a
    /// store of another number.
    ///
    /// ```
    /// let mut layout = Layout::numbered(alloc, 1);
    /// let store = layout.open()?;
    /// ```
    pub fn numbered(alloc: Global, number: u32) -> Layout<V>
        ensures store { result.store ≡ number }
    {
        Layout {
            alloc,
            store: number,
            seed: 0,
            words: Vec::new(alloc),
            collections: Vec::new(alloc),
        }
    }

    fn add(&mut self, stripes: u32, held: Held<V>) -> Result<u32, Refusal>
        ensures same { self.new.store ≡ self.old.store }
        ensures words { self.new.words ≡ self.old.words }
        ensures holds { IfOk result (λ number. slice_get (map (λ c. c.held) self.new.collections.items) number ≡ Some held) }
        ensures added { OnOk result (map (λ c. c.held) self.new.collections.items ≡ map (λ c. c.held) self.old.collections.items ++ held ∷
            []) }
        ensures none { OnErr result (self.new.collections.items ≡ self.old.collections.items) }
    {
        let Ok(number) = u32::try_from(self.collections.len()) else {
            return Err(Refusal::TooLong);
        };
        self.collections.push(Collection { stripes, held })?;
        Ok(number)
    }

    /// Adds a word that holds this number at first. `TooLong` beyond 4,294,967,295 words; `Memory` where an allocation fails.
    ///
    /// ```
    /// let word = layout.word(7)?;
    /// let store = layout.open()?;
    /// ```
    pub fn word(&mut self, number: u64) -> Result<Word, Refusal>
        ensures same { self.new.store ≡ self.old.store }
        ensures store { IfOk result (λ handle. handle.store ≡ self.new.store) }
        ensures collections { self.new.collections ≡ self.old.collections }
        ensures holds { IfOk result (λ handle. slice_get self.new.words.items handle.number ≡ Some number) }
        ensures added { OnOk result (self.new.words.items ≡ self.old.words.items ++ number ∷ []) }
        ensures none { OnErr result (self.new.words.items ≡ self.old.words.items) }
    {
        let Ok(next) = u32::try_from(self.words.len()) else {
            return Err(Refusal::TooLong);
        };
        self.words.push(number)?;
        Ok(Word {
            store: self.store,
            number: next,
        })
    }

    /// Adds a map that holds these entries at first. Refused like `word`.
    ///
    /// ```
    /// let mut entries = Entries::new(alloc);
    /// entries.insert(1, 10)?;
    /// let map = layout.map(64, entries)?;
    /// ```
    #[tactic(auto, using(tx_handles::proofs::LayoutLemmas::one_map))]
    pub fn map(&mut self, stripes: u32, entries: Entries<V>) -> Result<Map<V>, Refusal>
        ensures same { self.new.store ≡ self.old.store }
        ensures store { IfOk result (λ handle. handle.store ≡ self.new.store) }
        ensures words { self.new.words ≡ self.old.words }
        ensures holds { IfOk result (λ handle. slice_get (map (λ c. c.held) self.new.collections.items) handle.gates.first ≡ Some
            (held.Map entries)) }
        ensures lies { IfOk result (λ handle. LieOver held.Map handle.gates entries (map (λ c. c.held) self.new.collections.items)) }
        ensures added { OnOk result (map (λ c. c.held) self.new.collections.items ≡ map (λ c. c.held) self.old.collections.items ++
            held.Map entries ∷ []) }
        ensures none { OnErr result (self.new.collections.items ≡ self.old.collections.items) }
    {
        let number = self.add(stripes, Held::Map(entries))?;
        Ok(map_at(self.store, Gates::one(number)))
    }

    /// Adds a multiset that holds these counts at first. Refused like `word`.
    ///
    /// ```
    /// let mut counts = Counts::new(alloc);
    /// counts.set_copies(3, 2)?;
    /// let bag = layout.bag(64, counts)?;
    /// ```
    #[tactic(auto, using(tx_handles::proofs::LayoutLemmas::one_bag))]
    pub fn bag(&mut self, stripes: u32, counts: Counts) -> Result<Bag, Refusal>
        ensures same { self.new.store ≡ self.old.store }
        ensures store { IfOk result (λ handle. handle.store ≡ self.new.store) }
        ensures words { self.new.words ≡ self.old.words }
        ensures holds { IfOk result (λ handle. slice_get (map (λ c. c.held) self.new.collections.items) handle.gates.first ≡ Some
            (held.Bag counts)) }
        ensures lies { IfOk result (λ handle. LieOver held.Bag handle.gates counts (map (λ c. c.held) self.new.collections.items)) }
        ensures added { OnOk result (map (λ c. c.held) self.new.collections.items ≡ map (λ c. c.held) self.old.collections.items ++
            held.Bag counts ∷ []) }
        ensures none { OnErr result (self.new.collections.items ≡ self.old.collections.items) }
    {
        let number = self.add(stripes, Held::Bag(counts))?;
        Ok(Bag {
            store: self.store,
            gates: Gates::one(number),
        })
    }

    /// Adds a priority queue that holds these counts at first. Refused like `word`.
    ///
    /// ```
    /// let mut counts = Counts::new(alloc);
    /// counts.set_copies(5, 1)?;
    /// let priorities = layout.priority_queue(1, counts)?;
    /// ```
    pub fn priority_queue(&mut self, stripes: u32, counts: Counts) -> Result<PriorityQueue, Refusal>
        ensures same { self.new.store ≡ self.old.store }
        ensures store { IfOk result (λ handle. handle.store ≡ self.new.store) }
        ensures words { self.new.words ≡ self.old.words }
        ensures holds { IfOk result (λ handle. slice_get (map (λ c. c.held) self.new.collections.items) handle.number ≡ Some
            (held.Pq counts)) }
        ensures added { OnOk result (map (λ c. c.held) self.new.collections.items ≡ map (λ c. c.held) self.old.collections.items ++
            held.Pq counts ∷ []) }
        ensures none { OnErr result (self.new.collections.items ≡ self.old.collections.items) }
    {
        let number = self.add(stripes, Held::Pq(counts))?;
        Ok(PriorityQueue {
            store: self.store,
            number,
        })
    }

    /// Adds a queue that holds these items at first. Refused like `word`.
    ///
    /// ```
    /// let mut items = QueueItems::new(alloc);
    /// items.push(6)?;
    /// let queue = layout.queue(8, items)?;
    /// ```
    pub fn queue(&mut self, stripes: u32, items: QueueItems) -> Result<Queue, Refusal>
        ensures same { self.new.store ≡ self.old.store }
        ensures store { IfOk result (λ handle. handle.store ≡ self.new.store) }
        ensures words { self.new.words ≡ self.old.words }
        ensures holds { IfOk result (λ handle. slice_get (map (λ c. c.held) self.new.collections.items) handle.number ≡ Some
            (held.Queue 0 items)) }
        ensures added { OnOk result (map (λ c. c.held) self.new.collections.items ≡ map (λ c. c.held) self.old.collections.items ++
            held.Queue 0 items ∷ []) }
        ensures none { OnErr result (self.new.collections.items ≡ self.old.collections.items) }
    {
        let number = self.add(stripes, Held::Queue { head: 0, items })?;
        Ok(Queue {
            store: self.store,
            number,
        })
    }

    /// Opens a store that holds all this. `TooLong` where there are more than 256 collections or more than 1,048,576 locations, a
    /// collection can't have so many stripes, or has more than 4,294,967,295 copies of an element; `Memory` where an allocation fails.
    ///
    /// ```
    /// let mut layout = Layout::numbered(alloc, 1);
    /// let word = layout.word(7)?;
    /// let store = layout.open()?;
    /// ```
    pub fn open(self) -> Result<Store<V>, Refusal>
        ensures number { IfOk result (λ store. store.number ≡ self.store) }
        ensures words { IfOk result (λ store. store.opening.words ≡ self.words.items) }
        ensures held { IfOk result (λ store. store.opening.held ≡ map (λ c. c.held) self.collections.items) }
    {
        let Layout {
            alloc,
            store: number,
            seed: _,
            words,
            collections,
        } = self;
        let (stripes, held) = parts(alloc, collections)?;
        let shape = Shape {
            stripes: Items::from_vec(stripes),
            clock: 0,
        };
        let (table, seat) = TxSeat::open(alloc, &shape, State::new(words, held)?)?;
        let seat = Boxed::new(alloc, seat)?;
        Ok(Store {
            alloc,
            number,
            table,
            seat: Some(seat),
            tally: Tally::new(),
        })
    }
}

/// The stripes of each collection, and what it holds.
fn parts<V: Value>(
    alloc: Global,
    collections: Vec<Collection<V>>,
) -> Result<(Vec<u32>, Vec<Held<V>>), Memory>
    ensures { IfOk result (λ parts. parts.1.items ≡ map (λ c. c.held) collections.items) }
{
    let mut stripes = Vec::with_capacity(alloc, collections.len())?;
    let mut held = Vec::with_capacity(alloc, collections.len())?;
    'collections: for collection in collections {
        stripes.push(collection.stripes)?;
        held.push(collection.held)?;
    }
    Ok((stripes, held))
}
