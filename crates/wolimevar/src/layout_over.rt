//! Collections over several gates, as a layout lays them out.
ghost use Rattle.std.specs.Prelude.{◌≡◌, ◌++◌, IfOk, OnErr, OnOk, length, map};
ghost use Rattle.seq_model.specs.declared.held.Held.TheVariants as held;
ghost use Rattle.tx_handles.specs.Gates.{LieOver};
ghost use Rattle.tx_handles.specs.Lanes.{AreLanes, first_lane};

use crate::layout::{Collection, Layout};
use seq_model::{Counts, Entries, Held, Memory, QueueItems, Refusal, Value};
use tx_handles::{Bag, Gates, Lanes, Map, bags_of, lanes_of, map_at, maps_of, parts_of};

/// A store has no more collections than this.
const GATE_LIMIT: u32 = 256;

impl<V: Value> Layout<V> {
    /// What the keys of collections over several gates are hashed with, of those laid out from now on; 0 before. A service whose keys come
    /// from outside draws a number that nobody knows: then nobody can choose keys that all take one gate.
    ///
    /// ```
    /// layout.seed(20_251);
    /// ```
    pub fn seed(&mut self, seed: u64)
        ensures same { self.new.store ≡ self.old.store }
        ensures collections { self.new.collections ≡ self.old.collections }
        ensures words { self.new.words ≡ self.old.words }
    {
        self.seed = seed;
    }

    /// Adds a map over so many gates, each of so many stripes, that holds these entries at first. It is called like any other map; calls
    /// on different keys seldom take the same gate, so it is faster with several threads, but `len` reads all stripes of all gates. It
    /// counts as so many collections of the store. `TooLong` for no gates, or more than 256; otherwise refused like `word`.
    ///
    /// ```
    /// let map = layout.map_over(8, 8, entries)?;
    /// ```
    #[tactic(auto, using(tx_handles::proofs::LayoutLemmas::laid_map))]
    pub fn map_over(
        &mut self,
        gates: u32,
        stripes: u32,
        entries: Entries<V>,
    ) -> Result<Map<V>, Refusal>
        ensures same { self.new.store ≡ self.old.store }
        ensures store { IfOk result (λ handle. handle.store ≡ self.new.store) }
        ensures words { self.new.words ≡ self.old.words }
        ensures holds { IfOk result (λ handle. LieOver held.Map handle.gates entries (map (λ c. c.held) self.new.collections.items)) }
        ensures rest { OnOk result ((more : _) × (map (λ c. c.held) self.new.collections.items ≡ map (λ c. c.held)
            self.old.collections.items ++ more)) }
        ensures none { OnErr result (self.new.collections.items ≡ self.old.collections.items) }
    {
        let gates = self.next_gates(gates)?;
        let parts = parts_of(self.alloc, gates, entries)?;
        let all = maps_of(self.alloc, parts)?;
        self.add_all(stripes, all)?;
        Ok(map_at(self.store, gates))
    }

    /// Adds a multiset over so many gates, each of so many stripes, that holds these counts at first. See `map_over`.
    ///
    /// ```
    /// let bag = layout.bag_over(8, 8, counts)?;
    /// ```
    pub fn bag_over(&mut self, gates: u32, stripes: u32, counts: Counts) -> Result<Bag, Refusal>
        ensures same { self.new.store ≡ self.old.store }
        ensures store { IfOk result (λ handle. handle.store ≡ self.new.store) }
        ensures words { self.new.words ≡ self.old.words }
        ensures holds { IfOk result (λ handle. LieOver held.Bag handle.gates counts (map (λ c. c.held) self.new.collections.items)) }
        ensures rest { OnOk result ((more : _) × (map (λ c. c.held) self.new.collections.items ≡ map (λ c. c.held)
            self.old.collections.items ++ more)) }
        ensures none { OnErr result (self.new.collections.items ≡ self.old.collections.items) }
    {
        let gates = self.next_gates(gates)?;
        let parts = parts_of(self.alloc, gates, counts.into_entries())?;
        let all = bags_of(self.alloc, parts)?;
        self.add_all(stripes, all)?;
        Ok(Bag {
            store: self.store,
            gates,
        })
    }

    /// Adds a queue in so many lanes, each of so many stripes, whose first lane holds these items at first. `TooLong` for no lanes, or
    /// more than 256; otherwise refused like `word`.
    ///
    /// ```
    /// let jobs = layout.lanes(4, 8, QueueItems::new(alloc))?;
    /// ```
    pub fn lanes(&mut self, lanes: u32, stripes: u32, items: QueueItems) -> Result<Lanes, Refusal>
        ensures same { self.new.store ≡ self.old.store }
        ensures store { IfOk result (λ handle. handle.store ≡ self.new.store) }
        ensures words { self.new.words ≡ self.old.words }
        ensures holds { IfOk result (λ handle. AreLanes handle.gates (first_lane items) (map (λ c. c.held) self.new.collections.items)) }
        ensures rest { OnOk result ((more : _) × (map (λ c. c.held) self.new.collections.items ≡ map (λ c. c.held)
            self.old.collections.items ++ more)) }
        ensures none { OnErr result (self.new.collections.items ≡ self.old.collections.items) }
    {
        let gates = self.next_gates(lanes)?;
        let all = lanes_of(self.alloc, gates, items)?;
        self.add_all(stripes, all)?;
        Ok(Lanes {
            store: self.store,
            gates,
        })
    }

    /// So many collections, the next ones to be added.
    fn next_gates(&self, count: u32) -> Result<Gates, Refusal>
        ensures { IfOk result (λ gates. gates.first ≡ length self.now.collections.items) }
    {
        let Ok(first) = u32::try_from(self.collections.len()) else {
            return Err(Refusal::TooLong);
        };
        if count > GATE_LIMIT {
            return Err(Refusal::TooLong);
        }
        let Some(others) = count.checked_sub(1) else {
            return Err(Refusal::TooLong);
        };
        Ok(Gates {
            first,
            others,
            seed: self.seed,
        })
    }

    /// Adds collections that hold these.
    fn add_all(&mut self, stripes: u32, all: Vec<Held<V>>) -> Result<(), Memory>
        ensures same { self.new.store ≡ self.old.store }
        ensures words { self.new.words ≡ self.old.words }
        ensures holds { OnOk result (map (λ c. c.held) self.new.collections.items ≡ map (λ c. c.held) self.old.collections.items ++
            all.items) }
        ensures none { OnErr result (self.new.collections.items ≡ self.old.collections.items) }
    {
        self.collections.reserve(all.len())?;
        'all: for held in all {
            self.collections.push_reserved(Collection { stripes, held });
        }
        Ok(())
    }
}
