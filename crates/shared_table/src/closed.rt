//! What a closed table holds.
ghost use Rattle.actor_parts.specs.declared.blocks.TheConstants.{TABLE_LIMIT};
ghost use Rattle.std.specs.Prelude.{◌≡◌, ◌≤◌, ℕ, None, length};
ghost use Rattle.std.specs.Slots.{IsFull, slots_items, slots_len};
ghost use mathlib.Core.Option.{some};
ghost use lib.ListN.{get_elem?};
ghost use Rattle.shared_table.specs.Layout.{width};

use crate::home::Home;
use actor_parts::Boxed;
use replay_log::Base;
use std::alloc::Global;

/// A table that no thread shares any more: the clock, the words and the collections as they were left.
pub struct Closed<V> {
    pub(crate) row: atomic_table::Closed<Boxed<Home<Base<V>>>, Global>,
    pub(crate) words: u32,
    pub(crate) locations: usize,
    pub(crate) alloc: Global,
    ghost full: { IsFull row.words × IsFull row.slots },
    ghost wide: { slots_len row.words ≡ width locations (length (slots_items row.slots)) },
    ghost inside: { (words ≤ locations) × (locations ≤ TABLE_LIMIT) },
    ghost home: { (k : ℕ) → get_elem? (slots_items row.slots) k ≡ some None → ⊥ },
}

impl<V: Drop> Drop for Closed<V> {
    fn drop(self) {
        let Closed {
            mut row,
            words: _,
            locations: _,
            alloc: _,
        } = self;
        let mut i = 0;
        while i < row.slot_count() {
            drop(row.take(i));
            i += 1;
        }
        row.free();
    }
}
