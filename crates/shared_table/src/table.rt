//! The table.
ghost use Rattle.actor_parts.specs.declared.blocks.TheConstants.{TABLE_LIMIT, COLLECTION_LIMIT};
ghost use Rattle.std.specs.Prelude.{◌≡◌, ◌≤◌, length};
ghost use Rattle.shared_table.specs.Layout.{width};
ghost use Rattle.shared_table.specs.Opening.{blocks_at, locations_at, words_at};

use crate::rule::Whole;
use actor_parts::Blocks;
use std::alloc::Global;

/// A table of words and collections that threads share.
#[derive(Drop)]
pub struct TxTable<V> {
    pub(crate) whole: Whole<V>,
    pub(crate) words: u32,
    pub(crate) locations: usize,
    pub(crate) blocks: Blocks,
    pub(crate) alloc: Global,
    ghost words_are: { words ≡ words_at whole.shared.key },
    ghost locations_are: { locations ≡ locations_at whole.shared.key },
    ghost laid: { (blocks.words ≡ words_at whole.shared.key) × (blocks.blocks ≡ blocks_at whole.shared.key) },
    ghost wide: { whole.shared.table_id.words ≡ width locations (length (blocks_at whole.shared.key)) },
    ghost slots: { whole.shared.table_id.slots ≡ length (blocks_at whole.shared.key) },
    ghost few: { (locations ≤ TABLE_LIMIT) × (length (blocks_at whole.shared.key) ≤ COLLECTION_LIMIT) },
}
