//! How the locations of a table are laid out.
ghost use Rattle.std.specs.Prelude.{◌≡◌, ◌<◌, None, Some, length, MatchOption};
ghost use Rattle.replay_log.specs.Contents.{block_of, first_of};
ghost use Rattle.replay_log.specs.Contents as contents;
ghost use Rattle.shared_table.specs.Seated.{IsBlockAt, blocks_in, words_in};

use crate::table::TxTable;
use actor_parts::Blocks;
use seq_model::{Kind, Value};

/// The place of a collection among the locations.
#[derive(Clone, Copy, Debug, PartialEq, Eq)]
pub struct Block {
    pub kind: Kind,
    pub stripes: u32,
    /// Its first location.
    pub first: u32,
}

// A collection's kind, its stripes and its first location.
fn placed(blocks: &Blocks, collection: u32, kind: Kind) -> Block
    requires { collection < length blocks.now.blocks }
    ensures kind { result.kind ≡ kind }
    ensures stripes { (b : contents.Block) → block_of blocks.now.blocks collection ≡ Some b → result.stripes ≡ b.stripes }
    ensures first { result.first ≡ first_of blocks.now.words blocks.now.blocks collection }
{
    Block {
        kind,
        stripes: blocks.stripes_of(collection),
        first: blocks.first_of(collection),
    }
}

impl<V: Value> TxTable<V> {
    /// How many words there are.
    pub fn words(&self) -> u32
        ensures { result ≡ words_in self.now }
    {
        self.words
    }

    /// How its locations are laid out.
    pub fn blocks(&self) -> &Blocks
        ensures words { result.now.words ≡ words_in self.now }
        ensures blocks { result.now.blocks ≡ blocks_in self.now }
    {
        &self.blocks
    }

    /// The place of a collection among the locations; none, where there is no such collection.
    pub fn block(&self, collection: u32) -> Option<Block>
        ensures { MatchOption result (block_of (blocks_in self.now) collection ≡ None)
            (IsBlockAt (words_in self.now) (blocks_in self.now) collection) }
    {
        match self.blocks.kind_of(collection) {
            None => None,
            Some(kind) => Some(placed(&self.blocks, collection, kind)),
        }
    }
}
