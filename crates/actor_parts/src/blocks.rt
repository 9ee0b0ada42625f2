//! How the locations of a world are laid out: the words come first, then the block of each collection in turn.
ghost use Rattle.std.specs.Prelude.{◌≡◌, ℕ, ◌+◌, ◌≤◌, ◌↔◌, [], Err, OnErr, OnOk};
ghost use Rattle.replay_log.specs.Contents.{end_of, size_by};
ghost use Rattle.seq_model.specs.declared.refusal.Refusal.TheVariants.{TooLong};
ghost use Rattle.actor_parts.specs.Blocks.{kind_of};

use seq_model::{Kind, Refusal};
use std::alloc::Global;
use std::marker::Model;

/// A world has at most so many collections.
pub const COLLECTION_LIMIT: usize = 256;

/// A table has at most so many locations.
pub const TABLE_LIMIT: u32 = step_core::TABLE_LIMIT as u32;

// How many locations a collection has beside its stripes.
fn more_locations(kind: Kind) -> u64
    ensures few { result ≤ 2 }
    ensures size { (n : ℕ) → size_by (kind_of kind) n ≡ n + result }
{
    match kind {
        Kind::Map => 0,
        Kind::Bag => 0,
        Kind::Pq => 1,
        Kind::Queue => 2,
    }
}

/// The block of a collection.
#[derive(Clone, Copy)]
pub struct BlockSpan {
    pub kind: Kind,
    pub stripes: u32,
    /// The location after its last one.
    pub end: u32,
}

impl BlockSpan {
    ghost use Rattle.std.specs.Prelude.{◌<◌, ◌^◌};
    ghost use Rattle.replay_log.specs.Contents.{size};
    ghost use Rattle.actor_parts.specs.Blocks.{block_of};

    // Its first location.
    fn first(self) -> u32
        requires { size (block_of self) ≤ self.end }
        ensures first { result + size (block_of self) ≡ self.end }
        ensures within { self.end < 2 ^ 32 }
    {
        let size = u64::from(self.stripes) + more_locations(self.kind);
        (u64::from(self.end) - size) as u32
    }
}

/// How the locations of a world are laid out. A location's collection is found by halves.
#[derive(Drop)]
pub struct Blocks {
    words: u32,
    placed: Vec<BlockSpan>,
}

impl Model for Blocks {
    ghost use Rattle.std.specs.Prelude.{◌≤◌, length, map};
    ghost use Rattle.actor_parts.specs.Blocks.{AreEnds, BlocksView, block_of};
    ghost use Rattle.actor_parts.specs.declared.blocks.TheConstants.{COLLECTION_LIMIT};

    ghost Value = { BlocksView };

    ghost view = { λ a. record { words = a.words; blocks = map block_of a.placed.items } };

    ghost invariant = { λ a. AreEnds a.words a.placed.items × (length a.placed.items ≤ COLLECTION_LIMIT) };
}

impl Blocks {
    ghost use Rattle.std.specs.Prelude.{◌<◌, ◌^◌, Some, length};
    ghost use Rattle.replay_log.specs.Contents.{Block, block_of, first_of, size};
    ghost use Rattle.actor_parts.specs.Blocks.{IsBeyond, IsKindAt, home_in, with_block};

    /// So many words, and no collection yet.
    pub fn new(alloc: Global, words: u32) -> Blocks
        ensures words { result.words ≡ words }
        ensures blocks { result.blocks ≡ [] }
    {
        Blocks {
            words,
            placed: Vec::new(alloc),
        }
    }

    /// The number of words.
    pub fn words(&self) -> u32
        ensures { result ≡ self.now.words }
    {
        self.words
    }

    /// The location after all blocks.
    pub fn end(&self) -> u32
        ensures { result ≡ end_of self.now.words self.now.blocks }
    {
        let count = self.placed.len();
        if count == 0 {
            return self.words;
        }
        self.placed[count - 1].end
    }

    /// The kind of a collection; none, where it isn't there.
    pub fn kind_of(&self, collection: u32) -> Option<Kind>
        ensures { IsKindAt self.now collection result }
    {
        let i = collection as usize;
        if i >= self.placed.len() {
            return None;
        }
        Some(self.placed[i].kind)
    }

    /// The stripes of a collection.
    pub fn stripes_of(&self, collection: u32) -> u32
        requires { collection < length self.now.blocks }
        ensures { (b : Block) → block_of self.now.blocks collection ≡ Some b → result ≡ b.stripes }
    {
        self.placed[collection as usize].stripes
    }

    /// The first location of a collection.
    pub fn first_of(&self, collection: u32) -> u32
        requires { collection < length self.now.blocks }
        ensures first { result ≡ first_of self.now.words self.now.blocks collection }
        ensures within { (b : Block) → block_of self.now.blocks collection ≡ Some b → result + size b < 2 ^ 32 }
    {
        self.placed[collection as usize].first()
    }

    /// The block of the next collection. `TooLong` past 256 collections, or 1,048,576 locations. A refusal leaves the blocks as they were.
    pub fn push(&mut self, kind: Kind, stripes: u32) -> Result<(), Refusal>
        ensures ok { OnOk result (self.new ≡ with_block self.old kind stripes) }
        ensures too_long { (result ≡ Err TooLong) ↔ IsBeyond self.old kind stripes }
        ensures err { OnErr result (self.new ≡ self.old) }
    {
        if self.placed.len() >= COLLECTION_LIMIT {
            return Err(Refusal::TooLong);
        }
        let end = u64::from(self.end()) + u64::from(stripes) + more_locations(kind);
        if end > u64::from(TABLE_LIMIT) {
            return Err(Refusal::TooLong);
        }
        let end = end as u32;
        self.placed.push(BlockSpan { kind, stripes, end })?;
        Ok(())
    }

    /// The collection of a location; none, where it is a word, or beyond the last block.
    pub fn home_of(&self, location: u32) -> Option<u32>
        ensures { result ≡ home_in self.now location }
    {
        let at = self.placed.partition_point(|block| block.end <= location);
        if location < self.words {
            return None;
        }
        if at >= self.placed.len() {
            return None;
        }
        Some(at as u32)
    }
}
