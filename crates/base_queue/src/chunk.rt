//! Items that are changed no more.
ghost use Rattle.std.specs.Prelude.{◌≡◌, ◌<◌, IfOk, length, slice_index};
ghost use Rattle.std.specs.Arc.{arc_value};

use seq_model::Memory;
use std::alloc::Global;
use std::marker::Model;
use std::sync::Arc;

/// How many items stand in a chunk.
pub const CHUNK: usize = 256;

/// So many items, which their copies share.
#[derive(Drop)]
pub struct Chunk {
    items: Arc<Vec<u64>>,
}

impl Model for Chunk {
    ghost use Rattle.std.specs.Prelude.{List, ℕ};
    ghost use Rattle.std.specs.Arc.{arc_value};

    ghost Value = { List ℕ };

    ghost view = { λ a. (arc_value a.items).items };
}

impl Chunk {
    /// A chunk of these items. `Memory` where an allocation fails.
    pub fn of_slice(alloc: Global, items: &[u64]) -> Result<Chunk, Memory>
        ensures { IfOk result (λ chunk. chunk ≡ items.now) }
    {
        let items = Vec::from_slice(alloc, items)?;
        Ok(Chunk {
            items: Arc::new(alloc, items)?,
        })
    }

    /// One more owner of the items. `Memory` where they have as many as there may be.
    pub fn share(&self) -> Result<Chunk, Memory>
        ensures { IfOk result (λ chunk. chunk ≡ self.now) }
    {
        Ok(Chunk {
            items: Arc::try_clone(&self.items)?,
        })
    }

    /// The item at this position of the chunk.
    pub fn at(&self, place: usize) -> u64
        requires { place < length self.now }
        ensures { result ≡ slice_index self.now place }
    {
        self.items[place]
    }
}
