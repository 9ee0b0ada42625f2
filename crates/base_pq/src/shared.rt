//! Entries that are changed no more.
ghost use Rattle.std.specs.Prelude.{◌≡◌, [], IfOk, length};

use seq_model::Memory;
use std::alloc::Global;
use std::marker::Model;
use std::sync::Arc;

/// A list of entries, which its copies share. An empty one takes no memory.
#[derive(Drop)]
pub struct Shared {
    list: Option<Arc<Vec<(u64, u64)>>>,
}

impl Model for Shared {
    ghost use Rattle.std.specs.Prelude.{List, ℕ};
    ghost use Rattle.base_pq.specs.Laid.{listed};

    ghost Value = { List (ℕ × ℕ) };

    ghost view = { λ a. listed a.list };
}

impl Shared {
    /// No entries. It takes no memory.
    pub fn empty() -> Shared
        ensures { result ≡ [] }
    {
        Shared { list: None }
    }

    /// These entries, in a list to be shared. `Memory` where an allocation fails.
    pub fn of(alloc: Global, entries: Vec<(u64, u64)>) -> Result<Shared, Memory>
        ensures { IfOk result (λ shared. shared ≡ entries.items) }
    {
        let list = Arc::new(alloc, entries)?;
        Ok(Shared { list: Some(list) })
    }

    /// How many entries there are.
    pub fn len(&self) -> usize
        ensures { result ≡ length self.now }
    {
        self.as_slice().len()
    }

    /// The entries, in order.
    pub fn as_slice(&self) -> &[(u64, u64)]
        ensures { result.now ≡ self.now }
    {
        match &self.list {
            Some(list) => list.as_slice(),
            None => &[],
        }
    }

    /// One more owner of the list. `Memory` where it has as many as there may be.
    pub fn share(&self) -> Result<Shared, Memory>
        ensures { IfOk result (λ shared. shared ≡ self.now) }
    {
        match &self.list {
            Some(list) => Ok(Shared {
                list: Some(Arc::try_clone(list)?),
            }),
            None => Ok(Shared::empty()),
        }
    }
}
