//! What is left of a list that copies share, after some of its first entries have gone.
ghost use Rattle.std.specs.Prelude.{◌≡◌, IfOk, length, if◌then◌else◌};
ghost use Rattle.std.specs.FinMap as map;
ghost use Rattle.seq_model.specs.Entries.{IsRising};

use crate::shared::Shared;
use crate::sorted::position_of;
use seq_model::Memory;
use std::alloc::Global;
use std::marker::Model;

/// Numbers by element, rising, of which the first can go.
#[derive(Drop)]
pub struct Rest {
    shared: Shared,
    /// How many of the shared entries, from the first on, are gone.
    gone: usize,
}

impl Model for Rest {
    ghost use Rattle.std.specs.Prelude.{◌≤◌, drop, length};
    ghost use Rattle.std.specs.Coded.{coded_ℕ};
    ghost use Rattle.std.specs.FinMap as map;
    ghost use Rattle.seq_model.specs.Counts.{Multiset};
    ghost use Rattle.seq_model.specs.Entries.{IsRising};

    ghost Value = { Multiset };

    ghost coded = { map.code coded_ℕ coded_ℕ };

    ghost view = { λ a. map.from_sorted (drop a.gone a.shared) };

    ghost invariant = { λ a. IsRising a.shared × (a.gone ≤ length a.shared) };
}

impl Rest {
    /// No entries. It takes no memory.
    pub fn empty() -> Rest
        ensures { result ≡ map.empty }
    {
        Rest {
            shared: Shared::empty(),
            gone: 0,
        }
    }

    /// These entries, all of them left. `Memory` where an allocation fails.
    pub fn of(alloc: Global, entries: Vec<(u64, u64)>) -> Result<Rest, Memory>
        requires { IsRising entries.items }
        ensures { IfOk result (λ rest. rest ≡ map.from_sorted entries.items) }
    {
        let shared = Shared::of(alloc, entries)?;
        Ok(Rest { shared, gone: 0 })
    }

    /// The entries that are left, rising.
    pub fn as_slice(&self) -> &[(u64, u64)]
        ensures { result.now ≡ map.entries self.now }
    {
        &self.shared.as_slice()[self.gone..]
    }

    /// How many entries are left.
    pub fn len(&self) -> usize
        ensures { result ≡ length (map.entries self.now) }
    {
        self.as_slice().len()
    }

    /// How many entries are gone.
    pub fn gone(&self) -> usize {
        self.gone
    }

    /// The number that the element has.
    pub fn get(&self, element: u64) -> Option<u64>
        ensures { result ≡ map.get self.now element }
    {
        let list = self.as_slice();
        match position_of(list, element) {
            Ok(at) => Some(list[at].1),
            Err(_) => None,
        }
    }

    /// Lets an element go that is the first, or isn't there. Returns whether it is gone now.
    pub fn let_go(&mut self, element: u64) -> bool
        ensures { self.new ≡ if result then map.remove self.old element else self.old }
    {
        let total = self.shared.len();
        match position_of(self.as_slice(), element) {
            Ok(0) => {
                self.gone += 1;
                true
            }
            Ok(_) => false,
            Err(_) => true,
        }
    }

    /// The same entries of the same list, which has one more owner. `Memory` where it has as many as there may be.
    pub fn share(&self) -> Result<Rest, Memory>
        ensures { IfOk result (λ rest. rest ≡ self.now) }
    {
        let shared = self.shared.share()?;
        Ok(Rest {
            shared,
            gone: self.gone,
        })
    }
}
