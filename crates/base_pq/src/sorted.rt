//! Numbers of copies by element, in order, with room for more.
ghost use Rattle.std.specs.Prelude.{◌≡◌, ◌+◌, ◌^◌, ◌<◌, ◌≤◌, OnOk, OnErr, IsOk, IfOk, length};
ghost use Rattle.std.specs.FinMap as map;
ghost use Rattle.seq_model.specs.Entries.{IsPositionOf, IsRising};

use seq_model::Memory;
use std::alloc::Global;
use std::marker::Model;

/// How many of the first elements are searched first.
const NEAR: usize = 128;

/// A number of copies for each of some elements, rising by element. It may be 0.
#[derive(Drop)]
pub struct Sorted {
    items: Vec<(u64, u64)>,
}

impl Model for Sorted {
    ghost use Rattle.std.specs.Prelude.{◌-◌};
    ghost use Rattle.std.specs.Vec.{vec_capacity, vec_len};
    ghost use Rattle.std.specs.FinMap as map;
    ghost use Rattle.seq_model.specs.Entries.{IsRising};
    ghost use Rattle.base_pq.specs.ElementsView.{ElementsView, elements_code};

    ghost Value = { ElementsView };

    ghost coded = { elements_code };

    ghost view = { λ a. record {
      elements = map.from_sorted a.items.items;
      room = vec_capacity a.items - vec_len a.items;
    } };

    ghost invariant = { λ a. IsRising a.items.items };
}

impl Sorted {
    /// No element. It takes no memory.
    pub fn new(alloc: Global) -> Sorted
        ensures { result.elements ≡ map.empty }
    {
        Sorted {
            items: Vec::new(alloc),
        }
    }

    /// The elements with the numbers of their copies, rising.
    pub fn as_slice(&self) -> &[(u64, u64)]
        ensures { result.now ≡ map.entries self.now.elements }
    {
        self.items.as_slice()
    }

    /// How many elements have a number.
    pub fn len(&self) -> usize
        ensures { result ≡ length (map.entries self.now.elements) }
    {
        self.items.len()
    }

    /// The number that the element has.
    pub fn get(&self, element: u64) -> Option<u64>
        ensures { result ≡ map.get self.now.elements element }
    {
        match self.search(element) {
            Ok(at) => Some(self.items[at].1),
            Err(_) => None,
        }
    }

    /// Where the memory of the list comes from.
    pub fn allocator(&self) -> Global {
        *self.items.allocator()
    }

    /// Makes room for one element more than so many, for which there is room. Where there is room for it, it takes no memory.
    pub fn reserve_after(&mut self, held: usize) -> Result<(), Memory>
        requires { held ≤ self.old.room }
        ensures elements { self.new.elements ≡ self.old.elements }
        ensures ok { OnOk result (held < self.new.room) }
        ensures room { self.old.room ≤ self.new.room }
        ensures small { held + 1 < 2 ^ 64 }
        ensures served { held < self.old.room → IsOk result }
    {
        self.items.reserve(held + 1)?;
        Ok(())
    }

    /// Gives an element a number. It takes no memory.
    pub fn put(&mut self, element: u64, count: u64)
        requires { 0 < self.old.room }
        ensures elements { self.new.elements ≡ map.insert self.old.elements element count }
        ensures room { self.old.room ≤ self.new.room + 1 }
    {
        match self.search(element) {
            Ok(at) => self.items[at] = (element, count),
            Err(at) => {
                let _ = self.items.insert(at, (element, count)).unwrap();
            }
        }
    }

    /// Takes the number of an element out.
    pub fn remove(&mut self, element: u64)
        ensures elements { self.new.elements ≡ map.remove self.old.elements element }
        ensures room { self.old.room ≤ self.new.room }
    {
        if let Ok(at) = self.search(element) {
            let _ = self.items.remove(at);
        }
    }

    /// An equal list. `Memory` where an allocation fails.
    pub fn try_copy(&self, alloc: Global) -> Result<Sorted, Memory>
        ensures { IfOk result (λ copy. copy.elements ≡ self.now.elements) }
    {
        let items = Vec::from_slice(alloc, self.items.as_slice())?;
        Ok(Sorted { items })
    }

    /// Becomes a copy of the other, in the memory that it has as far as that suffices. Where an allocation fails, it is unchanged.
    pub fn copy_from(&mut self, other: &Sorted) -> Result<(), Memory>
        ensures ok { OnOk result (self.new.elements ≡ other.now.elements) }
        ensures err { OnErr result (self.new.elements ≡ self.old.elements) }
    {
        self.items.reserve(other.items.len())?;
        self.items.clear();
        self.items.extend_from_slice(other.items.as_slice())?;
        Ok(())
    }

    /// Takes all elements out. The memory is kept.
    pub fn clear(&mut self)
        ensures elements { self.new.elements ≡ map.empty }
        ensures room { self.old.room ≤ self.new.room }
    {
        self.items.clear();
    }

    fn search(&self, element: u64) -> Result<usize, usize>
        ensures { IsPositionOf element (map.entries self.now.elements) result }
    {
        position_of(self.items.as_slice(), element)
    }
}

/// Where the element is in the list, which rises, or (`Err`) where it would go. Most are asked for near the front, so that part is searched
/// first: a list may be far larger than a cache.
pub fn position_of(list: &[(u64, u64)], element: u64) -> Result<usize, usize>
    requires { IsRising list.now }
    ensures { IsPositionOf element list.now result }
{
    if list.len() > NEAR && element < list[NEAR].0 {
        return place_by_halves(&list[..NEAR], element);
    }
    place_by_halves(list, element)
}

fn place_by_halves(list: &[(u64, u64)], element: u64) -> Result<usize, usize>
    requires { IsRising list.now }
    ensures { IsPositionOf element list.now result }
{
    list.binary_search_by_key(&element, |entry| entry.0)
}
