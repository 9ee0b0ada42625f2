//! A list of numbers whose copies share what they have in common.
//!
//! The items stand in chunks that are never changed, and after them the last few in a list of each copy's own. The list of the chunks
//! is shared as a whole, so a copy is one more owner of it and a copy of the last few items, however long the list is. Items go out at
//! the front and come in at the back; `settle` moves what has grown at the back into chunks.
ghost use Rattle.std.specs.Prelude.{◌≡◌, ◌+◌, ◌-◌, ◌<◌, ◌≤◌, [], ◌∷◌, ◌++◌, IsOk, IfOk, OnOk, OnErr, length, drop, slice_index};
ghost use Rattle.std.specs.Vec.{vec_capacity};
ghost use Rattle.base_queue.specs.SharedList.{AreOf, flat};

use crate::chunk::{CHUNK, Chunk};
use seq_model::{INDEX_LIMIT, Memory};
use std::alloc::Global;
use std::marker::Model;
use std::sync::Arc;

/// A list of numbers, with room for more.
#[derive(Drop)]
pub struct SharedList {
    chunks: Arc<Vec<Chunk>>,
    /// How many items stand in the chunks.
    chunked: usize,
    back: Vec<u64>,
    /// Whether it is a copy. A copy lives for one transaction, so it never makes chunks.
    copied: bool,
}

impl Model for SharedList {
    ghost use Rattle.std.specs.Prelude.{◌≡◌, ◌-◌, ◌≤◌, ◌++◌, length};
    ghost use Rattle.std.specs.Arc.{arc_value};
    ghost use Rattle.std.specs.Vec.{vec_capacity, vec_len};
    ghost use Rattle.seq_model.specs.declared.limits.TheConstants.{INDEX_LIMIT};
    ghost use Rattle.base_queue.specs.declared.chunk.TheConstants.{CHUNK};
    ghost use Rattle.base_queue.specs.SharedList.{ListView, list_code, AreOf, flat};

    ghost Value = { ListView };

    ghost coded = { list_code };

    ghost view = { λ a. record {
      items = flat (arc_value a.chunks).items ++ a.back.items;
      room = vec_capacity a.back - vec_len a.back;
    } };

    ghost invariant = { λ a. AreOf CHUNK (arc_value a.chunks).items × (a.chunked ≡ length (flat (arc_value a.chunks).items))
        × (length (flat (arc_value a.chunks).items ++ a.back.items) ≤ INDEX_LIMIT) };
}

impl SharedList {
    /// A list of these items. `Memory` where an allocation fails.
    pub fn of_slice(alloc: Global, items: &[u64]) -> Result<SharedList, Memory>
        requires { length items.now ≤ INDEX_LIMIT }
        ensures { IfOk result (λ list. list.items ≡ items.now) }
    {
        let mut chunks = Vec::with_capacity(alloc, items.len() / CHUNK)?;
        let chunked = freeze(alloc, &mut chunks, items)?;
        let back = Vec::from_slice(alloc, &items[chunked..])?;
        Ok(SharedList {
            chunks: Arc::new(alloc, chunks)?,
            chunked,
            back,
            copied: false,
        })
    }

    /// How many items there are.
    pub fn len(&self) -> usize
        ensures len { result ≡ length self.now.items }
        ensures small { result ≤ INDEX_LIMIT }
    {
        self.chunked + self.back.len()
    }

    /// The item at this position.
    pub fn at(&self, place: usize) -> u64
        requires { place < length self.now.items }
        ensures { result ≡ slice_index self.now.items place }
    {
        if place < self.chunked {
            self.chunks[place / CHUNK].at(place % CHUNK)
        } else {
            self.back[place - self.chunked]
        }
    }

    /// Makes room for this many more items. Where there is room for them, it takes no memory.
    pub fn reserve(&mut self, more: usize) -> Result<(), Memory>
        ensures items { self.new.items ≡ self.old.items }
        ensures ok { OnOk result (more ≤ self.new.room) }
        ensures room { self.old.room ≤ self.new.room }
        ensures served { more ≤ self.old.room → IsOk result }
    {
        self.back.reserve(more)?;
        Ok(())
    }

    /// Adds an item at the back. It takes no memory.
    pub fn push(&mut self, item: u64)
        requires room { 0 < self.old.room }
        requires below { length self.old.items < INDEX_LIMIT }
        ensures items { self.new.items ≡ self.old.items ++ item ∷ [] }
        ensures room { self.old.room ≤ self.new.room + 1 }
    {
        self.back.push_reserved(item);
    }

    /// Lets go of items at the front, of which so many are dead, and moves items at the back into chunks, where either is worth it and
    /// there is memory. It answers how many went.
    pub fn settle(&mut self, dead: usize) -> usize
        requires { dead ≤ length self.old.items }
        ensures few { result ≤ dead }
        ensures items { self.new.items ≡ drop result self.old.items }
        ensures room { self.old.room ≤ self.new.room }
    {
        if self.copied {
            return 0;
        }
        let gone = dead.min(self.chunked) / CHUNK;
        if self.chunked == 0 && dead >= self.back.len() - dead {
            cut_front(&mut self.back, dead);
            return dead;
        }
        if gone <= self.chunks.len() / 64 && self.back.len() < 2 * CHUNK {
            return 0;
        }
        let alloc = *self.back.allocator();
        if let Ok((chunks, moved)) = rebuilt(
            alloc,
            self.chunks.as_slice(),
            gone,
            self.back.as_slice(),
        ) {
            if let Ok(chunks) = Arc::new(alloc, chunks) {
                self.chunks = chunks;
                self.chunked = self.chunked - gone * CHUNK + moved;
                cut_front(&mut self.back, moved);
                return gone * CHUNK;
            }
        }
        0
    }

    /// A copy, which shares the chunks and makes none. `Memory` where an allocation for the last few items fails, or the chunks can't be
    /// shared.
    pub fn try_copy(&self) -> Result<SharedList, Memory>
        ensures { IfOk result (λ copy. copy.items ≡ self.now.items) }
    {
        let mut back = Vec::with_capacity(*self.back.allocator(), self.back.len())?;
        back.extend_from_slice(self.back.as_slice())?;
        Ok(SharedList {
            chunks: Arc::try_clone(&self.chunks)?,
            chunked: self.chunked,
            back,
            copied: true,
        })
    }

    /// Becomes a copy of the other, in the memory that it has as far as that suffices.
    pub fn copy_from(&mut self, other: &SharedList) -> Result<(), Memory>
        ensures ok { OnOk result (self.new.items ≡ other.now.items) }
        ensures err { OnErr result (self.new.items ≡ self.old.items) }
    {
        let chunks = Arc::try_clone(&other.chunks)?;
        self.back.reserve(other.back.len())?;
        self.chunks = chunks;
        self.chunked = other.chunked;
        self.copied = true;
        self.back.clear();
        self.back.extend_from_slice(other.back.as_slice())?;
        Ok(())
    }
}

// The chunks from this one on, and after them as many as the items at the back fill, with how many these are.
fn rebuilt(
    alloc: Global,
    chunks: &[Chunk],
    from: usize,
    back: &[u64],
) -> Result<(Vec<Chunk>, usize), Memory>
    requires { from ≤ length chunks.now }
    ensures items { IfOk result (λ made. flat made.0.items ++ drop made.1 back.now ≡ flat (drop from chunks.now) ++ back.now) }
    ensures moved { IfOk result (λ made. made.1 ≤ length back.now) }
    ensures full { AreOf CHUNK chunks.now → IfOk result (λ made. AreOf CHUNK made.0.items) }
{
    let mut list = Vec::with_capacity(alloc, chunks.len() - from + back.len() / CHUNK)?;
    for at in from..chunks.len() {
        list.push(chunks[at].share()?)?;
    }
    let moved = freeze(alloc, &mut list, back)?;
    Ok((list, moved))
}

// Adds as many chunks as the items fill, and answers how many items these are.
fn freeze(alloc: Global, list: &mut Vec<Chunk>, items: &[u64]) -> Result<usize, Memory>
    ensures items { IfOk result (λ moved. flat list.new.items ++ drop moved items.now ≡ flat list.old.items ++ items.now) }
    ensures moved { IfOk result (λ moved. moved ≤ length items.now) }
    ensures full { AreOf CHUNK list.old.items → OnOk result (AreOf CHUNK list.new.items) }
{
    let mut at = 0;
    while items.len() - at >= CHUNK {
        list.push(Chunk::of_slice(alloc, &items[at..at + CHUNK])?)?;
        at += CHUNK;
    }
    Ok(at)
}

fn cut_front(items: &mut Vec<u64>, count: usize)
    requires { count ≤ length items.old.items }
    ensures items { items.new.items ≡ drop count items.old.items }
    ensures capacity { vec_capacity items.new ≡ vec_capacity items.old }
{
    let left = items.len() - count;
    items.rotate_left(count);
    items.truncate(left);
}
