//! A store that has ended, and whose contents were not read.
//!
//! Ending a store takes no memory, but the copy of what it held does. Where an allocation for the copy fails, what the store held is
//! still here.
ghost use Rattle.std.specs.Prelude.{◌≡◌, ◌≤◌, All, IfErr, IfOk, length};
ghost use Rattle.actor_parts.specs.declared.blocks.TheConstants.{COLLECTION_LIMIT};
ghost use Rattle.seq_model.specs.Calls.{IsWithinLimits};
ghost use Rattle.shared_table.specs.Ends.{held_in, homes_of, row_of};
ghost use Rattle.shared_table.specs.Layout.{values_in};
ghost use Rattle.tx_engine.specs.Closing.{state_of};

use seq_model::{Held, Memory, Refusal, State, Value};
use shared_table::Closed;
use std::alloc::Global;
use std::marker::Model;
use tx_client::{Contents, contents_of};

/// A store that has ended while memory was out: what it held is here, to be read later. [`crate::Store::close`] returns it.
///
/// Contracts see its number and what it held.
pub struct Unread<V> {
    pub(crate) alloc: Global,
    pub(crate) number: u32,
    pub(crate) words: u32,
    pub(crate) closed: Closed<V>,
}

impl<V: Drop> Drop for Unread<V> {
    fn drop(self) {
        let Unread {
            alloc: _,
            number: _,
            words: _,
            closed: _,
        } = self;
    }
}

impl<V> Model for Unread<V> {
    ghost use Rattle.std.specs.Coded.{codes};
    ghost use Rattle.seq_model.specs.Contents.{contents_code};
    ghost use Rattle.wolimevar.specs.UnreadStores.{IsUnread, UnreadShown, unread_at};

    ghost Value = { UnreadShown V };

    ghost coded = { Prim.hlevel (codes, contents_code V.code) };

    ghost view = { λ a. unread_at a.number a.closed };

    ghost invariant = { λ a. IsUnread a.words a.closed };
}

impl<V: Value> Unread<V> {
    /// Returns what the store held, like [`crate::Store::close`]. Where an allocation fails it is returned itself, unchanged.
    ///
    /// ```
    /// let contents = match store.close() {
    ///     Ok(contents) => contents,
    ///     Err(unread) => unread.read()?,
    /// };
    /// ```
    pub fn read(self) -> Result<Contents<V>, Unread<V>>
        ensures number { IfOk result (λ contents. contents.store ≡ self.number) }
        ensures state { IfOk result (λ contents. contents.state ≡ self.state) }
        ensures same { IfErr result (λ unread. unread ≡ self) }
    {
        match read_state(self.alloc, self.words, &self.closed) {
            Ok(state) => Ok(contents_of(self.number, state)),
            Err(Memory) => Err(self),
        }
    }
}

impl<V: Drop> From<Unread<V>> for Refusal {
    fn from(_unread: Unread<V>) -> Refusal {
        Refusal::Memory
    }
}

/// A copy of what the words and the collections hold.
fn read_state<V: Value>(alloc: Global, words: u32, closed: &Closed<V>) -> Result<State<V>, Memory>
    requires words { words ≡ closed.now.words }
    requires few { length (homes_of closed.now) ≤ COLLECTION_LIMIT }
    requires within { All IsWithinLimits (held_in closed.now) }
    ensures { IfOk result (λ state. state ≡ state_of closed.now) }
{
    let values = read_words(alloc, words, closed)?;
    let held = read_collections(alloc, closed)?;
    match State::new(values, held) {
        Ok(state) => Ok(state),
        Err(_) => unreachable!(),
    }
}

/// The values of the first so many words.
fn read_words<V: Value>(alloc: Global, count: u32, closed: &Closed<V>) -> Result<Vec<u64>, Memory>
    requires { count ≤ closed.now.words }
    ensures { IfOk result (λ values. values.items ≡ values_in closed.now.locations count (row_of closed.now)) }
{
    let mut values = Vec::with_capacity(alloc, count as usize)?;
    for word in 0..count {
        values.push(closed.word(word))?;
    }
    Ok(values)
}

/// A copy of what each collection holds.
fn read_collections<V: Value>(alloc: Global, closed: &Closed<V>) -> Result<Vec<Held<V>>, Memory>
    requires { length (homes_of closed.now) ≤ COLLECTION_LIMIT }
    ensures { IfOk result (λ held. held.items ≡ held_in closed.now) }
{
    let mut held = Vec::with_capacity(alloc, closed.collections())?;
    let count = closed.collections() as u32;
    for k in 0..count {
        held.push(closed.collection(k).held()?)?;
    }
    Ok(held)
}
