//! A table that no thread shares any more.
ghost use Rattle.std.specs.Prelude.{◌≡◌, ◌<◌, All, IfOk, Some, get_or, length, map};
ghost use Rattle.seq_model.specs.Calls.{IsWithinLimits};
ghost use mathlib.Core.Option.{some};
ghost use lib.ListN.{get_elem?};
ghost use Rattle.tx_machine.specs.Cells.{ValueCell};
ghost use Rattle.shared_table.specs.Layout.{address, values_in};
ghost use Rattle.shared_table.specs.Shown.{Closes, ShowsWorld};
ghost use Rattle.shared_table.specs.Ends.{held_in, homes_of, row_of};
ghost use Rattle.shared_table.specs.Seated.{Owns, Rests, actor, blocks_in, contents_in, kept, locations_in, opening_of, view, words_in};

use crate::closed::Closed;
use crate::laws::closed_tables;
use crate::layout::stride;
use crate::seat::Seat;
use crate::table::TxTable;
use crate::view::SHARES;
use replay_log::Base;
use seq_model::{Held, Memory, State, Value};

impl<V: Value> TxTable<V> {
    /// What the table holds, once every seat was joined into this one. No commit of it is half done, and it holds no gate. It takes no
    /// memory.
    pub fn into_closed(self, seat: Seat<V>) -> Closed<V>
        requires own { Owns self seat }
        requires all { (view seat).shares ≡ SHARES }
        requires rests { Rests (actor seat) (kept (opening_of self) seat) }
        ensures words { result.words ≡ words_in self }
        ensures locations { result.locations ≡ locations_in self }
        ensures collections { length (homes_of result) ≡ length (blocks_in self) }
        ensures closes { Closes (words_in self) (blocks_in self) (contents_in self)
            (view seat) (row_of result) (map some (homes_of result)) }
        ensures shows { ShowsWorld (opening_of self) (actor seat) (view seat) (row_of result) (map some (homes_of result)) }
    {
        closed_tables::<V>();
        let TxTable {
            whole,
            words,
            locations,
            blocks: _,
            alloc,
        } = self;
        let Seat {
            place,
            asked: _,
            shares: _,
            last: _,
        } = seat;
        let row = whole.close_with(place);
        Closed {
            row,
            words,
            locations,
            alloc,
        }
    }
}

impl<V: Value> Closed<V> {
    /// The value of a word.
    pub fn word(&self, word: u32) -> u64
        requires { word < self.now.words }
        ensures { result ≡ get_or (row_of self.now) (address self.now.locations (ValueCell word)) 0 }
    {
        let place = 9 + stride(self.locations) * word as usize;
        *self.row.words.get(place)
    }

    /// The clock.
    pub fn clock(&self) -> u64
        ensures { result ≡ get_or (row_of self.now) 0 0 }
    {
        *self.row.words.get(0)
    }

    /// How many collections there are.
    pub fn collections(&self) -> usize
        ensures { result ≡ length (homes_of self.now) }
    {
        self.row.slot_count()
    }

    /// The base of a collection.
    pub fn collection(&self, collection: u32) -> &Base<V>
        requires { collection < length (homes_of self.now) }
        ensures { get_elem? (homes_of self.now) collection ≡ some (Some result.now) }
    {
        self.base_at(collection as usize)
    }

    fn base_at(&self, k: usize) -> &Base<V>
        requires { k < length (homes_of self.now) }
        ensures { get_elem? (homes_of self.now) k ≡ some (Some result.now) }
    {
        let home = self.row.slots.get(k);
        match home.get().base() {
            Some(base) => base.get(),
            None => unreachable!(),
        }
    }

    /// What the words and the collections hold, as the state that the receipts' run leaves. Each collection has to be within the limits of
    /// a state, as `close` promises. `Memory` where an allocation for the copies fails; what was closed is gone either way.
    pub fn state(self) -> Result<State<V>, Memory>
        requires { All IsWithinLimits (held_in self) }
        ensures words { IfOk result (λ state. state.words ≡ values_in self.locations self.words (row_of self)) }
        ensures held { IfOk result (λ state. state.held ≡ held_in self) }
    {
        let words = self.values()?;
        let held = self.held()?;
        match State::new(words, held) {
            Ok(state) => Ok(state),
            Err(_) => unreachable!(),
        }
    }

    fn values(&self) -> Result<Vec<u64>, Memory>
        ensures { IfOk result (λ words. words.items ≡ values_in self.now.locations self.now.words (row_of self.now)) }
    {
        let mut words = Vec::with_capacity(self.alloc, self.words as usize)?;
        for word in 0..self.words {
            words.push(self.word(word))?;
        }
        Ok(words)
    }

    fn held(&self) -> Result<Vec<Held<V>>, Memory>
        ensures { IfOk result (λ held. held.items ≡ held_in self.now) }
    {
        let mut held = Vec::with_capacity(self.alloc, self.collections())?;
        for k in 0..self.collections() {
            held.push(self.base_at(k).held()?)?;
        }
        Ok(held)
    }
}
