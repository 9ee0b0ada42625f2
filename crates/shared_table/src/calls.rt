//! The steps of a seat, each by its name. Each is one atomic step on the table, the one that is next for the seat's actor.
ghost use Rattle.std.specs.Prelude.{◌≡◌, ◌≢◌, ◌+◌, ◌^◌, ◌<◌, ◌≤◌, ◌∷◌, ◌++◌, [], MatchOption, None, Some, length};
ghost use Rattle.atomic_table.specs.Table.{rest};
ghost use Rattle.actor_laws.specs.Gates.{Tries};
ghost use Rattle.tx_machine.specs.Cells.{ClockCell, LockCell, ValueCell};
ghost use Rattle.shared_table.specs.Shown.{highest_clock, IsBaseAt, looking};
ghost use Rattle.shared_table.specs.Seated.{
  Adds,
  Exchanges,
  IsHome,
  IsSameSeat,
  Loads,
  Owns,
  Stepped,
  StepsBlind,
  Stores,
  Takes,
  actor,
  acts,
  blocks_in,
  list_of,
  locations_in,
  opening_of,
  out,
  view,
};

use crate::seat::Seat;
use crate::steps::{add_one, free_gate, load_first, load_word, store_word, swap_word, try_gate};
use crate::table::TxTable;
use actor_parts::Boxed;
use replay_log::Base;
use seq_model::Value;
use std::marker::Brand;

impl<V: Value> TxTable<V> {
    /// The load of the clock that begins a transaction, or ends one. It is no lower than the seat knew it.
    pub fn load_clock(&self, seat: &mut Seat<V>) -> u64
        requires own { Owns self.now seat.old }
        requires live { 0 < (view seat.old).shares }
        requires due { Loads (actor seat.old) (acts (opening_of self.now) seat.old) ClockCell }
        ensures room { ((view seat.old).clock ≤ result) × (result ≤ highest_clock) }
        ensures step { Takes (opening_of self.now) seat.old result result None (out seat.old) seat.new }
    {
        load_first(&self.whole.shared, seat)
    }

    /// A load of the clock that is no step of a transaction. The seat knows it from then on.
    pub fn look(&self, seat: &mut Seat<V>) -> u64
        requires own { Owns self.now seat.old }
        ensures room { ((view seat.old).clock ≤ result) × (result ≤ highest_clock) }
        ensures seat { seat.new.place.me ≡ (looking (view seat.old) result, out seat.old) }
        ensures same { IsSameSeat seat.old seat.new }
        ensures acts { acts (opening_of self.now) seat.new ≡ acts (opening_of self.now) seat.old }
        ensures asked { list_of seat.new.asked ≡ list_of seat.old.asked }
    {
        self.whole.shared.load::<Brand>(&mut seat.place, 0)
    }

    /// A load of the lock word of a location.
    pub fn load_lock(&self, seat: &mut Seat<V>, location: u32) -> u64
        requires own { Owns self.now seat.old }
        requires live { 0 < (view seat.old).shares }
        requires location { location < locations_in self.now }
        requires due { Loads (actor seat.old) (acts (opening_of self.now) seat.old) (LockCell location) }
        ensures { Stepped (opening_of self.now) seat.old result seat.new }
    {
        load_word(&self.whole.shared, seat, self.lock_index(location))
    }

    /// A load of the value of a location.
    pub fn load_value(&self, seat: &mut Seat<V>, location: u32) -> u64
        requires own { Owns self.now seat.old }
        requires live { 0 < (view seat.old).shares }
        requires location { location < locations_in self.now }
        requires due { Loads (actor seat.old) (acts (opening_of self.now) seat.old) (ValueCell location) }
        ensures { Stepped (opening_of self.now) seat.old result seat.new }
    {
        load_word(&self.whole.shared, seat, self.lock_index(location) + 1)
    }

    /// Locks a location whose lock word was found as `old`. Where it is another number by now, that is the answer, and it is unchanged.
    pub fn lock(&self, seat: &mut Seat<V>, location: u32, old: u64) -> Option<u64>
        requires own { Owns self.now seat.old }
        requires live { 0 < (view seat.old).shares }
        requires location { location < locations_in self.now }
        requires room { old + 1 < 2 ^ 64 }
        requires due { Exchanges (actor seat.old) (acts (opening_of self.now) seat.old) (LockCell location) old (old + 1) }
        ensures { MatchOption result (Stepped (opening_of self.now) seat.old old seat.new)
            (λ found. (found ≢ old) × Stepped (opening_of self.now) seat.old found seat.new) }
    {
        let found = swap_word(
            &self.whole.shared,
            seat,
            self.lock_index(location),
            old,
            old + 1,
        );
        if found == old { None } else { Some(found) }
    }

    /// Advances the clock by one, and gives it as it was.
    pub fn stamp(&self, seat: &mut Seat<V>) -> u64
        requires own { Owns self.now seat.old }
        requires live { 0 < (view seat.old).shares }
        requires due { Adds (actor seat.old) (acts (opening_of self.now) seat.old) }
        ensures room { ((view seat.old).clock ≤ result) × (result ≤ highest_clock) }
        ensures step { Takes (opening_of self.now) seat.old (result + 1) result None (out seat.old) seat.new }
    {
        add_one(&self.whole.shared, seat)
    }

    /// Stores the value of a location. The first of a transaction commits it.
    pub fn store_value(&self, seat: &mut Seat<V>, location: u32, value: u64)
        requires own { Owns self.now seat.old }
        requires live { 0 < (view seat.old).shares }
        requires location { location < locations_in self.now }
        requires due { Stores (actor seat.old) (acts (opening_of self.now) seat.old) (ValueCell location) value }
        ensures { StepsBlind (opening_of self.now) seat.old seat.new }
    {
        store_word(
            &self.whole.shared,
            seat,
            self.lock_index(location) + 1,
            value,
        );
    }

    /// Stores the lock word of a location.
    pub fn store_lock(&self, seat: &mut Seat<V>, location: u32, word: u64)
        requires own { Owns self.now seat.old }
        requires live { 0 < (view seat.old).shares }
        requires location { location < locations_in self.now }
        requires due { Stores (actor seat.old) (acts (opening_of self.now) seat.old) (LockCell location) word }
        ensures { StepsBlind (opening_of self.now) seat.old seat.new }
    {
        store_word(&self.whole.shared, seat, self.lock_index(location), word);
    }

    /// Tries the gate of a collection, and has its base where the gate was free.
    pub fn take_gate(&self, seat: &mut Seat<V>, collection: u32) -> Option<Boxed<Base<V>>>
        requires own { Owns self.now seat.old }
        requires live { 0 < (view seat.old).shares }
        requires collection { collection < length (blocks_in self.now) }
        requires due { Tries (acts (opening_of self.now) seat.old) (actor seat.old) collection }
        ensures { MatchOption result
            (Takes (opening_of self.now) seat.old (view seat.old).clock 1 None (out seat.old) seat.new)
            (λ base. IsBaseAt (blocks_in self.now) collection base
            × Takes (opening_of self.now) seat.old (view seat.old).clock 0 (Some base)
            (out seat.old ++ (collection, None) ∷ []) seat.new) }
    {
        try_gate(
            &self.whole.shared,
            seat,
            self.gate_index(collection),
            collection as usize,
        )
    }

    /// Whether the gate of a collection is taken now, as others may have changed by the time that this is answered. It is no step of a
    /// transaction, and takes the gate's line of the cache from nobody for longer than it reads it.
    pub fn is_gate_taken(&self, collection: u32) -> bool
        requires collection { collection < length (blocks_in self.now) }
    {
        self.whole.shared.peek(self.gate_index(collection)) != 0
    }

    /// Puts back the gate that the seat took first of those that it has, and its base with it: as it was found, or with the log of the
    /// transaction folded in.
    pub fn put_gate(&self, seat: &mut Seat<V>, collection: u32, base: Boxed<Base<V>>)
        requires own { Owns self.now seat.old }
        requires live { 0 < (view seat.old).shares }
        requires collection { collection < length (blocks_in self.now) }
        requires held { out seat.old ≡ (collection, None) ∷ rest (out seat.old) }
        requires due { IsHome (opening_of self.now) (actor seat.old) (acts (opening_of self.now) seat.old)
            collection base }
        ensures { Takes (opening_of self.now) seat.old (view seat.old).clock 1 None (rest (out seat.old)) seat.new }
    {
        free_gate(
            &self.whole.shared,
            seat,
            self.gate_index(collection),
            collection as usize,
            base,
        );
    }
}
