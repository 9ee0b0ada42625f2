//! The step functions of the shared table, by which a seat takes one atomic step. Each stands in a function with its own conditions.
ghost use Rattle.std.specs.Prelude.{◌≡◌, ◌+◌, ◌^◌, ◌<◌, ◌∷◌, None, length};
ghost use Rattle.atomic_table.specs.Table.{rest};
ghost use Rattle.actor_laws.specs.Gates.{Tries};
ghost use Rattle.tx_machine.specs.Cells.{ClockCell, LockCell, ValueCell};
ghost use Rattle.shared_table.specs.Seated.{
  Adds,
  Exchanges,
  IsHome,
  Loads,
  Owns,
  Stores,
  actor,
  acts,
  blocks_in,
  locations_in,
  opening_of,
  out,
  view,
};

use actor_parts::Boxed;
use replay_log::Base;
use seq_model::Value;
use shared_table::{Seat, TxTable};

pub fn load_clock<V: Value>(table: &TxTable<V>, seat: &mut Seat<V>) -> u64
    requires own { Owns table.now seat.old }
    requires live { 0 < (view seat.old).shares }
    requires due { Loads (actor seat.old) (acts (opening_of table.now) seat.old) ClockCell }
{
    table.load_clock(seat)
}

pub fn load_lock<V: Value>(table: &TxTable<V>, seat: &mut Seat<V>, location: u32) -> u64
    requires own { Owns table.now seat.old }
    requires live { 0 < (view seat.old).shares }
    requires location { location < locations_in table.now }
    requires due { Loads (actor seat.old) (acts (opening_of table.now) seat.old) (LockCell location) }
{
    table.load_lock(seat, location)
}

pub fn load_value<V: Value>(table: &TxTable<V>, seat: &mut Seat<V>, location: u32) -> u64
    requires own { Owns table.now seat.old }
    requires live { 0 < (view seat.old).shares }
    requires location { location < locations_in table.now }
    requires due { Loads (actor seat.old) (acts (opening_of table.now) seat.old) (ValueCell location) }
{
    table.load_value(seat, location)
}

pub fn lock<V: Value>(
    table: &TxTable<V>,
    seat: &mut Seat<V>,
    location: u32,
    old: u64,
) -> Option<u64>
    requires own { Owns table.now seat.old }
    requires live { 0 < (view seat.old).shares }
    requires location { location < locations_in table.now }
    requires room { old + 1 < 2 ^ 64 }
    requires due { Exchanges (actor seat.old) (acts (opening_of table.now) seat.old) (LockCell location) old (old + 1) }
{
    table.lock(seat, location, old)
}

pub fn stamp<V: Value>(table: &TxTable<V>, seat: &mut Seat<V>) -> u64
    requires own { Owns table.now seat.old }
    requires live { 0 < (view seat.old).shares }
    requires due { Adds (actor seat.old) (acts (opening_of table.now) seat.old) }
{
    table.stamp(seat)
}

pub fn store_value<V: Value>(table: &TxTable<V>, seat: &mut Seat<V>, location: u32, value: u64)
    requires own { Owns table.now seat.old }
    requires live { 0 < (view seat.old).shares }
    requires location { location < locations_in table.now }
    requires due { Stores (actor seat.old) (acts (opening_of table.now) seat.old) (ValueCell location) value }
{
    table.store_value(seat, location, value);
}

pub fn store_lock<V: Value>(table: &TxTable<V>, seat: &mut Seat<V>, location: u32, word: u64)
    requires own { Owns table.now seat.old }
    requires live { 0 < (view seat.old).shares }
    requires location { location < locations_in table.now }
    requires due { Stores (actor seat.old) (acts (opening_of table.now) seat.old) (LockCell location) word }
{
    table.store_lock(seat, location, word);
}

pub fn take_gate<V: Value>(
    table: &TxTable<V>,
    seat: &mut Seat<V>,
    collection: u32,
) -> Option<Boxed<Base<V>>>
    requires own { Owns table.now seat.old }
    requires live { 0 < (view seat.old).shares }
    requires collection { collection < length (blocks_in table.now) }
    requires due { Tries (acts (opening_of table.now) seat.old) (actor seat.old) collection }
{
    table.take_gate(seat, collection)
}

pub fn put_gate<V: Value>(
    table: &TxTable<V>,
    seat: &mut Seat<V>,
    collection: u32,
    base: Boxed<Base<V>>,
)
    requires own { Owns table.now seat.old }
    requires live { 0 < (view seat.old).shares }
    requires collection { collection < length (blocks_in table.now) }
    requires held { out seat.old ≡ (collection, None) ∷ rest (out seat.old) }
    requires due { IsHome (opening_of table.now) (actor seat.old) (acts (opening_of table.now) seat.old) collection base }
{
    table.put_gate(seat, collection, base);
}
