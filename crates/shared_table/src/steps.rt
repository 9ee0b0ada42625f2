//! One atomic step each, which takes in what the seat's actor has asked.
ghost use Rattle.std.specs.Prelude.{◌≡◌, ◌+◌, ◌<◌, ◌≤◌, ◌∷◌, ◌++◌, ℕ, List, [], None, Some, MatchOption, length};
ghost use Rattle.atomic_table.specs.Table.{rest};
ghost use Rattle.tx_machine.specs.Cells.{Cell, ClockCell};
ghost use Rattle.seq_model.specs.declared.event.Event.{Event};
ghost use Rattle.actor_laws.specs.Gates.{Tries};
ghost use Rattle.shared_table.specs.Layout.{address, gate_address, IsInside};
ghost use Rattle.shared_table.specs.Opening.{blocks_at, locations_at, world_at};
ghost use Rattle.shared_table.specs.Shown.{highest_clock, IsBaseAt};
ghost use Rattle.shared_table.specs.Seated.{Adds, Exchanges, IsHome, Loads, Stepped, StepsBlind, Stores, Takes, acts, list_of, out, view};

use crate::home::{lift, put};
use crate::rule::Board;
use crate::seat::{EventsSinceStep, Seat};
use actor_parts::Boxed;
use replay_log::Base;
use seq_model::Value;
use std::marker::Brand;

pub(crate) fn load_word<V: Value>(board: &Board<V>, seat: &mut Seat<V>, word: usize) -> u64
    ghost asks: { List (Event V) }
    requires asks { asks ≡ list_of seat.old.asked }
    requires fits { seat.old.place.table_id ≡ board.now.table_id }
    requires inside { word < board.now.table_id.words }
    requires live { 0 < (view seat.old).shares }
    requires due { (c : Cell) × Loads seat.old.place.id (acts (world_at board.now.key) seat.old) c
        × IsInside (locations_at board.now.key) c × (word ≡ address (locations_at board.now.key) c) }
    ensures { Stepped (world_at board.now.key) seat.old result seat.new }
{
    let found = board.load::<Brand>(&mut seat.place, word);
    seat.asked = EventsSinceStep::Nothing;
    found
}

pub(crate) fn swap_word<V: Value>(
    board: &Board<V>,
    seat: &mut Seat<V>,
    word: usize,
    old: u64,
    new: u64,
) -> u64
    ghost asks: { List (Event V) }
    requires asks { asks ≡ list_of seat.old.asked }
    requires fits { seat.old.place.table_id ≡ board.now.table_id }
    requires inside { word < board.now.table_id.words }
    requires live { 0 < (view seat.old).shares }
    requires due { (c : Cell) × Exchanges seat.old.place.id (acts (world_at board.now.key) seat.old) c old new
        × IsInside (locations_at board.now.key) c × (word ≡ address (locations_at board.now.key) c) }
    ensures { Stepped (world_at board.now.key) seat.old result seat.new }
{
    let found = board.compare_exchange::<Brand>(&mut seat.place, word, old, new);
    seat.asked = EventsSinceStep::Nothing;
    found
}

pub(crate) fn store_word<V: Value>(board: &Board<V>, seat: &mut Seat<V>, word: usize, new: u64)
    ghost asks: { List (Event V) }
    requires asks { asks ≡ list_of seat.old.asked }
    requires fits { seat.old.place.table_id ≡ board.now.table_id }
    requires inside { word < board.now.table_id.words }
    requires live { 0 < (view seat.old).shares }
    requires due { (c : Cell) × Stores seat.old.place.id (acts (world_at board.now.key) seat.old) c new
        × IsInside (locations_at board.now.key) c × (word ≡ address (locations_at board.now.key) c) }
    ensures { StepsBlind (world_at board.now.key) seat.old seat.new }
{
    board.store::<Brand>(&mut seat.place, word, new);
    seat.asked = EventsSinceStep::Nothing;
}

pub(crate) fn load_first<V: Value>(board: &Board<V>, seat: &mut Seat<V>) -> u64
    ghost asks: { List (Event V) }
    requires asks { asks ≡ list_of seat.old.asked }
    requires fits { seat.old.place.table_id ≡ board.now.table_id }
    requires inside { 0 < board.now.table_id.words }
    requires live { 0 < (view seat.old).shares }
    requires due { Loads seat.old.place.id (acts (world_at board.now.key) seat.old) ClockCell }
    ensures room { ((view seat.old).clock ≤ result) × (result ≤ highest_clock) }
    ensures step { Takes (world_at board.now.key) seat.old result result None (out seat.old) seat.new }
{
    let found = board.load::<Brand>(&mut seat.place, 0);
    seat.asked = EventsSinceStep::Nothing;
    found
}

pub(crate) fn add_one<V: Value>(board: &Board<V>, seat: &mut Seat<V>) -> u64
    ghost asks: { List (Event V) }
    requires asks { asks ≡ list_of seat.old.asked }
    requires fits { seat.old.place.table_id ≡ board.now.table_id }
    requires inside { 0 < board.now.table_id.words }
    requires live { 0 < (view seat.old).shares }
    requires due { Adds seat.old.place.id (acts (world_at board.now.key) seat.old) }
    ensures room { ((view seat.old).clock ≤ result) × (result ≤ highest_clock) }
    ensures step { Takes (world_at board.now.key) seat.old (result + 1) result None (out seat.old) seat.new }
{
    let found = board.fetch_add::<Brand>(&mut seat.place, 0, 1);
    seat.asked = EventsSinceStep::Nothing;
    found
}

// The try of a gate: the base, where it was free.
pub(crate) fn try_gate<V: Value>(
    board: &Board<V>,
    seat: &mut Seat<V>,
    word: usize,
    gate: usize,
) -> Option<Boxed<Base<V>>>
    ghost of: { List (Event V) × ℕ }
    requires asks { of.0 ≡ list_of seat.old.asked }
    requires gate { of.1 ≡ gate }
    requires fits { seat.old.place.table_id ≡ board.now.table_id }
    requires inside { word < board.now.table_id.words }
    requires live { 0 < (view seat.old).shares }
    requires collection { of.1 < length (blocks_at board.now.key) }
    requires place { word ≡ gate_address (locations_at board.now.key) of.1 }
    requires due { Tries (acts (world_at board.now.key) seat.old) seat.old.place.id of.1 }
    ensures { MatchOption result (Takes (world_at board.now.key) seat.old (view seat.old).clock 1 None (out seat.old) seat.new)
        (λ base. IsBaseAt (blocks_at board.now.key) of.1 base
        × Takes (world_at board.now.key) seat.old (view seat.old).clock 0 (Some base) (out seat.old ++ (of.1, None) ∷ []) seat.new) }
{
    let found = board.compare_exchange::<Brand>(&mut seat.place, word, 0, 1);
    seat.asked = EventsSinceStep::Nothing;
    if found != 0 {
        return None;
    }
    let base = lift(seat.place.slot_mut(board, gate));
    seat.place.turn();
    base
}

// The store of a gate that the seat took, with its base.
pub(crate) fn free_gate<V: Value>(
    board: &Board<V>,
    seat: &mut Seat<V>,
    word: usize,
    gate: usize,
    base: Boxed<Base<V>>,
)
    ghost of: { List (Event V) × ℕ }
    requires asks { of.0 ≡ list_of seat.old.asked }
    requires gate { of.1 ≡ gate }
    requires fits { seat.old.place.table_id ≡ board.now.table_id }
    requires inside { word < board.now.table_id.words }
    requires live { 0 < (view seat.old).shares }
    requires collection { of.1 < length (blocks_at board.now.key) }
    requires place { word ≡ gate_address (locations_at board.now.key) of.1 }
    requires held { out seat.old ≡ (of.1, None) ∷ rest (out seat.old) }
    requires due { IsHome (world_at board.now.key) seat.old.place.id (acts (world_at board.now.key) seat.old) of.1 base }
    ensures { Takes (world_at board.now.key) seat.old (view seat.old).clock 1 None (rest (out seat.old)) seat.new }
{
    put(seat.place.slot_mut(board, gate), base);
    board.store::<Brand>(&mut seat.place, word, 0);
    seat.asked = EventsSinceStep::Nothing;
}
