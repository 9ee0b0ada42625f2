//! What a table opened with, and what its seats know.
//!
//! No view and no turn is ever made: the rule of the table speaks of them.
use replay_log::Base;
use seq_model::{ACTOR_LIMIT, Event, Items, Record, Shape, State};
use std::snapshot::Snapshot;

/// So many shares the seats of a table have together, as many as a world has actors.
pub const SHARES: u64 = ACTOR_LIMIT as u64;

/// What a table opened with, as clauses see it.
#[derive(Drop)]
pub struct Opening<V> {
    pub shape: Snapshot<Shape>,
    pub state: Snapshot<State<V>>,
}

/// A turn of an actor: what was asked before a step, the number that the step found, and of a gate that it found free the base.
pub struct Turn<V> {
    pub asks: Items<Event<V>>,
    pub found: u64,
    pub base: Option<Base<V>>,
}

/// What a seat knows: its shares, the clock as it last left it, what its actor has asked and found, the transactions that were committed,
/// by its actor and by those whose seats were joined into it, these actors, each with what it has asked and found, and the clocks that it
/// loaded beside its turns.
pub struct SeatKnowledge<V> {
    pub shares: u64,
    pub clock: u64,
    pub turns: Items<Turn<V>>,
    pub receipts: Items<(u64, Record<V>)>,
    pub joined: Items<(u64, Items<Turn<V>>)>,
    pub looks: Items<u64>,
}
