//! A seat at the table.
ghost use Rattle.std.specs.Prelude.{◌≡◌, ◌≤◌};

use crate::rule::TableSeat;
use seq_model::Event;
use std::snapshot::Snapshot;

/// What an actor has asked since its last step. A snapshot has nothing in it as the program runs: only clauses read it.
#[derive(Drop)]
pub enum EventsSinceStep<V> {
    Nothing,
    More(Snapshot<EventsSinceStep<V>>, Snapshot<Event<V>>),
}

/// What one thread steps with at a table: an actor of its own, and shares of the table.
#[derive(Drop)]
pub struct Seat<V> {
    pub(crate) place: TableSeat<V>,
    pub(crate) asked: EventsSinceStep<V>,
    pub(crate) shares: u64,
    pub(crate) last: u64,
    ghost counted: { shares ≡ place.me.0.shares },
    ghost known: { last ≤ place.me.0.clock },
}
