//! What a seat says of itself, and requests, which reach the table with the next step.
ghost use Rattle.std.specs.Prelude.{◌≡◌, ◌≤◌, ◌++◌, ◌∷◌, [], max};
ghost use Rattle.shared_table.specs.Seated.{IsSameSeat, list_of, view};

use crate::seat::{EventsSinceStep, Seat};
use seq_model::Event;
use std::snapshot::Snapshot;

impl<V> Seat<V> {
    /// How many of the table's `SHARES` this seat has.
    pub fn shares(&self) -> u64
        ensures { result ≡ (view self.now).shares }
    {
        self.shares
    }

    /// The greatest number that this seat committed or learnt; 0 at first.
    pub fn last_number(&self) -> u64
        ensures last { result ≡ self.now.last }
        ensures known { result ≤ (view self.now).clock }
    {
        self.last
    }

    /// The seat has committed this number, or is to know of it; it is no higher than the clock that the seat knows. Whether it was a
    /// commit's is up to the caller: `last_number` returns what was noted here.
    pub fn note(&mut self, number: u64)
        requires { number ≤ (view self.old).clock }
        ensures last { self.new.last ≡ max self.old.last number }
        ensures same { self.new.place ≡ self.old.place }
        ensures asked { self.new.asked ≡ self.old.asked }
    {
        self.last = self.last.max(number);
    }

    /// The actor of this seat asks, or an allocation for its request fails. The next step takes it in.
    pub fn ask(&mut self, event: &Event<V>)
        ensures same { IsSameSeat self.old self.new × (self.new.place.me ≡ self.old.place.me) }
        ensures asked { list_of self.new.asked ≡ list_of self.old.asked ++ event.now ∷ [] }
    {
        self.ask_this(Snapshot::of(event));
    }

    /// The same of an event that may be moved by then.
    pub fn ask_this(&mut self, event: Snapshot<Event<V>>)
        ensures same { IsSameSeat self.old self.new × (self.new.place.me ≡ self.old.place.me) }
        ensures asked { list_of self.new.asked ≡ list_of self.old.asked ++ event.value ∷ [] }
    {
        let before = Snapshot::of(&self.asked);
        self.asked = EventsSinceStep::More(before, event);
    }

    /// What was asked since the last step is not asked.
    pub fn forget(&mut self)
        ensures same { IsSameSeat self.old self.new × (self.new.place.me ≡ self.old.place.me) }
        ensures none { list_of self.new.asked ≡ [] }
    {
        self.asked = EventsSinceStep::Nothing;
    }
}
