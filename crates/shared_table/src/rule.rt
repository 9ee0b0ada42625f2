//! The rule of a running table.
use crate::home::Home;
use crate::view::{Opening, SeatKnowledge};
use actor_parts::Boxed;
use atomic_table::{Join, Play, Seat, Shared, Split, Table, TableRule};
use replay_log::Base;
use std::alloc::Global;
use std::marker::Brand;

/// Some list of events reaches, from the opening, a world that the table shows.
pub struct Order;

impl<V> TableRule<Boxed<Home<Base<V>>>, SeatKnowledge<V>, Opening<V>> for Order {
    ghost use Rattle.shared_table.specs.Shown.{first as first_view};
    ghost use Rattle.shared_table.specs.Opening.{Holds};

    ghost holds = { λ k. Holds k };

    ghost first = { λ _. first_view };
}

// Each call picks what its step answers.
impl<V> Play<Boxed<Home<Base<V>>>, SeatKnowledge<V>> for Brand {
    ghost then = { λ _ _ _ _. Unit {0} };
}

// Each call picks how many shares go.
impl<V> Split<SeatKnowledge<V>> for Brand {
    ghost left = { λ v. v };

    ghost right = { λ v. v };
}

// Each call picks what is left of the other seat.
impl<V> Join<SeatKnowledge<V>> for Brand {
    ghost use Rattle.shared_table.specs.Shown.{first};

    ghost both = { λ v _. v };

    ghost spent = { first };
}

/// What all threads share of a table.
pub type Board<V> = Shared<Boxed<Home<Base<V>>>, SeatKnowledge<V>, Opening<V>, Order>;

/// A whole table, which one thread owns.
pub type Whole<V> = Table<Boxed<Home<Base<V>>>, SeatKnowledge<V>, Opening<V>, Order, Global>;

/// What a seat has of a table: its view, and the slots that it took out.
pub type TableSeat<V> = Seat<Boxed<Home<Base<V>>>, SeatKnowledge<V>>;
