//! A table of versioned words, gates and bases that threads share: the rule by which it shows a world.
//!
//! The table is one of `atomic_table`: words that change one atomic step at a time, slots that are full or out with a seat, and what
//! each seat knows. Its rule says that some list of events reaches, from the opening, a world of `replay_log` whose clock, lock words,
//! values and gates the words are; that a free gate's base is in its slot and shows its collection; that what each seat knows gives the
//! world in which its actor is alone with what it found; and that the receipts of all seats are the world's records.
//!
//! A [`TxTable`] is opened with a first [`Seat`], which is split for each thread. A seat's actor asks, and each step function takes the
//! one atomic step that is next for it: its contract says what the step makes of the actor's lone world. Once all seats are joined the
//! table is closed, and what it leaves is a run of the sequential model. [`laws`] has the rule as statements about definitions.
#![tactic(auto)]

mod asks;
mod blocks;
mod calls;
mod closed;
mod closing;
mod holder;
mod home;
pub mod laws;
mod layout;
mod opening;
mod rule;
mod seat;
mod shares;
mod steps;
mod table;
mod view;

pub use blocks::Block;
pub use closed::Closed;
pub use holder::HoldsSeat;
pub use seat::{EventsSinceStep, Seat};
pub use seq_model::Kind;
pub use table::TxTable;
pub use view::{Opening, SHARES, SeatKnowledge, Turn};
