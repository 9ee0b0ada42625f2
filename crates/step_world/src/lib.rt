//! A world of transactions over words and collections, one atomic step at a time, with the events that it is fed and what it answers.
//!
//! How transactions meet depends on how their steps interleave, which is left to chance where threads run. This world runs on one thread,
//! and its caller says which actor does what next: so any interleaving can be run, seen step by step, and run again.
//!
//! A world has parts: its table, the actors that run on it, and their ended transactions. An event is taken by its actor and by one word or
//! gate of the table. The contracts say that each event leaves and answers what the definitions' event does, and that what is shown is in
//! serial order. Where an allocation fails in an event, the parts may be half changed, so the world answers `Memory` from then on.
#![tactic(auto)]

mod copying;
mod feeding;
mod homes;
mod loading;
mod opening;
mod parts;
mod steps;
mod trace;
mod turns;
mod world;

pub use opening::ACTORS;
pub use parts::Parts;
pub use seq_model::{Answer, Event, Notice, Request, Shape};
pub use trace::{Ended, Trace};
pub use world::{World, run_world};
