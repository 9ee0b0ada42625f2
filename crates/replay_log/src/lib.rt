//! What a transaction is going to change in a collection, and the collection that it changes.
//!
//! Between its calls and its commit a transaction keeps its changes in a *log* (the replay log of Proust, 2017), each with the
//! locations that it writes. At the commit the log is *folded* into the *base*, the collection that all transactions share: its
//! changes are applied in order, and the edition of each location that was pushed with them is raised by one.
//!
//! A [`Base`] is one of the four collections; its calls are theirs, and contracts see by `specs/Base.antt` what it shows and
//! what its calls answer, read, write and change. A [`Log`] is folded into a base without memory, once the base is prepared for
//! its changes. [`laws`] has what follows: outcomes that do not conflict commute, and a log folded is its changes one after
//! another.
//!
//! Beside them `specs/` defines a whole *world* of words and collections, one atomic step at a time (`specs/Worlds.antt`), over
//! the machine of `tx_machine`. No code here runs one; [`laws`] says of every list of its events that its records are in
//! serial order, what it shows, what it refuses and what a refusal leaves, and that each request is answered.
#![tactic(auto)]

mod base;
pub mod laws;
mod location_editions;
mod log;
mod touch;

pub use base::Base;
pub use location_editions::LocationEditions;
pub use log::Log;
pub use touch::{Touch, TouchedKey};
