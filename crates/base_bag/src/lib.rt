//! The collection of a multiset: the copies of its elements, an edition for each stripe of them, what calls on it read and
//! write, and the replay of the changes that a transaction commits.
//!
//! Element `x` is on stripe `x mod stripes`, and the stripes are the multiset's locations. A call reads the stripe of its
//! element, and writes it if it changes the number of copies: an add that is Full and a take that finds none only read. Each
//! change is one copy more or one copy fewer, so two adds of one element in a transaction are two copies.
#![tactic(auto)]

mod bag_base;
mod elements;
mod footprints;
pub mod laws;

pub use bag_base::BagBase;
pub use footprints::{change_in, location_in, reads_in, writes_in};
