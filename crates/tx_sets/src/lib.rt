//! The read set and the write set of a transaction.
//!
//! A transaction keeps the values that it has read and those that it is to write by their
//! locations, and touches no shared word for a location that it finds there. Its commit locks,
//! checks, stores and releases location by location, rising, so that two commits take the locks
//! which both want in one order.
//!
//! Both sets are finite maps from locations to values, kept as one list of entries in the order of
//! the locations. Locations often come in rising order: a new one then goes to the end of the list,
//! and no search is made. Else, among a few entries, as most transactions have, the position of a
//! location is the number of entries below it, counted without a branch; among more it is found by
//! halves. A set keeps the position that was sought last, so a location that is put right after it was
//! sought is not searched again. And it keeps its locations once more, as they were put, in 256 chains of
//! links: `contains` walks along one, and `find` searches the entries for a location that is there
//! and for no other. TL2 has a filter there, which takes some locations for others. A set that is
//! cleared keeps its memory for the next transaction, so a worker soon allocates no more; what a
//! commit must not be refused is reserved beforehand.
//!
//! Source: TL2, Dice, Shalev and Shavit, DISC 2006.
#![tactic(auto)]

mod access_set;
mod laws;
mod set_refusal;

pub use access_set::{AccessSet, LOCATION_LIMIT, ReadSet, Reads, WriteSet, Writes};
pub use laws::finite_maps;
pub use set_refusal::SetRefusal;
