//! What a call on a collection reads and writes, so that calls which do not commute conflict.
//!
//! A transaction on words conflicts with another where one writes a word that the other reads. A call on a collection has no
//! words, so each collection is given *locations*, counted from 0: the stripes of its keys, and where it has them its least
//! element, its head and its tail. The *outcome* of a call is the call with its reply. From it the collection says which
//! locations the call reads, which it writes, and which *changes* it makes; this is the conflict abstraction of Proust (2017),
//! with this library's own rules. Two outcomes *conflict* if a location that one writes is read by the other.
//!
//! The trait [`Conflict`] is kept by each kind of collection. Its law is the frame laws: what an outcome answers depends on
//! the parts that it reads alone, and its changes are within the parts that it writes. From them [`laws`] proves once, for
//! every collection, that legal outcomes that do not conflict commute.
//!
//! Beside it stand the things that all four collections use: [`LocSet`], a small set of locations; [`Editions`], the number of
//! commits that changed each location; [`RoomMap`], a hash map that says for how many more entries it has room; and [`FewKeys`],
//! the same map to its callers, but for the room after `clear`, which keeps up to sixteen keys in a list.
#![tactic(auto)]

mod change;
mod conflict;
mod editions;
mod few;
pub mod laws;
mod loc_set;
mod outcome;
mod stripes;
mod table;

pub use change::{Change, Changes};
pub use conflict::Conflict;
pub use editions::Editions;
pub use few::FewKeys;
pub use loc_set::{LocSet, conflicts};
pub use outcome::{Note, Outcome};
pub use stripes::{
    PQ_STRIPE_LIMIT, STRIPE_LIMIT, is_pq_stripe_count, is_stripe_count, is_stripe_count_of,
};
pub use table::RoomMap;
