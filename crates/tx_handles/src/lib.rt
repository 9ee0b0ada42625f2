//! Typed handles of words and collections: over which collections of a table they lie, how a transaction calls them, and what is read of
//! them in the end.
//!
//! - A handle is a plain value: the number of its store, and which word or collections of the store it names ([`Gates`]). Its calls are
//!   typed, and made on whatever [`MakesCalls`]. Each says which calls of the table it makes, and what they mean for the whole collection.
//! - A map, a multiset or a queue in lanes may lie over several collections. [`parts_of`], [`maps_of`], [`bags_of`] and [`lanes_of`] are
//!   what each of these holds at first; [`MapEntries`], [`BagCounts`] and [`LaneItems`] read the whole from what they hold in the end.
//! - [`Text`] and [`Shared`] are values of maps.
#![tactic(auto)]

mod bags;
mod calls;
mod contents_over;
mod gates;
mod lanes;
mod maps;
mod parts;
mod priority_queues;
mod queues;
mod replies;
mod shared;
mod text;
mod words;

pub use bags::Bag;
pub use calls::MakesCalls;
pub use contents_over::{BagCounts, BagIter, LaneItems, MapEntries, MapIter};
pub use gates::Gates;
pub use lanes::Lanes;
pub use maps::{Map, map_at};
pub use parts::{bags_of, lanes_of, maps_of, parts_of};
pub use priority_queues::PriorityQueue;
pub use queues::Queue;
pub use shared::Shared;
pub use text::Text;
pub use words::Word;
