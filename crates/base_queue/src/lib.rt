//! The collection of a queue: its items by their indexes, an edition for its head, its tail and each stripe of its cells, what calls on
//! it read and write, and the replay of committed changes. Copies share the items, in chunks that are never written again.
//!
//! An item is put into the *cell* of its index, and indexes never return: the head is the index of the first item, the tail the
//! index that the next one gets. Location 0 is the head, location 1 the tail, and the cell of index `i` is on stripe
//! `i mod stripes` after them. An enqueue reads and writes the tail and the cell there, a dequeue the head and the cell there.
//! So the two ends of a queue with items on different stripes don't conflict, and a dequeue of an empty queue conflicts with the
//! enqueue that would fill the very cell at which it looked.
#![tactic(auto)]

mod cells;
mod chunk;
pub mod laws;
mod queue_base;
mod shared_list;

pub use queue_base::{QueueBase, change_in};
