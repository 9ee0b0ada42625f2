//! Typed calls of a transaction: a map, a multiset, a priority queue, a queue and a word of the table, each with the calls of its kind.
//!
//! [`tx_engine::Tx::call`] takes any operation with any number, and only its refusal shows that the two don't fit. With these types the
//! kind is written once, beside the number: each has the calls of its kind and no others.
//!
//! Each type has the number of its collection, or of its word, alone. A typed call is `Tx::call` with an operation of its kind: it is
//! refused like that one, and a call on a collection of another kind is `NoSuch`.
#![tactic(auto)]

mod bags;
mod maps;
mod priority_queues;
mod queues;
mod words;

pub use bags::TBag;
pub use maps::TMap;
pub use priority_queues::TPq;
pub use queues::TQueue;
pub use words::TWord;
