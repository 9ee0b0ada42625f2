//! Transactions on words, maps, multisets, priority queues and queues that threads share: the one crate that a service names.
//!
//! A service has five steps:
//!
//! 1. A [`Layout`] lists the words and the collections. Adding one returns its handle: [`Word`], [`Map`], [`Bag`], [`PriorityQueue`],
//!    [`Queue`] or [`Lanes`]. Handles are `Copy`, so each thread has them. What several threads call at once is laid over several gates:
//!    [`Layout::map_over`], [`Layout::bag_over`], [`Layout::lanes`].
//! 2. [`Layout::open`] opens a [`Store`].
//! 3. A [`Body`] is what runs as one transaction: straight code over the handles' calls. It is all done or nothing is, and it sees one
//!    state of the store.
//! 4. [`Store::run`] serves a list of [`Session`]s, each in a thread of its own with a [`Client`]. A client runs bodies:
//!    [`Client::atomically`] attempts a body until it commits, and [`Client::look`] does so with one that only reads. Each commit returns
//!    its [`Receipt`]: the transaction's number in commit order, and its calls with their replies ([`Call`], [`Op`], [`Reply`]). Outside of
//!    `run`, the store runs bodies itself. For threads of one's own there is [`Store::lend`]: a [`Lender`] starts them one by one
//!    ([`Lender::spawn`]), and hands out [`LentClient`]s, which are back once they are dropped.
//! 5. [`Store::close`] returns the [`Contents`], read by the same handles; or, where memory is out, an [`Unread`], to be read later.
//!
//! Answers are typed: `map.get(tx, key)?` is an `Option` of a value, `queue.dequeue(tx)?` an `Option<u64>`. A change that may find its
//! collection full returns `Result<(), Full>` inside ([`Full`]).
//!
//! What goes wrong is a [`Refusal`]. [`Refusal::is_conflict`] says whether another transaction stood in the way, so that another attempt
//! may succeed; `atomically` and `look` make it. [`Refusal::explain`] says in a sentence what to do, and [`Transaction`] lists what a call
//! may be refused as. A body aborts with an error of its own, which the caller gets apart from refusals ([`Failure`]). [`Tally`] counts how
//! attempts ended.
//!
//! A map holds values of any type that is a [`Value`]: numbers, `bool`, pairs, `Option`, [`Text`], [`Shared`], and structs of these by an
//! `impl` of two functions.
//!
//! The types keep what a call needs, so no contract of a service has to mention transactions. Nothing that a
//! service calls has a condition. A service that wants to prove something of its own defines `makes` of a body, and `serves` of a session.
#![tactic(auto)]

mod homes;
mod layout;
mod layout_over;
mod lender;
mod lent;
mod seats;
mod serving;
mod sessions;
mod store;
mod unread;

pub use layout::Layout;
pub use lender::{Lender, StillLent};
pub use lent::LentClient;
pub use seq_model::{
    Call, Counts, Entries, Failure, Full, Memory, Op, QueueItems, Refusal, Reply, Value,
};
pub use serving::Serving;
pub use sessions::Session;
pub use store::Store;
pub use tx_client::{Body, Client, Contents, Scope, Tally, Transaction};
pub use tx_engine::Receipt;
pub use tx_handles::{
    Bag, BagCounts, BagIter, LaneItems, Lanes, Map, MapEntries, MapIter, PriorityQueue, Queue,
    Shared, Text, Word,
};
pub use unread::Unread;
