//! Clients of a shared table, which run bodies as transactions.
//!
//! - A [`Body`] is straight code over the calls of its [`Transaction`], which is one that handles call (`tx_handles`). A [`Scope`] says to
//!   proofs which transaction, or which client, a type stands for.
//! - [`retry`] attempts a body until it commits, and counts how attempts ended ([`Tally`]). Where none commits it says why (`Failure`).
//! - A [`Client`] does so at a table that it borrows. Other kinds of clients, which own their table, do so by a [`Runner`] of theirs.
//! - [`Contents`] is what a closed store holds, read by handles.
#![tactic(auto)]

mod attempts;
mod body;
mod caller;
mod client;
mod contents;
mod runner;
mod scope;
mod tally;
mod transaction;

pub use attempts::retry;
pub use body::Body;
pub use caller::Caller;
pub use client::{Client, client_of, seat_of};
pub use contents::{Contents, contents_of};
pub use runner::Runner;
pub use scope::Scope;
pub use tally::Tally;
pub use transaction::Transaction;
