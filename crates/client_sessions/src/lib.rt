//! The reservation actions as transactions, each on one word, five maps and three queues.
//!
//! A *session* is the transaction of one action: it asks a call, continues with the reply, and in the end answers what the action
//! answers. Its calls are a program (`specs/Sessions.antt`), run on the state that holds the tables (`specs/Holding.antt`).
//! [`laws`] says that it is its action: from balanced tables it answers the action's reply and leaves the state that holds the
//! action's tables, it never aborts, and each call that it asks has a reply.
#![tactic(auto)]

mod delete;
mod entry;
pub mod laws;
mod progress;
mod reserve;
mod session;
mod shared;
mod split;
mod state;
mod update;
mod walk;
mod weighed;

pub use entry::Entry;
pub use progress::{NoProgress, Progress};
pub use session::Session;
pub use shared::SharedCustomer;
pub use split::SplitCustomer;
pub use state::{state_of, tables_of};
