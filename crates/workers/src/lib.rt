//! Reservations that are served by workers, each list of actions by one of its own.
//!
//! Many sessions are to run at once, and still to leave what they leave one after another. So they are dealt out to workers, which run them
//! on one shared table.
//!
//! [`deal`] deals items out in turn, as cards are: the first to the first list, the second to the second, and so on, and again from the
//! first list. [`gather`] takes what came of them from the lists in that order.
//!
//! [`serve`] opens a table on reservation tables, has the sessions of lists of actions run on it, each list by a worker of its own, and
//! closes it. Whatever steps of the workers interleave, the receipts are the actions, one after another in the order of their commits.
//!
//! What runs any jobs so, [`run_workers`] and [`retry`], is handed on from below (`job_workers`).
#![tactic(auto)]

mod deals;
mod served;

pub use deals::{deal, gather};
pub use job_workers::{LastAbort, NoPause, Pause, Report, retry, run_workers, run_workers_owned};
pub use served::{Served, serve, serve_allowed};
