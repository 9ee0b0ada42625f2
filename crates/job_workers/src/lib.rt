//! Workers, each of which runs the jobs of a list at one table.
//!
//! [`retry`] makes attempts of a job up to a receipt. [`run_workers`] has a worker for each list: the lists are halved, and each second
//! half is given to a thread with a seat of its own, which is joined afterwards, so that the seat that was lent gains all receipts.
#![tactic(auto)]

mod halves;
mod lists;
mod report;
mod run;
mod tree;

pub use report::Report;
pub use run::{run_workers, run_workers_owned};
pub use seq_model::LastAbort;
pub use tx_engine::{NoPause, Pause, retry};
