//! Transactions that threads run on the shared table: [`begin`] gives a [`Tx`], which borrows its [`TxSeat`], and by which all requests are
//! made; [`resume`] gives one again that was dropped while it was open.
//!
//! A *seat* of the table has a running actor beside it, to which it is tied (`tx_turns`). A request is asked, and driven there:
//! its turns are taken, one atomic step on the table each, until it is answered or refused. Its result is what the definitions say of it
//! in a world with the seat's actor alone, which to that actor is one that events have reached. Between two requests no gate is held.
//!
//! A *job* is run by an *attempt* ([`attempt`]): a transaction begins at a seat, the calls that the job asks are made, each after the
//! replies to those before it, and the transaction commits once the job is done. Where the job aborts, or a request is refused, no
//! transaction is left, and the seat is ready for the next attempt. [`retry`] makes attempts up to a receipt; a [`Task`] is a worker's list
//! of jobs, with what comes of each, and a [`Priority`] says whose job goes first, where jobs are aborted again and again.
//!
//! A table shows a world that events have reached (the rule of `shared_table`), and each seat keeps what that world is to its actor. So
//! what `replay_log` proves of every such world holds while transactions are open and commits half done ([`laws`]).
#![tactic(auto)]

mod attempts;
mod calls;
mod commits;
mod holder;
pub mod laws;
mod pause;
mod priority;
mod reply_room;
mod requests;
mod seats;
mod shares;
mod tasks;
mod tries;
mod tx;
mod unheld;

pub use attempts::{Attempt, attempt_with};
pub use pause::{NoPause, Pause};
pub use priority::Priority;
pub use seats::TxSeat;
pub use seq_model::{Ask, Job};
pub use tasks::Task;
pub use tries::retry;
pub use tx::{Receipt, Tx, begin, begin_read, learn, resume};
pub use unheld::attempt;
