//! The steps of a transaction on the shared table: a request of a seat, driven to its answer.
//!
//! A thread has beside its seat a running actor of `tx_actor`. The two are tied (`specs/Ties.antt`): the actor is that of the world with
//! this seat alone, which to it is a world that events have reached from the opening. A *turn* is one step on the table, the actor's next
//! one, and what the actor makes of what was found there: it keeps the tie, answers what the definitions answer, and the seat gains what
//! the step commits. No lock stands round the table, and no step waits.
//!
//! - **Words.** The place at which the word actor stands says which load, store, compare_exchange or fetch_add is next (`next_step`). What
//!   it makes of itself depends on the number that the step found, and on nothing else (`learn`).
//! - **Gates.** While its actor holds a gate, a seat has the base of that collection out, and its thread has it in hand: one after the
//!   other, in the order in which their gates were taken (`specs/Own.antt`). The try of a gate takes its base out; the store of the gate
//!   puts it back, as it was or with the log of a commit folded in. What a call copies of a base in hand is one step with the store of its
//!   gate; of a call on a key that is to read a location then, all but that copy is made after the store.
//! - **Requests.** A read of a word, a call whose gate is free, the loads of a call, a begin and a commit are straight code, one atomic
//!   step on the table a function; the order of a commit's steps stands in `commits.rt`. All else, and what such code finds in its way, is
//!   done by a loop over turns. Of the functions `.._on` most that take several turns return whether none of them answered, and else the
//!   answer is in `said`; most that take a single step return what the next one needs, or the answer. The result is what the definitions
//!   say of it in the world with this seat alone (`specs/Driven.antt`). Where an allocation fails, the request is aborted.
#![tactic(auto)]

mod asks;
mod begins;
mod checks;
mod commits;
mod driving;
mod due;
pub mod due_laws;
mod gates;
mod homes;
mod keys;
pub mod laws;
mod learning;
mod loading;
mod loads;
mod locks;
mod reads;
mod releases;
mod requests;
mod stepping;
mod steps;
mod stores;
mod touching;
mod turns;
mod words;

pub use asks::{ask_abort, ask_begin, ask_begin_read};
pub use driving::{drive, drive_begin, drive_commit};
pub use keys::drive_call;
pub use requests::ask;
