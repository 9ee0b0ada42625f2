//! Vacation's sessions on a world: one client after another, many at once, and what their receipts say.
//!
//! Each session is one transaction of calls on collections (`client_sessions`), and a client is an actor of the world: it begins a
//! transaction for an action, asks what the action's session asks after the replies so far ([`ask`]), and commits where the session is
//! done. [`run_in_order`] runs a list of actions by one client, one session after another. [`VacWorld`] has sessions of many clients, whose
//! steps interleave in the order of its events.
//!
//! A session makes few calls, and its calls take few locations, so it finds room in its transaction's sets ([`cost_laws`],
//! [`room_laws`]). Every record of a world whose actors ask as sessions do is a whole session: over every interleaving the replies are
//! those of the actions, one after another, and the tables are what these leave ([`world_laws`], [`play_laws`]). Receipts that have all
//! calls of sessions, and in commit order are a run from balanced tables, are these actions, whoever ran them ([`job_laws`]).
#![tactic(auto)]

mod asking;
mod client;
pub mod cost_laws;
mod events;
pub mod job_laws;
mod opening;
mod order;
pub mod play_laws;
pub mod room_laws;
mod run;
mod session;
mod sessions;
mod tables;
mod told;
mod world;
pub mod world_laws;

pub use asking::ask;
pub use client_sessions::{Entry, Session, state_of, tables_of};
pub use events::VacEvent;
pub use opening::open;
pub use order::{Ordered, run_in_order, run_in_order_with};
pub use run::VacTrace;
pub use sessions::{are_allowed, session_of, sessions_of};
pub use tables::tables_left;
pub use world::VacWorld;
