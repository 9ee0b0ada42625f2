//! One running actor of a world of words and collections, apart from the table that it runs on.
//!
//! Actors run on the table of a world on one thread (`step_world`), and on one that threads share (`tx_turns`). What an actor does is
//! written and proved here, once for both: what it keeps, and what a request or a step makes of it, given what the step found. No word,
//! gate or base is inside it. The contracts say that what a method makes of an actor is what the definitions make of it in every world that
//! shows it (`Runs` of `specs/Running.antt`); [`laws`] and [`turn_laws`], that it then has of collections what its next stage asks.
#![tactic(auto)]

mod actor;
mod answers;
mod asks;
mod asks_at;
mod asks_calls;
mod copying;
mod dispatch;
mod hand;
pub mod laws;
mod loads;
mod logs;
mod next;
mod prepares;
mod room;
mod steps;
mod straight;
mod taking;
pub mod turn_laws;

pub use actor::{ActorNotice, CallWithOutcome, CollectionCall, Stage, TxActor};
pub use hand::{ActorSpares, CallInHand};
pub use prepares::Prepared;
pub use taking::{KeyedCall, WaitingCall};
