//! Transactional Locking II on words, running one atomic step at a time.
//!
//! [`Words`] holds a version clock, a table of words with a lock word each, and 64 *actors*, each of
//! which runs one transaction after another. Nothing in it runs by itself: a caller *asks* an actor
//! for something, to begin, to read, to write, to lock, and then lets it take *steps* until the
//! request is answered. A step is one load, store, compare_exchange or fetch_add of one word, so a
//! caller can play any interleaving of any transactions, step for step, and see what each answers.
//!
//! Every step is proved to be the step of the pure machine in `tx_machine`, with its answer or its
//! refusal. So the laws of that machine hold of the running one: its history is a serial run of the
//! words, and an open transaction has only ever seen the words of one moment of that run. The
//! contracts of [`Words::history`], [`Words::snapshot`] and [`Words::step`] say so.
//!
//! - *Request*: what a caller asks of an actor. Some are answered at once, as a write, the others by
//!   one of the actor's next steps.
//! - *Phase*: which requests an actor may be asked. A request that its phase lacks is refused, and
//!   changes nothing.
//! - *Read set, write set*: the locations that a transaction has read, with the values that it found,
//!   and those that it has written, with the values that its commit is to store. A *declared reader*
//!   has neither: it loads a location as often as it reads it, and there is no limit to them.
//!
//! A request takes the memory that its steps will need, and a step takes none.
//!
//! Source: Dice, Shalev and Shavit, Transactional Locking II, DISC 2006.
#![tactic(auto)]

mod actor;
mod answer;
mod cells;
mod machine;
mod phase;
mod record;
mod words;

pub use actor::{Actor, Place};
pub use answer::{WordAnswer, WordRefusal, WordRequest};
pub use cells::Cells;
pub use record::{WordCall, WordCalls, WordRecord};
pub use words::{TABLE_LIMIT, Words};
