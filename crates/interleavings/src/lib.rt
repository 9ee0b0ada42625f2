//! What the transactions of a script can answer: its requests are run under every interleaving of their atomic steps.
//!
//! A *script to be explored* is a step script whose events are requests alone, of at most eight actors. [`explore`] runs it under one
//! schedule after another, and gathers the *outcomes*: the answers of each actor, the committed transactions, and what words and
//! collections hold at the end. Each outcome comes with the shortest script that leads to it; what is printed of the outcome is what a
//! run of that script prints.
//!
//! - *Schedule*: which actor takes the next step, step by step. A request that takes no step, and the asking of one that does, touches
//!   nothing shared, so it stands in no schedule.
//! - *Touch*: the one clock, lock word, value or gate that an actor's next step loads or changes. It depends on the actor's own state
//!   alone, but for the try of a gate. Two steps are *apart* where they touch different ones, or both only load it: then either may come
//!   first, and both orders leave the same.
//! - *Sleep set*: the actors whose next step needs no try here. Once all schedules that begin with a step were run, its actor sleeps for
//!   the other steps that come first instead, until a step is taken that isn't apart from its own.
//!
//! Why no outcome is left out (Godefroid, Partial-Order Methods for the Verification of Concurrent Systems, 1996): where an actor
//! sleeps, its step was tried before, and since then all steps were apart from it. So each schedule that takes it here is one that takes
//! it there, with steps exchanged that are apart, and that was run. Of schedules that are *alike*, as they differ by such exchanges alone,
//! one is run to its end, and the others are broken off where all actors with a step sleep. Their scripts may be shorter than that of the
//! one: of those that are alike the module `shortest` finds the one with the fewest lines.
//!
//! A try of a gate that another actor holds changes only how many tries the actor has left. So it is no step of its own: the actor waits
//! until the gate is put back, or makes all its tries at once and is refused. A schedule in which some tries fail and one succeeds has the
//! outcome of the one without the failed ones; where all fail, of the one that makes them all as the last of them is made.
//!
//! That no outcome is left out, and that no shorter script leads to one, is argued and tested, and not proved; what is proved is that each
//! outcome is that of its script.
#![tactic(auto)]

mod actors;
mod course;
mod exploring;
mod keys;
mod lines;
mod opening;
mod order;
mod outcomes;
mod paths;
mod print;
mod programs;
mod progress;
mod running;
mod shortest;
mod touches;
mod walk;

pub use actors::ACTOR_LIMIT;
pub use exploring::{Schedules, explore, explore_script};
pub use outcomes::{Exploration, Outcome};
pub use progress::{ExploreProgress, Speed};
