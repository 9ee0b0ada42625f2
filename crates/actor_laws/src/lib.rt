//! What one step of an actor does, on what it depends, and where that leaves its transaction.
//!
//! In a world of `replay_log` an event changes everything at once, as a function on worlds. An actor that runs by itself sees its own
//! state alone, and touches what is shared one atomic action at a time. [`step_laws`] says that nothing is lost: each event is at most one
//! atomic action of its actor, on the word or gate that its stage names; what that word or gate becomes is a function of what it was;
//! what an event leaves of its actor's state, and what it answers, depends on that state and on what it found alone; and the states of
//! the others are unchanged. So what an actor knows is what it would know in a world where it is alone with what it found.
//!
//! A *known stage* is where a transaction stands, as a client may know it: idle, beginning, open with these calls, with a call under way,
//! committing, committed, or being aborted (`specs/KnownStages.antt`). [`phase_laws`] says which one follows every step and every request.
//! An actor that alone has done anything since its world opened, and that asks as a client does, is refused in three cases only: a
//! transaction at the limit of the clock, a call of what isn't there, and calls on more locations than a set may have ([`alone_laws`]).
//! What the bases of a world hold is within the limits of a state, so no state that is shown of it is TooLong ([`limit_laws`]).
#![tactic(auto)]

pub mod alone_laws;
pub mod limit_laws;
pub mod phase_laws;
pub mod step_laws;
