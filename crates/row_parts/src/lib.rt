//! What programs of rows have in common: the numbers, calls and refusals that a row spells, its scripts, what a script's header opens,
//! and how replies and contents are printed.
//!
//! Tests are rows of text, each printed with its answer, in three crates: `collection_tests`, `script_tests` and `table_tests`. What they
//! have in common is read and printed here, so in one way.
#![tactic(auto)]

mod contents;
mod replies;
mod scripts;
mod spelled;

pub use contents::{print_all, print_base, print_held};
pub use replies::{parts_of, print_reply};
pub use scripts::{from_index, script_of, shape_of, state_of};
pub use spelled::{
    Call, call_of, location, location_in, number_in, refusal_of, split, tell_refusal,
};
