//! Step scripts and session files are read, run, audited and printed.
//!
//! [`run_script`] feeds a script's events to a world, [`audit_run`] audits the trace, and [`print_trace`] prints it, or [`print_lanes`]
//! with its events. [`output_of`] reads a
//! session file, has its sessions run one after another on a world, has their receipts audited and the tables checked
//! ([`run_sessions`], [`inspect`]), and prints the result of each session and what the tables hold ([`text_of`]). What a session answered
//! is read off its receipt, the calls with their replies, so the print is made from actions and receipts alone. A [`RunFault`] says why
//! there is nothing to print.
//!
//! Texts are read, drawn from a seed and printed by `text_formats`, whose names are re-exported.
#![tactic(auto)]

mod audit;
mod cell;
mod deed;
mod fault;
mod inspection;
mod lanes;
mod layout;
mod lines;
mod output;
mod print;
mod printing;
mod request_print;
mod rows;
mod run;
mod runs;

pub use audit::audit_run;
pub use deed::{Deed, deed_of};
pub use fault::RunFault;
pub use inspection::inspect;
pub use lanes::print_lanes;
pub use lines::{line_of, lines_of};
pub use output::output_of;
pub use print::{print_numbers, print_pairs, print_trace, print_words};
pub use printing::{STRIPES, SessionRun, text_of, with_ending};
pub use request_print::print_request;
pub use run::{ScriptRun, opening_of, run_script, run_script_with_events, shape_of};
pub use runs::run_sessions;
pub use text_formats::{
    Collection, EventLine, Line, Options, STEP_LIMIT, Script, generate, opening, parse_sessions,
    parse_steps, print_sessions,
};
