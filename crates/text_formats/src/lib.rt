//! The texts of step scripts and session files: how they are read, drawn from a seed, and printed.
//!
//! Each line ends with a line feed, its tokens stand with one space between, and a number is decimal ([`first_line`], [`tokens_of`],
//! [`number`]). A *step script* lays out a world and says, event by event, what happens in it; [`parse_steps`] reads one. A *session file*
//! says which items there are and, line by line, what clients ask for: each line is a session. [`parse_sessions`] reads one, and
//! [`print_sessions`] prints what became of each session and what the tables hold then. The grammars are the definitions `IsScriptText`
//! and `IsSessionText`, the print is `printed`; docs/formats.md has them in words.
//!
//! [`generate`] draws sessions that clients might ask for, and [`opening`] tables to begin with. Each worker has a generator of its own, of
//! the same seed, and the tables have one, too: so what is drawn for a worker depends on the seed, the worker's number and the [`Options`]
//! alone. What is drawn, draw by draw, is a definition (`specs/DrawnActions.antt`, `specs/Openings.antt`), in words in docs/formats.md.
#![tactic(auto)]

mod cut;
mod decimal;
mod draws;
mod event;
mod options;
mod pairs;
mod request;
mod script;
mod script_line;
mod script_parser;
mod session_line;
mod session_parser;
mod session_print;
mod sessions;
mod tables;

pub use cut::{first_line, tokens_of};
pub use decimal::number;
pub use options::Options;
pub use script::{Collection, EventLine, STEP_LIMIT, Script};
pub use script_parser::parse_steps;
pub use session_parser::parse_sessions;
pub use session_print::{Line, print_sessions};
pub use sessions::generate;
pub use tables::opening;
