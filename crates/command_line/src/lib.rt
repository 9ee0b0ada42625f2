//! The program over a reader and two writers: its words, its file, and its exit status.
//!
//! `file_of` answers which file the words name, `run_file` continues with that file as it was opened, and `run_tool` does the work that the
//! words name on what a reader gives; `run_tool_with` calls back meanwhile. How words are read is known in `words`, `bench` and `numbers`
//! alone, and what help says in `texts`; `work` makes of the text, or of drawn sessions, what is to be printed, or why nothing is; `tool`
//! prints it, or the fault, and answers the status.
//!
//! Sessions that workers run are in `file`, which deals those of a session file out to workers, and in `drawn`, which draws some for each.
//! Both have them served on a shared table, have the receipts audited and the tables checked, and print the result.
#![tactic(auto)]

mod bench;
mod drawn;
mod file;
mod inspection;
mod lines;
mod numbers;
mod options;
mod progress;
mod tally;
mod texts;
mod tool;
mod words;
mod work;

pub use client_sessions::{NoProgress, Progress};
pub use interleavings::{ExploreProgress, Speed};
pub use progress::Pace;
pub use tally::{Times, print_times, print_times_as_values};
pub use tool::{
    AUDIT_FAULT, DONE, MEMORY, REFUSED, fault, refuse_memory, run_file, run_tool, run_tool_with,
};
pub use words::file_of;
pub use work::FILE_LIMIT;
