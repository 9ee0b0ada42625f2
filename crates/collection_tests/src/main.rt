//! Tests of the words of a transaction, of the sequential model, and of the collections that transactions share, by the calls that other
//! crates make: lock words, sets and running words; what all collections use, and each kind as it opens, as changes are replayed on it,
//! and as a log is folded into it; and what calls reply, read, write and change, beside the sequential model, on a collection, on a copy
//! of it, on the shadow of a copy, and on a memo.
//!
//! They are rows of text in the file `stdin`, one test a row, each of which is printed with its answer; what all must answer
//! stands in the file `stdout`. So the crate is proved once, however many rows there are. What a row may say stands at
//! [`rows::answer_all`].
#![tactic(auto)]

mod alone;
mod audits;
mod bench;
mod changes;
mod memos;
mod models;
mod parts;
mod rows;
mod sets;
mod words;

use rows::answer_all;
use std::io;
use std::process::ExitCode;

/// The status of a run that could not read its rows or print its answers.
const FAILED: u8 = 1;

/// The status of a run that was out of memory. It has printed nothing else.
const MEMORY: u8 = 2;

fn main(rt: HostRuntime) -> ExitCode {
    let status = match run(&rt) {
        Ok(()) => 0,
        Err(error) if error.kind() == io::ErrorKind::OutOfMemory => {
            let _ = rt.print("Memory\n");
            MEMORY
        }
        Err(_) => FAILED,
    };
    ExitCode::from(status)
}

// All is answered before anything is printed.
fn run(rt: &HostRuntime) -> io::Result<()> {
    let rows = io::read_to_string(rt.alloc(), rt.stdin())?;
    match answer_all(rt.alloc(), rows.as_str()) {
        Ok(text) => rt.print(text.as_str()),
        Err(_) => Err(io::Error::from(io::ErrorKind::OutOfMemory)),
    }
}
