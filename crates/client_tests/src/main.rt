//! Tests of `wolimevar`, above all on what it refuses: handles, layouts, bodies, values and sessions.
//!
//! They are rows of text in the file `stdin`, one test a row, each of which is printed with its answer; what all must answer stands in the
//! file `stdout`. So the crate is proved once, however many rows there are. [`rows::answer_all`] lists what a row may be.
#![tactic(auto)]

mod contents;
mod examples;
mod handles;
mod layouts;
mod lent;
mod numbers;
mod refusals;
mod rows;
mod scripts;
mod sessions;
mod steps;
mod values;

use rows::answer_all;
use std::io;
use std::process::ExitCode;
use std::thread::Threads;

/// The status of a run that could not read its rows or print its answers.
const FAILED: u8 = 1;

/// The status of a run that was out of memory. It has printed nothing else.
const MEMORY: u8 = 2;

fn main(rt: HostRuntime) -> ExitCode {
    let status = match run(&rt, &rt) {
        Ok(()) => 0,
        Err(error) if error.kind() == io::ErrorKind::OutOfMemory => {
            let _ = rt.print("Memory\n");
            MEMORY
        }
        Err(_) => FAILED,
    };
    ExitCode::from(status)
}

// The handle on threads is the runtime, too. All is answered before anything is printed.
fn run<H: Threads + Sync>(threads: &H, rt: &HostRuntime) -> io::Result<()> {
    let rows = io::read_to_string(rt.alloc(), rt.stdin())?;
    let mut text = String::new(rt.alloc());
    match answer_all(threads, rt.alloc(), &mut text, rows.as_str()) {
        Ok(()) => rt.print(text.as_str()),
        Err(_) => Err(io::Error::from(io::ErrorKind::OutOfMemory)),
    }
}
