//! Tests of the program: whole runs over step scripts, session files and drawn sessions, from the text to what is printed; and of the
//! texts that no run spells. And of reservations by their own calls: row by row on the tables, and sessions on a running world.
//!
//! They are sections of the file `stdin`, each closed by `----`: a name, and after it the text. Each is printed by its name, with
//! what came of it, and at the end how many there are; what all must print stands in the file `stdout`. So the crate is proved once,
//! however many sections there are.
//! What a section may say stands at [`sections::run_all`].
#![tactic(auto)]

mod explorations;
mod files;
mod laid_out;
mod reading;
mod reservations;
mod sections;
mod times;
mod worlds;

use command_line::{DONE, MEMORY};
use sections::run_all;
use std::io;
use std::process::ExitCode;
use std::sync::Wait;
use std::thread::Threads;
use std::time::Clock;

/// The status of a run that could not read its sections or print.
const FAILED: u8 = 1;

fn main(rt: HostRuntime) -> ExitCode {
    let status = match run(&rt, &rt) {
        Ok(()) => DONE,
        Err(error) if error.kind() == io::ErrorKind::OutOfMemory => {
            let _ = rt.print("Memory\n");
            MEMORY
        }
        Err(_) => FAILED,
    };
    ExitCode::from(status)
}

// All is run, by this handle on threads, before anything is printed.
fn run<H: Threads + Wait + Clock + Sync>(threads: &H, rt: &HostRuntime) -> io::Result<()> {
    let sections = io::read_to_string(rt.alloc(), rt.stdin())?;
    match run_all(threads, rt.alloc(), sections.as_str()) {
        Ok(text) => rt.print(text.as_str()),
        Err(_) => Err(io::Error::from(io::ErrorKind::OutOfMemory)),
    }
}
