//! Tests of what runs on a shared table, on its public calls: transactions at seats, transactions that borrow them, attempts of jobs,
//! workers, and sessions that workers serve; and of values one of whose copies is refused, or one of which waits as it is dropped.
//!
//! They are sections of the file `stdin`, each closed by `----`: rows of text, each of which is printed with its answer; what all must
//! answer stands in the file `stdout`. So the crate is proved once, however many sections there are. What a section may say stands at
//! [`sections::answer_all`].
#![tactic(auto)]

mod borrowed;
mod copies;
mod engine;
mod pairs;
mod resumed;
mod sections;
mod sessions;
mod shared;
mod shown;
mod tables;
mod worker;

use sections::answer_all;
use seq_model::Refusal;
use std::io;
use std::process::ExitCode;

/// The status of a run that could not read its sections or print its answers, or that ended otherwise than it may.
const FAILED: u8 = 1;

/// The status of a run that was out of memory. It has printed nothing else.
const MEMORY: u8 = 2;

// All is answered before anything is printed.
fn main(rt: HostRuntime) -> ExitCode {
    let status = match io::read_to_string(rt.alloc(), rt.stdin()) {
        Ok(sections) => tell(&rt, answer_all(&rt, rt.alloc(), sections.as_str())),
        Err(error) if error.kind() == io::ErrorKind::OutOfMemory => {
            tell(&rt, Err(Refusal::Memory))
        }
        Err(_) => FAILED,
    };
    ExitCode::from(status)
}

fn tell(rt: &HostRuntime, answers: Result<String, Refusal>) -> u8 {
    match answers {
        Ok(text) if rt.print(text.as_str()).is_ok() => 0,
        Ok(_) => FAILED,
        Err(Refusal::Memory) => {
            let _ = rt.print("Memory\n");
            MEMORY
        }
        Err(refusal) => {
            let _ = println!(rt; "failed: {refusal}");
            FAILED
        }
    }
}
