//! Values one of whose copies is refused, at a seat of a shared table, of two and of four workers there, and in a running world; or one of
//! which waits as it is dropped, in a worker's commit.
//!
//! Transactions put values into a map and get them. In the first run the first copy of a value is refused, in the next run the second one,
//! and so on up to a run to whose end none is.
mod borrowers;
mod jobs;
mod races;
mod rations;
mod seats;
mod tables;
mod waits;
mod worlds;

use seq_model::Refusal;
use std::sync::Wait;
use std::thread::Threads;
use tables::{Work, on_table};

/// A run makes fewer copies than so many.
const COPIES: u64 = 1_000;

/// Where a copy is refused.
#[derive(Clone, Copy)]
enum Place {
    Seat,
    Workers(usize),
    World,
}

/// The runs in this place, `at a seat`, `of two workers`, `of four workers`, `in a world` or `in a commit`, and what came of them.
pub fn answer_copies<R: Threads + Wait + Sync>(
    rt: &R,
    text: &mut String,
    place: &str,
) -> Result<(), Refusal> {
    match place {
        "at a seat" => refuse_each(rt, text, Place::Seat)?,
        "of two workers" => refuse_each(rt, text, Place::Workers(2))?,
        "of four workers" => refuse_each(rt, text, Place::Workers(4))?,
        "in a world" => refuse_each(rt, text, Place::World)?,
        "in a commit" => {
            let _ = on_table(rt, text, Work::Held)?;
        }
        _ => return Err(Refusal::NoSuch),
    }
    text.push_str(told(place))?;
    Ok(())
}

// At least one copy is refused.
fn refuse_each<R: Threads + Wait + Sync>(
    rt: &R,
    text: &mut String,
    place: Place,
) -> Result<(), Refusal> {
    for copy in 0..COPIES {
        let is_refused = match place {
            Place::Seat => on_table(rt, text, Work::Refused(copy))?,
            Place::Workers(workers) => on_table(rt, text, Work::Raced(copy, workers))?,
            Place::World => worlds::is_refused(*text.allocator(), copy)?,
        };
        if !is_refused && copy > 0 {
            return Ok(());
        }
        if !is_refused {
            return Err(Refusal::NoSuch);
        }
    }
    Err(Refusal::TooLong)
}

fn told(place: &str) -> &'static str {
    match place {
        "at a seat" => {
            "at a seat: each refused copy is an allocation that fails, and the seat commits after it\n"
        }
        "in a world" => {
            "in a world: each refused copy is an allocation that fails, from then on\n"
        }
        "in a commit" => "in a commit: the other worker is refused, and commits after it\n",
        _ => {
            "of workers: for each refused copy one of them misses its job, and the seat commits after it\n"
        }
    }
}
