//! What is printed of the times of a run, and of how far one has come.
use crate::files::push_owned;
use command_line::{Pace, Speed, Times, print_times, print_times_as_values};
use seq_model::Memory;
use std::alloc::{AllocError, Global};
use std::fmt::Write;
use std::time::Duration;

/// In prose, and as comma-separated values.
pub(crate) fn print_missed(text: &mut String) -> Result<(), Memory> {
    let alloc = *text.allocator();
    let times = times_of(alloc)?;
    push_owned(text, print_times(alloc, &times)?)?;
    Ok(push_owned(text, print_times_as_values(alloc, &times)?)?)
}

/// Of six sessions three have a receipt, each after one attempt, one was missed after five, and no attempt was made of two.
fn times_of(alloc: Global) -> Result<Times, AllocError> {
    Ok(Times {
        run: Duration::from_millis(1_500),
        audit: Duration::from_millis(250),
        receipts: 3,
        tries: 8,
        most: 5,
        refused: vec![in alloc; ("Moved", 5)]?,
        causes: vec![in alloc; ("Moved", 1), ("not started", 2)]?,
    })
}

/// How far runs of sessions have come: none, one, the first of many, and all; and an exploration.
pub(crate) fn print_paces(text: &mut String) -> Result<(), Memory> {
    let runs: [(u64, u64, u64); 4] = [
        (0, 10, 0),
        (1, 3, 1_000),
        (4_096, 100_000, 2_500),
        (3, 3, 700),
    ];
    for (count, all, millis) in runs.as_slice() {
        let pace = Pace {
            count: *count,
            all: *all,
            time: Duration::from_millis(*millis),
        };
        writeln!(text, "{pace}")?;
    }
    let speed = Speed {
        count: 12_034,
        most: 100_000,
        time: Duration::from_millis(1_167),
    };
    Ok(writeln!(text, "{speed}")?)
}
