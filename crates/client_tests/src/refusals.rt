//! Which refusals are conflicts, and what each explains; and how failures are printed.
use std::alloc::AllocError;
use std::fmt::Write;
use wolimevar::{Failure, Refusal};

const REFUSALS: [Refusal; 13] = [
    Refusal::Moved {
        location: 1,
        word: 2,
    },
    Refusal::Busy {
        location: 1,
        word: 2,
    },
    Refusal::Stale {
        location: 1,
        base_edition: 2,
        word_edition: 3,
    },
    Refusal::GateBusy { collection: 1 },
    Refusal::Invalid {
        location: 1,
        word: 2,
    },
    Refusal::Memory,
    Refusal::Exhausted { clock: 1 },
    Refusal::NoSuch,
    Refusal::TooLong,
    Refusal::Ahead { clock: 1 },
    Refusal::NotIdle,
    Refusal::NoTransaction,
    Refusal::BadText { line: 1 },
];

/// Prints each with its kind and what it explains.
pub fn print_explained(text: &mut String) -> Result<(), AllocError> {
    for refusal in &REFUSALS {
        let kind = if refusal.is_conflict() {
            "conflict"
        } else {
            "no conflict"
        };
        writeln!(text, "{refusal} = {kind}, {}", refusal.explain())?;
    }
    Ok(())
}

/// Prints a failure of each kind, for a user and for a programmer.
pub fn print_failures(text: &mut String) -> Result<(), AllocError> {
    let refused: Failure<u64> = Failure::Refused(Refusal::NoSuch);
    let aborted: Failure<u64> = Failure::Aborted(7);
    write!(text, "{refused} {refused:?}, {aborted} {aborted:?}")
}
