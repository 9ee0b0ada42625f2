//! What may be asked of an actor, and what it answers.
use thiserror::Error;

/// What may be asked of an actor.
#[derive(Clone, Copy, Debug, PartialEq, Eq)]
pub enum WordRequest {
    /// Begin a transaction: one load of the clock.
    Begin,
    /// Begin a transaction that only reads, and keeps no read set: one load of the clock.
    BeginRead,
    /// Read a location: no step where it is in a set, else the loads of its lock word, its value,
    /// and its lock word again.
    Read(u32),
    /// Write a value to a location, in the write set alone: no step.
    Write(u32, u64),
    /// Lock the write set, advance the clock, and check the read set, but where no other commit
    /// took a number since the transaction began.
    Lock,
    /// Store the values of the write set, the first of which commits the transaction.
    Store,
    /// Give back the locks, with the number of the commit.
    Release,
    /// Give back the locks, with their old versions.
    Cancel,
    /// End a transaction without a commit: one load of the clock.
    Abort,
    /// Commit a transaction that wrote nothing: one load of the clock.
    Close,
}

/// What a request is answered, at once or by one of its steps.
#[derive(Clone, Copy, Debug, PartialEq, Eq)]
pub enum WordAnswer {
    /// A transaction has begun, at this reading of the clock.
    Begun(u64),
    /// The value that was read.
    Number(u64),
    /// The value was put in the write set.
    Done,
    /// All is locked and checked, and the commit has this number.
    Locked(u64),
    /// All values are stored.
    Stored,
    /// All locks are given back after a commit.
    Released,
    /// All locks are given back, with their old versions.
    Cancelled,
    /// The transaction has ended.
    Ended,
}

/// Why a request or a step is refused.
#[derive(Clone, Copy, Debug, PartialEq, Eq, Error)]
pub enum WordRefusal {
    /// A read found this lock word locked, newer than its transaction, or changed between two loads.
    #[error("Moved {location} {word}")]
    Moved { location: u32, word: u64 },
    /// A lock of the write set found this word taken or changed.
    #[error("Busy {location} {word}")]
    Busy { location: u32, word: u64 },
    /// The check of the read set found this word newer than the transaction, or locked by another.
    #[error("Invalid {location} {word}")]
    Invalid { location: u32, word: u64 },
    /// No transaction begins at this reading of the clock, or above.
    #[error("Exhausted {clock}")]
    Exhausted { clock: u64 },
    /// There is no such actor or location, or a declared reader was asked to write.
    #[error("NoSuch")]
    NoSuch,
    /// A set, the table or the clock would pass its limit.
    #[error("TooLong")]
    TooLong,
    /// A request is unanswered, or a begin was asked inside a transaction.
    #[error("NotIdle")]
    NotIdle,
    /// There is no request to take a step of, or the phase lacks what was asked.
    #[error("NoTransaction")]
    NoTransaction,
    /// An allocation failed.
    #[error("Memory")]
    Memory,
}
