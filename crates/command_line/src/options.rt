//! The numbers that the words may name, each with its range.
use crate::numbers::Number;

/// On how many workers a session file runs; with 0 one session runs after another.
pub(crate) const WORKERS: Number = Number {
    name: "workers",
    low: 0,
    high: 64,
};

/// Runs of an exploration.
pub(crate) const MOST: Number = Number {
    name: "most",
    low: 1,
    high: 1_000_000_000,
};

/// Workers that run drawn sessions.
pub(crate) const CLIENTS: Number = Number {
    name: "clients",
    low: 1,
    high: 64,
};

/// Asks of a reservation, and changes of an update.
pub(crate) const QUERIES: Number = Number {
    name: "queries",
    low: 1,
    high: 100,
};

/// The share of the ids that sessions name.
pub(crate) const PERCENT_QUERIED: Number = Number {
    name: "percent-queried",
    low: 1,
    high: 100,
};

/// Ids of each kind.
pub(crate) const RELATIONS: Number = Number {
    name: "relations",
    low: 1,
    high: 10_000,
};

/// Sessions of all workers together.
pub(crate) const TRANSACTIONS: Number = Number {
    name: "transactions",
    low: 1,
    high: 100_000,
};

/// The share of reservations among the sessions.
pub(crate) const PERCENT_USER: Number = Number {
    name: "percent-user",
    low: 0,
    high: 100,
};

/// What the sessions are drawn from.
pub(crate) const SEED: Number = Number {
    name: "seed",
    low: 0,
    high: u64::MAX,
};

/// Attempts of a session.
pub(crate) const TRIES: Number = Number {
    name: "tries",
    low: 1,
    high: 1_000_000,
};
