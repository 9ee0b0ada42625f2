//! Versioned locks, as the numbers that stand in a table of words.
//!
//! Each location of the transactional memory has one lock word beside its value. The word says the
//! version of the value, which is the number of the commit that wrote it last, and whether a commit
//! holds the lock. A reader takes a value only if the location was free before and after the load,
//! at one version that is not above the reading of the clock with which it began. A writer locks by
//! one compare_exchange from the free word to the locked word of the same version, and releases by
//! a store of the free word of its own number; one that aborts puts the old free word back, which
//! is why a locked word keeps the old version.
//!
//! A lock word is kept as the number `2 * version + locked`: the lowest bit is the lock, the rest is
//! the version. One load of one number thus shows both, and the word of version 0, free, is 0.
//!
//! Source: TL2, Dice, Shalev and Shavit, DISC 2006.
#![tactic(auto)]

mod lock_word;

pub use lock_word::LockWord;
