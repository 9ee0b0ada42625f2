//! How many sessions of workers have receipts.
use crate::tally::milliseconds;
use client_sessions::Progress;
use std::fmt;
use std::sync::atomic::{AtomicU64, Ordering};
use std::time::Duration;
use tx_engine::Pause;

/// So many sessions of all have their receipts, after this time. As text it says how many a second that is, and when the others have
/// theirs at this speed.
#[derive(Clone, Copy, Debug)]
pub struct Pace {
    pub count: u64,
    pub all: u64,
    pub time: Duration,
}

impl Pace {
    fn per_second(&self) -> u64 {
        self.count.saturating_mul(1_000) / milliseconds(self.time).max(1)
    }

    /// Rounded up.
    fn seconds_left(&self) -> u64 {
        let left = self.all.saturating_sub(self.count);
        let time = left.saturating_mul(milliseconds(self.time)) / self.count.max(1);
        time.saturating_add(999) / 1_000
    }
}

impl fmt::Display for Pace {
    fn fmt<W: fmt::Write>(&self, f: &mut fmt::Formatter<W>) -> fmt::Result {
        let (count, all) = (self.count, self.all);
        let (speed, left) = (self.per_second(), self.seconds_left());
        write!(
            f,
            "{count} of {all} sessions, {speed} a second, {left} seconds left"
        )
    }
}

/// The number of receipts so far of `all` sessions, and the `Progress` that is called with it. Workers are held nowhere.
#[derive(Drop)]
pub(crate) struct Receipts<'a, P> {
    told: &'a P,
    all: u64,
    count: AtomicU64,
}

impl<'a, P: Progress> Receipts<'a, P> {
    pub(crate) fn new(told: &'a P, all: u64) -> Receipts<'a, P> {
        Receipts {
            told,
            all,
            count: AtomicU64::new(0),
        }
    }

    /// One more.
    pub(crate) fn note(&self) {
        let count = self.count.fetch_add(1, Ordering::SeqCst).saturating_add(1);
        self.told.receipts(count, self.all);
    }
}

impl<P: Progress> Pause for Receipts<'_, P> {
    fn before_commit(&self, _worker: u64) {}

    fn after_receipt(&self, _worker: u64, _number: u64) {
        self.note();
    }
}
