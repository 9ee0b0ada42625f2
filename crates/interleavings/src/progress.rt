//! How far an exploration has come, and who is notified.
use client_sessions::NoProgress;
use std::fmt;
use std::time::Duration;

/// Who is notified of how far an exploration has come. Nothing that is promised of it depends on it.
pub trait ExploreProgress {
    /// So many runs were made, of at most so many: called after each of them.
    fn tried(&self, count: u64, most: u64);
}

impl ExploreProgress for NoProgress {
    fn tried(&self, _count: u64, _most: u64) {}
}

/// So many runs were made, of at most so many, in this time. As text it says how many a second that is.
#[derive(Clone, Copy, Debug)]
pub struct Speed {
    pub count: u64,
    pub most: u64,
    pub time: Duration,
}

impl Speed {
    fn per_second(&self) -> u64 {
        let seconds = self.time.as_secs().saturating_mul(1_000);
        let time = seconds.saturating_add(u64::from(self.time.subsec_millis()));
        self.count.saturating_mul(1_000) / time.max(1)
    }
}

impl fmt::Display for Speed {
    fn fmt<W: fmt::Write>(&self, f: &mut fmt::Formatter<W>) -> fmt::Result {
        let (count, most, speed) = (self.count, self.most, self.per_second());
        write!(f, "{count} runs, {speed} a second, at most {most}")
    }
}
