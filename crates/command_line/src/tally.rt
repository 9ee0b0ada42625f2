//! How often workers tried, and how long it took.
ghost use Rattle.std.specs.Prelude.{◌<◌};

use crate::lines::Missed;
use crate::progress::Receipts;
use client_sessions::Progress;
use seq_model::{Memory, Refusal};
use std::alloc::{AllocError, Global};
use std::fmt::Write;
use std::sync::atomic::{AtomicU64, Ordering};
use std::time::Duration;
use tx_engine::Pause;
use workers::LastAbort;

/// The first columns of the times as comma-separated values, and the names of those of what refuses an attempt.
const COLUMNS: &str =
    "run_seconds,audit_seconds,sessions,missed,sessions_per_second,attempts,most_attempts";

const REFUSED_COLUMNS: [&str; 10] = [
    "moved",
    "busy",
    "stale",
    "gate_busy",
    "invalid",
    "memory",
    "exhausted",
    "too_long",
    "no_such",
    "other_refusals",
];

/// The names of what refuses an attempt.
const NAMES: [&str; 10] = [
    "Moved",
    "Busy",
    "Stale",
    "GateBusy",
    "Invalid",
    "Memory",
    "Exhausted",
    "TooLong",
    "NoSuch",
    "other refusals",
];

/// The name of the cause for which no attempt of a session was made.
const NOT_STARTED: &str = "not started";

/// The position of a refusal's name among these.
fn position_of(refusal: Refusal) -> usize
    ensures { result < 10 }
{
    match refusal {
        Refusal::Moved { .. } => 0,
        Refusal::Busy { .. } => 1,
        Refusal::Stale { .. } => 2,
        Refusal::GateBusy { .. } => 3,
        Refusal::Invalid { .. } => 4,
        Refusal::Memory => 5,
        _ => place_of_rarer(refusal),
    }
}

fn place_of_rarer(refusal: Refusal) -> usize
    ensures { result < 10 }
{
    match refusal {
        Refusal::Exhausted { .. } => 6,
        Refusal::TooLong => 7,
        Refusal::NoSuch => 8,
        _ => 9,
    }
}

/// The attempts of a worker.
#[derive(Drop)]
struct Attempts {
    all: AtomicU64,
    /// Those of the job that it has in hand.
    since: AtomicU64,
    /// The most for one job.
    most: AtomicU64,
    /// Those that were refused, by name.
    refused: [AtomicU64; 10],
    /// So that no two workers write to one line of the cache.
    apart: [u64; 14],
}

impl Attempts {
    fn none() -> Attempts {
        Attempts {
            all: AtomicU64::new(0),
            since: AtomicU64::new(0),
            most: AtomicU64::new(0),
            refused: [
                AtomicU64::new(0),
                AtomicU64::new(0),
                AtomicU64::new(0),
                AtomicU64::new(0),
                AtomicU64::new(0),
                AtomicU64::new(0),
                AtomicU64::new(0),
                AtomicU64::new(0),
                AtomicU64::new(0),
                AtomicU64::new(0),
            ],
            apart: [0; 14],
        }
    }

    /// One more. Of its job it is the last one, or not.
    fn note(&self, is_last: bool) {
        self.all.fetch_add(1, Ordering::SeqCst);
        let since = self.since.fetch_add(1, Ordering::SeqCst).saturating_add(1);
        if is_last {
            let most = self.most.load(Ordering::SeqCst).max(since);
            self.most.store(most, Ordering::SeqCst);
            self.since.store(0, Ordering::SeqCst);
        }
    }
}

/// The attempts of each worker, and the receipts of all. Workers are held nowhere.
#[derive(Drop)]
pub(crate) struct Tally<'a, P> {
    workers: Vec<Attempts>,
    /// How many a job has at most.
    tries: u64,
    receipts: Receipts<'a, P>,
}

impl<'a, P: Progress> Tally<'a, P> {
    pub(crate) fn new(
        alloc: Global,
        count: usize,
        tries: u64,
        receipts: Receipts<'a, P>,
    ) -> Result<Tally<'a, P>, Memory> {
        let mut workers = Vec::with_capacity(alloc, count)?;
        for _ in 0..count {
            workers.push(Attempts::none())?;
        }
        Ok(Tally {
            workers,
            tries,
            receipts,
        })
    }

    fn attempts_of(&self, worker: u64) -> Option<&Attempts> {
        self.workers.get(worker.checked_sub(1)? as usize)
    }

    /// How many attempts there were in all, and the most for one job.
    pub(crate) fn counts(&self) -> (u64, u64) {
        let (mut all, mut most) = (0u64, 0);
        for worker in self.workers.as_slice() {
            all = all.saturating_add(worker.all.load(Ordering::SeqCst));
            most = worker.most.load(Ordering::SeqCst).max(most);
        }
        (all, most)
    }

    /// How many attempts were refused, by name.
    pub(crate) fn refused(&self, alloc: Global) -> Result<Vec<(&'static str, u64)>, Memory> {
        let mut refused = Vec::new(alloc);
        for (place, name) in NAMES.iter().enumerate() {
            let mut count = 0u64;
            for worker in self.workers.as_slice() {
                if let Some(more) = worker.refused.get(place) {
                    count = count.saturating_add(more.load(Ordering::SeqCst));
                }
            }
            if count > 0 {
                refused.push((*name, count))?;
            }
        }
        Ok(refused)
    }
}

impl<P: Progress> Pause for Tally<'_, P> {
    fn before_commit(&self, _worker: u64) {}

    fn after_receipt(&self, worker: u64, _number: u64) {
        if let Some(attempts) = self.attempts_of(worker) {
            attempts.note(true);
        }
        self.receipts.note();
    }

    fn after_refusal(&self, worker: u64, cause: Refusal) {
        if let Some(attempts) = self.attempts_of(worker) {
            let place = position_of(cause);
            if let Some(refused) = attempts.refused.get(place) {
                refused.fetch_add(1, Ordering::SeqCst);
            }
            let before = attempts.since.load(Ordering::SeqCst);
            attempts.note(place > 4 || self.tries.saturating_sub(before) <= 1);
        }
    }
}

/// How long a run and its audit took, how many attempts its workers made, and what refused them, and the sessions without a receipt.
#[derive(Drop)]
pub struct Times {
    pub run: Duration,
    pub audit: Duration,
    pub receipts: u64,
    /// The attempts, and the most for one session.
    pub tries: u64,
    pub most: u64,
    /// How many attempts were refused, by name.
    pub refused: Vec<(&'static str, u64)>,
    /// How many sessions were missed for each cause, by its name.
    pub causes: Vec<(&'static str, u64)>,
}

fn name_of(cause: LastAbort) -> &'static str {
    match cause {
        LastAbort::Refused(refusal) => NAMES[position_of(refusal)],
        LastAbort::GivenUp => "given up",
        LastAbort::NotStarted => NOT_STARTED,
    }
}

/// How many jobs were missed for each cause, by its name.
pub(crate) fn causes_of(
    alloc: Global,
    missed: &[Missed],
) -> Result<Vec<(&'static str, u64)>, Memory> {
    let mut causes: Vec<(&'static str, u64)> = Vec::new(alloc);
    for job in missed {
        add_cause(&mut causes, name_of(job.2))?;
    }
    Ok(causes)
}

fn add_cause(causes: &mut Vec<(&'static str, u64)>, name: &'static str) -> Result<(), Memory> {
    for cause in causes.iter_mut() {
        if cause.0 == name {
            cause.1 = cause.1.saturating_add(1);
            return Ok(());
        }
    }
    Ok(causes.push((name, 1))?)
}

pub(crate) fn milliseconds(time: Duration) -> u64 {
    time.as_secs()
        .saturating_mul(1_000)
        .saturating_add(u64::from(time.subsec_millis()))
}

fn print_seconds(text: &mut String, name: &str, time: Duration) -> Result<(), AllocError> {
    let (whole, part) = (time.as_secs(), time.subsec_millis());
    writeln!(text, "{name} {whole}.{part:03} seconds")
}

/// How many sessions had their receipts a second.
fn speed_in(times: &Times) -> u64 {
    times.receipts.saturating_mul(1_000) / milliseconds(times.run).max(1)
}

/// How many sessions had an attempt: those with a receipt, and those that were missed after one.
fn attempted_in(times: &Times) -> u64 {
    let mut count = times.receipts;
    for (name, missed) in times.causes.as_slice() {
        if *name != NOT_STARTED {
            count = count.saturating_add(*missed);
        }
    }
    count
}

/// The times as text, a line for each.
pub fn print_times(alloc: Global, times: &Times) -> Result<String, Memory> {
    let mut text = String::new(alloc);
    write_times(&mut text, times)?;
    Ok(text)
}

fn write_times(text: &mut String, times: &Times) -> Result<(), AllocError> {
    print_speed(text, times)?;
    print_counts(text, "refused", times.refused.as_slice())?;
    print_counts(text, "missed", times.causes.as_slice())
}

fn print_speed(text: &mut String, times: &Times) -> Result<(), AllocError> {
    print_seconds(text, "run", times.run)?;
    print_seconds(text, "audit", times.audit)?;
    let speed = speed_in(times);
    writeln!(text, "sessions a second: {speed}")?;
    let hundredths = times.tries.saturating_mul(100) / attempted_in(times).max(1);
    let (mean, part, most) = (hundredths / 100, hundredths % 100, times.most);
    writeln!(text, "tries a session: mean {mean}.{part:02}, most {most}")
}

fn print_counts(
    text: &mut String,
    what: &str,
    counts: &[(&'static str, u64)],
) -> Result<(), AllocError> {
    for (name, count) in counts {
        writeln!(text, "{what}, {name}: {count}")?;
    }
    Ok(())
}

/// The times as comma-separated values: a line of names, and a line of numbers.
pub fn print_times_as_values(alloc: Global, times: &Times) -> Result<String, Memory> {
    let mut text = String::new(alloc);
    write_values(&mut text, times)?;
    Ok(text)
}

fn write_values(text: &mut String, times: &Times) -> Result<(), AllocError> {
    text.push_str(COLUMNS)?;
    for name in REFUSED_COLUMNS.iter() {
        write!(text, ",{name}")?;
    }
    text.push_str("\n")?;
    print_values(text, times)?;
    for name in NAMES.iter() {
        let count = count_in(times.refused.as_slice(), name);
        write!(text, ",{count}")?;
    }
    text.push_str("\n")
}

fn print_values(text: &mut String, times: &Times) -> Result<(), AllocError> {
    print_decimal(text, times.run)?;
    print_decimal(text, times.audit)?;
    let (sessions, missed) = (times.receipts, missed_in(times));
    let (speed, tries, most) = (speed_in(times), times.tries, times.most);
    write!(text, "{sessions},{missed},{speed},{tries},{most}")
}

fn print_decimal(text: &mut String, time: Duration) -> Result<(), AllocError> {
    let (whole, part) = (time.as_secs(), time.subsec_millis());
    write!(text, "{whole}.{part:03},")
}

fn missed_in(times: &Times) -> u64 {
    let mut count = 0u64;
    for (_, missed) in times.causes.as_slice() {
        count = count.saturating_add(*missed);
    }
    count
}

/// How many there are of this name.
fn count_in(counts: &[(&'static str, u64)], name: &str) -> u64 {
    let mut count = 0u64;
    for (other, more) in counts {
        if *other == name {
            count = count.saturating_add(*more);
        }
    }
    count
}
