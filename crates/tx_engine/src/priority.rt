//! Which job goes first, where jobs are aborted again and again.
//!
//! A job that reads much may be aborted again and again by others, which read little and commit beside it. So a job that had some attempts
//! in vain gets *priority*, where no other has it: the other workers wait before their next attempts. No promise depends on it. One job at
//! a time has priority, and a worker that has waited long enough for one continues, and waits for that job no more.
use seq_model::ACTOR_LIMIT;
use std::hint::spin_loop;
use std::sync::atomic::{AtomicU64, Ordering};
use std::thread::yield_now;

/// A job gets priority after so many attempts.
const ATTEMPTS: u64 = 4;

/// A worker checks at most so often whether another job still has priority.
const LOOKS: u64 = 10_000;

/// After so many checks it yields between two of them where it spun before: the job that has priority may wait for a core.
const SPINS: u64 = 200;

/// The job that has priority, by a number that no other job has; 0 where none has it.
#[derive(Drop)]
pub struct Priority {
    job: AtomicU64,
}

/// The jobs that one worker waits for, and its own.
#[derive(Drop)]
pub(crate) struct Waiting {
    /// The number of its own job: at first the worker's, and greater by the most workers after each of its jobs that had priority.
    own: u64,
    /// The job that it has waited for long enough.
    passed: u64,
}

impl Waiting {
    pub(crate) fn of(worker: u64) -> Waiting {
        Waiting {
            own: worker,
            passed: 0,
        }
    }
}

impl Priority {
    /// No job has it.
    pub fn new() -> Priority {
        Priority {
            job: AtomicU64::new(0),
        }
    }

    /// Before the next attempt of a worker's job, which had so many: asks for priority when it had enough of them, and waits while
    /// another job has it.
    pub(crate) fn wait(&self, waiting: &mut Waiting, attempts: u64) {
        if attempts == ATTEMPTS {
            let _ = self
                .job
                .compare_exchange(0, waiting.own, Ordering::SeqCst, Ordering::SeqCst);
        }
        for look in 0..LOOKS {
            let job = self.job.load(Ordering::SeqCst);
            if job == 0 || job == waiting.own || job == waiting.passed {
                return;
            }
            look_later(look);
        }
        waiting.passed = self.job.load(Ordering::SeqCst);
    }

    /// The job of a worker has ended, and has priority no more.
    pub(crate) fn release(&self, waiting: &mut Waiting) {
        if self.job.load(Ordering::SeqCst) == waiting.own {
            self.job.store(0, Ordering::SeqCst);
            waiting.own = waiting.own.wrapping_add(ACTOR_LIMIT as u64);
        }
    }
}

/// Waits between two checks.
fn look_later(looks: u64) {
    if looks < SPINS {
        for _ in 0..8 {
            spin_loop();
        }
    } else {
        yield_now();
    }
}
