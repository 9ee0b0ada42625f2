//! The program: runs step scripts, session files and drawn sessions.
//!
//! The work is done over any reader and writers: `main` hands the opened file to `run_file`, or standard input to `run_tool_with`, with the
//! standard streams. Where standard error is a terminal it also says how far sessions, or the runs of an exploration, have come, in one
//! line, which is gone at the end.
#![tactic(auto)]

use command_line::{
    ExploreProgress, Pace, Progress, REFUSED, Speed, fault, file_of, refuse_memory, run_file,
    run_tool_with,
};
use std::io::{IsTerminal, Write};
use std::process::ExitCode;
use std::sync::Wait;
use std::sync::atomic::{AtomicU64, Ordering};
use std::thread::Threads;
use std::time::{Clock, Duration};
use std::{env, io};

/// There are at least so many milliseconds between two writes of the line.
const APART: u64 = 500;

/// The clock is looked at after so many sessions.
const LOOK: u64 = 16;

/// Longer than the line ever is.
const BLANK: &str =
    "                                                                                ";

/// Standard error, where it is a terminal. It has one line, which is written anew.
#[derive(Drop)]
struct Terminal<'a> {
    rt: &'a HostRuntime,
    is_there: bool,
    /// When the first session had its receipt, in milliseconds.
    begun: AtomicU64,
    /// When the line was written last, in milliseconds from then on; 0 where it was not.
    told: AtomicU64,
}

impl Terminal<'_> {
    /// The time since the first session or run, where the line is to be written now, by whoever asks.
    fn due(&self, count: u64) -> Option<Duration> {
        if !self.is_there || (count != 1 && count % LOOK != 0) {
            return None;
        }
        let time = self.rt.monotonic().unwrap_or(Duration::ZERO);
        let now = time
            .as_secs()
            .saturating_mul(1_000)
            .saturating_add(u64::from(time.subsec_millis()));
        if count == 1 {
            self.begun.store(now, Ordering::SeqCst);
            return None;
        }
        let since = now.saturating_sub(self.begun.load(Ordering::SeqCst));
        let told = self.told.load(Ordering::SeqCst);
        let is_due = since.saturating_sub(told) >= APART
            && self
                .told
                .compare_exchange(told, since, Ordering::SeqCst, Ordering::SeqCst)
                .is_ok();
        if is_due {
            Some(Duration::from_millis(since))
        } else {
            None
        }
    }
}

impl Progress for Terminal<'_> {
    fn receipts(&self, count: u64, all: u64) {
        if let Some(time) = self.due(count) {
            let pace = Pace { count, all, time };
            let _ = write!(self.rt.stderr(), "\r{pace}    ");
        }
    }

    fn end(&self) {
        if self.told.load(Ordering::SeqCst) > 0 {
            let _ = write!(self.rt.stderr(), "\r{BLANK}\r");
        }
    }
}

impl ExploreProgress for Terminal<'_> {
    fn tried(&self, count: u64, most: u64) {
        if let Some(time) = self.due(count) {
            let speed = Speed { count, most, time };
            let _ = write!(self.rt.stderr(), "\r{speed}    ");
        }
    }
}

fn main(rt: HostRuntime) -> ExitCode {
    let status = match words_of(&rt) {
        Ok(words) => run(&rt, &rt, words.as_slice()),
        Err(error) if error.kind() == io::ErrorKind::OutOfMemory => {
            refuse_memory(&mut rt.stderr())
        }
        Err(_) => fault(&mut rt.stderr(), REFUSED, "cannot read the words"),
    };
    ExitCode::from(status)
}

// The words after the program's own name.
fn words_of(rt: &HostRuntime) -> io::Result<Vec<String>> {
    let words = env::args(rt)?.skip(1).collect(rt.alloc())?;
    Ok(words)
}

// The handle on threads is the runtime, too.
fn run<H: Threads + Wait + Clock + Sync>(threads: &H, rt: &HostRuntime, words: &[String]) -> u8 {
    let alloc = rt.alloc();
    let mut out = rt.stdout();
    let mut err = rt.stderr();
    let told = Terminal {
        rt,
        is_there: err.is_terminal(),
        begun: AtomicU64::new(0),
        told: AtomicU64::new(0),
    };
    match file_of(alloc, words) {
        Ok(Some(file)) => {
            let opened = std::fs::open(rt, file.as_str());
            run_file(threads, alloc, words, opened, &mut out, &mut err, &told)
        }
        Ok(None) => run_tool_with(
            threads,
            alloc,
            words,
            &mut rt.stdin(),
            &mut out,
            &mut err,
            &told,
        ),
        Err(_) => refuse_memory(&mut err),
    }
}
