//! The program over a reader and two writers.
ghost use Rattle.std.specs.Prelude.{◌≡◌, ◌≢◌, ◌≤◌, ◌⊎◌, ◌↔◌, false, [], map, IsErr, IfOk, IsOk, IsTrue};
ghost use Rattle.std.specs.String.{string_bytes};
ghost use Rattle.std.specs.Io.{WritesAtMost};
ghost use Rattle.std.specs.Io.KnownBytes.{Appends, WriteAppends};
ghost use Rattle.clap.specs.Words.{kind_of};
ghost use Rattle.command_line.specs.Words.{AreTaken, AskForInformation, IsInformation, task_named};
ghost use Rattle.command_line.specs.Ends.{AsksForTimes, HasBegun, HasBrokenOff, HasStopped, HasToldFault, HasWorked, IsOnDrawn};
ghost use Rattle.command_line.specs.Ends.{cause_text, line_of, status_of, unreadable_text, unwritten_text};
ghost use Rattle.seq_model.specs.Texts.{memory_text, refusal_text};

use crate::words::{matches_of, task_in};
use crate::work::{Cause, Output, output_of};
use clap::Error;
use clap::error::ErrorKind;
use client_sessions::{NoProgress, Progress};
use interleavings::ExploreProgress;
use seq_model::Refusal;
use session_text::RunFault;
use std::alloc::Global;
use std::io;
use std::io::{Read, Write};
use std::sync::Wait;
use std::thread::Threads;
use std::time::Clock;

/// The status of a run that did its work.
pub const DONE: u8 = 0;

/// The status of refused words, files and texts, and of a failed write.
pub const REFUSED: u8 = 1;

/// The status of a run that was out of memory.
pub const MEMORY: u8 = 2;

/// The status of a run whose committed transactions an audit finds to be no run of the sequential model, or which leaves reservation
/// tables that are found not to be balanced. All is looked at, and neither is ever found: see `run_tool`.
pub const AUDIT_FAULT: u8 = 3;

/// Writes some of the bytes; a write that was interrupted is tried again.
fn write_some<W: Write>(to: &mut W, bytes: &[u8]) -> io::Result<usize>
    ensures bound { WritesAtMost result bytes.now }
    ensures bytes { WriteAppends (W.contents to.old) (W.contents to.new) result bytes.now }
{
    for _try in 0..u64::MAX {
        match to.write(bytes) {
            Err(error) if error.kind() == io::ErrorKind::Interrupted => {}
            written => return written,
        }
    }
    Err(io::Error::from(io::ErrorKind::Interrupted))
}

/// Whether all the bytes were written.
fn tell<W: Write>(to: &mut W, bytes: &[u8]) -> bool
    ensures whole { IsTrue result → Appends (W.contents to.old) (W.contents to.new) bytes.now }
    ensures begun { HasBegun (W.contents to.old) (W.contents to.new) bytes.now }
    ensures broken { result ≡ false → HasBrokenOff (W.contents to.old) (W.contents to.new) bytes.now }
{
    let mut written = 0;
    while written < bytes.len() {
        match write_some(to, &bytes[written..]) {
            Ok(count) if count > 0 => written += count,
            _ => return false,
        }
    }
    true
}

/// Writes a fault's line, and answers its status.
pub fn fault<E: Write>(err: &mut E, status: u8, text: &str) -> u8
    ensures status { result ≡ status }
    ensures told { HasBegun (E.contents err.old) (E.contents err.new) (line_of text.now) }
{
    if tell(err, text.as_bytes()) {
        tell(err, b"\n");
    }
    status
}

/// Writes that an allocation failed.
pub fn refuse_memory<E: Write>(err: &mut E) -> u8
    ensures status { result ≡ MEMORY }
    ensures told { HasBegun (E.contents err.old) (E.contents err.new) (line_of memory_text) }
{
    fault(err, MEMORY, "Memory")
}

/// Writes that what was to be printed can't be written.
fn refuse_output<E: Write>(err: &mut E) -> u8
    ensures status { result ≡ REFUSED }
    ensures told { HasBegun (E.contents err.old) (E.contents err.new) (line_of unwritten_text) }
{
    fault(err, REFUSED, "cannot write the output")
}

/// Runs the words over the file that they name, as it was opened: `run_tool_with` over its text, with its status, or
/// the fault that it can't be read.
pub fn run_file<
    H: Threads + Wait + Clock + Sync,
    R: Read + Drop,
    W: Write,
    E: Write,
    P: Progress + ExploreProgress + Sync,
>(
    rt: &H,
    alloc: Global,
    words: &[String],
    opened: io::Result<R>,
    out: &mut W,
    err: &mut E,
    progress: &P,
) -> u8
    ensures status { result ≤ AUDIT_FAULT }
    ensures sound { result ≢ AUDIT_FAULT }
    ensures done { result ≡ DONE
        → IfOk opened (λ reader. HasWorked (map string_bytes words.now) (R.remaining reader) (W.contents out.old) (W.contents out.new)) }
    ensures quiet { result ≡ DONE → AsksForTimes (task_named (map string_bytes words.now)) ⊎ (err.new ≡ err.old) }
    ensures memory { result ≡ MEMORY → out.new ≡ out.old }
    ensures refused { result ≡ REFUSED → IfOk opened (λ reader. (out.new ≡ out.old) ⊎ (AskForInformation (map string_bytes words.now)
        ⊎ HasStopped (map string_bytes words.now) (R.remaining reader) (W.contents out.old) (W.contents out.new))) }
    ensures fault { AreTaken (map string_bytes words.now) → result ≡ REFUSED → IfOk opened (λ reader. ((out.new ≡ out.old)
        × HasToldFault (task_named (map string_bytes words.now)) REFUSED (R.remaining reader) (E.contents err.old) (E.contents err.new))
        ⊎ (HasBegun (E.contents err.old) (E.contents err.new) (line_of unwritten_text)
        × HasStopped (map string_bytes words.now) (R.remaining reader) (W.contents out.old) (W.contents out.new))) }
    ensures unwritten { result ≡ REFUSED
        → (out.new ≡ out.old) ⊎ HasBegun (E.contents err.old) (E.contents err.new) (line_of unwritten_text) }
    ensures starved { result ≡ MEMORY → IfOk opened (λ _. HasBegun (E.contents err.old) (E.contents err.new) (line_of memory_text)) }
    ensures unopened { IsErr opened → (result ≡ REFUSED) × (out.new ≡ out.old) }
    ensures told { IsErr opened → HasBegun (E.contents err.old) (E.contents err.new) (line_of unreadable_text) }
{
    match opened {
        Ok(reader) => {
            let mut reader = reader;
            run_tool_with(rt, alloc, words, &mut reader, out, err, progress)
        }
        Err(_) => fault(err, REFUSED, "cannot read the file"),
    }
}

/// Runs the words, without the program's own name, over what the reader gives, and answers the exit status.
///
/// What it prints goes to `out`, and a fault, one line, to `err`: then nothing goes to `out`. Where a write to `out` fails, `err` says so.
/// Faults are found in the order words, file, size, text, opening. `sound`: no audit of what was run finds a fault, and all tables
/// that are left are balanced. `done`: with status 0 the words ask for help or the version, or they and the text are taken and `out` has
/// grown by what the task that they name prints, once that was audited; what a run took goes to `err` where that is asked for. `unread`,
/// `drawn`: nothing is read for refused words, nor where sessions are drawn. `told`, `starved`: what `err` grows by, but where a write to
/// it fails, is the line of the fault, and `out` is unchanged (`memory`); or it is the line that the output can't be written, and `out`
/// has grown by a beginning of what the task prints, but not by all of it. `unwritten`: with status 1 `out` has changed, by help and the
/// version too, only where that line was written.
pub fn run_tool<H: Threads + Wait + Clock + Sync, R: Read, W: Write, E: Write>(
    rt: &H,
    alloc: Global,
    words: &[String],
    reader: &mut R,
    out: &mut W,
    err: &mut E,
) -> u8
    ensures status { result ≤ AUDIT_FAULT }
    ensures sound { result ≢ AUDIT_FAULT }
    ensures done { result ≡ DONE
        → HasWorked (map string_bytes words.now) (R.remaining reader.old) (W.contents out.old) (W.contents out.new) }
    ensures quiet { result ≡ DONE → AsksForTimes (task_named (map string_bytes words.now)) ⊎ (err.new ≡ err.old) }
    ensures refused { result ≡ REFUSED
        → (out.new ≡ out.old)
        ⊎ (AskForInformation (map string_bytes words.now)
        ⊎ HasStopped (map string_bytes words.now) (R.remaining reader.old) (W.contents out.old) (W.contents out.new)) }
    ensures memory { result ≡ MEMORY → out.new ≡ out.old }
    ensures unread { ¬ AreTaken (map string_bytes words.now) → reader.new ≡ reader.old }
    ensures drawn { IsOnDrawn (task_named (map string_bytes words.now)) → reader.new ≡ reader.old }
    ensures told { AreTaken (map string_bytes words.now) → result ≡ REFUSED
        → ((out.new ≡ out.old) × HasToldFault (task_named (map string_bytes words.now)) REFUSED (R.remaining reader.old)
        (E.contents err.old) (E.contents err.new))
        ⊎ (HasBegun (E.contents err.old) (E.contents err.new) (line_of unwritten_text)
        × HasStopped (map string_bytes words.now) (R.remaining reader.old) (W.contents out.old) (W.contents out.new)) }
    ensures unwritten { result ≡ REFUSED
        → (out.new ≡ out.old) ⊎ HasBegun (E.contents err.old) (E.contents err.new) (line_of unwritten_text) }
    ensures starved { result ≡ MEMORY → HasBegun (E.contents err.old) (E.contents err.new) (line_of memory_text) }
{
    run_tool_with(rt, alloc, words, reader, out, err, &NoProgress)
}

/// The same, and meanwhile progress is called with how many sessions have receipts, or how many runs an exploration has made.
pub fn run_tool_with<
    H: Threads + Wait + Clock + Sync,
    R: Read,
    W: Write,
    E: Write,
    P: Progress + ExploreProgress + Sync,
>(
    rt: &H,
    alloc: Global,
    words: &[String],
    reader: &mut R,
    out: &mut W,
    err: &mut E,
    progress: &P,
) -> u8
    ensures status { result ≤ AUDIT_FAULT }
    ensures sound { result ≢ AUDIT_FAULT }
    ensures done { result ≡ DONE
        → HasWorked (map string_bytes words.now) (R.remaining reader.old) (W.contents out.old) (W.contents out.new) }
    ensures quiet { result ≡ DONE → AsksForTimes (task_named (map string_bytes words.now)) ⊎ (err.new ≡ err.old) }
    ensures refused { result ≡ REFUSED
        → (out.new ≡ out.old)
        ⊎ (AskForInformation (map string_bytes words.now)
        ⊎ HasStopped (map string_bytes words.now) (R.remaining reader.old) (W.contents out.old) (W.contents out.new)) }
    ensures memory { result ≡ MEMORY → out.new ≡ out.old }
    ensures unread { ¬ AreTaken (map string_bytes words.now) → reader.new ≡ reader.old }
    ensures drawn { IsOnDrawn (task_named (map string_bytes words.now)) → reader.new ≡ reader.old }
    ensures told { AreTaken (map string_bytes words.now) → result ≡ REFUSED
        → ((out.new ≡ out.old) × HasToldFault (task_named (map string_bytes words.now)) REFUSED (R.remaining reader.old)
        (E.contents err.old) (E.contents err.new))
        ⊎ (HasBegun (E.contents err.old) (E.contents err.new) (line_of unwritten_text)
        × HasStopped (map string_bytes words.now) (R.remaining reader.old) (W.contents out.old) (W.contents out.new)) }
    ensures unwritten { result ≡ REFUSED
        → (out.new ≡ out.old) ⊎ HasBegun (E.contents err.old) (E.contents err.new) (line_of unwritten_text) }
    ensures starved { result ≡ MEMORY → HasBegun (E.contents err.old) (E.contents err.new) (line_of memory_text) }
{
    let task = match matches_of(alloc, words) {
        Ok(matches) => task_in(&matches),
        Err(error) => return refuse_words(out, err, error),
    };
    match output_of(rt, alloc, task, reader, progress) {
        Ok(output) => print(out, err, &output),
        Err(cause) => refuse(alloc, err, cause),
    }
}

/// Writes what is to be printed, and then what the run took, if that is to be printed.
fn print<W: Write, E: Write>(out: &mut W, err: &mut E, output: &Output) -> u8
    ensures status { (result ≡ DONE) ⊎ (result ≡ REFUSED) }
    ensures done { result ≡ DONE → Appends (W.contents out.old) (W.contents out.new) output.now.bytes.items }
    ensures quiet { result ≡ DONE → string_bytes output.now.times ≡ [] → err.new ≡ err.old }
    ensures failed { result ≡ REFUSED → HasBegun (E.contents err.old) (E.contents err.new) (line_of unwritten_text) }
    ensures broken { result ≡ REFUSED → HasBrokenOff (W.contents out.old) (W.contents out.new) output.now.bytes.items }
{
    if !tell(out, output.bytes.as_slice()) {
        return refuse_output(err);
    }
    if !output.times.is_empty() {
        tell(err, output.times.as_bytes());
    }
    DONE
}

/// Asking for help or the version is no fault: the text goes to `out`.
fn refuse_words<W: Write, E: Write>(out: &mut W, err: &mut E, error: Error) -> u8
    ensures status { result ≤ MEMORY }
    ensures done { result ≡ DONE → IsInformation error × (err.new ≡ err.old) }
    ensures kept { (out.new ≡ out.old) ⊎ IsInformation error }
    ensures unwritten { result ≡ REFUSED
        → (out.new ≡ out.old) ⊎ HasBegun (E.contents err.old) (E.contents err.new) (line_of unwritten_text) }
    ensures memory { (result ≡ MEMORY) ↔ (kind_of error ≡ ErrorKind.OutOfMemory) }
    ensures starved { result ≡ MEMORY → HasBegun (E.contents err.old) (E.contents err.new) (line_of memory_text) }
{
    match error.kind() {
        ErrorKind::OutOfMemory => refuse_memory(err),
        ErrorKind::DisplayHelp | ErrorKind::DisplayVersion => {
            status_of_write(err, write!(out, "{error}"))
        }
        _ => {
            let _ = write!(err, "{error}");
            REFUSED
        }
    }
}

fn status_of_write<E: Write>(err: &mut E, written: io::Result<()>) -> u8
    ensures status { (result ≡ DONE) ⊎ (result ≡ REFUSED) }
    ensures done { IsOk written → result ≡ DONE }
    ensures refused { IsErr written → result ≡ REFUSED }
    ensures quiet { result ≡ DONE → err.new ≡ err.old }
    ensures failed { result ≡ REFUSED → HasBegun (E.contents err.old) (E.contents err.new) (line_of unwritten_text) }
{
    match written {
        Ok(()) => DONE,
        Err(_) => refuse_output(err),
    }
}

/// Writes why nothing is printed.
fn refuse<E: Write>(alloc: Global, err: &mut E, cause: Cause) -> u8
    ensures status { (result ≡ MEMORY) ⊎ (result ≡ status_of cause) }
    ensures told { result ≡ MEMORY → HasBegun (E.contents err.old) (E.contents err.new) (line_of memory_text) }
    ensures other { result ≢ MEMORY → HasBegun (E.contents err.old) (E.contents err.new) (line_of (cause_text cause)) }
{
    match cause {
        Cause::Unreadable => fault(err, REFUSED, "cannot read the file"),
        Cause::TooLong => fault(err, REFUSED, "TooLong"),
        Cause::Ended(RunFault::Refused(refusal)) => refuse_text(alloc, err, refusal),
        Cause::Ended(RunFault::Audit) => fault(err, AUDIT_FAULT, "audit fault"),
        Cause::Ended(RunFault::NotBalanced) => fault(err, AUDIT_FAULT, "not balanced"),
    }
}

/// Where there is no memory for the refusal's text, that is the fault.
fn refuse_text<E: Write>(alloc: Global, err: &mut E, refusal: Refusal) -> u8
    ensures status { (result ≡ MEMORY) ⊎ (result ≡ REFUSED) }
    ensures memory { refusal ≡ Refusal.Memory → result ≡ MEMORY }
    ensures told { result ≡ REFUSED → HasBegun (E.contents err.old) (E.contents err.new) (line_of (refusal_text refusal)) }
    ensures starved { result ≡ MEMORY → HasBegun (E.contents err.old) (E.contents err.new) (line_of memory_text) }
{
    match refusal {
        Refusal::Memory => refuse_memory(err),
        _ => match refusal.to_string(alloc) {
            Ok(text) => fault(err, REFUSED, text.as_str()),
            Err(_) => refuse_memory(err),
        },
    }
}
