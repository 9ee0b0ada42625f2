//! What is to be printed of the text of a file, or of drawn sessions, or why nothing is.
ghost use Rattle.std.specs.Prelude.{◌≡◌, ◌≤◌, ◌⊎◌, [], IsOk, IfOk, IfErr, IfSome};
ghost use Rattle.std.specs.String.{string_bytes};
ghost use Rattle.std.specs.Vec.{vec_len};
ghost use Rattle.interleavings.specs.Explorations.{IsExplored};
ghost use Rattle.interleavings.specs.Faults.{IsTextFault};
ghost use Rattle.command_line.specs.Drawn.{IsDrawable, IsDrawnOutput};
ghost use Rattle.command_line.specs.Runs.{IsWantOfMemory};
ghost use Rattle.command_line.specs.declared.work.Cause.TheVariants.{Ended};
ghost use Rattle.command_line.specs.declared.work.Task.TheVariants.{OnFile};
ghost use Rattle.command_line.specs.Ends.{AsksForTimes, IsAsked, IsCause, IsDoable, IsFault};
ghost use Rattle.command_line.specs.Ends.{IsFaultOf, IsKnownOutput, IsLanesOutput, IsOnDrawn};
ghost use Rattle.command_line.specs.Ends.{IsOutput, IsOutputOf, IsWithin};
ghost use Rattle.seq_model.specs.declared.refusal.Refusal.TheVariants.{Memory as OutOfMemory};
ghost use Rattle.session_text.specs.declared.fault.RunFault.TheVariants.{Refused};

use crate::drawn::{Drawn, print_drawn, run_drawn};
use crate::file;
use crate::tally::{Times, print_times, print_times_as_values};
use client_sessions::Progress;
use interleavings::{ExploreProgress, explore};
use seq_model::{Memory, Refusal};
use session_text::{
    RunFault, audit_run, print_lanes, print_trace, run_script, run_script_with_events,
};
use std::alloc::{AllocError, Global};
use std::io::Read;
use std::sync::Wait;
use std::thread::Threads;
use std::time::Clock;
use text_formats::parse_steps;

/// A file is at most this many bytes long.
pub const FILE_LIMIT: usize = 16_777_216;

/// A kind of work on the text of a file.
#[derive(Clone, Copy)]
pub(crate) enum Work {
    /// A step script is run.
    Step,
    /// A step script is run, and printed as lanes.
    Lanes,
    /// The requests of a step script are run under every schedule, with at most so many runs.
    Explore(u64),
    /// The sessions of a session file are run, one after another.
    Vacation,
    /// They are run by so many workers.
    Served(usize),
}

/// How what a run took is printed.
#[derive(Clone, Copy)]
pub(crate) enum TimesForm {
    /// Not at all.
    Unasked,
    /// In lines for a person.
    Prose,
    /// In a line of names and a line of numbers.
    Values,
}

/// What is to be done.
#[derive(Clone, Copy)]
pub(crate) enum Task {
    OnFile(Work),
    /// Sessions are drawn and run by workers; what that takes may be asked for.
    OnDrawn(Drawn, TimesForm),
}

/// What is to be printed.
#[derive(Drop)]
pub(crate) struct Output {
    pub bytes: Vec<u8>,
    /// What the run took, where that is asked for.
    pub times: String,
}

/// Why nothing is printed of a file.
#[derive(Drop)]
pub(crate) enum Cause {
    /// It can't be read.
    Unreadable,
    /// It is longer than a file may be.
    TooLong,
    /// Its text has no output, or an allocation failed.
    Ended(RunFault),
}

impl From<RunFault> for Cause {
    ghost from_gives = { λ fault cause. cause ≡ Ended fault };

    fn from(fault: RunFault) -> Cause {
        Cause::Ended(fault)
    }
}

impl From<AllocError> for Cause {
    ghost from_gives = { λ _ cause. cause ≡ Ended (Refused OutOfMemory) };

    fn from(_error: AllocError) -> Cause {
        Cause::Ended(RunFault::Refused(Refusal::Memory))
    }
}

/// Does this task, on the file that the reader gives or on drawn sessions.
pub(crate) fn output_of<
    H: Threads + Wait + Clock + Sync,
    R: Read,
    P: Progress + ExploreProgress + Sync,
>(rt: &H, alloc: Global, task: Task, reader: &mut R, progress: &P) -> Result<Output, Cause>
    requires { IsDoable task }
    ensures within { IsOk result → IsWithin task (R.remaining reader.old) }
    ensures output { IfOk result (λ output. IsKnownOutput task (R.remaining reader.old) output.bytes.items) }
    ensures quiet { IfOk result (λ output. AsksForTimes task ⊎ (string_bytes output.times ≡ [])) }
    ensures unread { IsOnDrawn task → reader.new ≡ reader.old }
    ensures refused { IfErr result (IsCause task (R.remaining reader.old)) }
{
    match task {
        Task::OnFile(work) => {
            let text = read_file(alloc, reader)?;
            let bytes = bytes_of(rt, alloc, work, text.as_slice(), progress)?;
            Ok(Output {
                bytes,
                times: String::new(alloc),
            })
        }
        Task::OnDrawn(drawn, form) => Ok(drawn_output(rt, alloc, &drawn, form, progress)?),
    }
}

/// Does this work on a text.
fn bytes_of<H: Threads + Wait + Sync, P: Progress + ExploreProgress + Sync>(
    rt: &H,
    alloc: Global,
    work: Work,
    text: &[u8],
    progress: &P,
) -> Result<Vec<u8>, RunFault>
    requires { IsDoable (OnFile work) }
    ensures output { IfOk result (λ bytes. IsOutputOf work text.now bytes.items) }
    ensures refused { IfErr result (IsFaultOf work text.now) }
{
    match work {
        Work::Step => step(alloc, text),
        Work::Lanes => lanes(alloc, text),
        Work::Explore(most) => explored(alloc, text, most, progress),
        Work::Vacation => session_text::output_of(alloc, text, progress),
        Work::Served(workers) => file::output_of(rt, alloc, text, workers, progress),
    }
}

/// Runs the requests of a script under every schedule.
fn explored<P: Progress + ExploreProgress>(
    alloc: Global,
    text: &[u8],
    most: u64,
    progress: &P,
) -> Result<Vec<u8>, RunFault>
    ensures output { IfOk result (λ bytes. IsExplored text.now most bytes.items) }
    ensures refused { IfErr result (IsTextFault text.now) }
{
    let explored = explore(alloc, text, most, progress);
    progress.end();
    explored
}

/// Draws sessions, and has workers run them.
fn drawn_output<H: Threads + Wait + Clock + Sync, P: Progress + Sync>(
    rt: &H,
    alloc: Global,
    drawn: &Drawn,
    form: TimesForm,
    progress: &P,
) -> Result<Output, RunFault>
    requires { IsDrawable drawn.now }
    ensures output { IfOk result (λ output. IsDrawnOutput drawn.now output.bytes.items) }
    ensures quiet { IfOk result (λ output. IsAsked form ⊎ (string_bytes output.times ≡ [])) }
    ensures refused { IfErr result IsWantOfMemory }
{
    let run = run_drawn(rt, alloc, drawn, progress)?;
    let bytes = print_drawn(alloc, drawn, run.missed)?;
    let times = times_text(alloc, form, &run.times)?;
    Ok(Output { bytes, times })
}

/// What a run took, as it is asked for.
fn times_text(alloc: Global, form: TimesForm, times: &Times) -> Result<String, Memory>
    ensures quiet { IfOk result (λ text. IsAsked form ⊎ (string_bytes text ≡ [])) }
{
    match form {
        TimesForm::Unasked => Ok(String::new(alloc)),
        TimesForm::Prose => Ok(print_times(alloc, times)?),
        TimesForm::Values => Ok(print_times_as_values(alloc, times)?),
    }
}

/// At most one byte past the limit is read. A file can't be read, or is too long, whatever is to be made of it.
fn read_file<R: Read>(alloc: Global, reader: &mut R) -> Result<Vec<u8>, Cause>
    ensures whole { IfOk result (λ text. IfSome (R.remaining reader.old) (λ bytes. text.items ≡ bytes)) }
    ensures within { IfOk result (λ text. vec_len text ≤ FILE_LIMIT) }
    ensures refused { (work : Work) → IfErr result (IsCause (OnFile work) (R.remaining reader.old)) }
{
    let mut text = Vec::new(alloc);
    let mut buffer = [0u8; 8192];
    // Each read but the last gives a byte at least.
    for _taken in 0..=FILE_LIMIT {
        let wanted = buffer
            .len()
            .min(FILE_LIMIT.saturating_sub(text.len()).saturating_add(1));
        let count = match reader.read(&mut buffer[..wanted]) {
            Ok(count) => count,
            Err(_) => return Err(Cause::Unreadable),
        };
        if count == 0 {
            return Ok(text);
        }
        text.extend_from_slice(&buffer[..count])?;
        if text.len() > FILE_LIMIT {
            return Err(Cause::TooLong);
        }
    }
    Err(Cause::TooLong)
}

/// Runs the script that the text spells, and audits the run.
fn step(alloc: Global, text: &[u8]) -> Result<Vec<u8>, RunFault>
    ensures output { IfOk result (λ bytes. IsOutput text.now bytes.items) }
    ensures refused { IfErr result (IsFault text.now) }
{
    let script = parse_steps(alloc, text)?;
    let run = run_script(alloc, &script)?;
    audit_run(alloc, &run)?;
    Ok(print_trace(alloc, &run)?)
}

/// The same, printed as lanes.
fn lanes(alloc: Global, text: &[u8]) -> Result<Vec<u8>, RunFault>
    ensures output { IfOk result (λ bytes. IsLanesOutput text.now bytes.items) }
    ensures refused { IfErr result (IsFault text.now) }
{
    let script = parse_steps(alloc, text)?;
    let (made, events) = run_script_with_events(alloc, &script)?;
    audit_run(alloc, &made)?;
    Ok(print_lanes(alloc, &script, &made, events.as_slice())?)
}
