//! Drawn sessions, run by workers.
ghost use Rattle.std.specs.Prelude.{◌≡◌, All, IfErr, IfOk, OnOk};
ghost use Rattle.vac_model.specs.Actions.{IsAllowed};
ghost use Rattle.vac_model.specs.Balanced.{IsBalanced};
ghost use Rattle.client_sessions.specs.Holding.{state_of as state_that_holds};
ghost use Rattle.workers.specs.Deals.{in_lists};
ghost use Rattle.text_formats.specs.Openings.{opening_of};
ghost use Rattle.text_formats.specs.Options.{AreWithin};
ghost use Rattle.workers.specs.Serving.{AreAllowed};
ghost use Rattle.session_text.specs.Findings.{IsFinding, IsSound};
ghost use Rattle.command_line.specs.Runs.{IsWantOfMemory, receipts_of};
ghost use Rattle.command_line.specs.Drawn.{AreDrawn, IsDrawable, IsDrawnRun, drawn_text};

use crate::inspection::inspected;
use crate::progress::Receipts;
use crate::tally::{Tally, Times, causes_of};
use client_sessions::{Entry, Progress, state_of};
use seq_model::{Memory, Refusal, State};
use session_text::{RunFault, STRIPES, with_ending};
use std::alloc::Global;
use std::fmt::Write;
use std::sync::Wait;
use std::thread::Threads;
use std::time::{Clock, Duration};
use text_formats::{Options, generate, opening};
use vac_model::{Action, Tables};
use workers::{Served, serve_allowed};

/// Sessions that are to be drawn and run.
#[derive(Clone, Copy, Debug, PartialEq, Eq)]
pub(crate) struct Drawn {
    /// How many workers, and what they draw.
    pub options: Options,
    pub seed: u64,
    /// How many attempts a session has.
    pub tries: u64,
}

/// The result of drawn sessions, once their receipts were audited and the tables checked.
#[derive(Drop)]
pub(crate) struct DrawnRun {
    /// How many sessions have no receipt.
    pub missed: u64,
    pub times: Times,
}

/// The clock, or nothing where it can't be read.
fn time_of<R: Clock>(rt: &R) -> Duration {
    rt.monotonic().unwrap_or(Duration::ZERO)
}

/// The sessions of each worker.
fn drawn_lists(alloc: Global, drawn: &Drawn) -> Result<Vec<Vec<Action>>, Memory>
    requires { AreWithin drawn.now.options }
    ensures drawn { IfOk result (λ lists. AreDrawn drawn.now (in_lists lists.items)) }
    ensures allowed { IfOk result (λ lists. All (λ actions. All IsAllowed actions) (in_lists lists.items)) }
{
    let mut lists = Vec::new(alloc);
    'workers: for before in 0..drawn.options.clients {
        lists.push(generate(alloc, drawn.seed, u64::from(before) + 1, &drawn.options)?)?;
    }
    Ok(lists)
}

/// Draws tables and the sessions of each worker, much as Vacation of STAMP draws them (IISWC 2008), has the workers run them, and inspects
/// the result. Meanwhile `progress` is called with how many have receipts.
///
/// `Memory` where an allocation failed; nothing else is found.
pub(crate) fn run_drawn<R: Threads + Wait + Clock + Sync, P: Progress + Sync>(
    rt: &R,
    alloc: Global,
    drawn: &Drawn,
    progress: &P,
) -> Result<DrawnRun, RunFault>
    requires { IsDrawable drawn.now }
    ensures run { IfOk result (λ run. IsDrawnRun drawn.now run.missed) }
    ensures refused { IfErr result IsWantOfMemory }
{
    let tables = opening(alloc, drawn.seed, &drawn.options)?;
    let run = run_opened(rt, alloc, drawn, &tables, progress);
    drop(tables);
    progress.end();
    run
}

fn run_opened<R: Threads + Wait + Clock + Sync, P: Progress + Sync>(
    rt: &R,
    alloc: Global,
    drawn: &Drawn,
    tables: &Tables,
    progress: &P,
) -> Result<DrawnRun, RunFault>
    requires drawable { IsDrawable drawn.now }
    requires tables { tables.now ≡ opening_of drawn.now.seed drawn.now.options }
    requires balanced { IsBalanced tables.now }
    ensures run { IfOk result (λ run. IsDrawnRun drawn.now run.missed) }
    ensures refused { IfErr result IsWantOfMemory }
{
    let lists = drawn_lists(alloc, drawn)?;
    let first = state_of(alloc, tables)?;
    let run = run_lists(rt, alloc, drawn, &first, tables, lists.as_slice(), progress);
    drop(first);
    run
}

/// Has workers run these lists from these tables, and inspects the result.
fn run_lists<R: Threads + Wait + Clock + Sync, P: Progress + Sync>(
    rt: &R,
    alloc: Global,
    drawn: &Drawn,
    first: &State<Entry>,
    tables: &Tables,
    lists: &[Vec<Action>],
    progress: &P,
) -> Result<DrawnRun, RunFault>
    requires drawable { IsDrawable drawn.now }
    requires tables { tables.now ≡ opening_of drawn.now.seed drawn.now.options }
    requires balanced { IsBalanced tables.now }
    requires first { first.now ≡ state_that_holds tables.now }
    requires lists { AreDrawn drawn.now (in_lists lists.now) }
    requires allowed { AreAllowed (in_lists lists.now) }
    ensures run { IfOk result (λ run. IsDrawnRun drawn.now run.missed) }
    ensures refused { IfErr result IsWantOfMemory }
{
    let receipts = Receipts::new(progress, u64::from(drawn.options.transactions));
    let tally = Tally::new(alloc, lists.len(), drawn.tries, receipts)?;
    run_tallied(rt, alloc, drawn, first, tables, lists, &tally)
}

fn run_tallied<R: Threads + Wait + Clock + Sync, P: Progress + Sync>(
    rt: &R,
    alloc: Global,
    drawn: &Drawn,
    first: &State<Entry>,
    tables: &Tables,
    lists: &[Vec<Action>],
    tally: &Tally<P>,
) -> Result<DrawnRun, RunFault>
    requires drawable { IsDrawable drawn.now }
    requires tables { tables.now ≡ opening_of drawn.now.seed drawn.now.options }
    requires balanced { IsBalanced tables.now }
    requires first { first.now ≡ state_that_holds tables.now }
    requires lists { AreDrawn drawn.now (in_lists lists.now) }
    requires allowed { AreAllowed (in_lists lists.now) }
    ensures run { IfOk result (λ run. IsDrawnRun drawn.now run.missed) }
    ensures refused { IfErr result IsWantOfMemory }
{
    let begun = time_of(rt);
    let served = serve_allowed(rt, alloc, tables, STRIPES, lists, drawn.tries, tally)?;
    let run = time_of(rt).saturating_sub(begun);
    let missed = served.report.missed.len() as u64;
    let (causes, audit) = audited(rt, alloc, first, served)?;
    let (tries, most) = tally.counts();
    let refused = tally.refused(alloc)?;
    let receipts = u64::from(drawn.options.transactions).saturating_sub(missed);
    let times = Times {
        run,
        audit,
        receipts,
        tries,
        most,
        refused,
        causes,
    };
    Ok(DrawnRun { missed, times })
}

/// Why sessions were missed, once the result of all was inspected, and how long that took.
fn audited<R: Clock>(
    rt: &R,
    alloc: Global,
    first: &State<Entry>,
    served: Served,
) -> Result<(Vec<(&'static str, u64)>, Duration), RunFault>
    ensures sound { OnOk result (IsSound first.now (receipts_of served) served.state served.tables) }
    ensures finding { IfErr result (IsFinding first.now (receipts_of served) served.state served.tables) }
{
    match causes_of(alloc, served.report.missed.as_slice()) {
        Ok(causes) => Ok((causes, time_of_audit(rt, alloc, first, served)?)),
        Err(_) => {
            drop(served);
            Err(RunFault::Refused(Refusal::Memory))
        }
    }
}

/// How long the inspection took.
fn time_of_audit<R: Clock>(
    rt: &R,
    alloc: Global,
    first: &State<Entry>,
    served: Served,
) -> Result<Duration, RunFault>
    ensures sound { OnOk result (IsSound first.now (receipts_of served) served.state served.tables) }
    ensures finding { IfErr result (IsFinding first.now (receipts_of served) served.state served.tables) }
{
    let begun = time_of(rt);
    let tables = inspected(alloc, first, served)?;
    drop(tables);
    Ok(time_of(rt).saturating_sub(begun))
}

/// What is printed of drawn sessions: how many workers and sessions there were, how many were missed, and that the receipts were audited
/// and the tables are balanced.
pub(crate) fn print_drawn(alloc: Global, drawn: &Drawn, missed: u64) -> Result<Vec<u8>, Memory>
    ensures { IfOk result (λ bytes. bytes.items ≡ drawn_text drawn.now missed) }
{
    let mut text = String::new(alloc);
    let (clients, sessions) = (drawn.options.clients, drawn.options.transactions);
    writeln!(text, "clients {clients}")?;
    writeln!(text, "sessions {sessions}")?;
    writeln!(text, "missed {missed}")?;
    with_ending(text.into_bytes())
}
