//! What workers make of a session file.
ghost use Rattle.std.specs.Prelude.{◌≡◌, ◌≤◌, All, IfErr, IfOk, length};
ghost use Rattle.workers.specs.Deals.{AreDealt, AreDealtLike, in_lists};
ghost use Rattle.vac_model.specs.Actions.{IsAllowed};
ghost use Rattle.vac_model.specs.Balanced.{IsBalanced};
ghost use Rattle.client_sessions.specs.Holding.{state_of as state_that_holds};
ghost use Rattle.workers.specs.Serving.{AreAllowed};
ghost use Rattle.session_text.specs.Faults.{IsFault};
ghost use Rattle.command_line.specs.Runs.{IsServedOutput, IsServedRun, IsWantOfMemory};
ghost use Rattle.command_line.specs.Unread.{IsToldRun};

use crate::inspection::inspected;
use crate::lines::lines_of_report;
use crate::progress::Receipts;
use client_sessions::{Entry, Progress, Session, state_of};
use seq_model::{ACTOR_LIMIT, Memory, Refusal, State};
use session_text::{RunFault, STRIPES, SessionRun, text_of};
use std::alloc::Global;
use std::sync::Wait;
use std::thread::Threads;
use text_formats::parse_sessions;
use vac_model::{Action, Tables};
use vacation_core::sessions_of;
use workers::{deal, serve_allowed};

/// The most attempts of each session.
pub(crate) const TRIES: u64 = 1_000;

/// What the sessions of a file print where so many workers run them, from 1 to 64: a line for each session, in the file's order, then what
/// the tables hold, and that the receipts were audited and the tables are balanced. The first session is the first worker's, the next one
/// the next worker's, and so on in turn. Each has at most 1,000 attempts. Meanwhile `progress` is called with how many have receipts.
///
/// `BadText` names the first line outside the grammar, counted from 1; `Memory` where an allocation failed; nothing else is found.
pub(crate) fn output_of<R: Threads + Wait + Sync, P: Progress + Sync>(
    rt: &R,
    alloc: Global,
    text: &[u8],
    workers: usize,
    progress: &P,
) -> Result<Vec<u8>, RunFault>
    requires { (1 ≤ workers) × (workers ≤ ACTOR_LIMIT) }
    ensures output { IfOk result (λ bytes. IsServedOutput workers text.now bytes.items) }
    ensures refused { IfErr result (IsFault text.now) }
{
    let (tables, actions) = parse_sessions(alloc, text)?;
    let run = run_dealt(rt, alloc, &tables, actions, workers, progress);
    drop(tables);
    progress.end();
    let run = run?;
    let output = text_of(alloc, &run);
    drop(run);
    Ok(output?)
}

fn run_dealt<R: Threads + Wait + Sync, P: Progress + Sync>(
    rt: &R,
    alloc: Global,
    tables: &Tables,
    actions: Vec<Action>,
    workers: usize,
    progress: &P,
) -> Result<SessionRun, RunFault>
    requires workers { (1 ≤ workers) × (workers ≤ ACTOR_LIMIT) }
    requires balanced { IsBalanced tables.now }
    requires allowed { All IsAllowed actions.items }
    ensures run { IfOk result (IsServedRun workers tables.now actions.items) }
    ensures refused { IfErr result IsWantOfMemory }
{
    let total = actions.len();
    let sessions = dealt_sessions(alloc, actions.as_slice(), workers)?;
    let lists = deal(alloc, actions, workers)?;
    run_lists(
        rt,
        alloc,
        tables,
        lists.as_slice(),
        sessions.as_slice(),
        total,
        progress,
    )
}

/// The sessions of actions, dealt out as these are.
fn dealt_sessions(
    alloc: Global,
    actions: &[Action],
    workers: usize,
) -> Result<Vec<Vec<Session>>, Memory>
    requires some { 1 ≤ workers }
    requires allowed { All IsAllowed actions.now }
    ensures dealt { IfOk result (λ sessions. AreDealt workers actions.now (in_lists sessions.items)) }
    ensures like { IfOk result (λ sessions. AreDealtLike workers (length actions.now) (in_lists sessions.items)) }
{
    deal(alloc, sessions_of(alloc, actions)?, workers)
}

/// Serves these lists from these tables, and answers the results of their sessions, so many in all, in the order of the deal.
fn run_lists<R: Threads + Wait + Sync, P: Progress + Sync>(
    rt: &R,
    alloc: Global,
    tables: &Tables,
    lists: &[Vec<Action>],
    sessions: &[Vec<Session>],
    total: usize,
    progress: &P,
) -> Result<SessionRun, RunFault>
    requires balanced { IsBalanced tables.now }
    requires lists { (1 ≤ length lists.now) × (length lists.now ≤ ACTOR_LIMIT) }
    requires allowed { AreAllowed (in_lists lists.now) }
    requires same { in_lists sessions.now ≡ in_lists lists.now }
    requires some { (1 ≤ length sessions.now) × (length sessions.now ≤ ACTOR_LIMIT) }
    requires like { AreDealtLike (length sessions.now) total (in_lists sessions.now) }
    ensures run { IfOk result (IsToldRun tables.now (in_lists lists.now) total) }
    ensures refused { IfErr result IsWantOfMemory }
{
    let opening = state_of(alloc, tables)?;
    let run = run_from(
        rt, alloc, &opening, tables, lists, sessions, total, progress,
    );
    drop(opening);
    run
}

fn run_from<R: Threads + Wait + Sync, P: Progress + Sync>(
    rt: &R,
    alloc: Global,
    opening: &State<Entry>,
    tables: &Tables,
    lists: &[Vec<Action>],
    sessions: &[Vec<Session>],
    total: usize,
    progress: &P,
) -> Result<SessionRun, RunFault>
    requires balanced { IsBalanced tables.now }
    requires opening { opening.now ≡ state_that_holds tables.now }
    requires lists { (1 ≤ length lists.now) × (length lists.now ≤ ACTOR_LIMIT) }
    requires allowed { AreAllowed (in_lists lists.now) }
    requires same { in_lists sessions.now ≡ in_lists lists.now }
    requires some { (1 ≤ length sessions.now) × (length sessions.now ≤ ACTOR_LIMIT) }
    requires like { AreDealtLike (length sessions.now) total (in_lists sessions.now) }
    ensures run { IfOk result (IsToldRun tables.now (in_lists lists.now) total) }
    ensures refused { IfErr result IsWantOfMemory }
{
    let receipts = Receipts::new(progress, total as u64);
    let served = serve_allowed(rt, alloc, tables, STRIPES, lists, TRIES, &receipts)?;
    match lines_of_report(alloc, sessions, total, &served.report) {
        Ok(lines) => {
            let tables = inspected(alloc, opening, served)?;
            Ok(SessionRun { lines, tables })
        }
        Err(_) => {
            drop(served);
            Err(RunFault::Refused(Refusal::Memory))
        }
    }
}
