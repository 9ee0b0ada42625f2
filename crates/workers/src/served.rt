//! The sessions of lists of actions, each list by a worker of its own.
ghost use Rattle.std.specs.Prelude.{◌≡◌, ◌↔◌, ◌≤◌, IfErr, IfOk, IsOk, IsTrue, length};
ghost use Rattle.conflict.specs.Refusals.{IsStripeCount};
ghost use Rattle.seq_model.specs.Refusals.{IsTooLong};
ghost use Rattle.vac_model.specs.Balanced.{IsBalanced};
ghost use Rattle.shared_table.specs.Seated.{view};
ghost use Rattle.tx_engine.specs.Ready.{IsReady};
ghost use Rattle.job_workers.specs.Reports.{jobs_of};
ghost use Rattle.workers.specs.Serving.{AreAllowed, IsClosedWith, IsServed, OpensOnTables};

use client_sessions::{Entry, Session, state_of};
use conflict::is_stripe_count;
use job_workers::{Report, run_workers_owned};
use seq_model::{ACTOR_LIMIT, Items, Memory, Refusal, Shape, State};
use shared_table::{SHARES, TxTable};
use std::alloc::Global;
use std::sync::Wait;
use std::thread::Threads;
use tx_engine::{Pause, TxSeat};
use vac_model::{Action, Tables};
use vacation_core::{are_allowed, sessions_of, tables_left};

/// What has come of the sessions of lists of actions.
#[derive(Drop)]
pub struct Served {
    /// The receipts of each worker, and the jobs without one.
    pub report: Report<Entry>,
    /// The tables that the sessions leave.
    pub tables: Tables,
    /// The state that holds these tables.
    pub state: State<Entry>,
}

/// Whether each action of each list is allowed.
fn all_allowed(lists: &[Vec<Action>]) -> bool
    ensures { IsTrue result ↔ AreAllowed (jobs_of lists.now) }
{
    for list in lists {
        if !are_allowed(list.as_slice()) {
            return false;
        }
    }
    true
}

/// The sessions of the actions of each list.
fn all_sessions(alloc: Global, lists: &[Vec<Action>]) -> Result<Vec<Vec<Session>>, Memory>
    requires { AreAllowed (jobs_of lists.now) }
    ensures { IfOk result (λ sessions. jobs_of sessions.items ≡ jobs_of lists.now) }
{
    let mut sessions = Vec::with_capacity(alloc, lists.len())?;
    for list in lists {
        sessions.push(sessions_of(alloc, list.as_slice())?)?;
    }
    Ok(sessions)
}

/// A table that holds these tables, with so many stripes for each of the five maps and three queues, and its first seat. Its clock is 0.
fn open(
    alloc: Global,
    tables: &Tables,
    stripes: u32,
) -> Result<(TxTable<Entry>, TxSeat<Entry>), Memory>
    requires balanced { IsBalanced tables.now }
    requires stripes { IsStripeCount stripes }
    ensures { IfOk result (λ opened. OpensOnTables tables.now stripes opened.0 opened.1) }
{
    let state = state_of(alloc, tables)?;
    let stripes = vec![in alloc; stripes; 8]?;
    let shape = Shape {
        stripes: Items::from_vec(stripes),
        clock: 0,
    };
    match TxSeat::open(alloc, &shape, state) {
        Ok(opened) => Ok(opened),
        Err(refusal) => match refusal {
            Refusal::Memory => Err(Memory),
            _ => unreachable!(),
        },
    }
}

/// What the table holds once its last seat closes it.
fn close(table: TxTable<Entry>, seat: TxSeat<Entry>) -> Result<State<Entry>, Memory>
    requires ready { IsReady table seat }
    requires all { (view seat.seat).shares ≡ SHARES }
    ensures { IfOk result (IsClosedWith table seat) }
{
    let closed = seat.close(table)?;
    let state = closed.state()?;
    Ok(state)
}

/// Runs the sessions of these lists of actions as `serve` does, where each action is allowed and a collection can have so many stripes: so
/// it is refused as `Memory` alone.
pub fn serve_allowed<R: Threads + Wait + Sync, P: Pause + Sync>(
    rt: &R,
    alloc: Global,
    tables: &Tables,
    stripes: u32,
    lists: &[Vec<Action>],
    tries: u64,
    pause: &P,
) -> Result<Served, Memory>
    requires balanced { IsBalanced tables.now }
    requires stripes { IsStripeCount stripes }
    requires lists { (1 ≤ length lists.now) × (length lists.now ≤ ACTOR_LIMIT) }
    requires allowed { AreAllowed (jobs_of lists.now) }
    requires some { 1 ≤ tries }
    ensures { IfOk result (IsServed tables.now stripes (jobs_of lists.now) tries) }
{
    let sessions = all_sessions(alloc, lists)?;
    let (table, seat) = open(alloc, tables, stripes)?;
    let (seat, report) = run_workers_owned(rt, alloc, &table, seat, sessions, tries, pause);
    let report = report?;
    let state = close(table, seat)?;
    let tables = tables_left(alloc, &state)?;
    Ok(Served {
        report,
        tables,
        state,
    })
}

/// Runs the sessions of these lists of actions, 1 to 64 of them, on a shared table, which opens on these tables with clock 0 and has so
/// many stripes for each collection: each list by a worker of its own, its sessions in order, each in at most so many attempts, of which
/// there is 1 at least (`run_workers`). In commit order the sessions that have a receipt are their actions, one after another, and the
/// tables and the state are what they leave, balanced. No audit of the receipts finds a fault.
///
/// `TooLong` where a collection can't have so many stripes, or an action of some list isn't allowed, which is found before anything is
/// opened; and `Memory` where an allocation failed. A session that is out of memory is reported as missed.
pub fn serve<R: Threads + Wait + Sync, P: Pause + Sync>(
    rt: &R,
    alloc: Global,
    tables: Tables,
    stripes: u32,
    lists: Vec<Vec<Action>>,
    tries: u64,
    pause: &P,
) -> Result<Served, Refusal>
    requires balanced { IsBalanced tables }
    requires lists { (1 ≤ length lists.items) × (length lists.items ≤ ACTOR_LIMIT) }
    requires some { 1 ≤ tries }
    ensures served { IfOk result (IsServed tables stripes (jobs_of lists.items) tries) }
    ensures fits { IsOk result → IsStripeCount stripes × AreAllowed (jobs_of lists.items) }
    ensures refused { IfErr result (λ refusal. IsTooLong refusal (IsStripeCount stripes × AreAllowed (jobs_of lists.items))) }
{
    if !is_stripe_count(stripes) {
        return Err(Refusal::TooLong);
    }
    if !all_allowed(lists.as_slice()) {
        return Err(Refusal::TooLong);
    }
    let served = serve_allowed(rt, alloc, &tables, stripes, lists.as_slice(), tries, pause)?;
    Ok(served)
}
