//! A worker for each list of jobs.
ghost use Rattle.std.specs.Prelude.{◌≡◌, ◌≤◌, IfOk, OnErr, length};
ghost use Rattle.std.specs.Thread.{IsSend, IsSync};
ghost use Rattle.shared_table.specs.Seated.{opening_of, view};
ghost use Rattle.actor_laws.specs.KnownStages.{Rests};
ghost use Rattle.tx_engine.specs.Borrowed.{IsAborted};
ghost use Rattle.tx_engine.specs.Ready.{IsReady, standing};
ghost use Rattle.job_workers.specs.Reports.{HasNotRun, HasRoomFor, HasRun, IsReportOf, IsTreeOf, jobs_of};

use crate::halves::run_tree;
use crate::lists::tree_of;
use crate::report::{Draft, Report};
use crate::tree::Tree;
use core::mem::replace_with;
use seq_model::{ACTOR_LIMIT, Job, Memory, Value};
use shared_table::TxTable;
use std::alloc::Global;
use std::sync::Wait;
use std::thread::Threads;
use tx_engine::{Pause, Priority, TxSeat, resume};

/// All that is to be filled: a report with room for what may come of these lists, and the lists as a tree.
fn prepare<V: Value, J: Job<V> + Drop>(
    alloc: Global,
    mut lists: Vec<Vec<J>>,
) -> Result<(Draft<V>, Box<Tree<V, J>>), Memory>
    requires lists { (1 ≤ length lists.items) × (length lists.items ≤ ACTOR_LIMIT) }
    ensures draft { IfOk result (λ made. HasRoomFor lists.items made.0) }
    ensures tree { IfOk result (λ made. IsTreeOf lists.items made.1.value) }
{
    let draft = Draft::reserve(alloc, lists.as_slice())?;
    let count = lists.len() as u64;
    let tree = tree_of(alloc, &mut lists, count, 1)?;
    Ok((draft, tree))
}

/// A transaction that is open at the seat ends without a commit.
fn abort<V: Value>(table: &TxTable<V>, seat: &mut TxSeat<V>)
    requires ready { IsReady table.now seat.old }
    ensures { IsAborted table.now seat.old seat.new }
{
    resume(seat, table).abort();
}

/// Like `run_workers`, with a seat that is handed in and back.
pub fn run_workers_owned<
    R: Threads + Wait + Sync,
    V: Value + Send + Sync,
    J: Job<V> + Drop + Send + Sync,
    P: Pause + Sync,
>(
    rt: &R,
    alloc: Global,
    table: &TxTable<V>,
    mut seat: TxSeat<V>,
    lists: Vec<Vec<J>>,
    tries: u64,
    pause: &P,
) -> (TxSeat<V>, Result<Report<V>, Memory>)
    requires some { 1 ≤ tries }
    requires ready { IsReady table.now seat }
    requires lists { (1 ≤ length lists.items) × (length lists.items ≤ ACTOR_LIMIT) }
    requires shares { length lists.items ≤ (view seat.seat).shares }
    ensures ready { IsReady table.now result.0 }
    ensures rests { standing (opening_of table.now) result.0.seat ≡ Rests }
    ensures report { IfOk result.1 (IsReportOf J.asks table.now tries seat result.0 (jobs_of lists.items)) }
    ensures gains { IfOk result.1 (HasRun seat result.0) }
    ensures memory { OnErr result.1 (HasNotRun table.now seat result.0) }
{
    match prepare(alloc, lists) {
        Ok((draft, tree)) => {
            let priority = Priority::new();
            let (mut seat, tree) = run_tree(rt, tries, pause, &priority, table, seat, tree);
            abort(table, &mut seat);
            (seat, Ok(draft.filled(tree)))
        }
        Err(memory) => {
            abort(table, &mut seat);
            (seat, Err(memory))
        }
    }
}

/// Runs each list of jobs by a worker of its own, at this table: the worker 1 by the seat that is lent, each other one by a thread and
/// by a seat that gets one of its shares and is joined again. A worker takes its jobs in order, each with at most so many attempts
/// (`retry`); where no thread can be started for it, they are missed as `NotStarted`. It returns once all workers have ended. The
/// seat has its shares again then, has gained just the receipts that are reported, and has no transaction. Its last number is no lower
/// than it was, nor than that of any of these receipts, and so is the number at which its next transaction begins.
///
/// `Memory` where what the workers fill can't be had, before any of them has started: the seat has begun no transaction and gained nothing.
pub fn run_workers<
    R: Threads + Wait + Sync,
    V: Value + Send + Sync,
    J: Job<V> + Drop + Send + Sync,
    P: Pause + Sync,
>(
    rt: &R,
    alloc: Global,
    table: &TxTable<V>,
    seat: &mut TxSeat<V>,
    lists: Vec<Vec<J>>,
    tries: u64,
    pause: &P,
) -> Result<Report<V>, Memory>
    requires some { 1 ≤ tries }
    requires ready { IsReady table.now seat.old }
    requires lists { (1 ≤ length lists.items) × (length lists.items ≤ ACTOR_LIMIT) }
    requires shares { length lists.items ≤ (view seat.old.seat).shares }
    ensures ready { IsReady table.now seat.new }
    ensures rests { standing (opening_of table.now) seat.new.seat ≡ Rests }
    ensures report { IfOk result (IsReportOf J.asks table.now tries seat.old seat.new (jobs_of lists.items)) }
    ensures gains { IfOk result (HasRun seat.old seat.new) }
    ensures memory { OnErr result (HasNotRun table.now seat.old seat.new) }
{
    replace_with(
        seat,
        lists,
        |seat: TxSeat<V>, lists: Vec<Vec<J>>| -> (TxSeat<V>, Result<Report<V>, Memory>)
            requires sync { IsSync R.row × IsSync P.row × IsSend V.row × IsSync V.row × IsSend J.row × IsSync J.row }
            requires some { 1 ≤ tries }
            requires ready { IsReady table.now seat }
            requires lists { (1 ≤ length lists.items) × (length lists.items ≤ ACTOR_LIMIT) }
            requires shares { length lists.items ≤ (view seat.seat).shares }
            ensures ready { IsReady table.entry.now result.0 }
            ensures rests { standing (opening_of table.entry.now) result.0.seat ≡ Rests }
            ensures report { IfOk result.1 (IsReportOf J.asks table.entry.now tries seat result.0 (jobs_of lists.items)) }
            ensures gains { IfOk result.1 (HasRun seat result.0) }
            ensures memory { OnErr result.1 (HasNotRun table.entry.now seat result.0) }
        { run_workers_owned(rt, alloc, table, seat, lists, tries, pause) },
    )
}
