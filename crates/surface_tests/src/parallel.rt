//! Jobs at one seat, and workers that run lists of jobs.
ghost use Rattle.std.specs.Prelude.{◌≡◌, IfOk, length};
ghost use Rattle.shared_table.specs.Seated.{view};
ghost use Rattle.tx_engine.specs.Ready.{IsReady};

use crate::rows::ensure;
use crate::seats::ALL;
use seq_model::{Call, Memory, Op, Refusal, Reply, Value};
use std::alloc::Global;
use std::sync::Wait;
use std::thread::Threads;
use tx_engine::{Ask, Job, attempt};
use tx_table::{Seat, TxTable};
use workers::{Pause, Report, retry, run_workers};

/// How often a job is attempted at most.
const TRIES: u64 = 1_000;

/// Writes this number to word 0. Where there is none, it aborts at once.
#[derive(Drop)]
struct Write0 {
    number: Option<u64>,
}

impl<V: Value> Job<V> for Write0 {
    fn ask(&self, replies: &[Reply<V>]) -> Result<Ask<V>, Memory> {
        match self.number {
            None => Ok(Ask::GiveUp),
            Some(number) if replies.is_empty() => {
                let op = Op::Write(number);
                Ok(Ask::Call(Call { target: 0, op }))
            }
            Some(_) => Ok(Ask::Done),
        }
    }
}

/// Holds no worker.
pub struct Unheld;

impl Pause for Unheld {
    fn before_commit(&self, _worker: u64) {}

    fn after_receipt(&self, _worker: u64, _number: u64) {}
}

/// Two workers run a job each, and then a job that aborts is attempted.
pub fn call_jobs<R: Threads + Wait + Sync, V: Value + Send + Sync>(
    rt: &R,
    alloc: Global,
    table: &TxTable<V>,
    seat: &mut Seat<V>,
) -> Result<(), Refusal>
    requires ready { IsReady table.now seat.old }
    ensures ready { IsReady table.now seat.new }
{
    if seat.shares() != ALL {
        return Err(Refusal::NoSuch);
    }
    let report = run(rt, table, seat, lists(alloc)?);
    let none = Write0 { number: None };
    let attempted = attempt(table, seat, &none).is_ok();
    let retried = retry(table, seat, &none, TRIES, 1, &Unheld).is_err();
    let report = report?;
    let is = report.receipts.len() == 2 && report.missed.len() == 0;
    ensure(is && attempted && retried)
}

fn lists(alloc: Global) -> Result<Vec<Vec<Write0>>, Memory>
    ensures { IfOk result (λ lists. length lists.items ≡ 2) }
{
    let one = vec![in alloc; Write0 { number: Some(2) }]?;
    let other = vec![in alloc; Write0 { number: Some(3) }]?;
    Ok(vec![in alloc; one, other]?)
}

fn run<R: Threads + Wait + Sync, V: Value + Send + Sync, J: Job<V> + Drop + Send + Sync>(
    rt: &R,
    table: &TxTable<V>,
    seat: &mut Seat<V>,
    lists: Vec<Vec<J>>,
) -> Result<Report<V>, Memory>
    requires ready { IsReady table.now seat.old }
    requires shares { (view seat.old.seat).shares ≡ 64 }
    requires lists { length lists.items ≡ 2 }
    ensures ready { IsReady table.now seat.new }
{
    run_workers(rt, *lists.allocator(), table, seat, lists, TRIES, &Unheld)
}
