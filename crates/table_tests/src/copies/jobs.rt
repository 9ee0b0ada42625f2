//! Jobs of workers, whose values are rationed.
ghost use Rattle.std.specs.Prelude.{◌≡◌, ◌≤◌, length};
ghost use Rattle.shared_table.specs.Seated.{view};
ghost use Rattle.tx_engine.specs.Ready.{IsReady};

use super::rations::{Ration, Rationed, get};
use seq_model::{Ask, Call, Job, Memory, Op, Refusal, Reply};
use shared_table::TxTable;
use std::alloc::Global;
use std::sync::Wait;
use std::thread::Threads;
use tx_engine::{Pause, TxSeat};
use workers::{Report, run_workers};

/// What a job asks.
#[derive(Clone, Copy)]
pub enum Asks {
    WritesAndPuts,
    Writes,
    Gets,
    Puts,
}

/// A job of this worker, which asks nothing before so many steps of the others.
#[derive(Clone, Copy)]
pub struct Plan {
    pub worker: u64,
    pub after: u64,
    pub asks: Asks,
}

/// A job that is planned so.
#[derive(Drop)]
struct Step {
    ration: Ration,
    plan: Plan,
}

impl Job<Rationed> for Step {
    fn ask(&self, replies: &[Reply<Rationed>]) -> Result<Ask<Rationed>, Memory> {
        self.ration.steps().wait_for_row(self.plan.after);
        match (replies.len(), self.plan.asks) {
            (0, Asks::Gets) => Ok(Ask::Call(get(5))),
            (0, Asks::Puts) | (1, Asks::WritesAndPuts) => Ok(Ask::Call(self.ration.put(5)?)),
            (0, _) => {
                let op = Op::Write(7);
                Ok(Ask::Call(Call { target: 0, op }))
            }
            _ => Ok(Ask::Done),
        }
    }
}

/// These jobs are run, each in up to so many attempts. They stand in the order of their workers.
pub fn run_plans<R: Threads + Wait + Sync, P: Pause + Sync>(
    rt: &R,
    alloc: Global,
    ration: &Ration,
    table: &TxTable<Rationed>,
    seat: &mut TxSeat<Rationed>,
    plans: &[Plan],
    tries: u64,
    pause: &P,
) -> Result<Report<Rationed>, Refusal>
    requires some { 1 ≤ tries }
    requires ready { IsReady table.now seat.old }
    requires shares { (view seat.old.seat).shares ≡ 64 }
    ensures ready { IsReady table.now seat.new }
{
    let lists = lists_of(alloc, ration, plans)?;
    let count = lists.len();
    if count == 0 || count > 64 {
        return Err(Refusal::NoSuch);
    }
    match run_workers(rt, alloc, table, seat, lists, tries, pause) {
        Ok(report) => Ok(report),
        Err(_) => Err(Refusal::Memory),
    }
}

fn lists_of(alloc: Global, ration: &Ration, plans: &[Plan]) -> Result<Vec<Vec<Step>>, Memory> {
    let mut lists: Vec<Vec<Step>> = Vec::new(alloc);
    for plan in plans {
        if lists.len() as u64 != plan.worker {
            lists.push(Vec::new(alloc))?;
        }
        let step = Step {
            ration: ration.share()?,
            plan: *plan,
        };
        if let Some(list) = lists.last_mut() {
            list.push(step)?;
        }
    }
    Ok(lists)
}
