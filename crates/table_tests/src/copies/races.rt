//! Workers at a table of such values, whose commits overlap, and one of whose copies is refused.
ghost use Rattle.std.specs.Prelude.{◌≡◌};
ghost use Rattle.shared_table.specs.Seated.{view};
ghost use Rattle.tx_engine.specs.Ready.{IsReady};

use super::jobs::{Asks, Plan, run_plans};
use super::rations::{Ration, Rationed};
use super::seats::commit_puts;
use super::tables::Made;
use crate::shared::{Meeting, Order, keep_all};
use crate::worker::reports::memory_missed;
use seq_model::{Record, Refusal};
use shared_table::TxTable;
use std::alloc::Global;
use std::sync::Wait;
use std::thread::Threads;
use tx_engine::TxSeat;
use workers::Report;

/// So many attempts no job needs.
const TRIES: u64 = 1_000_000;

/// The jobs of four workers, who put a value each.
const PUTS: [Plan; 4] = [
    Plan {
        worker: 1,
        after: 0,
        asks: Asks::Puts,
    },
    Plan {
        worker: 2,
        after: 0,
        asks: Asks::Puts,
    },
    Plan {
        worker: 3,
        after: 0,
        asks: Asks::Puts,
    },
    Plan {
        worker: 4,
        after: 0,
        asks: Asks::Puts,
    },
];

/// The copy at this position is refused, of all that so many workers make, up to four, who put a value each; whether one was. One job is
/// missed as `Memory` then, and else none is; the seat commits after it.
pub fn race<R: Threads + Wait + Sync>(
    rt: &R,
    alloc: Global,
    ration: &Ration,
    table: &TxTable<Rationed>,
    seat: &mut TxSeat<Rationed>,
    place: u64,
    workers: usize,
    receipts: &mut Vec<Record<Rationed>>,
) -> Made
    requires ready { IsReady table.now seat.old }
    requires shares { (view seat.old.seat).shares ≡ 64 }
    ensures ready { IsReady table.now seat.new }
{
    let Some(plans) = PUTS.get(..workers) else {
        return Err(Refusal::NoSuch);
    };
    let meeting = Meeting::new(workers as u64, Order::LastIsFirst);
    ration.refuse(place);
    let report = run_plans(rt, alloc, ration, table, seat, plans, TRIES, &meeting);
    let was_refused = ration.lift();
    drop(meeting);
    let missed = keep_report(report, receipts);
    receipts.push(commit_puts(table, seat, ration)?)?;
    judge(missed?, was_refused)
}

// How many jobs ran out of memory; `NotIdle` where one was missed for another cause.
fn keep_report(
    report: Result<Report<Rationed>, Refusal>,
    receipts: &mut Vec<Record<Rationed>>,
) -> Result<u64, Refusal> {
    let Report {
        receipts: lists,
        missed,
    } = report?;
    keep_all(receipts, lists)?;
    let wanting = memory_missed(missed.as_slice());
    if wanting < missed.len() as u64 {
        return Err(Refusal::NotIdle);
    }
    Ok(wanting)
}

// One job is out of memory where a copy was refused; that others are is that the run is out of memory.
fn judge(missed: u64, was_refused: bool) -> Made {
    if missed == u64::from(was_refused) {
        Ok(was_refused)
    } else if missed == 0 {
        Err(Refusal::NotIdle)
    } else {
        Err(Refusal::Memory)
    }
}
