//! Two workers at a table of such values. One that the first worker's commit replaces waits as it is dropped, under the lock of a word and
//! the gate of a map, until the second worker was refused at both.
ghost use Rattle.std.specs.Prelude.{◌≡◌};
ghost use Rattle.shared_table.specs.Seated.{view};
ghost use Rattle.tx_engine.specs.Ready.{IsReady};

use super::jobs::{Asks, Plan, run_plans};
use super::rations::{Ration, Rationed};
use super::seats::commit_puts;
use super::tables::Made;
use crate::shared::keep_all;
use crate::worker::reports::{memory_missed, print_missed, print_own};
use seq_model::{Record, Refusal};
use shared_table::TxTable;
use std::sync::Wait;
use std::thread::Threads;
use tx_engine::TxSeat;
use workers::Report;

/// The second worker is refused while the first one's commit is held, and commits once that one has its receipt.
const PLANS: [Plan; 4] = [
    Plan {
        worker: 1,
        after: 0,
        asks: Asks::WritesAndPuts,
    },
    Plan {
        worker: 2,
        after: 1,
        asks: Asks::Writes,
    },
    Plan {
        worker: 2,
        after: 1,
        asks: Asks::Gets,
    },
    Plan {
        worker: 2,
        after: 4,
        asks: Asks::Puts,
    },
];

/// Both workers are run: the receipts of each, and what was missed. Where an allocation failed, the seat commits a write after it.
pub fn hold<R: Threads + Wait + Sync>(
    rt: &R,
    text: &mut String,
    ration: &Ration,
    table: &TxTable<Rationed>,
    seat: &mut TxSeat<Rationed>,
    receipts: &mut Vec<Record<Rationed>>,
) -> Made
    requires ready { IsReady table.now seat.old }
    requires shares { (view seat.old.seat).shares ≡ 64 }
    ensures ready { IsReady table.now seat.new }
{
    let alloc = *text.allocator();
    let report = run_plans(rt, alloc, ration, table, seat, &PLANS, 1, ration);
    match hear(text, report, receipts) {
        Ok(()) if ration.steps().is_missed() => Err(Refusal::NotIdle),
        Ok(()) => Ok(false),
        Err(refusal) => {
            receipts.push(commit_puts(table, seat, ration)?)?;
            Err(refusal)
        }
    }
}

// All receipts are kept, whether there is memory to print them or not.
fn hear(
    text: &mut String,
    report: Result<Report<Rationed>, Refusal>,
    receipts: &mut Vec<Record<Rationed>>,
) -> Result<(), Refusal> {
    let Report {
        receipts: lists,
        missed,
    } = report?;
    let mut is_printed = true;
    for list in lists.as_slice() {
        is_printed = print_own(text, None, list.as_slice()).is_ok() && is_printed;
    }
    let is_kept = keep_all(receipts, lists).is_ok();
    is_printed = print_missed(text, missed.as_slice()).is_ok() && is_printed;
    if !is_kept || !is_printed || memory_missed(missed.as_slice()) > 0 {
        return Err(Refusal::Memory);
    }
    Ok(())
}
