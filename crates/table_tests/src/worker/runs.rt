//! Jobs on a table, each list by a worker of its own.
ghost use Rattle.std.specs.Prelude.{◌≡◌, ◌≤◌, length};
ghost use Rattle.shared_table.specs.Seated.{view};
ghost use Rattle.tx_engine.specs.Ready.{IsReady};

use super::lists::{Limits, lists_of, wants_of};
use super::reports::{memory_missed, print_report};
use crate::shared::{Meeting, Page, Told, keep_all};
use seq_model::{Memory, Refusal};
use shared_table::TxTable;
use std::sync::Wait;
use std::thread::Threads;
use tx_engine::TxSeat;
use workers::{Report, run_workers};

/// The workers' lists that these rows spell are run. Whether jobs ran out of memory that were to have none. `NoSuch` where there are no
/// lists, or more than 64, or no attempts.
pub fn run_lists<R: Threads + Wait + Sync, V: Told + Send + Sync>(
    rt: &R,
    page: &mut Page<V>,
    limits: Limits,
    table: &TxTable<V>,
    seat: &mut TxSeat<V>,
    rows: &str,
) -> Result<bool, Refusal>
    requires ready { IsReady table.now seat.old }
    requires shares { (view seat.old.seat).shares ≡ 64 }
    ensures ready { IsReady table.now seat.new }
{
    let alloc = page.alloc();
    let lists = lists_of(alloc, rows)?;
    let count = lists.len();
    if count == 0 || count > 64 || limits.tries == 0 {
        return Err(Refusal::NoSuch);
    }
    let meeting = Meeting::new(limits.meet, limits.order);
    let report = run_workers(rt, alloc, table, seat, lists, limits.tries, &meeting);
    let is_refused = hear(page, report, limits, wants_of(rows));
    page.hear_meeting(meeting);
    Ok(is_refused)
}

// That a job ran out of memory is `Memory` of the run, unless it was to have none.
fn hear<V: Told>(
    page: &mut Page<V>,
    report: Result<Report<V>, Memory>,
    limits: Limits,
    wants: u64,
) -> bool {
    let Ok(report) = report else {
        page.fail(Refusal::Memory);
        return true;
    };
    let is_printed = print_report(&mut page.text, &report, limits).is_ok();
    let refused = memory_missed(report.missed.as_slice());
    let Report { receipts, missed } = report;
    drop(missed);
    let is_kept = keep_all(&mut page.receipts, receipts).is_ok();
    page.note(is_printed && is_kept && refused == wants);
    refused > 0
}
