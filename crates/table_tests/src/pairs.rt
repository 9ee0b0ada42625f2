//! Seats of a table, whose rows are answered in turn or in threads.
ghost use Rattle.std.specs.Prelude.{◌≡◌};
ghost use Rattle.shared_table.specs.Seated.{view};
ghost use Rattle.tx_engine.specs.Ready.{IsReady};

use crate::engine::turns::{at_once, in_turn};
use crate::shared::{Order, Page, Told};
use crate::worker::retries::{ALONE, commit_after};
use shared_table::TxTable;
use std::thread::Threads;
use tx_engine::TxSeat;

/// How many of the table's shares the second seat has.
const SECOND_SHARES: u64 = 32;

/// The rows of seats that are split off this one, which is the first of them and has all shares in the end.
pub fn run_seats<R: Threads + Sync, V: Told + Send + Sync>(
    rt: &R,
    page: &mut Page<V>,
    table: &TxTable<V>,
    seat: &mut TxSeat<V>,
    rows: &str,
)
    requires ready { IsReady table.now seat.old }
    requires shares { (view seat.old.seat).shares ≡ 64 }
    ensures ready { IsReady table.now seat.new }
{
    let (others, order, rows) = others_of(rows);
    match others {
        0 => run_pair(page, table, seat, rows),
        _ => at_once(rt, page, table, seat, others, order, rows),
    }
}

fn run_pair<V: Told>(page: &mut Page<V>, table: &TxTable<V>, first: &mut TxSeat<V>, rows: &str)
    requires ready { IsReady table.now first.old }
    requires shares { (view first.old.seat).shares ≡ 64 }
    ensures ready { IsReady table.now first.new }
{
    let mut second = first.split(table, SECOND_SHARES);
    in_turn(page, table, first, &mut second, rows);
    commit_after(page, table, &mut second, ALONE, false);
    first.join(table, second);
}

// How many other seats there are where each answers its rows in a thread, in which order, and the rows after what says so.
fn others_of(rows: &str) -> (u64, Order, &str) {
    let (first, others) = rows.split_once('\n').unwrap_or((rows, ""));
    match first {
        "at once" => (1, Order::LastIsFirst, others),
        "row by row" => (1, Order::RowByRow, others),
        "four at once" => (3, Order::LastIsFirst, others),
        "four row by row" => (3, Order::RowByRow, others),
        _ => (0, Order::RowByRow, rows),
    }
}
