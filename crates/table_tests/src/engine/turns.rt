//! The rows of two seats in turn; or those of each seat in a thread of its own.
ghost use Rattle.std.specs.Prelude.{IfSome};
ghost use Rattle.std.specs.Thread.{IsSend, IsSync};
ghost use Rattle.tx_engine.specs.Ready.{IsReady};

use super::rows::answer_at;
use crate::resumed;
use crate::shared::{Meeting, Order, Page, Stand, Told};
use crate::worker::retries::{AMONG_OTHERS, commit_after};
use seq_model::Refusal;
use shared_table::TxTable;
use std::thread::{Threads, join_mut};
use tx_engine::TxSeat;

/// Where a row of the first seat stands that waits for none.
const FIRST: Stand = Stand {
    worker: 1,
    above: 0,
};

/// Likewise of the second seat.
const SECOND: Stand = Stand {
    worker: 2,
    above: 0,
};

/// The rows one after another, by seats without transactions.
#[tactic(auto, using(crate::proofs::FitLemmas::rests_fit))]
pub fn in_turn<V: Told>(
    page: &mut Page<V>,
    table: &TxTable<V>,
    first: &mut TxSeat<V>,
    second: &mut TxSeat<V>,
    rows: &str,
)
    requires first { IsReady table.now first.old }
    requires second { IsReady table.now second.old }
    ensures first { IsReady table.now first.new }
    ensures second { IsReady table.now second.new }
{
    resumed::abort(table, first);
    resumed::abort(table, second);
    let meeting = Meeting::new(2, Order::LastIsFirst);
    'rows: for row in rows.lines() {
        answer_at(page, table, first, FIRST, &meeting, row);
        answer_at(page, table, second, SECOND, &meeting, row);
    }
    page.hear_meeting(meeting);
}

/// The rows of this seat and of so many others, which are split off, each in a thread of its own. On the page those of the first seat stand
/// before those of the second, and so on.
pub fn at_once<R: Threads + Sync, V: Told + Send + Sync>(
    rt: &R,
    page: &mut Page<V>,
    table: &TxTable<V>,
    seat: &mut TxSeat<V>,
    others: u64,
    order: Order,
    rows: &str,
)
    requires ready { IsReady table.now seat.old }
    ensures ready { IsReady table.now seat.new }
{
    let meeting = Meeting::new(others.saturating_add(1), order);
    answer_seats(rt, page, table, seat, 1, others, &meeting, rows);
    page.hear_meeting(meeting);
}

// The worker is the first of these seats.
#[cycle(seats)]
fn answer_seats<R: Threads + Sync, V: Told + Send + Sync>(
    rt: &R,
    page: &mut Page<V>,
    table: &TxTable<V>,
    seat: &mut TxSeat<V>,
    worker: u64,
    others: u64,
    meeting: &Meeting,
    rows: &str,
)
    requires ready { IsReady table.now seat.old }
    ensures ready { IsReady table.now seat.new }
{
    if others == 0 {
        answer_seat(page, table, seat, worker, meeting, rows);
        return;
    }
    if let Some((mut page_below, mut other)) = split_off(page, table, seat, meeting) {
        let next = worker.saturating_add(1);
        let rest = others - 1;
        let below = &mut page_below;
        let second = &mut other;
        join_mut(
            rt,
            &mut ||
                requires ready { IsReady table.now seat.now }
                ensures ready { IsReady table.entry.now seat.exit.now }
            { answer_seat(page, table, seat, worker, meeting, rows) },
            &mut ||
                requires sync { IsSync R.row × IsSend V.row × IsSync V.row }
                requires ready { IsReady table.now second.now }
                ensures ready { IsReady table.entry.now second.exit.now }
            { answer_seats(rt, below, table, second, next, rest, meeting, rows) },
        );
        join_again(page, table, seat, page_below, other);
    }
}

// A seat with half of the shares, and a page for its rows. Where it has none, no seat is to wait for it.
fn split_off<V: Told>(
    page: &mut Page<V>,
    table: &TxTable<V>,
    seat: &mut TxSeat<V>,
    meeting: &Meeting,
) -> Option<(Page<V>, TxSeat<V>)>
    requires ready { IsReady table.now seat.old }
    ensures ready { IsReady table.now seat.new }
    ensures other { IfSome result (λ split. IsReady table.now split.1) }
{
    let shares = seat.shares() / 2;
    let refusal = match Page::new(page.alloc()) {
        Ok(below) if shares > 0 => return Some((below, seat.split(table, shares))),
        Ok(_) => Refusal::NoSuch,
        Err(_) => Refusal::Memory,
    };
    page.fail(refusal);
    meeting.leave();
    None
}

// Where an allocation failed, the other seat commits a write before it is joined.
fn join_again<V: Told>(
    page: &mut Page<V>,
    table: &TxTable<V>,
    seat: &mut TxSeat<V>,
    below: Page<V>,
    mut other: TxSeat<V>,
)
    requires ready { IsReady table.now seat.old }
    requires other { IsReady table.now other }
    ensures ready { IsReady table.now seat.new }
{
    page.append(below);
    commit_after(page, table, &mut other, AMONG_OTHERS, false);
    seat.join(table, other);
}

// No other seat is to wait for one that answers no more rows.
#[tactic(auto, using(crate::proofs::FitLemmas::rests_fit))]
fn answer_seat<V: Told>(
    page: &mut Page<V>,
    table: &TxTable<V>,
    seat: &mut TxSeat<V>,
    worker: u64,
    meeting: &Meeting,
    rows: &str,
)
    requires ready { IsReady table.now seat.old }
    ensures ready { IsReady table.now seat.new }
{
    resumed::abort(table, seat);
    let mut above = 0u64;
    'rows: for row in rows.lines() {
        answer_at(page, table, seat, Stand { worker, above }, meeting, row);
        above = above.saturating_add(1);
    }
    if page.wants_memory() {
        meeting.leave();
    }
}
