//! A table of such values, from its opening to the audit of its receipts.
ghost use Rattle.std.specs.Prelude.{◌≡◌};
ghost use Rattle.shared_table.specs.Seated.{view};
ghost use Rattle.tx_engine.specs.Ready.{IsReady};

use super::races::race;
use super::rations::{Ration, Rationed, one_stripe};
use super::seats::refuse;
use super::waits::hold;
use crate::shared::{audit_receipts, close, open};
use seq_model::{Record, Refusal, State};
use shared_table::TxTable;
use std::sync::Wait;
use std::thread::Threads;
use tx_engine::TxSeat;

/// No work has more receipts.
const RECEIPTS: usize = 5;

/// What came of a work: whether a copy was refused.
pub type Made = Result<bool, Refusal>;

/// What is done at a table.
#[derive(Clone, Copy)]
pub enum Work {
    /// The copy at this position is refused, of all that are made at a seat.
    Refused(u64),
    /// The copy at this position is refused, of all that so many workers make, two or four.
    Raced(u64, usize),
    /// A worker's commit is held.
    Held,
}

/// A table on which this work is done, and what came of it. What the table holds is what the receipts leave; `NotIdle` where it isn't so.
pub fn on_table<R: Threads + Wait + Sync>(rt: &R, text: &mut String, work: Work) -> Made {
    let alloc = *text.allocator();
    let ration = Ration::new(alloc)?;
    let opening = ration.opening(alloc)?;
    // With room for all receipts before the table opens, so that none of them is lost.
    let mut receipts = Vec::with_capacity(alloc, RECEIPTS)?;
    let (made, last) = run(rt, text, &ration, &opening, work, &mut receipts)?;
    audit_receipts(alloc, &opening, receipts.as_slice(), &last)?;
    made
}

fn run<R: Threads + Wait + Sync>(
    rt: &R,
    text: &mut String,
    ration: &Ration,
    opening: &State<Rationed>,
    work: Work,
    receipts: &mut Vec<Record<Rationed>>,
) -> Result<(Made, State<Rationed>), Refusal> {
    let alloc = *text.allocator();
    let shape = one_stripe(alloc)?;
    let (table, mut seat) = open(alloc, &shape, opening)?;
    let made = work_at(rt, text, ration, &table, &mut seat, work, receipts);
    let closed = close(table, seat)?;
    Ok((made, closed.state()?))
}

fn work_at<R: Threads + Wait + Sync>(
    rt: &R,
    text: &mut String,
    ration: &Ration,
    table: &TxTable<Rationed>,
    seat: &mut TxSeat<Rationed>,
    work: Work,
    receipts: &mut Vec<Record<Rationed>>,
) -> Made
    requires ready { IsReady table.now seat.old }
    requires shares { (view seat.old.seat).shares ≡ 64 }
    ensures ready { IsReady table.now seat.new }
{
    let alloc = *text.allocator();
    match work {
        Work::Refused(place) => refuse(table, seat, ration, place, receipts),
        Work::Raced(place, workers) => {
            race(rt, alloc, ration, table, seat, place, workers, receipts)
        }
        Work::Held => hold(rt, text, ration, table, seat, receipts),
    }
}
