//! Transactions that borrow the seat whose rows are answered.
ghost use Rattle.std.specs.Prelude.{◌≡◌};
ghost use Rattle.tx_engine.specs.Ready.{HasBegunSince, IsReady};

use super::calls::{Placed, Style, ask};
use super::ends::{End, end_as};
use crate::shared::{Answer, Meeting, Page, Stand, Told};
use seq_model::Refusal;
use shared_table::TxTable;
use tx_engine::{Tx, TxSeat, begin, begin_read};

/// A transaction makes these calls, and ends so.
pub fn transact<V: Told>(
    page: &mut Page<V>,
    table: &TxTable<V>,
    seat: &mut TxSeat<V>,
    stand: Stand,
    style: Style,
    meeting: &Meeting,
    end: End,
    calls: &[Placed<V>],
) -> Result<Answer<V>, Refusal>
    requires ready { IsReady table.now seat.old }
    ensures ready { IsReady table.now seat.new }
{
    if matches!(end, End::Reads) {
        return read_all(page, table, seat, stand, style, meeting, calls);
    }
    match begin(seat, table) {
        Ok(mut tx) => {
            make_all(page, &mut tx, stand, style, meeting, calls);
            end_as(tx, end)
        }
        Err(refusal) => Err(refusal),
    }
}

// A declared reader, which commits.
fn read_all<V: Told>(
    page: &mut Page<V>,
    table: &TxTable<V>,
    seat: &mut TxSeat<V>,
    stand: Stand,
    style: Style,
    meeting: &Meeting,
    calls: &[Placed<V>],
) -> Result<Answer<V>, Refusal>
    requires ready { IsReady table.now seat.old }
    ensures ready { IsReady table.now seat.new }
{
    match begin_read(seat, table) {
        Ok(mut tx) => {
            make_all(page, &mut tx, stand, style, meeting, calls);
            end_as(tx, End::Reads)
        }
        Err(refusal) => Err(refusal),
    }
}

fn make_all<V: Told>(
    page: &mut Page<V>,
    tx: &mut Tx<'_, V>,
    stand: Stand,
    style: Style,
    meeting: &Meeting,
    calls: &[Placed<V>],
)
    requires ready { IsReady tx.old.table.now tx.old.seat.now }
    requires since { HasBegunSince tx.old.table.now tx.old.seat.now }
    ensures same_reference { tx.new.seat.ghost_name ≡ tx.old.seat.ghost_name }
    ensures same_table { tx.new.table.now ≡ tx.old.table.now }
    ensures ready { IsReady tx.new.table.now tx.new.seat.now }
    ensures since { HasBegunSince tx.new.table.now tx.new.seat.now }
{
    let mut above = stand.above;
    'calls: for placed in calls {
        above = make_placed(page, tx, stand.worker, style, meeting, above, placed);
    }
}

// A call of another seat lets the next row pass, which is that seat's. The row that passed last, or this one, stands below so many.
fn make_placed<V: Told>(
    page: &mut Page<V>,
    tx: &mut Tx<'_, V>,
    worker: u64,
    style: Style,
    meeting: &Meeting,
    above: u64,
    placed: &Placed<V>,
) -> u64
    requires ready { IsReady tx.old.table.now tx.old.seat.now }
    requires since { HasBegunSince tx.old.table.now tx.old.seat.now }
    ensures same_reference { tx.new.seat.ghost_name ≡ tx.old.seat.ghost_name }
    ensures same_table { tx.new.table.now ≡ tx.old.table.now }
    ensures ready { IsReady tx.new.table.now tx.new.seat.now }
    ensures since { HasBegunSince tx.new.table.now tx.new.seat.now }
{
    if u64::from(placed.seat) == worker {
        let answered = ask(tx, style, &placed.call);
        page.hear(Answer::of(answered));
        return above;
    }
    let next = above.saturating_add(1);
    meeting.let_by(next);
    next
}
