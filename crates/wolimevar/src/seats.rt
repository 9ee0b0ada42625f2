//! Seats of one share, split off a store's seat for clients.
//!
//! A client's seat is in a box, so that it goes from call to call as a pointer. Where no box can be had, the seat that was split off is
//! joined again: it has nothing but its share, so what contracts see of the store's seat is as before.
ghost use Rattle.std.specs.Prelude.{◌<◌, IfOk, OnErr, OnOk};
ghost use Rattle.shared_table.specs.Seated.{view};
ghost use Rattle.tx_engine.specs.Ready.{IsReady};
ghost use Rattle.wolimevar.specs.Splits.{HasLeft, IsUnused};

use actor_parts::Boxed;
use seq_model::{Memory, Value};
use shared_table::TxTable;
use std::alloc::Global;
use tx_engine::TxSeat;

/// Joins a seat again that was split off and not used.
pub(crate) fn join_unused<V: Value>(table: &TxTable<V>, seat: &mut TxSeat<V>, own: TxSeat<V>)
    requires ready { IsReady table.now seat.old }
    requires unused { IsUnused table.now own }
    ensures ready { IsReady table.now seat.new }
    ensures joined { HasLeft 1 seat.new.seat seat.old.seat }
{
    seat.join(table, own);
}

/// Splits a seat of one share off, into a box of its own.
pub(crate) fn split_off<V: Value>(
    alloc: Global,
    table: &TxTable<V>,
    seat: &mut TxSeat<V>,
) -> Result<Boxed<TxSeat<V>>, Memory>
    requires ready { IsReady table.now seat.old }
    requires fewer { 1 < (view seat.old.seat).shares }
    ensures ready { IsReady table.now seat.new }
    ensures unused { IfOk result (IsUnused table.now) }
    ensures left { OnOk result (HasLeft 1 seat.old.seat seat.new.seat) }
    ensures none { OnErr result (HasLeft 0 seat.old.seat seat.new.seat) }
{
    let own = seat.split(table, 1);
    match Boxed::try_new(alloc, own) {
        Ok(own) => Ok(own),
        Err(own) => {
            join_unused(table, seat, own);
            Err(Memory)
        }
    }
}
