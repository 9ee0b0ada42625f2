//! How a table opens.
ghost use Rattle.std.specs.Prelude.{◌≡◌, IfOk};
ghost use Rattle.shared_table.specs.Seated.{view};
ghost use Rattle.tx_engine.specs.Ready.{IsReady};

use seq_model::{Refusal, Shape, State, Value};
use shared_table::TxTable;
use std::alloc::Global;
use tx_engine::TxSeat;

/// The table of this shape and opening, and its first seat, which has all shares.
pub fn open<V: Value>(
    alloc: Global,
    shape: &Shape,
    opening: &State<V>,
) -> Result<(TxTable<V>, TxSeat<V>), Refusal>
    ensures ready { IfOk result (λ opened. IsReady opened.0 opened.1) }
    ensures shares { IfOk result (λ opened. (view opened.1.seat).shares ≡ 64) }
{
    let state = opening.try_copy(alloc)?;
    TxSeat::open(alloc, shape, state)
}
