//! The table opens, splits, joins and closes with seats that run transactions.
ghost use Rattle.std.specs.Prelude.{◌≡◌, ◌≢◌, ◌<◌, ◌≤◌, IfErr, IfOk, IsOk, length};
ghost use Rattle.seq_model.specs.Refusals.{IsNoSuchOrTooLong};
ghost use Rattle.actor_parts.specs.Openings.{IsWithin};
ghost use Rattle.shared_table.specs.Seated.{view};
ghost use Rattle.tx_engine.specs.Holder.{Closes, Joins, Opens, Splits};
ghost use Rattle.tx_engine.specs.Ready.{IsReady};

use crate::seats::TxSeat;
use seq_model::{Memory, Refusal, Shape, State, Value};
use shared_table::{Closed, HoldsSeat, SHARES, TxTable};
use std::alloc::Global;

impl<V: Value> HoldsSeat<V> for TxSeat<V> {
    ghost ready = { λ t s. IsReady t s };

    ghost held = { λ s. s.seat };

    ghost opens = { λ shape state t s. Opens shape state t s };

    ghost splits = { λ t shares s u r. Splits t shares s u r };

    ghost joins = { λ t s other u. Joins t s other u };

    ghost closes = { λ t s c. Closes t s c };

    fn open_held(
        alloc: Global,
        shape: &Shape,
        state: State<V>,
    ) -> Result<(TxTable<V>, TxSeat<V>), Refusal>
        ensures ready { IfOk result (λ opened. IsReady opened.0 opened.1) }
        ensures opens { IfOk result (λ opened. Opens shape.now state opened.0 opened.1) }
        ensures refused { IfErr result (λ refusal. IsNoSuchOrTooLong refusal (length shape.now.stripes ≢ length state.held)
            (IsWithin shape.now.stripes shape.now.clock state)) }
        ensures fits { IsOk result → (length shape.now.stripes ≡ length state.held) × IsWithin shape.now.stripes shape.now.clock state }
    {
        TxSeat::open(alloc, shape, state)
    }

    fn split_held(&mut self, table: &TxTable<V>, shares: u64) -> TxSeat<V> {
        self.split(table, shares)
    }

    fn join_held(&mut self, table: &TxTable<V>, other: TxSeat<V>) {
        self.join(table, other);
    }

    fn close_held(self, table: TxTable<V>) -> Result<Closed<V>, Memory>
        requires ready { IsReady table self }
        requires all { (view self.seat).shares ≡ SHARES }
        ensures served { IsOk result }
        ensures closes { IfOk result (λ closed. Closes table self closed) }
    {
        self.close(table)
    }
}
