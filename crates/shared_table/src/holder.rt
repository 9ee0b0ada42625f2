//! What holds a seat of a table, and runs transactions there.
ghost use Rattle.std.specs.Prelude.{◌≡◌, ◌≢◌, ◌<◌, ◌≤◌, ℕ, IfErr, IfOk, IsOk, length};
ghost use Rattle.seq_model.specs.Contents.{Contents};
ghost use Rattle.seq_model.specs.Refusals.{IsNoSuchOrTooLong};
ghost use Rattle.seq_model.specs.declared.event.Shape.{Shape};
ghost use Rattle.actor_parts.specs.Openings.{IsWithin};
ghost use Rattle.shared_table.specs.Seated.{view};
ghost use Rattle.shared_table.specs.declared.closed.Closed.{Closed};
ghost use Rattle.shared_table.specs.declared.seat.Seat.{Seat};
ghost use Rattle.shared_table.specs.declared.table.TxTable.{TxTable};

use crate::closed::Closed;
use crate::table::TxTable;
use crate::view::SHARES;
use seq_model::{Memory, Refusal, Shape, State, Value};
use std::alloc::Global;

/// A seat with what runs there. When the two are ready, and what they and the table become, it says itself: `TxTable` opens with one,
/// splits and joins them, and closes with the last.
pub trait HoldsSeat<V: Value>: Drop {
    ghost ready: { TxTable V → Self → Type 0 };

    ghost held: { Self → Seat V };

    ghost opens: { Shape → Contents V → TxTable V → Self → Type 0 };

    ghost splits: { TxTable V → ℕ → Self → Self → Self → Type 0 };

    ghost joins: { TxTable V → Self → Self → Self → Type 0 };

    ghost closes: { TxTable V → Self → Closed V → Type 0 };

    fn open_held(
        alloc: Global,
        shape: &Shape,
        state: State<V>,
    ) -> Result<(TxTable<V>, Self), Refusal>
        ensures ready { IfOk result (λ opened. ready opened.0 opened.1) }
        ensures opens { IfOk result (λ opened. opens shape.now state opened.0 opened.1) }
        ensures refused { IfErr result (λ refusal. IsNoSuchOrTooLong refusal (length shape.now.stripes ≢ length state.held)
            (IsWithin shape.now.stripes shape.now.clock state)) }
        ensures fits { IsOk result → (length shape.now.stripes ≡ length state.held) × IsWithin shape.now.stripes shape.now.clock state };

    fn split_held(&mut self, table: &TxTable<V>, shares: u64) -> Self
        requires ready { ready table.now self.old }
        requires some { 1 ≤ shares }
        requires fewer { shares < (view (Self.held self.old)).shares }
        ensures ready { ready table.now self.new × ready table.now result }
        ensures splits { splits table.now shares self.old self.new result };

    fn join_held(&mut self, table: &TxTable<V>, other: Self)
        requires ready { ready table.now self.old }
        requires other { ready table.now other }
        ensures ready { ready table.now self.new }
        ensures joins { joins table.now self.old other self.new };

    fn close_held(self, table: TxTable<V>) -> Result<Closed<V>, Memory>
        requires ready { ready table self }
        requires all { (view (Self.held self)).shares ≡ SHARES }
        ensures served { IsOk result }
        ensures closes { IfOk result (λ closed. closes table self closed) };
}

impl<V: Value> TxTable<V> {
    /// A table that opens with these words and collections, and with this clock, and its first seat, which has all 64 shares. Each
    /// collection is in as many stripes as the shape says. It is refused as `open_bare` is.
    pub fn open<S: HoldsSeat<V>>(
        alloc: Global,
        shape: &Shape,
        state: State<V>,
    ) -> Result<(TxTable<V>, S), Refusal>
        ensures ready { IfOk result (λ opened. S.ready opened.0 opened.1) }
        ensures opens { IfOk result (λ opened. S.opens shape.now state opened.0 opened.1) }
        ensures refused { IfErr result (λ refusal. IsNoSuchOrTooLong refusal (length shape.now.stripes ≢ length state.held)
            (IsWithin shape.now.stripes shape.now.clock state)) }
        ensures fits { IsOk result → (length shape.now.stripes ≡ length state.held) × IsWithin shape.now.stripes shape.now.clock state }
    {
        S::open_held(alloc, shape, state)
    }

    /// A new seat, which gets so many of this one's shares. It has no receipts, and its last number is 0.
    pub fn split<S: HoldsSeat<V>>(&self, seat: &mut S, shares: u64) -> S
        requires ready { S.ready self.now seat.old }
        requires some { 1 ≤ shares }
        requires fewer { shares < (view (S.held seat.old)).shares }
        ensures ready { S.ready self.now seat.new × S.ready self.now result }
        ensures splits { S.splits self.now shares seat.old seat.new result }
    {
        seat.split_held(self, shares)
    }

    /// The other seat's shares and receipts become this one's, and the greater last number.
    pub fn join<S: HoldsSeat<V>>(&self, seat: &mut S, other: S)
        requires ready { S.ready self.now seat.old }
        requires other { S.ready self.now other }
        ensures ready { S.ready self.now seat.new }
        ensures joins { S.joins self.now seat.old other seat.new }
    {
        seat.join_held(self, other);
    }

    /// What the table holds, once every seat was joined into this one. It takes no memory, so it is never refused.
    pub fn close<S: HoldsSeat<V>>(self, seat: S) -> Result<Closed<V>, Memory>
        requires ready { S.ready self seat }
        requires all { (view (S.held seat)).shares ≡ SHARES }
        ensures served { IsOk result }
        ensures closes { IfOk result (λ closed. S.closes self seat closed) }
    {
        seat.close_held(self)
    }
}
