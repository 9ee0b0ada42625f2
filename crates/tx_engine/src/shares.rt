//! The seats of a table: its first one, seats that are split and joined, and the last one, which closes it.
ghost use Rattle.std.specs.Prelude.{◌≡◌, ◌≢◌, ◌<◌, ◌≤◌, [], IfErr, IfOk, IsOk, length, map, max};
ghost use mathlib.Core.Option.{some};
ghost use Rattle.seq_model.specs.Refusals.{IsNoSuchOrTooLong};
ghost use Rattle.actor_parts.specs.Openings.{IsWithin, blocks_of, world_of};
ghost use Rattle.shared_table.specs.Ends.{homes_of, row_of};
ghost use Rattle.shared_table.specs.Seated.{actor, acts, blocks_in, contents_in, locations_in, opening_of, view, words_in};
ghost use Rattle.shared_table.specs.Shown.{ShowsWorld, both_of, first as first_view, left_of, right_of};
ghost use Rattle.tx_turns.specs.RequestHistory.{requests_of};
ghost use Rattle.tx_engine.specs.Closing.{IsLeftBy};
ghost use Rattle.tx_engine.specs.Ready.{IsReady};

use crate::seats::TxSeat;
use seq_model::{Memory, Refusal, Shape, State, Value};
use shared_table::{Closed, SHARES, Seat, TxTable};
use std::alloc::Global;

impl<V: Value> TxSeat<V> {
    /// A table that opens with these words and collections, and with this clock, and its first seat, which has all 64 shares. It is refused
    /// as `TxTable::open_bare` is.
    pub fn open(
        alloc: Global,
        shape: &Shape,
        state: State<V>,
    ) -> Result<(TxTable<V>, TxSeat<V>), Refusal>
        ensures ready { IfOk result (λ opened. IsReady opened.0 opened.1) }
        ensures opens { IfOk result (λ opened. opening_of opened.0 ≡ world_of shape.now.stripes shape.now.clock state) }
        ensures blocks { IfOk result (λ opened. blocks_in opened.0 ≡ blocks_of shape.now.stripes state.held) }
        ensures contents { IfOk result (λ opened. contents_in opened.0 ≡ state) }
        ensures first { IfOk result (λ opened. (view opened.1.seat ≡ first_view) × (opened.1.seat.last ≡ 0)) }
        ensures asks { IfOk result (λ opened. requests_of opened.1.seat ≡ []) }
        ensures refused { IfErr result (λ refusal. IsNoSuchOrTooLong refusal (length shape.now.stripes ≢ length state.held)
            (IsWithin shape.now.stripes shape.now.clock state)) }
        ensures fits { IsOk result → (length shape.now.stripes ≡ length state.held) × IsWithin shape.now.stripes shape.now.clock state }
    {
        // Called for its contract alone: the collections are within the limits of a state.
        let _ = state.held();
        let (table, seat) = TxTable::open_bare(alloc, shape, state)?;
        let seat = TxSeat::new(alloc, &table, seat);
        Ok((table, seat))
    }

    /// How many of the table's 64 shares this seat has.
    pub fn shares(&self) -> u64
        ensures { result ≡ (view self.now.seat).shares }
    {
        self.seat.shares()
    }

    /// A new seat, which gets so many of this one's shares. It has no receipts, its last number is 0, and its actor was asked nothing. A
    /// transaction that is open here is unchanged.
    pub fn split(&mut self, table: &TxTable<V>, shares: u64) -> TxSeat<V>
        requires ready { IsReady table.now self.old }
        requires some { 1 ≤ shares }
        requires fewer { shares < (view self.old.seat).shares }
        ensures ready { IsReady table.now self.new × IsReady table.now result }
        ensures same { actor self.new.seat ≡ actor self.old.seat }
        ensures own { acts (opening_of table.now) self.new.seat ≡ acts (opening_of table.now) self.old.seat }
        ensures asks { (requests_of self.new.seat ≡ requests_of self.old.seat) × (requests_of result.seat ≡ []) }
        ensures left { (view self.new.seat ≡ left_of shares (view self.old.seat)) × (self.new.seat.last ≡ self.old.seat.last) }
        ensures right { (view result.seat ≡ right_of shares (view self.old.seat)) × (result.seat.last ≡ 0) }
    {
        let seat = table.split_bare(&mut self.seat, shares);
        TxSeat::new(self.alloc, table, seat)
    }

    /// The other seat's shares and receipts become this one's, and the greater last number. A transaction that is open here is unchanged;
    /// one that was left open there is not committed any more.
    pub fn join(&mut self, table: &TxTable<V>, other: TxSeat<V>)
        requires ready { IsReady table.now self.old }
        requires other { IsReady table.now other }
        ensures ready { IsReady table.now self.new }
        ensures same { actor self.new.seat ≡ actor self.old.seat }
        ensures own { acts (opening_of table.now) self.new.seat ≡ acts (opening_of table.now) self.old.seat }
        ensures asks { requests_of self.new.seat ≡ requests_of self.old.seat }
        ensures both { view self.new.seat ≡ both_of (view self.old.seat) (actor other.seat) (view other.seat) }
        ensures last { self.new.seat.last ≡ max self.old.seat.last other.seat.last }
    {
        table.join_bare(&mut self.seat, other.into_seat());
    }

    /// What the table holds, once every seat was joined into this one: it is what the receipts leave, one transaction after another. It
    /// takes no memory, so it is never refused.
    pub fn close(self, table: TxTable<V>) -> Result<Closed<V>, Memory>
        requires ready { IsReady table self }
        requires all { (view self.seat).shares ≡ SHARES }
        ensures served { IsOk result }
        ensures words { IfOk result (λ closed. closed.words ≡ words_in table) }
        ensures locations { IfOk result (λ closed. closed.locations ≡ locations_in table) }
        ensures collections { IfOk result (λ closed. length (homes_of closed) ≡ length (blocks_in table)) }
        ensures left { IfOk result (IsLeftBy (contents_in table) (view self.seat).receipts) }
        ensures shows { IfOk result (λ closed.
            ShowsWorld (opening_of table) (actor self.seat) (view self.seat) (row_of closed) (map some (homes_of closed))) }
    {
        Ok(table.into_closed(self.into_seat()))
    }
}
