//! A seat that is cut in two, and two that become one.
ghost use Rattle.std.specs.Prelude.{◌≡◌, ◌<◌, ◌≤◌, ℕ, [], max};
ghost use Rattle.shared_table.specs.Opening.{world_at};
ghost use Rattle.shared_table.specs.Shown.{both_of, left_of, right_of};
ghost use Rattle.shared_table.specs.Seated.{IsSameSeat, Owns, Rests, actor, acts, kept, list_of, opening_of, out, view};

use crate::rule::Board;
use crate::seat::{EventsSinceStep, Seat};
use crate::table::TxTable;
use seq_model::Value;
use std::marker::Brand;

fn cut<V: Value>(board: &Board<V>, seat: &mut Seat<V>, shares: u64) -> Seat<V>
    ghost count: { ℕ }
    requires fits { seat.old.place.table_id ≡ board.now.table_id }
    requires inside { 0 < board.now.table_id.words }
    requires count { count ≡ shares }
    requires some { 0 < count }
    requires fewer { count < (view seat.old).shares }
    ensures same { IsSameSeat seat.old seat.new × (list_of seat.new.asked ≡ list_of seat.old.asked) }
    ensures left { seat.new.place.me ≡ (left_of count (view seat.old), out seat.old) }
    ensures right { (result.place.table_id ≡ board.now.table_id) × (result.place.me ≡ (right_of count (view seat.old), [])) }
    ensures new { (list_of result.asked ≡ []) × (result.last ≡ 0) }
{
    let place = board.split_seat::<Brand>(&mut seat.place);
    seat.shares -= shares;
    Seat {
        place,
        asked: EventsSinceStep::Nothing,
        shares,
        last: 0,
    }
}

// By what the load says there are no more than `SHARES` shares, so their sum is no greater either.
fn merge<V: Value>(board: &Board<V>, seat: &mut Seat<V>, other: Seat<V>)
    requires fits { seat.old.place.table_id ≡ board.now.table_id }
    requires other { other.place.table_id ≡ board.now.table_id }
    requires inside { 0 < board.now.table_id.words }
    requires live { 0 < (view seat.old).shares }
    requires alive { 0 < (view other).shares }
    requires rests { Rests other.place.id (kept (world_at board.now.key) other) }
    requires bare { out other ≡ [] }
    ensures same { (seat.new.place.table_id ≡ seat.old.place.table_id) × (seat.new.place.id ≡ seat.old.place.id) }
    ensures asks { list_of seat.new.asked ≡ list_of seat.old.asked }
    ensures both { seat.new.place.me ≡ (both_of (view seat.old) (actor other) (view other), out seat.old) }
    ensures last { seat.new.last ≡ max seat.old.last other.last }
{
    let Seat {
        place,
        asked: _,
        shares,
        last,
    } = other;
    board.join_seat::<Brand>(&mut seat.place, place);
    board.load::<Brand>(&mut seat.place, 0);
    seat.shares += shares;
    seat.last = seat.last.max(last);
}

impl<V: Value> TxTable<V> {
    /// A new seat, which gets so many of this one's shares. It has no receipts, and its last number is 0.
    pub fn split_bare(&self, seat: &mut Seat<V>, shares: u64) -> Seat<V>
        requires own { Owns self.now seat.old }
        requires some { 1 ≤ shares }
        requires fewer { shares < (view seat.old).shares }
        ensures same { IsSameSeat seat.old seat.new }
        ensures acts { acts (opening_of self.now) seat.new ≡ acts (opening_of self.now) seat.old }
        ensures asked { list_of seat.new.asked ≡ list_of seat.old.asked }
        ensures left { seat.new.place.me ≡ (left_of shares (view seat.old), out seat.old) }
        ensures right { (Owns self.now result) × (result.place.me ≡ (right_of shares (view seat.old), [])) }
        ensures new { (list_of result.asked ≡ []) × (result.last ≡ 0) }
    {
        cut(&self.whole.shared, seat, shares)
    }

    /// The other seat's shares and receipts become this one's, and the greater last number. No commit of the other is half done, and it
    /// holds no gate; what it asked since its last step is not asked.
    pub fn join_bare(&self, seat: &mut Seat<V>, other: Seat<V>)
        requires own { (Owns self.now seat.old) × (Owns self.now other) }
        requires live { (0 < (view seat.old).shares) × (0 < (view other).shares) }
        requires rests { Rests (actor other) (kept (opening_of self.now) other) }
        requires bare { out other ≡ [] }
        ensures same { Owns self.now seat.new × (actor seat.new ≡ actor seat.old) }
        ensures acts { acts (opening_of self.now) seat.new ≡ acts (opening_of self.now) seat.old }
        ensures asked { list_of seat.new.asked ≡ list_of seat.old.asked }
        ensures both { seat.new.place.me ≡ (both_of (view seat.old) (actor other) (view other), out seat.old) }
        ensures last { seat.new.last ≡ max seat.old.last other.last }
    {
        merge(&self.whole.shared, seat, other);
    }
}
