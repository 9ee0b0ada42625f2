//! One atomic step on the table, the one that is next for a seat.
ghost use Rattle.std.specs.Prelude.{◌≡◌, ◌≢◌, ◌<◌};
ghost use Rattle.shared_table.specs.Seated.{Owns, locations_in, opening_of, view};
ghost use Rattle.tx_turns.specs.NextStep.{IsWithin};
ghost use Rattle.tx_turns.specs.Touches.{Awaits, IsInWord, Touches};

use crate::due::NextStep;
use seq_model::Value;
use shared_table::{Seat, TxTable};

// A lock that is tried: the number that was found.
fn try_lock<V: Value>(table: &TxTable<V>, seat: &mut Seat<V>, location: u32, old: u64) -> u64
    requires own { Owns table.now seat.old }
    requires live { 0 < (view seat.old).shares }
    requires inside { location < locations_in table.now }
    requires room { IsInWord (NextStep.Lock location old) }
    requires due { Awaits (opening_of table.now) seat.old (NextStep.Lock location old) }
    ensures { Touches (opening_of table.now) seat.old (NextStep.Lock location old) result seat.new }
{
    match table.lock(seat, location, old) {
        None => old,
        Some(found) => found,
    }
}

/// The atomic step that is next for a seat, and the number that it found.
#[inline(always)]
pub(crate) fn touch<V: Value>(table: &TxTable<V>, seat: &mut Seat<V>, due: NextStep) -> u64
    requires own { Owns table.now seat.old }
    requires live { 0 < (view seat.old).shares }
    requires inside { IsWithin (locations_in table.now) due }
    requires some { due ≢ NextStep.Nothing }
    requires room { IsInWord due }
    requires due { Awaits (opening_of table.now) seat.old due }
    ensures { Touches (opening_of table.now) seat.old due result seat.new }
{
    match due {
        NextStep::Nothing => unreachable!(),
        NextStep::LoadClock => table.load_clock(seat),
        NextStep::AddToClock => table.stamp(seat),
        NextStep::LoadLock(location) => table.load_lock(seat, location),
        NextStep::LoadValue(location) => table.load_value(seat, location),
        NextStep::Lock(location, old) => try_lock(table, seat, location, old),
        NextStep::StoreValue(location, value) => {
            table.store_value(seat, location, value);
            value
        }
        NextStep::StoreLock(location, word) => {
            table.store_lock(seat, location, word);
            word
        }
    }
}
