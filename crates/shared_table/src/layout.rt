//! Where the words of a table are.
ghost use Rattle.std.specs.Prelude.{◌≡◌, ◌+◌, ◌<◌, length};
ghost use Rattle.tx_machine.specs.Cells.{LockCell, ValueCell};
ghost use Rattle.shared_table.specs.Layout.{address, gate_address, stride};
ghost use Rattle.shared_table.specs.Seated.{blocks_in, locations_in};

use crate::table::TxTable;
use seq_model::Value;

/// In a table of at most so many locations each is in a line of the cache of its own.
pub(crate) const WIDE_LIMIT: usize = 4096;

/// How many words lie from one location to the next, in a table of so many.
#[inline(always)]
pub(crate) fn stride(locations: usize) -> usize
    ensures { result ≡ stride locations }
{
    if locations <= WIDE_LIMIT { 8 } else { 2 }
}

impl<V: Value> TxTable<V> {
    /// Where the lock word of a location is; its value is right after it.
    #[inline(always)]
    pub(crate) fn lock_index(&self, location: u32) -> usize
        requires { location < locations_in self.now }
        ensures lock { result ≡ address (locations_in self.now) (LockCell location) }
        ensures value { result + 1 ≡ address (locations_in self.now) (ValueCell location) }
        ensures inside { result + 1 < self.now.whole.shared.table_id.words }
    {
        8 + stride(self.locations) * location as usize
    }

    /// Where the gate of a collection is.
    #[inline(always)]
    pub(crate) fn gate_index(&self, collection: u32) -> usize
        requires { collection < length (blocks_in self.now) }
        ensures place { result ≡ gate_address (locations_in self.now) collection }
        ensures inside { result < self.now.whole.shared.table_id.words }
    {
        16 + stride(self.locations) * self.locations + 8 * collection as usize
    }
}
