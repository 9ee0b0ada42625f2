//! Where the seats of lent clients come back.
//!
//! A lent client may be dropped in any thread, so nobody can hand its seat to the lender. It leaves the seat in its home, which the
//! client and the lender both own. A home takes seats of one table alone, its tag: so a seat that is found there fits, whoever left it.
//!
//! A home waits for the seat of its client (`FREE`), or has it (`PRESENT`), or is idle until another client gets it (`MARKED`).
ghost use Rattle.std.specs.Prelude.{◌≡◌, All, IfOk, IfSome};
ghost use Rattle.std.specs.Arc.{arc_value};
ghost use Rattle.tx_client.specs.Backs.{IsBack};
ghost use Rattle.wolimevar.specs.Homes.{IsHomeOf};

use counted_slot::{Counted, FREE, Fits, MARKED, PRESENT, TAKEN};
use seq_model::{Memory, Value};
use shared_table::TxTable;
use std::alloc::Global;
use std::snapshot::Snapshot;
use std::sync::Arc;
use tx_engine::TxSeat;

/// A seat that has come back.
#[derive(Drop)]
pub(crate) struct Back<V> {
    pub(crate) seat: TxSeat<V>,
}

impl<V> Fits for Back<V> {
    type Tag = Snapshot<TxTable<V>>;

    ghost fits = { λ t x. IsBack t.value x.seat };
}

/// Where the seat of a client comes back.
#[derive(Drop)]
pub(crate) struct Home<V> {
    pub(crate) slot: Arc<Counted<Option<Back<V>>>>,
}

/// A table that a client owns with others, and the client's home.
#[derive(Drop)]
pub(crate) struct Own<V> {
    pub(crate) table: Arc<TxTable<V>>,
    pub(crate) home: Home<V>,
    ghost same: { (arc_value home.slot).value ≡ arc_value table },
}

fn slot_at<V>(table: &TxTable<V>) -> Counted<Option<Back<V>>>
    ensures { result.value ≡ table.now }
{
    Counted::new(None, &Snapshot::of(table))
}

impl<V: Drop> Home<V> {
    /// A home that waits for a seat of this table.
    fn new(alloc: Global, table: &TxTable<V>) -> Result<Home<V>, Memory>
        ensures { IfOk result (IsHomeOf table.now) }
    {
        let slot = Arc::new(alloc, slot_at(table))?;
        Ok(Home { slot })
    }

    /// One more owner of it.
    fn again(&self) -> Result<Home<V>, Memory>
        ensures { IfOk result (IsHomeOf (arc_value self.now.slot).value) }
    {
        let slot = Arc::try_clone(&self.slot)?;
        Ok(Home { slot })
    }

    /// The client leaves its seat. Nobody else changes a home that waits, so the turn is never refused.
    pub(crate) fn leave(&self, seat: TxSeat<V>)
        requires { IsBack (arc_value self.now.slot).value seat }
    {
        let (found, claim) = self.slot.turn(FREE, TAKEN);
        if found == FREE {
            claim.put(Some(Back { seat }), PRESENT);
        } else {
            claim.done();
        }
    }

    /// The lender takes the seat, if it has come back.
    pub(crate) fn take(&self) -> Option<TxSeat<V>>
        ensures { IfSome result (IsBack (arc_value self.now.slot).value) }
    {
        let (found, claim) = self.slot.turn(PRESENT, TAKEN);
        if found != PRESENT {
            claim.done();
            return None;
        }
        let back = claim.put(None, MARKED)?;
        Some(back.seat)
    }

    /// Whether it was idle. Then it waits for a seat again.
    fn wait_again(&self) -> bool {
        let (found, claim) = self.slot.turn(MARKED, TAKEN);
        if found != MARKED {
            claim.done();
            return false;
        }
        claim.put(None, FREE);
        true
    }
}

/// A home that was idle, if there is one.
fn idle_home<V: Drop>(table: &TxTable<V>, homes: &[Home<V>]) -> Option<Home<V>>
    requires own { All (IsHomeOf table.now) homes.now }
    ensures home { IfSome result (IsHomeOf table.now) }
{
    let _ = table;
    for home in homes {
        if let Ok(home) = home.again() {
            if home.wait_again() {
                return Some(home);
            }
        }
    }
    None
}

/// A home for one more client, which the list has too. It is an idle one, if there is one.
pub(crate) fn home_for<V: Drop>(
    alloc: Global,
    table: &TxTable<V>,
    homes: &mut Vec<Home<V>>,
) -> Result<Home<V>, Memory>
    requires own { All (IsHomeOf table.now) homes.old.items }
    ensures own { All (IsHomeOf table.now) homes.new.items }
    ensures home { IfOk result (IsHomeOf table.now) }
{
    if let Some(home) = idle_home(table, homes.as_slice()) {
        return Ok(home);
    }
    let home = Home::new(alloc, table)?;
    homes.push(home.again()?)?;
    Ok(home)
}
