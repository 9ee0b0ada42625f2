//! The making of changes: first those for which an allocation can fail, and then the others.
ghost use Rattle.std.specs.Prelude.{◌≡◌, ◌<◌, OnOk, OnErr};
ghost use Rattle.vac_model.specs.Balanced.{IsBalanced};
ghost use Rattle.vac_model.specs.Makings as makings;
ghost use Rattle.vac_model.specs.Overlays.{laid_each, with_changes};

use crate::changes::{TableChanges, admit, settle, withdraw};
use crate::each::Each;
use crate::item::Item;
use crate::moves::Moves;
use crate::queue::Queue;
use crate::tables::Tables;
use seq_model::{Entries, Items, Memory};

/// The keys that were added to the maps, and how long the queues were before.
#[derive(Drop)]
pub(crate) struct Added {
    items: Each<Items<u64>>,
    customers: Items<u64>,
    tickets: Items<u64>,
    lens: Each<usize>,
}

fn admit_items(
    items: &mut Each<Entries<Item>>,
    changes: &Each<Entries<Option<Item>>>,
    added: &mut Each<Items<u64>>,
) -> Result<(), Memory>
    ensures back { makings.each_without items.new added.new ≡ makings.each_without items.old added.old }
    ensures elsewhere { makings.AreEachAlike changes.now items.old items.new }
    ensures ok { OnOk result (makings.HaveEachPlaces items.new changes.now) }
{
    admit(&mut items.car, &changes.car, &mut added.car)?;
    admit(&mut items.flight, &changes.flight, &mut added.flight)?;
    admit(&mut items.room, &changes.room, &mut added.room)
}

fn withdraw_items(items: &mut Each<Entries<Item>>, added: &Each<Items<u64>>)
    ensures { items.new ≡ makings.each_without items.old added.now }
{
    withdraw(&mut items.car, added.car.as_slice());
    withdraw(&mut items.flight, added.flight.as_slice());
    withdraw(&mut items.room, added.room.as_slice());
}

fn settle_items(items: &mut Each<Entries<Item>>, changes: Each<Entries<Option<Item>>>)
    requires { makings.HaveEachPlaces items.old changes }
    ensures { items.new ≡ laid_each items.old changes }
{
    settle(&mut items.car, changes.car);
    settle(&mut items.flight, changes.flight);
    settle(&mut items.room, changes.room);
}

fn extend_queues(lines: &mut Each<Queue>, moves: &Each<Moves>) -> Result<(), Memory>
    ensures back { makings.each_cut lines.new (makings.lens lines.old) ≡ lines.old }
    ensures ok { OnOk result (lines.new ≡ makings.each_extended lines.old moves.now) }
{
    lines.car.tickets.append(&moves.car.given)?;
    lines.flight.tickets.append(&moves.flight.given)?;
    lines.room.tickets.append(&moves.room.given)
}

impl Tables {
    fn nothing_added(&self) -> Added
        ensures { result ≡ makings.nothing_added self.now }
    {
        let alloc = self.allocator();
        Added {
            items: Each {
                car: Items::new(alloc),
                flight: Items::new(alloc),
                room: Items::new(alloc),
            },
            customers: Items::new(alloc),
            tickets: Items::new(alloc),
            lens: Each {
                car: self.waiting.car.tickets.len(),
                flight: self.waiting.flight.tickets.len(),
                room: self.waiting.room.tickets.len(),
            },
        }
    }

    /// Adds what is new, and notes it.
    fn admit(&mut self, changes: &TableChanges, added: &mut Added) -> Result<(), Memory>
        requires { added.old ≡ makings.nothing_added self.old }
        ensures back { makings.taken_back self.new added.new ≡ self.old }
        ensures ok { OnOk result (makings.IsAdmitted changes.now self.old self.new) }
        ensures lens { added.new.lens ≡ added.old.lens }
    {
        admit_items(&mut self.items, &changes.items, &mut added.items)?;
        admit(
            &mut self.customers,
            &changes.customers,
            &mut added.customers,
        )?;
        admit(&mut self.tickets, &changes.tickets, &mut added.tickets)?;
        extend_queues(&mut self.waiting, &changes.waiting)
    }

    /// Takes out again what was added.
    fn withdraw(&mut self, added: &Added)
        ensures { self.new ≡ makings.taken_back self.old added.now }
    {
        withdraw_items(&mut self.items, &added.items);
        withdraw(&mut self.customers, added.customers.as_slice());
        withdraw(&mut self.tickets, added.tickets.as_slice());
        self.waiting.car.tickets.truncate(added.lens.car);
        self.waiting.flight.tickets.truncate(added.lens.flight);
        self.waiting.room.tickets.truncate(added.lens.room);
    }

    /// Makes the changes, each of which has its place.
    fn settle(&mut self, changes: TableChanges, lens: Each<usize>)
        requires places { makings.HasAllPlaces changes self.old }
        requires heads { makings.AreHeadsWithin self.old changes }
        ensures { self.new ≡ makings.settled self.old changes lens }
    {
        settle_items(&mut self.items, changes.items);
        settle(&mut self.customers, changes.customers);
        settle(&mut self.tickets, changes.tickets);
        self.waiting.car.take_off(
            changes.waiting.car.off,
            changes.waiting.car.taken.min(lens.car),
        );
        self.waiting.flight.take_off(
            changes.waiting.flight.off,
            changes.waiting.flight.taken.min(lens.flight),
        );
        self.waiting.room.take_off(
            changes.waiting.room.off,
            changes.waiting.room.taken.min(lens.room),
        );
        self.next = changes.next;
    }

    /// Makes the changes, or none of them where an allocation fails.
    pub(crate) fn make(&mut self, changes: TableChanges) -> Result<(), Memory>
        requires { IsBalanced (with_changes self.old changes) }
        ensures ok { OnOk result (self.new ≡ with_changes self.old changes) }
        ensures err { OnErr result (self.new ≡ self.old) }
    {
        let mut added = self.nothing_added();
        if let Err(refusal) = self.admit(&changes, &mut added) {
            self.withdraw(&added);
            return Err(refusal);
        }
        self.settle(changes, added.lens);
        Ok(())
    }
}
