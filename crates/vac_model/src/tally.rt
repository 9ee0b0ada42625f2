//! Tallies: how much there is of each number.
ghost use Rattle.std.specs.Prelude.{◌≡◌, IfOk, OnOk, fold};
ghost use Rattle.vac_model.specs.Holdings as holdings;
ghost use Rattle.vac_model.specs.Tallies as tallies;

use crate::choosing::same_kind;
use crate::each::Each;
use crate::item::{Booking, Customer, Kind, Wait};
use crate::tables::Tables;
use seq_model::{Entries, Memory};
use std::alloc::Global;

pub(crate) fn counted(tally: &Entries<u64>, id: u64) -> u64
    ensures { result ≡ tallies.counted tally.now id }
{
    tally.get(id).copied().unwrap_or(0)
}

pub(crate) fn add(tally: &mut Entries<u64>, id: u64, more: u64) -> Result<(), Memory>
    ensures { OnOk result (tally.new ≡ tallies.with_more id more tally.old) }
{
    let sum = counted(tally, id).saturating_add(more);
    tally.insert(id, sum)?;
    Ok(())
}

pub(crate) fn add_units(
    tally: &mut Entries<u64>,
    kind: Kind,
    bookings: &[Booking],
) -> Result<(), Memory>
    ensures { OnOk result (tally.new ≡ fold (tallies.with_units kind) tally.old bookings.now) }
{
    for booking in bookings {
        if same_kind(booking.kind, kind) {
            add(tally, booking.id, booking.units)?;
        }
    }
    Ok(())
}

pub(crate) fn add_bookings(
    tally: &mut Entries<u64>,
    kind: Kind,
    bookings: &[Booking],
) -> Result<(), Memory>
    ensures { OnOk result (tally.new ≡ fold (tallies.with_booking kind) tally.old bookings.now) }
{
    for booking in bookings {
        if same_kind(booking.kind, kind) {
            add(tally, booking.id, 1)?;
        }
    }
    Ok(())
}

pub(crate) fn add_waits(tally: &mut Entries<u64>, kind: Kind, waits: &[Wait]) -> Result<(), Memory>
    ensures { OnOk result (tally.new ≡ fold (tallies.with_wait kind) tally.old waits.now) }
{
    for wait in waits {
        if same_kind(wait.kind, kind) {
            add(tally, wait.id, 1)?;
        }
    }
    Ok(())
}

pub(crate) fn add_awaited(tally: &mut Entries<u64>, waits: &[Wait]) -> Result<(), Memory>
    ensures { OnOk result (tally.new ≡ fold tallies.with_awaited tally.old waits.now) }
{
    for wait in waits {
        add(tally, wait.ticket, 1)?;
    }
    Ok(())
}

pub(crate) fn add_tickets(tally: &mut Entries<u64>, tickets: &[u64]) -> Result<(), Memory>
    ensures { OnOk result (tally.new ≡ fold tallies.with_ticket tally.old tickets.now) }
{
    for ticket in tickets {
        add(tally, *ticket, 1)?;
    }
    Ok(())
}

pub(crate) fn of_kind(tallies: &Each<Entries<u64>>, kind: Kind) -> &Entries<u64>
    ensures { result.now ≡ holdings.of_kind kind tallies.now }
{
    match kind {
        Kind::Car => &tallies.car,
        Kind::Flight => &tallies.flight,
        Kind::Room => &tallies.room,
    }
}

// ---- of the tables

/// The units that are booked of each item of a kind.
pub(crate) fn units_tally(
    alloc: Global,
    tables: &Tables,
    kind: Kind,
) -> Result<Entries<u64>, Memory>
    ensures { IfOk result (λ tally. tally ≡ tallies.units_tally kind tables.now) }
{
    let mut tally = Entries::new(alloc);
    for (_, who) in tables.customers() {
        add_units(&mut tally, kind, who.bookings.as_slice())?;
    }
    Ok(tally)
}

/// How many waits have each ticket.
pub(crate) fn awaited_tally(alloc: Global, tables: &Tables) -> Result<Entries<u64>, Memory>
    ensures { IfOk result (λ tally. tally ≡ tallies.awaited_tally tables.now) }
{
    let mut tally = Entries::new(alloc);
    for (_, who) in tables.customers() {
        add_awaited(&mut tally, who.waits.as_slice())?;
    }
    Ok(tally)
}

fn queued_tally(alloc: Global, tables: &Tables, kind: Kind) -> Result<Entries<u64>, Memory>
    ensures { IfOk result (λ tally. tally ≡ tallies.queued_tally kind tables.now) }
{
    let mut tally = Entries::new(alloc);
    let (front, back) = tables.waiting(kind).tickets.as_slices();
    add_tickets(&mut tally, front)?;
    add_tickets(&mut tally, back)?;
    Ok(tally)
}

/// How often each ticket stands in each queue.
pub(crate) fn queued_tallies(alloc: Global, tables: &Tables) -> Result<Each<Entries<u64>>, Memory>
    ensures { IfOk result (λ queued. queued ≡ tallies.queued_tallies tables.now) }
{
    let car = queued_tally(alloc, tables, Kind::Car)?;
    let flight = queued_tally(alloc, tables, Kind::Flight)?;
    let room = queued_tally(alloc, tables, Kind::Room)?;
    Ok(Each { car, flight, room })
}

fn had_tally(alloc: Global, who: &Customer, kind: Kind) -> Result<Entries<u64>, Memory>
    ensures { IfOk result (λ tally. tally ≡ tallies.had_tally kind who.now) }
{
    let mut tally = Entries::new(alloc);
    add_bookings(&mut tally, kind, who.bookings.as_slice())?;
    add_waits(&mut tally, kind, who.waits.as_slice())?;
    Ok(tally)
}

/// How often a customer holds or awaits each item.
pub(crate) fn had_tallies(alloc: Global, who: &Customer) -> Result<Each<Entries<u64>>, Memory>
    ensures { IfOk result (λ had. had ≡ tallies.had_tallies who.now) }
{
    let car = had_tally(alloc, who, Kind::Car)?;
    let flight = had_tally(alloc, who, Kind::Flight)?;
    let room = had_tally(alloc, who, Kind::Room)?;
    Ok(Each { car, flight, room })
}
