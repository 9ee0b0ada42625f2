//! The tests of balance, each by tallies.
ghost use Rattle.std.specs.Prelude.{◌≡◌, ◌↔◌, IsTrue, IfOk};
ghost use Rattle.std.specs.List.{list_all};
ghost use Rattle.std.specs.FinMap as map;
ghost use Rattle.vac_model.specs.Balanced.{IsBalanced};
ghost use Rattle.vac_model.specs.Holdings as holdings;
ghost use Rattle.vac_model.specs.Tallies as tallies;

use crate::balance::{are_units, is_item_sound, stands_for};
use crate::each::Each;
use crate::item::{Booking, Customer, Kind, Ticket, Wait};
use crate::limits::{AMOUNT_LIMIT, TICKET_LIMIT};
use crate::tables::Tables;
use crate::tally::{awaited_tally, counted, had_tallies, of_kind, queued_tallies, units_tally};
use seq_model::{Entries, Memory};
use std::alloc::Global;

// ---- items

fn are_items_counted(tables: &Tables, units: &Entries<u64>, kind: Kind) -> bool
    ensures { result ≡ list_all (tallies.is_item_tallied units.now) (map.entries (holdings.of_kind kind tables.now.items)) }
{
    for (id, item) in tables.items(kind) {
        if !(is_item_sound(item) && item.used == counted(units, *id)) {
            return false;
        }
    }
    true
}

fn are_items_tallied(alloc: Global, tables: &Tables, kind: Kind) -> Result<bool, Memory>
    ensures { IfOk result (λ answer. answer ≡ tallies.are_items_tallied kind tables.now) }
{
    let units = units_tally(alloc, tables, kind)?;
    Ok(are_items_counted(tables, &units, kind))
}

// ---- customers

fn are_bookings_tallied(tables: &Tables, had: &Each<Entries<u64>>, bookings: &[Booking]) -> bool
    ensures { result ≡ list_all (tallies.is_booking_tallied tables.now had.now) bookings.now }
{
    for booking in bookings {
        let is_right = counted(of_kind(had, booking.kind), booking.id) <= 1
            && are_units(booking.units)
            && booking.price <= AMOUNT_LIMIT
            && tables.item(booking.kind, booking.id).is_some();
        if !is_right {
            return false;
        }
    }
    true
}

fn are_waits_tallied(
    tables: &Tables,
    had: &Each<Entries<u64>>,
    customer: u64,
    waits: &[Wait],
) -> bool
    ensures { result ≡ list_all (tallies.is_wait_tallied tables.now had.now customer) waits.now }
{
    for wait in waits {
        let is_right = counted(of_kind(had, wait.kind), wait.id) <= 1
            && are_units(wait.units)
            && stands_for(customer, wait, tables.ticket(wait.ticket));
        if !is_right {
            return false;
        }
    }
    true
}

fn is_customer_tallied(
    alloc: Global,
    tables: &Tables,
    customer: u64,
    who: &Customer,
) -> Result<bool, Memory>
    ensures { IfOk result (λ answer. answer ≡ tallies.is_customer_tallied tables.now (customer, who.now)) }
{
    if !who.has_few_places() {
        return Ok(false);
    }
    let had = had_tallies(alloc, who)?;
    Ok(
        are_bookings_tallied(tables, &had, who.bookings.as_slice())
            && are_waits_tallied(tables, &had, customer, who.waits.as_slice()),
    )
}

fn are_customers_tallied(alloc: Global, tables: &Tables) -> Result<bool, Memory>
    ensures { IfOk result (λ answer. answer ≡ tallies.are_customers_tallied tables.now) }
{
    for (customer, who) in tables.customers() {
        if !is_customer_tallied(alloc, tables, *customer, who)? {
            return Ok(false);
        }
    }
    Ok(true)
}

// ---- tickets and queues

fn is_ticket_tallied(
    awaited: &Entries<u64>,
    queued: &Each<Entries<u64>>,
    number: u64,
    ticket: &Ticket,
) -> bool
    ensures { result ≡ tallies.is_ticket_tallied awaited.now queued.now (number, ticket.now) }
{
    0 < counted(awaited, number) && 0 < counted(of_kind(queued, ticket.kind), number)
}

fn are_tickets_counted(tables: &Tables, awaited: &Entries<u64>, queued: &Each<Entries<u64>>) -> bool
    ensures { result ≡ list_all (tallies.is_ticket_tallied awaited.now queued.now) (map.entries tables.now.tickets) }
{
    for (number, ticket) in tables.tickets() {
        if !is_ticket_tallied(awaited, queued, *number, ticket) {
            return false;
        }
    }
    true
}

fn are_tickets_tallied(
    alloc: Global,
    tables: &Tables,
    queued: &Each<Entries<u64>>,
) -> Result<bool, Memory>
    requires { queued.now ≡ tallies.queued_tallies tables.now }
    ensures { IfOk result (λ answer. answer ≡ tallies.are_tickets_tallied tables.now) }
{
    let awaited = awaited_tally(alloc, tables)?;
    Ok(are_tickets_counted(tables, &awaited, queued))
}

fn is_place_tallied(queued: &Each<Entries<u64>>, next: u64, number: u64) -> bool
    ensures { result ≡ tallies.is_place_tallied queued.now next number }
{
    let times = counted(&queued.car, number)
        .saturating_add(counted(&queued.flight, number))
        .saturating_add(counted(&queued.room, number));
    times <= 1 && number < next
}

fn are_places_tallied(queued: &Each<Entries<u64>>, next: u64, tickets: &[u64]) -> bool
    ensures { result ≡ list_all (tallies.is_place_tallied queued.now next) tickets.now }
{
    for ticket in tickets {
        if !is_place_tallied(queued, next, *ticket) {
            return false;
        }
    }
    true
}

fn is_queue_tallied(tables: &Tables, queued: &Each<Entries<u64>>, kind: Kind) -> bool
    requires { queued.now ≡ tallies.queued_tallies tables.now }
    ensures { result ≡ tallies.is_queue_tallied kind tables.now }
{
    let (line, next) = (tables.waiting(kind), tables.next_ticket());
    let (front, back) = line.tickets.as_slices();
    line.head <= next
        && line.tickets.len() as u64 <= next - line.head
        && are_places_tallied(queued, next, front)
        && are_places_tallied(queued, next, back)
}

fn are_queues_tallied(tables: &Tables, queued: &Each<Entries<u64>>) -> bool
    requires { queued.now ≡ tallies.queued_tallies tables.now }
    ensures { result ≡ tallies.are_queues_tallied tables.now }
{
    is_queue_tallied(tables, queued, Kind::Car)
        && is_queue_tallied(tables, queued, Kind::Flight)
        && is_queue_tallied(tables, queued, Kind::Room)
}

// ---- the tables

fn is_tallied(alloc: Global, tables: &Tables) -> Result<bool, Memory>
    ensures { IfOk result (λ answer. answer ≡ tallies.is_tallied tables.now) }
{
    let cars = are_items_tallied(alloc, tables, Kind::Car)?;
    let flights = are_items_tallied(alloc, tables, Kind::Flight)?;
    let rooms = are_items_tallied(alloc, tables, Kind::Room)?;
    let customers = are_customers_tallied(alloc, tables)?;
    let queued = queued_tallies(alloc, tables)?;
    let tickets = are_tickets_tallied(alloc, tables, &queued)?;
    Ok(
        tables.next_ticket() <= TICKET_LIMIT
            && cars
            && flights
            && rooms
            && customers
            && tickets
            && are_queues_tallied(tables, &queued),
    )
}

/// Whether the tables are balanced, as `Tables::balanced` says, in time that grows with their size and its logarithm.
///
/// It takes memory for the tallies: a number for each item that is booked, for each ticket that stands in a queue and for
/// each that someone awaits.
pub fn is_balanced_by_tally(alloc: Global, tables: &Tables) -> Result<bool, Memory>
    ensures { IfOk result (λ answer. IsTrue answer ↔ IsBalanced tables.now) }
{
    let answer = is_tallied(alloc, tables)?;
    Ok(answer)
}
