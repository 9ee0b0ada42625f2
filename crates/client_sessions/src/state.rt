//! The tables as the state of a world, and back.
ghost use Rattle.std.specs.Prelude.{◌≡◌, Err, Some, None, IfOk, IfErr, map};
ghost use Rattle.seq_model.specs.Calls.{IsRefusal};
ghost use Rattle.seq_model.specs.declared.refusal.Refusal.TheVariants as refusal;
ghost use Rattle.seq_model.specs.declared.held.Held.TheVariants as held;
ghost use Rattle.vac_model.specs.Holdings.{of_kind};
ghost use Rattle.client_sessions.specs.declared.entry.Entry.TheVariants as entry;
ghost use Rattle.vac_model.specs.Holdings.{Holdings};
ghost use Rattle.client_sessions.specs.Holding.{HaveIndexes, HoldsTables, as_entries};
ghost use Rattle.client_sessions.specs.Parts.{among, are_maps, are_queues, customer_of, is_map_of, is_queue, item_of, line_of, lines_of};
ghost use Rattle.client_sessions.specs.Parts.{stock_among, tables_in, ticket_of};
ghost use Rattle.client_sessions.specs.Refusals.{IsNoneSuch};
ghost use Rattle.client_sessions.specs.Holding as holding;

use crate::entry::Entry;
use crate::shared::SharedCustomer;
use crate::split::SplitCustomer;
use seq_model::{Entries, Held, Memory, Refusal, State, Value};
use std::alloc::Global;
use vac_model::{Customer, Each, Item, Kind, Queue, Tables, Ticket};

#[tactic(auto, using(crate::proofs::HoldingLemmas::put_none, crate::proofs::HoldingLemmas::put_one, crate::proofs::HoldingLemmas::put_all))]
fn items_held(alloc: Global, tables: &Tables, kind: Kind) -> Result<Entries<Entry>, Memory>
    ensures { IfOk result (λ held. held ≡ as_entries entry.Item (of_kind kind tables.now.items)) }
{
    let mut held = Entries::new(alloc);
    for (id, item) in tables.items(kind) {
        held.insert(*id, Entry::Item(*item))?;
    }
    Ok(held)
}

#[tactic(auto, using(crate::proofs::HoldingLemmas::put_none, crate::proofs::HoldingLemmas::put_one, crate::proofs::HoldingLemmas::put_all))]
fn customers_held(alloc: Global, tables: &Tables) -> Result<Entries<Entry>, Memory>
    ensures { IfOk result (λ held. held ≡ as_entries entry.Customer tables.now.customers) }
{
    let mut held = Entries::new(alloc);
    for (number, customer) in tables.customers() {
        let split = SplitCustomer::of(alloc, customer.try_copy()?)?;
        let shared = SharedCustomer::new(alloc, split)?;
        held.insert(*number, Entry::Customer(shared))?;
    }
    Ok(held)
}

#[tactic(auto, using(crate::proofs::HoldingLemmas::put_none, crate::proofs::HoldingLemmas::put_one, crate::proofs::HoldingLemmas::put_all))]
fn tickets_held(alloc: Global, tables: &Tables) -> Result<Entries<Entry>, Memory>
    ensures { IfOk result (λ held. held ≡ as_entries entry.Ticket tables.now.tickets) }
{
    let mut held = Entries::new(alloc);
    for (number, ticket) in tables.tickets() {
        held.insert(*number, Entry::Ticket(*ticket))?;
    }
    Ok(held)
}

fn queue_held(queue: &Queue) -> Result<Held<Entry>, Memory>
    ensures { IfOk result (λ queue'. queue' ≡ held.Queue queue.now.head queue.now.tickets) }
{
    Ok(Held::Queue {
        head: queue.head,
        items: queue.tickets.try_copy()?,
    })
}

/// What the maps and the queues of the state hold, in their order.
fn held_of(alloc: Global, tables: &Tables) -> Result<Vec<Held<Entry>>, Memory>
    ensures { IfOk result (λ held. held.items ≡ (holding.state_of tables.now).held) }
{
    let mut held = Vec::with_capacity(alloc, 8)?;
    held.push(Held::Map(items_held(alloc, tables, Kind::Car)?))?;
    held.push(Held::Map(items_held(alloc, tables, Kind::Flight)?))?;
    held.push(Held::Map(items_held(alloc, tables, Kind::Room)?))?;
    held.push(Held::Map(customers_held(alloc, tables)?))?;
    held.push(Held::Map(tickets_held(alloc, tables)?))?;
    held.push(queue_held(tables.waiting(Kind::Car))?)?;
    held.push(queue_held(tables.waiting(Kind::Flight))?)?;
    held.push(queue_held(tables.waiting(Kind::Room))?)?;
    Ok(held)
}

/// The state that holds the tables: the next ticket as word 0; maps 0 to 4 are those of cars, flights, rooms, customers and tickets, and
/// queues 5 to 7 those of cars, flights and rooms. No queue's index may be past the limit of a state, as none is in balanced tables.
pub fn state_of(alloc: Global, tables: &Tables) -> Result<State<Entry>, Memory>
    requires { HaveIndexes tables.now }
    ensures { IfOk result (λ state. state ≡ holding.state_of tables.now) }
{
    let words = vec![in alloc; tables.next_ticket()]?;
    let held = held_of(alloc, tables)?;
    match State::new(words, held) {
        Ok(state) => Ok(state),
        Err(_) => unreachable!(),
    }
}

// ---- and back

fn are_items(held: &Held<Entry>) -> bool
    ensures { result ≡ is_map_of item_of held.now }
{
    let Held::Map(entries) = held else {
        return false;
    };
    for (_, entry) in entries.iter() {
        if !matches!(entry, Entry::Item(_)) {
            return false;
        }
    }
    true
}

fn are_customers(held: &Held<Entry>) -> bool
    ensures { result ≡ is_map_of customer_of held.now }
{
    let Held::Map(entries) = held else {
        return false;
    };
    for (_, entry) in entries.iter() {
        if !matches!(entry, Entry::Customer(_)) {
            return false;
        }
    }
    true
}

fn are_tickets(held: &Held<Entry>) -> bool
    ensures { result ≡ is_map_of ticket_of held.now }
{
    let Held::Map(entries) = held else {
        return false;
    };
    for (_, entry) in entries.iter() {
        if !matches!(entry, Entry::Ticket(_)) {
            return false;
        }
    }
    true
}

fn are_maps(
    cars: &Held<Entry>,
    flights: &Held<Entry>,
    rooms: &Held<Entry>,
    customers: &Held<Entry>,
    tickets: &Held<Entry>,
) -> bool
    ensures { result ≡ are_maps cars.now flights.now rooms.now customers.now tickets.now }
{
    are_items(cars)
        && are_items(flights)
        && are_items(rooms)
        && are_customers(customers)
        && are_tickets(tickets)
}

fn is_queue(held: &Held<Entry>) -> bool
    ensures { result ≡ is_queue held.now }
{
    matches!(held, Held::Queue { .. })
}

fn are_queues(cars: &Held<Entry>, flights: &Held<Entry>, rooms: &Held<Entry>) -> bool
    ensures { result ≡ are_queues cars.now flights.now rooms.now }
{
    is_queue(cars) && is_queue(flights) && is_queue(rooms)
}

fn items_of(alloc: Global, held: &Held<Entry>) -> Result<Entries<Item>, Memory>
    ensures { IfOk result (λ items. items ≡ among item_of held.now) }
{
    let mut items = Entries::new(alloc);
    let Held::Map(entries) = held else {
        return Ok(items);
    };
    for (id, entry) in entries.iter() {
        if let Entry::Item(item) = entry {
            items.insert(*id, *item)?;
        }
    }
    Ok(items)
}

fn customers_of(alloc: Global, held: &Held<Entry>) -> Result<Entries<Customer>, Memory>
    ensures { IfOk result (λ customers. customers ≡ among customer_of held.now) }
{
    let mut customers = Entries::new(alloc);
    let Held::Map(entries) = held else {
        return Ok(customers);
    };
    for (number, entry) in entries.iter() {
        if let Entry::Customer(customer) = entry {
            customers.insert(*number, customer.get().whole(alloc)?)?;
        }
    }
    Ok(customers)
}

fn tickets_of(alloc: Global, held: &Held<Entry>) -> Result<Entries<Ticket>, Memory>
    ensures { IfOk result (λ tickets. tickets ≡ among ticket_of held.now) }
{
    let mut tickets = Entries::new(alloc);
    let Held::Map(entries) = held else {
        return Ok(tickets);
    };
    for (number, entry) in entries.iter() {
        if let Entry::Ticket(ticket) = entry {
            tickets.insert(*number, *ticket)?;
        }
    }
    Ok(tickets)
}

fn stock_of(
    alloc: Global,
    cars: &Held<Entry>,
    flights: &Held<Entry>,
    rooms: &Held<Entry>,
) -> Result<Each<Entries<Item>>, Memory>
    ensures { IfOk result (λ items. items ≡ stock_among cars.now flights.now rooms.now) }
{
    Ok(Each {
        car: items_of(alloc, cars)?,
        flight: items_of(alloc, flights)?,
        room: items_of(alloc, rooms)?,
    })
}

fn queue_of(alloc: Global, held: &Held<Entry>) -> Result<Queue, Memory>
    ensures { IfOk result (λ queue. queue ≡ line_of held.now) }
{
    match held {
        Held::Queue { head, items } => Ok(Queue {
            head: *head,
            tickets: items.try_copy()?,
        }),
        _ => Ok(Queue::new(alloc)),
    }
}

fn queues_of(
    alloc: Global,
    cars: &Held<Entry>,
    flights: &Held<Entry>,
    rooms: &Held<Entry>,
) -> Result<Each<Queue>, Memory>
    ensures { IfOk result (λ queues. queues ≡ lines_of cars.now flights.now rooms.now) }
{
    Ok(Each {
        car: queue_of(alloc, cars)?,
        flight: queue_of(alloc, flights)?,
        room: queue_of(alloc, rooms)?,
    })
}

fn tables_in(alloc: Global, words: &[u64], held: &[Held<Entry>]) -> Result<Tables, Refusal>
    ensures ok { IfOk result (λ tables. tables_in words.now held.now ≡ Some tables) }
    ensures refused { IfErr result (λ refusal. IsRefusal refusal (tables_in words.now held.now ≡ None)) }
{
    let [next] = words else {
        return Err(Refusal::NoSuch);
    };
    let [
        cars,
        flights,
        rooms,
        customers,
        tickets,
        for_cars,
        for_flights,
        for_rooms,
    ] = held
    else {
        return Err(Refusal::NoSuch);
    };
    if !are_maps(cars, flights, rooms, customers, tickets) {
        return Err(Refusal::NoSuch);
    }
    if !are_queues(for_cars, for_flights, for_rooms) {
        return Err(Refusal::NoSuch);
    }
    let items = stock_of(alloc, cars, flights, rooms)?;
    let waiting = queues_of(alloc, for_cars, for_flights, for_rooms)?;
    let customers = customers_of(alloc, customers)?;
    let tickets = tickets_of(alloc, tickets)?;
    Ok(Tables::of_maps(alloc, items, customers, tickets, waiting, *next))
}

/// The tables that the state holds: those of which it is the [`state_of`]. No two tables have one state.
///
/// `NoSuch` where it is no tables' state: not one word and eight collections, a collection of another kind, or an entry of another
/// kind in a map. Else `Memory` where an allocation failed.
pub fn tables_of(alloc: Global, state: &State<Entry>) -> Result<Tables, Refusal>
    ensures held { IfOk result (λ tables. state.now ≡ holding.state_of tables) }
    ensures indexes { IfOk result (λ tables. HaveIndexes tables) }
    ensures inverse { (tables : Holdings) → state.now ≡ holding.state_of tables → IfOk result (λ same. same ≡ tables) }
    ensures refused { IfErr result (λ refusal. IsNoneSuch refusal (HoldsTables state.now)) }
{
    tables_in(alloc, state.words(), state.held())
}
