//! Actions and customers that are made of numbers.
use super::files::answer_action;
use super::prints::print_reply;
use seq_model::{Items, Memory, Refusal, Value};
use std::alloc::Global;
use vac_model::{
    Action, ActionReply, Ask, Booking, Change, Customer, Each, Item, Kind, KindReply, Tables, Wait,
    part_of,
};

fn reservation(alloc: Global, units: u64, count: u64) -> Result<Action, Memory> {
    let mut asks = Items::new(alloc);
    for _ in 0..count {
        asks.push(Ask {
            kind: Kind::Car,
            id: 1,
        })?;
    }
    Ok(Action::Reserve(1, units, asks))
}

fn update(alloc: Global, change: Change, count: u64) -> Result<Action, Memory> {
    let mut changes = Items::new(alloc);
    for _ in 0..count {
        changes.push(change)?;
    }
    Ok(Action::Update(changes))
}

/// Builds an action, and makes it.
pub fn answer_built(
    text: &mut String,
    tables: &mut Tables,
    name: &str,
    numbers: &[u64],
) -> Result<(), Refusal> {
    let [first, second] = numbers else {
        return Err(Refusal::NoSuch);
    };
    let (alloc, id) = (*text.allocator(), 1);
    let built = match name {
        "asks" => reservation(alloc, *first, *second),
        "adds" => update(alloc, Change::Add(Kind::Room, id, *first, *second), 1),
        "takes" => update(alloc, Change::TakeRoom(id, *first), 1),
        _ => update(alloc, Change::DropFlight(id), *first),
    };
    answer_action(text, tables, built?)
}

// Gives the customer bookings of cars and waits for rooms, so many of each.
fn add_places(who: &mut Customer, bookings: u64, waits: u64) -> Result<(), Memory> {
    for id in 0..bookings {
        who.bookings.push(Booking {
            kind: Kind::Car,
            id,
            units: 1,
            price: 1,
        })?;
    }
    for id in 0..waits {
        who.waits.push(Wait {
            kind: Kind::Room,
            id,
            units: 1,
            ticket: id,
        })?;
    }
    Ok(())
}

// What the customer is answered who asks for one unit of flight 2, of which so many are free.
fn part_for(who: &Customer, free: u64) -> KindReply {
    let item = Item {
        total: 1,
        used: 1,
        free,
        price: 6,
    };
    part_of(who, 1, 2_000, Kind::Flight, Some((2, item)))
}

/// What a customer with so many bookings and waits is answered for a unit that is free, and for one that is not.
pub fn answer_places(text: &mut String, tables: &Tables, numbers: &[u64]) -> Result<(), Refusal> {
    let [bookings, waits] = numbers else {
        return Err(Refusal::NoSuch);
    };
    let mut who = Customer::new(*text.allocator());
    add_places(&mut who, *bookings, *waits)?;
    let parts = Each {
        car: part_for(&who, 1),
        flight: part_for(&who, 0),
        room: KindReply::Nothing,
    };
    print_reply(text, tables, ActionReply::Reserved(parts))
}

/// Whether a customer with so many bookings is the same as its copy with so many more.
pub fn answer_copy(text: &mut String, numbers: &[u64]) -> Result<(), Refusal> {
    let [bookings, more] = numbers else {
        return Err(Refusal::NoSuch);
    };
    let mut who = Customer::new(*text.allocator());
    add_places(&mut who, *bookings, 0)?;
    let mut copy = who.try_copy()?;
    add_places(&mut copy, *more, 0)?;
    let same = who.same(&copy);
    Ok(text.push_str(if same { " the same" } else { " another" })?)
}
