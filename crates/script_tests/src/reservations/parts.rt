//! Tables and their parts.
use seq_model::{Entries, Memory, QueueItems, Refusal, Value};
use std::alloc::Global;
use std::collections::btree_map::Iter;
use vac_model::{Each, Item, Kind, Queue, Tables};

/// Tables with so many units of car 1, or without it for 0, these tickets in the queue of cars, and this next ticket.
pub fn of_parts(alloc: Global, units: u64, tickets: &[u64], next: u64) -> Result<Tables, Refusal> {
    let mut cars = Entries::new(alloc);
    if units > 0 {
        let item = Item {
            total: units,
            used: 0,
            free: units,
            price: 4,
        };
        cars.insert(1, item)?;
    }
    let items = Each {
        car: cars,
        flight: Entries::new(alloc),
        room: Entries::new(alloc),
    };
    let tickets = QueueItems::from_vec(tickets.to_vec(alloc)?);
    let waiting = Each {
        car: Queue { head: 0, tickets },
        flight: Queue::new(alloc),
        room: Queue::new(alloc),
    };
    let (customers, tickets) = (Entries::new(alloc), Entries::new(alloc));
    Ok(Tables::of_maps(alloc, items, customers, tickets, waiting, next))
}

fn copy_of<V: Value>(alloc: Global, entries: Iter<'_, u64, V>) -> Result<Entries<V>, Memory> {
    let mut copy = Entries::new(alloc);
    for (key, value) in entries {
        copy.insert(*key, value.try_copy()?)?;
    }
    Ok(copy)
}

fn copy_of_line(line: &Queue) -> Result<Queue, Memory> {
    Ok(Queue {
        head: line.head,
        tickets: line.tickets.try_copy()?,
    })
}

fn copy_of_items(alloc: Global, tables: &Tables) -> Result<Each<Entries<Item>>, Memory> {
    Ok(Each {
        car: copy_of(alloc, tables.items(Kind::Car))?,
        flight: copy_of(alloc, tables.items(Kind::Flight))?,
        room: copy_of(alloc, tables.items(Kind::Room))?,
    })
}

fn copy_of_lines(tables: &Tables) -> Result<Each<Queue>, Memory> {
    Ok(Each {
        car: copy_of_line(tables.waiting(Kind::Car))?,
        flight: copy_of_line(tables.waiting(Kind::Flight))?,
        room: copy_of_line(tables.waiting(Kind::Room))?,
    })
}

/// Tables of the parts that these tables' readers give.
pub fn rebuilt(alloc: Global, tables: &Tables) -> Result<Tables, Memory> {
    let customers = copy_of(alloc, tables.customers())?;
    let tickets = copy_of(alloc, tables.tickets())?;
    let items = copy_of_items(alloc, tables)?;
    let waiting = copy_of_lines(tables)?;
    let next = tables.next_ticket();
    Ok(Tables::of_maps(alloc, items, customers, tickets, waiting, next))
}
