//! A workshop's stock: an order reserves all parts of a table or none, and a reservation is shipped, released, or expires.
#![tactic(auto)]

use std::alloc::Global;
use std::thread::Threads;
use wolimevar::{Body, Client, Entries, Layout, Map, Refusal, Scope, Session, Transaction, Word};

/// The tops, legs and screws of a table.
const PARTS: [u64; 3] = [1, 4, 8];

/// How many of each part are free and were shipped, for how many ticks each reservation still holds, and how many were made.
#[derive(Clone, Copy)]
struct Shop {
    free: [Word; 3],
    shipped: [Word; 3],
    reserved: Map<u64>,
    made: Word,
}

#[derive(Drop)]
enum Denied {
    SoldOut,
    Gone,
    Refused(Refusal),
}

impl From<Refusal> for Denied {
    fn from(refusal: Refusal) -> Denied {
        Denied::Refused(refusal)
    }
}

#[derive(Drop)]
enum Change {
    Reserve(Shop),
    /// A reservation ends, and its parts are shipped or free again.
    End(Shop, u64, [Word; 3]),
    Tick(Shop),
}

impl Body<u64> for Change {
    type Out = ();

    type Error = Denied;

    fn run<S: Scope<u64>>(&self, tx: &mut Transaction<'_, u64, S>) -> Result<(), Denied> {
        match self {
            Change::Reserve(shop) => {
                for i in 0..3usize {
                    let free = shop.free[i].read(tx)?;
                    let left = free.checked_sub(PARTS[i]).ok_or(Denied::SoldOut)?;
                    shop.free[i].write(tx, left)?;
                }
                let number = shop.made.read(tx)?;
                shop.made.write(tx, number.saturating_add(1))?;
                shop.reserved.put(tx, number, 2)?;
            }
            Change::End(shop, number, to) => {
                shop.reserved.remove(tx, *number)?.ok_or(Denied::Gone)?;
                add_all(*to, tx)?;
            }
            Change::Tick(shop) => for number in 0..shop.made.read(tx)? {
                match shop.reserved.remove(tx, number)? {
                    Some(2) => drop(shop.reserved.put(tx, number, 1)?),
                    Some(_) => add_all(shop.free, tx)?,
                    None => {}
                }
            },
        }
        Ok(())
    }
}

fn add_all<S: Scope<u64>>(to: [Word; 3], tx: &mut Transaction<'_, u64, S>) -> Result<(), Refusal> {
    for i in 0..3usize {
        let count = to[i].read(tx)?;
        to[i].write(tx, count.saturating_add(PARTS[i]))?;
    }
    Ok(())
}

/// A report: how many tables are reserved and shipped, and how many parts there are in all.
impl Body<u64> for Shop {
    type Out = (u64, u64, u64);

    type Error = Refusal;

    fn run<S: Scope<u64>>(&self, tx: &mut Transaction<'_, u64, S>) -> Result<Self::Out, Refusal> {
        let (reserved, shipped) = (self.reserved.len(tx)?, self.shipped[0].read(tx)?);
        let mut parts = reserved.saturating_mul(13);
        for i in 0..3usize {
            parts = parts.saturating_add(self.free[i].read(tx)?);
            parts = parts.saturating_add(self.shipped[i].read(tx)?);
        }
        Ok((reserved, shipped, parts))
    }
}

#[derive(Drop)]
enum Desk {
    Clerk(Change),
    Audit(Shop),
}

impl Session<u64> for Desk {
    /// How many changes were made, or how many reports were right.
    type Out = u64;

    fn serve<S: Scope<u64>>(self, client: &mut Client<'_, u64, S>) -> u64 {
        let mut done = 0u64;
        for _ in 0..10u64 {
            let well = match &self {
                Desk::Clerk(change) => client.atomically(u64::MAX, change).is_ok(),
                Desk::Audit(shop) => matches!(client.look(u64::MAX, shop), Ok(((.., 620), _))),
            };
            done = done.saturating_add(u64::from(well));
        }
        done
    }
}

fn serve<R: Threads + Sync>(rt: &R, alloc: Global) -> Result<String, Refusal> {
    let mut layout = Layout::new(alloc);
    let shop = Shop {
        free: [layout.word(60)?, layout.word(160)?, layout.word(400)?],
        shipped: [layout.word(0)?, layout.word(0)?, layout.word(0)?],
        reserved: layout.map(4, Entries::new(alloc))?,
        made: layout.word(0)?,
    };
    let mut store = layout.open()?;
    let (order, audit) = (|| Desk::Clerk(Change::Reserve(shop)), || Desk::Audit(shop));
    let end = |number, to| Desk::Clerk(Change::End(shop, number, to));
    let orders = vec![in alloc; order(), order(), order(), order(), audit()]?;
    let ordered = store.run(rt, orders)?;
    let sold_out = store.atomically(u64::MAX, &Change::Reserve(shop)).is_err();
    let ends = vec![in alloc; end(0, shop.shipped), end(1, shop.free), audit()]?;
    let ended = store.run(rt, ends)?;
    let (left, _) = store.look(u64::MAX, &shop)?;
    let ticks = vec![in alloc; Desk::Clerk(Change::Tick(shop)), audit()]?;
    let ticked = store.run(rt, ticks)?;
    let (none, _) = store.look(u64::MAX, &shop)?;
    Ok(format!(in alloc; "{ordered:?} {sold_out}, {ended:?} {left:?}, {ticked:?} {none:?}")?)
}

fn main(rt: HostRuntime) -> std::io::Result<()> {
    match serve(&rt, rt.alloc()) {
        Ok(text) => println!(rt; "{text}"),
        Err(refusal) => println!(rt; "{refusal}"),
    }
}
