//! The shared table, its seats, and transactions that borrow one.
ghost use Rattle.std.specs.Prelude.{◌<◌, IfOk};
ghost use Rattle.tx_engine.specs.Ready.{IsReady};

use crate::parallel::call_jobs;
use crate::rows::{ensure, shape, state};
use crate::typed::{call_bag, call_map, call_pq, call_queue, call_word};
use seq_model::{Kind, Refusal, Value};
use std::alloc::Global;
use std::sync::Wait;
use std::thread::Threads;
use tx_engine::{Receipt, begin, begin_read, learn};
use tx_table::{Block, Closed, Seat, TxTable};

/// A half of the shares of a table.
const HALF: u64 = 32;

/// The shares of a table.
pub const ALL: u64 = 64;

/// The table with the word 7 and a collection of each kind, and its first seat.
fn open(alloc: Global) -> Result<(TxTable<u64>, Seat<u64>), Refusal>
    ensures { IfOk result (λ opened. IsReady opened.0 opened.1) }
{
    let shape = shape(alloc)?;
    TxTable::open(alloc, &shape, state(alloc)?)
}

pub fn call<R: Threads + Wait + Sync>(rt: &R, alloc: Global) -> Result<(), Refusal> {
    let (table, mut seat) = open(alloc)?;
    let called = call_table(&table, &mut seat, 21);
    let run = call_jobs(rt, alloc, &table, &mut seat);
    let ended = call_end(table, seat);
    called.and(run).and(ended)
}

fn call_table<V: Value>(table: &TxTable<V>, seat: &mut Seat<V>, value: V) -> Result<(), Refusal>
    requires ready { IsReady table.now seat.old }
    ensures ready { IsReady table.now seat.new }
{
    if seat.shares() != ALL {
        return Err(Refusal::NoSuch);
    }
    let mut other = table.split(seat, HALF);
    let written = write_at(table, &mut other, value).is_ok();
    let read = read_at(table, seat).is_ok();
    let learnt = learn(table, seat, 1).is_ok();
    let is = other.shares() == HALF && other.last_number() == 1;
    table.join(seat, other);
    match table.block(0) {
        Some(
            Block {
                kind: Kind::Map,
                stripes,
                first,
            },
        ) => ensure(written && read && learnt && is && stripes == 2 && first == 1),
        _ => Err(Refusal::NoSuch),
    }
}

fn write_at<V: Value>(
    table: &TxTable<V>,
    seat: &mut Seat<V>,
    value: V,
) -> Result<Receipt<V>, Refusal>
    requires ready { IsReady table.now seat.old }
    ensures ready { IsReady table.now seat.new }
{
    match begin(seat, table) {
        Ok(mut tx) => {
            call_word(&mut tx);
            call_map(&mut tx, value);
            call_bag(&mut tx);
            call_pq(&mut tx);
            call_queue(&mut tx);
            tx.commit()
        }
        Err(refusal) => Err(refusal),
    }
}

fn read_at<V: Value>(table: &TxTable<V>, seat: &mut Seat<V>) -> Result<(), Refusal>
    requires ready { IsReady table.now seat.old }
    ensures ready { IsReady table.now seat.new }
{
    match begin_read(seat, table) {
        Ok(tx) => {
            tx.abort();
            Ok(())
        }
        Err(refusal) => Err(refusal),
    }
}

fn call_end<V: Value>(table: TxTable<V>, seat: Seat<V>) -> Result<(), Refusal>
    requires ready { IsReady table seat }
{
    if seat.shares() != ALL || table.words() == 0 {
        return Err(Refusal::NoSuch);
    }
    let closed = table.close(seat)?;
    call_closed(&closed);
    drop(closed.state()?);
    Ok(())
}

fn call_closed<V: Value>(closed: &Closed<V>)
    requires { 0 < closed.now.words }
{
    let _ = closed.word(0);
    let _ = closed.clock();
    if closed.collections() > 0 {
        let _ = closed.collection(0);
    }
}
