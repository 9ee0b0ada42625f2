//! Calls of a transaction that borrows its seat, at any type of values: by the transaction itself, or typed.
ghost use Rattle.std.specs.Prelude.{◌≡◌};
ghost use Rattle.tx_engine.specs.Ready.{HasBegunSince, IsReady};

use seq_model::{Call, Op, Refusal, Reply, Value};
use tx_engine::Tx;
use tx_wrap::{TBag, TMap, TPq, TQueue, TWord};

/// How the calls of a transaction are made. What is asked for its length is a map with the last one, and else a queue.
#[derive(Clone, Copy)]
pub enum Style {
    Plain,
    Typed,
    TypedMap,
}

/// A call, and the number of the seat that makes it.
#[derive(Drop)]
pub struct Placed<V> {
    pub seat: u32,
    pub call: Call<V>,
}

/// A call, and what it is answered.
pub fn ask<V: Value>(tx: &mut Tx<'_, V>, style: Style, call: &Call<V>) -> Result<Reply<V>, Refusal>
    requires ready { IsReady tx.old.table.now tx.old.seat.now }
    requires since { HasBegunSince tx.old.table.now tx.old.seat.now }
    ensures same_reference { tx.new.seat.ghost_name ≡ tx.old.seat.ghost_name }
    ensures same_table { tx.new.table.now ≡ tx.old.table.now }
    ensures ready { IsReady tx.old.table.now tx.new.seat.now }
    ensures since { HasBegunSince tx.old.table.now tx.new.seat.now }
{
    match style {
        Style::Plain => plain(tx, call),
        Style::Typed => on_word(tx, call, false),
        Style::TypedMap => on_word(tx, call, true),
    }
}

fn plain<V: Value>(tx: &mut Tx<'_, V>, call: &Call<V>) -> Result<Reply<V>, Refusal>
    requires ready { IsReady tx.old.table.now tx.old.seat.now }
    requires since { HasBegunSince tx.old.table.now tx.old.seat.now }
    ensures same_reference { tx.new.seat.ghost_name ≡ tx.old.seat.ghost_name }
    ensures same_table { tx.new.table.now ≡ tx.old.table.now }
    ensures ready { IsReady tx.old.table.now tx.new.seat.now }
    ensures since { HasBegunSince tx.old.table.now tx.new.seat.now }
{
    match &call.op {
        Op::Read => tx.read(call.target),
        Op::Write(value) => tx.write(call.target, *value),
        _ => tx.call(call.op.try_copy()?, call.target),
    }
}

fn on_word<V: Value>(tx: &mut Tx<'_, V>, call: &Call<V>, has_map: bool) -> Result<Reply<V>, Refusal>
    requires ready { IsReady tx.old.table.now tx.old.seat.now }
    requires since { HasBegunSince tx.old.table.now tx.old.seat.now }
    ensures same_reference { tx.new.seat.ghost_name ≡ tx.old.seat.ghost_name }
    ensures same_table { tx.new.table.now ≡ tx.old.table.now }
    ensures ready { IsReady tx.old.table.now tx.new.seat.now }
    ensures since { HasBegunSince tx.old.table.now tx.new.seat.now }
{
    let word = TWord::new(call.target);
    match &call.op {
        Op::Read => word.read(tx),
        Op::Write(value) => word.write(tx, *value),
        _ => on_map(tx, call, has_map),
    }
}

fn on_map<V: Value>(tx: &mut Tx<'_, V>, call: &Call<V>, has_map: bool) -> Result<Reply<V>, Refusal>
    requires ready { IsReady tx.old.table.now tx.old.seat.now }
    requires since { HasBegunSince tx.old.table.now tx.old.seat.now }
    ensures same_reference { tx.new.seat.ghost_name ≡ tx.old.seat.ghost_name }
    ensures same_table { tx.new.table.now ≡ tx.old.table.now }
    ensures ready { IsReady tx.old.table.now tx.new.seat.now }
    ensures since { HasBegunSince tx.old.table.now tx.new.seat.now }
{
    let map = TMap::new(call.target);
    match &call.op {
        Op::Get(key) => map.get(tx, *key),
        Op::Put(key, value) => map.put(tx, *key, value.try_copy()?),
        Op::Remove(key) => map.remove(tx, *key),
        Op::Len if has_map => map.len(tx),
        _ => on_bag(tx, call),
    }
}

fn on_bag<V: Value>(tx: &mut Tx<'_, V>, call: &Call<V>) -> Result<Reply<V>, Refusal>
    requires ready { IsReady tx.old.table.now tx.old.seat.now }
    requires since { HasBegunSince tx.old.table.now tx.old.seat.now }
    ensures same_reference { tx.new.seat.ghost_name ≡ tx.old.seat.ghost_name }
    ensures same_table { tx.new.table.now ≡ tx.old.table.now }
    ensures ready { IsReady tx.old.table.now tx.new.seat.now }
    ensures since { HasBegunSince tx.old.table.now tx.new.seat.now }
{
    let bag = TBag::new(call.target);
    match &call.op {
        Op::Count(element) => bag.count(tx, *element),
        Op::Add(element) => bag.add(tx, *element),
        Op::Take(element) => bag.take(tx, *element),
        _ => on_pq(tx, call),
    }
}

fn on_pq<V: Value>(tx: &mut Tx<'_, V>, call: &Call<V>) -> Result<Reply<V>, Refusal>
    requires ready { IsReady tx.old.table.now tx.old.seat.now }
    requires since { HasBegunSince tx.old.table.now tx.old.seat.now }
    ensures same_reference { tx.new.seat.ghost_name ≡ tx.old.seat.ghost_name }
    ensures same_table { tx.new.table.now ≡ tx.old.table.now }
    ensures ready { IsReady tx.old.table.now tx.new.seat.now }
    ensures since { HasBegunSince tx.old.table.now tx.new.seat.now }
{
    let pq = TPq::new(call.target);
    match &call.op {
        Op::Least => pq.least(tx),
        Op::Insert(element) => pq.insert(tx, *element),
        Op::TakeLeast => pq.take_least(tx),
        _ => on_queue(tx, call),
    }
}

fn on_queue<V: Value>(tx: &mut Tx<'_, V>, call: &Call<V>) -> Result<Reply<V>, Refusal>
    requires ready { IsReady tx.old.table.now tx.old.seat.now }
    requires since { HasBegunSince tx.old.table.now tx.old.seat.now }
    ensures same_reference { tx.new.seat.ghost_name ≡ tx.old.seat.ghost_name }
    ensures same_table { tx.new.table.now ≡ tx.old.table.now }
    ensures ready { IsReady tx.old.table.now tx.new.seat.now }
    ensures since { HasBegunSince tx.old.table.now tx.new.seat.now }
{
    let queue = TQueue::new(call.target);
    match &call.op {
        Op::Len => queue.len(tx),
        Op::Enqueue(item) => queue.enqueue(tx, *item),
        Op::Dequeue => queue.dequeue(tx),
        Op::Peek => queue.peek(tx),
        _ => Err(Refusal::NoSuch),
    }
}
