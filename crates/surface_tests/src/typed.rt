//! The calls of a transaction, by kind and by number. One that is refused ends it, and the commit says so. A function makes few of them:
//! after six calls a search no longer finds what the seventh asks.
ghost use Rattle.std.specs.Prelude.{◌≡◌};
ghost use Rattle.tx_engine.specs.Ready.{HasBegunSince, IsReady};

use seq_model::{Op, Value};
use tx_engine::Tx;
use tx_wrap::{TBag, TMap, TPq, TQueue, TWord};

/// The calls on word 0.
pub fn call_word<V: Value>(tx: &mut Tx<'_, V>)
    requires ready { IsReady tx.old.table.now tx.old.seat.now }
    requires since { HasBegunSince tx.old.table.now tx.old.seat.now }
    ensures same_reference { tx.new.seat.ghost_name ≡ tx.old.seat.ghost_name }
    ensures same_table { tx.new.table.now ≡ tx.old.table.now }
    ensures ready { IsReady tx.new.table.now tx.new.seat.now }
    ensures since { HasBegunSince tx.new.table.now tx.new.seat.now }
{
    let word = TWord::new(0);
    drop(word.read(tx));
    drop(word.write(tx, 10));
    drop(tx.read(0));
    drop(tx.write(0, 9));
}

/// The calls on map 0.
pub fn call_map<V: Value>(tx: &mut Tx<'_, V>, value: V)
    requires ready { IsReady tx.old.table.now tx.old.seat.now }
    requires since { HasBegunSince tx.old.table.now tx.old.seat.now }
    ensures same_reference { tx.new.seat.ghost_name ≡ tx.old.seat.ghost_name }
    ensures same_table { tx.new.table.now ≡ tx.old.table.now }
    ensures ready { IsReady tx.new.table.now tx.new.seat.now }
    ensures since { HasBegunSince tx.new.table.now tx.new.seat.now }
{
    let map = TMap::new(0);
    drop(map.put(tx, 5, value));
    drop(map.get(tx, 5));
    drop(map.remove(tx, 2));
    drop(map.len(tx));
}

/// The calls on multiset 1, and one by its number.
pub fn call_bag<V: Value>(tx: &mut Tx<'_, V>)
    requires ready { IsReady tx.old.table.now tx.old.seat.now }
    requires since { HasBegunSince tx.old.table.now tx.old.seat.now }
    ensures same_reference { tx.new.seat.ghost_name ≡ tx.old.seat.ghost_name }
    ensures same_table { tx.new.table.now ≡ tx.old.table.now }
    ensures ready { IsReady tx.new.table.now tx.new.seat.now }
    ensures since { HasBegunSince tx.new.table.now tx.new.seat.now }
{
    let bag = TBag::new(1);
    drop(bag.count(tx, 5));
    drop(bag.add(tx, 5));
    drop(bag.take(tx, 5));
    drop(tx.call(Op::Count(5), 1));
}

/// The calls on priority queue 2.
pub fn call_pq<V: Value>(tx: &mut Tx<'_, V>)
    requires ready { IsReady tx.old.table.now tx.old.seat.now }
    requires since { HasBegunSince tx.old.table.now tx.old.seat.now }
    ensures same_reference { tx.new.seat.ghost_name ≡ tx.old.seat.ghost_name }
    ensures same_table { tx.new.table.now ≡ tx.old.table.now }
    ensures ready { IsReady tx.new.table.now tx.new.seat.now }
    ensures since { HasBegunSince tx.new.table.now tx.new.seat.now }
{
    let pq = TPq::new(2);
    drop(pq.least(tx));
    drop(pq.insert(tx, 3));
    drop(pq.take_least(tx));
}

/// The calls on queue 3.
pub fn call_queue<V: Value>(tx: &mut Tx<'_, V>)
    requires ready { IsReady tx.old.table.now tx.old.seat.now }
    requires since { HasBegunSince tx.old.table.now tx.old.seat.now }
    ensures same_reference { tx.new.seat.ghost_name ≡ tx.old.seat.ghost_name }
    ensures same_table { tx.new.table.now ≡ tx.old.table.now }
    ensures ready { IsReady tx.new.table.now tx.new.seat.now }
    ensures since { HasBegunSince tx.new.table.now tx.new.seat.now }
{
    let queue = TQueue::new(3);
    drop(queue.enqueue(tx, 9));
    drop(queue.dequeue(tx));
    drop(queue.peek(tx));
    drop(queue.len(tx));
}
