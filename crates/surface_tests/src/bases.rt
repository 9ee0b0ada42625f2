//! Outcomes, footprints and conflicts on a collection of each kind, by the trait that all kinds have, and what each is replayed.
use crate::rows::{ensure, held_of_one};
use base_bag::BagBase;
use base_map::MapBase;
use base_pq::PqBase;
use base_queue::QueueBase;
use conflict::{Conflict, LocSet, conflicts};
use seq_model::{Kind, Op, Refusal};
use std::alloc::Global;

const STRIPES: u32 = 2;

pub fn call(alloc: Global) -> Result<(), Refusal> {
    call_map(alloc)?;
    call_bag(alloc)?;
    call_pq(alloc)?;
    call_queue(alloc)
}

/// The laws are functions that compute nothing.
pub fn laws() {
    conflict::laws::commute::<u64, MapBase<u64>>();
    conflict::laws::raised_by_one();
    replay_log::laws::fold_laws::<u64>();
}

fn call_map(alloc: Global) -> Result<(), Refusal> {
    let new = MapBase::<u64>::new(alloc, STRIPES).is_ok();
    let mut base = MapBase::open(alloc, STRIPES, held_of_one(alloc, Kind::Map)?)?;
    let prepared = base.prepare(&[]).is_ok();
    base.replay(Vec::new(alloc), &LocSet::empty(alloc));
    let _ = base.edition(1);
    let held = base.held().is_ok();
    let copied = base.try_copy().is_ok();
    let called = call_trait(&base, &Op::Put(2, 21));
    drop(base);
    ensure(new && prepared && held && copied && called.is_ok())
}

fn call_bag(alloc: Global) -> Result<(), Refusal> {
    let new = BagBase::new(alloc, STRIPES).is_ok();
    let mut base = BagBase::open(alloc, STRIPES, held_of_one(alloc, Kind::Bag)?)?;
    let prepared = base.prepare::<u64>(&[]).is_ok();
    base.replay::<u64>(Vec::new(alloc), &LocSet::empty(alloc));
    let _ = base.edition(1);
    let held = base.held::<u64>().is_ok();
    let copied = base.try_copy().is_ok();
    let called = call_trait(&base, &Op::Add(5));
    drop(base);
    ensure(new && prepared && held && copied && called.is_ok())
}

fn call_pq(alloc: Global) -> Result<(), Refusal> {
    let new = PqBase::new(alloc, STRIPES).is_ok();
    let mut base = PqBase::open(alloc, STRIPES, held_of_one(alloc, Kind::Pq)?)?;
    let prepared = base.prepare::<u64>(&[]).is_ok();
    base.replay::<u64>(Vec::new(alloc), &LocSet::empty(alloc));
    let _ = base.edition(2);
    let held = base.held::<u64>().is_ok();
    let copied = base.try_copy().is_ok();
    let called = call_trait(&base, &Op::Insert(9));
    drop(base);
    ensure(new && prepared && held && copied && called.is_ok())
}

fn call_queue(alloc: Global) -> Result<(), Refusal> {
    let new = QueueBase::new(alloc, STRIPES).is_ok();
    let mut base = QueueBase::open(alloc, STRIPES, held_of_one(alloc, Kind::Queue)?)?;
    let prepared = base.prepare::<u64>(&[]).is_ok();
    base.replay::<u64>(Vec::new(alloc), &LocSet::empty(alloc));
    let _ = base.edition(3);
    let held = base.held::<u64>().is_ok();
    let copied = base.try_copy().is_ok();
    let called = call_trait(&base, &Op::Enqueue(9));
    drop(base);
    ensure(new && prepared && held && copied && called.is_ok())
}

// It reads what it writes, so it conflicts with itself.
fn call_trait<C: Conflict<u64>>(base: &C, op: &Op<u64>) -> Result<(), Refusal> {
    let outcome = base.outcome(op)?;
    let changes = base.changes(&outcome).is_ok();
    let reads = base.reads(&outcome)?;
    let writes = base.writes(&outcome)?;
    ensure(changes && conflicts(&reads, &writes, &reads, &writes))
}
