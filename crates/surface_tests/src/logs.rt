//! Logs, copies of whole collections and of single keys, and replays.
use crate::rows::{ensure, held_of_one};
use conflict::{Change, LocSet};
use replay_log::{Base, Log};
use seq_model::{Kind, Memory, Op, Refusal};
use shadow::{Memo, Shadow};
use std::alloc::Global;

const STRIPES: u32 = 2;

/// The other changes.
pub const CHANGES: &[Change<u64>] = &[
    Change::Remove(1),
    Change::Add(5),
    Change::Take(5),
    Change::SetLeast(None),
    Change::Enqueue(0, 8),
    Change::Dequeue(0),
];

pub fn call(alloc: Global) -> Result<(), Refusal> {
    let edition = edition_of_new(alloc)?;
    let mut base = Base::open(alloc, STRIPES, held_of_one(alloc, Kind::Map)?)?;
    let replayed = call_base(alloc, &mut base).is_ok();
    let copied = call_shadow(alloc, &base).is_ok();
    let noted = call_memo(alloc, &base).is_ok();
    drop(base);
    let mut log = Log::new(alloc);
    let pushed = call_log(&mut log, &LocSet::single(alloc, 1)).is_ok();
    drop(log);
    ensure(edition == 0 && replayed && copied && noted && pushed)
}

fn edition_of_new(alloc: Global) -> Result<u64, Refusal> {
    let base = Base::<u64>::new(alloc, STRIPES, Kind::Map)?;
    let edition = base.edition(1);
    drop(base);
    Ok(edition)
}

fn call_base(alloc: Global, base: &mut Base<u64>) -> Result<(), Refusal> {
    base.prepare(&[])?;
    base.replay(Vec::new(alloc), &LocSet::empty(alloc));
    let log = Log::new(alloc);
    base.prepare(log.changes())?;
    log.fold_into(base);
    let outcome = base.outcome(&Op::Put(2, 21))?;
    let reads = base.reads(&outcome).is_ok();
    let writes = base.writes(&outcome).is_ok();
    let changes = base.changes(&outcome).is_ok();
    let held = base.held().is_ok();
    ensure(reads && writes && changes && held)
}

fn call_log(log: &mut Log<u64>, at: &LocSet) -> Result<(), Memory> {
    log.reserve(1)?;
    log.push(Change::Put(1, 10), at)
}

fn call_shadow(alloc: Global, base: &Base<u64>) -> Result<(), Refusal> {
    let mut shadow = Shadow::of_copy(alloc, base.try_copy()?);
    let outcome = shadow.answer(&Op::Put(2, 21))?;
    shadow.ready(&outcome)?;
    shadow.accept(outcome);
    drop(shadow.log());
    Ok(())
}

fn call_memo(alloc: Global, base: &Base<u64>) -> Result<(), Refusal> {
    let mut memo = Memo::new(alloc, STRIPES, Kind::Map)?;
    if !memo.holds(&Op::Get(2)) {
        memo.add(base.touch(&Op::Get(2))?)?;
    }
    let outcome = memo.answer(&Op::Get(2))?;
    memo.ready(&outcome)?;
    memo.accept(outcome);
    drop(memo.log());
    Ok(())
}
