//! The result of a world's events.
ghost use Rattle.std.specs.Prelude.{◌≡◌, ◌&&◌, IfOk, OnOk};
ghost use Rattle.replay_log.specs.Worlds.{is_half_done};
ghost use Rattle.replay_log.specs.WorldTraces.{half_in};
ghost use Rattle.tx_actor.specs.Running.{stage_of};
ghost use Rattle.step_world.specs.Traces.{is_half, seat_at, with_number};

use seq_model::{Call, Items, Memory, Record, Refusal, Reply, State, Value, copy_of_calls};
use std::alloc::{AllocError, Global};
use tx_actor::{Stage, TxActor};

/// A transaction that was aborted.
#[derive(Debug, Drop)]
pub struct Ended<V> {
    pub actor: u32,
    /// The version clock as it began.
    pub rv: u64,
    /// Its calls with the replies that they got.
    pub calls: Items<(Call<V>, Reply<V>)>,
    /// Why it was aborted; `None` where its actor asked for it.
    pub cause: Option<Refusal>,
}

/// The result of a world's events. `Debug` prints it without its state.
#[derive(Drop)]
#[derive_where(Debug; V)]
pub struct Trace<V> {
    /// The committed transactions with their actors, in commit order: by number; at one number the writer first, then
    /// readers by actor, then as they were committed.
    pub records: Items<(u32, Record<V>)>,
    /// The aborted transactions, in the order of their ending.
    pub aborted: Items<Ended<V>>,
    /// What words and collections hold.
    #[derive_where(skip(Debug))]
    pub state: State<V>,
    /// The numbers of the commits whose last release hasn't been done, rising.
    pub half: Items<u64>,
}

impl<V: Value> Ended<V> {
    fn try_copy(&self, alloc: Global) -> Result<Ended<V>, Memory>
        ensures { IfOk result (λ copy. copy ≡ self.now) }
    {
        Ok(Ended {
            actor: self.actor,
            rv: self.rv,
            calls: copy_of_calls(alloc, &self.calls)?,
            cause: self.cause,
        })
    }
}

/// A copy of records. `Memory` where an allocation fails.
pub fn copy_of_records<V: Value>(
    alloc: Global,
    records: &[(u32, Record<V>)],
) -> Result<Vec<(u32, Record<V>)>, Memory>
    ensures { IfOk result (λ copy. copy.items ≡ records.now) }
{
    let mut copy = Vec::with_capacity(alloc, records.len())?;
    for (actor, made) in records {
        copy.push((*actor, made.try_copy(alloc)?))?;
    }
    Ok(copy)
}

/// A copy of aborted transactions. `Memory` where an allocation fails.
pub fn copy_of_aborted<V: Value>(
    alloc: Global,
    aborted: &[Ended<V>],
) -> Result<Vec<Ended<V>>, Memory>
    ensures { IfOk result (λ copy. copy.items ≡ aborted.now) }
{
    let mut copy = Vec::with_capacity(alloc, aborted.len())?;
    for ended in aborted {
        copy.push(ended.try_copy(alloc)?)?;
    }
    Ok(copy)
}

fn is_between<V>(stage: &Stage<V>) -> bool
    ensures { result ≡ is_half_done (stage_of stage.now) }
{
    match stage {
        Stage::Storing(_) => true,
        Stage::Homing(_) => true,
        Stage::Releasing => true,
        _ => false,
    }
}

fn both(first: bool, second: bool) -> bool
    ensures { result ≡ (first && second) }
{
    first && second
}

/// Whether a record is that of a half-done commit.
fn is_half<V>(actors: &[TxActor<V>], entry: &(u32, Record<V>)) -> bool
    ensures { result ≡ is_half (seat_at actors.now) entry.now }
{
    let actor = entry.0 as usize;
    if actor == 0 {
        return false;
    }
    match actors.get(actor - 1) {
        Some(running) => {
            let theirs = both(is_between(&running.stage), entry.1.number == running.wv);
            both(entry.1.writes, theirs)
        }
        None => false,
    }
}

fn add_number(found: &mut Vec<u64>, number: u64, half: bool) -> Result<(), AllocError>
    ensures { OnOk result (found.new.items ≡ with_number half number found.old.items) }
{
    if half {
        found.push(number)?;
        return Ok(());
    }
    Ok(())
}

/// The numbers of the half-done commits among these records. The allocation for the list may fail.
pub fn half_done<V>(
    alloc: Global,
    actors: &[TxActor<V>],
    records: &[(u32, Record<V>)],
) -> Result<Vec<u64>, AllocError>
    ensures { IfOk result (λ found. found.items ≡ half_in (seat_at actors.now) records.now) }
{
    let mut found = Vec::new(alloc);
    for entry in records {
        let half = is_half(actors, entry);
        add_number(&mut found, entry.1.number, half)?;
    }
    Ok(found)
}
