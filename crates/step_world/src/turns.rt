//! What an event makes of the table and of its actor.
ghost use Rattle.std.specs.Prelude.{◌≡◌, ◌+◌, ◌<◌, ◌^◌, ℕ, List, false, true, length, IfOk, OnErr, OnOk};
ghost use Rattle.seq_model.specs.declared.event.Event.TheVariants.{Step};
ghost use Rattle.step_core.specs.CellSteps.{Grows};
ghost use Rattle.step_core.specs.Sound.{Fits, owed};
ghost use Rattle.replay_log.specs.Contents.{Block, end_of};
ghost use Rattle.tx_actor.specs.Asks.{Stands};
ghost use Rattle.actor_parts.specs.Blocks.{BlocksView};
ghost use Rattle.tx_actor.specs.Dispatch.{Records};
ghost use Rattle.actor_parts.specs.Dispatch.{is_loading, next_of};
ghost use Rattle.tx_actor.specs.CopiesByStage.{KeepsCopies};
ghost use Rattle.tx_actor.specs.ActorBounds.{IsRunning, KeepsIn};
ghost use Rattle.tx_actor.specs.Running.{stage_of};
ghost use Rattle.actor_parts.specs.Openings.{HasShape};
ghost use Rattle.step_world.specs.Turns.{IsTurn};

use crate::trace::Ended;
use actor_parts::word_laws::{goes_on_as_worlds, steps_as_worlds};
use actor_parts::{Blocks, Next, Table};
use seq_model::{Items, Memory, Record, Value};
use std::alloc::Global;
use std::mem;
use tx_actor::{ActorNotice, Stage, TxActor};

/// The next step of an actor's words.
pub fn step_word<V: Value>(
    table: &mut Table<V>,
    actor: &mut TxActor<V>,
    blocks: &Blocks,
) -> ActorNotice<V>
    requires running { IsRunning blocks.now actor.old }
    requires shape { HasShape table.old blocks.now.words blocks.now.blocks }
    requires clock { table.old.cells.clock + owed actor.old.words.place < 2 ^ 63 }
    requires due { next_of (stage_of actor.old.stage) ≡ Next.Word }
    requires word { is_loading (stage_of actor.old.stage) ≡ false }
    ensures turns { (v : BlocksView) (a : ℕ) → IsTurn v (Step a) table.old actor.old table.new actor.new result }
    ensures shape { (n : ℕ) (bs : List Block) → HasShape table.old n bs → HasShape table.new n bs }
    ensures bases { table.new.bases ≡ table.old.bases }
    ensures running { IsRunning blocks.now actor.new }
    ensures leaves { KeepsCopies actor.old actor.new }
    ensures grows { Grows table.old.cells actor.old.words table.new.cells actor.new.words }
    ensures made { Records actor.old.stage → actor.new.made.items ≡ actor.old.calls.items }
{
    steps_as_worlds::<V>();
    goes_on_as_worlds::<V>();
    let told = table.step(&mut actor.words);
    actor.on_step(told)
}

/// The load of the clock that commits a transaction without writes, with its record. It takes no memory.
pub fn close<V: Value>(
    alloc: Global,
    table: &mut Table<V>,
    actor: &mut TxActor<V>,
    blocks: &Blocks,
) -> (ActorNotice<V>, Record<V>)
    requires running { IsRunning blocks.now actor.old }
    requires shape { HasShape table.old blocks.now.words blocks.now.blocks }
    requires clock { table.old.cells.clock + owed actor.old.words.place < 2 ^ 63 }
    requires stage { actor.old.stage ≡ Stage.Closing }
    ensures turns { (v : BlocksView) (a : ℕ) → IsTurn v (Step a) table.old actor.old table.new actor.new result.0 }
    ensures shape { (n : ℕ) (bs : List Block) → HasShape table.old n bs → HasShape table.new n bs }
    ensures bases { table.new.bases ≡ table.old.bases }
    ensures running { IsRunning blocks.now actor.new }
    ensures leaves { KeepsCopies actor.old actor.new }
    ensures grows { Grows table.old.cells actor.old.words table.new.cells actor.new.words }
    ensures number { result.1.number ≡ actor.old.rv }
    ensures reads { result.1.writes ≡ false }
    ensures calls { result.1.calls ≡ actor.old.calls.items }
{
    let number = actor.rv;
    let told = step_word(table, actor, blocks);
    let calls = Items::from_vec(mem::replace(&mut actor.made, Vec::new(alloc)));
    let record = Record {
        number,
        writes: false,
        calls,
    };
    (told, record)
}

/// The load of the clock that ends the aborted transaction of the actor of this number, with its answer. It takes no memory.
pub fn leave<V: Value>(
    alloc: Global,
    table: &mut Table<V>,
    actor: &mut TxActor<V>,
    blocks: &Blocks,
    number: u32,
) -> (ActorNotice<V>, Ended<V>)
    requires running { IsRunning blocks.now actor.old }
    requires shape { HasShape table.old blocks.now.words blocks.now.blocks }
    requires clock { table.old.cells.clock + owed actor.old.words.place < 2 ^ 63 }
    requires stage { actor.old.stage ≡ Stage.Leaving }
    ensures turns { (v : BlocksView) (a : ℕ) → IsTurn v (Step a) table.old actor.old table.new actor.new result.0 }
    ensures shape { (n : ℕ) (bs : List Block) → HasShape table.old n bs → HasShape table.new n bs }
    ensures bases { table.new.bases ≡ table.old.bases }
    ensures running { IsRunning blocks.now actor.new }
    ensures leaves { KeepsCopies actor.old actor.new }
    ensures grows { Grows table.old.cells actor.old.words table.new.cells actor.new.words }
    ensures actor { result.1.actor ≡ number }
    ensures rv { result.1.rv ≡ actor.old.rv }
    ensures cause { result.1.cause ≡ actor.old.cause }
    ensures calls { result.1.calls ≡ actor.old.calls.items }
{
    let rv = actor.rv;
    let cause = actor.cause;
    let told = step_word(table, actor, blocks);
    let calls = Items::from_vec(mem::replace(&mut actor.made, Vec::new(alloc)));
    let ended = Ended {
        actor: number,
        rv,
        calls,
        cause,
    };
    (told, ended)
}

/// The first value store of a commit: its request, and then the step of the words. Out of memory, the actor shows what it showed before.
pub fn first_store<V: Value>(
    table: &mut Table<V>,
    actor: &mut TxActor<V>,
    blocks: &Blocks,
) -> Result<ActorNotice<V>, Memory>
    requires running { IsRunning blocks.now actor.old }
    requires shape { HasShape table.old blocks.now.words blocks.now.blocks }
    requires clock { table.old.cells.clock + owed actor.old.words.place < 2 ^ 63 }
    requires due { next_of (stage_of actor.old.stage) ≡ Next.FirstStore }
    ensures turns { IfOk result (λ told. (v : BlocksView) (a : ℕ) → IsTurn v (Step a) table.old actor.old table.new actor.new told) }
    ensures stands { OnErr result (Stands actor.old actor.new) }
    ensures table { OnErr result (table.new ≡ table.old) }
    ensures shape { (n : ℕ) (bs : List Block) → HasShape table.old n bs → HasShape table.new n bs }
    ensures bases { table.new.bases ≡ table.old.bases }
    ensures running { IsRunning blocks.now actor.new }
    ensures leaves { OnOk result (KeepsCopies actor.old actor.new) }
    ensures rest { OnErr result (actor.new ≡ record actor.old { words = actor.new.words }) }
    ensures grows { Grows table.old.cells actor.old.words table.new.cells actor.new.words }
    ensures made { OnOk result (actor.new.made.items ≡ actor.old.calls.items) }
{
    steps_as_worlds::<V>();
    goes_on_as_worlds::<V>();
    actor.request_store(blocks)?;
    let told = table.step(&mut actor.words);
    Ok(actor.on_step(told))
}

/// The first value store of a commit, with the record that it makes. Out of memory, the actor shows what it showed before.
pub fn commit<V: Value>(
    alloc: Global,
    table: &mut Table<V>,
    actor: &mut TxActor<V>,
    blocks: &Blocks,
) -> Result<(ActorNotice<V>, Record<V>), Memory>
    requires running { IsRunning blocks.now actor.old }
    requires shape { HasShape table.old blocks.now.words blocks.now.blocks }
    requires clock { table.old.cells.clock + owed actor.old.words.place < 2 ^ 63 }
    requires due { next_of (stage_of actor.old.stage) ≡ Next.FirstStore }
    ensures turns { IfOk result (λ done. (v : BlocksView) (a : ℕ) → IsTurn v (Step a) table.old actor.old table.new actor.new done.0) }
    ensures stands { OnErr result (Stands actor.old actor.new) }
    ensures table { OnErr result (table.new ≡ table.old) }
    ensures shape { (n : ℕ) (bs : List Block) → HasShape table.old n bs → HasShape table.new n bs }
    ensures bases { table.new.bases ≡ table.old.bases }
    ensures running { IsRunning blocks.now actor.new }
    ensures leaves { OnOk result (KeepsCopies actor.old actor.new) }
    ensures rest { OnErr result (actor.new ≡ record actor.old { words = actor.new.words }) }
    ensures grows { Grows table.old.cells actor.old.words table.new.cells actor.new.words }
    ensures number { IfOk result (λ done. done.1.number ≡ actor.old.wv) }
    ensures writes { IfOk result (λ done. done.1.writes ≡ true) }
    ensures calls { IfOk result (λ done. done.1.calls ≡ actor.old.calls.items) }
{
    let number = actor.wv;
    let told = first_store(table, actor, blocks)?;
    let calls = Items::from_vec(mem::replace(&mut actor.made, Vec::new(alloc)));
    let record = Record {
        number,
        writes: true,
        calls,
    };
    Ok((told, record))
}

/// A try on the gate of a collection, by the actor of this number.
pub fn try_gate<V: Value>(
    table: &mut Table<V>,
    actor: &mut TxActor<V>,
    number: u32,
    k: u32,
) -> ActorNotice<V>
    requires number { 0 < number }
    requires inside { k < length table.old.gates.items }
    requires due { next_of (stage_of actor.old.stage) ≡ Next.TryGate k }
    ensures turns { (v : BlocksView) → IsTurn v (Step number) table.old actor.old table.new actor.new result }
    ensures shape { (n : ℕ) (bs : List Block) → HasShape table.old n bs → HasShape table.new n bs }
    ensures bases { table.new.bases ≡ table.old.bases }
    ensures keeps { (v : BlocksView) → KeepsIn v actor.old actor.new }
    ensures leaves { KeepsCopies actor.old actor.new }
    ensures cells { table.new.cells ≡ table.old.cells }
{
    steps_as_worlds::<V>();
    let free = table.take_gate(k as usize, number);
    actor.on_gate_tried(free)
}

/// The store that puts a gate back which the actor holds, its base as it was.
pub fn put_gate<V: Value>(table: &mut Table<V>, actor: &mut TxActor<V>, k: u32) -> ActorNotice<V>
    requires inside { k < length table.old.gates.items }
    requires due { next_of (stage_of actor.old.stage) ≡ Next.PutGate k }
    ensures turns { (v : BlocksView) (a : ℕ) → IsTurn v (Step a) table.old actor.old table.new actor.new result }
    ensures shape { (n : ℕ) (bs : List Block) → HasShape table.old n bs → HasShape table.new n bs }
    ensures bases { table.new.bases ≡ table.old.bases }
    ensures keeps { (v : BlocksView) → KeepsIn v actor.old actor.new }
    ensures leaves { KeepsCopies actor.old actor.new }
    ensures cells { table.new.cells ≡ table.old.cells }
{
    steps_as_worlds::<V>();
    table.put_gate(k as usize);
    actor.on_gate_put()
}
