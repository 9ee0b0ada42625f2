//! What a base that is put back makes of the table and of its actor.
ghost use Rattle.std.specs.Prelude.{◌≡◌, ◌≢◌, ◌<◌, ℕ, List, All, OnOk, length, slice_get};
ghost use Rattle.replay_log.specs.Contents.{Block};
ghost use Rattle.actor_parts.specs.Blocks.{BlocksView};
ghost use Rattle.actor_parts.specs.Dispatch.{next_of};
ghost use Rattle.tx_actor.specs.CopiesByStage.{KeepsFrom};
ghost use Rattle.tx_actor.specs.ActorBounds.{KeepsIn, NamesAmong};
ghost use Rattle.actor_parts.specs.Logs.{OthersStand};
ghost use Rattle.tx_actor.specs.Running.{stage_of};
ghost use Rattle.actor_parts.specs.Openings.{HasShape};
ghost use Rattle.step_world.specs.Homes.{AreAlike, HasRoomAt, HasRoomDue, HaveRoom, IsHomeTurn, MayGoHome};

use actor_parts::copy_laws::logs_as_worlds;
use actor_parts::word_laws::{goes_on_as_worlds, steps_as_worlds};
use actor_parts::{Next, Table};
use seq_model::{Memory, Value};
use std::alloc::Global;
use std::collections::VecDeque;
use tx_actor::{ActorNotice, Stage, TxActor};

fn prepare_base<V: Value>(table: &mut Table<V>, actor: &TxActor<V>, k: u32) -> Result<(), Memory>
    requires { k < length table.old.bases.items }
    ensures room { OnOk result (HasRoomAt table.new actor.now.copies.items k) }
    ensures alike { AreAlike table.old.bases.items table.new.bases.items }
    ensures rest { (table.new.cells ≡ table.old.cells) × (table.new.gates ≡ table.old.gates) }
{
    actor.prepares_base(k, &mut table.bases[k as usize])
}

/// Makes room in the bases of these collections for the logs of the actor's calls there, so that putting them back takes no memory. The
/// bases hold what they held before, also where an allocation fails.
fn prepare_bases<V: Value>(
    table: &mut Table<V>,
    actor: &TxActor<V>,
    homes: &VecDeque<u32>,
) -> Result<(), Memory>
    requires { All (λ k. k < length table.old.bases.items) homes.now.items }
    ensures room { OnOk result (HaveRoom table.new actor.now.copies.items homes.now.items) }
    ensures alike { AreAlike table.old.bases.items table.new.bases.items }
    ensures rest { (table.new.cells ≡ table.old.cells) × (table.new.gates ≡ table.old.gates) }
{
    for i in 0..homes.len() {
        prepare_base(table, actor, homes[i])?;
    }
    Ok(())
}

/// The same for the bases that a commit has written, where its first value store is next. `Memory`, where an allocation fails, leaves what
/// the bases hold.
pub fn prepare<V: Value>(table: &mut Table<V>, actor: &TxActor<V>) -> Result<(), Memory>
    requires { NamesAmong (length table.old.bases.items) actor.now.stage }
    ensures room { OnOk result (HasRoomDue table.new actor.now.copies.items actor.now.stage) }
    ensures alike { AreAlike table.old.bases.items table.new.bases.items }
    ensures rest { (table.new.cells ≡ table.old.cells) × (table.new.gates ≡ table.old.gates) }
{
    match &actor.stage {
        Stage::Ready(homes) => prepare_bases(table, actor, homes),
        _ => Ok(()),
    }
}

/// The base of a collection is put back with the log of its actor's calls there, and its gate is put back. There has to be room in the base
/// for the log, so it takes no memory and is never refused.
pub fn go_home<V: Value>(
    alloc: Global,
    table: &mut Table<V>,
    actor: &mut TxActor<V>,
    k: u32,
) -> ActorNotice<V>
    requires inside { (k < length table.old.gates.items) × (k < length table.old.bases.items) }
    requires due { next_of (stage_of actor.old.stage) ≡ Next.GoHome k }
    requires may { MayGoHome k table.old actor.old }
    ensures turns { IsHomeTurn k table.old actor.old table.new actor.new result }
    ensures shape { (n : ℕ) (bs : List Block) → HasShape table.old n bs → HasShape table.new n bs }
    ensures keeps { (v : BlocksView) → KeepsIn v actor.old actor.new }
    ensures others { OthersStand k actor.old.copies.items actor.new.copies.items }
    ensures left { KeepsFrom actor.new.stage actor.old.stage actor.new.copies.items actor.new.copies.items }
    ensures bases { (j : ℕ) → j ≢ k → slice_get table.new.bases.items j ≡ slice_get table.old.bases.items j }
    ensures cells { table.new.cells ≡ table.old.cells }
{
    steps_as_worlds::<V>();
    goes_on_as_worlds::<V>();
    logs_as_worlds::<V>();
    let mut log = actor.log_of(alloc, k);
    table.go_home(k as usize, &mut log);
    let told = actor.on_base_returned();
    actor.keep_log(log);
    told
}
