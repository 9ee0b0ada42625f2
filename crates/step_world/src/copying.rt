//! What a call that is copied makes of the table and of its actor.
ghost use Rattle.std.specs.Prelude.{◌≡◌, ◌<◌, ℕ, List, IfOk, OnErr, OnOk, length};
ghost use Rattle.seq_model.specs.declared.event.Event.TheVariants.{Step};
ghost use Rattle.replay_log.specs.Contents.{Block};
ghost use Rattle.actor_parts.specs.Dispatch.{next_of};
ghost use Rattle.tx_actor.specs.Dispatch.{Starves};
ghost use Rattle.tx_actor.specs.CopiesByStage.{KeepsCopies};
ghost use Rattle.tx_actor.specs.ActorBounds.{IsRunning, KeepsIn};
ghost use Rattle.tx_actor.specs.Running.{stage_of};
ghost use Rattle.tx_actor.specs.declared.actor.ActorNotice.TheVariants as told;
ghost use Rattle.actor_parts.specs.Openings.{HasShape};
ghost use Rattle.step_world.specs.Loading.{IsSeated};
ghost use Rattle.step_world.specs.Turns.{IsTurn, KeepsOwn};

use actor_parts::word_laws::steps_as_worlds;
use actor_parts::{
    Blocks, Next, Table, copies_go_on, copies_stay, excerpts_as_worlds, sizes_copies,
};
use seq_model::{Memory, Value};
use std::alloc::Global;
use tx_actor::laws::{copies_by_stage, copies_stay_own, taken_parts_are_own};
use tx_actor::{ActorNotice, TxActor};

/// What the call of an actor touches of its collection's base is copied, and the gate is put back. Where there is no memory for it the
/// table is unchanged, and the call is aborted as one that starves, which holds its gate.
pub fn copy_base<V: Value>(
    alloc: Global,
    table: &mut Table<V>,
    actor: &mut TxActor<V>,
    blocks: &Blocks,
    k: u32,
) -> Result<ActorNotice<V>, Memory>
    requires inside { (k < length table.old.gates.items) × (k < length table.old.bases.items) }
    requires running { IsRunning blocks.now actor.old }
    requires shape { HasShape table.old blocks.now.words blocks.now.blocks }
    requires due { next_of (stage_of actor.old.stage) ≡ Next.Copy k }
    requires seated { IsSeated blocks.now table.old actor.old }
    ensures turns { IfOk result (λ told. (a : ℕ) → IsTurn blocks.now (Step a) table.old actor.old table.new actor.new told) }
    ensures own { OnOk result ((a : ℕ) → KeepsOwn blocks.now (Step a) table.old actor.old actor.new) }
    ensures starves { OnErr result (Starves actor.old actor.new told.Quiet) }
    ensures leaves { OnErr result (KeepsCopies actor.old actor.new) }
    ensures table { OnErr result (table.new ≡ table.old) }
    ensures shape { (n : ℕ) (bs : List Block) → HasShape table.old n bs → HasShape table.new n bs }
    ensures bases { table.new.bases ≡ table.old.bases }
    ensures cells { table.new.cells ≡ table.old.cells }
    ensures keeps { KeepsIn blocks.now actor.old actor.new }
{
    steps_as_worlds::<V>();
    excerpts_as_worlds::<V>();
    copies_go_on::<V>();
    sizes_copies::<V>();
    copies_stay::<V>();
    copies_by_stage::<V>();
    copies_stay_own::<V>();
    taken_parts_are_own::<V>();
    match actor.copy_at_gate(alloc, blocks, &table.bases[k as usize]) {
        Ok(told) => {
            table.put_gate(k as usize);
            Ok(told)
        }
        Err(_) => Err(Memory),
    }
}
