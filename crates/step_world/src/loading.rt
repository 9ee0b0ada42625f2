//! What the load of a call's location makes of the table and of its actor.
ghost use Rattle.std.specs.Prelude.{◌≡◌, ◌+◌, ◌<◌, ◌^◌, ℕ, List, true};
ghost use Rattle.seq_model.specs.declared.event.Event.TheVariants.{Step};
ghost use Rattle.step_core.specs.CellSteps.{Grows};
ghost use Rattle.step_core.specs.Sound.{owed};
ghost use Rattle.replay_log.specs.Contents.{Block};
ghost use Rattle.actor_parts.specs.Blocks.{BlocksView};
ghost use Rattle.actor_parts.specs.Dispatch.{is_loading};
ghost use Rattle.tx_actor.specs.ActorBounds.{IsRunning};
ghost use Rattle.tx_actor.specs.Running.{stage_of};
ghost use Rattle.actor_parts.specs.Openings.{HasShape};
ghost use Rattle.step_world.specs.Loading.{IsSeated};
ghost use Rattle.step_world.specs.Turns.{IsTurn, KeepsOwn};

use actor_parts::word_laws::steps_as_worlds;
use actor_parts::{Blocks, Table, copies_stay};
use seq_model::Value;
use tx_actor::laws::{
    copies_by_stage, loads_as_worlds, loads_keep_running, loads_stay_own, seats_as_actors,
};
use tx_actor::{ActorNotice, TxActor};

/// The next step of an actor's words while the locations of its call are read.
pub fn load_word<V: Value>(
    table: &mut Table<V>,
    actor: &mut TxActor<V>,
    blocks: &Blocks,
) -> ActorNotice<V>
    requires running { IsRunning blocks.now actor.old }
    requires shape { HasShape table.old blocks.now.words blocks.now.blocks }
    requires clock { table.old.cells.clock + owed actor.old.words.place < 2 ^ 63 }
    requires loading { is_loading (stage_of actor.old.stage) ≡ true }
    requires seated { IsSeated blocks.now table.old actor.old }
    ensures turns { (v : BlocksView) (a : ℕ) → IsTurn v (Step a) table.old actor.old table.new actor.new result }
    ensures shape { (n : ℕ) (bs : List Block) → HasShape table.old n bs → HasShape table.new n bs }
    ensures bases { table.new.bases ≡ table.old.bases }
    ensures own { (v : BlocksView) (a : ℕ) → KeepsOwn v (Step a) table.old actor.old actor.new }
    ensures running { IsRunning blocks.now actor.new }
    ensures grows { Grows table.old.cells actor.old.words table.new.cells actor.new.words }
{
    steps_as_worlds::<V>();
    seats_as_actors::<V>();
    loads_as_worlds::<V>();
    loads_keep_running::<V>();
    loads_stay_own::<V>();
    copies_stay::<V>();
    copies_by_stage::<V>();
    let told = table.step(&mut actor.words);
    actor.on_load_step(told)
}
