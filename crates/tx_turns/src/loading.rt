//! The turn on a location that a call reads.
ghost use Rattle.std.specs.Prelude.{◌≡◌, true};
ghost use Rattle.actor_parts.specs.Dispatch.{is_loading};
ghost use Rattle.tx_actor.specs.Running.{stage_of};
ghost use Rattle.shared_table.specs.Seated.{opening_of};
ghost use Rattle.tx_turns.specs.Ties.{Ties, Turned};
ghost use Rattle.tx_turns.specs.Own.{HasOwn};

use crate::stepping::step_words;
use actor_parts::word_laws::steps_as_worlds;
use actor_parts::{Boxed, copies_stay};
use replay_log::Base;
use seq_model::Value;
use shared_table::{Seat, TxTable};
use tx_actor::laws::{
    copies_by_stage, loads_as_worlds, loads_keep_running, loads_stay_own, seats_as_actors,
};
use tx_actor::{ActorNotice, TxActor};

/// The next step of an actor's words while the locations of its call are read: with the copied edition the call continues, and is accepted
/// at the last; with another the copy is stale, and where the location has moved the transaction is aborted.
pub fn load_word<V: Value>(
    table: &TxTable<V>,
    seat: &mut Seat<V>,
    actor: &mut TxActor<V>,
    bases: &[Boxed<Base<V>>],
) -> ActorNotice<V>
    requires ties { Ties table.now seat.old actor.old }
    requires own { HasOwn table.now seat.old actor.old bases.now }
    requires loading { is_loading (stage_of actor.old.stage) ≡ true }
    ensures turned { Turned (opening_of table.now) seat.old actor.old seat.new result }
    ensures ties { Ties table.now seat.new actor.new }
    ensures own { HasOwn table.now seat.new actor.new bases.now }
{
    steps_as_worlds::<V>();
    seats_as_actors::<V>();
    loads_as_worlds::<V>();
    loads_keep_running::<V>();
    loads_stay_own::<V>();
    copies_stay::<V>();
    copies_by_stage::<V>();
    let _ = bases;
    let told = step_words(table, seat, &mut actor.words);
    actor.on_load_step(told)
}
