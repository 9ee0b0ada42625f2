//! The loads of a location that a call reads, in straight code.
ghost use Rattle.std.specs.Prelude.{◌≡◌, ◌≢◌, false, true, IfErr, IfOk, IfSome};
ghost use Rattle.actor_parts.specs.Dispatch.{is_loading};
ghost use Rattle.replay_log.specs.WorldProgress.{AreSmall};
ghost use Rattle.step_core.specs.declared.actor.Place.TheVariants.{Again, Fetch, Look};
ghost use Rattle.tx_actor.specs.Running.{stage_of};
ghost use Rattle.shared_table.specs.Seated.{blocks_in, opening_of};
ghost use Rattle.tx_turns.specs.Ties.{Ties};
ghost use Rattle.tx_turns.specs.Own.{HasOwn};
ghost use Rattle.tx_turns.specs.Driven.{LeadsOn, told_in};
ghost use Rattle.tx_turns.specs.Straight.{HasLed, at_place};

use crate::turns::report;
use actor_parts::Boxed;
use actor_parts::word_laws::steps_as_worlds;
use replay_log::Base;
use seq_model::Value;
use shared_table::{Seat, TxTable};
use step_core::Place;
use tx_actor::laws::{
    copies_by_stage, loads_as_worlds, loads_keep_running, loads_stay_own, seats_as_actors,
};
use tx_actor::{ActorNotice, Stage, TxActor};
use vlock_word::LockWord;

/// The location that is to be read for a call, none of whose loads was made yet.
#[inline(always)]
pub(crate) fn location_to_load<V>(actor: &TxActor<V>) -> Option<u32>
    ensures loading { IfSome result (λ location. is_loading (stage_of actor.now.stage) ≡ true) }
    ensures place { IfSome result (λ location. actor.now.words.place ≡ Look location) }
{
    match &actor.stage {
        Stage::Loading(..) => match actor.words.place {
            Place::Look(location) => Some(location),
            _ => None,
        },
        _ => None,
    }
}

/// The first load of its lock word: its version, where it is free and no newer than the transaction. The actor is as it was then, and
/// waits for the value. Else the transaction is being aborted.
#[inline(always)]
fn look_for<V: Value>(
    table: &TxTable<V>,
    seat: &mut Seat<V>,
    actor: &mut TxActor<V>,
    bases: &[Boxed<Base<V>>],
    location: u32,
) -> Result<u64, ActorNotice<V>>
    requires ties { Ties table.now seat.old (at_place actor.old (Look location)) }
    requires own { HasOwn table.now seat.old (at_place actor.old (Look location)) bases.now }
    requires small { AreSmall (blocks_in table.now) }
    requires loading { is_loading (stage_of actor.old.stage) ≡ true }
    ensures actor { IfOk result (λ version. actor.new ≡ actor.old) }
    ensures led { IfOk result (λ version. HasLed table.now seat.old seat.new (at_place actor.old (Fetch location version))
        ActorNotice.Quiet bases.now) }
    ensures moved { IfErr result (λ told. HasLed table.now seat.old seat.new actor.new told bases.now) }
{
    steps_as_worlds::<V>();
    seats_as_actors::<V>();
    loads_as_worlds::<V>();
    loads_keep_running::<V>();
    loads_stay_own::<V>();
    copies_by_stage::<V>();
    let _ = bases;
    let found = table.load_lock(seat, location);
    if let LockWord::Free(version) = LockWord::read(found) {
        if version <= actor.words.rv {
            return Ok(version);
        }
    }
    actor.words.place = Place::Look(location);
    let told = actor.words.look(location, found);
    Err(actor.on_load_step(told))
}

/// The load of its value.
#[inline(always)]
fn fetch_for<V: Value>(
    table: &TxTable<V>,
    seat: &mut Seat<V>,
    actor: &TxActor<V>,
    bases: &[Boxed<Base<V>>],
    location: u32,
    version: u64,
) -> u64
    requires ties { Ties table.now seat.old (at_place actor.now (Fetch location version)) }
    requires own { HasOwn table.now seat.old (at_place actor.now (Fetch location version)) bases.now }
    requires small { AreSmall (blocks_in table.now) }
    requires loading { is_loading (stage_of actor.now.stage) ≡ true }
    ensures { HasLed table.now seat.old seat.new (at_place actor.now (Again location version result)) ActorNotice.Quiet bases.now }
{
    steps_as_worlds::<V>();
    seats_as_actors::<V>();
    loads_as_worlds::<V>();
    loads_keep_running::<V>();
    loads_stay_own::<V>();
    copies_by_stage::<V>();
    let _ = actor;
    let _ = bases;
    let _ = version;
    table.load_value(seat, location)
}

/// The second load of its lock word, and what the actor makes of it.
#[inline(always)]
fn again_for<V: Value>(
    table: &TxTable<V>,
    seat: &mut Seat<V>,
    actor: &mut TxActor<V>,
    bases: &[Boxed<Base<V>>],
    location: u32,
    version: u64,
    value: u64,
) -> ActorNotice<V>
    requires ties { Ties table.now seat.old (at_place actor.old (Again location version value)) }
    requires own { HasOwn table.now seat.old (at_place actor.old (Again location version value)) bases.now }
    requires small { AreSmall (blocks_in table.now) }
    requires loading { is_loading (stage_of actor.old.stage) ≡ true }
    ensures { HasLed table.now seat.old seat.new actor.new result bases.now }
{
    steps_as_worlds::<V>();
    seats_as_actors::<V>();
    loads_as_worlds::<V>();
    loads_keep_running::<V>();
    loads_stay_own::<V>();
    copies_by_stage::<V>();
    let _ = bases;
    let found = table.load_lock(seat, location);
    actor.words.place = Place::Again(location, version, value);
    let told = actor.words.again(location, version, value, found);
    actor.on_load_step(told)
}

/// The three loads of a location that a call reads, one atomic step each. They answer nothing where others have changed the location, so
/// that the transaction is being aborted, or where the call has a further one to load; else the last one returns the call's answer. Between
/// them the actor is unchanged.
#[inline(always)]
pub(crate) fn load_on<V: Value>(
    table: &TxTable<V>,
    seat: &mut Seat<V>,
    actor: &mut TxActor<V>,
    bases: &[Boxed<Base<V>>],
    location: u32,
    said: &mut ActorNotice<V>,
) -> bool
    requires ties { Ties table.now seat.old actor.old }
    requires own { HasOwn table.now seat.old actor.old bases.now }
    requires small { AreSmall (blocks_in table.now) }
    requires loading { is_loading (stage_of actor.old.stage) ≡ true }
    requires place { actor.old.words.place ≡ Look location }
    ensures leads { LeadsOn (opening_of table.now) seat.old seat.new (told_in result said.new) }
    ensures answered { result ≡ false → said.new ≢ ActorNotice.Quiet }
    ensures ties { Ties table.now seat.new actor.new }
    ensures own { HasOwn table.now seat.new actor.new bases.now }
{
    match look_for(table, seat, actor, bases, location) {
        Ok(version) => {
            let value = fetch_for(table, seat, actor, bases, location, version);
            report(
                again_for(table, seat, actor, bases, location, version, value),
                said,
            )
        }
        Err(told) => report(told, said),
    }
}
