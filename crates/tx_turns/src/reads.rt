//! The loads of a word that is read, in straight code.
ghost use Rattle.std.specs.Prelude.{◌≡◌, ◌≢◌, false, IfErr, IfOk, IfSome};
ghost use Rattle.actor_parts.specs.Dispatch.{next_of};
ghost use Rattle.tx_actor.specs.Running.{stage_of};
ghost use Rattle.replay_log.specs.WorldProgress.{AreSmall};
ghost use Rattle.step_core.specs.declared.actor.Place.TheVariants.{Again, Fetch, Look};
ghost use Rattle.shared_table.specs.Seated.{blocks_in, opening_of};
ghost use Rattle.tx_turns.specs.Ties.{Ties};
ghost use Rattle.tx_turns.specs.Own.{HasOwn};
ghost use Rattle.tx_turns.specs.Driven.{LeadsOn, told_in};
ghost use Rattle.tx_turns.specs.Straight.{HasLed, LeadsAll, at_place};

use crate::laws::turns_keep_own;
use crate::loads::{load_on, location_to_load};
use crate::releases::{has_locks, release_each};
use crate::steps;
use crate::stores::{store_each, value_to_store};
use crate::turns::report;
use actor_parts::word_laws::steps_as_worlds;
use actor_parts::{Boxed, Next};
use replay_log::Base;
use seq_model::Value;
use shared_table::{Seat, TxTable};
use step_core::Place;
use tx_actor::{ActorNotice, Stage, TxActor};
use vlock_word::LockWord;

/// The word that is to be read, none of whose loads was made yet.
#[inline(always)]
fn word_to_read<V>(actor: &TxActor<V>) -> Option<u32>
    ensures stage { IfSome result (λ word. actor.now.stage ≡ Stage.Reading word) }
    ensures place { IfSome result (λ word. actor.now.words.place ≡ Look word) }
{
    match &actor.stage {
        Stage::Reading(word) => match actor.words.place {
            Place::Look(location) => {
                if location == *word {
                    return Some(location);
                }
                None
            }
            _ => None,
        },
        _ => None,
    }
}

/// The first load of its lock word: its version, where it is free and no newer than the transaction. The actor is as it was then, and
/// waits for the value. Else the transaction is being aborted.
#[inline(always)]
fn look_on<V: Value>(
    table: &TxTable<V>,
    seat: &mut Seat<V>,
    actor: &mut TxActor<V>,
    bases: &[Boxed<Base<V>>],
    word: u32,
) -> Result<u64, ActorNotice<V>>
    requires ties { Ties table.now seat.old (at_place actor.old (Look word)) }
    requires own { HasOwn table.now seat.old (at_place actor.old (Look word)) bases.now }
    requires small { AreSmall (blocks_in table.now) }
    requires stage { actor.old.stage ≡ Stage.Reading word }
    ensures actor { IfOk result (λ version. actor.new ≡ actor.old) }
    ensures led { IfOk result (λ version. HasLed table.now seat.old seat.new (at_place actor.old (Fetch word version)) ActorNotice.Quiet
        bases.now) }
    ensures moved { IfErr result (λ told. HasLed table.now seat.old seat.new actor.new told bases.now) }
{
    steps_as_worlds::<V>();
    turns_keep_own::<V>();
    let _ = bases;
    let found = table.load_lock(seat, word);
    if let LockWord::Free(version) = LockWord::read(found) {
        if version <= actor.words.rv {
            return Ok(version);
        }
    }
    actor.words.place = Place::Look(word);
    let told = actor.words.look(word, found);
    Err(actor.on_step(told))
}

/// The load of its value.
#[inline(always)]
fn fetch_on<V: Value>(
    table: &TxTable<V>,
    seat: &mut Seat<V>,
    actor: &TxActor<V>,
    bases: &[Boxed<Base<V>>],
    word: u32,
    version: u64,
) -> u64
    requires ties { Ties table.now seat.old (at_place actor.now (Fetch word version)) }
    requires own { HasOwn table.now seat.old (at_place actor.now (Fetch word version)) bases.now }
    requires small { AreSmall (blocks_in table.now) }
    requires stage { actor.now.stage ≡ Stage.Reading word }
    ensures { HasLed table.now seat.old seat.new (at_place actor.now (Again word version result)) ActorNotice.Quiet bases.now }
{
    steps_as_worlds::<V>();
    turns_keep_own::<V>();
    let _ = actor;
    let _ = bases;
    let _ = version;
    table.load_value(seat, word)
}

/// The second load of its lock word, and what the actor makes of it.
#[inline(always)]
fn again_on<V: Value>(
    table: &TxTable<V>,
    seat: &mut Seat<V>,
    actor: &mut TxActor<V>,
    bases: &[Boxed<Base<V>>],
    word: u32,
    version: u64,
    value: u64,
) -> ActorNotice<V>
    requires ties { Ties table.now seat.old (at_place actor.old (Again word version value)) }
    requires own { HasOwn table.now seat.old (at_place actor.old (Again word version value)) bases.now }
    requires small { AreSmall (blocks_in table.now) }
    requires stage { actor.old.stage ≡ Stage.Reading word }
    ensures { HasLed table.now seat.old seat.new actor.new result bases.now }
{
    steps_as_worlds::<V>();
    turns_keep_own::<V>();
    let _ = bases;
    let found = table.load_lock(seat, word);
    actor.words.place = Place::Again(word, version, value);
    match actor.words.again(word, version, value, found) {
        Ok(told) => {
            let _ = told;
            actor.read(word, value)
        }
        Err(cause) => actor.on_step(Err(cause)),
    }
}

/// The three loads of a word that is read, one atomic step each. They answer nothing where others have changed the word, so that the
/// transaction is being aborted; else the last one returns the reply. Between them the actor is unchanged.
#[inline(always)]
fn read_on<V: Value>(
    table: &TxTable<V>,
    seat: &mut Seat<V>,
    actor: &mut TxActor<V>,
    bases: &[Boxed<Base<V>>],
    word: u32,
    said: &mut ActorNotice<V>,
) -> bool
    requires ties { Ties table.now seat.old actor.old }
    requires own { HasOwn table.now seat.old actor.old bases.now }
    requires small { AreSmall (blocks_in table.now) }
    requires stage { actor.old.stage ≡ Stage.Reading word }
    requires place { actor.old.words.place ≡ Look word }
    ensures leads { LeadsOn (opening_of table.now) seat.old seat.new (told_in result said.new) }
    ensures answered { result ≡ false → said.new ≢ ActorNotice.Quiet }
    ensures ties { Ties table.now seat.new actor.new }
    ensures own { HasOwn table.now seat.new actor.new bases.now }
{
    match look_on(table, seat, actor, bases, word) {
        Ok(version) => {
            let value = fetch_on(table, seat, actor, bases, word, version);
            report(
                again_on(table, seat, actor, bases, word, version, value),
                said,
            )
        }
        Err(told) => report(told, said),
    }
}

/// The loads of a word, where one is to be read.
#[inline(always)]
pub(crate) fn word_read_on<V: Value>(
    table: &TxTable<V>,
    seat: &mut Seat<V>,
    actor: &mut TxActor<V>,
    bases: &[Boxed<Base<V>>],
    said: &mut ActorNotice<V>,
) -> bool
    requires ties { Ties table.now seat.old actor.old }
    requires own { HasOwn table.now seat.old actor.old bases.now }
    requires small { AreSmall (blocks_in table.now) }
    ensures leads { LeadsAll (opening_of table.now) seat.old seat.new (told_in result said.new) }
    ensures answered { result ≡ false → said.new ≢ ActorNotice.Quiet }
    ensures ties { Ties table.now seat.new actor.new }
    ensures own { HasOwn table.now seat.new actor.new bases.now }
{
    match word_to_read(actor) {
        Some(word) => read_on(table, seat, actor, bases, word, said),
        None => true,
    }
}

/// Like [`steps::steps_on`], but the loads of a word that is read and of a location that a call reads, the value stores of a commit after
/// its first, and the stores that give its locks back are straight code.
#[inline(always)]
pub(crate) fn steps_on<V: Value>(
    table: &TxTable<V>,
    seat: &mut Seat<V>,
    actor: &mut TxActor<V>,
    bases: &[Boxed<Base<V>>],
    said: &mut ActorNotice<V>,
) -> bool
    requires ties { Ties table.now seat.old actor.old }
    requires own { HasOwn table.now seat.old actor.old bases.now }
    requires small { AreSmall (blocks_in table.now) }
    requires due { next_of (stage_of actor.old.stage) ≡ Next.Word }
    requires open { actor.old.stage ≢ Stage.Closing }
    ensures leads { LeadsOn (opening_of table.now) seat.old seat.new (told_in result said.new) }
    ensures answered { result ≡ false → said.new ≢ ActorNotice.Quiet }
    ensures ties { Ties table.now seat.new actor.new }
    ensures own { HasOwn table.now seat.new actor.new bases.now }
{
    if let Some(word) = word_to_read(actor) {
        return read_on(table, seat, actor, bases, word, said);
    }
    if let Some(location) = location_to_load(actor) {
        return load_on(table, seat, actor, bases, location, said);
    }
    if let Some(i) = value_to_store(actor) {
        return store_each(table, seat, actor, bases, i, said);
    }
    if has_locks(actor) {
        return release_each(table, seat, actor, bases, said);
    }
    steps::steps_on(table, seat, actor, bases, said)
}
