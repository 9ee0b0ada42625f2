//! The locks of a commit and its number, taken in straight code.
ghost use Rattle.std.specs.Prelude.{◌≡◌, ◌≢◌, ◌+◌, ◌<◌, ◌≤◌, false, true, IfErr, IfOk, IfSome, OnOk, length};
ghost use Rattle.replay_log.specs.WorldProgress.{AreSmall};
ghost use Rattle.step_core.specs.declared.actor.Place.TheVariants.{Lock, Take};
ghost use Rattle.shared_table.specs.Seated.{blocks_in, opening_of};
ghost use Rattle.tx_turns.specs.Ties.{Ties};
ghost use Rattle.tx_turns.specs.Own.{HasOwn};
ghost use Rattle.tx_turns.specs.Driven.{LeadsOn, told_in};
ghost use Rattle.tx_turns.specs.Straight.{HasLed, LeadsAll, at_place, is_locking};

use crate::laws::turns_keep_own;
use crate::turns::report;
use actor_parts::Boxed;
use actor_parts::word_laws::steps_as_worlds;
use replay_log::Base;
use seq_model::Value;
use shared_table::{Seat, TxTable};
use step_core::{Place, WordRefusal};
use tx_actor::{ActorNotice, Stage, TxActor};
use vlock_word::LockWord;

/// Which lock is taken next; after the last, the clock is advanced.
#[inline(always)]
fn lock_to_take<V>(actor: &TxActor<V>) -> Option<usize>
    ensures stage { IfSome result (λ i. is_locking actor.now.stage ≡ true) }
    ensures place { IfSome result (λ i. actor.now.words.place ≡ Lock i) }
{
    match &actor.stage {
        Stage::Locking(_) => match actor.words.place {
            Place::Lock(i) => Some(i),
            _ => None,
        },
        _ => None,
    }
}

/// The load of a lock word that is to be locked: its location and version, where it is free. The actor is as it was then.
#[inline(always)]
fn seek_on<V: Value>(
    table: &TxTable<V>,
    seat: &mut Seat<V>,
    actor: &mut TxActor<V>,
    bases: &[Boxed<Base<V>>],
    i: usize,
) -> Result<(u32, u64), ActorNotice<V>>
    requires ties { Ties table.now seat.old (at_place actor.old (Lock i)) }
    requires own { HasOwn table.now seat.old (at_place actor.old (Lock i)) bases.now }
    requires small { AreSmall (blocks_in table.now) }
    requires stage { is_locking actor.old.stage ≡ true }
    requires inside { i < length actor.old.words.writes.entries }
    ensures actor { IfOk result (λ e. actor.new ≡ actor.old) }
    ensures led { IfOk result (λ e. HasLed table.now seat.old seat.new (at_place actor.old (Take e.0 e.1 (i + 1))) ActorNotice.Quiet
        bases.now) }
    ensures busy { IfErr result (λ told. HasLed table.now seat.old seat.new actor.new told bases.now) }
{
    steps_as_worlds::<V>();
    turns_keep_own::<V>();
    let _ = bases;
    let (location, _) = actor.words.write_at(i);
    let found = table.load_lock(seat, location);
    if let LockWord::Free(version) = LockWord::read(found) {
        return Ok((location, version));
    }
    actor.words.place = Place::Lock(i);
    let told = actor.words.to_lock(location, i, found);
    Err(actor.on_step(told))
}

/// The lock is taken, where its word is as it was found.
#[inline(always)]
fn take_on<V: Value>(
    table: &TxTable<V>,
    seat: &mut Seat<V>,
    actor: &mut TxActor<V>,
    bases: &[Boxed<Base<V>>],
    location: u32,
    version: u64,
    i: usize,
) -> Result<(), ActorNotice<V>>
    requires ties { Ties table.now seat.old (at_place actor.old (Take location version i)) }
    requires own { HasOwn table.now seat.old (at_place actor.old (Take location version i)) bases.now }
    requires small { AreSmall (blocks_in table.now) }
    requires stage { is_locking actor.old.stage ≡ true }
    ensures led { OnOk result (HasLed table.now seat.old seat.new (at_place actor.new (Lock i)) ActorNotice.Quiet bases.now) }
    ensures stage { OnOk result (actor.new.stage ≡ actor.old.stage) }
    ensures writes { OnOk result (actor.new.words.writes ≡ actor.old.words.writes) }
    ensures busy { IfErr result (λ told. HasLed table.now seat.old seat.new actor.new told bases.now) }
{
    steps_as_worlds::<V>();
    turns_keep_own::<V>();
    let _ = bases;
    let _ = i;
    match table.lock(seat, location, 2 * version) {
        None => {
            actor.words.held.push_back_reserved((location, version));
            Ok(())
        }
        Some(word) => {
            actor.words.place = Place::Broken;
            Err(actor.on_step(Err(WordRefusal::Busy { location, word })))
        }
    }
}

/// A lock is taken: the load of its word, and the exchange.
#[inline(always)]
fn lock_on<V: Value>(
    table: &TxTable<V>,
    seat: &mut Seat<V>,
    actor: &mut TxActor<V>,
    bases: &[Boxed<Base<V>>],
    i: usize,
) -> Result<(), ActorNotice<V>>
    requires ties { Ties table.now seat.old (at_place actor.old (Lock i)) }
    requires own { HasOwn table.now seat.old (at_place actor.old (Lock i)) bases.now }
    requires small { AreSmall (blocks_in table.now) }
    requires stage { is_locking actor.old.stage ≡ true }
    requires inside { i < length actor.old.words.writes.entries }
    ensures led { OnOk result (HasLed table.now seat.old seat.new (at_place actor.new (Lock (i + 1))) ActorNotice.Quiet bases.now) }
    ensures stage { OnOk result (actor.new.stage ≡ actor.old.stage) }
    ensures writes { OnOk result (actor.new.words.writes ≡ actor.old.words.writes) }
    ensures busy { IfErr result (λ told. HasLed table.now seat.old seat.new actor.new told bases.now) }
{
    match seek_on(table, seat, actor, bases, i) {
        Ok((location, version)) => take_on(table, seat, actor, bases, location, version, i + 1),
        Err(told) => Err(told),
    }
}

/// All locks are taken: the clock is advanced, and what the actor makes of its number.
#[inline(always)]
fn stamp_on<V: Value>(
    table: &TxTable<V>,
    seat: &mut Seat<V>,
    actor: &mut TxActor<V>,
    bases: &[Boxed<Base<V>>],
    i: usize,
) -> ActorNotice<V>
    requires ties { Ties table.now seat.old (at_place actor.old (Lock i)) }
    requires own { HasOwn table.now seat.old (at_place actor.old (Lock i)) bases.now }
    requires small { AreSmall (blocks_in table.now) }
    requires stage { is_locking actor.old.stage ≡ true }
    requires all { length actor.old.words.writes.entries ≤ i }
    ensures { HasLed table.now seat.old seat.new actor.new result bases.now }
{
    steps_as_worlds::<V>();
    turns_keep_own::<V>();
    let _ = bases;
    let clock = table.stamp(seat);
    actor.words.place = Place::Lock(i);
    let told = actor.words.stamp(clock + 1);
    actor.on_step(told)
}

/// The locks that are left to take, from the one at `first` on, and then the number of the commit. Between the steps the actor only gets
/// the locks that it holds.
#[inline(always)]
fn lock_each<V: Value>(
    table: &TxTable<V>,
    seat: &mut Seat<V>,
    actor: &mut TxActor<V>,
    bases: &[Boxed<Base<V>>],
    first: usize,
    said: &mut ActorNotice<V>,
) -> bool
    requires ties { Ties table.now seat.old actor.old }
    requires own { HasOwn table.now seat.old actor.old bases.now }
    requires small { AreSmall (blocks_in table.now) }
    requires stage { is_locking actor.old.stage ≡ true }
    requires place { actor.old.words.place ≡ Lock first }
    ensures leads { LeadsOn (opening_of table.now) seat.old seat.new (told_in result said.new) }
    ensures answered { result ≡ false → said.new ≢ ActorNotice.Quiet }
    ensures ties { Ties table.now seat.new actor.new }
    ensures own { HasOwn table.now seat.new actor.new bases.now }
{
    let end = actor.words.writes.len();
    let mut i = first;
    while i < end {
        match lock_on(table, seat, actor, bases, i) {
            Ok(()) => i += 1,
            Err(told) => return report(told, said),
        }
    }
    let quiet = report(stamp_on(table, seat, actor, bases, i), said);
    quiet
}

/// The locks that are left to take and the number of the commit, where these come next.
#[inline(always)]
pub(crate) fn lock_left<V: Value>(
    table: &TxTable<V>,
    seat: &mut Seat<V>,
    actor: &mut TxActor<V>,
    bases: &[Boxed<Base<V>>],
    said: &mut ActorNotice<V>,
) -> bool
    requires ties { Ties table.now seat.old actor.old }
    requires own { HasOwn table.now seat.old actor.old bases.now }
    requires small { AreSmall (blocks_in table.now) }
    ensures leads { LeadsAll (opening_of table.now) seat.old seat.new (told_in result said.new) }
    ensures answered { result ≡ false → said.new ≢ ActorNotice.Quiet }
    ensures ties { Ties table.now seat.new actor.new }
    ensures own { HasOwn table.now seat.new actor.new bases.now }
{
    match lock_to_take(actor) {
        Some(first) => lock_each(table, seat, actor, bases, first, said),
        None => true,
    }
}
