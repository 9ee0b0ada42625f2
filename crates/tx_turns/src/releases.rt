//! The locks of a commit, given back in straight code.
ghost use Rattle.std.specs.Prelude.{◌≡◌, ◌≢◌, ℕ, ◌+◌, ◌<◌, drop, false, true};
ghost use Rattle.std.specs.VecDeque.{deque_len};
ghost use Rattle.tx_machine.specs.Actor.{after_release, freed};
ghost use Rattle.replay_log.specs.WorldProgress.{AreSmall};
ghost use Rattle.step_core.specs.Shown.{actor_of};
ghost use Rattle.step_core.specs.Sound.{Fits};
ghost use Rattle.step_core.specs.declared.actor.Place.TheVariants.{Release};
ghost use Rattle.shared_table.specs.Seated.{blocks_in, opening_of};
ghost use Rattle.tx_turns.specs.Ties.{Ties};
ghost use Rattle.tx_turns.specs.Own.{HasOwn};
ghost use Rattle.tx_turns.specs.Driven.{LeadsOn, told_in};
ghost use Rattle.tx_turns.specs.Straight.{HasLed, LeadsAll};

use crate::laws::turns_keep_own;
use crate::turns::report;
use actor_parts::Boxed;
use actor_parts::word_laws::steps_as_worlds;
use replay_log::Base;
use seq_model::Value;
use shared_table::{Seat, TxTable};
use step_core::{Actor, Place};
use tx_actor::{ActorNotice, Stage, TxActor};

/// Whether locks are to be given back by a commit.
#[inline(always)]
pub(crate) fn has_locks<V>(actor: &TxActor<V>) -> bool
    ensures stage { result ≡ true → actor.now.stage ≡ Stage.Releasing }
    ensures place { result ≡ true → actor.now.words.place ≡ Release }
    ensures some { result ≡ true → 0 < deque_len actor.now.words.held }
{
    match &actor.stage {
        Stage::Releasing => match actor.words.place {
            Place::Release => !actor.words.held.is_empty(),
            _ => false,
        },
        _ => false,
    }
}

/// A lock is no more held, and others are.
#[inline(always)]
fn frees(words: &mut Actor)
    requires place { words.old.place ≡ Release }
    requires left { 1 < deque_len words.old.held }
    ensures actor { actor_of words.new ≡ freed (actor_of words.old) (drop 1 words.old.held.items)
        (after_release (drop 1 words.old.held.items)) }
    ensures fits { (n : ℕ) → Fits n words.old → Fits n words.new }
    ensures place { words.new.place ≡ Release }
    ensures some { 0 < deque_len words.new.held }
    ensures less { deque_len words.new.held < deque_len words.old.held }
{
    let _ = words.held.pop_front();
}

/// A lock is given back, and others are held.
#[inline(always)]
fn release_on<V: Value>(
    table: &TxTable<V>,
    seat: &mut Seat<V>,
    actor: &mut TxActor<V>,
    bases: &[Boxed<Base<V>>],
)
    requires ties { Ties table.now seat.old actor.old }
    requires own { HasOwn table.now seat.old actor.old bases.now }
    requires small { AreSmall (blocks_in table.now) }
    requires stage { actor.old.stage ≡ Stage.Releasing }
    requires place { actor.old.words.place ≡ Release }
    requires left { 1 < deque_len actor.old.words.held }
    ensures led { HasLed table.now seat.old seat.new actor.new ActorNotice.Quiet bases.now }
    ensures stage { actor.new.stage ≡ Stage.Releasing }
    ensures place { actor.new.words.place ≡ Release }
    ensures some { 0 < deque_len actor.new.words.held }
    ensures less { deque_len actor.new.words.held < deque_len actor.old.words.held }
{
    steps_as_worlds::<V>();
    turns_keep_own::<V>();
    let _ = bases;
    let location = actor.words.held[0].0;
    table.store_lock(seat, location, 2 * actor.words.wv);
    frees(&mut actor.words);
}

/// The last lock is given back, and the transaction has committed.
#[inline(always)]
fn release_last<V: Value>(
    table: &TxTable<V>,
    seat: &mut Seat<V>,
    actor: &mut TxActor<V>,
    bases: &[Boxed<Base<V>>],
) -> ActorNotice<V>
    requires ties { Ties table.now seat.old actor.old }
    requires own { HasOwn table.now seat.old actor.old bases.now }
    requires small { AreSmall (blocks_in table.now) }
    requires stage { actor.old.stage ≡ Stage.Releasing }
    requires place { actor.old.words.place ≡ Release }
    requires last { deque_len actor.old.words.held ≡ 1 }
    ensures { HasLed table.now seat.old seat.new actor.new result bases.now }
{
    steps_as_worlds::<V>();
    turns_keep_own::<V>();
    let _ = bases;
    let location = actor.words.held[0].0;
    table.store_lock(seat, location, 2 * actor.words.wv);
    let told = actor.words.release();
    let _ = told;
    actor.finish_commit()
}

/// The locks that are held are given back, one atomic step each. The last one answers that the transaction has committed, so the result is
/// false.
#[inline(always)]
pub(crate) fn release_each<V: Value>(
    table: &TxTable<V>,
    seat: &mut Seat<V>,
    actor: &mut TxActor<V>,
    bases: &[Boxed<Base<V>>],
    said: &mut ActorNotice<V>,
) -> bool
    requires ties { Ties table.now seat.old actor.old }
    requires own { HasOwn table.now seat.old actor.old bases.now }
    requires small { AreSmall (blocks_in table.now) }
    requires stage { actor.old.stage ≡ Stage.Releasing }
    requires place { actor.old.words.place ≡ Release }
    requires some { 0 < deque_len actor.old.words.held }
    ensures leads { LeadsOn (opening_of table.now) seat.old seat.new (told_in result said.new) }
    ensures answered { result ≡ false → said.new ≢ ActorNotice.Quiet }
    ensures ties { Ties table.now seat.new actor.new }
    ensures own { HasOwn table.now seat.new actor.new bases.now }
{
    while actor.words.held.len() > 1 {
        release_on(table, seat, actor, bases);
    }
    report(release_last(table, seat, actor, bases), said)
}

/// The locks that a commit holds are given back, where it holds some.
#[inline(always)]
pub(crate) fn release_left<V: Value>(
    table: &TxTable<V>,
    seat: &mut Seat<V>,
    actor: &mut TxActor<V>,
    bases: &[Boxed<Base<V>>],
    said: &mut ActorNotice<V>,
) -> bool
    requires ties { Ties table.now seat.old actor.old }
    requires own { HasOwn table.now seat.old actor.old bases.now }
    requires small { AreSmall (blocks_in table.now) }
    ensures leads { LeadsAll (opening_of table.now) seat.old seat.new (told_in result said.new) }
    ensures answered { result ≡ false → said.new ≢ ActorNotice.Quiet }
    ensures ties { Ties table.now seat.new actor.new }
    ensures own { HasOwn table.now seat.new actor.new bases.now }
{
    if has_locks(actor) {
        return release_each(table, seat, actor, bases, said);
    }
    true
}
