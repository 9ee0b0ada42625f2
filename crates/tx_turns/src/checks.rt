//! The checks of what a commit has read, in straight code.
ghost use Rattle.std.specs.Prelude.{◌≡◌, ◌≢◌, ℕ, ◌+◌, ◌<◌, false, true, IfErr, IfSome, List, OnOk, length};
ghost use Rattle.vlock_word.specs.LockWord.{unbits};
ghost use Rattle.tx_sets.specs.Entries.{lookup};
ghost use Rattle.replay_log.specs.WorldProgress.{AreSmall};
ghost use Rattle.step_core.specs.declared.actor.Place.TheVariants.{Check};
ghost use Rattle.shared_table.specs.Seated.{blocks_in, opening_of};
ghost use Rattle.tx_turns.specs.Ties.{Ties};
ghost use Rattle.tx_turns.specs.Own.{HasOwn};
ghost use Rattle.tx_turns.specs.Driven.{LeadsOn, told_in};
ghost use Rattle.tx_turns.specs.Straight.{HasLed, LeadsAll, Passes, at_place, is_locking};

use crate::laws::turns_keep_own;
use crate::turns::report;
use actor_parts::Boxed;
use actor_parts::word_laws::steps_as_worlds;
use replay_log::Base;
use seq_model::Value;
use shared_table::{Seat, TxTable};
use step_core::{Actor, Place};
use tx_actor::{ActorNotice, Stage, TxActor};
use vlock_word::LockWord;

/// Which of the locations that were read is checked next.
#[inline(always)]
fn check_to_make<V>(actor: &TxActor<V>) -> Option<usize>
    ensures stage { IfSome result (λ i. is_locking actor.now.stage ≡ true) }
    ensures place { IfSome result (λ i. actor.now.words.place ≡ Check i) }
    ensures inside { IfSome result (λ i. i < length actor.now.words.reads.entries) }
{
    match &actor.stage {
        Stage::Locking(_) => match actor.words.place {
            Place::Check(i) => {
                if i < actor.words.reads.len() {
                    return Some(i);
                }
                None
            }
            _ => None,
        },
        _ => None,
    }
}

/// Whether a location whose lock word was found so passes the check: it is no newer than the transaction, and free or its own.
#[inline(always)]
fn is_passed(words: &Actor, location: u32, found: u64) -> bool
    ensures { result ≡ true → Passes words.now.rv (unbits found) (lookup words.now.writes.entries location) }
{
    match LockWord::read(found) {
        LockWord::Free(version) => version <= words.rv,
        LockWord::Locked(version) => match words.writes.find(location) {
            Some(_) => version <= words.rv,
            None => false,
        },
    }
}

/// The check of a location after which others are left: where it passes, the actor is unchanged.
#[inline(always)]
fn check_on<V: Value>(
    table: &TxTable<V>,
    seat: &mut Seat<V>,
    actor: &mut TxActor<V>,
    bases: &[Boxed<Base<V>>],
    i: usize,
) -> Result<(), ActorNotice<V>>
    requires ties { Ties table.now seat.old (at_place actor.old (Check i)) }
    requires own { HasOwn table.now seat.old (at_place actor.old (Check i)) bases.now }
    requires small { AreSmall (blocks_in table.now) }
    requires stage { is_locking actor.old.stage ≡ true }
    requires left { i + 1 < length actor.old.words.reads.entries }
    ensures led { OnOk result (HasLed table.now seat.old seat.new (at_place actor.new (Check (i + 1))) ActorNotice.Quiet bases.now) }
    ensures stage { OnOk result (actor.new.stage ≡ actor.old.stage) }
    ensures reads { OnOk result (actor.new.words.reads ≡ actor.old.words.reads) }
    ensures invalid { IfErr result (λ told. HasLed table.now seat.old seat.new actor.new told bases.now) }
{
    steps_as_worlds::<V>();
    turns_keep_own::<V>();
    let _ = bases;
    let (location, _) = actor.words.read_at(i);
    let found = table.load_lock(seat, location);
    if is_passed(&actor.words, location, found) {
        return Ok(());
    }
    actor.words.place = Place::Check(i);
    let told = actor.words.check(location, i, found);
    Err(actor.on_step(told))
}

/// The check of the last location, and what the actor makes of it.
#[inline(always)]
fn check_last<V: Value>(
    table: &TxTable<V>,
    seat: &mut Seat<V>,
    actor: &mut TxActor<V>,
    bases: &[Boxed<Base<V>>],
    i: usize,
) -> ActorNotice<V>
    requires ties { Ties table.now seat.old (at_place actor.old (Check i)) }
    requires own { HasOwn table.now seat.old (at_place actor.old (Check i)) bases.now }
    requires small { AreSmall (blocks_in table.now) }
    requires stage { is_locking actor.old.stage ≡ true }
    requires inside { i < length actor.old.words.reads.entries }
    ensures { HasLed table.now seat.old seat.new actor.new result bases.now }
{
    steps_as_worlds::<V>();
    turns_keep_own::<V>();
    let _ = bases;
    let (location, _) = actor.words.read_at(i);
    let found = table.load_lock(seat, location);
    actor.words.place = Place::Check(i);
    let told = actor.words.check(location, i, found);
    actor.on_step(told)
}

/// The checks that are left, from the one at `first` on. Between them the actor is unchanged.
#[inline(always)]
fn check_each<V: Value>(
    table: &TxTable<V>,
    seat: &mut Seat<V>,
    actor: &mut TxActor<V>,
    bases: &[Boxed<Base<V>>],
    first: usize,
    said: &mut ActorNotice<V>,
) -> bool
    requires ties { Ties table.now seat.old actor.old }
    requires own { HasOwn table.now seat.old actor.old bases.now }
    requires small { AreSmall (blocks_in table.now) }
    requires stage { is_locking actor.old.stage ≡ true }
    requires place { actor.old.words.place ≡ Check first }
    requires inside { first < length actor.old.words.reads.entries }
    ensures leads { LeadsOn (opening_of table.now) seat.old seat.new (told_in result said.new) }
    ensures answered { result ≡ false → said.new ≢ ActorNotice.Quiet }
    ensures ties { Ties table.now seat.new actor.new }
    ensures own { HasOwn table.now seat.new actor.new bases.now }
{
    let end = actor.words.reads.len();
    let mut i = first;
    while i + 1 < end {
        match check_on(table, seat, actor, bases, i) {
            Ok(()) => i += 1,
            Err(told) => return report(told, said),
        }
    }
    let quiet = report(check_last(table, seat, actor, bases, i), said);
    quiet
}

/// The checks that are left, where there are some.
#[inline(always)]
pub(crate) fn check_left<V: Value>(
    table: &TxTable<V>,
    seat: &mut Seat<V>,
    actor: &mut TxActor<V>,
    bases: &[Boxed<Base<V>>],
    said: &mut ActorNotice<V>,
) -> bool
    requires ties { Ties table.now seat.old actor.old }
    requires own { HasOwn table.now seat.old actor.old bases.now }
    requires small { AreSmall (blocks_in table.now) }
    ensures leads { LeadsAll (opening_of table.now) seat.old seat.new (told_in result said.new) }
    ensures answered { result ≡ false → said.new ≢ ActorNotice.Quiet }
    ensures ties { Ties table.now seat.new actor.new }
    ensures own { HasOwn table.now seat.new actor.new bases.now }
{
    match check_to_make(actor) {
        Some(i) => check_each(table, seat, actor, bases, i, said),
        None => true,
    }
}
