//! The value stores of a commit after its first, in straight code.
ghost use Rattle.std.specs.Prelude.{◌≡◌, ◌≢◌, ◌+◌, ◌<◌, false, true, IfSome, length};
ghost use Rattle.replay_log.specs.WorldProgress.{AreSmall};
ghost use Rattle.step_core.specs.declared.actor.Place.TheVariants.{Store};
ghost use Rattle.shared_table.specs.Seated.{blocks_in, opening_of};
ghost use Rattle.tx_turns.specs.Ties.{Ties};
ghost use Rattle.tx_turns.specs.Own.{HasOwn};
ghost use Rattle.tx_turns.specs.Driven.{LeadsOn, told_in};
ghost use Rattle.tx_turns.specs.Straight.{HasLed, LeadsAll, at_place, is_storing};

use crate::laws::turns_keep_own;
use crate::turns::report;
use actor_parts::Boxed;
use actor_parts::word_laws::steps_as_worlds;
use replay_log::Base;
use seq_model::Value;
use shared_table::{Seat, TxTable};
use step_core::Place;
use tx_actor::{ActorNotice, Stage, TxActor};

/// Which value is stored next, where it is not the first.
#[inline(always)]
pub(crate) fn value_to_store<V>(actor: &TxActor<V>) -> Option<usize>
    ensures stage { IfSome result (λ i. is_storing actor.now.stage ≡ true) }
    ensures place { IfSome result (λ i. actor.now.words.place ≡ Store i) }
    ensures inside { IfSome result (λ i. i < length actor.now.words.writes.entries) }
{
    match &actor.stage {
        Stage::Storing(_) => match actor.words.place {
            Place::Store(i) => {
                if i < actor.words.writes.len() {
                    return Some(i);
                }
                None
            }
            _ => None,
        },
        _ => None,
    }
}

/// The store of a value after which others are left.
#[inline(always)]
fn store_on<V: Value>(
    table: &TxTable<V>,
    seat: &mut Seat<V>,
    actor: &TxActor<V>,
    bases: &[Boxed<Base<V>>],
    i: usize,
)
    requires ties { Ties table.now seat.old (at_place actor.now (Store i)) }
    requires own { HasOwn table.now seat.old (at_place actor.now (Store i)) bases.now }
    requires small { AreSmall (blocks_in table.now) }
    requires stage { is_storing actor.now.stage ≡ true }
    requires left { i + 1 < length actor.now.words.writes.entries }
    ensures { HasLed table.now seat.old seat.new (at_place actor.now (Store (i + 1))) ActorNotice.Quiet bases.now }
{
    steps_as_worlds::<V>();
    turns_keep_own::<V>();
    let _ = bases;
    let (location, value) = actor.words.write_at(i);
    table.store_value(seat, location, value);
}

/// The store of the last value, and what the actor makes of it.
#[inline(always)]
fn store_last<V: Value>(
    table: &TxTable<V>,
    seat: &mut Seat<V>,
    actor: &mut TxActor<V>,
    bases: &[Boxed<Base<V>>],
    i: usize,
) -> ActorNotice<V>
    requires ties { Ties table.now seat.old (at_place actor.old (Store i)) }
    requires own { HasOwn table.now seat.old (at_place actor.old (Store i)) bases.now }
    requires small { AreSmall (blocks_in table.now) }
    requires stage { is_storing actor.old.stage ≡ true }
    requires inside { i < length actor.old.words.writes.entries }
    ensures { HasLed table.now seat.old seat.new actor.new result bases.now }
{
    steps_as_worlds::<V>();
    turns_keep_own::<V>();
    let _ = bases;
    let (location, value) = actor.words.write_at(i);
    table.store_value(seat, location, value);
    actor.words.place = Place::Store(i);
    let told = actor.words.store(i);
    actor.on_step(Ok(told))
}

/// The stores that are left, from the one at `first` on, one atomic step each. Between them the actor is unchanged.
#[inline(always)]
pub(crate) fn store_each<V: Value>(
    table: &TxTable<V>,
    seat: &mut Seat<V>,
    actor: &mut TxActor<V>,
    bases: &[Boxed<Base<V>>],
    first: usize,
    said: &mut ActorNotice<V>,
) -> bool
    requires ties { Ties table.now seat.old actor.old }
    requires own { HasOwn table.now seat.old actor.old bases.now }
    requires small { AreSmall (blocks_in table.now) }
    requires stage { is_storing actor.old.stage ≡ true }
    requires place { actor.old.words.place ≡ Store first }
    requires inside { first < length actor.old.words.writes.entries }
    ensures leads { LeadsOn (opening_of table.now) seat.old seat.new (told_in result said.new) }
    ensures answered { result ≡ false → said.new ≢ ActorNotice.Quiet }
    ensures ties { Ties table.now seat.new actor.new }
    ensures own { HasOwn table.now seat.new actor.new bases.now }
{
    let end = actor.words.writes.len();
    let mut i = first;
    while i + 1 < end {
        store_on(table, seat, actor, bases, i);
        i += 1;
    }
    report(store_last(table, seat, actor, bases, i), said)
}

/// The stores that are left, where there are some.
#[inline(always)]
pub(crate) fn store_left<V: Value>(
    table: &TxTable<V>,
    seat: &mut Seat<V>,
    actor: &mut TxActor<V>,
    bases: &[Boxed<Base<V>>],
    said: &mut ActorNotice<V>,
) -> bool
    requires ties { Ties table.now seat.old actor.old }
    requires own { HasOwn table.now seat.old actor.old bases.now }
    requires small { AreSmall (blocks_in table.now) }
    ensures leads { LeadsAll (opening_of table.now) seat.old seat.new (told_in result said.new) }
    ensures answered { result ≡ false → said.new ≢ ActorNotice.Quiet }
    ensures ties { Ties table.now seat.new actor.new }
    ensures own { HasOwn table.now seat.new actor.new bases.now }
{
    match value_to_store(actor) {
        Some(i) => store_each(table, seat, actor, bases, i, said),
        None => true,
    }
}
