//! The load of the clock by which a transaction begins, in straight code.
ghost use Rattle.std.specs.Prelude.{◌≡◌, ◌≢◌, false, true};
ghost use Rattle.replay_log.specs.WorldProgress.{AreSmall};
ghost use Rattle.step_core.specs.declared.actor.Place.TheVariants.{Begin};
ghost use Rattle.shared_table.specs.Seated.{blocks_in, opening_of};
ghost use Rattle.tx_turns.specs.Ties.{Ties};
ghost use Rattle.tx_turns.specs.Own.{HasOwn};
ghost use Rattle.tx_turns.specs.Driven.{told_in};
ghost use Rattle.tx_turns.specs.Straight.{HasLed, LeadsAll};

use crate::laws::turns_keep_own;
use crate::turns::report;
use actor_parts::Boxed;
use actor_parts::word_laws::steps_as_worlds;
use replay_log::Base;
use seq_model::Value;
use shared_table::{Seat, TxTable};
use step_core::Place;
use tx_actor::{ActorNotice, Stage, TxActor};

/// Whether a transaction is to begin.
#[inline(always)]
fn is_to_begin<V>(actor: &TxActor<V>) -> bool
    ensures stage { result ≡ true → actor.now.stage ≡ Stage.Beginning }
    ensures place { result ≡ true → actor.now.words.place ≡ Begin }
{
    match &actor.stage {
        Stage::Beginning => matches!(actor.words.place, Place::Begin),
        _ => false,
    }
}

/// The load of the clock, and what the actor makes of it.
#[inline(always)]
fn begin_on<V: Value>(
    table: &TxTable<V>,
    seat: &mut Seat<V>,
    actor: &mut TxActor<V>,
    bases: &[Boxed<Base<V>>],
) -> ActorNotice<V>
    requires ties { Ties table.now seat.old actor.old }
    requires own { HasOwn table.now seat.old actor.old bases.now }
    requires small { AreSmall (blocks_in table.now) }
    requires stage { actor.old.stage ≡ Stage.Beginning }
    requires place { actor.old.words.place ≡ Begin }
    ensures { HasLed table.now seat.old seat.new actor.new result bases.now }
{
    steps_as_worlds::<V>();
    turns_keep_own::<V>();
    let _ = bases;
    let clock = table.load_clock(seat);
    let told = actor.words.begin(clock);
    actor.on_step(told)
}

/// The step by which a transaction begins, where one is to begin. It always answers something, so the result is false then.
#[inline(always)]
pub(crate) fn begin_next<V: Value>(
    table: &TxTable<V>,
    seat: &mut Seat<V>,
    actor: &mut TxActor<V>,
    bases: &[Boxed<Base<V>>],
    said: &mut ActorNotice<V>,
) -> bool
    requires ties { Ties table.now seat.old actor.old }
    requires own { HasOwn table.now seat.old actor.old bases.now }
    requires small { AreSmall (blocks_in table.now) }
    ensures leads { LeadsAll (opening_of table.now) seat.old seat.new (told_in result said.new) }
    ensures answered { result ≡ false → said.new ≢ ActorNotice.Quiet }
    ensures ties { Ties table.now seat.new actor.new }
    ensures own { HasOwn table.now seat.new actor.new bases.now }
{
    if is_to_begin(actor) {
        return report(begin_on(table, seat, actor, bases), said);
    }
    true
}
