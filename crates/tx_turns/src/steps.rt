//! Steps on the words, one after another.
ghost use Rattle.std.specs.Prelude.{◌≡◌, ◌≢◌, false, true};
ghost use Rattle.tx_machine.specs.Notices as notice;
ghost use Rattle.actor_parts.specs.Dispatch.{next_of, notice_told};
ghost use Rattle.replay_log.specs.WorldProgress.{AreSmall};
ghost use Rattle.tx_actor.specs.Running.{stage_of};
ghost use Rattle.shared_table.specs.Seated.{blocks_in, opening_of};
ghost use Rattle.tx_turns.specs.Ties.{Ties};
ghost use Rattle.tx_turns.specs.Own.{HasOwn};
ghost use Rattle.tx_turns.specs.Driven.{LeadsOn, is_still, told_in};

use crate::laws::turns_keep_own;
use crate::stepping::step_words;
use crate::turns::report;
use actor_parts::word_laws::steps_as_worlds;
use actor_parts::{Boxed, Next};
use replay_log::Base;
use seq_model::Value;
use shared_table::{Seat, TxTable};
use step_core::{WordAnswer, WordRefusal};
use tx_actor::laws::{
    copies_by_stage, loads_as_worlds, loads_keep_running, loads_stay_own, seats_as_actors,
};
use tx_actor::{ActorNotice, Stage, TxActor};

/// Whether nothing comes of a step on the words at this stage, since it answered nothing.
#[inline(always)]
fn is_waiting<V>(stage: &Stage<V>, told: Result<Option<WordAnswer>, WordRefusal>) -> bool
    ensures told { result ≡ true → notice_told told ≡ notice.Quiet }
    ensures stage { result ≡ true → is_still stage.now ≡ true }
{
    if !matches!(told, Ok(None)) {
        return false;
    }
    match stage {
        Stage::Reading(_) | Stage::Loading(..) => true,
        Stage::Locking(_) | Stage::Releasing | Stage::Cancelling => true,
        _ => false,
    }
}

/// Steps on the words that make no receipt, up to one that answers something, or of which something comes at its stage: whether that one
/// was quiet. What it answers else is stored in `said`. They are taken one after another, and each is one atomic step.
#[inline(always)]
pub(crate) fn steps_on<V: Value>(
    table: &TxTable<V>,
    seat: &mut Seat<V>,
    actor: &mut TxActor<V>,
    bases: &[Boxed<Base<V>>],
    said: &mut ActorNotice<V>,
) -> bool
    requires ties { Ties table.now seat.old actor.old }
    requires own { HasOwn table.now seat.old actor.old bases.now }
    requires small { AreSmall (blocks_in table.now) }
    requires due { next_of (stage_of actor.old.stage) ≡ Next.Word }
    requires open { actor.old.stage ≢ Stage.Closing }
    ensures leads { LeadsOn (opening_of table.now) seat.old seat.new (told_in result said.new) }
    ensures answered { result ≡ false → said.new ≢ ActorNotice.Quiet }
    ensures ties { Ties table.now seat.new actor.new }
    ensures own { HasOwn table.now seat.new actor.new bases.now }
{
    steps_as_worlds::<V>();
    seats_as_actors::<V>();
    loads_as_worlds::<V>();
    loads_keep_running::<V>();
    loads_stay_own::<V>();
    copies_by_stage::<V>();
    turns_keep_own::<V>();
    let _ = bases;
    'steps: loop {
        let told = step_words(table, seat, &mut actor.words);
        if !is_waiting(&actor.stage, told) {
            return match actor.stage {
                Stage::Loading(..) => report(actor.on_load_step(told), said),
                _ => report(actor.on_step(told), said),
            };
        }
    }
}
