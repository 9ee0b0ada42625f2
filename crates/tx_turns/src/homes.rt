//! A commit that has written collections, and how its bases are put back.
ghost use Rattle.std.specs.Prelude.{◌≡◌, ◌<◌, ◌++◌, ◌∷◌, [], IfOk, OnErr, OnOk, length, true};
ghost use Rattle.actor_parts.specs.Dispatch.{next_of};
ghost use Rattle.tx_actor.specs.Running.{stage_of};
ghost use Rattle.shared_table.specs.Seated.{actor as actor_of_seat, opening_of, view};
ghost use Rattle.tx_turns.specs.Ties.{Ties, Turned};
ghost use Rattle.tx_turns.specs.Bases.{AreAlike, ArePrepared, OneIsPrepared, gates_at};
ghost use Rattle.tx_turns.specs.Own.{HasOwn};

use crate::gates::first;
use actor_parts::copy_laws::logs_as_worlds;
use actor_parts::word_laws::{goes_on_as_worlds, steps_as_worlds};
use actor_parts::{Boxed, Next, copies_stay};
use replay_log::Base;
use seq_model::{Memory, Record, Value};
use shared_table::{Seat, TxTable};
use std::alloc::Global;
use std::collections::VecDeque;
use tx_actor::laws::copies_by_stage;
use tx_actor::turn_laws::events_keep_copies;
use tx_actor::{ActorNotice, Stage, TxActor};

fn prepare_base<V: Value>(
    actor: &TxActor<V>,
    bases: &mut Vec<Boxed<Base<V>>>,
    i: usize,
    k: u32,
) -> Result<(), Memory>
    requires { i < length bases.old.items }
    ensures prepared { OnOk result (OneIsPrepared actor.now.copies.items k i bases.old.items bases.new.items) }
    ensures alike { AreAlike bases.old.items bases.new.items }
{
    actor.prepares_base(k, bases[i].get_mut())
}

/// Makes room in the bases in hand, which are those of these collections, for the logs of the actor's calls there. They hold what they did,
/// also where an allocation fails.
fn prepare_bases<V: Value>(
    actor: &TxActor<V>,
    homes: &VecDeque<u32>,
    bases: &mut Vec<Boxed<Base<V>>>,
) -> Result<(), Memory>
    requires { length homes.now.items ≡ length bases.old.items }
    ensures prepared { OnOk result (ArePrepared actor.now.copies.items homes.now.items bases.new.items) }
    ensures alike { AreAlike bases.old.items bases.new.items }
{
    for i in 0..homes.len() {
        prepare_base(actor, bases, i, homes[i])?;
    }
    Ok(())
}

fn prepare<V: Value>(actor: &TxActor<V>, bases: &mut Vec<Boxed<Base<V>>>) -> Result<(), Memory>
    requires due { next_of (stage_of actor.now.stage) ≡ Next.FirstStore }
    requires count { length (gates_at actor.now.stage) ≡ length bases.old.items }
    ensures prepared { OnOk result (ArePrepared actor.now.copies.items (gates_at actor.now.stage) bases.new.items) }
    ensures alike { AreAlike bases.old.items bases.new.items }
{
    match &actor.stage {
        Stage::Ready(homes) => prepare_bases(actor, homes, bases),
        _ => Ok(()),
    }
}

/// The first value store of a commit, with its receipt, once the bases that it has written are prepared to take their logs without memory.
/// Where an allocation fails no step is taken, and the actor is as it was.
pub fn commit<V: Value>(
    alloc: Global,
    table: &TxTable<V>,
    seat: &mut Seat<V>,
    actor: &mut TxActor<V>,
    bases: &mut Vec<Boxed<Base<V>>>,
) -> Result<(ActorNotice<V>, Record<V>), Memory>
    requires ties { Ties table.now seat.old actor.old }
    requires own { HasOwn table.now seat.old actor.old bases.old.items }
    requires due { next_of (stage_of actor.old.stage) ≡ Next.FirstStore }
    ensures turned { IfOk result (λ done. Turned (opening_of table.now) seat.old actor.old seat.new done.0) }
    ensures ties { Ties table.now seat.new actor.new }
    ensures own { HasOwn table.now seat.new actor.new bases.new.items }
    ensures seat { OnErr result (seat.new ≡ seat.old) }
    ensures rest { OnErr result (actor.new ≡ record actor.old { words = actor.new.words }) }
    ensures gains { IfOk result (λ done. (view seat.new).receipts ≡ (view seat.old).receipts ++ (actor_of_seat seat.old, done.1) ∷ []) }
    ensures number { IfOk result (λ done. done.1.number ≡ actor.old.wv) }
    ensures writes { IfOk result (λ done. done.1.writes ≡ true) }
    ensures calls { IfOk result (λ done. done.1.calls ≡ actor.old.calls.items) }
{
    steps_as_worlds::<V>();
    events_keep_copies::<V>();
    copies_by_stage::<V>();
    prepare(actor, bases)?;
    let done = crate::words::commit(alloc, table, seat, actor)?;
    Ok(done)
}

/// The base of a collection that a commit has written is put back with the log of its calls there, and so is its gate. It takes no
/// memory and is never refused.
#[inline(always)]
pub fn go_home<V: Value>(
    table: &TxTable<V>,
    seat: &mut Seat<V>,
    actor: &mut TxActor<V>,
    bases: &mut Vec<Boxed<Base<V>>>,
    k: u32,
) -> ActorNotice<V>
    requires ties { Ties table.now seat.old actor.old }
    requires own { HasOwn table.now seat.old actor.old bases.old.items }
    requires due { next_of (stage_of actor.old.stage) ≡ Next.GoHome k }
    ensures turned { Turned (opening_of table.now) seat.old actor.old seat.new result }
    ensures ties { Ties table.now seat.new actor.new }
    ensures own { HasOwn table.now seat.new actor.new bases.new.items }
{
    steps_as_worlds::<V>();
    goes_on_as_worlds::<V>();
    logs_as_worlds::<V>();
    copies_stay::<V>();
    copies_by_stage::<V>();
    let mut base = first(bases);
    actor.folds(k, base.get_mut());
    table.put_gate(seat, k, base);
    actor.on_base_returned()
}
