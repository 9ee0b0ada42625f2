//! Turns on the words.
ghost use Rattle.std.specs.Prelude.{◌≡◌, ◌++◌, ◌∷◌, [], IfOk, OnErr, OnOk, false, true};
ghost use Rattle.actor_parts.specs.Dispatch.{is_loading, next_of};
ghost use Rattle.tx_actor.specs.Dispatch.{Records};
ghost use Rattle.tx_actor.specs.CopiesByStage.{KeepsCopies};
ghost use Rattle.tx_actor.specs.Running.{stage_of};
ghost use Rattle.shared_table.specs.Seated.{actor as actor_of_seat, opening_of, view};
ghost use Rattle.tx_turns.specs.Ties.{Ties, Turned};

use crate::stepping::step_words;
use actor_parts::Next;
use actor_parts::word_laws::steps_as_worlds;
use seq_model::{Items, Memory, Record, Value};
use shared_table::{Seat, TxTable};
use std::alloc::Global;
use std::mem;
use tx_actor::{ActorNotice, Stage, TxActor};

/// The next step of an actor's words, taken on the table by its seat.
pub(crate) fn step_word<V: Value>(
    table: &TxTable<V>,
    seat: &mut Seat<V>,
    actor: &mut TxActor<V>,
) -> ActorNotice<V>
    requires ties { Ties table.now seat.old actor.old }
    requires due { next_of (stage_of actor.old.stage) ≡ Next.Word }
    requires word { is_loading (stage_of actor.old.stage) ≡ false }
    ensures turned { Turned (opening_of table.now) seat.old actor.old seat.new result }
    ensures ties { Ties table.now seat.new actor.new }
    ensures leaves { KeepsCopies actor.old actor.new }
    ensures made { Records actor.old.stage → actor.new.made.items ≡ actor.old.calls.items }
{
    steps_as_worlds::<V>();
    let told = step_words(table, seat, &mut actor.words);
    actor.on_step(told)
}

/// The load of the clock that commits a transaction without writes, with its receipt. It takes no memory.
pub(crate) fn close<V: Value>(
    alloc: Global,
    table: &TxTable<V>,
    seat: &mut Seat<V>,
    actor: &mut TxActor<V>,
) -> (ActorNotice<V>, Record<V>)
    requires ties { Ties table.now seat.old actor.old }
    requires stage { actor.old.stage ≡ Stage.Closing }
    ensures turned { Turned (opening_of table.now) seat.old actor.old seat.new result.0 }
    ensures ties { Ties table.now seat.new actor.new }
    ensures leaves { KeepsCopies actor.old actor.new }
    ensures gains { (view seat.new).receipts ≡ (view seat.old).receipts ++ (actor_of_seat seat.old, result.1) ∷ [] }
    ensures number { result.1.number ≡ actor.old.rv }
    ensures reads { result.1.writes ≡ false }
    ensures calls { result.1.calls ≡ actor.old.calls.items }
{
    let number = actor.rv;
    let told = step_word(table, seat, actor);
    let calls = Items::from_vec(mem::replace(&mut actor.made, Vec::new(alloc)));
    let receipt = Record {
        number,
        writes: false,
        calls,
    };
    (told, receipt)
}

/// The first value store of a commit: its request, and then the step of the words. Where an allocation fails no step is taken, and the
/// actor is as it was.
pub(crate) fn store_first<V: Value>(
    table: &TxTable<V>,
    seat: &mut Seat<V>,
    actor: &mut TxActor<V>,
) -> Result<ActorNotice<V>, Memory>
    requires ties { Ties table.now seat.old actor.old }
    requires due { next_of (stage_of actor.old.stage) ≡ Next.FirstStore }
    ensures turned { IfOk result (Turned (opening_of table.now) seat.old actor.old seat.new) }
    ensures ties { Ties table.now seat.new actor.new }
    ensures seat { OnErr result (seat.new ≡ seat.old) }
    ensures rest { OnErr result (actor.new ≡ record actor.old { words = actor.new.words }) }
    ensures leaves { OnOk result (KeepsCopies actor.old actor.new) }
    ensures made { OnOk result (actor.new.made.items ≡ actor.old.calls.items) }
{
    steps_as_worlds::<V>();
    actor.request_store(table.blocks())?;
    let told = step_words(table, seat, &mut actor.words);
    Ok(actor.on_step(told))
}

/// The first value store of a commit, with its receipt. Where an allocation fails no step is taken, and the actor is as it was.
pub(crate) fn commit<V: Value>(
    alloc: Global,
    table: &TxTable<V>,
    seat: &mut Seat<V>,
    actor: &mut TxActor<V>,
) -> Result<(ActorNotice<V>, Record<V>), Memory>
    requires ties { Ties table.now seat.old actor.old }
    requires due { next_of (stage_of actor.old.stage) ≡ Next.FirstStore }
    ensures turned { IfOk result (λ done. Turned (opening_of table.now) seat.old actor.old seat.new done.0) }
    ensures ties { Ties table.now seat.new actor.new }
    ensures seat { OnErr result (seat.new ≡ seat.old) }
    ensures rest { OnErr result (actor.new ≡ record actor.old { words = actor.new.words }) }
    ensures leaves { OnOk result (KeepsCopies actor.old actor.new) }
    ensures gains { IfOk result (λ done. (view seat.new).receipts ≡ (view seat.old).receipts ++ (actor_of_seat seat.old, done.1) ∷ []) }
    ensures number { IfOk result (λ done. done.1.number ≡ actor.old.wv) }
    ensures writes { IfOk result (λ done. done.1.writes ≡ true) }
    ensures calls { IfOk result (λ done. done.1.calls ≡ actor.old.calls.items) }
{
    let number = actor.wv;
    let told = store_first(table, seat, actor)?;
    let calls = Items::from_vec(mem::replace(&mut actor.made, Vec::new(alloc)));
    let receipt = Record {
        number,
        writes: true,
        calls,
    };
    Ok((told, receipt))
}
