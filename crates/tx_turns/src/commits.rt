//! A commit of a transaction that has written: its steps, in their order, which is that of TL2 (DISC 2006).
//!
//! [`commit_on`] has this order. Each of its parts takes the steps of one kind, in straight code, where they are next, and else does
//! nothing. So where another transaction is in its way, and it is being aborted, all parts after that do nothing, and the loop over turns
//! does the rest. The gates of collections are taken here, and put back with their bases; the steps on the words have files of their own.
ghost use Rattle.std.specs.Prelude.{◌≡◌, ◌≢◌, false, true, IfOk, IfSome, OnErr, Option};
ghost use Rattle.seq_model.specs.declared.record.Record.{Record as Made};
ghost use Rattle.actor_parts.specs.Dispatch.{next_of};
ghost use Rattle.replay_log.specs.WorldProgress.{AreSmall};
ghost use Rattle.tx_actor.specs.Running.{stage_of};
ghost use Rattle.shared_table.specs.Seated.{blocks_in, opening_of};
ghost use Rattle.tx_turns.specs.Ties.{Ties};
ghost use Rattle.tx_turns.specs.Own.{HasOwn};
ghost use Rattle.tx_turns.specs.Driven.{told_in};
ghost use Rattle.tx_turns.specs.Straight.{LeadsAll, LeadsBy, WantsBy};

use crate::checks::check_left;
use crate::locks::lock_left;
use crate::releases::release_left;
use crate::stores::store_left;
use crate::turns::{home_next, keep, report, store_next, try_next};
use actor_parts::{Boxed, Next, at_place};
use replay_log::Base;
use seq_model::{Memory, Record, Value};
use shared_table::{Seat, TxTable};
use std::alloc::Global;
use tx_actor::{ActorNotice, Stage, TxActor};

/// The gate that a commit is to try.
#[inline(always)]
fn gate_to_try<V>(actor: &TxActor<V>) -> Option<u32>
    ensures { IfSome result (λ k. next_of (stage_of actor.now.stage) ≡ Next.TryGate k) }
{
    match &actor.stage {
        Stage::Gating(homes, got, _) => at_place(homes, *got),
        _ => None,
    }
}

/// The gates that a commit takes, where it is to take some: each is tried until it is had, or up to its last try. Where an allocation fails
/// the transaction is being aborted.
#[inline(always)]
fn gates_on<V: Value>(
    table: &TxTable<V>,
    seat: &mut Seat<V>,
    actor: &mut TxActor<V>,
    bases: &mut Vec<Boxed<Base<V>>>,
    said: &mut ActorNotice<V>,
) -> Result<bool, Memory>
    requires ties { Ties table.now seat.old actor.old }
    requires own { HasOwn table.now seat.old actor.old bases.old.items }
    requires small { AreSmall (blocks_in table.now) }
    ensures leads { IfOk result (λ quiet. LeadsAll (opening_of table.now) seat.old seat.new (told_in quiet said.new)) }
    ensures answered { IfOk result (λ quiet. quiet ≡ false → said.new ≢ ActorNotice.Quiet) }
    ensures ties { Ties table.now seat.new actor.new }
    ensures own { HasOwn table.now seat.new actor.new bases.new.items }
    ensures wants { OnErr result ((d : Option (Made V)) → WantsBy (opening_of table.now) seat.old seat.new d) }
{
    while let Some(k) = gate_to_try(actor) {
        if !try_next(table, seat, actor, bases, said, k)? {
            return Ok(false);
        }
    }
    Ok(true)
}

/// Whether the first value store is next.
#[inline(always)]
fn is_ready<V>(actor: &TxActor<V>) -> bool
    ensures { result ≡ true → next_of (stage_of actor.now.stage) ≡ Next.FirstStore }
{
    matches!(&actor.stage, Stage::Ready(_))
}

/// The first value store, with which the transaction commits, where it is next; its receipt is in `made` then. Where an allocation fails
/// the transaction is being aborted.
#[inline(always)]
fn first_stored_on<V: Value>(
    alloc: Global,
    table: &TxTable<V>,
    seat: &mut Seat<V>,
    actor: &mut TxActor<V>,
    bases: &mut Vec<Boxed<Base<V>>>,
    said: &mut ActorNotice<V>,
    made: &mut Option<Record<V>>,
) -> Result<bool, Memory>
    requires ties { Ties table.now seat.old actor.old }
    requires own { HasOwn table.now seat.old actor.old bases.old.items }
    ensures leads { IfOk result (λ quiet. LeadsBy (opening_of table.now) seat.old seat.new (told_in quiet said.new) made.old made.new) }
    ensures answered { IfOk result (λ quiet. quiet ≡ false → said.new ≢ ActorNotice.Quiet) }
    ensures ties { Ties table.now seat.new actor.new }
    ensures own { HasOwn table.now seat.new actor.new bases.new.items }
    ensures wants { OnErr result (WantsBy (opening_of table.now) seat.old seat.new made.old) }
{
    if !is_ready(actor) {
        return Ok(true);
    }
    match store_next(alloc, table, seat, actor, bases) {
        Ok((told, receipt)) => {
            keep(receipt, made);
            Ok(report(told, said))
        }
        Err(_) => Err(Memory),
    }
}

/// The collection whose base a commit is to put back.
#[inline(always)]
fn home_to_put<V>(actor: &TxActor<V>) -> Option<u32>
    ensures { IfSome result (λ k. next_of (stage_of actor.now.stage) ≡ Next.GoHome k) }
{
    match &actor.stage {
        Stage::Homing(homes) => at_place(homes, 0),
        _ => None,
    }
}

/// The bases that a commit has written are put back with their logs, and so are their gates, where it holds some.
#[inline(always)]
fn homes_on<V: Value>(
    table: &TxTable<V>,
    seat: &mut Seat<V>,
    actor: &mut TxActor<V>,
    bases: &mut Vec<Boxed<Base<V>>>,
    said: &mut ActorNotice<V>,
) -> bool
    requires ties { Ties table.now seat.old actor.old }
    requires own { HasOwn table.now seat.old actor.old bases.old.items }
    requires small { AreSmall (blocks_in table.now) }
    ensures leads { LeadsAll (opening_of table.now) seat.old seat.new (told_in result said.new) }
    ensures answered { result ≡ false → said.new ≢ ActorNotice.Quiet }
    ensures ties { Ties table.now seat.new actor.new }
    ensures own { HasOwn table.now seat.new actor.new bases.new.items }
{
    while let Some(k) = home_to_put(actor) {
        if !home_next(table, seat, actor, bases, said, k) {
            return false;
        }
    }
    true
}

/// The steps of a commit, in their order: whether none of them answered. The last one answers that the transaction has committed, so where
/// none did it is being aborted, as it is where an allocation fails. Its receipt is in `made` from the first value store on.
#[inline(always)]
pub(crate) fn commit_on<V: Value>(
    alloc: Global,
    table: &TxTable<V>,
    seat: &mut Seat<V>,
    actor: &mut TxActor<V>,
    bases: &mut Vec<Boxed<Base<V>>>,
    said: &mut ActorNotice<V>,
    made: &mut Option<Record<V>>,
) -> Result<bool, Memory>
    requires ties { Ties table.now seat.old actor.old }
    requires own { HasOwn table.now seat.old actor.old bases.old.items }
    requires small { AreSmall (blocks_in table.now) }
    ensures leads { IfOk result (λ quiet. LeadsBy (opening_of table.now) seat.old seat.new (told_in quiet said.new) made.old made.new) }
    ensures answered { IfOk result (λ quiet. quiet ≡ false → said.new ≢ ActorNotice.Quiet) }
    ensures ties { Ties table.now seat.new actor.new }
    ensures own { HasOwn table.now seat.new actor.new bases.new.items }
    ensures wants { OnErr result (WantsBy (opening_of table.now) seat.old seat.new made.old) }
{
    // the locks of what was written, and the number of the commit
    if !lock_left(table, seat, actor, bases.as_slice(), said) {
        return Ok(false);
    }
    if !check_left(table, seat, actor, bases.as_slice(), said) {
        return Ok(false);
    }
    if !gates_on(table, seat, actor, bases, said)? {
        return Ok(false);
    }
    if !first_stored_on(alloc, table, seat, actor, bases, said, made)? {
        return Ok(false);
    }
    if !store_left(table, seat, actor, bases.as_slice(), said) {
        return Ok(false);
    }
    if !homes_on(table, seat, actor, bases, said) {
        return Ok(false);
    }
    Ok(release_left(table, seat, actor, bases.as_slice(), said))
}
