//! A request, up to its answer.
ghost use Rattle.std.specs.Prelude.{◌≡◌, ◌≢◌, [], None, OnErr, OnOk, false, true};
ghost use Rattle.actor_parts.specs.Dispatch.{next_of};
ghost use Rattle.replay_log.specs.WorldProgress.{AreSmall};
ghost use Rattle.shared_table.specs.Seated.{blocks_in, opening_of};
ghost use Rattle.actor_laws.specs.Courses.{IsUnderWay};
ghost use Rattle.tx_actor.specs.Running.{stage_of};
ghost use Rattle.actor_laws.specs.KnownStages.{Ends};
ghost use Rattle.tx_turns.specs.Ties.{Ties};
ghost use Rattle.tx_turns.specs.Own.{HasOwn};
ghost use Rattle.tx_turns.specs.Driven.{Driven, IsOnGate, seat_in, standing, told_in};
ghost use Rattle.tx_turns.specs.Straight.{IsLedTo, LeadsBy, LeadsFrom, WantsBy};

use crate::begins::begin_next;
use crate::commits::commit_on;
use crate::reads::steps_on;
use crate::turns::{report, step, turn_apart, turn_on_gate};
use actor_parts::{Boxed, Next};
use replay_log::Base;
use seq_model::{Memory, Record, Value};
use shared_table::{Seat, TxTable};
use std::alloc::Global;
use tx_actor::{ActorNotice, Stage, TxActor};

/// Whether the next turn is a step on the words that makes no receipt.
fn is_on_words<V>(next: Next, stage: &Stage<V>) -> bool
    ensures due { result ≡ true → next ≡ Next.Word }
    ensures open { result ≡ true → stage.now ≢ Stage.Closing }
{
    match next {
        Next::Word => !matches!(stage, Stage::Closing),
        _ => false,
    }
}

/// Whether the next turn is on a gate.
fn is_on_gate(next: Next) -> bool
    ensures { result ≡ true → IsOnGate next }
{
    match next {
        Next::TryGate(_) | Next::Copy(_) | Next::GoHome(_) | Next::PutGate(_) => true,
        _ => false,
    }
}

/// The turns of a request that is under way, up to the one that answers something: its answer is in `said` then, and the receipt that they
/// made in `kept`. They end, whatever the other seats do. Where an allocation fails they stop, and the transaction is being aborted.
#[inline(never)]
fn advance<V: Value>(
    alloc: Global,
    table: &TxTable<V>,
    seat: &mut Seat<V>,
    actor: &mut TxActor<V>,
    bases: &mut Vec<Boxed<Base<V>>>,
    said: &mut ActorNotice<V>,
    kept: &mut Option<Record<V>>,
) -> Result<(), Memory>
    requires ties { Ties table.now seat.old actor.old }
    requires own { HasOwn table.now seat.old actor.old bases.old.items }
    requires small { AreSmall (blocks_in table.now) }
    requires come { IsLedTo (opening_of table.now) seat.old ActorNotice.Quiet kept.old }
    ensures leads { OnOk result (LeadsBy (opening_of table.now) seat.old seat.new said.new kept.old kept.new) }
    ensures answered { OnOk result (said.new ≢ ActorNotice.Quiet) }
    ensures ties { Ties table.now seat.new actor.new }
    ensures own { HasOwn table.now seat.new actor.new bases.new.items }
    ensures wants { OnErr result (WantsBy (opening_of table.now) seat.old seat.new kept.old) }
{
    'turns: loop {
        let next = actor.next();
        if is_on_words(next, &actor.stage) {
            if !steps_on(table, seat, actor, bases.as_slice(), said) {
                return Ok(());
            }
        } else if is_on_gate(next) {
            match turn_on_gate(alloc, table, seat, actor, bases, said, next) {
                Ok(quiet) => {
                    if !quiet {
                        return Ok(());
                    }
                }
                Err(_) => return Err(Memory),
            }
        } else {
            match turn_apart(alloc, table, seat, actor, bases, said, kept) {
                Ok(silent) => {
                    if !silent {
                        return Ok(());
                    }
                }
                Err(_) => return Err(Memory),
            }
        }
    }
}

/// The turns of a transaction that is being aborted: its gates and locks are put back, and the last one answers why. They take no memory.
#[inline(never)]
pub(crate) fn give_up<V: Value>(
    alloc: Global,
    table: &TxTable<V>,
    seat: &mut Seat<V>,
    actor: &mut TxActor<V>,
    bases: &mut Vec<Boxed<Base<V>>>,
) -> ActorNotice<V>
    requires ties { Ties table.now seat.old actor.old }
    requires own { HasOwn table.now seat.old actor.old bases.old.items }
    requires small { AreSmall (blocks_in table.now) }
    requires ends { standing (opening_of table.now) seat.old ≡ Ends }
    ensures driven { Driven (opening_of table.now) seat.old seat.new result None }
    ensures answered { result ≢ ActorNotice.Quiet }
    ensures ties { Ties table.now seat.new actor.new }
    ensures own { HasOwn table.now seat.new actor.new bases.new.items }
{
    let mut said = ActorNotice::Quiet;
    let mut kept = None;
    match advance(alloc, table, seat, actor, bases, &mut said, &mut kept) {
        Ok(()) => said,
        Err(_) => unreachable!(),
    }
}

/// The turns that are left of a request, up to its answer. Where an allocation fails, the transaction is aborted.
#[inline(always)]
fn finish_from<V: Value>(
    alloc: Global,
    table: &TxTable<V>,
    seat: &mut Seat<V>,
    actor: &mut TxActor<V>,
    bases: &mut Vec<Boxed<Base<V>>>,
    made: Option<Record<V>>,
) -> (ActorNotice<V>, Option<Record<V>>)
    requires ties { Ties table.now seat.old actor.old }
    requires own { HasOwn table.now seat.old actor.old bases.old.items }
    requires small { AreSmall (blocks_in table.now) }
    requires come { IsLedTo (opening_of table.now) seat.old ActorNotice.Quiet made }
    ensures leads { LeadsBy (opening_of table.now) seat.old seat.new result.0 made result.1 }
    ensures answered { result.0 ≢ ActorNotice.Quiet }
    ensures ties { Ties table.now seat.new actor.new }
    ensures own { HasOwn table.now seat.new actor.new [] }
{
    let mut said = ActorNotice::Quiet;
    let mut kept = made;
    match advance(alloc, table, seat, actor, bases, &mut said, &mut kept) {
        Ok(()) => (said, kept),
        Err(_) => (give_up(alloc, table, seat, actor, bases), None),
    }
}

/// The answer of a request of which some turns were taken: what the last one answered, or, where all were quiet, that of the turns left.
#[inline(always)]
pub(crate) fn finish_after<V: Value>(
    alloc: Global,
    table: &TxTable<V>,
    seat: &mut Seat<V>,
    actor: &mut TxActor<V>,
    bases: &mut Vec<Boxed<Base<V>>>,
    quiet: bool,
    said: ActorNotice<V>,
    made: Option<Record<V>>,
) -> (ActorNotice<V>, Option<Record<V>>)
    requires ties { Ties table.now seat.old actor.old }
    requires own { HasOwn table.now seat.old actor.old bases.old.items }
    requires small { AreSmall (blocks_in table.now) }
    requires come { IsLedTo (opening_of table.now) seat.old (told_in quiet said) made }
    requires answered { quiet ≡ false → said ≢ ActorNotice.Quiet }
    ensures leads { LeadsFrom (opening_of table.now) seat.old seat.new (told_in quiet said) result.0 made result.1 }
    ensures answered { result.0 ≢ ActorNotice.Quiet }
    ensures ties { Ties table.now seat.new actor.new }
    ensures own { HasOwn table.now seat.new actor.new [] }
{
    if !quiet {
        return (said, made);
    }
    finish_from(alloc, table, seat, actor, bases, made)
}

/// A commit of a transaction that has written.
#[inline(always)]
fn commit_through<V: Value>(
    alloc: Global,
    table: &TxTable<V>,
    seat: &mut Seat<V>,
    actor: &mut TxActor<V>,
    bases: &mut Vec<Boxed<Base<V>>>,
) -> (ActorNotice<V>, Option<Record<V>>)
    requires ties { Ties table.now seat.old actor.old }
    requires own { HasOwn table.now seat.old actor.old bases.old.items }
    requires small { AreSmall (blocks_in table.now) }
    requires under { IsUnderWay (seat_in (opening_of table.now) seat.old) (seat_in (opening_of table.now) seat.old) None }
    ensures driven { Driven (opening_of table.now) seat.old seat.new result.0 result.1 }
    ensures answered { result.0 ≢ ActorNotice.Quiet }
    ensures ties { Ties table.now seat.new actor.new }
    ensures own { HasOwn table.now seat.new actor.new [] }
{
    let mut said = ActorNotice::Quiet;
    let mut made = None;
    match commit_on(alloc, table, seat, actor, bases, &mut said, &mut made) {
        Ok(quiet) => finish_after(alloc, table, seat, actor, bases, quiet, said, made),
        Err(_) => (give_up(alloc, table, seat, actor, bases), None),
    }
}

/// Whether a transaction without writes is to commit, by a step on the words.
#[inline(always)]
fn is_to_close<V>(actor: &TxActor<V>) -> bool
    ensures { result ≡ true → next_of (stage_of actor.now.stage) ≡ Next.Word }
{
    matches!(&actor.stage, Stage::Closing)
}

/// A step on the words, at once, with the receipt that it makes, and the turns after it.
#[inline(always)]
fn close_through<V: Value>(
    alloc: Global,
    table: &TxTable<V>,
    seat: &mut Seat<V>,
    actor: &mut TxActor<V>,
    bases: &mut Vec<Boxed<Base<V>>>,
) -> (ActorNotice<V>, Option<Record<V>>)
    requires ties { Ties table.now seat.old actor.old }
    requires own { HasOwn table.now seat.old actor.old bases.old.items }
    requires small { AreSmall (blocks_in table.now) }
    requires under { IsUnderWay (seat_in (opening_of table.now) seat.old) (seat_in (opening_of table.now) seat.old) None }
    requires due { next_of (stage_of actor.old.stage) ≡ Next.Word }
    ensures driven { Driven (opening_of table.now) seat.old seat.new result.0 result.1 }
    ensures answered { result.0 ≢ ActorNotice.Quiet }
    ensures ties { Ties table.now seat.new actor.new }
    ensures own { HasOwn table.now seat.new actor.new [] }
{
    let (told, made) = step(alloc, table, seat, actor, bases.as_slice());
    let mut said = ActorNotice::Quiet;
    let quiet = report(told, &mut said);
    finish_after(alloc, table, seat, actor, bases, quiet, said, made)
}

/// The turns of the request that is under way, up to its answer, with the receipt that they make. They end, whatever the other seats do.
/// Where an allocation fails, the transaction is aborted, and the answer says so. After the answer no gate is held and no base is in hand.
/// The bases that it takes on the way are stored in `bases`, which keeps the room for the next request: what is there at first is dropped.
#[inline(always)]
pub fn drive<V: Value>(
    alloc: Global,
    table: &TxTable<V>,
    seat: &mut Seat<V>,
    actor: &mut TxActor<V>,
    bases: &mut Vec<Boxed<Base<V>>>,
) -> (ActorNotice<V>, Option<Record<V>>)
    requires ties { Ties table.now seat.old actor.old }
    requires own { HasOwn table.now seat.old actor.old [] }
    requires small { AreSmall (blocks_in table.now) }
    requires under { IsUnderWay (seat_in (opening_of table.now) seat.old) (seat_in (opening_of table.now) seat.old) None }
    ensures driven { Driven (opening_of table.now) seat.old seat.new result.0 result.1 }
    ensures answered { result.0 ≢ ActorNotice.Quiet }
    ensures ties { Ties table.now seat.new actor.new }
    ensures own { HasOwn table.now seat.new actor.new [] }
{
    bases.clear();
    finish_from(alloc, table, seat, actor, bases, None)
}

/// The answer of a request of which some turns were taken, the last of which answered this; where that was nothing, that of the turns left.
#[inline(always)]
pub(crate) fn finish_told<V: Value>(
    alloc: Global,
    table: &TxTable<V>,
    seat: &mut Seat<V>,
    actor: &mut TxActor<V>,
    bases: &mut Vec<Boxed<Base<V>>>,
    told: ActorNotice<V>,
) -> (ActorNotice<V>, Option<Record<V>>)
    requires ties { Ties table.now seat.old actor.old }
    requires own { HasOwn table.now seat.old actor.old bases.old.items }
    requires small { AreSmall (blocks_in table.now) }
    requires come { IsLedTo (opening_of table.now) seat.old told None }
    ensures leads { LeadsFrom (opening_of table.now) seat.old seat.new told result.0 None result.1 }
    ensures answered { result.0 ≢ ActorNotice.Quiet }
    ensures ties { Ties table.now seat.new actor.new }
    ensures own { HasOwn table.now seat.new actor.new [] }
{
    match told {
        ActorNotice::Quiet => finish_from(alloc, table, seat, actor, bases, None),
        told => (told, None),
    }
}

/// Like [`drive`], of a commit: its steps are straight code, in the order of `commit_on`.
#[inline(always)]
pub fn drive_commit<V: Value>(
    alloc: Global,
    table: &TxTable<V>,
    seat: &mut Seat<V>,
    actor: &mut TxActor<V>,
    bases: &mut Vec<Boxed<Base<V>>>,
) -> (ActorNotice<V>, Option<Record<V>>)
    requires ties { Ties table.now seat.old actor.old }
    requires own { HasOwn table.now seat.old actor.old [] }
    requires small { AreSmall (blocks_in table.now) }
    requires under { IsUnderWay (seat_in (opening_of table.now) seat.old) (seat_in (opening_of table.now) seat.old) None }
    ensures driven { Driven (opening_of table.now) seat.old seat.new result.0 result.1 }
    ensures answered { result.0 ≢ ActorNotice.Quiet }
    ensures ties { Ties table.now seat.new actor.new }
    ensures own { HasOwn table.now seat.new actor.new [] }
{
    bases.clear();
    if is_to_close(actor) {
        return close_through(alloc, table, seat, actor, bases);
    }
    commit_through(alloc, table, seat, actor, bases)
}

/// Like [`drive`], of a begin: its one step is straight code.
#[inline(always)]
pub fn drive_begin<V: Value>(
    alloc: Global,
    table: &TxTable<V>,
    seat: &mut Seat<V>,
    actor: &mut TxActor<V>,
    bases: &mut Vec<Boxed<Base<V>>>,
) -> (ActorNotice<V>, Option<Record<V>>)
    requires ties { Ties table.now seat.old actor.old }
    requires own { HasOwn table.now seat.old actor.old [] }
    requires small { AreSmall (blocks_in table.now) }
    requires under { IsUnderWay (seat_in (opening_of table.now) seat.old) (seat_in (opening_of table.now) seat.old) None }
    ensures driven { Driven (opening_of table.now) seat.old seat.new result.0 result.1 }
    ensures answered { result.0 ≢ ActorNotice.Quiet }
    ensures ties { Ties table.now seat.new actor.new }
    ensures own { HasOwn table.now seat.new actor.new [] }
{
    bases.clear();
    let mut said = ActorNotice::Quiet;
    let quiet = begin_next(table, seat, actor, bases.as_slice(), &mut said);
    finish_after(alloc, table, seat, actor, bases, quiet, said, None)
}
