//! One turn of a request.
ghost use Rattle.std.specs.Prelude.{◌≡◌, ◌≢◌, [], IfOk, OnErr, OnOk, false};
ghost use Rattle.actor_parts.specs.Dispatch.{next_of};
ghost use Rattle.tx_actor.specs.Running.{stage_of};
ghost use Rattle.tx_actor.specs.declared.actor.ActorNotice.{ActorNotice as Tells};
ghost use Rattle.shared_table.specs.Seated.{actor as actor_of_seat, opening_of};
ghost use Rattle.tx_turns.specs.Ties.{Ties, Turned, commits};
ghost use Rattle.tx_turns.specs.Own.{HasOwn};
ghost use Rattle.tx_turns.specs.Refused.{IsGivenUp};
ghost use Rattle.actor_laws.specs.Courses.{latest};
ghost use Rattle.tx_turns.specs.Driven.{IsOnGate, MakesReceipt, WantsMemory, as_receipts, told_in};

use crate::asks::starve;
use crate::gates::{copy_base, put_gate, try_gate};
use crate::homes::{commit, go_home};
use crate::laws::turns_keep_own;
use crate::loading::load_word;
use crate::words::{close, step_word};
use actor_parts::{Boxed, Next};
use replay_log::Base;
use seq_model::{Memory, Record, Value};
use shared_table::{Seat, TxTable};
use std::alloc::Global;
use tx_actor::{ActorNotice, Stage, TxActor};

/// Whether this is quiet. What isn't is stored in `said` from then on.
#[inline(always)]
pub(crate) fn report<V: Value>(told: ActorNotice<V>, said: &mut ActorNotice<V>) -> bool
    ensures told { told ≡ told_in result said.new }
    ensures answered { result ≡ false → said.new ≢ ActorNotice.Quiet }
{
    match told {
        ActorNotice::Quiet => true,
        told => {
            *said = told;
            false
        }
    }
}

/// What was answered: nothing where it was quiet, else what was said.
fn told_of<V: Value>(quiet: bool, said: ActorNotice<V>) -> ActorNotice<V>
    ensures { result ≡ told_in quiet said }
{
    if quiet { ActorNotice::Quiet } else { said }
}

/// A step on the words that makes no receipt.
fn step_on<V: Value>(
    table: &TxTable<V>,
    seat: &mut Seat<V>,
    actor: &mut TxActor<V>,
    bases: &[Boxed<Base<V>>],
) -> ActorNotice<V>
    requires ties { Ties table.now seat.old actor.old }
    requires own { HasOwn table.now seat.old actor.old bases.now }
    requires due { next_of (stage_of actor.old.stage) ≡ Next.Word }
    requires open { actor.old.stage ≢ Stage.Closing }
    ensures turned { Turned (opening_of table.now) seat.old actor.old seat.new result }
    ensures receipt { commits (actor_of_seat seat.old) actor.old ≡ [] }
    ensures ties { Ties table.now seat.new actor.new }
    ensures own { HasOwn table.now seat.new actor.new bases.now }
{
    turns_keep_own::<V>();
    match actor.stage {
        Stage::Loading(..) => load_word(table, seat, actor, bases),
        _ => step_word(table, seat, actor),
    }
}

/// A step on the words, with the receipt of a transaction without writes where it commits one.
pub(crate) fn step<V: Value>(
    alloc: Global,
    table: &TxTable<V>,
    seat: &mut Seat<V>,
    actor: &mut TxActor<V>,
    bases: &[Boxed<Base<V>>],
) -> (ActorNotice<V>, Option<Record<V>>)
    requires ties { Ties table.now seat.old actor.old }
    requires own { HasOwn table.now seat.old actor.old bases.now }
    requires due { next_of (stage_of actor.old.stage) ≡ Next.Word }
    ensures turned { Turned (opening_of table.now) seat.old actor.old seat.new result.0 }
    ensures receipt { commits (actor_of_seat seat.old) actor.old ≡ as_receipts (actor_of_seat seat.old) result.1 }
    ensures ties { Ties table.now seat.new actor.new }
    ensures own { HasOwn table.now seat.new actor.new bases.now }
{
    turns_keep_own::<V>();
    match actor.stage {
        Stage::Closing => {
            let (told, receipt) = close(alloc, table, seat, actor);
            (told, Some(receipt))
        }
        _ => (step_on(table, seat, actor, bases), None),
    }
}

/// A try on a gate: whether it was quiet. Where an allocation fails no step is taken, and the request is aborted.
#[inline(always)]
pub(crate) fn try_next<V: Value>(
    table: &TxTable<V>,
    seat: &mut Seat<V>,
    actor: &mut TxActor<V>,
    bases: &mut Vec<Boxed<Base<V>>>,
    said: &mut ActorNotice<V>,
    k: u32,
) -> Result<bool, Memory>
    requires ties { Ties table.now seat.old actor.old }
    requires own { HasOwn table.now seat.old actor.old bases.old.items }
    requires due { next_of (stage_of actor.old.stage) ≡ Next.TryGate k }
    ensures turned { IfOk result (λ quiet. Turned (opening_of table.now) seat.old actor.old seat.new (told_in quiet said.new)) }
    ensures answered { IfOk result (λ quiet. quiet ≡ false → said.new ≢ ActorNotice.Quiet) }
    ensures ties { Ties table.now seat.new actor.new }
    ensures own { HasOwn table.now seat.new actor.new bases.new.items }
    ensures starved { OnErr result ((said : Tells V) × IsGivenUp (opening_of table.now) seat.old actor.old seat.new said) }
{
    turns_keep_own::<V>();
    match try_gate(table, seat, actor, bases, k) {
        Ok(told) => Ok(report(told, said)),
        Err(_) => {
            let _ = starve(table, seat, actor);
            Err(Memory)
        }
    }
}

/// What a call touches is copied, and its gate put back: whether that was quiet. Where an allocation fails the request is aborted.
#[inline(always)]
fn copy_next<V: Value>(
    alloc: Global,
    table: &TxTable<V>,
    seat: &mut Seat<V>,
    actor: &mut TxActor<V>,
    bases: &mut Vec<Boxed<Base<V>>>,
    said: &mut ActorNotice<V>,
    k: u32,
) -> Result<bool, Memory>
    requires ties { Ties table.now seat.old actor.old }
    requires own { HasOwn table.now seat.old actor.old bases.old.items }
    requires due { next_of (stage_of actor.old.stage) ≡ Next.Copy k }
    ensures turned { IfOk result (λ quiet. Turned (opening_of table.now) seat.old actor.old seat.new (told_in quiet said.new)) }
    ensures answered { IfOk result (λ quiet. quiet ≡ false → said.new ≢ ActorNotice.Quiet) }
    ensures ties { Ties table.now seat.new actor.new }
    ensures own { HasOwn table.now seat.new actor.new bases.new.items }
    ensures starved { OnErr result ((said : Tells V) × IsGivenUp (opening_of table.now) seat.old actor.old seat.new said) }
{
    match copy_base(alloc, table, seat, actor, bases, k) {
        Ok(told) => Ok(report(told, said)),
        Err(_) => Err(Memory),
    }
}

/// A base is put back with its log: whether that was quiet.
#[inline(always)]
pub(crate) fn home_next<V: Value>(
    table: &TxTable<V>,
    seat: &mut Seat<V>,
    actor: &mut TxActor<V>,
    bases: &mut Vec<Boxed<Base<V>>>,
    said: &mut ActorNotice<V>,
    k: u32,
) -> bool
    requires ties { Ties table.now seat.old actor.old }
    requires own { HasOwn table.now seat.old actor.old bases.old.items }
    requires due { next_of (stage_of actor.old.stage) ≡ Next.GoHome k }
    ensures turned { Turned (opening_of table.now) seat.old actor.old seat.new (told_in result said.new) }
    ensures answered { result ≡ false → said.new ≢ ActorNotice.Quiet }
    ensures ties { Ties table.now seat.new actor.new }
    ensures own { HasOwn table.now seat.new actor.new bases.new.items }
{
    report(go_home(table, seat, actor, bases, k), said)
}

/// A gate is put back: whether that was quiet.
#[inline(never)]
fn put_next<V: Value>(
    table: &TxTable<V>,
    seat: &mut Seat<V>,
    actor: &mut TxActor<V>,
    bases: &mut Vec<Boxed<Base<V>>>,
    said: &mut ActorNotice<V>,
    k: u32,
) -> bool
    requires ties { Ties table.now seat.old actor.old }
    requires own { HasOwn table.now seat.old actor.old bases.old.items }
    requires due { next_of (stage_of actor.old.stage) ≡ Next.PutGate k }
    ensures turned { Turned (opening_of table.now) seat.old actor.old seat.new (told_in result said.new) }
    ensures answered { result ≡ false → said.new ≢ ActorNotice.Quiet }
    ensures ties { Ties table.now seat.new actor.new }
    ensures own { HasOwn table.now seat.new actor.new bases.new.items }
{
    report(put_gate(table, seat, actor, bases, k), said)
}

/// The first value store of a commit, with its receipt. Where an allocation fails no step is taken, and the request is aborted.
pub(crate) fn store_next<V: Value>(
    alloc: Global,
    table: &TxTable<V>,
    seat: &mut Seat<V>,
    actor: &mut TxActor<V>,
    bases: &mut Vec<Boxed<Base<V>>>,
) -> Result<(ActorNotice<V>, Option<Record<V>>), Memory>
    requires ties { Ties table.now seat.old actor.old }
    requires own { HasOwn table.now seat.old actor.old bases.old.items }
    requires due { next_of (stage_of actor.old.stage) ≡ Next.FirstStore }
    ensures turned { IfOk result (λ done. Turned (opening_of table.now) seat.old actor.old seat.new done.0) }
    ensures receipt { IfOk result (λ done. commits (actor_of_seat seat.old) actor.old ≡ as_receipts (actor_of_seat seat.old) done.1) }
    ensures ties { Ties table.now seat.new actor.new }
    ensures own { HasOwn table.now seat.new actor.new bases.new.items }
    ensures starved { OnErr result ((said : Tells V) × IsGivenUp (opening_of table.now) seat.old actor.old seat.new said) }
{
    turns_keep_own::<V>();
    match commit(alloc, table, seat, actor, bases) {
        Ok((told, receipt)) => Ok((told, Some(receipt))),
        Err(_) => {
            let _ = starve(table, seat, actor);
            Err(Memory)
        }
    }
}

/// A turn on a gate, which makes no receipt: whether it was quiet. What it answers else is stored in `said`.
#[inline(always)]
pub(crate) fn turn_on_gate<V: Value>(
    alloc: Global,
    table: &TxTable<V>,
    seat: &mut Seat<V>,
    actor: &mut TxActor<V>,
    bases: &mut Vec<Boxed<Base<V>>>,
    said: &mut ActorNotice<V>,
    next: Next,
) -> Result<bool, Memory>
    requires ties { Ties table.now seat.old actor.old }
    requires own { HasOwn table.now seat.old actor.old bases.old.items }
    requires due { next_of (stage_of actor.old.stage) ≡ next }
    requires gate { IsOnGate next }
    ensures turned { IfOk result (λ quiet. Turned (opening_of table.now) seat.old actor.old seat.new (told_in quiet said.new)) }
    ensures answered { IfOk result (λ quiet. quiet ≡ false → said.new ≢ ActorNotice.Quiet) }
    ensures receipt { commits (actor_of_seat seat.old) actor.old ≡ [] }
    ensures ties { Ties table.now seat.new actor.new }
    ensures own { HasOwn table.now seat.new actor.new bases.new.items }
    ensures starved { OnErr result ((said : Tells V) × IsGivenUp (opening_of table.now) seat.old actor.old seat.new said) }
    ensures wants { OnErr result (WantsMemory (next_of (stage_of actor.old.stage))) }
{
    match next {
        Next::Nothing => unreachable!(),
        Next::Word => unreachable!(),
        Next::FirstStore => unreachable!(),
        Next::TryGate(k) => try_next(table, seat, actor, bases, said, k),
        Next::Copy(k) => copy_next(alloc, table, seat, actor, bases, said, k),
        Next::GoHome(k) => Ok(home_next(table, seat, actor, bases, said, k)),
        Next::PutGate(k) => Ok(put_next(table, seat, actor, bases, said, k)),
    }
}

/// The next turn of a request that is under way, with the receipt that it makes. Where an allocation fails, and only a try of a gate,
/// what a call copies and the first value store of a commit allocate, the request is aborted: no step is taken, or the gate of a call
/// that is to read a location was put back.
#[inline(always)]
pub fn turn<V: Value>(
    alloc: Global,
    table: &TxTable<V>,
    seat: &mut Seat<V>,
    actor: &mut TxActor<V>,
    bases: &mut Vec<Boxed<Base<V>>>,
) -> Result<(ActorNotice<V>, Option<Record<V>>), Memory>
    requires ties { Ties table.now seat.old actor.old }
    requires own { HasOwn table.now seat.old actor.old bases.old.items }
    requires due { next_of (stage_of actor.old.stage) ≢ Next.Nothing }
    ensures turned { IfOk result (λ done. Turned (opening_of table.now) seat.old actor.old seat.new done.0) }
    ensures receipt { IfOk result (λ done. commits (actor_of_seat seat.old) actor.old ≡ as_receipts (actor_of_seat seat.old) done.1) }
    ensures ties { Ties table.now seat.new actor.new }
    ensures own { HasOwn table.now seat.new actor.new bases.new.items }
    ensures starved { OnErr result ((said : Tells V) × IsGivenUp (opening_of table.now) seat.old actor.old seat.new said) }
    ensures wants { OnErr result (WantsMemory (next_of (stage_of actor.old.stage))) }
{
    match actor.next() {
        Next::Nothing => unreachable!(),
        Next::Word => Ok(step(alloc, table, seat, actor, bases.as_slice())),
        Next::FirstStore => store_next(alloc, table, seat, actor, bases),
        next => {
            let mut said = ActorNotice::Quiet;
            match turn_on_gate(alloc, table, seat, actor, bases, &mut said, next) {
                Ok(quiet) => Ok((told_of(quiet, said), None)),
                Err(_) => Err(Memory),
            }
        }
    }
}

/// The receipt that was made last is kept.
pub(crate) fn keep<V: Value>(made: Option<Record<V>>, kept: &mut Option<Record<V>>)
    ensures { kept.new ≡ latest made kept.old }
{
    match made {
        Some(made) => *kept = Some(made),
        None => {}
    }
}

/// Like [`turn`]: whether it was quiet. What it answers else is stored in `said`, and a receipt that it made in `kept`.
#[inline(never)]
pub(crate) fn turn_apart<V: Value>(
    alloc: Global,
    table: &TxTable<V>,
    seat: &mut Seat<V>,
    actor: &mut TxActor<V>,
    bases: &mut Vec<Boxed<Base<V>>>,
    said: &mut ActorNotice<V>,
    kept: &mut Option<Record<V>>,
) -> Result<bool, Memory>
    requires ties { Ties table.now seat.old actor.old }
    requires own { HasOwn table.now seat.old actor.old bases.old.items }
    requires due { next_of (stage_of actor.old.stage) ≢ Next.Nothing }
    ensures turned { IfOk result (λ quiet. Turned (opening_of table.now) seat.old actor.old seat.new (told_in quiet said.new)) }
    ensures answered { IfOk result (λ quiet. quiet ≡ false → said.new ≢ ActorNotice.Quiet) }
    ensures receipt { OnOk result (MakesReceipt (actor_of_seat seat.old) actor.old kept.old kept.new) }
    ensures ties { Ties table.now seat.new actor.new }
    ensures own { HasOwn table.now seat.new actor.new bases.new.items }
    ensures starved { OnErr result ((said : Tells V) × IsGivenUp (opening_of table.now) seat.old actor.old seat.new said) }
    ensures wants { OnErr result (WantsMemory (next_of (stage_of actor.old.stage))) }
{
    match turn(alloc, table, seat, actor, bases) {
        Ok((told, receipt)) => {
            keep(receipt, kept);
            Ok(report(told, said))
        }
        Err(_) => Err(Memory),
    }
}
