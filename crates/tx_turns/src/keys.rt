//! A call, up to its answer.
//!
//! A call whose gate is to be tried is straight code: the gate, what the call touches, and, of a call on a key, the loads of its location.
//! The call is in hand from one step to the next, so nothing of its stage is stored. At any other finding it is the actor's again, and the
//! loop over turns does the rest. A word is read by straight code too.
ghost use Rattle.std.specs.Prelude.{◌≡◌, ◌≢◌, ◌<◌, [], ◌∷◌, IfNone, IfOk, IfSome, None, OnErr};
ghost use Rattle.std.specs.Vec.{vec_capacity, vec_len};
ghost use Rattle.replay_log.specs.WorldProgress.{AreSmall};
ghost use Rattle.step_core.specs.declared.actor.Place.TheVariants.{Again, Fetch, Look};
ghost use Rattle.tx_actor.specs.Running.{at};
ghost use Rattle.tx_actor.specs.declared.actor.ActorNotice.TheVariants as told;
ghost use Rattle.shared_table.specs.Seated.{blocks_in, opening_of};
ghost use Rattle.actor_laws.specs.Courses.{IsUnderWay};
ghost use Rattle.tx_turns.specs.Ties.{Ties};
ghost use Rattle.tx_turns.specs.Own.{HasOwn};
ghost use Rattle.tx_turns.specs.Driven.{Driven, seat_in};
ghost use Rattle.tx_turns.specs.Straight.{HasDriven, HasLed, HasPut, HasStopped, at_place};

use crate::asks::starve;
use crate::driving::{finish_after, finish_told, give_up};
use crate::gates::{refuse, wait};
use crate::reads::word_read_on;
use actor_parts::word_laws::steps_as_worlds;
use actor_parts::{Boxed, copies_go_on, copies_stay, excerpts_as_worlds, sizes_copies};
use replay_log::Base;
use seq_model::{Memory, Record, Value};
use shared_table::{Seat, TxTable};
use std::alloc::Global;
use std::collections::VecDeque;
use std::mem;
use step_core::Place;
use tx_actor::laws::{
    copies_by_stage, copies_stay_own, free_gates_are_held, loads_as_worlds, loads_keep_running,
    loads_stay_own, seats_as_actors, taken_parts_are_own,
};
use tx_actor::turn_laws::events_keep_copies;
use tx_actor::{ActorNotice, CallInHand, CallWithOutcome, KeyedCall, Stage, TxActor, WaitingCall};
use vlock_word::LockWord;

/// Whether a gate is to be tried for a call.
#[inline(always)]
fn is_trying<V>(stage: &Stage<V>) -> bool {
    matches!(stage, Stage::Trying(_, _))
}

/// The call whose gate is to be tried, with the tries that are left after this one, taken out of its actor.
#[inline(always)]
pub(crate) fn call_to_try<V: Value>(actor: &mut TxActor<V>) -> Option<(CallInHand<V>, u32)>
    ensures some { IfSome result (λ x. actor.old ≡ at actor.new (Stage.Trying x.0 x.1)) }
    ensures idle { IfSome result (λ x. actor.new.stage ≡ Stage.Idle) }
    ensures none { IfNone result (actor.new ≡ actor.old) }
{
    if !is_trying(&actor.stage) {
        return None;
    }
    let stage = mem::replace(&mut actor.stage, Stage::Idle);
    match stage {
        Stage::Trying(asked, tries) => Some((asked, tries)),
        other => {
            actor.stage = other;
            None
        }
    }
}

/// The second load of the lock word, and what the actor makes of it.
#[inline(always)]
fn again_key<V: Value>(
    table: &TxTable<V>,
    seat: &mut Seat<V>,
    actor: &mut TxActor<V>,
    call: Boxed<CallWithOutcome<V>>,
    left: VecDeque<(u32, u64)>,
    location: u32,
    version: u64,
    value: u64,
) -> ActorNotice<V>
    requires ties { Ties table.now seat.old (at_place (at actor.old (Stage.Loading call left)) (Again location version value)) }
    requires own { HasOwn table.now seat.old (at_place (at actor.old (Stage.Loading call left)) (Again location version value)) [] }
    requires small { AreSmall (blocks_in table.now) }
    ensures { HasLed table.now seat.old seat.new actor.new result [] }
{
    steps_as_worlds::<V>();
    seats_as_actors::<V>();
    loads_as_worlds::<V>();
    loads_keep_running::<V>();
    loads_stay_own::<V>();
    copies_by_stage::<V>();
    let found = table.load_lock(seat, location);
    actor.words.place = Place::Again(location, version, value);
    match actor.words.again(location, version, value, found) {
        Ok(told) => {
            let _ = told;
            actor.on_found(call, left, value)
        }
        Err(cause) => {
            actor.stage = Stage::Loading(call, left);
            actor.on_load_step(Err(cause))
        }
    }
}

/// The load of the value, and the step after it.
#[inline(always)]
fn fetch_key<V: Value>(
    table: &TxTable<V>,
    seat: &mut Seat<V>,
    actor: &mut TxActor<V>,
    call: Boxed<CallWithOutcome<V>>,
    left: VecDeque<(u32, u64)>,
    location: u32,
    version: u64,
) -> ActorNotice<V>
    requires ties { Ties table.now seat.old (at_place (at actor.old (Stage.Loading call left)) (Fetch location version)) }
    requires own { HasOwn table.now seat.old (at_place (at actor.old (Stage.Loading call left)) (Fetch location version)) [] }
    requires small { AreSmall (blocks_in table.now) }
    ensures { HasLed table.now seat.old seat.new actor.new result [] }
{
    steps_as_worlds::<V>();
    seats_as_actors::<V>();
    loads_as_worlds::<V>();
    loads_keep_running::<V>();
    loads_stay_own::<V>();
    copies_by_stage::<V>();
    let value = table.load_value(seat, location);
    again_key(table, seat, actor, call, left, location, version, value)
}

/// The first load of the lock word, and, where it is free and no newer than the transaction, the steps after it. Else the transaction is
/// being aborted.
#[inline(always)]
fn look_key<V: Value>(
    table: &TxTable<V>,
    seat: &mut Seat<V>,
    actor: &mut TxActor<V>,
    call: Boxed<CallWithOutcome<V>>,
    left: VecDeque<(u32, u64)>,
    location: u32,
) -> ActorNotice<V>
    requires ties { Ties table.now seat.old (at_place (at actor.old (Stage.Loading call left)) (Look location)) }
    requires own { HasOwn table.now seat.old (at_place (at actor.old (Stage.Loading call left)) (Look location)) [] }
    requires small { AreSmall (blocks_in table.now) }
    ensures { HasLed table.now seat.old seat.new actor.new result [] }
{
    steps_as_worlds::<V>();
    seats_as_actors::<V>();
    loads_as_worlds::<V>();
    loads_keep_running::<V>();
    loads_stay_own::<V>();
    copies_by_stage::<V>();
    let found = table.load_lock(seat, location);
    if let LockWord::Free(version) = LockWord::read(found) {
        if version <= actor.words.rv {
            return fetch_key(table, seat, actor, call, left, location, version);
        }
    }
    actor.words.place = Place::Look(location);
    actor.stage = Stage::Loading(call, left);
    let told = actor.words.look(location, found);
    actor.on_load_step(told)
}

/// The gate of a call whose key was taken has been put back: the call is made ready, and continues.
#[inline(always)]
fn go_key<V: Value>(
    alloc: Global,
    table: &TxTable<V>,
    seat: &mut Seat<V>,
    actor: &mut TxActor<V>,
    taken: KeyedCall<V>,
) -> Result<ActorNotice<V>, Memory>
    requires put { HasPut table.now seat.old actor.old taken }
    requires small { AreSmall (blocks_in table.now) }
    ensures led { IfOk result (λ told. (h : HasPut table.now seat.old actor.old taken) →
        HasDriven table.now h.seat seat.new actor.new told []) }
    ensures stopped { OnErr result ((h : HasPut table.now seat.old actor.old taken) →
        HasStopped table.now h.seat seat.new actor.new []) }
{
    steps_as_worlds::<V>();
    excerpts_as_worlds::<V>();
    copies_go_on::<V>();
    sizes_copies::<V>();
    copies_stay::<V>();
    copies_by_stage::<V>();
    copies_stay_own::<V>();
    taken_parts_are_own::<V>();
    let mut said = ActorNotice::Quiet;
    match actor.continue_keyed(alloc, table.blocks(), taken, &mut said) {
        Ok(Some(waiting)) => {
            let WaitingCall {
                call,
                left,
                location,
            } = waiting;
            Ok(look_key(table, seat, actor, call, left, location))
        }
        Ok(None) => Ok(said),
        Err(_) => {
            refuse(seat);
            Err(Memory)
        }
    }
}

/// The gate of the call is held, with this base. Of a call on a key that is to read its location what it touches is taken, and the gate is
/// put back. Any other call is the actor's again.
#[inline(always)]
fn take_key<V: Value>(
    alloc: Global,
    table: &TxTable<V>,
    seat: &mut Seat<V>,
    actor: &mut TxActor<V>,
    bases: &mut Vec<Boxed<Base<V>>>,
    asked: CallInHand<V>,
    base: Boxed<Base<V>>,
) -> Result<ActorNotice<V>, Memory>
    requires ties { Ties table.now seat.old (at actor.old (Stage.Copying asked)) }
    requires own { HasOwn table.now seat.old (at actor.old (Stage.Copying asked)) (base ∷ []) }
    requires small { AreSmall (blocks_in table.now) }
    requires idle { actor.old.stage ≡ Stage.Idle }
    requires none { bases.old.items ≡ [] }
    requires room { vec_len bases.old < vec_capacity bases.old }
    ensures led { IfOk result (λ told. HasDriven table.now seat.old seat.new actor.new told bases.new.items) }
    ensures stopped { OnErr result (HasStopped table.now seat.old seat.new actor.new bases.new.items) }
{
    steps_as_worlds::<V>();
    excerpts_as_worlds::<V>();
    copies_go_on::<V>();
    sizes_copies::<V>();
    copies_stay::<V>();
    copies_by_stage::<V>();
    copies_stay_own::<V>();
    events_keep_copies::<V>();
    let k = asked.get().collection;
    let shown = base.get();
    match actor.takes_call(alloc, table.blocks(), shown, asked) {
        Ok(Some(taken)) => {
            table.put_gate(seat, k, base);
            go_key(alloc, table, seat, actor, taken)
        }
        Ok(None) => {
            bases.push_reserved(base);
            Ok(ActorNotice::Quiet)
        }
        Err(_) => {
            bases.push_reserved(base);
            refuse(seat);
            Err(Memory)
        }
    }
}

/// The first try on the gate of a call. Where it is taken the call is the actor's again.
#[inline(always)]
fn gate_key<V: Value>(
    alloc: Global,
    table: &TxTable<V>,
    seat: &mut Seat<V>,
    actor: &mut TxActor<V>,
    bases: &mut Vec<Boxed<Base<V>>>,
    asked: CallInHand<V>,
    tries: u32,
) -> Result<ActorNotice<V>, Memory>
    requires ties { Ties table.now seat.old (at actor.old (Stage.Trying asked tries)) }
    requires own { HasOwn table.now seat.old (at actor.old (Stage.Trying asked tries)) [] }
    requires small { AreSmall (blocks_in table.now) }
    requires idle { actor.old.stage ≡ Stage.Idle }
    requires none { bases.old.items ≡ [] }
    requires room { vec_len bases.old < vec_capacity bases.old }
    ensures led { IfOk result (λ told. HasDriven table.now seat.old seat.new actor.new told bases.new.items) }
    ensures stopped { OnErr result (HasStopped table.now seat.old seat.new actor.new bases.new.items) }
{
    steps_as_worlds::<V>();
    events_keep_copies::<V>();
    copies_by_stage::<V>();
    free_gates_are_held::<V>();
    let k = asked.get().collection;
    match table.take_gate(seat, k) {
        Some(base) => take_key(alloc, table, seat, actor, bases, asked, base),
        None => {
            actor.stage = Stage::Trying(asked, tries);
            wait(table, &actor.stage, k);
            Ok(actor.on_gate_tried(false))
        }
    }
}

/// The turns of a call whose gate is to be tried, as far as they find nothing else: what the last one answered. Where an allocation fails
/// they stop.
#[inline(always)]
pub(crate) fn key_on<V: Value>(
    alloc: Global,
    table: &TxTable<V>,
    seat: &mut Seat<V>,
    actor: &mut TxActor<V>,
    bases: &mut Vec<Boxed<Base<V>>>,
    asked: CallInHand<V>,
    tries: u32,
) -> Result<ActorNotice<V>, Memory>
    requires ties { Ties table.now seat.old (at actor.old (Stage.Trying asked tries)) }
    requires own { HasOwn table.now seat.old (at actor.old (Stage.Trying asked tries)) [] }
    requires small { AreSmall (blocks_in table.now) }
    requires idle { actor.old.stage ≡ Stage.Idle }
    requires none { bases.old.items ≡ [] }
    ensures led { IfOk result (λ told. HasDriven table.now seat.old seat.new actor.new told bases.new.items) }
    ensures stopped { OnErr result (HasStopped table.now seat.old seat.new actor.new bases.new.items) }
{
    events_keep_copies::<V>();
    copies_by_stage::<V>();
    match bases.reserve(1) {
        Ok(()) => gate_key(alloc, table, seat, actor, bases, asked, tries),
        Err(_) => {
            actor.stage = Stage::Trying(asked, tries);
            let _ = starve(table, seat, actor);
            Err(Memory)
        }
    }
}

/// A call whose gate is to be tried.
#[inline(always)]
fn key_through<V: Value>(
    alloc: Global,
    table: &TxTable<V>,
    seat: &mut Seat<V>,
    actor: &mut TxActor<V>,
    bases: &mut Vec<Boxed<Base<V>>>,
    asked: CallInHand<V>,
    tries: u32,
) -> (ActorNotice<V>, Option<Record<V>>)
    requires ties { Ties table.now seat.old (at actor.old (Stage.Trying asked tries)) }
    requires own { HasOwn table.now seat.old (at actor.old (Stage.Trying asked tries)) [] }
    requires small { AreSmall (blocks_in table.now) }
    requires idle { actor.old.stage ≡ Stage.Idle }
    requires none { bases.old.items ≡ [] }
    requires under { IsUnderWay (seat_in (opening_of table.now) seat.old) (seat_in (opening_of table.now) seat.old) None }
    ensures driven { Driven (opening_of table.now) seat.old seat.new result.0 result.1 }
    ensures answered { result.0 ≢ ActorNotice.Quiet }
    ensures ties { Ties table.now seat.new actor.new }
    ensures own { HasOwn table.now seat.new actor.new [] }
{
    match key_on(alloc, table, seat, actor, bases, asked, tries) {
        Ok(told) => finish_told(alloc, table, seat, actor, bases, told),
        Err(_) => (give_up(alloc, table, seat, actor, bases), None),
    }
}

/// A call that is no try on a gate: a word is read by straight code.
#[inline(always)]
fn word_through<V: Value>(
    alloc: Global,
    table: &TxTable<V>,
    seat: &mut Seat<V>,
    actor: &mut TxActor<V>,
    bases: &mut Vec<Boxed<Base<V>>>,
) -> (ActorNotice<V>, Option<Record<V>>)
    requires ties { Ties table.now seat.old actor.old }
    requires own { HasOwn table.now seat.old actor.old bases.old.items }
    requires small { AreSmall (blocks_in table.now) }
    requires under { IsUnderWay (seat_in (opening_of table.now) seat.old) (seat_in (opening_of table.now) seat.old) None }
    ensures driven { Driven (opening_of table.now) seat.old seat.new result.0 result.1 }
    ensures answered { result.0 ≢ ActorNotice.Quiet }
    ensures ties { Ties table.now seat.new actor.new }
    ensures own { HasOwn table.now seat.new actor.new [] }
{
    let mut said = ActorNotice::Quiet;
    let quiet = word_read_on(table, seat, actor, bases.as_slice(), &mut said);
    finish_after(alloc, table, seat, actor, bases, quiet, said, None)
}

/// Like [`crate::drive`], of a call: a word is read by straight code, and a call whose gate is free goes by it up to its answer.
#[inline(always)]
pub fn drive_call<V: Value>(
    alloc: Global,
    table: &TxTable<V>,
    seat: &mut Seat<V>,
    actor: &mut TxActor<V>,
    bases: &mut Vec<Boxed<Base<V>>>,
) -> (ActorNotice<V>, Option<Record<V>>)
    requires ties { Ties table.now seat.old actor.old }
    requires own { HasOwn table.now seat.old actor.old [] }
    requires small { AreSmall (blocks_in table.now) }
    requires under { IsUnderWay (seat_in (opening_of table.now) seat.old) (seat_in (opening_of table.now) seat.old) None }
    ensures driven { Driven (opening_of table.now) seat.old seat.new result.0 result.1 }
    ensures answered { result.0 ≢ ActorNotice.Quiet }
    ensures ties { Ties table.now seat.new actor.new }
    ensures own { HasOwn table.now seat.new actor.new [] }
{
    bases.clear();
    match call_to_try(actor) {
        Some((asked, tries)) => key_through(alloc, table, seat, actor, bases, asked, tries),
        None => word_through(alloc, table, seat, actor, bases),
    }
}
