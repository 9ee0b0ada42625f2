//! Turns on the gates.
ghost use Rattle.std.specs.Prelude.{◌≡◌, ◌<◌, ◌∷◌, IfOk, OnErr, OnOk, length, slice_index_or};
ghost use Rattle.seq_model.specs.declared.event.Event.TheVariants.{Starve};
ghost use Rattle.actor_parts.specs.Dispatch.{next_of};
ghost use Rattle.tx_actor.specs.Running.{stage_of};
ghost use Rattle.tx_actor.specs.declared.actor.ActorNotice.TheVariants as told;
ghost use Rattle.shared_table.specs.Seated.{blocks_in, opening_of};
ghost use Rattle.tx_turns.specs.RequestStep.{HasTaken, Starved};
ghost use Rattle.tx_turns.specs.Ties.{Ties, Turned};
ghost use Rattle.tx_turns.specs.Own.{HasOwn};
ghost use Rattle.tx_turns.specs.Refused.{IsGivenUp};

use actor_parts::word_laws::steps_as_worlds;
use actor_parts::{Boxed, Next, copies_go_on, copies_stay, excerpts_as_worlds, sizes_copies};
use replay_log::Base;
use seq_model::{Event, Memory, Value};
use shared_table::{Seat, TxTable};
use std::alloc::Global;
use std::hint::spin_loop;
use std::thread::yield_now;
use tx_actor::laws::{copies_by_stage, copies_stay_own, taken_parts_are_own};
use tx_actor::turn_laws::events_keep_copies;
use tx_actor::{ActorNotice, Stage, TxActor};

/// The first base in hand.
fn front<V: Value>(bases: &Vec<Boxed<Base<V>>>) -> &Base<V>
    requires { 0 < length bases.now.items }
    ensures { result.now ≡ slice_index_or bases.now.items 0 result.now }
{
    bases[0].get()
}

/// The first base in hand, which is taken out of it.
pub(crate) fn first<V: Value>(bases: &mut Vec<Boxed<Base<V>>>) -> Boxed<Base<V>>
    requires { 0 < length bases.old.items }
    ensures { bases.old.items ≡ result ∷ bases.new.items }
{
    bases.remove(0)
}

/// An allocation fails for the request of a seat.
pub(crate) fn refuse<V: Value>(seat: &mut Seat<V>)
    ensures { HasTaken seat.old (Starve 0) seat.new }
{
    seat.ask(&Event::Starve(0));
}

/// How many tries on the gate are left after this one.
fn tries_left<V>(stage: &Stage<V>) -> u32 {
    if let Stage::Trying(_, left) = stage {
        return *left;
    }
    if let Stage::Gating(_, _, left) = stage {
        return *left;
    }
    0
}

/// How a try waits that found its gate taken: it loads the gate's word, which leaves its line of the cache with the one that holds it,
/// until the gate seems free. That one is done within microseconds where it has a core, so after each of the first 16 tries there are more
/// loads than after the one before. After a later try the thread yields before each load, and there are again more of them from try to try.
#[inline(never)]
pub(crate) fn wait<V: Value>(table: &TxTable<V>, stage: &Stage<V>, k: u32)
    requires { k < length (blocks_in table.now) }
{
    let left = tries_left(stage);
    if left < 48 {
        for _ in left..49 {
            yield_now();
            if !table.is_gate_taken(k) {
                return;
            }
        }
        return;
    }
    for _ in left..65 {
        for _ in 0..8 {
            spin_loop();
            if !table.is_gate_taken(k) {
                return;
            }
        }
    }
}

/// A try on the gate of a collection. Where it was free its base comes into hand; where it was taken the try waits, and from the 17th on
/// the thread yields, as the one that holds it may wait for a core, and at the 64th time the transaction is aborted, `GateBusy`. Where
/// an allocation fails no step is taken, and the actor is as it was.
#[inline(always)]
pub fn try_gate<V: Value>(
    table: &TxTable<V>,
    seat: &mut Seat<V>,
    actor: &mut TxActor<V>,
    bases: &mut Vec<Boxed<Base<V>>>,
    k: u32,
) -> Result<ActorNotice<V>, Memory>
    requires ties { Ties table.now seat.old actor.old }
    requires own { HasOwn table.now seat.old actor.old bases.old.items }
    requires due { next_of (stage_of actor.old.stage) ≡ Next.TryGate k }
    ensures turned { IfOk result (Turned (opening_of table.now) seat.old actor.old seat.new) }
    ensures ties { Ties table.now seat.new actor.new }
    ensures own { HasOwn table.now seat.new actor.new bases.new.items }
    ensures seat { OnErr result (seat.new ≡ seat.old) }
    ensures rest { OnErr result ((actor.new ≡ actor.old) × (bases.new.items ≡ bases.old.items)) }
{
    steps_as_worlds::<V>();
    events_keep_copies::<V>();
    copies_by_stage::<V>();
    let Ok(()) = bases.reserve(1) else {
        return Err(Memory);
    };
    match table.take_gate(seat, k) {
        Some(base) => {
            bases.push_reserved(base);
            Ok(actor.on_gate_tried(true))
        }
        None => {
            wait(table, &actor.stage, k);
            Ok(actor.on_gate_tried(false))
        }
    }
}

/// The store that puts a gate back which the actor holds, its base as it was.
#[inline(always)]
pub fn put_gate<V: Value>(
    table: &TxTable<V>,
    seat: &mut Seat<V>,
    actor: &mut TxActor<V>,
    bases: &mut Vec<Boxed<Base<V>>>,
    k: u32,
) -> ActorNotice<V>
    requires ties { Ties table.now seat.old actor.old }
    requires own { HasOwn table.now seat.old actor.old bases.old.items }
    requires due { next_of (stage_of actor.old.stage) ≡ Next.PutGate k }
    ensures turned { Turned (opening_of table.now) seat.old actor.old seat.new result }
    ensures ties { Ties table.now seat.new actor.new }
    ensures own { HasOwn table.now seat.new actor.new bases.new.items }
{
    steps_as_worlds::<V>();
    events_keep_copies::<V>();
    copies_by_stage::<V>();
    let base = first(bases);
    table.put_gate(seat, k, base);
    actor.on_gate_put()
}

/// Like [`copy_base`], of a call for which all is made ready before the gate is put back: where there is no memory for it no step is taken.
#[inline(never)]
fn copy_here<V: Value>(
    alloc: Global,
    table: &TxTable<V>,
    seat: &mut Seat<V>,
    actor: &mut TxActor<V>,
    bases: &mut Vec<Boxed<Base<V>>>,
    k: u32,
) -> Result<ActorNotice<V>, Memory>
    requires ties { Ties table.now seat.old actor.old }
    requires own { HasOwn table.now seat.old actor.old bases.old.items }
    requires due { next_of (stage_of actor.old.stage) ≡ Next.Copy k }
    ensures turned { IfOk result (Turned (opening_of table.now) seat.old actor.old seat.new) }
    ensures ties { Ties table.now seat.new actor.new }
    ensures own { HasOwn table.now seat.new actor.new bases.new.items }
    ensures starved { OnErr result (Starved (opening_of table.now) seat.old seat.new told.Quiet) }
{
    steps_as_worlds::<V>();
    excerpts_as_worlds::<V>();
    copies_go_on::<V>();
    sizes_copies::<V>();
    copies_stay::<V>();
    copies_by_stage::<V>();
    copies_stay_own::<V>();
    taken_parts_are_own::<V>();
    events_keep_copies::<V>();
    match actor.copy_at_gate(alloc, table.blocks(), front(bases)) {
        Ok(told) => {
            let base = first(bases);
            table.put_gate(seat, k, base);
            Ok(told)
        }
        Err(_) => {
            refuse(seat);
            Err(Memory)
        }
    }
}

/// What the call of an actor touches of its collection's base is copied, and the gate is put back with the base as it was. `TooLong` where
/// its locations don't fit the sets, else it is accepted, or a location is read first, or the transaction is aborted, as the copy is
/// stale. Of a call on a key whose location is to be read first, the gate is put back before the call is made ready. Where there is no
/// memory for it the transaction is aborted as one that starves: it holds its gate and no step is taken, or the gate was put back and it
/// waits for a location.
#[inline(always)]
pub fn copy_base<V: Value>(
    alloc: Global,
    table: &TxTable<V>,
    seat: &mut Seat<V>,
    actor: &mut TxActor<V>,
    bases: &mut Vec<Boxed<Base<V>>>,
    k: u32,
) -> Result<ActorNotice<V>, Memory>
    requires ties { Ties table.now seat.old actor.old }
    requires own { HasOwn table.now seat.old actor.old bases.old.items }
    requires due { next_of (stage_of actor.old.stage) ≡ Next.Copy k }
    ensures turned { IfOk result (Turned (opening_of table.now) seat.old actor.old seat.new) }
    ensures ties { Ties table.now seat.new actor.new }
    ensures own { HasOwn table.now seat.new actor.new bases.new.items }
    ensures starved { OnErr result (IsGivenUp (opening_of table.now) seat.old actor.old seat.new told.Quiet) }
{
    steps_as_worlds::<V>();
    excerpts_as_worlds::<V>();
    copies_go_on::<V>();
    sizes_copies::<V>();
    copies_stay::<V>();
    copies_by_stage::<V>();
    copies_stay_own::<V>();
    taken_parts_are_own::<V>();
    events_keep_copies::<V>();
    let blocks = table.blocks();
    match actor.takes(alloc, blocks, front(bases)) {
        Ok(Some(taken)) => {
            let base = first(bases);
            table.put_gate(seat, k, base);
            match actor.continue_or_wait(alloc, blocks, taken) {
                Ok(told) => Ok(told),
                Err(_) => {
                    refuse(seat);
                    Err(Memory)
                }
            }
        }
        Ok(None) => {
            let told = copy_here(alloc, table, seat, actor, bases, k)?;
            Ok(told)
        }
        Err(_) => {
            refuse(seat);
            Err(Memory)
        }
    }
}
