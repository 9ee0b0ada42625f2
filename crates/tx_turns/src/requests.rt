//! What the actor of a seat is asked, of words and of collections.
ghost use Rattle.std.specs.Prelude.{◌≡◌, IfOk, OnErr, OnOk};
ghost use Rattle.seq_model.specs.declared.event.Event.TheVariants.{Ask};
ghost use Rattle.seq_model.specs.declared.event.Request.{Request as Asked};
ghost use Rattle.replay_log.specs.WorldAnswers.{IsAdmitted};
ghost use Rattle.shared_table.specs.Seated.{actor as actor_of, acts, opening_of};
ghost use Rattle.tx_turns.specs.RequestStep.{Answers, HasAsked};
ghost use Rattle.tx_turns.specs.Ties.{Ties};
ghost use Rattle.tx_turns.specs.Own.{HasOwn};

use actor_parts::copy_laws::calls_as_worlds;
use actor_parts::{Boxed, copies_stay};
use replay_log::Base;
use seq_model::{Event, Memory, Request, Value};
use shared_table::{Seat, TxTable};
use std::alloc::Global;
use std::snapshot::Snapshot;
use tx_actor::laws::{copies_by_stage, copies_stay_own};
use tx_actor::turn_laws::events_keep_copies;
use tx_actor::{ActorNotice, TxActor};

/// A request, which the seat keeps until its next step takes it in. What is answered at once is answered as the definitions say:
/// `NotIdle` where another is under way, or for a begin within a transaction, and `NoTransaction` for a call or an end without one. A call
/// on a collection is `NoSuch` where there is no such collection, or it is of another kind, and for a change in a declared reader, then
/// `TooLong` past the limit of calls; what the transaction has of the collection answers it, or a location is read first, or the
/// transaction is aborted, as its copy is stale; and where it has not what the call touches, the collection's gate is tried next. Where
/// an allocation fails nothing is asked, and the actor shows what it did; that comes only where neither the state of the transaction, nor
/// `NoSuch`, nor the limit of calls refuses the request, nor a set with no room for a word.
#[inline(always)]
pub fn ask<V: Value>(
    alloc: Global,
    table: &TxTable<V>,
    seat: &mut Seat<V>,
    actor: &mut TxActor<V>,
    bases: &[Boxed<Base<V>>],
    request: Request<V>,
) -> Result<ActorNotice<V>, Memory>
    requires ties { Ties table.now seat.old actor.old }
    requires own { HasOwn table.now seat.old actor.old bases.now }
    ensures asked { OnOk result (HasAsked seat.old request seat.new) }
    ensures answers { IfOk result (Answers (opening_of table.now) seat.old request) }
    ensures admits { OnErr result (IsAdmitted (acts (opening_of table.now) seat.old) (actor_of seat.old) request) }
    ensures seat { OnErr result (seat.new ≡ seat.old) }
    ensures ties { Ties table.now seat.new actor.new }
    ensures own { HasOwn table.now seat.new actor.new bases.now }
{
    copies_by_stage::<V>();
    copies_stay::<V>();
    copies_stay_own::<V>();
    calls_as_worlds::<V>();
    events_keep_copies::<V>();
    let _ = bases;
    let event = Event::Ask(0, request);
    let asked = Snapshot::of(&event);
    let told = actor.request(alloc, table.blocks(), request_of(event))?;
    seat.ask_this(asked);
    Ok(told)
}

// The request of an event.
fn request_of<V: Value>(event: Event<V>) -> Request<V>
    requires { (q : Asked V) × (event ≡ Ask 0 q) }
    ensures { event ≡ Ask 0 result }
{
    match event {
        Event::Ask(_, request) => request,
        _ => unreachable!(),
    }
}
