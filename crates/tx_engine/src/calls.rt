//! The calls of a transaction, on words and on collections.
ghost use Rattle.std.specs.Prelude.{◌≡◌, [], ◌∷◌, ◌++◌, IfErr, IfOk, None, OnErr, OnOk, true};
ghost use Rattle.replay_log.specs.WorldAnswers.{IsAdmitted};
ghost use Rattle.shared_table.specs.Seated.{actor as actor_of, acts, opening_of};
ghost use Rattle.actor_laws.specs.KnownStages.{Rests};
ghost use Rattle.tx_turns.specs.RequestStep.{Answers, HasAsked};
ghost use Rattle.tx_turns.specs.Begins.{begins_of};
ghost use Rattle.tx_turns.specs.Driven.{is_declared, standing};
ghost use Rattle.tx_turns.specs.RequestHistory.{requests_of};
ghost use Rattle.tx_engine.specs.Ready.{CanDrive, HasBegunSince, HasCalled, IsReady};
ghost use Rattle.tx_engine.specs.Requests.{CallsTo, HasAborted, HasAskedFor, IsCallTold, IsCalling, IsDriven, IsOpen, KeepsReceipts};
ghost use Rattle.tx_engine.specs.Requests.{IsLastAborted, told_of};

use crate::requests::abort;
use crate::seats::TxSeat;
use actor_parts::Boxed;
use replay_log::Base;
use seq_model::{Answer, Call, Refusal, Reply, Request, Value};
use shared_table::{Seat, TxTable};
use std::alloc::Global;
use tx_actor::{ActorNotice, TxActor};
use tx_turns::{ask, drive_call};

/// The result of a call that is answered so.
fn reply_told<V: Value>(told: ActorNotice<V>) -> Result<Reply<V>, Refusal>
    requires { IsCallTold told }
    ensures { told ≡ told_of result }
{
    match told {
        ActorNotice::Answered(Answer::Replied(reply)) => Ok(reply),
        ActorNotice::Refused(cause) => Err(cause),
        _ => unreachable!(),
    }
}

/// The turns of a call that is under way.
fn driven_call<V: Value>(
    alloc: Global,
    table: &TxTable<V>,
    seat: &mut Seat<V>,
    actor: &mut TxActor<V>,
    bases: &mut Vec<Boxed<Base<V>>>,
) -> Result<Reply<V>, Refusal>
    requires drives { CanDrive table.now seat.old actor.old }
    requires calls { IsCalling (opening_of table.now) seat.old }
    ensures drives { CanDrive table.now seat.new actor.new }
    ensures driven { IsDriven (opening_of table.now) seat.old seat.new (told_of result) }
{
    let (told, _) = drive_call(alloc, table, seat, actor, bases);
    reply_told(told)
}

/// A request of an open transaction. Where an allocation fails, the transaction is aborted, and that is answered.
#[inline(always)]
pub(crate) fn ask_open<V: Value>(
    alloc: Global,
    table: &TxTable<V>,
    seat: &mut Seat<V>,
    actor: &mut TxActor<V>,
    bases: &mut Vec<Boxed<Base<V>>>,
    request: Request<V>,
) -> Result<ActorNotice<V>, Refusal>
    requires drives { CanDrive table.now seat.old actor.old }
    requires open { IsOpen (opening_of table.now) seat.old }
    ensures drives { CanDrive table.now seat.new actor.new }
    ensures asked { OnOk result (HasAsked seat.old request seat.new) }
    ensures answers { IfOk result (Answers (opening_of table.now) seat.old request) }
    ensures memory { IfErr result (λ cause. cause ≡ Refusal.Memory) }
    ensures admits { OnErr result (IsAdmitted (acts (opening_of table.now) seat.old) (actor_of seat.old) request) }
    ensures keeps { OnErr result (KeepsReceipts seat.old seat.new) }
    ensures rests { OnErr result (standing (opening_of table.now) seat.new ≡ Rests) }
    ensures aborted { OnErr result (HasAborted (opening_of table.now) seat.old seat.new) }
    ensures noted { OnErr result (IsLastAborted (opening_of table.now) seat.old seat.new None) }
    ensures reader { OnErr result (is_declared (opening_of table.now) seat.old ≡ true
        → is_declared (opening_of table.now) seat.new ≡ true) }
    ensures begins { OnErr result (begins_of seat.new ≡ begins_of seat.old) }
    ensures asks { OnErr result (requests_of seat.new ≡ requests_of seat.old ++ Request.Abort ∷ []) }
{
    let none = Vec::new(alloc);
    match ask(alloc, table, seat, actor, none.as_slice(), request) {
        Ok(told) => Ok(told),
        Err(_) => {
            abort(alloc, table, seat, actor, bases);
            Err(Refusal::Memory)
        }
    }
}

/// A call on a word or on a collection, with its reply, like [`crate::Tx::call`] of an open transaction.
pub(crate) fn call<V: Value>(
    alloc: Global,
    table: &TxTable<V>,
    seat: &mut Seat<V>,
    actor: &mut TxActor<V>,
    bases: &mut Vec<Boxed<Base<V>>>,
    call: Call<V>,
) -> Result<Reply<V>, Refusal>
    requires drives { CanDrive table.now seat.old actor.old }
    requires open { IsOpen (opening_of table.now) seat.old }
    ensures drives { CanDrive table.now seat.new actor.new }
    ensures calls { CallsTo (opening_of table.now) seat.old call seat.new result }
    ensures begins { begins_of seat.new ≡ begins_of seat.old }
    ensures asks { HasAskedFor seat.old (Request.Call call) result seat.new }
{
    match ask_open(alloc, table, seat, actor, bases, Request::Call(call)) {
        Ok(ActorNotice::Quiet) => driven_call(alloc, table, seat, actor, bases),
        Ok(told) => reply_told(told),
        Err(cause) => Err(cause),
    }
}

impl<V: Value> TxSeat<V> {
    /// A call, like [`crate::Tx::call`].
    pub(crate) fn call(&mut self, table: &TxTable<V>, call: Call<V>) -> Result<Reply<V>, Refusal>
        requires ready { IsReady table.now self.old }
        requires since { HasBegunSince table.now self.old }
        ensures called { HasCalled table.now self.old self.new call result }
    {
        if !self.is_open() {
            return Err(Refusal::NoTransaction);
        }
        crate::calls::call(
            self.alloc,
            table,
            &mut self.seat,
            &mut self.actor,
            &mut self.bases,
            call,
        )
    }
}
