//! Requests of a transaction: one that begins, and one that ends without a commit.
ghost use Rattle.std.specs.Prelude.{◌≡◌, ◌+◌, [], ◌∷◌, ◌++◌, IfErr, IfOk, None, false, true};
ghost use Rattle.shared_table.specs.Seated.{opening_of};
ghost use Rattle.actor_laws.specs.KnownStages.{Rests};
ghost use Rattle.tx_turns.specs.Begins.{begins_of};
ghost use Rattle.tx_turns.specs.Driven.{is_declared, standing};
ghost use Rattle.tx_turns.specs.RequestHistory.{requests_of};
ghost use Rattle.tx_engine.specs.Ready.{CanDrive};
ghost use Rattle.tx_engine.specs.Requests.{HasAborted, IsBeginTold, IsBegun, IsLastAborted, IsNotBegun, IsOpen, KeepsReceipts};
ghost use Rattle.tx_engine.specs.Requests.{HasSameAborted, begin_of};

use actor_parts::Boxed;
use replay_log::Base;
use seq_model::{Answer, Refusal, Request, Value};
use shared_table::{Seat, TxTable};
use std::alloc::Global;
use tx_actor::{ActorNotice, Stage, TxActor};
use tx_turns::{ask_abort, ask_begin, ask_begin_read, drive, drive_begin};

/// The result of a begin that is answered so.
fn begin_told<V: Value>(told: ActorNotice<V>) -> Result<u64, Refusal>
    requires { IsBeginTold told }
    ensures { told ≡ begin_of result }
{
    match told {
        ActorNotice::Answered(Answer::Begun(rv)) => Ok(rv),
        ActorNotice::Refused(cause) => Err(cause),
        _ => unreachable!(),
    }
}

/// The one turn of a transaction that is to begin.
fn begun<V: Value>(
    alloc: Global,
    table: &TxTable<V>,
    seat: &mut Seat<V>,
    actor: &mut TxActor<V>,
    bases: &mut Vec<Boxed<Base<V>>>,
) -> Result<u64, Refusal>
    requires drives { CanDrive table.now seat.old actor.old }
    requires stage { actor.old.stage ≡ Stage.Beginning }
    ensures drives { CanDrive table.now seat.new actor.new }
    ensures keeps { KeepsReceipts seat.old seat.new }
    ensures begun { IfOk result (IsBegun (is_declared (opening_of table.now) seat.old) (opening_of table.now) seat.old seat.new) }
    ensures refused { IfErr result (IsNotBegun (opening_of table.now) seat.old seat.new) }
    ensures same { HasSameAborted (opening_of table.now) seat.old seat.new }
    ensures reader { is_declared (opening_of table.now) seat.old ≡ true → is_declared (opening_of table.now) seat.new ≡ true }
    ensures begins { begins_of seat.new ≡ begins_of seat.old }
    ensures asks { requests_of seat.new ≡ requests_of seat.old }
{
    let (told, _) = drive_begin(alloc, table, seat, actor, bases);
    begin_told(told)
}

/// A transaction begins, and is answered with the number at which it has begun. `Exhausted` at the limit of the clock, and none is open
/// then. `bases` lends its room to the bases that a request takes on its way, here and below: it holds none in the end.
pub(crate) fn begin<V: Value>(
    alloc: Global,
    table: &TxTable<V>,
    seat: &mut Seat<V>,
    actor: &mut TxActor<V>,
    bases: &mut Vec<Boxed<Base<V>>>,
) -> Result<u64, Refusal>
    requires drives { CanDrive table.now seat.old actor.old }
    requires rests { standing (opening_of table.now) seat.old ≡ Rests }
    ensures drives { CanDrive table.now seat.new actor.new }
    ensures keeps { KeepsReceipts seat.old seat.new }
    ensures begun { IfOk result (IsBegun false (opening_of table.now) seat.old seat.new) }
    ensures refused { IfErr result (IsNotBegun (opening_of table.now) seat.old seat.new) }
    ensures same { HasSameAborted (opening_of table.now) seat.old seat.new }
    ensures begins { begins_of seat.new ≡ begins_of seat.old + 1 }
    ensures asks { requests_of seat.new ≡ requests_of seat.old ++ Request.Begin ∷ [] }
{
    ask_begin(table, seat, actor);
    begun(alloc, table, seat, actor, bases)
}

/// A transaction begins that writes nothing. It keeps no read set, so that its reads are as many as its calls may be. `Exhausted` at the
/// limit of the clock, and none is open then.
pub(crate) fn begin_read<V: Value>(
    alloc: Global,
    table: &TxTable<V>,
    seat: &mut Seat<V>,
    actor: &mut TxActor<V>,
    bases: &mut Vec<Boxed<Base<V>>>,
) -> Result<u64, Refusal>
    requires drives { CanDrive table.now seat.old actor.old }
    requires rests { standing (opening_of table.now) seat.old ≡ Rests }
    ensures drives { CanDrive table.now seat.new actor.new }
    ensures keeps { KeepsReceipts seat.old seat.new }
    ensures begun { IfOk result (IsBegun true (opening_of table.now) seat.old seat.new) }
    ensures refused { IfErr result (IsNotBegun (opening_of table.now) seat.old seat.new) }
    ensures same { HasSameAborted (opening_of table.now) seat.old seat.new }
    ensures reader { is_declared (opening_of table.now) seat.new ≡ true }
    ensures begins { begins_of seat.new ≡ begins_of seat.old + 1 }
    ensures asks { requests_of seat.new ≡ requests_of seat.old ++ Request.BeginRead ∷ [] }
{
    ask_begin_read(table, seat, actor);
    begun(alloc, table, seat, actor, bases)
}

/// An open transaction ends without a commit. Nothing refuses it, and it takes no memory.
#[inline(never)]
pub(crate) fn abort<V: Value>(
    alloc: Global,
    table: &TxTable<V>,
    seat: &mut Seat<V>,
    actor: &mut TxActor<V>,
    bases: &mut Vec<Boxed<Base<V>>>,
)
    requires drives { CanDrive table.now seat.old actor.old }
    requires open { IsOpen (opening_of table.now) seat.old }
    ensures drives { CanDrive table.now seat.new actor.new }
    ensures keeps { KeepsReceipts seat.old seat.new }
    ensures rests { standing (opening_of table.now) seat.new ≡ Rests }
    ensures aborted { HasAborted (opening_of table.now) seat.old seat.new }
    ensures noted { IsLastAborted (opening_of table.now) seat.old seat.new None }
    ensures reader { is_declared (opening_of table.now) seat.old ≡ true → is_declared (opening_of table.now) seat.new ≡ true }
    ensures begins { begins_of seat.new ≡ begins_of seat.old }
    ensures asks { requests_of seat.new ≡ requests_of seat.old ++ Request.Abort ∷ [] }
{
    ask_abort(table, seat, actor);
    let _ = drive(alloc, table, seat, actor, bases);
}
