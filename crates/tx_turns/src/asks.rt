//! What the actor of a seat is asked. The seat keeps it until its next step takes it in.
ghost use Rattle.std.specs.Prelude.{◌≡◌};
ghost use Rattle.tx_actor.specs.CopiesByStage.{KeepsCopies};
ghost use Rattle.shared_table.specs.Seated.{opening_of};
ghost use Rattle.tx_turns.specs.RequestStep.{HasAsked, Starved};
ghost use Rattle.tx_turns.specs.Ties.{Ties};

use seq_model::{Event, Request, Value};
use shared_table::{Seat, TxTable};
use tx_actor::{ActorNotice, Stage, TxActor};

/// A transaction is to begin.
pub fn ask_begin<V: Value>(table: &TxTable<V>, seat: &mut Seat<V>, actor: &mut TxActor<V>)
    requires ties { Ties table.now seat.old actor.old }
    requires idle { actor.old.stage ≡ Stage.Idle }
    ensures asked { HasAsked seat.old Request.Begin seat.new }
    ensures ties { Ties table.now seat.new actor.new }
    ensures stage { actor.new.stage ≡ Stage.Beginning }
{
    let _ = table;
    seat.ask(&Event::Ask(0, Request::Begin));
    let _ = actor.start();
}

/// A transaction that writes nothing is to begin.
pub fn ask_begin_read<V: Value>(table: &TxTable<V>, seat: &mut Seat<V>, actor: &mut TxActor<V>)
    requires ties { Ties table.now seat.old actor.old }
    requires idle { actor.old.stage ≡ Stage.Idle }
    ensures asked { HasAsked seat.old Request.BeginRead seat.new }
    ensures ties { Ties table.now seat.new actor.new }
    ensures stage { actor.new.stage ≡ Stage.Beginning }
{
    let _ = table;
    seat.ask(&Event::Ask(0, Request::BeginRead));
    let _ = actor.start_reader();
}

/// The transaction is to end without a commit.
pub fn ask_abort<V: Value>(table: &TxTable<V>, seat: &mut Seat<V>, actor: &mut TxActor<V>)
    requires ties { Ties table.now seat.old actor.old }
    requires open { actor.old.stage ≡ Stage.Open }
    ensures asked { HasAsked seat.old Request.Abort seat.new }
    ensures ties { Ties table.now seat.new actor.new }
    ensures copies { actor.new.copies ≡ actor.old.copies }
{
    let _ = table;
    seat.ask(&Event::Ask(0, Request::Abort));
    let _ = actor.request_abort();
}

/// An allocation fails for the request under way. A begin is refused at once; any other is aborted for it, up to its first value store.
pub(crate) fn starve<V: Value>(
    table: &TxTable<V>,
    seat: &mut Seat<V>,
    actor: &mut TxActor<V>,
) -> ActorNotice<V>
    requires ties { Ties table.now seat.old actor.old }
    ensures starved { Starved (opening_of table.now) seat.old seat.new result }
    ensures ties { Ties table.now seat.new actor.new }
    ensures leaves { KeepsCopies actor.old actor.new }
{
    let _ = table;
    seat.ask(&Event::Starve(0));
    actor.on_starve()
}
