//! The laws. Each function computes nothing: its contract is the law.
ghost use Rattle.std.specs.Prelude.{◌≡◌, ℕ, Err, List, None};
ghost use Rattle.atomic_table.specs.Table.{State};
ghost use Rattle.seq_model.specs.declared.call.Call.{Call};
ghost use Rattle.seq_model.specs.declared.call.Reply.{Reply};
ghost use Rattle.seq_model.specs.declared.event.Event.{Event};
ghost use Rattle.seq_model.specs.declared.refusal.Refusal.{Refusal};
ghost use Rattle.seq_model.specs.declared.refusal.Refusal.TheVariants.{GateBusy};
ghost use Rattle.replay_log.specs.Contents.{HaveStripes};
ghost use Rattle.replay_log.specs.Seats.{World};
ghost use Rattle.replay_log.specs.WorldSerial.{IsSerial};
ghost use Rattle.replay_log.specs.Worlds.{run};
ghost use Rattle.tx_actor.specs.declared.actor.ActorNotice.{ActorNotice};
ghost use Rattle.shared_table.specs.Opening.{Holds};
ghost use Rattle.actor_laws.specs.KnownStages.{Rests, Stands};
ghost use Rattle.shared_table.specs.Seated.{actor, contents_in, opening_of};
ghost use Rattle.shared_table.specs.Shown.{Opens, Slot};
ghost use Rattle.shared_table.specs.declared.table.TxTable.{TxTable};
ghost use Rattle.shared_table.specs.declared.view.Opening.{Opening};
ghost use Rattle.shared_table.specs.declared.view.SeatKnowledge.{SeatKnowledge};
ghost use Rattle.tx_turns.specs.Driven.{HasTold};
ghost use Rattle.tx_engine.specs.Ready.{HasCalled, HasFinished, IsReady, standing};
ghost use Rattle.tx_engine.specs.Requests.{IsFoundAndTold, IsLastAborted};
ghost use Rattle.tx_engine.specs.declared.seats.TxSeat.{TxSeat};
ghost use Rattle.tx_engine.specs.Aborted.{SeesOneState, ShownBy, WasAborted, WasAbortedFor};
ghost use Rattle.tx_engine.specs.Records.{ShowsSeats};
ghost use Rattle.tx_engine.specs.Refused.{GaveUp, GaveUpFor, IsEndTold, IsGivenUpFor};
ghost use Rattle.tx_engine.specs.Seats.{HoldsNothing};
ghost use Rattle.tx_engine.specs.Steps.{IsSerialBetweenSteps};
ghost use Rattle.tx_engine.specs.Tries.{WasTriedInVain};

use replay_log::laws::{serial_worlds, tries};
use seq_model::Value;

/// Whatever events have happened: the records of the world that they reach are, in commit order, a run of the sequential model from the
/// opening; its open and aborted transactions saw only the state at the number that they began with; and where no commit is half
/// done, its words and collections are what the run results in.
pub fn worlds_are_serial<V: Value>()
    ensures { (o : World V) (opens : Opens o) (events : List (Event V)) → HaveStripes o.blocks → IsSerial opens.contents (run o events) }
{
    serial_worlds::<V>();
}

/// Between any two atomic steps of a table, where its rule holds of its words, its slots and the views of its seats: they show the world
/// that the events of the rule reach from its opening, and this world is in serial order. So the receipts of the seats are, in commit
/// order, a run of the sequential model; and where no seat has a commit half done, the words of the table, and the bases in its slots,
/// are what the run leaves.
pub fn tables_are_serial<V: Value>()
    ensures { (opening : Opening V) (s : State (Slot V) (SeatKnowledge V)) (rule : Holds opening s) →
        IsSerialBetweenSteps opening rule.rule.events s }
{
    worlds_are_serial::<V>();
}

/// Between any two atomic steps of a table: the aborted transactions of each actor for which a seat stands are, in the world that the table
/// shows, those of the world with this actor alone, and each saw only the state there at the number that it began with; the receipts of a
/// seat are what these actors have committed there, each once; and what its actor has asked since its last step is answered there at
/// once, by the state at the number of its transaction.
pub fn tables_show_their_seats<V: Value>()
    ensures { (opening : Opening V) (s : State (Slot V) (SeatKnowledge V)) (rule : Holds opening s)
        → ShowsSeats opening rule.rule.events s }
{
    worlds_are_serial::<V>();
}

/// A seat between its requests, without a transaction or with an open one, be it dropped since or not: its actor holds no lock and no gate,
/// neither in such a world nor in what the table shows.
pub fn ready_seats_hold_nothing<V: Value>()
    ensures { (t : TxTable V) (u : TxSeat V) → IsReady t u → HoldsNothing (opening_of t) u.seat }
{}

/// A request of a seat that is answered that a gate was busy, and found it so by one of its turns, as its calls are refused:
/// it has tried the gate 64 times, one turn after another, each by one compare_exchange, and found it held each time.
pub fn busy_gates_were_tried_64_times<V: Value>()
    ensures { (t : TxTable V) (s u : TxSeat V) (k : ℕ) → IsReady t s → IsFoundAndTold (opening_of t) s.seat u.seat (GateBusy k) →
        WasTriedInVain (opening_of t) s.seat u.seat k }
{
    tries::<V>();
}

/// A request of a seat that is answered a cause for which its transaction is aborted, or that it was aborted, as a call or a commit is
/// that is refused for such a cause: no turn of that transaction stores a value, or puts a base back with its changes, and each lock that
/// it took is put back with its old version.
pub fn given_up_seats_change_nothing<V: Value>()
    ensures told { (t : TxTable V) (s u : TxSeat V) (n : ActorNotice V) → IsReady t s → IsEndTold n
        → HasTold (opening_of t) s.seat u.seat n →
        GaveUp (opening_of t) s.seat u.seat n }
    ensures refused { (t : TxTable V) (s u : TxSeat V) (cause : Refusal) → IsReady t s → IsGivenUpFor cause →
        IsFoundAndTold (opening_of t) s.seat u.seat cause → GaveUpFor (opening_of t) s.seat u.seat cause }
{}

/// A transaction that a refused call or a refused commit has aborted, or that its actor aborts: from then on, until its seat takes a step
/// again, the table shows it as an aborted transaction of the seat's actor, with this cause and with the calls that it had made. Their
/// replies are those of one state of the world that the table shows, the one at the number at which the transaction began.
pub fn aborted_transactions_saw_one_state<V: Value>()
    ensures call { (t : TxTable V) (s u : TxSeat V) (call : Call V) (calls : List (Call V × Reply V)) (cause : Refusal) →
        HasCalled t s u call (Err cause) → standing (opening_of t) s.seat ≡ Stands calls → standing (opening_of t) u.seat ≡ Rests →
        ShownBy t u.seat (WasAbortedFor (contents_in t) (opening_of t) s.seat calls cause) }
    ensures commit { (t : TxTable V) (s u : TxSeat V) (calls : List (Call V × Reply V)) (cause : Refusal) →
        HasFinished t s u (Err cause) → standing (opening_of t) s.seat ≡ Stands calls →
        ShownBy t u.seat (WasAbortedFor (contents_in t) (opening_of t) s.seat calls cause) }
    ensures abort { (t : TxTable V) (s u : TxSeat V) (calls : List (Call V × Reply V)) → actor u.seat ≡ actor s.seat →
        standing (opening_of t) s.seat ≡ Stands calls → IsLastAborted (opening_of t) s.seat u.seat None →
        ShownBy t u.seat (WasAborted (contents_in t) (opening_of t) s.seat calls None) }
{
    tables_show_their_seats::<V>();
}

/// A seat at any moment: what its actor was answered since its last step holds at once in the world that the table shows, and the calls of
/// its open transaction have the replies of one state of that world, now and whatever the table shows until the seat takes a step again.
pub fn open_transactions_see_one_state<V: Value>()
    ensures { (t : TxTable V) (u : TxSeat V) → ShownBy t u.seat (SeesOneState (contents_in t) (opening_of t) u.seat) }
{
    tables_show_their_seats::<V>();
}
