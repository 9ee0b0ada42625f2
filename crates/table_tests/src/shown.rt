//! Requests at a seat, with what the table shows from then on of a transaction that was refused or aborted.
//!
//! Nothing here computes anything new: it shows that the contracts of `tx_engine` and its laws chain.
ghost use Rattle.std.specs.Prelude.{◌≡◌, IfErr, List, None};
ghost use Rattle.seq_model.specs.declared.call.Call.{Call as Asked};
ghost use Rattle.seq_model.specs.declared.call.Reply.{Reply as Replied};
ghost use Rattle.actor_laws.specs.KnownStages.{Rests, Stands};
ghost use Rattle.shared_table.specs.Seated.{contents_in, opening_of};
ghost use Rattle.tx_engine.specs.Ready.{standing};
ghost use Rattle.table_tests.specs.Fit.{IsFit};
ghost use Rattle.tx_engine.specs.Aborted.{SeesOneState, ShownBy, WasAborted, WasAbortedFor};

use crate::resumed;
use seq_model::{Call, Record, Refusal, Reply, Value};
use shared_table::TxTable;
use tx_engine::TxSeat;
use tx_engine::laws::{aborted_transactions_saw_one_state, open_transactions_see_one_state};

/// A call. Where it is refused and has ended its transaction, the table shows it as an aborted one that saw one state; where the
/// transaction is still open, all its answers so far are those of one state.
pub fn call<V: Value>(
    table: &TxTable<V>,
    seat: &mut TxSeat<V>,
    call: Call<V>,
) -> Result<Reply<V>, Refusal>
    requires fit { IsFit table.now seat.old }
    ensures fit { IsFit table.now seat.new }
    ensures refused { IfErr result (λ cause. (calls : List (Asked V × Replied V))
        → standing (opening_of table.now) seat.old.seat ≡ Stands calls →
        standing (opening_of table.now) seat.new.seat ≡ Rests →
        ShownBy table.now seat.new.seat (WasAbortedFor (contents_in table.now) (opening_of table.now) seat.old.seat calls cause)) }
    ensures open { ShownBy table.now seat.new.seat (SeesOneState (contents_in table.now) (opening_of table.now) seat.new.seat) }
{
    aborted_transactions_saw_one_state::<V>();
    open_transactions_see_one_state::<V>();
    let Call { target, op } = call;
    resumed::call(table, seat, target, op)
}

/// A commit. Where it is refused, the table shows its transaction as an aborted one that saw one state.
#[tactic(auto, using(crate::proofs::FitLemmas::rests_fit))]
pub fn commit<V: Value>(table: &TxTable<V>, seat: &mut TxSeat<V>) -> Result<Record<V>, Refusal>
    requires fit { IsFit table.now seat.old }
    ensures fit { IsFit table.now seat.new }
    ensures refused { IfErr result (λ cause. (calls : List (Asked V × Replied V))
        → standing (opening_of table.now) seat.old.seat ≡ Stands calls →
        ShownBy table.now seat.new.seat (WasAbortedFor (contents_in table.now) (opening_of table.now) seat.old.seat calls cause)) }
{
    aborted_transactions_saw_one_state::<V>();
    resumed::commit(table, seat)
}

/// An abort. The table shows the transaction that was open as an aborted one that saw one state.
#[tactic(auto, using(crate::proofs::FitLemmas::rests_fit))]
pub fn abort<V: Value>(table: &TxTable<V>, seat: &mut TxSeat<V>)
    requires fit { IsFit table.now seat.old }
    ensures fit { IsFit table.now seat.new }
    ensures shown { (calls : List (Asked V × Replied V)) → standing (opening_of table.now) seat.old.seat ≡ Stands calls →
        ShownBy table.now seat.new.seat (WasAborted (contents_in table.now) (opening_of table.now) seat.old.seat calls None) }
{
    aborted_transactions_saw_one_state::<V>();
    resumed::abort(table, seat);
}
