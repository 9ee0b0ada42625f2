//! Attempts without a pause.
ghost use Rattle.std.specs.Prelude.{◌≡◌};
ghost use Rattle.shared_table.specs.Seated.{opening_of};
ghost use Rattle.actor_laws.specs.KnownStages.{Rests};
ghost use Rattle.tx_engine.specs.Ready.{IsReady, standing};
ghost use Rattle.tx_engine.specs.Attempts.{AttemptsTo};

use crate::attempts::{Attempt, attempt_with};
use crate::pause::NoPause;
use crate::seats::TxSeat;
use seq_model::{Job, Refusal, Value};
use shared_table::TxTable;

/// One attempt of a job, by a transaction that may write, as `attempt_with` makes it, and by a worker that is held nowhere.
pub fn attempt<V: Value, J: Job<V>>(
    table: &TxTable<V>,
    seat: &mut TxSeat<V>,
    job: &J,
) -> Result<Attempt<V>, Refusal>
    requires ready { IsReady table.now seat.old }
    ensures ready { IsReady table.now seat.new }
    ensures rests { standing (opening_of table.now) seat.new.seat ≡ Rests }
    ensures attempts { AttemptsTo (J.asks job.now) (opening_of table.now) seat.old.seat seat.new.seat result }
{
    attempt_with(table, seat, job, 0, &NoPause)
}
