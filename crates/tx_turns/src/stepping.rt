//! A step of a word actor on the table.
ghost use Rattle.std.specs.Prelude.{◌≡◌, ◌≢◌, ℕ, ◌<◌};
ghost use Rattle.tx_machine.specs.World.{Rests, plan};
ghost use Rattle.step_core.specs.Shown.{actor_of};
ghost use Rattle.step_core.specs.Sound.{Fits, IsLoad, KeepsRoom};
ghost use Rattle.shared_table.specs.Seated.{Owns, locations_in, opening_of, view};
ghost use Rattle.tx_turns.specs.Touches.{IsNext, StepsWords};

use crate::due::next_step;
use crate::learning::learn;
use crate::touching::touch;
use seq_model::Value;
use shared_table::{Seat, TxTable};
use step_core::{Actor, WordAnswer, WordRefusal};

/// The next step of a word actor, taken on the table: one load, store, compare_exchange or fetch_add of one word. The actor becomes what
/// the word machine makes of it by the number that was found, and the machine's answer is returned: a refusal is that of TL2 (DISC 2006),
/// and takes no memory. There is a step to take, and it is the one that the lone world of the seat's actor does next.
#[inline(always)]
pub(crate) fn step_words<V: Value>(
    table: &TxTable<V>,
    seat: &mut Seat<V>,
    actor: &mut Actor,
) -> Result<Option<WordAnswer>, WordRefusal>
    requires own { Owns table.now seat.old }
    requires live { 0 < (view seat.old).shares }
    requires fits { Fits (locations_in table.now) actor.old }
    requires some { plan (actor_of actor.old) (actor_of actor.old).place ≢ Rests }
    requires due { IsNext (opening_of table.now) seat.old actor.old }
    ensures steps { StepsWords (opening_of table.now) seat.old actor.old seat.new actor.new result }
    ensures fits { (n : ℕ) → Fits n actor.old → Fits n actor.new }
    ensures room { IsLoad actor.old.place → KeepsRoom actor.old actor.new }
{
    let due = next_step(actor);
    let found = touch(table, seat, due);
    learn(actor, found)
}
