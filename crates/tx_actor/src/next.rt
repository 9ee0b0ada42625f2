//! What an actor's next step does.
ghost use Rattle.std.specs.Prelude.{◌≡◌};
ghost use Rattle.actor_parts.specs.Dispatch.{next_of};
ghost use Rattle.tx_actor.specs.Running.{stage_of};

use crate::actor::{Stage, TxActor};
use actor_parts::{Next, at_place, next_home, next_load, next_put, next_try};

impl<V> TxActor<V> {
    /// What the next step does. It is the atomic action that the definitions have at this stage.
    #[inline(always)]
    pub fn next(&self) -> Next
        ensures { result ≡ next_of (stage_of self.now.stage) }
    {
        match &self.stage {
            Stage::Idle => Next::Nothing,
            Stage::Beginning => Next::Word,
            Stage::Open => Next::Nothing,
            Stage::Releasing => Next::Word,
            Stage::Closing => Next::Word,
            Stage::Cancelling => Next::Word,
            Stage::Leaving => Next::Word,
            Stage::Reading(_) => Next::Word,
            Stage::Trying(asked, _) => Next::TryGate(asked.get().collection),
            Stage::Copying(asked) => Next::Copy(asked.get().collection),
            Stage::Loading(_, left) => next_load(left),
            Stage::Locking(_) => Next::Word,
            Stage::Gating(homes, got, _) => next_try(at_place(homes, *got)),
            Stage::Ready(_) => Next::FirstStore,
            Stage::Storing(_) => Next::Word,
            Stage::Homing(homes) => next_home(at_place(homes, 0)),
            Stage::Returning(homes) => next_put(at_place(homes, 0)),
            Stage::ReturningOne(k) => Next::PutGate(*k),
        }
    }
}
