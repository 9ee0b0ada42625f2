//! The actors that a world opens with.
ghost use Rattle.std.specs.Prelude.{◌≡◌, IfOk, length};
ghost use Rattle.step_world.specs.Openings.{AreIdle};

use seq_model::{ACTOR_LIMIT, Memory};
use std::alloc::Global;
use tx_actor::TxActor;

/// The actors of a world.
pub const ACTORS: usize = ACTOR_LIMIT as usize;

/// The actors of a world, none of which has a transaction. `Memory` where an allocation fails.
pub fn actors<V: Drop>(alloc: Global) -> Result<Vec<TxActor<V>>, Memory>
    ensures count { IfOk result (λ actors. length actors.items ≡ ACTORS) }
    ensures idle { IfOk result (λ actors. AreIdle actors.items) }
{
    let mut actors = Vec::with_capacity(alloc, ACTORS)?;
    for _ in 0..ACTORS {
        actors.push(TxActor::new(alloc))?;
    }
    Ok(actors)
}
