//! What is unchanged of an actor from event to event.
ghost use Rattle.tx_actor.specs.CopiesAfterEvent.{AsksKeep, StarvesKeep, StepsKeep};

use crate::laws::copies_by_stage;
use actor_parts::copies_stay;
use actor_parts::copy_laws::{begins_with_nothing, calls_as_worlds};
use seq_model::Value;

/// Wherever events have led, an actor has of collections what its stage asks for, after each request, each failed allocation, and each step
/// that is on no copy. The two steps on copies are in `loads_stay_own` and `taken_parts_are_own`.
pub fn events_keep_copies<V: Value>()
    ensures steps { StepsKeep V }
    ensures starves { StarvesKeep V }
    ensures asks { AsksKeep V }
{
    copies_by_stage::<V>();
    copies_stay::<V>();
    begins_with_nothing::<V>();
    calls_as_worlds::<V>();
}
