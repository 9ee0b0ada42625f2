//! Where a transaction stands, as a client may know it: its *known stage* (`specs/KnownStages.antt`). The functions compute nothing: their
//! contracts are the laws.
ghost use Rattle.actor_laws.specs.Courses.{StepsComeTo};
ghost use Rattle.actor_laws.specs.KnownStages.{AsksMove, StepsMove};

use seq_model::Value;

/// What a client is answered says where its transaction stands: idle, beginning, open with these calls, with a call under way, committing,
/// committed, or being aborted. A reply joins the calls; a call that is refused, as `NoSuch` or `TooLong`, leaves the transaction open as
/// it was; a commit that is answered has been made, and by one step.
pub fn phases<V: Value>()
    ensures steps { StepsMove V }
    ensures asks { AsksMove V }
{}

/// A request that is under way continues, or ends, by each own step of its actor, in every world that events have reached: a transaction
/// begins, or is refused at the limit of the clock; a call joins the calls with the reply that is returned, or was mistaken and leaves
/// them; a commit makes its record of all calls, and returns the number of it; and what is aborted for a cause returns it last, and has no
/// transaction any more.
pub fn courses<V: Value>()
    ensures { StepsComeTo V }
{}
