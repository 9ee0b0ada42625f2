//! The law of what the bases of a world hold. The function computes nothing: its contract is the law.
ghost use Rattle.std.specs.Prelude.{ℕ, List};
ghost use Rattle.seq_model.specs.declared.event.Event.{Event};
ghost use Rattle.seq_model.specs.declared.held.Held.{Held};
ghost use Rattle.replay_log.specs.Collections.{Suit};
ghost use Rattle.replay_log.specs.Contents.{Block, HaveStripes};
ghost use Rattle.replay_log.specs.Worlds.{opened, run};
ghost use Rattle.actor_laws.specs.Limits.{HoldsWithinLimits};

use seq_model::Value;

/// In every world that events reach, also while commits are half done, what each base holds is within the limits of a state: no element has
/// more copies than a call may give it, and no queue an index past the limit.
pub fn bases_are_within_limits<V: Value>()
    ensures { (blocks : List Block) (clock : ℕ) (values : List ℕ) (held : List (Held V)) (events : List (Event V)) →
        HaveStripes blocks → Suit blocks held → HoldsWithinLimits (run (opened blocks clock values held) events) }
{}
