//! What holds of the lone world of a seat's actor.
ghost use Rattle.std.specs.Prelude.{◌≡◌, ℕ};
ghost use Rattle.tx_machine.specs.World.{Rests, plan};
ghost use Rattle.replay_log.specs.Seats.{World, actor_of};
ghost use Rattle.actor_parts.specs.Dispatch.{next_of};
ghost use Rattle.actor_parts.specs.declared.next.Next.TheVariants.{Word};
ghost use Rattle.shared_table.specs.declared.view.Opening.{Opening};
ghost use Rattle.shared_table.specs.Opening.{world_at};
ghost use Rattle.shared_table.specs.Shown.{IsReached};

/// Where a step of the words is next in a lone world that is, to its actor, one that events have reached, the word actor is not idle:
/// `step_words` may be called.
pub fn steps_are_due<V>()
    ensures { (key : Opening V) (a : ℕ) (u : World V) → IsReached (world_at key) a u → next_of (u.seats a).stage ≡ Word →
        plan (actor_of u a) (actor_of u a).place ≡ Rests → ⊥ }
{}
