//! Whether a call fits the sets of its transaction, before anything is copied for it.
ghost use Rattle.std.specs.Prelude.{◌<◌};
ghost use Rattle.conflict.specs.declared.outcome.Outcome.{Outcome};
ghost use Rattle.replay_log.specs.declared.base.Base.{Base};
ghost use Rattle.replay_log.specs.Base.{stripes_of};
ghost use Rattle.actor_parts.specs.Sizes.{LieIn, SizesCopies, base_reads, base_writes};

use seq_model::Value;

/// A call whose collection is copied fits the sets where its outcome on the base alone does, in every world that events have reached: so a
/// call that is TooLong is known as such by `fits_base` before anything is copied. What an outcome reads and writes of a base is in it.
pub fn sizes_copies<V: Value>()
    ensures sizes { SizesCopies V }
    ensures within { (base : Base V) (o : Outcome V) → 0 < stripes_of base →
        LieIn base (base_reads base o) × LieIn base (base_writes base o) }
{}
