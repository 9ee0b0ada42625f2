//! Which transaction, or which client, a type stands for.
use std::marker::Brand;

/// Which transaction, or which client, a type stands for: proofs know its store, and where it began.
///
/// A function over a [`crate::Transaction`] or a [`crate::Client`] takes any scope, as
/// `fn total<S: Scope<V>>(tx: &mut Transaction<'_, V, S>)`. So it can't exchange one transaction for another, and needs no clause for that.
/// It costs nothing when the program runs.
pub trait Scope<V> {
    ghost use Rattle.std.specs.Prelude.{Option};
    ghost use Rattle.tx_client.specs.Frames.{Frame};

    ghost frame: { Option (Frame V) };
}

impl<V> Scope<V> for Brand {
    ghost use Rattle.std.specs.Prelude.{None};

    ghost frame = { None };
}
