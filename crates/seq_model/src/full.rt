//! Changes that may find a collection full.
ghost use Rattle.std.specs.Prelude.{◌≡◌};
ghost use Rattle.seq_model.specs.declared.refusal.Refusal.TheVariants.{TooLong};

use crate::refusal::Refusal;

/// One more would pass the limit of the collection: nothing was changed, and the transaction continues.
///
/// So a change returns a result in a result: `queue.enqueue(tx, item)??` aborts with `TooLong` where the queue is full, and
/// `if queue.enqueue(tx, item)?.is_err() { .. }` continues otherwise.
#[derive(Clone, Copy, Debug, PartialEq, Eq)]
pub struct Full;

impl From<Full> for Refusal {
    ghost from_gives = { λ _ refusal. refusal ≡ TooLong };

    fn from(_full: Full) -> Refusal {
        Refusal::TooLong
    }
}
