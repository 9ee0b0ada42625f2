//! Which calls a collection of each kind answers, and which may change it.
ghost use Rattle.std.specs.Prelude.{◌≡◌, ℕ, Some};
ghost use Rattle.replay_log.specs.Worlds as worlds;
ghost use Rattle.actor_parts.specs.Blocks as blocks;

use seq_model::{Kind, Op};

/// Whether a collection of this kind answers the call.
pub fn is_known<V>(kind: Kind, op: &Op<V>) -> bool
    ensures { (stripes : ℕ) → result ≡ worlds.is_known (Some (record { kind = blocks.kind_of kind; stripes = stripes })) op.now }
{
    match kind {
        Kind::Map => matches!(op, Op::Get(_) | Op::Put(_, _) | Op::Remove(_) | Op::Len),
        Kind::Bag => matches!(op, Op::Count(_) | Op::Add(_) | Op::Take(_)),
        Kind::Pq => matches!(op, Op::Least | Op::Insert(_) | Op::TakeLeast),
        Kind::Queue => matches!(op, Op::Enqueue(_) | Op::Dequeue | Op::Peek | Op::Len),
    }
}

/// Whether the call may change what it is asked of.
pub fn is_change<V>(op: &Op<V>) -> bool
    ensures { result ≡ worlds.is_change op.now }
{
    matches!(
        op,
        Op::Write(_)
            | Op::Put(_, _)
            | Op::Remove(_)
            | Op::Add(_)
            | Op::Take(_)
            | Op::Insert(_)
            | Op::TakeLeast
            | Op::Enqueue(_)
            | Op::Dequeue
    )
}
