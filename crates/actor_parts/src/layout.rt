//! How the locations of an opening are laid out: its words come first, then the block of each collection in turn.
ghost use Rattle.std.specs.Prelude.{◌≡◌, IfOk, length};
ghost use Rattle.replay_log.specs.Collections.{kind_of_held};
ghost use Rattle.actor_parts.specs.Blocks.{kind_of};
ghost use Rattle.actor_parts.specs.Openings.{blocks_of};

use crate::blocks::{Blocks, TABLE_LIMIT};
use seq_model::{Held, Kind, Refusal};
use std::alloc::Global;

fn kind<V>(held: &Held<V>) -> Kind
    ensures { kind_of result ≡ kind_of_held held.now }
{
    match held {
        Held::Map(_) => Kind::Map,
        Held::Bag(_) => Kind::Bag,
        Held::Pq(_) => Kind::Pq,
        Held::Queue { .. } => Kind::Queue,
    }
}

/// How the locations of so many words and of these collections are laid out, each collection in so many stripes. It is refused where there
/// are too many, or an allocation fails.
pub fn lay<V>(
    alloc: Global,
    words: usize,
    stripes: &[u32],
    held: &[Held<V>],
) -> Result<Blocks, Refusal>
    requires { length stripes.now ≡ length held.now }
    ensures words { IfOk result (λ blocks. blocks.words ≡ words) }
    ensures blocks { IfOk result (λ blocks. blocks.blocks ≡ blocks_of stripes.now held.now) }
{
    if words > TABLE_LIMIT as usize {
        return Err(Refusal::TooLong);
    }
    let mut blocks = Blocks::new(alloc, words as u32);
    for (i, count) in stripes.iter().enumerate() {
        blocks.push(kind(&held[i]), *count)?;
    }
    Ok(blocks)
}
