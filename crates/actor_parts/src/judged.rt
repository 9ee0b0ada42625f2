//! The editions of a call's locations against those that the transaction has read.
ghost use Rattle.std.specs.Prelude.{◌≡◌};
ghost use Rattle.step_core.specs.Shown.{actor_of};
ghost use Rattle.actor_parts.specs.Judged.{judged, left_after};
ghost use Rattle.actor_parts.specs.Shows.{actor_after};

use crate::ending::cancel;
use std::collections::VecDeque;
use step_core::{Actor, Place};
use tx_sets::ReadSet;

/// What the read set says of locations with copied editions.
#[derive(Clone, Copy)]
pub enum Judged {
    /// It has them all, with these editions.
    All,
    /// This one has to be read first.
    Next(u32),
    /// It has this one with another edition.
    Stale(u32, u64, u64),
}

/// Judges locations with copied editions, from the first, and takes those off that the set has with that edition.
#[inline(always)]
pub fn judge(reads: &ReadSet, left: &mut VecDeque<(u32, u64)>) -> Judged
    ensures judged { result ≡ judged reads.now.entries left.old.items }
    ensures left { left.new.items ≡ left_after reads.now.entries left.old.items }
{
    while let Some((location, copied)) = left.front().copied() {
        match reads.find(location) {
            None => return Judged::Next(location),
            Some(found) => {
                if found != copied {
                    return Judged::Stale(location, copied, found);
                }
                let _ = left.pop_front();
            }
        }
    }
    Judged::All
}

/// Judges a call's locations, and lets the word actor read the next one, or end where one is stale.
pub fn go_on(words: &mut Actor, locations: usize, left: &mut VecDeque<(u32, u64)>) -> Judged
    ensures judged { result ≡ judged words.old.reads.entries left.old.items }
    ensures left { left.new.items ≡ left_after words.old.reads.entries left.old.items }
    ensures actor { actor_of words.new ≡ actor_after result (actor_of words.old) }
{
    let judged = judge(&words.reads, left);
    match judged {
        Judged::Next(location) => words.place = Place::Look(location),
        Judged::Stale(_, _, _) => cancel(words, locations),
        Judged::All => {}
    }
    judged
}
