//! Whether the locations of a call fit the sets of its transaction: by their number alone, where there is much room.
ghost use Rattle.std.specs.Prelude.{◌≡◌, ◌+◌, ◌<◌, ◌≤◌, ◌^◌, All};
ghost use Rattle.conflict.specs.Footprints.{all_below};
ghost use Rattle.replay_log.specs.Contents.{shifted};
ghost use Rattle.replay_log.specs.Worlds as worlds;
ghost use Rattle.step_core.specs.Shown.{actor_of};
ghost use Rattle.actor_parts.specs.Room.{surely_fits, takes_more};

use conflict::LocSet;
use step_core::Actor;
use tx_sets::{AccessSet, LOCATION_LIMIT};

/// Whether so many locations that are read, and so many that are written, fit the sets of the transaction, whichever they are. Others may
/// fit all the same, where the sets have some of them.
pub fn surely_fits(words: &Actor, reads: usize, writes: usize) -> bool
    ensures { result ≡ surely_fits (actor_of words.now) reads writes }
{
    words.declared || (takes_more(&words.reads, reads) && takes_more(&words.writes, writes))
}

fn takes_more<Role>(set: &AccessSet<Role>, more: usize) -> bool
    ensures { result ≡ takes_more set.now.entries more }
{
    set.len().saturating_add(more) <= LOCATION_LIMIT
}

/// Like [`has_room`](crate::calls::has_room): few locations are not looked up.
pub(crate) fn has_room(words: &Actor, first: u32, reads: &LocSet, writes: &LocSet) -> bool
    requires reads { All (λ location. first + location < 2 ^ 32) reads.now }
    requires writes { All (λ location. first + location < 2 ^ 32) writes.now }
    ensures { result ≡ worlds.has_room (actor_of words.now) (shifted first reads.now) (shifted first writes.now) }
{
    if surely_fits(words, reads.as_slice().len(), writes.as_slice().len()) {
        true
    } else {
        crate::calls::has_room(words, first, reads, writes)
    }
}

/// Like `has_room`, of a call that reads the first `count` locations of the collection.
pub(crate) fn has_room_below(words: &Actor, first: u32, count: u32, writes: &LocSet) -> bool
    requires reads { first + count ≤ 2 ^ 32 }
    requires writes { All (λ location. first + location < 2 ^ 32) writes.now }
    ensures { result
        ≡ worlds.has_room (actor_of words.now) (shifted first (all_below count)) (shifted first writes.now) }
{
    if surely_fits(words, count as usize, writes.as_slice().len()) {
        true
    } else {
        crate::calls::has_room_below(words, first, count, writes)
    }
}
