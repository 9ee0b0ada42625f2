//! Whether a call on a collection fits the sets of its transaction.
ghost use Rattle.std.specs.Prelude.{◌≡◌, ◌+◌, ◌<◌, ◌≤◌, ◌^◌, All, length};
ghost use Rattle.conflict.specs.Footprints.{all_below};
ghost use Rattle.replay_log.specs.Contents.{shifted};
ghost use Rattle.replay_log.specs.Worlds as worlds;
ghost use Rattle.step_core.specs.Shown.{actor_of};

use conflict::LocSet;
use step_core::Actor;
use tx_sets::{AccessSet, LOCATION_LIMIT};

/// Whether the locations that a call reads and writes of a collection, which begins at location `first`, fit the sets of the
/// transaction beside those that they have. A declared reader has no sets, so that all fit.
pub fn has_room(words: &Actor, first: u32, reads: &LocSet, writes: &LocSet) -> bool
    requires reads { All (λ location. first + location < 2 ^ 32) reads.now }
    requires writes { All (λ location. first + location < 2 ^ 32) writes.now }
    ensures { result ≡ worlds.has_room (actor_of words.now) (shifted first reads.now) (shifted first writes.now) }
{
    words.declared || (fits(&words.reads, first, reads) && fits(&words.writes, first, writes))
}

/// Like `has_room`, of a call that reads the first `count` locations of the collection.
pub fn has_room_below(words: &Actor, first: u32, count: u32, writes: &LocSet) -> bool
    requires reads { first + count ≤ 2 ^ 32 }
    requires writes { All (λ location. first + location < 2 ^ 32) writes.now }
    ensures { result
        ≡ worlds.has_room (actor_of words.now) (shifted first (all_below count)) (shifted first writes.now) }
{
    words.declared || (fits_below(&words.reads, first, count) && fits(&words.writes, first, writes))
}

fn fits_below<Role>(set: &AccessSet<Role>, first: u32, count: u32) -> bool
    requires { first + count ≤ 2 ^ 32 }
    ensures { result ≡ worlds.fits set.now.entries (shifted first (all_below count)) }
{
    set.len().saturating_add(count_below(set, first, count)) <= LOCATION_LIMIT
}

// How many of the first `count` locations the set does not have.
fn count_below<Role>(set: &AccessSet<Role>, first: u32, count: u32) -> usize
    requires { first + count ≤ 2 ^ 32 }
    ensures new { result ≡ length (worlds.new_in set.now.entries (shifted first (all_below count))) }
    ensures few { result ≤ count }
{
    let mut new = 0;
    for location in 0..count {
        if set.find(first + location).is_none() {
            new += 1;
        }
    }
    new
}

fn fits<Role>(set: &AccessSet<Role>, first: u32, locations: &LocSet) -> bool
    requires { All (λ location. first + location < 2 ^ 32) locations.now }
    ensures { result ≡ worlds.fits set.now.entries (shifted first locations.now) }
{
    set.len().saturating_add(count_new(set, first, locations)) <= LOCATION_LIMIT
}

// How many of the locations the set does not have.
fn count_new<Role>(set: &AccessSet<Role>, first: u32, locations: &LocSet) -> usize
    requires { All (λ location. first + location < 2 ^ 32) locations.now }
    ensures new { result ≡ length (worlds.new_in set.now.entries (shifted first locations.now)) }
    ensures few { result ≤ length locations.now }
{
    let mut new = 0;
    for location in locations.as_slice() {
        if set.find(first + *location).is_none() {
            new += 1;
        }
    }
    new
}
