//! The writes that an accepted call asks of its word actor: at each written location the edition after the copied one.
ghost use Rattle.std.specs.Prelude.{◌≡◌, ◌+◌, ◌<◌, ◌≤◌, ◌^◌, ◌∷◌, [], All, OnOk, length, true, false};
ghost use Rattle.std.specs.Vec.{vec_capacity, vec_len};
ghost use Rattle.tx_sets.specs.Entries.{IsRising, with_entry};
ghost use Rattle.tx_machine.specs.Requests.{ask, AskWrite};
ghost use Rattle.step_core.specs.Shown.{actor_of};
ghost use Rattle.step_core.specs.declared.actor.Place.TheVariants as place;
ghost use Rattle.actor_parts.specs.Footprints.{location_count};
ghost use Rattle.actor_parts.specs.Writes.{MayWrite, has_space, with_next, written_as};

use crate::copies::PrivateCopy;
use conflict::LocSet;
use seq_model::{Memory, Value};
use smallvec::SmallVec;
use step_core::{Actor, WordCall};
use tx_sets::LOCATION_LIMIT;

/// The locations that a call writes, each with the edition after the copied one. There are two at most, which take no memory.
pub type Writes = SmallVec<(u32, u64), 2>;

/// Written locations of a collection that begins at location `first`, each with the edition after the copied one, in place of what the list
/// held. No memory holds the changes that lead to the last edition there is.
pub(crate) fn with_next<V: Value>(
    writes: &mut Writes,
    copied: &PrivateCopy<V>,
    first: u32,
    locations: &LocSet,
) -> Result<(), Memory>
    requires within { All (λ location. location < location_count copied.now) locations.now }
    requires range { All (λ location. first + location < 2 ^ 32) locations.now }
    ensures { OnOk result (writes.new.items ≡ with_next copied.now first locations.now) }
{
    writes.clear();
    for location in locations.as_slice() {
        let next = copied.edition(*location).checked_add(1).ok_or(Memory)?;
        writes.push((first + *location, next))?;
    }
    Ok(())
}

/// Makes room for these writes.
fn reserve_writes(words: &mut Actor, count: usize) -> Result<(), Memory>
    ensures actor { actor_of words.new ≡ actor_of words.old }
    ensures place { words.new.place ≡ words.old.place }
    ensures writes { OnOk result (count ≤ words.new.writes.room) }
    ensures calls { OnOk result (vec_len words.new.calls + count ≤ vec_capacity words.new.calls) }
{
    words.calls.reserve(count)?;
    if let Err(_) = words.writes.reserve(count) {
        return Err(Memory);
    }
    Ok(())
}

/// Makes room for so many reads and so many writes. A declared reader keeps no reads. `Memory` where an allocation fails, which leaves what
/// the sets hold.
#[inline(always)]
pub fn reserve_words(words: &mut Actor, reads: usize, writes: usize) -> Result<(), Memory>
    ensures actor { actor_of words.new ≡ actor_of words.old }
    ensures place { words.new.place ≡ words.old.place }
    ensures calls { OnOk result (vec_len words.new.calls + (reads + writes) ≤ vec_capacity words.new.calls) }
    ensures reads { OnOk result (words.new.declared ≡ false → reads ≤ words.new.reads.room) }
    ensures writes { OnOk result (writes ≤ words.new.writes.room) }
    ensures few { length words.new.writes.entries ≤ LOCATION_LIMIT }
{
    let _entries = words.writes.in_order();
    let more = reads.checked_add(writes).ok_or(Memory)?;
    reserve_writes(words, writes)?;
    words.calls.reserve(more)?;
    if !words.declared {
        if let Err(_) = words.reads.reserve(reads) {
            return Err(Memory);
        }
    }
    Ok(())
}

fn write_one(words: &mut Actor, location: u32, value: u64)
    requires place { words.old.place ≡ place.Open }
    requires declared { words.old.declared ≡ false }
    requires space { has_space words.old.writes.entries location ≡ true }
    requires room { 0 < words.old.writes.room }
    requires calls { vec_len words.old.calls < vec_capacity words.old.calls }
    ensures actor { actor_of words.new ≡ ask (actor_of words.old) (actor_of words.old).place (AskWrite location value) }
    ensures place { words.new.place ≡ words.old.place }
    ensures room { words.old.writes.room ≤ words.new.writes.room + 1 }
    ensures declared { words.new.declared ≡ words.old.declared }
    ensures entries { words.new.writes.entries ≡ with_entry words.old.writes.entries location value }
    ensures rising { IsRising words.old.writes.entries }
    ensures len { vec_len words.new.calls ≡ vec_len words.old.calls + 1 }
    ensures capacity { vec_capacity words.new.calls ≡ vec_capacity words.old.calls }
{
    let _entries = words.writes.in_order();
    let _ = words.writes.put(location, value);
    words.calls.push_reserved(WordCall::Write(location, value));
}

/// Asks these writes, for which there is room. A declared reader's calls write nothing.
pub fn write_all(words: &mut Actor, writes: &[(u32, u64)])
    requires { MayWrite words.old writes.now }
    ensures actor { actor_of words.new ≡ written_as (actor_of words.old) writes.now }
    ensures place { words.new.place ≡ words.old.place }
{
    for write in writes {
        write_one(words, write.0, write.1);
    }
}
