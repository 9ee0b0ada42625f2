//! Requests of a word actor: a read, a write, and the two ends of a transaction. They take no step, and make the room that their steps
//! need first: where it is refused, the word actor is as it was.
ghost use Rattle.std.specs.Prelude.{◌≡◌, ℕ, [], ◌∷◌, IfOk, IfSome, IsSome, OnErr, OnOk, ◌↔◌, true, false, ◌<◌, ◌≤◌};
ghost use Rattle.std.specs.Vec.{vec_capacity, vec_len};
ghost use Rattle.tx_machine.specs.Notices.{read_reply, reply};
ghost use Rattle.tx_sets.specs.Entries.{lookup};
ghost use Rattle.tx_machine.specs.Requests.{ask, AskClose, AskLock, AskRead, AskStore, AskWrite};
ghost use Rattle.replay_log.specs.Worlds.{fits};
ghost use Rattle.step_core.specs.Shown.{actor_of};
ghost use Rattle.step_core.specs.Sound.{Fits};
ghost use Rattle.actor_parts.specs.Requests.{HasNoReads, KeepsAt, may_read, number_told};

use std::alloc::AllocError;
use step_core::{Actor, Place, WordCall, WordRequest};
use tx_sets::{AccessSet, LOCATION_LIMIT};

/// Whether a location fits beside those that a set has. A `put` of it that comes next searches no more.
pub fn fits_one<Role>(set: &mut AccessSet<Role>, location: u32) -> bool
    ensures fits { result ≡ fits set.old.entries (location ∷ []) }
    ensures same { set.new ≡ set.old }
{
    let found = set.seek(location);
    let entries = set.in_order();
    found.is_some() || entries.len() < LOCATION_LIMIT
}

/// What the sets have of a location that is to be read, or nothing where the read set has no room for it. One of them is searched, once:
/// the write set where it has the location, else the read set, which is not searched again when what is read is kept.
pub fn seek_word(words: &mut Actor, location: u32) -> Option<Option<u64>>
    ensures room { IsSome result ↔ (may_read (actor_of words.old) location ≡ true) }
    ensures found { IfSome result (λ found. number_told found
        ≡ read_reply (lookup (actor_of words.old).writes location) (lookup (actor_of words.old).reads location)) }
    ensures same { words.new ≡ words.old }
{
    if let Some(value) = words.writes.find(location) {
        return Some(Some(value));
    }
    let found = words.reads.seek(location);
    let entries = words.reads.in_order();
    if words.declared || found.is_some() || entries.len() < LOCATION_LIMIT {
        Some(found)
    } else {
        None
    }
}

/// Makes room for a read that is to be kept. A declared reader keeps none.
fn reserve_read(words: &mut Actor) -> Result<(), AllocError>
    ensures actor { actor_of words.new ≡ actor_of words.old }
    ensures place { words.new.place ≡ words.old.place }
    ensures calls { OnOk result (vec_len words.new.calls < vec_capacity words.new.calls) }
    ensures reads { OnOk result (words.old.declared ≡ false → 0 < words.new.reads.room) }
{
    words.calls.reserve(1)?;
    if words.declared {
        return Ok(());
    }
    if let Err(_) = words.reads.reserve(1) {
        return Err(AllocError);
    }
    Ok(())
}

/// A location is to be read of which the sets have this: that is answered, or else its loads are next. Where the allocation for its room
/// fails, the word actor is as it was.
pub fn read_word(
    words: &mut Actor,
    location: u32,
    found: Option<u64>,
) -> Result<Option<u64>, AllocError>
    requires room { may_read (actor_of words.old) location ≡ true }
    requires found { number_told found
        ≡ read_reply (lookup (actor_of words.old).writes location) (lookup (actor_of words.old).reads location) }
    ensures actor { OnOk result (actor_of words.new ≡ ask (actor_of words.old) (actor_of words.old).place (AskRead location)) }
    ensures told { IfOk result (λ told. number_told told ≡ reply (actor_of words.old) (actor_of words.old).place (AskRead location)) }
    ensures err { OnErr result (actor_of words.new ≡ actor_of words.old) }
    ensures keeps { (n : ℕ) → location < n → HasNoReads words.old → KeepsAt n words.old words.new }
{
    match words.place {
        Place::Open => {}
        _ => return Ok(None),
    }
    reserve_read(words)?;
    match found {
        Some(value) => words.calls.push_reserved(WordCall::Read(location, value)),
        None => words.place = Place::Look(location),
    }
    Ok(found)
}

/// A value is to be written: the write set keeps it. Where an allocation fails, the word actor is as it was.
pub fn write_word(words: &mut Actor, location: u32, value: u64) -> Result<(), AllocError>
    requires room { fits (actor_of words.old).writes (location ∷ []) ≡ true }
    ensures actor { OnOk result (actor_of words.new ≡ ask (actor_of words.old) (actor_of words.old).place (AskWrite location value)) }
    ensures err { OnErr result (actor_of words.new ≡ actor_of words.old) }
    ensures keeps { (n : ℕ) → location < n → KeepsAt n words.old words.new }
{
    match words.place {
        Place::Open => {}
        _ => return Ok(()),
    }
    if words.declared {
        return Ok(());
    }
    words.calls.reserve(1)?;
    if let Err(_) = words.writes.put(location, value) {
        return Err(AllocError);
    }
    words.calls.push_reserved(WordCall::Write(location, value));
    Ok(())
}

/// The locks of a writer are to be taken, from the first, where this may be asked. Where the allocation for its queue of locks fails, the
/// word actor is as it was.
pub fn lock_words(words: &mut Actor, locations: usize) -> Result<(), AllocError>
    ensures actor { OnOk result (actor_of words.new ≡ ask (actor_of words.old) (actor_of words.old).place AskLock) }
    ensures err { OnErr result (actor_of words.new ≡ actor_of words.old) }
    ensures keeps { KeepsAt locations words.old words.new }
{
    if words.refusal(locations, WordRequest::Lock).is_none() {
        if words.ask(locations, WordRequest::Lock).is_err() {
            return Err(AllocError);
        }
    }
    Ok(())
}

/// A transaction without writes is to commit, where this may be asked. Where the allocation for its record fails, it stands where it stood.
pub fn close_words(words: &mut Actor, locations: usize) -> Result<(), AllocError>
    ensures actor { OnOk result (actor_of words.new ≡ ask (actor_of words.old) (actor_of words.old).place AskClose) }
    ensures err { OnErr result (actor_of words.new ≡ actor_of words.old) }
    ensures keeps { KeepsAt locations words.old words.new }
{
    if words.refusal(locations, WordRequest::Close).is_none() {
        if words.ask(locations, WordRequest::Close).is_err() {
            return Err(AllocError);
        }
    }
    Ok(())
}

/// The values of a writer are to be stored, from the first, where this may be asked. Where the allocation for its record fails, it stands
/// where it stood.
pub fn store_words(words: &mut Actor, locations: usize) -> Result<(), AllocError>
    ensures actor { OnOk result (actor_of words.new ≡ ask (actor_of words.old) (actor_of words.old).place AskStore) }
    ensures err { OnErr result (actor_of words.new ≡ actor_of words.old) }
    ensures keeps { KeepsAt locations words.old words.new }
{
    if words.refusal(locations, WordRequest::Store).is_none() {
        if words.ask(locations, WordRequest::Store).is_err() {
            return Err(AllocError);
        }
    }
    Ok(())
}
