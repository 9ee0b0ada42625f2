//! What a call on a copied collection is going to do: its outcome, the locations that have to be read for it, and what it writes.
ghost use Rattle.std.specs.Prelude.{◌≡◌, ◌+◌, ◌<◌, ◌≤◌, ◌^◌, [], ◌∷◌, IfOk, IsSome, OnOk, Some, true};
ghost use Rattle.conflict.specs.Footprints.{all_below};
ghost use Rattle.replay_log.specs.Base.{stripes_of};
ghost use Rattle.replay_log.specs.Contents.{shifted};
ghost use Rattle.replay_log.specs.Worlds as worlds;
ghost use Rattle.step_core.specs.Shown.{actor_of};
ghost use Rattle.shadow.specs.KeyLocation.{written_there};
ghost use Rattle.actor_parts.specs.PrivateCopy.{answer_of};
ghost use Rattle.actor_parts.specs.Weighed.{IsWeighed};
ghost use Rattle.actor_parts.specs.Footprints.{base_in, location_count, reads_in, with_known, writes_in};
ghost use Rattle.actor_parts.specs.Writes.{with_next};

use crate::copies::PrivateCopy;
use crate::footprints::{with_known, with_known_below};
use crate::room::{has_room, has_room_below, surely_fits};
use crate::writes::{Writes, with_next};
use conflict::Outcome;
use seq_model::{Memory, Op, Refusal, Value};
use shadow::KeyLocation;
use std::collections::VecDeque;
use step_core::Actor;

/// What a call on a key reads and writes: this location.
fn weigh_key<V: Value>(
    left: &mut VecDeque<(u32, u64)>,
    writes: &mut Writes,
    copied: &PrivateCopy<V>,
    first: u32,
    at: KeyLocation,
) -> Result<(), Memory>
    requires place { at.location < location_count copied.now }
    requires range { first + at.location < 2 ^ 32 }
    ensures left { OnOk result (left.new.items ≡ with_known copied.now first (at.location ∷ [])) }
    ensures writes { OnOk result (writes.new.items ≡ with_next copied.now first (written_there at)) }
{
    let location = first + at.location;
    let edition = copied.edition(at.location);
    left.clear();
    left.push_back((location, edition))?;
    writes.clear();
    if !at.written {
        return Ok(());
    }
    let next = edition.checked_add(1).ok_or(Memory)?;
    writes.push((location, next))?;
    Ok(())
}

/// What any call reads and writes, where that fits the sets. It is judged before memory is asked for the lists.
#[inline(never)]
fn weigh_sets<V: Value>(
    left: &mut VecDeque<(u32, u64)>,
    writes: &mut Writes,
    words: &Actor,
    copied: &PrivateCopy<V>,
    first: u32,
    outcome: &Outcome<V>,
) -> Result<bool, Memory>
    requires stripes { 0 < stripes_of (base_in copied.now) }
    requires range { first + location_count copied.now ≤ 2 ^ 32 }
    ensures { IfOk result (λ fits. IsWeighed (actor_of words.now) copied.now first outcome.now left.new.items writes.new.items fits) }
{
    let read = copied.reads(outcome)?;
    let written = copied.writes(outcome)?;
    if !has_room(words, first, &read, &written) {
        return Ok(false);
    }
    with_known(left, copied, first, &read)?;
    with_next(writes, copied, first, &written)?;
    Ok(true)
}

/// What a call that reads the first `count` locations reads and writes, where that fits the sets.
#[inline(never)]
fn weigh_below<V: Value>(
    left: &mut VecDeque<(u32, u64)>,
    writes: &mut Writes,
    words: &Actor,
    copied: &PrivateCopy<V>,
    first: u32,
    outcome: &Outcome<V>,
    count: u32,
) -> Result<bool, Memory>
    requires stripes { 0 < stripes_of (base_in copied.now) }
    requires range { first + location_count copied.now ≤ 2 ^ 32 }
    requires reads { reads_in copied.now outcome.now ≡ all_below count }
    ensures { IfOk result (λ fits. IsWeighed (actor_of words.now) copied.now first outcome.now left.new.items writes.new.items fits) }
{
    let written = copied.writes(outcome)?;
    if !has_room_below(words, first, count, &written) {
        return Ok(false);
    }
    with_known_below(left, copied, first, count)?;
    with_next(writes, copied, first, &written)?;
    Ok(true)
}

/// What a call with its outcome reads and writes.
fn weigh_outcome<V: Value>(
    left: &mut VecDeque<(u32, u64)>,
    writes: &mut Writes,
    words: &Actor,
    copied: &PrivateCopy<V>,
    first: u32,
    outcome: &Outcome<V>,
) -> Result<bool, Memory>
    requires stripes { 0 < stripes_of (base_in copied.now) }
    requires range { first + location_count copied.now ≤ 2 ^ 32 }
    ensures { IfOk result (λ fits. IsWeighed (actor_of words.now) copied.now first outcome.now left.new.items writes.new.items fits) }
{
    if surely_fits(words, 1, 1) {
        if let Some(at) = copied.key_location(outcome) {
            weigh_key(left, writes, copied, first, at)?;
            return Ok(true);
        }
    }
    if let Some(count) = copied.all_read(outcome) {
        return weigh_below(left, writes, words, copied, first, outcome, count);
    }
    weigh_sets(left, writes, words, copied, first, outcome)
}

/// Whether what a call reads and writes fits the sets of the transaction, found before memory is asked for lists of it. The call's outcome
/// after the accepted ones is put into its place; and where they fit, so are the locations that it reads, with the editions with which they
/// were copied, and those that it writes, each with the edition after the copied one, whatever these places hold. The collection begins at
/// location `first`. `Memory` where an allocation fails, which leaves these places open.
pub fn weigh<V: Value>(
    outcome: &mut Option<Outcome<V>>,
    left: &mut VecDeque<(u32, u64)>,
    writes: &mut Writes,
    words: &Actor,
    copied: &PrivateCopy<V>,
    first: u32,
    op: &Op<V>,
) -> Result<bool, Memory>
    requires stripes { 0 < stripes_of (base_in copied.now) }
    requires range { first + location_count copied.now ≤ 2 ^ 32 }
    requires known { IsSome (answer_of copied.now op.now) }
    ensures outcome { IfOk result (λ fits. answer_of copied.now op.now ≡ outcome.new) }
    ensures weighed { IfOk result (λ fits. (o : Outcome V) × (outcome.new ≡ Some o)
        × IsWeighed (actor_of words.now) copied.now first o left.new.items writes.new.items fits) }
{
    match copied.outcome(op, outcome) {
        Ok(()) => {}
        Err(Refusal::Memory) => return Err(Memory),
        Err(_) => unreachable!(),
    }
    match outcome {
        Some(found) => weigh_outcome(left, writes, words, copied, first, found),
        None => unreachable!(),
    }
}
