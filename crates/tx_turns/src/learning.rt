//! What an actor makes of the number that its step found.
ghost use Rattle.std.specs.Prelude.{◌≡◌, ℕ, ◌+◌, ◌<◌, ◌≤◌, ◌^◌, length};
ghost use Rattle.step_core.specs.Sound.{Fits, IsLoad, KeepsRoom};
ghost use Rattle.step_core.specs.declared.actor.Place.TheVariants.{Check, First, Lock, Release, Store, Take, Undo};
ghost use Rattle.tx_turns.specs.NextStep.{HasClock, Learns};

use step_core::{Actor, Place, WordAnswer, WordRefusal};

type Heard = Result<Option<WordAnswer>, WordRefusal>;

fn learn_to_lock(actor: &mut Actor, i: usize, found: u64) -> Heard
    requires place { actor.old.place ≡ Lock i }
    requires clock { HasClock found actor.old }
    ensures learns { Learns actor.old found actor.new result }
    ensures fits { (n : ℕ) → Fits n actor.old → Fits n actor.new }
{
    if i < actor.writes.len() {
        let location = actor.write_at(i).0;
        actor.to_lock(location, i, found)
    } else {
        actor.stamp(found + 1)
    }
}

fn learn_to_take(actor: &mut Actor, location: u32, version: u64, i: usize, found: u64) -> Heard
    requires fits { (n : ℕ) × Fits n actor.old }
    requires place { actor.old.place ≡ Take location version i }
    ensures learns { Learns actor.old found actor.new result }
    ensures fits { (n : ℕ) → Fits n actor.old → Fits n actor.new }
{
    if found == 2 * version {
        actor.take(location, version, i);
        Ok(None)
    } else {
        actor.place = Place::Broken;
        Err(WordRefusal::Busy {
            location,
            word: found,
        })
    }
}

fn learn_to_check(actor: &mut Actor, i: usize, found: u64) -> Heard
    requires place { actor.old.place ≡ Check i }
    ensures learns { Learns actor.old found actor.new result }
    ensures fits { (n : ℕ) → Fits n actor.old → Fits n actor.new }
{
    if i < actor.reads.len() {
        let location = actor.read_at(i).0;
        actor.check(location, i, found)
    } else {
        Err(WordRefusal::NoTransaction)
    }
}

fn learn_first(actor: &mut Actor, found: u64) -> Heard
    requires place { actor.old.place ≡ First }
    ensures learns { Learns actor.old found actor.new result }
    ensures fits { (n : ℕ) → Fits n actor.old → Fits n actor.new }
{
    let _ = found;
    if actor.writes.len() == 0 {
        return Err(WordRefusal::NoTransaction);
    }
    Ok(actor.first())
}

fn learn_to_store(actor: &mut Actor, i: usize, found: u64) -> Heard
    requires place { actor.old.place ≡ Store i }
    ensures learns { Learns actor.old found actor.new result }
    ensures fits { (n : ℕ) → Fits n actor.old → Fits n actor.new }
{
    let _ = found;
    if i < actor.writes.len() {
        Ok(actor.store(i))
    } else {
        Err(WordRefusal::NoTransaction)
    }
}

fn learn_to_release(actor: &mut Actor, found: u64) -> Heard
    requires place { actor.old.place ≡ Release }
    ensures learns { Learns actor.old found actor.new result }
    ensures fits { (n : ℕ) → Fits n actor.old → Fits n actor.new }
{
    let _ = found;
    if actor.held.is_empty() {
        return Err(WordRefusal::NoTransaction);
    }
    Ok(actor.release())
}

fn learn_to_undo(actor: &mut Actor, found: u64) -> Heard
    requires place { actor.old.place ≡ Undo }
    ensures learns { Learns actor.old found actor.new result }
    ensures fits { (n : ℕ) → Fits n actor.old → Fits n actor.new }
{
    let _ = found;
    if actor.held.is_empty() {
        return Err(WordRefusal::NoTransaction);
    }
    Ok(actor.undo())
}

/// The actor's step was taken, and found this number. A store finds none that anybody learns. A load takes no room but for the read that it
/// answers.
#[inline(always)]
pub(crate) fn learn(actor: &mut Actor, found: u64) -> Heard
    requires fits { (n : ℕ) × Fits n actor.old }
    requires clock { HasClock found actor.old }
    ensures learns { Learns actor.old found actor.new result }
    ensures fits { (n : ℕ) → Fits n actor.old → Fits n actor.new }
    ensures room { IsLoad actor.old.place → KeepsRoom actor.old actor.new }
{
    match actor.place {
        Place::Begin => actor.begin(found),
        Place::Look(location) => actor.look(location, found),
        Place::Fetch(location, version) => actor.fetch(location, version, found),
        Place::Again(location, version, value) => actor.again(location, version, value, found),
        Place::Lock(i) => learn_to_lock(actor, i, found),
        Place::Take(location, version, i) => learn_to_take(actor, location, version, i, found),
        Place::Check(i) => learn_to_check(actor, i, found),
        Place::First => learn_first(actor, found),
        Place::Store(i) => learn_to_store(actor, i, found),
        Place::Release => learn_to_release(actor, found),
        Place::Undo => learn_to_undo(actor, found),
        Place::Leave => {
            actor.place = Place::Idle;
            Ok(Some(WordAnswer::Ended))
        }
        Place::Close => {
            actor.place = Place::Idle;
            Ok(Some(WordAnswer::Ended))
        }
        Place::Idle => Err(WordRefusal::NoTransaction),
        Place::Open => Err(WordRefusal::NoTransaction),
        Place::Broken => Err(WordRefusal::NoTransaction),
    }
}
