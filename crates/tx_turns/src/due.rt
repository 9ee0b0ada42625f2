//! The atomic step of the words that is next for an actor.
ghost use Rattle.std.specs.Prelude.{◌≡◌, ℕ, ◌<◌, length};
ghost use Rattle.std.specs.VecDeque.{deque_len};
ghost use Rattle.tx_machine.specs.World.{plan};
ghost use Rattle.step_core.specs.Shown.{actor_of};
ghost use Rattle.step_core.specs.Sound.{Fits};
ghost use Rattle.step_core.specs.declared.actor.Place.TheVariants.{Check, First, Lock, Release, Store, Take, Undo};
ghost use Rattle.tx_turns.specs.NextStep.{IsDeed, IsWithin};

use step_core::{Actor, Place};

/// One load, store, compare_exchange or fetch_add of one word.
#[derive(Clone, Copy)]
pub(crate) enum NextStep {
    /// There is no step to take.
    Nothing,
    LoadClock,
    AddToClock,
    LoadLock(u32),
    LoadValue(u32),
    /// The lock of a location, whose lock word was found so.
    Lock(u32, u64),
    StoreValue(u32, u64),
    StoreLock(u32, u64),
}

fn due_to_lock(actor: &Actor, i: usize) -> NextStep
    requires place { actor.now.place ≡ Lock i }
    ensures deed { IsDeed result (plan (actor_of actor.now) (actor_of actor.now).place) }
    ensures inside { (n : ℕ) → Fits n actor.now → IsWithin n result }
{
    if i < actor.writes.len() {
        NextStep::LoadLock(actor.write_at(i).0)
    } else {
        NextStep::AddToClock
    }
}

fn due_to_check(actor: &Actor, i: usize) -> NextStep
    requires place { actor.now.place ≡ Check i }
    ensures deed { IsDeed result (plan (actor_of actor.now) (actor_of actor.now).place) }
    ensures inside { (n : ℕ) → Fits n actor.now → IsWithin n result }
{
    if i < actor.reads.len() {
        NextStep::LoadLock(actor.read_at(i).0)
    } else {
        NextStep::Nothing
    }
}

fn due_first(actor: &Actor) -> NextStep
    requires place { actor.now.place ≡ First }
    ensures deed { IsDeed result (plan (actor_of actor.now) (actor_of actor.now).place) }
    ensures inside { (n : ℕ) → Fits n actor.now → IsWithin n result }
{
    if actor.writes.len() == 0 {
        return NextStep::Nothing;
    }
    let (location, value) = actor.write_at(0);
    NextStep::StoreValue(location, value)
}

fn due_to_store(actor: &Actor, i: usize) -> NextStep
    requires fits { (n : ℕ) × Fits n actor.now }
    requires place { actor.now.place ≡ Store i }
    ensures deed { IsDeed result (plan (actor_of actor.now) (actor_of actor.now).place) }
    ensures inside { (n : ℕ) → Fits n actor.now → IsWithin n result }
{
    if i < actor.writes.len() {
        let (location, value) = actor.write_at(i);
        NextStep::StoreValue(location, value)
    } else {
        NextStep::Nothing
    }
}

fn due_to_release(actor: &Actor) -> NextStep
    requires fits { (n : ℕ) × Fits n actor.now }
    requires place { actor.now.place ≡ Release }
    ensures deed { IsDeed result (plan (actor_of actor.now) (actor_of actor.now).place) }
    ensures inside { (n : ℕ) → Fits n actor.now → IsWithin n result }
{
    if actor.held.len() == 0 {
        return NextStep::Nothing;
    }
    NextStep::StoreLock(actor.held[0].0, 2 * actor.wv)
}

fn due_to_undo(actor: &Actor) -> NextStep
    requires fits { (n : ℕ) × Fits n actor.now }
    requires place { actor.now.place ≡ Undo }
    ensures deed { IsDeed result (plan (actor_of actor.now) (actor_of actor.now).place) }
    ensures inside { (n : ℕ) → Fits n actor.now → IsWithin n result }
{
    if actor.held.len() == 0 {
        return NextStep::Nothing;
    }
    let (location, version) = actor.held[0];
    NextStep::StoreLock(location, 2 * version)
}

fn due_to_take(actor: &Actor, location: u32, version: u64, i: usize) -> NextStep
    requires fits { (n : ℕ) × Fits n actor.now }
    requires place { actor.now.place ≡ Take location version i }
    ensures deed { IsDeed result (plan (actor_of actor.now) (actor_of actor.now).place) }
    ensures inside { (n : ℕ) → Fits n actor.now → IsWithin n result }
{
    let _ = i;
    NextStep::Lock(location, 2 * version)
}

/// The atomic step that is next for an actor.
#[inline(always)]
pub(crate) fn next_step(actor: &Actor) -> NextStep
    requires fits { (n : ℕ) × Fits n actor.now }
    ensures deed { IsDeed result (plan (actor_of actor.now) (actor_of actor.now).place) }
    ensures inside { (n : ℕ) → Fits n actor.now → IsWithin n result }
{
    match actor.place {
        Place::Begin => NextStep::LoadClock,
        Place::Leave => NextStep::LoadClock,
        Place::Close => NextStep::LoadClock,
        Place::Look(location) => NextStep::LoadLock(location),
        Place::Fetch(location, _) => NextStep::LoadValue(location),
        Place::Again(location, _, _) => NextStep::LoadLock(location),
        Place::Lock(i) => due_to_lock(actor, i),
        Place::Take(location, version, i) => due_to_take(actor, location, version, i),
        Place::Check(i) => due_to_check(actor, i),
        Place::First => due_first(actor),
        Place::Store(i) => due_to_store(actor, i),
        Place::Release => due_to_release(actor),
        Place::Undo => due_to_undo(actor),
        Place::Idle => NextStep::Nothing,
        Place::Open => NextStep::Nothing,
        Place::Broken => NextStep::Nothing,
    }
}
