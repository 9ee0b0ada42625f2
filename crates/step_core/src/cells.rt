//! The clock, the lock words and the values, and the atomic steps of an actor on them.
//!
//! A step finds one word, or changes one. What it makes of the actor is a method of [`Actor`]; here are the loads and the stores.
//! A contract speaks of every world of the machine that has these cells and this actor.
ghost use Rattle.std.specs.Prelude.{◌≡◌, ℕ, ◌+◌, ◌^◌, ◌<◌, ◌≤◌, length};
ghost use Rattle.std.specs.VecDeque.{deque_len};
ghost use Rattle.step_core.specs.CellSteps.{StepsOn, Grows, IsLike, HaveLength};
ghost use Rattle.step_core.specs.Sound.{Fits, IsLoad, Keeps, KeepsRoom, owed, due};
ghost use Rattle.step_core.specs.declared.actor.Place.TheVariants.{Idle, Begin, Look, Fetch, Again, Lock, Take, Check, First, Store};
ghost use Rattle.step_core.specs.declared.actor.Place.TheVariants.{Release, Undo, Leave, Close};

use crate::actor::{Actor, Place};
use crate::answer::{WordAnswer, WordRefusal};

/// The clock, and a lock word and a value for each location.
#[derive(Drop)]
pub struct Cells {
    pub clock: u64,
    pub locks: Vec<u64>,
    pub values: Vec<u64>,
}

impl Cells {
    /// The load of the clock that begins a transaction.
    fn begin(&self, actor: &mut Actor) -> Result<Option<WordAnswer>, WordRefusal>
        requires place { actor.old.place ≡ Begin }
        ensures steps { StepsOn self.now actor.old self.now actor.new result }
        ensures fits { (n : ℕ) → Fits n actor.old → Fits n actor.new }
        ensures grows { Grows self.now actor.old self.now actor.new }
        ensures due { due actor.new.place ≤ 1 }
    {
        let clock = self.clock;
        actor.begin(clock)
    }

    /// The first load of a lock word.
    fn look(&self, actor: &mut Actor, location: u32) -> Result<Option<WordAnswer>, WordRefusal>
        requires place { actor.old.place ≡ Look location }
        requires inside { location < length self.now.locks.items }
        ensures steps { StepsOn self.now actor.old self.now actor.new result }
        ensures keeps { Keeps actor.old actor.new }
        ensures room { KeepsRoom actor.old actor.new }
    {
        let word = self.locks[location as usize];
        actor.look(location, word)
    }

    /// The load of a value.
    fn fetch(
        &self,
        actor: &mut Actor,
        location: u32,
        version: u64,
    ) -> Result<Option<WordAnswer>, WordRefusal>
        requires place { actor.old.place ≡ Fetch location version }
        requires inside { location < length self.now.values.items }
        ensures steps { StepsOn self.now actor.old self.now actor.new result }
        ensures keeps { Keeps actor.old actor.new }
        ensures room { KeepsRoom actor.old actor.new }
    {
        let value = self.values[location as usize];
        actor.fetch(location, version, value)
    }

    /// The second load of a lock word.
    fn again(
        &self,
        actor: &mut Actor,
        location: u32,
        version: u64,
        value: u64,
    ) -> Result<Option<WordAnswer>, WordRefusal>
        requires fits { Fits (length self.now.locks.items) actor.old }
        requires place { actor.old.place ≡ Again location version value }
        ensures steps { StepsOn self.now actor.old self.now actor.new result }
        ensures keeps { Keeps actor.old actor.new }
        ensures room { KeepsRoom actor.old actor.new }
    {
        let word = self.locks[location as usize];
        actor.again(location, version, value, word)
    }

    /// The load of a lock word of the write set.
    fn to_lock(&self, actor: &mut Actor, i: usize) -> Result<Option<WordAnswer>, WordRefusal>
        requires fits { Fits (length self.now.locks.items) actor.old }
        requires place { actor.old.place ≡ Lock i }
        requires inside { i < length actor.old.writes.entries }
        requires next { i + 1 < 2 ^ 64 }
        ensures steps { StepsOn self.now actor.old self.now actor.new result }
        ensures keeps { Keeps actor.old actor.new }
    {
        let location = actor.write_at(i).0;
        let word = self.locks[location as usize];
        actor.to_lock(location, i, word)
    }

    /// The step of the clock.
    fn stamp(&mut self, actor: &mut Actor, i: usize) -> Result<Option<WordAnswer>, WordRefusal>
        requires place { actor.old.place ≡ Lock i }
        requires outside { length actor.old.writes.entries ≤ i }
        requires clock { self.old.clock + 1 < 2 ^ 63 }
        ensures steps { StepsOn self.old actor.old self.new actor.new result }
        ensures fits { (n : ℕ) → Fits n actor.old → Fits n actor.new }
        ensures grows { Grows self.old actor.old self.new actor.new }
        ensures due { due actor.new.place ≤ 1 }
        ensures same { (self.new.locks ≡ self.old.locks) × (self.new.values ≡ self.old.values) }
    {
        let clock = self.clock + 1;
        self.clock = clock;
        actor.stamp(clock)
    }

    /// The compare_exchange of a lock word.
    fn take(
        &mut self,
        actor: &mut Actor,
        location: u32,
        version: u64,
        i: usize,
    ) -> Result<Option<WordAnswer>, WordRefusal>
        requires fits { Fits (length self.old.locks.items) actor.old }
        requires place { actor.old.place ≡ Take location version i }
        ensures steps { StepsOn self.old actor.old self.new actor.new result }
        ensures keeps { Keeps actor.old actor.new }
        ensures shape { IsLike self.old self.new }
    {
        let word = self.locks[location as usize];
        if word == 2 * version {
            actor.take(location, version, i);
            self.locks[location as usize] = word + 1;
            Ok(None)
        } else {
            actor.place = Place::Broken;
            Err(WordRefusal::Busy { location, word })
        }
    }

    /// The load of a lock word of the read set.
    fn check(&self, actor: &mut Actor, i: usize) -> Result<Option<WordAnswer>, WordRefusal>
        requires fits { Fits (length self.now.locks.items) actor.old }
        requires place { actor.old.place ≡ Check i }
        requires inside { i < length actor.old.reads.entries }
        requires next { i + 1 < 2 ^ 64 }
        ensures steps { StepsOn self.now actor.old self.now actor.new result }
        ensures keeps { Keeps actor.old actor.new }
    {
        let location = actor.read_at(i).0;
        let word = self.locks[location as usize];
        actor.check(location, i, word)
    }

    /// The load of the clock that ends an aborted transaction.
    fn leave(&self, actor: &mut Actor) -> Result<Option<WordAnswer>, WordRefusal>
        requires place { actor.old.place ≡ Leave }
        ensures steps { StepsOn self.now actor.old self.now actor.new result }
        ensures keeps { Keeps actor.old actor.new }
    {
        actor.place = Place::Idle;
        Ok(Some(WordAnswer::Ended))
    }

    /// The load of the clock that commits a transaction without writes. It is never refused.
    pub fn close(&self, actor: &mut Actor) -> Result<Option<WordAnswer>, WordRefusal>
        requires place { actor.old.place ≡ Close }
        ensures steps { StepsOn self.now actor.old self.now actor.new result }
        ensures keeps { Keeps actor.old actor.new }
        ensures rest { (actor.new.place ≡ Idle) × (actor.new.ready ≡ actor.old.ready) }
    {
        actor.place = Place::Idle;
        Ok(Some(WordAnswer::Ended))
    }

    /// The first value store, which commits. It is never refused.
    pub fn first(&mut self, actor: &mut Actor) -> Result<Option<WordAnswer>, WordRefusal>
        requires fits { Fits (length self.old.locks.items) actor.old }
        requires same { length self.old.values.items ≡ length self.old.locks.items }
        requires place { actor.old.place ≡ First }
        requires some { 0 < length actor.old.writes.entries }
        ensures steps { StepsOn self.old actor.old self.new actor.new result }
        ensures keeps { Keeps actor.old actor.new }
        ensures shape { IsLike self.old self.new }
        ensures rest { (actor.new.place ≡ Store 1) × (actor.new.ready ≡ actor.old.ready) }
    {
        let entry = actor.write_at(0);
        let answer = actor.first();
        self.values[entry.0 as usize] = entry.1;
        Ok(answer)
    }

    /// The next value store.
    fn store(&mut self, actor: &mut Actor, i: usize) -> Result<Option<WordAnswer>, WordRefusal>
        requires fits { Fits (length self.old.locks.items) actor.old }
        requires same { length self.old.values.items ≡ length self.old.locks.items }
        requires place { actor.old.place ≡ Store i }
        requires inside { i < length actor.old.writes.entries }
        requires next { i + 1 < 2 ^ 64 }
        ensures steps { StepsOn self.old actor.old self.new actor.new result }
        ensures keeps { Keeps actor.old actor.new }
        ensures shape { IsLike self.old self.new }
    {
        let (location, value) = actor.write_at(i);
        let answer = actor.store(i);
        self.values[location as usize] = value;
        Ok(answer)
    }

    /// The store of the next lock word with the new version.
    fn release(&mut self, actor: &mut Actor) -> Result<Option<WordAnswer>, WordRefusal>
        requires fits { Fits (length self.old.locks.items) actor.old }
        requires place { actor.old.place ≡ Release }
        requires held { 0 < deque_len actor.old.held }
        ensures steps { StepsOn self.old actor.old self.new actor.new result }
        ensures keeps { Keeps actor.old actor.new }
        ensures shape { IsLike self.old self.new }
    {
        let location = actor.held[0].0;
        let word = 2 * actor.wv;
        let answer = actor.release();
        self.locks[location as usize] = word;
        Ok(answer)
    }

    /// The store of the next old lock word.
    fn undo(&mut self, actor: &mut Actor) -> Result<Option<WordAnswer>, WordRefusal>
        requires fits { Fits (length self.old.locks.items) actor.old }
        requires place { actor.old.place ≡ Undo }
        requires held { 0 < deque_len actor.old.held }
        ensures steps { StepsOn self.old actor.old self.new actor.new result }
        ensures keeps { Keeps actor.old actor.new }
        ensures shape { IsLike self.old self.new }
    {
        let entry = actor.held[0];
        let answer = actor.undo();
        self.locks[entry.0 as usize] = 2 * entry.1;
        Ok(answer)
    }
    /// The next atomic step of an actor, and the answer to its request, if this step brings it. `Exhausted`, `Moved`, `Busy` and `Invalid`
    /// as TL2 has them (DISC 2006), which the actor's place says; `NoTransaction` where there is no step to take, which changes nothing.
    pub fn step(&mut self, actor: &mut Actor) -> Result<Option<WordAnswer>, WordRefusal>
        requires fits { Fits (length self.old.locks.items) actor.old }
        requires same { length self.old.values.items ≡ length self.old.locks.items }
        requires clock { self.old.clock + owed actor.old.place < 2 ^ 63 }
        ensures steps { StepsOn self.old actor.old self.new actor.new result }
        ensures fits { (n : ℕ) → Fits n actor.old → Fits n actor.new }
        ensures shape { HaveLength self.old self.new }
        ensures grows { Grows self.old actor.old self.new actor.new }
        ensures due { due actor.new.place ≤ due actor.old.place }
        ensures room { IsLoad actor.old.place → KeepsRoom actor.old actor.new }
    {
        let place = actor.place;
        match place {
            Place::Begin => self.begin(actor),
            Place::Look(location) => self.look(actor, location),
            Place::Fetch(location, version) => self.fetch(actor, location, version),
            Place::Again(location, version, value) => self.again(actor, location, version, value),
            Place::Lock(i) => {
                if i < actor.writes.len() {
                    self.to_lock(actor, i)
                } else {
                    self.stamp(actor, i)
                }
            }
            Place::Take(location, version, i) => self.take(actor, location, version, i),
            Place::Check(i) => {
                if i < actor.reads.len() {
                    self.check(actor, i)
                } else {
                    Err(WordRefusal::NoTransaction)
                }
            }
            Place::First => {
                if actor.writes.len() == 0 {
                    Err(WordRefusal::NoTransaction)
                } else {
                    self.first(actor)
                }
            }
            Place::Store(i) => {
                if i < actor.writes.len() {
                    self.store(actor, i)
                } else {
                    Err(WordRefusal::NoTransaction)
                }
            }
            Place::Release => {
                if actor.held.is_empty() {
                    Err(WordRefusal::NoTransaction)
                } else {
                    self.release(actor)
                }
            }
            Place::Undo => {
                if actor.held.is_empty() {
                    Err(WordRefusal::NoTransaction)
                } else {
                    self.undo(actor)
                }
            }
            Place::Leave => self.leave(actor),
            Place::Close => self.close(actor),
            Place::Idle => Err(WordRefusal::NoTransaction),
            Place::Open => Err(WordRefusal::NoTransaction),
            Place::Broken => Err(WordRefusal::NoTransaction),
        }
    }
}
