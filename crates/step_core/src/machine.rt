//! The cells, the actors and the history.
//!
//! These are plain fields, which a method may leave half changed; [`crate::words`] is what callers see.
ghost use Rattle.std.specs.Prelude.{◌≡◌, ◌+◌, ◌^◌, ◌<◌, ◌≤◌, true, false, length, slice_get, Some, None, IsOk, OnOk, OnErr, IfOk, IfErr};
ghost use Rattle.std.specs.Vec.{vec_len, vec_capacity};
ghost use Rattle.std.specs.VecDeque.{deque_len};
ghost use Rattle.step_core.specs.Answers.{request_of};
ghost use Rattle.step_core.specs.Phases.{opens, takes_memory};
ghost use Rattle.step_core.specs.Shown.{shown, Steps, Asks, actor_in, snapshot_of, refusal_of};
ghost use Rattle.step_core.specs.Blank.{AreBlank, AreZero};
ghost use Rattle.step_core.specs.Sound.{Sound, At};
ghost use Rattle.step_core.specs.declared.actor.Actor.{Actor};
ghost use Rattle.step_core.specs.declared.answer.WordRefusal.TheVariants.{Memory as OutOfMemory};
ghost use Rattle.step_core.specs.declared.actor.Place.TheVariants.{First, Close};

use crate::actor::{Actor, Place};
use crate::answer::{WordAnswer, WordRefusal, WordRequest};
use crate::cells::Cells;
use crate::record::WordRecord;
use std::alloc::{AllocError, Global};

/// The last actor.
pub const LAST_ACTOR: usize = 64;

/// The seats of the actors 1 to 64, and one that no actor takes, so that an actor's number is its index.
pub const SEATS: usize = LAST_ACTOR + 1;

/// The cells, the actors and the history.
#[derive(Drop)]
pub struct Machine {
    pub cells: Cells,
    pub actors: Vec<Actor>,
    /// The committed transactions, as committed.
    pub history: Vec<WordRecord>,
}

/// As many actors without a transaction as there are seats. The allocation may fail.
pub fn seats(alloc: Global) -> Result<Vec<Actor>, AllocError>
    ensures count { IfOk result (λ v. length v.items ≡ SEATS) }
    ensures blank { IfOk result (λ v. AreBlank v.items) }
{
    let mut actors = Vec::with_capacity(alloc, SEATS)?;
    for i in 0..SEATS {
        actors.push_reserved(Actor::new(alloc));
    }
    Ok(actors)
}

/// So many lock words, all free at version 0. The allocation may fail.
pub fn zeros(alloc: Global, count: usize) -> Result<Vec<u64>, AllocError>
    ensures count { IfOk result (λ v. length v.items ≡ count) }
    ensures zero { IfOk result (λ v. AreZero v.items) }
{
    vec![in alloc; 0; count]
}

// Makes room for a record of each actor where a transaction is to begin. From there on one may come.
fn make_room(history: &mut Vec<WordRecord>, request: WordRequest) -> Result<(), AllocError>
    ensures items { history.new.items ≡ history.old.items }
    ensures len { vec_len history.new ≡ vec_len history.old }
    ensures capacity { vec_capacity history.old ≤ vec_capacity history.new }
    ensures room { OnOk result (opens (request_of request) ≡ true → vec_len history.new + SEATS ≤ vec_capacity history.new) }
    ensures served { takes_memory (request_of request) ≡ false → IsOk result }
{
    match request {
        WordRequest::Begin | WordRequest::BeginRead => history.reserve(SEATS),
        _ => Ok(()),
    }
}

impl Machine {
    /// The first value store, which commits.
    fn first(&mut self, a: usize) -> Result<Option<WordAnswer>, WordRefusal>
        requires sound { Sound self.old }
        requires actor { a < length self.old.actors.items }
        requires place { At self.old a First }
        requires some { (x : Actor) → slice_get self.old.actors.items a ≡ Some x → 0 < length x.writes.entries }
        ensures steps { Steps (shown self.old) a (shown self.new) result }
        ensures sound { Sound self.new }
    {
        let actor = &mut self.actors[a];
        let number = actor.wv;
        let answer = self.cells.first(actor);
        let calls = actor.take_ready();
        self.history.push_reserved(WordRecord {
            actor: a as u32,
            number,
            writes: true,
            calls,
        });
        answer
    }

    /// The load of the clock that commits a reader.
    fn close(&mut self, a: usize) -> Result<Option<WordAnswer>, WordRefusal>
        requires sound { Sound self.old }
        requires actor { a < length self.old.actors.items }
        requires place { At self.old a Close }
        ensures steps { Steps (shown self.old) a (shown self.new) result }
        ensures sound { Sound self.new }
    {
        let actor = &mut self.actors[a];
        let number = actor.rv;
        let answer = self.cells.close(actor);
        let calls = actor.take_ready();
        self.history.push_reserved(WordRecord {
            actor: a as u32,
            number,
            writes: false,
            calls,
        });
        answer
    }

    /// The next atomic step of an actor, and the answer to its request, if this step brings it. A commit joins the history. Refused like
    /// `Cells::step`.
    pub fn step(&mut self, a: usize) -> Result<Option<WordAnswer>, WordRefusal>
        requires sound { Sound self.old }
        requires actor { a < length self.old.actors.items }
        ensures steps { Steps (shown self.old) a (shown self.new) result }
        ensures sound { Sound self.new }
    {
        let place = self.actors[a].place;
        match place {
            Place::First => {
                if self.actors[a].writes.len() == 0 {
                    Err(WordRefusal::NoTransaction)
                } else {
                    self.first(a)
                }
            }
            Place::Close => self.close(a),
            _ => {
                let actor = &mut self.actors[a];
                self.cells.step(actor)
            }
        }
    }

    /// Why a request of an actor is refused, memory aside.
    pub fn refusal(&self, a: usize, request: WordRequest) -> Option<WordRefusal>
        requires seats { length self.now.actors.items ≡ SEATS }
        ensures { result ≡ refusal_of (shown self.now) a (request_of request) }
    {
        if a < 1 || a > LAST_ACTOR {
            return Some(WordRefusal::NoSuch);
        }
        let actor = &self.actors[a];
        actor.refusal(self.cells.values.len(), request)
    }

    /// The reading of the clock with which an actor's open transaction began.
    pub fn snapshot(&self, a: usize) -> Option<u64>
        requires actor { a < length self.now.actors.items }
        ensures { result ≡ snapshot_of (actor_in (shown self.now) a) (actor_in (shown self.now) a).place }
    {
        let actor = &self.actors[a];
        actor.snapshot()
    }

    /// A request of an actor, which changes its own record alone. `Memory` where an allocation fails, which changes nothing; what else may
    /// refuse it, `refusal` says before.
    pub fn ask(&mut self, a: usize, request: WordRequest) -> Result<Option<WordAnswer>, WordRefusal>
        requires sound { Sound self.old }
        requires allowed { refusal_of (shown self.old) a (request_of request) ≡ None }
        ensures asks { IfOk result (λ answer. Asks (shown self.old) a (request_of request) (shown self.new) answer) }
        ensures refused { IfErr result (λ refusal. refusal ≡ OutOfMemory) }
        ensures err { OnErr result (shown self.new ≡ shown self.old) }
        ensures served { takes_memory (request_of request) ≡ false → IsOk result }
        ensures sound { Sound self.new }
    {
        if let Err(_) = make_room(&mut self.history, request) {
            return Err(WordRefusal::Memory);
        }
        let locations = self.cells.values.len();
        let actor = &mut self.actors[a];
        actor.ask(locations, request)
    }
}
