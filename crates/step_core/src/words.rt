//! The running words, as callers see them.
use crate::actor::CLOCK_LIMIT;
use crate::answer::{WordAnswer, WordRefusal, WordRequest};
use crate::cells::Cells;
use crate::machine::{Machine, seats, zeros};
use crate::record::WordRecord;
use std::alloc::Global;
use std::marker::Model;

/// The most locations.
pub const TABLE_LIMIT: usize = 1_048_576;

/// A clock, a table of words, and 64 actors that run transactions on them, one atomic step at a time.
#[derive(Drop)]
pub struct Words {
    machine: Machine,
}

impl Model for Words {
    ghost use Rattle.step_core.specs.Shown.{Shown};

    ghost Value = { Shown };

    ghost use Rattle.step_core.specs.Opaque.{shown_in, IsHeld};

    ghost view = { shown_in };

    ghost invariant = { IsHeld };
}

impl Words {
    ghost use Rattle.std.specs.Prelude.{◌≡◌, ◌≢◌, ℕ, ◌<◌, ◌≤◌, length, map, get_or, [], true, false, None, IsOk, OnOk, OnErr, IfOk, IfErr};
    ghost use Rattle.std.specs.Prelude.{IfSome, replicate};
    ghost use Rattle.tx_machine.specs.World.{start};
    ghost use Rattle.tx_machine.specs.Progress.{step_limit};
    ghost use Rattle.step_core.specs.Answers.{request_of};
    ghost use Rattle.step_core.specs.Phases.{takes_memory};
    ghost use Rattle.step_core.specs.Shown.{Steps, Asks, Shows, Reached, record_of, actor_in, refusal_of, IsRefusal, snapshot_of};
    ghost use Rattle.step_core.specs.Opaque.{Opaque, AreNumbered, Saw, KeepsOthers, BeginsAbove, HasCause, Nears, steps_due};
    ghost use Rattle.step_core.specs.Openings.{opening_refusal};
    ghost use Rattle.step_core.specs.declared.answer.WordRefusal.TheVariants.{TooLong};

    /// A table of these values, each with a free lock word of version 0, a clock, and no history.
    ///
    /// `TooLong` for a clock above 2^62 or more than 1,048,576 values. The values are dropped where it
    /// is refused.
    pub fn new(alloc: Global, clock: u64, values: Vec<u64>) -> Result<Words, WordRefusal>
        ensures shows { IfOk result (λ words. Shows words (start clock (λ l. get_or values.items l 0))) }
        ensures words { IfOk result (λ words. words.values ≡ values.items) }
        ensures history { IfOk result (λ words. words.history ≡ []) }
        ensures allowed { OnOk result (opening_refusal clock (length values.items) ≡ None) }
        ensures refused { IfErr result (λ refusal. IsRefusal (opening_refusal clock (length values.items)) refusal) }
        ensures reached { IfOk result Reached }
    {
        if clock > CLOCK_LIMIT || values.len() > TABLE_LIMIT {
            return Err(WordRefusal::TooLong);
        }
        let locks = match zeros(alloc, values.len()) {
            Ok(locks) => locks,
            Err(_) => return Err(WordRefusal::Memory),
        };
        let actors = match seats(alloc) {
            Ok(actors) => actors,
            Err(_) => return Err(WordRefusal::Memory),
        };
        Ok(Words {
            machine: Machine {
                cells: Cells {
                    clock,
                    locks,
                    values,
                },
                actors,
                history: Vec::new(alloc),
            },
        })
    }

    /// Asks an actor for something, and returns the answer where it takes no step.
    ///
    /// `NoSuch` for an actor that is not 1 to 64, `NotIdle` where a request is unanswered or a begin is asked inside a transaction,
    /// `NoTransaction` for another request that the phase lacks, `NoSuch` for a location that there is not and for a write of a declared
    /// reader, `TooLong` for one more than 4,096 in a set, in this order, and `Memory` where none of these holds and an allocation fails. A
    /// refused request changes nothing. Release, Cancel and Abort take no memory, so what has stored a value can always continue, and what
    /// holds a lock can always give it back.
    pub fn ask(
        &mut self,
        actor: u32,
        request: WordRequest,
    ) -> Result<Option<WordAnswer>, WordRefusal>
        ensures asks { IfOk result (λ answer. Asks self.old actor (request_of request) self.new answer) }
        ensures allowed { OnOk result (refusal_of self.old actor (request_of request) ≡ None) }
        ensures refused { IfErr result (λ refusal. IsRefusal (refusal_of self.old actor (request_of request)) refusal) }
        ensures err { OnErr result (self.new ≡ self.old) }
        ensures served { refusal_of self.old actor (request_of request) ≡ None → takes_memory (request_of request) ≡ false → IsOk result }

        // A declared reader may read any number of locations.
        ensures unlimited { (actor_in self.old actor).declared ≡ true → IfErr result (λ refusal. refusal ≢ TooLong) }

        // A request is answered at once or by one of its own steps, fewer than 1,000,000.
        ensures due { IfOk result (λ answer. answer ≡ None → 0 < steps_due self.new actor) }
        ensures soon { steps_due self.new actor < step_limit }
        ensures reached { Reached self.new }
    {
        let a = actor as usize;
        if let Some(refusal) = self.machine.refusal(a, request) {
            return Err(refusal);
        }
        self.machine.ask(a, request)
    }

    /// The next atomic step of an actor, and the answer to its request, if this step brings it.
    ///
    /// `Moved`, `Busy` and `Invalid` name the location at which the actor stood and the lock word that this step found there, `Exhausted`
    /// the clock; `NoTransaction` where there is no step to take. It takes no memory.
    pub fn step(&mut self, actor: u32) -> Result<Option<WordAnswer>, WordRefusal>
        ensures steps { Steps self.old actor self.new result }
        ensures others { KeepsOthers self.old actor self.new }
        ensures begins { BeginsAbove self.old actor self.new }
        ensures nearer { Nears self.old actor self.new result }
        ensures cause { HasCause self.old actor result }
        ensures reached { Reached self.new }
    {
        let a = actor as usize;
        if a >= self.machine.actors.len() {
            return Err(WordRefusal::NoTransaction);
        }
        self.machine.step(a)
    }

    /// The committed transactions, in the order in which they were committed.
    pub fn history(&self) -> &[WordRecord]
        ensures records { map record_of result.now ≡ self.now.history }
        ensures opaque { Opaque self.now }
        ensures numbered { AreNumbered self.now }
    {
        &self.machine.history
    }

    /// The words, as they stand.
    pub fn values(&self) -> &[u64]
        ensures { result.now ≡ self.now.values }
    {
        &self.machine.cells.values
    }

    /// Whether an actor's transaction, or the one that it is to begin, is that of a declared reader.
    pub fn is_declared(&self, actor: u32) -> bool
        ensures { result ≡ (actor_in self.now actor).declared }
    {
        let a = actor as usize;
        match self.machine.actors.get(a) {
            Some(actor) => actor.declared,
            None => false,
        }
    }

    /// The reading of the clock with which an actor's open transaction began.
    pub fn snapshot(&self, actor: u32) -> Option<u64>
        ensures is { result ≡ snapshot_of (actor_in self.now actor) (actor_in self.now actor).place }
        ensures saw { IfSome result (λ rv. Saw self.now actor rv) }
    {
        let a = actor as usize;
        if a < self.machine.actors.len() {
            self.machine.snapshot(a)
        } else {
            None
        }
    }
}
