//! The words, the gates and the bases of a world, and one atomic step on them.
ghost use Rattle.std.specs.Prelude.{◌≡◌, ◌≢◌, ℕ, Bool, true, false, ◌+◌, ◌^◌, ◌<◌, ◌≤◌, List, ◌∷◌, [], All, IfErr, IfOk, IsOk, Some};
ghost use Rattle.std.specs.Prelude.{length, map, slice_get, slice_index, take, ◌⊎◌};
ghost use Rattle.seq_model.specs.declared.event.Event.{Event};
ghost use Rattle.seq_model.specs.declared.event.Event.TheVariants.{Step};
ghost use Rattle.seq_model.specs.declared.held.Held.{Held};
ghost use Rattle.replay_log.specs.Base.{IsPreparedFor, editions_of, held_of, locations_of, shown_of, stripes_of};
ghost use Rattle.replay_log.specs.Contents.{Block, HaveStripes, block_of};
ghost use Rattle.replay_log.specs.Worlds.{happens, opened, run};
ghost use Rattle.actor_laws.specs.Bases.{IsBaseOf, log_changes, log_locations};
ghost use Rattle.actor_laws.specs.Gates.{GoesHome};
ghost use Rattle.tx_machine.specs.Boosted.{TakeGate, PutGate, is_actor, is_none, is_committing};
ghost use Rattle.replay_log.specs.Seats.{World, acted, actor_of, moves, word_notice};
ghost use Rattle.step_core.specs.Answers.{result_of};
ghost use Rattle.step_core.specs.CellSteps.{Grows, HaveLength};
ghost use Rattle.step_core.specs.Shown as words;
ghost use Rattle.step_core.specs.Sound.{Fits, IsLoad, KeepsRoom, owed, due};
ghost use Rattle.seq_model.specs.Calls.{IsWithinLimits};
ghost use Rattle.seq_model.specs.Refusals.{IsNoSuchOrTooLong};
ghost use Rattle.replay_log.specs.Collections.{Suit};
ghost use Rattle.actor_parts.specs.Openings.{HasShape, IsWithin, blocks_of, world_of};
ghost use Rattle.replay_log.specs.WorldTraces.{state};
ghost use Rattle.actor_parts.specs.States.{held_in};
ghost use Rattle.actor_parts.specs.Tables.{HasTable};

use crate::blocks::COLLECTION_LIMIT;
use crate::opening::{locations, open_bases};
use replay_log::{Base, Log};
use seq_model::{CLOCK_LIMIT, Held, Memory, Refusal, Shape, State, Value};
use std::alloc::Global;
use step_core::{Actor, Cells, WordAnswer, WordRefusal};

/// The words, the gates and the bases of a world.
#[derive(Drop)]
pub struct Table<V> {
    pub cells: Cells,
    /// Who holds the gate of each collection: an actor's number, or 0 where it is free.
    pub gates: Vec<u32>,
    pub bases: Vec<Base<V>>,
}

// What each base holds, as a copy.
fn held_by<V: Value>(alloc: Global, bases: &[Base<V>]) -> Result<Vec<Held<V>>, Memory>
    ensures { IfOk result (λ held. held.items ≡ map (λ base. held_of (shown_of base)) bases.now) }
{
    let mut held = Vec::with_capacity(alloc, bases.len())?;
    for base in bases {
        held.push(base.held()?)?;
    }
    Ok(held)
}

impl<V: Value> Table<V> {
    /// The table of a world that opens with these words and collections, and with this clock. Each collection is in as many stripes
    /// as the shape says, its gate is free, all lock words are of version 0, and a collection's words are 0, as its editions are.
    ///
    /// `NoSuch` where the shape has not as many numbers of stripes as there are collections. `TooLong` where the clock is above its
    /// limit, there are more than 256 collections or more than 1,048,576 locations, or a collection can't have so many stripes. What
    /// was moved in is dropped. Only where nothing of these is so, memory is asked for: once for the lock words, the values, the gates
    /// and the list of bases, and for each base.
    pub fn open(alloc: Global, shape: &Shape, state: State<V>) -> Result<Table<V>, Refusal>
        ensures opens { IfOk result (λ table. HasTable table (world_of shape.now.stripes shape.now.clock state)) }
        ensures shape { IfOk result (λ table. HasShape table (length state.words) (blocks_of shape.now.stripes state.held)) }
        ensures suits { IsOk result → Suit (blocks_of shape.now.stripes state.held) state.held }
        ensures stripes { IsOk result → HaveStripes (blocks_of shape.now.stripes state.held) }
        ensures refused { IfErr result (λ refusal. IsNoSuchOrTooLong refusal (length shape.now.stripes ≢ length state.held)
            (IsWithin shape.now.stripes shape.now.clock state)) }
        ensures fits { IsOk result → (length shape.now.stripes ≡ length state.held) × IsWithin shape.now.stripes shape.now.clock state }
    {
        let stripes = shape.stripes.as_slice();
        let collections = state.held().len();
        if stripes.len() != collections {
            return Err(Refusal::NoSuch);
        }
        if shape.clock > CLOCK_LIMIT || collections > COLLECTION_LIMIT {
            return Err(Refusal::TooLong);
        }
        let Some(count) = locations(state.words().len(), stripes, state.held()) else {
            return Err(Refusal::TooLong);
        };
        let (mut values, held) = state.into_parts();
        values.resize(count, 0)?;
        let locks = vec![in alloc; 0; count]?;
        let gates = vec![in alloc; 0; collections]?;
        let bases = open_bases(alloc, stripes, held)?;
        Ok(Table {
            cells: Cells {
                clock: shape.clock,
                locks,
                values,
            },
            gates,
            bases,
        })
    }

    /// What the first so many words and the bases hold, as copies: the state that a world with so many words shows.
    ///
    /// `TooLong` where what a base holds is beyond the limits of a state.
    pub fn state(&self, words: usize) -> Result<State<V>, Refusal>
        requires { words ≤ length self.now.cells.values.items }
        ensures shows { IfOk result (λ shown. (w : World V) → HasTable self.now w → HasShape self.now w.words w.blocks →
            HaveStripes w.blocks → w.words ≡ words → state w ≡ shown) }
        ensures within { IsOk result → All IsWithinLimits (held_in self.now) }
        ensures refused { IfErr result (λ refusal. (refusal ≡ Refusal.Memory)
            ⊎ ((refusal ≡ Refusal.TooLong) × ¬ All IsWithinLimits (held_in self.now))) }
    {
        let Ok(parts) = self.parts(words) else {
            return Err(Refusal::Memory);
        };
        State::new(parts.0, parts.1)
    }

    fn parts(&self, words: usize) -> Result<(Vec<u64>, Vec<Held<V>>), Memory>
        requires { words ≤ length self.now.cells.values.items }
        ensures words { IfOk result (λ parts. parts.0.items ≡ take words self.now.cells.values.items) }
        ensures held { IfOk result (λ parts. parts.1.items ≡ held_in self.now) }
    {
        let alloc = *self.gates.allocator();
        let first = Vec::from_slice(alloc, &self.cells.values[..words])?;
        let held = held_by(alloc, self.bases.as_slice())?;
        Ok((first, held))
    }

    /// The next atomic step of an actor on the words. Refused like `step_core::Cells::step`.
    pub fn step(&mut self, actor: &mut Actor) -> Result<Option<WordAnswer>, WordRefusal>
        requires fits { Fits (length self.old.cells.locks.items) actor.old }
        requires same { length self.old.cells.values.items ≡ length self.old.cells.locks.items }
        requires clock { self.old.cells.clock + owed actor.old.place < 2 ^ 63 }
        ensures steps { (w : World V) (a : ℕ) → HasTable self.old w → actor_of w a ≡ words.actor_of actor.old →
            let u = acted w (moves a ∷ []) in
            HasTable self.new u × (actor_of u a ≡ words.actor_of actor.new) × (result ≡ result_of (word_notice w a)) }
        ensures fits { (n : ℕ) → Fits n actor.old → Fits n actor.new }
        ensures shape { HaveLength self.old.cells self.new.cells }
        ensures grows { Grows self.old.cells actor.old self.new.cells actor.new }
        ensures due { due actor.new.place ≤ due actor.old.place }
        ensures room { IsLoad actor.old.place → KeepsRoom actor.old actor.new }
        ensures keeps { (n : ℕ) (bs : List Block) → HasShape self.old n bs → HasShape self.new n bs }
        ensures rest { (self.new.gates ≡ self.old.gates) × (self.new.bases ≡ self.old.bases) }
    {
        self.cells.step(actor)
    }

    /// The compare_exchange of a gate: whether it was free, and is the actor's now.
    pub fn take_gate(&mut self, k: usize, actor: u32) -> bool
        requires inside { k < length self.old.gates.items }
        requires actor { 0 < actor }
        ensures tries { (w : World V) → HasTable self.old w → is_committing (actor_of w actor).place ≡ false →
            HasTable self.new (acted w (TakeGate actor k ∷ [])) × (result ≡ is_none (w.boosted.gates k)) }
        ensures keeps { (n : ℕ) (bs : List Block) → HasShape self.old n bs → HasShape self.new n bs }
        ensures rest { (self.new.cells ≡ self.old.cells) × (self.new.bases ≡ self.old.bases)
            × (length self.new.gates.items ≡ length self.old.gates.items) }
    {
        let free = self.gates[k] == 0;
        if free {
            self.gates[k] = actor;
        }
        free
    }

    /// The store that puts a gate back which an actor holds, its base as it was.
    pub fn put_gate(&mut self, k: usize)
        requires inside { k < length self.old.gates.items }
        ensures puts { (w : World V) (a : ℕ) (which : ℕ → Bool) → HasTable self.old w → is_actor a (w.boosted.gates k) ≡ true →
            is_committing (actor_of w a).place ≡ false → HasTable self.new (acted w (PutGate a k which ∷ [])) }
        ensures keeps { (n : ℕ) (bs : List Block) → HasShape self.old n bs → HasShape self.new n bs }
        ensures rest { (self.new.cells ≡ self.old.cells) × (self.new.bases ≡ self.old.bases)
            × (length self.new.gates.items ≡ length self.old.gates.items) }
    {
        self.gates[k] = 0;
    }

    /// The store that puts a gate back with its base, into which the log of its holder's transaction is folded. There has to be room
    /// in the base for the log, so it takes no memory and is never refused.
    pub fn go_home(&mut self, k: usize, log: &mut Log<V>)
        requires inside { (k < length self.old.gates.items) × (k < length self.old.bases.items) }
        requires prepared { (base : Base V) → slice_get self.old.bases.items k ≡ Some base → IsPreparedFor log.old.changes base }
        requires within { (base : Base V) → slice_get self.old.bases.items k ≡ Some base →
            All (λ location. location < locations_of (stripes_of base) (shown_of base)) log.old.locations }
        requires below { (base : Base V) → slice_get self.old.bases.items k ≡ Some base →
            All (λ location. slice_index (editions_of base) location < 2 ^ 63) log.old.locations }
        ensures homes { (blocks : List Block) (clock : ℕ) (values : List ℕ) (held : List (Held V)) (events : List (Event V)) (a : ℕ)
            (b : Block) (before : Base V) → HaveStripes blocks →
            let w = run (opened blocks clock values held) events in
            let outcomes = (w.boosted.shadows a).outcomes in
            HasTable self.old w → GoesHome w a k → block_of w.blocks k ≡ Some b →
            slice_get self.old.bases.items k ≡ Some before → IsBaseOf b before →
            log.old.changes ≡ log_changes k b outcomes → log.old.locations ≡ log_locations k b outcomes →
            HasTable self.new (happens w (Step a)).0 }
        ensures keeps { (n : ℕ) (bs : List Block) → HasShape self.old n bs → HasShape self.new n bs }
        ensures rest { (self.new.cells ≡ self.old.cells) × (length self.new.gates.items ≡ length self.old.gates.items)
            × (length self.new.bases.items ≡ length self.old.bases.items) }
        ensures others { (j : ℕ) → j ≢ k → slice_get self.new.bases.items j ≡ slice_get self.old.bases.items j }
    {
        log.fold(&mut self.bases[k]);
        self.gates[k] = 0;
    }
}
