//! The parts of a world.
ghost use Rattle.std.specs.Prelude.{◌≡◌, ◌≢◌, IfErr, IfOk, IsOk, length};
ghost use Rattle.seq_model.specs.Refusals.{IsNoSuchOrTooLong};
ghost use Rattle.actor_parts.specs.Openings.{IsWithin, world_of};
ghost use Rattle.step_world.specs.Parts.{HasWorld, IsWorld};
ghost use Rattle.seq_model.specs.Contents.{Contents};
ghost use Rattle.replay_log.specs.Seats.{World};
ghost use Rattle.replay_log.specs.Worlds.{state};
ghost use Rattle.step_world.specs.Reached.{IsReached};
ghost use Rattle.step_world.specs.Traces.{IsSerialTrace, IsTraceOf};

use crate::opening::actors;
use crate::trace::{Ended, Trace, copy_of_aborted, copy_of_records, half_done};
use actor_laws::limit_laws::bases_are_within_limits;
use actor_parts::{Blocks, Table, lay};
use replay_log::laws::{numbers, serial_worlds, traces};
use seq_model::{Items, Memory, Record, Refusal, Shape, State, Value};
use std::alloc::Global;
use tx_actor::TxActor;

/// The parts of a world.
#[derive(Drop)]
pub struct Parts<V> {
    pub table: Table<V>,
    /// How the locations are laid out.
    pub blocks: Blocks,
    /// The actors 1 to 64, each at the position before its number.
    pub actors: Vec<TxActor<V>>,
    /// The committed transactions with their actors, in commit order.
    pub records: Vec<(u32, Record<V>)>,
    /// The aborted transactions, in the order of their ending.
    pub aborted: Vec<Ended<V>>,
}

impl<V: Value> Parts<V> {
    /// The parts of a world that opens with this shape on this state.
    ///
    /// `NoSuch` where the shape has not as many numbers of stripes as there are collections. `TooLong` where the clock is above its
    /// limit, there are more than 256 collections or more than 1,048,576 locations, or a collection can't have so many stripes. What
    /// was moved in is dropped.
    pub fn open(alloc: Global, shape: &Shape, state: State<V>) -> Result<Parts<V>, Refusal>
        ensures world { IfOk result (λ parts. IsWorld parts (world_of shape.now.stripes shape.now.clock state)) }
        ensures reached { IsOk result → IsReached state (world_of shape.now.stripes shape.now.clock state) }
        ensures refused { IfErr result (λ refusal. IsNoSuchOrTooLong refusal (length shape.now.stripes ≢ length state.held)
            (IsWithin shape.now.stripes shape.now.clock state)) }
        ensures fits { IsOk result → (length shape.now.stripes ≡ length state.held) × IsWithin shape.now.stripes shape.now.clock state }
    {
        let stripes = shape.stripes.as_slice();
        if stripes.len() != state.held().len() {
            return Err(Refusal::NoSuch);
        }
        let laid = lay(alloc, state.words().len(), stripes, state.held());
        let table = Table::open(alloc, shape, state)?;
        let Ok(blocks) = laid else {
            return Err(Refusal::Memory);
        };
        let actors = actors(alloc)?;
        Ok(Parts {
            table,
            blocks,
            actors,
            records: Vec::new(alloc),
            aborted: Vec::new(alloc),
        })
    }

    /// What words and collections hold.
    fn state(&self) -> Result<State<V>, Memory>
        requires { HasWorld self.now }
        ensures { IfOk result (λ shown. (opening : Contents V) (w : World V) → IsReached opening w → IsWorld self.now w → state w ≡ shown) }
    {
        bases_are_within_limits::<V>();
        match self.table.state(self.blocks.words() as usize) {
            Ok(state) => Ok(state),
            Err(refusal) => match refusal {
                Refusal::Memory => Err(Memory),
                _ => unreachable!(),
            },
        }
    }

    /// The result of the events so far. `Memory` where an allocation for the copies fails.
    pub fn trace(&self) -> Result<Trace<V>, Memory>
        requires { HasWorld self.now }
        ensures trace { IfOk result (λ trace. (opening : Contents V) (w : World V) → IsReached opening w → IsWorld self.now w →
            IsTraceOf w trace) }
        ensures serial { IfOk result (λ trace. (opening : Contents V) (w : World V) → IsReached opening w → IsWorld self.now w →
            IsSerialTrace opening trace) }
    {
        serial_worlds::<V>();
        traces::<V>();
        numbers::<V>();
        let alloc = *self.records.allocator();
        let state = self.state()?;
        let half = half_done(alloc, &self.actors, &self.records)?;
        let records = copy_of_records(alloc, &self.records)?;
        let aborted = copy_of_aborted(alloc, &self.aborted)?;
        Ok(Trace {
            records: Items::from_vec(records),
            aborted: Items::from_vec(aborted),
            state,
            half: Items::from_vec(half),
        })
    }

    /// The result of all events. The records and the aborted transactions are moved, not copied. `Memory` where an allocation fails; the
    /// parts are gone either way.
    pub fn into_trace(self) -> Result<Trace<V>, Memory>
        requires { HasWorld self }
        ensures trace { IfOk result (λ trace. (opening : Contents V) (w : World V) → IsReached opening w → IsWorld self w →
            IsTraceOf w trace) }
        ensures serial { IfOk result (λ trace. (opening : Contents V) (w : World V) → IsReached opening w → IsWorld self w →
            IsSerialTrace opening trace) }
    {
        serial_worlds::<V>();
        traces::<V>();
        numbers::<V>();
        let alloc = *self.records.allocator();
        let state = self.state()?;
        let half = half_done(alloc, &self.actors, &self.records)?;
        Ok(Trace {
            records: Items::from_vec(self.records),
            aborted: Items::from_vec(self.aborted),
            state,
            half: Items::from_vec(half),
        })
    }
}
