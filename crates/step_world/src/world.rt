//! A world, fed event by event.
ghost use Rattle.std.specs.Prelude.{◌≡◌, ◌≢◌, false, true, length, IfErr, IfOk, IsOk, OnErr, OnOk};
ghost use Rattle.seq_model.specs.Contents.{Contents};
ghost use Rattle.seq_model.specs.Refusals.{IsNoSuchOrTooLong};
ghost use Rattle.replay_log.specs.Seats.{World as PureWorld};
ghost use Rattle.replay_log.specs.WorldProgress.{AreSmall};
ghost use Rattle.replay_log.specs.WorldSerial.{IsSerial};
ghost use Rattle.actor_parts.specs.Openings.{IsWithin, world_of};
ghost use Rattle.step_world.specs.Feeds.{AllocatesNothing, Feeds, fed_all};
ghost use Rattle.step_world.specs.Parts.{IsWorld};
ghost use Rattle.step_world.specs.Reached.{IsReached};
ghost use Rattle.step_world.specs.Events.{IsFedTo};
ghost use Rattle.step_world.specs.Serial.{IsFrom, IsSerialFrom};
ghost use Rattle.step_world.specs.Traces.{IsSerialTrace, IsTraceOf};

use crate::parts::Parts;
use crate::trace::Trace;
use actor_laws::step_laws::others_stand;
use replay_log::laws::{calls, progress, refusals, serial_worlds, traces};
use seq_model::{Event, Memory, Notice, Refusal, Shape, State, Value};
use std::alloc::Global;
use std::marker::Model;

/// A world of transactions over words and collections.
///
/// Contracts see its parts, and whether an allocation failed in an event (`failed`): then every later call answers `Memory`.
pub struct World<V> {
    parts: Parts<V>,
    failed: bool,
}

impl<V: Drop> Drop for World<V> {
    fn drop(self) {
        let World {
            parts: _,
            failed: _,
        } = self;
    }
}

impl<V> Model for World<V> {
    ghost use Rattle.std.specs.Prelude.{◌≡◌, false};
    ghost use Rattle.std.specs.Coded.{codes, coded_ℕ, coded_option};
    ghost use Rattle.std.specs.FinMap as map;
    ghost use Rattle.std.specs.Ordering.{nat_cmp};
    ghost use Rattle.base_pq.specs.Conflicts as pq;
    ghost use Rattle.base_queue.specs.Conflicts as queue;
    ghost use Rattle.step_world.specs.Parts.{HasWorld};
    ghost use Rattle.step_world.specs.Worlds.{WorldShown};

    ghost Value = { WorldShown V };

    ghost coded = { Prim.hlevel (
      codes,
      map.code {R = nat_cmp} coded_ℕ V.code,
      map.code {R = nat_cmp} coded_ℕ (coded_option V.code),
      map.code {R = nat_cmp} coded_ℕ coded_ℕ,
      pq.shown_code,
      queue.shown_code,
    ) };

    ghost view = { λ a. record { failed = a.failed; parts = a.parts } };

    ghost invariant = { λ a. a.failed ≡ false → HasWorld a.parts };
}

impl<V: Value> World<V> {
    /// Opens a world of this shape on this state.
    ///
    /// `NoSuch` where the shape has not as many numbers of stripes as there are collections. `TooLong` where the clock is above its
    /// limit, there are more than 256 collections or more than 1,048,576 locations, or a collection can't have so many stripes. What
    /// was moved in is dropped.
    pub fn open(alloc: Global, shape: &Shape, state: State<V>) -> Result<World<V>, Refusal>
        ensures world { IfOk result (λ world. IsWorld world.parts (world_of shape.now.stripes shape.now.clock state)) }
        ensures reached { IsOk result → IsReached state (world_of shape.now.stripes shape.now.clock state) }
        ensures from { IfOk result (λ world. IsFrom state world.parts) }
        ensures serial { IfOk result (λ world. IsSerialFrom state world.parts) }
        ensures lasting { IfOk result (λ world. world.failed ≡ false) }
        ensures small { IfOk result (λ world. AreSmall world.parts.blocks.blocks) }
        ensures refused { IfErr result (λ refusal. IsNoSuchOrTooLong refusal (length shape.now.stripes ≢ length state.held)
            (IsWithin shape.now.stripes shape.now.clock state)) }
        ensures fits { IsOk result → (length shape.now.stripes ≡ length state.held) × IsWithin shape.now.stripes shape.now.clock state }
    {
        serial_worlds::<V>();
        traces::<V>();
        let parts = Parts::open(alloc, shape, state)?;
        Ok(World {
            parts,
            failed: false,
        })
    }

    /// One event, and its notice.
    ///
    /// `Memory` where an allocation failed, and for each later event. A step of a half-done commit takes no memory, nor does an event by
    /// which an allocation fails in a request.
    pub fn feed(&mut self, event: Event<V>) -> Result<Notice<V>, Memory>
        ensures ok { IfOk result (Feeds self.old.parts event self.new.parts) }
        ensures from { OnOk result ((opening : Contents V) → IsFrom opening self.old.parts → IsFrom opening self.new.parts) }
        ensures serial { OnOk result ((opening : Contents V) → IsFrom opening self.old.parts → IsSerialFrom opening self.new.parts) }
        ensures promised { IfOk result (IsFedTo self.old.parts event self.new.parts) }
        ensures small { OnOk result (AreSmall self.old.parts.blocks.blocks → AreSmall self.new.parts.blocks.blocks) }
        ensures served { self.old.failed ≡ false → AllocatesNothing self.old.parts event → IsOk result }
        ensures lasting { OnOk result ((self.old.failed ≡ false) × (self.new.failed ≡ false)) }
        ensures failed { OnErr result (self.new.failed ≡ true) }
    {
        if self.failed {
            return Err(Memory);
        }
        others_stand::<V>();
        calls::<V>();
        progress::<V>();
        refusals::<V>();
        serial_worlds::<V>();
        traces::<V>();
        self.failed = true;
        let notice = self.parts.feed(event)?;
        self.failed = false;
        Ok(notice)
    }

    /// The result of the events so far. `Memory` where an allocation for the copies fails, or the world has failed.
    pub fn trace(&self) -> Result<Trace<V>, Memory>
        ensures lasting { IsOk result → self.now.failed ≡ false }
        ensures trace { IfOk result (λ trace. (opening : Contents V) (w : PureWorld V) → IsReached opening w →
            IsWorld self.now.parts w → IsTraceOf w trace) }
        ensures serial { IfOk result (λ trace. (opening : Contents V) → IsFrom opening self.now.parts → IsSerialTrace opening trace) }
    {
        if self.failed {
            return Err(Memory);
        }
        self.parts.trace()
    }

    /// The result of all events. The records and the aborted transactions are moved, not copied. `Memory` where an allocation fails, or the
    /// world has failed; the world is gone either way.
    pub fn into_trace(self) -> Result<Trace<V>, Memory>
        ensures lasting { IsOk result → self.failed ≡ false }
        ensures trace { IfOk result (λ trace. (opening : Contents V) (w : PureWorld V) → IsReached opening w →
            IsWorld self.parts w → IsTraceOf w trace) }
        ensures serial { IfOk result (λ trace. (opening : Contents V) → IsFrom opening self.parts → IsSerialTrace opening trace) }
    {
        if self.failed {
            return Err(Memory);
        }
        let World { parts, failed: _ } = self;
        parts.into_trace()
    }
}

/// Opens a world, feeds it the events in their order, and answers their result.
///
/// Refused as `World::open`, and `Memory` where an allocation failed.
pub fn run_world<V: Value>(
    alloc: Global,
    shape: &Shape,
    state: State<V>,
    events: &[Event<V>],
) -> Result<Trace<V>, Refusal>
    ensures trace { IfOk result (IsTraceOf (fed_all (world_of shape.now.stripes shape.now.clock state) events.now)) }
    ensures serial { IfOk result (IsSerialTrace state) }
    ensures law { IsOk result → IsSerial state (fed_all (world_of shape.now.stripes shape.now.clock state) events.now) }
    ensures refused { IfErr result (λ refusal. IsNoSuchOrTooLong refusal (length shape.now.stripes ≢ length state.held)
        (IsWithin shape.now.stripes shape.now.clock state)) }
{
    serial_worlds::<V>();
    let mut world = World::open(alloc, shape, state)?;
    for event in events {
        let _notice = world.feed(event.try_copy()?)?;
    }
    let trace = world.into_trace()?;
    Ok(trace)
}
