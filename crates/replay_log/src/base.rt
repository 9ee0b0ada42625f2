//! A collection of any of the four kinds.
ghost use Rattle.std.specs.Prelude.{◌≡◌, ◌+◌, ◌^◌, ◌<◌, ◌≤◌, [], All, IsOk, Some, None, replicate, IfOk, IfErr, OnOk, length, slice_index};
ghost use Rattle.std.specs.Prelude.{IsTrue, option_to_list};
ghost use Rattle.std.specs.Vec.{vec_capacity};
ghost use Rattle.seq_model.specs.Calls.{IsRefusal, IsWithinLimits};
ghost use Rattle.conflict.specs.Editions.{raised};
ghost use Rattle.conflict.specs.Refusals.{IsTooLong, IsStripeCountOf};
ghost use Rattle.replay_log.specs.Base.{
  IsPreparedFor,
  IsStripeCountOfKind,
  LeavesPrepared,
  StaysPrepared,
  after,
  changes_of,
  editions_of,
  empty_of,
  held_of,
  locations_of,
  outcome_of,
  reads_of,
  shown_of,
  stripes_of,
  view_of,
  writes_of,
};
ghost use Rattle.replay_log.specs.Touches.{editions_at, summed_by, touched_by, touched_locations};

use crate::location_editions::LocationEditions;
use crate::touch::{Touch, touch_bag, touch_map, touch_map_summed};
use base_bag::BagBase;
use base_map::MapBase;
use base_pq::PqBase;
use base_queue::QueueBase;
use conflict::{Change, Changes, LocSet, Outcome};
use seq_model::{Held, Kind, Memory, Op, Refusal, Value};
use std::alloc::Global;

/// A collection in stripes, with an edition for each of its locations.
#[derive(Drop)]
pub enum Base<V> {
    Map(MapBase<V>),
    Bag(BagBase),
    Pq(PqBase),
    Queue(QueueBase),
}

impl<V: Value> Base<V> {
    /// An empty collection of this kind, with edition 0 for each location; the first item of a queue will have index 0. A number of
    /// stripes outside 1 to `STRIPE_LIMIT`, of a priority queue 1 to `PQ_STRIPE_LIMIT`, is refused as TooLong. Only then memory is
    /// asked for.
    pub fn new(alloc: Global, stripes: u32, kind: Kind) -> Result<Base<V>, Refusal>
        ensures shown { IfOk result (λ base. shown_of base ≡ empty_of kind) }
        ensures stripes { IfOk result (λ base. stripes_of base ≡ stripes) }
        ensures editions { IfOk result (λ base. editions_of base ≡ replicate (locations_of stripes (shown_of base)) 0) }
        ensures refused { IfErr result (λ refusal. IsTooLong refusal (IsStripeCountOfKind kind stripes)) }
        ensures fits { IsOk result → IsStripeCountOfKind kind stripes }
    {
        Ok(match kind {
            Kind::Map => Base::Map(MapBase::new(alloc, stripes)?),
            Kind::Bag => Base::Bag(BagBase::new(alloc, stripes)?),
            Kind::Pq => Base::Pq(PqBase::new(alloc, stripes)?),
            Kind::Queue => Base::Queue(QueueBase::new(alloc, stripes)?),
        })
    }

    /// A collection that holds this, with edition 0 for each location. A number of stripes outside 1 to `STRIPE_LIMIT`, of a priority
    /// queue 1 to `PQ_STRIPE_LIMIT`, too many copies of an element, and items whose indexes would pass `INDEX_LIMIT`, are refused as
    /// TooLong. Only then memory is asked for.
    pub fn open(alloc: Global, stripes: u32, held: Held<V>) -> Result<Base<V>, Refusal>
        ensures shown { IfOk result (λ base. view_of held ≡ Some (shown_of base)) }
        ensures stripes { IfOk result (λ base. stripes_of base ≡ stripes) }
        ensures editions { IfOk result (λ base. editions_of base ≡ replicate (locations_of stripes (shown_of base)) 0) }
        ensures refused { IfErr result (λ refusal. IsTooLong refusal (IsStripeCountOf held stripes × IsWithinLimits held)) }
        ensures fits { IsOk result → IsStripeCountOf held stripes × IsWithinLimits held }
    {
        Ok(match &held {
            Held::Map(_) => Base::Map(MapBase::open(alloc, stripes, held)?),
            Held::Bag(_) => Base::Bag(BagBase::open(alloc, stripes, held)?),
            Held::Pq(_) => Base::Pq(PqBase::open(alloc, stripes, held)?),
            Held::Queue { .. } => Base::Queue(QueueBase::open(alloc, stripes, held)?),
        })
    }

    /// What the collection holds, as a copy. `Memory` where an allocation fails.
    pub fn held(&self) -> Result<Held<V>, Memory>
        ensures { IfOk result (λ held. held ≡ held_of (shown_of self.now)) }
    {
        match self {
            Base::Map(base) => base.held(),
            Base::Bag(base) => base.held(),
            Base::Pq(base) => base.held(),
            Base::Queue(base) => base.held(),
        }
    }

    /// The outcome that the call has here. A call of another kind is refused as NoSuch.
    pub fn outcome(&self, op: &Op<V>) -> Result<Outcome<V>, Refusal>
        ensures ok { IfOk result (λ outcome. outcome_of op.now (shown_of self.now) ≡ Some outcome) }
        ensures refused { IfErr result (λ refusal. IsRefusal refusal (outcome_of op.now (shown_of self.now) ≡ None)) }
    {
        match self {
            Base::Map(base) => base.outcome(op),
            Base::Bag(base) => base.outcome(op),
            Base::Pq(base) => base.outcome(op),
            Base::Queue(base) => base.outcome(op),
        }
    }

    /// The locations that the outcome reads. Up to eight are never refused.
    pub fn reads(&self, outcome: &Outcome<V>) -> Result<LocSet, Memory>
        ensures locations { IfOk result (λ set. set ≡ reads_of (stripes_of self.now) outcome.now (shown_of self.now)) }
        ensures served { length (reads_of (stripes_of self.now) outcome.now (shown_of self.now)) ≤ 8 → IsOk result }
    {
        match self {
            Base::Map(base) => base.reads(outcome),
            Base::Bag(base) => base.reads(outcome),
            Base::Pq(base) => base.reads(outcome),
            Base::Queue(base) => base.reads(outcome),
        }
    }

    /// The locations that the outcome writes. They are never refused.
    pub fn writes(&self, outcome: &Outcome<V>) -> Result<LocSet, Memory>
        ensures locations { IfOk result (λ set. set ≡ writes_of (stripes_of self.now) outcome.now (shown_of self.now)) }
        ensures served { IsOk result }
    {
        match self {
            Base::Map(base) => base.writes(outcome),
            Base::Bag(base) => base.writes(outcome),
            Base::Pq(base) => base.writes(outcome),
            Base::Queue(base) => base.writes(outcome),
        }
    }

    /// What the outcome changes, in order. Where that is nothing, it is never refused.
    pub fn changes(&self, outcome: &Outcome<V>) -> Result<Changes<V>, Memory>
        ensures changes { IfOk result (λ changes. changes.items ≡ changes_of outcome.now (shown_of self.now)) }
        ensures served { changes_of outcome.now (shown_of self.now) ≡ [] → IsOk result }
    {
        match self {
            Base::Map(base) => base.changes(outcome),
            Base::Bag(base) => base.changes(outcome),
            Base::Pq(base) => base.changes(outcome),
            Base::Queue(base) => base.changes(outcome),
        }
    }

    /// Puts what the outcome changes, in order, into the list, in place of what that held. `Memory` where an allocation fails, which leaves
    /// in the list what was put there.
    pub fn changes_into(
        &self,
        outcome: &Outcome<V>,
        list: &mut Vec<Change<V>>,
    ) -> Result<(), Memory>
        ensures { OnOk result (list.new.items ≡ changes_of outcome.now (shown_of self.now)) }
    {
        match self {
            Base::Map(_) => put_one(list, base_map::change_in(outcome)?),
            Base::Bag(_) => put_one(list, base_bag::change_in(outcome)?),
            Base::Pq(_) => base_pq::changes_into(outcome, list),
            Base::Queue(_) => put_one(list, base_queue::change_in(outcome)),
        }
    }

    /// Makes room for the changes. The collection is unchanged and keeps its room, also where an allocation fails. Where there is room
    /// already, nothing is refused. Of a priority queue only the stripes that the changes fall on are looked at.
    #[inline(always)]
    pub fn prepare(&mut self, changes: &[Change<V>]) -> Result<(), Memory>
        ensures shown { shown_of self.new ≡ shown_of self.old }
        ensures stripes { stripes_of self.new ≡ stripes_of self.old }
        ensures editions { editions_of self.new ≡ editions_of self.old }
        ensures ok { OnOk result (IsPreparedFor changes.now self.new) }
        ensures room { StaysPrepared self.old self.new }
        ensures served { IsPreparedFor changes.now self.old → IsOk result }
    {
        match self {
            Base::Map(base) => base.prepare(changes),
            Base::Bag(base) => base.prepare(changes),
            Base::Pq(base) => base.prepare(changes),
            Base::Queue(base) => base.prepare(changes),
        }
    }

    /// Applies the changes in order, and raises the edition of each written location by one. There has to be room for the
    /// changes, so it takes no memory and is never refused. It uses up the room for these changes alone.
    pub fn replay(&mut self, changes: Changes<V>, written: &LocSet)
        requires prepared { IsPreparedFor changes.items self.old }
        requires within { All (λ location. location < locations_of (stripes_of self.old) (shown_of self.old)) written.now }
        requires below { All (λ location. slice_index (editions_of self.old) location < 2 ^ 63) written.now }
        ensures shown { shown_of self.new ≡ after changes.items (shown_of self.old) }
        ensures stripes { stripes_of self.new ≡ stripes_of self.old }
        ensures editions { editions_of self.new ≡ raised written.now (editions_of self.old) }
        ensures room { LeavesPrepared changes.items self.old self.new }
    {
        match self {
            Base::Map(base) => base.replay(changes, written),
            Base::Bag(base) => base.replay(changes, written),
            Base::Pq(base) => base.replay(changes, written),
            Base::Queue(base) => base.replay(changes, written),
        }
    }

    /// What `replay` does, of the changes in a list that is left empty and keeps its memory.
    pub fn replay_from(&mut self, changes: &mut Vec<Change<V>>, written: &LocSet)
        requires prepared { IsPreparedFor changes.old.items self.old }
        requires within { All (λ location. location < locations_of (stripes_of self.old) (shown_of self.old)) written.now }
        requires below { All (λ location. slice_index (editions_of self.old) location < 2 ^ 63) written.now }
        ensures shown { shown_of self.new ≡ after changes.old.items (shown_of self.old) }
        ensures stripes { stripes_of self.new ≡ stripes_of self.old }
        ensures editions { editions_of self.new ≡ raised written.now (editions_of self.old) }
        ensures room { LeavesPrepared changes.old.items self.old self.new }
        ensures emptied { changes.new.items ≡ [] }
        ensures capacity { vec_capacity changes.new ≡ vec_capacity changes.old }
    {
        match self {
            Base::Map(base) => base.replay_from(changes, written),
            Base::Bag(base) => base.replay_from(changes, written),
            Base::Pq(base) => base.replay_from(changes, written),
            Base::Queue(base) => base.replay_from(changes, written),
        }
    }

    /// The edition of the location: how many replays have written it.
    pub fn edition(&self, location: u32) -> u64
        requires { location < locations_of (stripes_of self.now) (shown_of self.now) }
        ensures { result ≡ slice_index (editions_of self.now) location }
    {
        match self {
            Base::Map(base) => base.edition(location),
            Base::Bag(base) => base.edition(location),
            Base::Pq(base) => base.edition(location),
            Base::Queue(base) => base.edition(location),
        }
    }

    /// What is copied for the call where single keys are kept: the key that it is on, with the edition of its location; for the number
    /// of all keys of a map, how many each stripe has, with the editions of all. Any other call, and each on a priority queue or a
    /// queue, is refused as NoSuch.
    pub fn touch(&self, op: &Op<V>) -> Result<Touch<V>, Refusal>
        ensures editions { IfOk result (λ touch. touch.editions
            ≡ editions_at (touched_locations (stripes_of self.now) touch.held) (editions_of self.now)) }
        ensures held { IfOk result (λ touch. touched_by (stripes_of self.now) op.now (shown_of self.now) ≡ Some touch.held) }
        ensures refused { IfErr result (λ refusal. IsRefusal refusal (touched_by (stripes_of self.now) op.now (shown_of self.now) ≡ None)) }
    {
        match self {
            Base::Map(base) => touch_map(base, op),
            Base::Bag(base) => touch_bag(base, op),
            _ => Err(Refusal::NoSuch),
        }
    }

    /// What `touch` copies, with the number of all keys in place of those of each stripe, which takes no pass over them, and with the
    /// editions of all stripes in the memory of the list that is lent: it goes out with the touch, and the list is left empty. For one key
    /// it is left as it is.
    pub fn touch_summed(&self, op: &Op<V>, lent: &mut LocationEditions) -> Result<Touch<V>, Refusal>
        ensures editions { IfOk result (λ touch. touch.editions
            ≡ editions_at (touched_locations (stripes_of self.now) touch.held) (editions_of self.now)) }
        ensures held { IfOk result (λ touch. summed_by (stripes_of self.now) op.now (shown_of self.now) ≡ Some touch.held) }
        ensures refused { IfErr result (λ refusal. IsRefusal refusal (summed_by (stripes_of self.now) op.now (shown_of self.now) ≡ None)) }
    {
        match self {
            Base::Map(base) => touch_map_summed(base, op, lent),
            Base::Bag(base) => touch_bag(base, op),
            _ => Err(Refusal::NoSuch),
        }
    }

    /// Whether it is a priority queue or a queue in as many stripes as the other, which is of its kind.
    pub fn is_like(&self, other: &Base<V>) -> bool
        ensures { IsTrue result → stripes_of self.now ≡ stripes_of other.now }
    {
        match self {
            Base::Pq(base) => match other {
                Base::Pq(other) => base.stripes() == other.stripes(),
                _ => false,
            },
            Base::Queue(base) => match other {
                Base::Queue(other) => base.stripes() == other.stripes(),
                _ => false,
            },
            _ => false,
        }
    }

    /// A collection that holds the same, with the same editions. `Memory` where an allocation fails.
    pub fn try_copy(&self) -> Result<Base<V>, Memory>
        ensures shown { IfOk result (λ copy. shown_of copy ≡ shown_of self.now) }
        ensures stripes { IfOk result (λ copy. stripes_of copy ≡ stripes_of self.now) }
        ensures editions { IfOk result (λ copy. editions_of copy ≡ editions_of self.now) }
    {
        Ok(match self {
            Base::Map(base) => Base::Map(base.try_copy()?),
            Base::Bag(base) => Base::Bag(base.try_copy()?),
            Base::Pq(base) => Base::Pq(base.try_copy()?),
            Base::Queue(base) => Base::Queue(base.try_copy()?),
        })
    }

    /// Becomes a collection that holds the same as the other, with its editions. A priority queue and a queue become it in the memory that
    /// they have, as far as that suffices. Where an allocation fails, what it holds is left open.
    pub fn copy_from(&mut self, other: &Base<V>) -> Result<(), Memory>
        ensures shown { OnOk result (shown_of self.new ≡ shown_of other.now) }
        ensures stripes { OnOk result (stripes_of self.new ≡ stripes_of other.now) }
        ensures editions { OnOk result (editions_of self.new ≡ editions_of other.now) }
    {
        if let Base::Pq(from) = other {
            if let Base::Pq(copy) = self {
                return copy.copy_from(from);
            }
        }
        if let Base::Queue(from) = other {
            if let Base::Queue(copy) = self {
                return copy.copy_from(from);
            }
        }
        *self = other.try_copy()?;
        Ok(())
    }
}

fn put_one<V: Drop>(list: &mut Vec<Change<V>>, change: Option<Change<V>>) -> Result<(), Memory>
    ensures { OnOk result (list.new.items ≡ option_to_list change) }
{
    list.clear();
    if let Some(only) = change {
        list.push(only)?;
    }
    Ok(())
}
