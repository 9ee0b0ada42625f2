//! What a transaction has of collections: what it touched of each map and multiset, and a copy of each priority queue and queue.
ghost use Rattle.std.specs.Prelude.{◌≡◌, ◌<◌, ◌≤◌, ◌^◌, All, IfOk, IfErr, IsSome, OnOk, OnErr, None, length, slice_index};
ghost use Rattle.seq_model.specs.Calls.{IsRefusal};
ghost use Rattle.seq_model.specs.Entries.{inserts};
ghost use Rattle.replay_log.specs.Base.{IsPreparedFor, StaysPrepared, after, editions_of, locations_of, shown_of, stripes_of};
ghost use Rattle.replay_log.specs.Log.{AreRaised};
ghost use Rattle.actor_parts.specs.PrivateCopy.{IsAccepted, IsForgotten, IsFound, IsKept, IsLearnt};
ghost use Rattle.actor_parts.specs.PrivateCopy.{IsReady, answer_of, changes_in, holds_call};
ghost use Rattle.actor_parts.specs.PrivateCopy.{locations_in};
ghost use Rattle.actor_parts.specs.Taking.{key_touch};

use crate::boxed::Boxed;
use crate::spares::Spares;
use conflict::{Change, FewKeys, Outcome};
use replay_log::{Base, LocationEditions, Touch};
use seq_model::{Memory, Op, Refusal, Value};
use shadow::{Memo, Shadow};
use std::alloc::Global;

/// What a transaction has of one collection, with the changes of its own accepted calls. It moves as pointers.
#[derive(Drop)]
pub enum PrivateCopy<V> {
    /// Of a map or a multiset what was touched, with the edition of each location that it was copied from.
    Keys(Boxed<Memo<V>>, Boxed<FewKeys<u64>>),
    /// Of a priority queue or a queue the whole.
    Whole(Boxed<Shadow<V>>),
}

/// What a transaction has of this collection.
#[derive(Drop)]
pub struct CopyOfCollection<V> {
    pub collection: u32,
    pub copied: PrivateCopy<V>,
}

impl<V: Value> PrivateCopy<V> {
    /// Whether it has what the call touches. It takes no memory.
    pub fn holds(&self, op: &Op<V>) -> bool
        ensures { result ≡ holds_call self.now op.now }
    {
        match self {
            PrivateCopy::Keys(memo, _) => memo.get().holds(op),
            PrivateCopy::Whole(_) => true,
        }
    }

    /// The outcome that the call has after the accepted ones, where it has what the call touches, is put into this place, whatever it
    /// holds. A call of another kind of collection is refused as NoSuch.
    pub fn outcome(&self, op: &Op<V>, outcome: &mut Option<Outcome<V>>) -> Result<(), Refusal>
        ensures ok { OnOk result (answer_of self.now op.now ≡ outcome.new) }
        ensures some { OnOk result (IsSome outcome.new) }
        ensures refused { IfErr result (λ refusal. IsRefusal refusal (answer_of self.now op.now ≡ None)) }
    {
        match self {
            PrivateCopy::Keys(memo, _) => memo.get().answer_into(op, outcome),
            PrivateCopy::Whole(shadow) => {
                *outcome = Some(shadow.get().answer(op)?);
                Ok(())
            }
        }
    }

    /// Has from now on what was touched of its map or multiset as well, with the editions that it was touched with; what it has already is
    /// unchanged. `Memory`, where an allocation fails, leaves what it had. Hands the list of these editions back, whose memory serves
    /// again.
    pub fn learn(&mut self, touch: Touch<V>) -> Result<LocationEditions, Memory>
        ensures learnt { OnOk result (IsLearnt touch self.old self.new) }
        ensures err { OnErr result (IsKept self.old self.new) }
    {
        let Touch { editions, held } = touch;
        match self {
            PrivateCopy::Keys(memo, known) => {
                let known = known.get_mut();
                known.reserve(editions.as_slice().len())?;
                memo.get_mut().add_held(held)?;
                keep_editions(known, editions.as_slice());
            }
            PrivateCopy::Whole(_) => {}
        }
        Ok(editions)
    }

    /// What `learn` does, of a map's key with its value, if it has one, and the edition of its location.
    #[inline(always)]
    pub(crate) fn learn_key(
        &mut self,
        key: u64,
        value: Option<V>,
        location: u32,
        edition: u64,
    ) -> Result<(), Memory>
        ensures learnt { OnOk result (IsLearnt (key_touch key value location edition) self.old self.new) }
        ensures err { OnErr result (IsKept self.old self.new) }
    {
        match self {
            PrivateCopy::Keys(memo, known) => {
                let known = known.get_mut();
                known.reserve(1)?;
                memo.get_mut().add_entry(key, value)?;
                known.insert_reserved(location as u64, edition);
            }
            PrivateCopy::Whole(_) => {}
        }
        Ok(())
    }

    /// Has no more what the call touches, and takes so back what was learnt for a call that is not made. The editions that are known are
    /// kept. It takes no memory.
    pub fn forget(&mut self, op: &Op<V>)
        ensures { IsForgotten op.now self.old self.new }
    {
        match self {
            PrivateCopy::Keys(memo, _) => memo.get_mut().forget(op),
            PrivateCopy::Whole(_) => {}
        }
    }

    /// Makes ready what accepting the outcome will take. Nothing else changes, also where an allocation fails.
    pub fn ready(&mut self, outcome: &Outcome<V>) -> Result<(), Memory>
        ensures ok { OnOk result (IsReady outcome.now self.new) }
        ensures kept { IsKept self.old self.new }
    {
        match self {
            PrivateCopy::Keys(memo, _) => memo.get_mut().ready(outcome),
            PrivateCopy::Whole(shadow) => shadow.get_mut().ready(outcome),
        }
    }

    /// Accepts the outcome, which has been made ready. It takes no memory and is never refused. The reply of the outcome remains in its
    /// place.
    #[inline(always)]
    pub fn accept(&mut self, outcome: &mut Outcome<V>)
        requires ready { IsReady outcome.old self.old }
        ensures accepted { IsAccepted outcome.old self.old self.new }
        ensures reply { outcome.new.reply ≡ outcome.old.reply }
    {
        match self {
            PrivateCopy::Keys(memo, _) => memo.get_mut().accept_in_place(outcome),
            PrivateCopy::Whole(shadow) => shadow.get_mut().accept_in_place(outcome),
        }
    }

    /// The changes of the accepted calls, in order.
    fn changes(&self) -> &[Change<V>]
        ensures { result.now ≡ changes_in self.now }
    {
        match self {
            PrivateCopy::Keys(memo, _) => memo.get().changes(),
            PrivateCopy::Whole(shadow) => shadow.get().changes(),
        }
    }

    /// The changes of the accepted calls are made in a base that was prepared for them, and the editions of the locations that they write
    /// are raised by one. It takes no memory and is never refused. What there is of the collection is left open, in its memory.
    pub fn fold(&mut self, base: &mut Base<V>)
        requires prepared { IsPreparedFor (changes_in self.old) base.old }
        requires within { All (λ location. location < locations_of (stripes_of base.old) (shown_of base.old)) (locations_in self.old) }
        requires below { All (λ location. slice_index (editions_of base.old) location < 2 ^ 63) (locations_in self.old) }
        ensures shown { shown_of base.new ≡ after (changes_in self.old) (shown_of base.old) }
        ensures stripes { stripes_of base.new ≡ stripes_of base.old }
        ensures editions { AreRaised (locations_in self.old) (editions_of base.old) (editions_of base.new) }
    {
        match self {
            PrivateCopy::Keys(memo, _) => memo.get_mut().fold(base),
            PrivateCopy::Whole(shadow) => shadow.get_mut().fold(base),
        }
    }

    /// Makes room in the base for the changes of the accepted calls, so that they are folded in without memory. The base shows what it did,
    /// also where an allocation fails.
    pub fn prepare(&self, base: &mut Base<V>) -> Result<(), Memory>
        ensures ok { OnOk result (IsPreparedFor (changes_in self.now) base.new) }
        ensures shown { shown_of base.new ≡ shown_of base.old }
        ensures stripes { stripes_of base.new ≡ stripes_of base.old }
        ensures editions { editions_of base.new ≡ editions_of base.old }
        ensures room { StaysPrepared base.old base.new }
    {
        base.prepare(self.changes())
    }
}

#[inline(always)]
fn keep_editions(known: &mut FewKeys<u64>, editions: &[(u32, u64)])
    requires { length editions.now ≤ known.old.room }
    ensures { known.new.contents ≡ inserts known.old.contents editions.now }
{
    for entry in editions {
        known.insert_reserved(entry.0 as u64, entry.1);
    }
}

/// What a call touches of a collection, as its base holds it.
#[derive(Drop)]
pub enum BaseExcerpt<V> {
    Keys(Touch<V>),
    /// The copy in this shadow. The calls that it has are unused.
    Whole(Boxed<Shadow<V>>),
}

/// What the call touches of the base: of a map or a multiset its key, or the number of all, and of the others the whole, in spare memory
/// where there is some. A call of another kind than a map or a multiset is refused there as NoSuch.
pub fn find<V: Value>(
    spares: &mut Spares<V>,
    alloc: Global,
    base: &Base<V>,
    op: &Op<V>,
) -> Result<BaseExcerpt<V>, Refusal>
    ensures { IfOk result (λ found. IsFound base.now op.now found) }
{
    Ok(match base {
        Base::Map(_) | Base::Bag(_) => BaseExcerpt::Keys(spares.touch(base, op)?),
        Base::Pq(_) | Base::Queue(_) => BaseExcerpt::Whole(spares.whole(alloc, base)?),
    })
}
