//! The collection of a multiset.
ghost use Rattle.std.specs.Prelude.{◌≡◌, ◌+◌, ◌^◌, ◌<◌, ◌≤◌, [], Some, None, All, IsOk, replicate, IfOk, IfErr, OnOk, length, slice_index};
ghost use Rattle.std.specs.FinMap.{empty};
ghost use Rattle.std.specs.Vec.{vec_capacity};
ghost use Rattle.seq_model.specs.Calls.{IsRefusal, IsWithinLimits};
ghost use Rattle.seq_model.specs.Counts.{HasFewCopies, copies};
ghost use Rattle.conflict.specs.Rules.{applied};
ghost use Rattle.conflict.specs.Footprints.{key_location};
ghost use Rattle.conflict.specs.Editions.{raised};
ghost use Rattle.conflict.specs.Refusals.{IsTooLong, IsNoSuchOrTooLong, IsStripeCount};
ghost use Rattle.base_bag.specs.Conflicts.{rules, view_of, outcome_of, reads_of, writes_of, changes_of};

use crate::elements::Elements;
use crate::footprints::{change_in, location_in, reads_in, writes_in};
use conflict::{Change, Changes, Conflict, Editions, LocSet, Note, Outcome, is_stripe_count};
use seq_model::{COPY_LIMIT, Counts, Held, Memory, Op, Refusal, Reply, Value};
use std::alloc::Global;
use std::marker::Model;

/// A multiset in stripes, with an edition for each.
pub struct BagBase {
    elements: Elements,
    stripes: u32,
    editions: Editions,
}

impl Drop for BagBase {
    fn drop(self) {
        let BagBase {
            elements: _,
            stripes: _,
            editions: _,
        } = self;
    }
}

impl Model for BagBase {
    ghost use Rattle.std.specs.Prelude.{◌≡◌, ℕ, length};
    ghost use Rattle.std.specs.Ordering.{nat_cmp};
    ghost use Rattle.std.specs.FinMap as map;
    ghost use Rattle.std.specs.Coded.{coded_ℕ};
    ghost use Rattle.conflict.specs.BaseView.{BaseView, base_view_code};
    ghost use Rattle.conflict.specs.Refusals.{IsStripeCount};

    ghost Value = { BaseView (map.FinMap nat_cmp ℕ) ℕ };

    ghost coded = { base_view_code (map.code coded_ℕ coded_ℕ) coded_ℕ };

    ghost view = { λ a. record {
      shown = a.elements.shown;
      stripes = a.stripes;
      editions = a.editions;
      room = a.elements.room;
    } };

    ghost invariant = { λ a. IsStripeCount a.stripes × (length a.editions ≡ a.stripes) };
}

impl BagBase {
    /// An empty multiset in so many stripes, 1 to `STRIPE_LIMIT`, with edition 0 for each. Another number is refused as TooLong.
    pub fn new(alloc: Global, stripes: u32) -> Result<BagBase, Refusal>
        ensures empty { IfOk result (λ base. base.shown ≡ empty) }
        ensures stripes { IfOk result (λ base. base.stripes ≡ stripes) }
        ensures editions { IfOk result (λ base. base.editions ≡ replicate stripes 0) }
        ensures refused { IfErr result (λ refusal. IsTooLong refusal (IsStripeCount stripes)) }
        ensures fits { IsOk result → IsStripeCount stripes }
    {
        if !is_stripe_count(stripes) {
            return Err(Refusal::TooLong);
        }
        let editions = Editions::new(alloc, stripes)?;
        Ok(BagBase {
            elements: Elements::new(alloc),
            stripes,
            editions,
        })
    }

    /// A multiset that holds this, with edition 0 for each stripe. What another kind of collection holds is refused as NoSuch,
    /// and else a number of stripes that `new` refuses, or too many copies of an element, as TooLong. Only then memory is asked
    /// for.
    pub fn open<V: Drop>(alloc: Global, stripes: u32, held: Held<V>) -> Result<BagBase, Refusal>
        ensures shown { IfOk result (λ base. view_of held ≡ Some base.shown) }
        ensures stripes { IfOk result (λ base. base.stripes ≡ stripes) }
        ensures editions { IfOk result (λ base. base.editions ≡ replicate stripes 0) }
        ensures refused { IfErr result
            (λ refusal. IsNoSuchOrTooLong refusal (view_of held ≡ None) (IsStripeCount stripes × IsWithinLimits held)) }
        ensures fits { IsOk result → IsStripeCount stripes × IsWithinLimits held }
    {
        match held {
            Held::Bag(counts) => BagBase::of_counts(alloc, stripes, counts),
            _ => Err(Refusal::NoSuch),
        }
    }

    fn of_counts(alloc: Global, stripes: u32, counts: Counts) -> Result<BagBase, Refusal>
        ensures shown { IfOk result (λ base. base.shown ≡ counts) }
        ensures stripes { IfOk result (λ base. base.stripes ≡ stripes) }
        ensures editions { IfOk result (λ base. base.editions ≡ replicate stripes 0) }
        ensures refused { IfErr result (λ refusal. IsTooLong refusal (IsStripeCount stripes × HasFewCopies counts)) }
        ensures fits { IsOk result → IsStripeCount stripes × HasFewCopies counts }
    {
        if !is_stripe_count(stripes) {
            return Err(Refusal::TooLong);
        }
        if !counts.has_few_copies() {
            return Err(Refusal::TooLong);
        }
        let editions = Editions::new(alloc, stripes)?;
        let elements = Elements::of_counts(alloc, counts)?;
        Ok(BagBase {
            elements,
            stripes,
            editions,
        })
    }

    /// What the multiset holds: copies of its elements. `Memory` where an allocation fails.
    pub fn held<V>(&self) -> Result<Held<V>, Memory>
        ensures { IfOk result (λ held. held ≡ (rules V).held_of self.now.shown) }
    {
        let counts = self.elements.to_counts()?;
        Ok(Held::Bag(counts))
    }

    /// The outcome that the call has here. A call of another kind is refused as NoSuch, and nothing else is refused.
    pub fn outcome<V>(&self, op: &Op<V>) -> Result<Outcome<V>, Refusal>
        ensures ok { IfOk result (λ outcome. outcome_of op.now self.now.shown ≡ Some outcome) }
        ensures refused { IfErr result (λ refusal. IsRefusal refusal (outcome_of op.now self.now.shown ≡ None)) }
        ensures served { ¬ (outcome_of op.now self.now.shown ≡ None) → IsOk result }
    {
        let (op, reply) = match op {
            Op::Count(element) => {
                (
                    Op::Count(*element),
                    Reply::Number(self.elements.copies(*element)),
                )
            }
            Op::Add(element) => {
                let full = self.elements.copies(*element) >= COPY_LIMIT;
                (
                    Op::Add(*element),
                    if full { Reply::Full } else { Reply::Done },
                )
            }
            Op::Take(element) => {
                let absent = self.elements.copies(*element) == 0;
                (
                    Op::Take(*element),
                    if absent { Reply::No } else { Reply::Yes },
                )
            }
            _ => return Err(Refusal::NoSuch),
        };
        Ok(Outcome {
            op,
            reply,
            note: Note::Plain,
        })
    }

    /// How many copies of the element there are.
    pub fn copies(&self, element: u64) -> u64
        ensures { result ≡ copies self.now.shown element }
    {
        self.elements.copies(element)
    }

    /// Where the multiset's memory comes from.
    pub fn allocator(&self) -> Global {
        self.editions.allocator()
    }

    /// The location of the element.
    pub fn location_of(&self, element: u64) -> u32
        ensures location { result ≡ key_location self.now.stripes element }
        ensures within { result < self.now.stripes }
    {
        location_in(self.stripes, element)
    }

    /// The locations that the outcome reads. They are never refused.
    pub fn reads<V>(&self, outcome: &Outcome<V>) -> Result<LocSet, Memory>
        ensures locations { IfOk result (λ set. set ≡ reads_of self.now.stripes outcome.now) }
        ensures served { IsOk result }
    {
        reads_in(self.editions.allocator(), self.stripes, outcome)
    }

    /// The locations that the outcome writes. They are never refused.
    pub fn writes<V>(&self, outcome: &Outcome<V>) -> Result<LocSet, Memory>
        ensures locations { IfOk result (λ set. set ≡ writes_of self.now.stripes outcome.now) }
        ensures served { IsOk result }
    {
        writes_in(self.editions.allocator(), self.stripes, outcome)
    }

    /// What the outcome changes. Where that is nothing, it is never refused.
    pub fn changes<V: Drop>(&self, outcome: &Outcome<V>) -> Result<Changes<V>, Memory>
        ensures changes { IfOk result (λ changes. changes.items ≡ changes_of outcome.now) }
        ensures served { changes_of outcome.now ≡ [] → IsOk result }
    {
        let mut changes = Vec::new(self.editions.allocator());
        if let Some(change) = change_in(outcome)? {
            changes.push(change)?;
        }
        Ok(changes)
    }

    /// Makes room for the changes. The multiset is unchanged and keeps its room, also where an allocation fails. Where there is room
    /// already, nothing is refused.
    pub fn prepare<V>(&mut self, changes: &[Change<V>]) -> Result<(), Memory>
        ensures shown { self.new.shown ≡ self.old.shown }
        ensures stripes { self.new.stripes ≡ self.old.stripes }
        ensures editions { self.new.editions ≡ self.old.editions }
        ensures ok { OnOk result (length changes.now ≤ self.new.room) }
        ensures room { self.old.room ≤ self.new.room }
        ensures served { length changes.now ≤ self.old.room → IsOk result }
    {
        self.elements.reserve(changes.len())
    }

    /// Applies the changes in order, and raises the edition of each written location by one. There has to be room for the
    /// changes, so it takes no memory and is never refused. It uses up the room for these changes alone.
    pub fn replay<V: Drop>(&mut self, mut changes: Changes<V>, written: &LocSet)
        requires prepared { length changes.items ≤ self.old.room }
        requires within { All (λ location. location < self.old.stripes) written.now }
        requires below { All (λ location. slice_index self.old.editions location < 2 ^ 63) written.now }
        ensures shown { self.new.shown ≡ applied (rules V) changes.items self.old.shown }
        ensures stripes { self.new.stripes ≡ self.old.stripes }
        ensures editions { self.new.editions ≡ raised written.now self.old.editions }
        ensures room { self.old.room ≤ self.new.room + length changes.items }
    {
        self.replay_from(&mut changes, written);
    }

    /// What `replay` does, of the changes in a list that is left empty and keeps its memory.
    pub fn replay_from<V: Drop>(&mut self, changes: &mut Vec<Change<V>>, written: &LocSet)
        requires prepared { length changes.old.items ≤ self.old.room }
        requires within { All (λ location. location < self.old.stripes) written.now }
        requires below { All (λ location. slice_index self.old.editions location < 2 ^ 63) written.now }
        ensures shown { self.new.shown ≡ applied (rules V) changes.old.items self.old.shown }
        ensures stripes { self.new.stripes ≡ self.old.stripes }
        ensures editions { self.new.editions ≡ raised written.now self.old.editions }
        ensures room { self.old.room ≤ self.new.room + length changes.old.items }
        ensures emptied { changes.new.items ≡ [] }
        ensures capacity { vec_capacity changes.new ≡ vec_capacity changes.old }
    {
        apply_changes(&mut self.elements, changes);
        self.editions.raise(written);
    }

    /// The edition of the location: how many replays have written it.
    pub fn edition(&self, location: u32) -> u64
        requires { location < self.now.stripes }
        ensures { result ≡ slice_index self.now.editions location }
    {
        self.editions.edition(location)
    }

    /// A multiset that holds the same, with the same editions. `Memory` where an allocation fails.
    pub fn try_copy(&self) -> Result<BagBase, Memory>
        ensures shown { IfOk result (λ copy. copy.shown ≡ self.now.shown) }
        ensures stripes { IfOk result (λ copy. copy.stripes ≡ self.now.stripes) }
        ensures editions { IfOk result (λ copy. copy.editions ≡ self.now.editions) }
    {
        Ok(BagBase {
            elements: self.elements.try_copy()?,
            stripes: self.stripes,
            editions: self.editions.try_copy()?,
        })
    }
}

fn apply_changes<V: Drop>(elements: &mut Elements, changes: &mut Vec<Change<V>>)
    requires { length changes.old.items ≤ elements.old.room }
    ensures shown { elements.new.shown ≡ applied (rules V) changes.old.items elements.old.shown }
    ensures room { elements.old.room ≤ elements.new.room + length changes.old.items }
    ensures emptied { changes.new.items ≡ [] }
    ensures capacity { vec_capacity changes.new ≡ vec_capacity changes.old }
{
    changes.reverse();
    while let Some(change) = changes.pop() {
        elements.change(change);
    }
}

impl<V: Value> Conflict<V> for BagBase {
    ghost use Rattle.std.specs.Prelude.{ℕ, Option};
    ghost use Rattle.std.specs.Ordering.{nat_cmp};
    ghost use Rattle.std.specs.FinMap as map;
    ghost use Rattle.base_bag.specs.Conflicts.{rules};
    ghost use Rattle.base_bag.specs.FrameLemmas.{laws};

    ghost Shown = { map.FinMap nat_cmp ℕ };

    ghost Point = { ℕ };

    ghost Answer = { Option ℕ };

    ghost rules = { rules V };

    ghost shown = { λ s. s.shown };

    ghost stripes = { λ s. s.stripes };

    fn outcome(&self, op: &Op<V>) -> Result<Outcome<V>, Refusal> {
        BagBase::outcome(self, op)
    }

    fn reads(&self, outcome: &Outcome<V>) -> Result<LocSet, Memory> {
        BagBase::reads(self, outcome)
    }

    fn writes(&self, outcome: &Outcome<V>) -> Result<LocSet, Memory> {
        BagBase::writes(self, outcome)
    }

    fn changes(&self, outcome: &Outcome<V>) -> Result<Changes<V>, Memory> {
        BagBase::changes(self, outcome)
    }

    ghost laws = { laws };
}
