//! A call that holds its gate no longer than it has to: what its key touches is taken under the gate, and where its location is to be read
//! first, all else is made ready once the gate is put back. The call waits for that location then, so it can still be aborted.
ghost use Rattle.std.specs.Prelude.{◌≡◌, ◌<◌, ℕ, IfOk, IfSome, OnErr, Option, Some, None, true};
ghost use Rattle.replay_log.specs.Base.{shown_of, stripes_of};
ghost use Rattle.replay_log.specs.Parts.{kind_of};
ghost use Rattle.tx_sets.specs.Entries.{lookup};
ghost use Rattle.conflict.specs.declared.outcome.Outcome.{Outcome};
ghost use Rattle.replay_log.specs.Worlds as worlds;
ghost use Rattle.replay_log.specs.Worlds.{World};
ghost use Rattle.actor_parts.specs.Blocks.{BlocksView};
ghost use Rattle.actor_parts.specs.Judged.{comes_to, judged, left_after};
ghost use Rattle.actor_parts.specs.declared.judged.Judged.TheVariants.{Next};
ghost use Rattle.actor_parts.specs.Requests.{HasNoReads};
ghost use Rattle.step_core.specs.Shown.{actor_of};
ghost use Rattle.tx_actor.specs.Answers.{CanAccept, MayAnswer};
ghost use Rattle.tx_actor.specs.Copying.{CanCopy, CanCopyAt, HasTaken, IsUnmoved, StepsOn};
ghost use Rattle.tx_actor.specs.Dispatch.{Starves};
ghost use Rattle.tx_actor.specs.CopiesByStage.{HasGone, KeepsCopies};
ghost use Rattle.tx_actor.specs.ActorBounds.{CanGoOn, KeepsIn};
ghost use Rattle.tx_actor.specs.Running.{Runs, at, notice_of, seat_of, with_outcome};
ghost use Rattle.tx_actor.specs.Taking.{AreTaken, AreTakenAt, AreTakenBy, AreTakenFor, IsTakenCall, StarvesBehind, WaitsForKey, WasTaken};
ghost use Rattle.tx_actor.specs.Taking.{key_location_in, told_at, waiting_at};
ghost use Rattle.tx_actor.specs.declared.actor.ActorNotice.TheVariants as told;

use crate::actor::{ActorNotice, CallWithOutcome, CollectionCall, Stage, TxActor};
use crate::hand::CallInHand;
use crate::loads::first_left;
use actor_parts::{Blocks, Boxed, fits_base};
use replay_log::Base;
use seq_model::{Memory, Op, Refusal, Value};
use std::alloc::Global;
use std::collections::VecDeque;
use std::mem;
use step_core::{Actor, Place};

/// A call whose key was taken, and where the copy of its collection stands.
#[derive(Drop)]
pub struct KeyedCall<V> {
    pub asked: CallInHand<V>,
    pub place: usize,
}

/// A call that is ready, and waits for this location, the first of those that are left to be judged. Nothing of the actor says so: the call
/// is in hand.
#[derive(Drop)]
pub struct WaitingCall<V> {
    pub call: Boxed<CallWithOutcome<V>>,
    pub left: VecDeque<(u32, u64)>,
    pub location: u32,
}

/// The location of the key that the call is on, counted from the first of its collection; none for a call on no key.
fn key_location_in<V: Value>(base: &Base<V>, op: &Op<V>) -> Option<u32>
    ensures place { result ≡ key_location_in (stripes_of base.now) (kind_of (shown_of base.now)) op.now }
    ensures within { (place : ℕ) → result ≡ Some place → place < stripes_of base.now }
{
    match base {
        Base::Map(map) => match op {
            Op::Get(key) | Op::Put(key, _) | Op::Remove(key) => Some(map.location_of(*key)),
            _ => None,
        },
        Base::Bag(bag) => match op {
            Op::Count(element) | Op::Add(element) | Op::Take(element) => Some(bag.location_of(
                *element,
            )),
            _ => None,
        },
        Base::Pq(_) => None,
        Base::Queue(_) => None,
    }
}

/// Whether the read set does not have the location.
#[inline(always)]
fn is_unread(words: &Actor, location: u32) -> bool
    ensures { result ≡ true → lookup words.now.reads.entries location ≡ None }
{
    !words.reads.contains(location)
}

/// The first of the locations that are left, where it is to be read.
#[inline(always)]
fn first_unread(words: &Actor, left: &VecDeque<(u32, u64)>) -> Option<u32>
    ensures next { IfSome result (λ l. judged words.now.reads.entries left.now.items ≡ Next l) }
    ensures all { IfSome result (λ l. left_after words.now.reads.entries left.now.items ≡ left.now.items) }
{
    match first_left(left) {
        None => None,
        Some(first) => {
            if is_unread(words, first.0) {
                return Some(first.0);
            }
            None
        }
    }
}

impl<V: Value> TxActor<V> {
    /// Whether the call is on a key whose location is to be read first, and its locations fit the sets.
    #[inline(always)]
    fn waits_for_key(
        &self,
        blocks: &Blocks,
        base: &Base<V>,
        asked: &CollectionCall<V>,
    ) -> Result<bool, Memory>
        requires { CanCopy blocks.now self.now base.now asked.now }
        ensures { IfOk result (λ waits. waits ≡ true → WaitsForKey blocks.now self.now base.now asked.now) }
    {
        let Some(offset) = key_location_in(base, &asked.op) else {
            return Ok(false);
        };
        let first = blocks.first_of(asked.collection);
        if !is_unread(&self.words, first + offset) {
            return Ok(false);
        }
        let stripes = blocks.stripes_of(asked.collection);
        let fits = fits_base(&self.words, base, stripes, first, &asked.op)?;
        Ok(fits)
    }

    /// What the call touches of the base is taken. Answers where the copy of its collection stands.
    #[inline(always)]
    fn takes_from(
        &mut self,
        alloc: Global,
        blocks: &Blocks,
        base: &Base<V>,
        asked: &CollectionCall<V>,
    ) -> Result<usize, Memory>
        requires { CanCopy blocks.now self.old base.now asked.now }
        ensures ok { IfOk result (λ place. AreTakenBy blocks.now self.old self.new base.now asked.now place) }
        ensures err { OnErr result (IsUnmoved self.old self.new) }
    {
        let stripes = blocks.stripes_of(asked.collection);
        let place = self.spares.take_from(
            &mut self.copies,
            alloc,
            stripes,
            asked.collection,
            base,
            &asked.op,
        )?;
        Ok(place)
    }

    /// Where it waits for its key, what it touches is taken; else nothing is.
    #[inline(always)]
    fn takes_key(
        &mut self,
        alloc: Global,
        blocks: &Blocks,
        base: &Base<V>,
        asked: &CollectionCall<V>,
    ) -> Result<Option<usize>, Memory>
        requires { CanCopy blocks.now self.old base.now asked.now }
        ensures ok { IfOk result (λ taken. AreTaken blocks.now self.old self.new base.now asked.now taken) }
        ensures err { OnErr result (IsUnmoved self.old self.new) }
    {
        if !self.waits_for_key(blocks, base, asked)? {
            return Ok(None);
        }
        let place = self.takes_from(alloc, blocks, base, asked)?;
        Ok(Some(place))
    }

    /// Like [`TxActor::takes`], of a call that is in hand.
    #[inline(always)]
    pub fn takes_call(
        &mut self,
        alloc: Global,
        blocks: &Blocks,
        base: &Base<V>,
        asked: CallInHand<V>,
    ) -> Result<Option<KeyedCall<V>>, Memory>
        requires { CanCopy blocks.now self.old base.now asked }
        ensures ok { IfOk result (λ taken. AreTakenFor blocks.now self.old self.new base.now asked taken) }
        ensures err { OnErr result (Starves (at self.old (Stage.Copying asked)) self.new told.Quiet) }
        ensures keeps { OnErr result (KeepsIn blocks.now (at self.old (Stage.Copying asked)) self.new) }
        ensures leaves { OnErr result (KeepsCopies (at self.old (Stage.Copying asked)) self.new) }
    {
        match self.takes_key(alloc, blocks, base, asked.get()) {
            Ok(Some(place)) => Ok(Some(KeyedCall { asked, place })),
            Ok(None) => {
                self.stage = Stage::Copying(asked);
                Ok(None)
            }
            Err(_) => {
                let _ = self.starves_copying(asked.get().collection);
                Err(Memory)
            }
        }
    }

    /// The gate of its call is held, and this is the base of the call's collection. Where the call is on a key whose location is to be read
    /// first, what it touches is taken, and the gate may be put back, after which the call continues ([`TxActor::continue_or_wait`]). Any
    /// other call is left as it is, to be [`TxActor::copy_at_gate`]. Where an allocation fails the transaction is aborted for `Memory`, and
    /// holds the gate.
    #[inline(always)]
    pub fn takes(
        &mut self,
        alloc: Global,
        blocks: &Blocks,
        base: &Base<V>,
    ) -> Result<Option<KeyedCall<V>>, Memory>
        requires { CanCopyAt blocks.now self.old base.now self.old.stage }
        ensures ok { IfOk result (λ taken. AreTakenAt blocks.now self.old self.new base.now taken self.old.stage) }
        ensures err { OnErr result (Starves self.old self.new told.Quiet) }
        ensures keeps { OnErr result (KeepsIn blocks.now self.old self.new) }
        ensures leaves { OnErr result (KeepsCopies self.old self.new) }
    {
        let stage = mem::replace(&mut self.stage, Stage::Idle);
        match stage {
            Stage::Copying(asked) => self.takes_call(alloc, blocks, base, asked),
            other => {
                self.stage = other;
                Ok(None)
            }
        }
    }

    /// A call that is prepared continues, as [`TxActor::continue_call`] says; where its first location is to be read it is handed over, and
    /// else what it is answered is in `said`.
    #[inline(always)]
    fn continue_to(
        &mut self,
        call: Boxed<CallWithOutcome<V>>,
        left: VecDeque<(u32, u64)>,
        said: &mut ActorNotice<V>,
    ) -> Option<WaitingCall<V>>
        requires prepared { CanAccept self.old call }
        ensures does { (a : ℕ) (w : World V) (x : Option (Outcome V)) → worlds.actor_of w a ≡ actor_of self.old.words →
            MayAnswer w a self.old.words x call left.items →
            let reads = self.old.words.reads.entries in
            let f = comes_to w a (seat_of self.old) (with_outcome call x) (left_after reads left.items) (judged reads left.items) in
            Runs a (waiting_at result self.new) f.0 × (notice_of a (told_at result said.new) ≡ f.1) }
        ensures goes { HasGone (judged self.old.words.reads.entries left.items) self.old (waiting_at result self.new)
            (told_at result said.new) call left.items }
        ensures keeps { (v : BlocksView) → CanGoOn v self.old call left.items → KeepsIn v (at self.old Stage.Idle)
            (waiting_at result self.new) }
    {
        match first_unread(&self.words, &left) {
            Some(location) => Some(WaitingCall {
                call,
                left,
                location,
            }),
            None => {
                *said = self.continue_call(call, left);
                None
            }
        }
    }

    /// The gate is put back of a call whose key was taken: the call is made ready, and waits for the location. Where it waits for its first
    /// one it is handed over, and else what it is answered is in `said`. Where an allocation fails it is aborted there, as the step of its
    /// seat and a failed allocation after it make of the seat.
    #[inline(always)]
    pub fn continue_keyed(
        &mut self,
        alloc: Global,
        blocks: &Blocks,
        taken: KeyedCall<V>,
        said: &mut ActorNotice<V>,
    ) -> Result<Option<WaitingCall<V>>, Memory>
        requires { WasTaken blocks.now self.old taken }
        ensures ok { IfOk result (λ waits. (r : TxActor V) (base : Base V) → CanCopy blocks.now r base taken.asked →
            IsTakenCall blocks.now r self.old base taken →
            StepsOn blocks.now (at r (Stage.Copying taken.asked)) (waiting_at waits self.new) (told_at waits said.new) base taken.asked
            × HasTaken blocks.now r (waiting_at waits self.new) (told_at waits said.new) base taken.asked) }
        ensures keeps { IfOk result (λ waits. (r : TxActor V) (base : Base V) → CanCopy blocks.now r base taken.asked →
            IsTakenCall blocks.now r self.old base taken → HasNoReads r.words →
            KeepsIn blocks.now (at r (Stage.Copying taken.asked)) (waiting_at waits self.new)) }
        ensures err { OnErr result ((r : TxActor V) (base : Base V) → CanCopy blocks.now r base taken.asked →
            IsTakenCall blocks.now r self.old base taken →
            StarvesBehind blocks.now (at r (Stage.Copying taken.asked)) self.new base taken.asked) }
        ensures bounds { OnErr result ((r : TxActor V) (base : Base V) → CanCopy blocks.now r base taken.asked →
            IsTakenCall blocks.now r self.old base taken → KeepsIn blocks.now (at r (Stage.Copying taken.asked)) self.new) }
        ensures leaves { OnErr result (KeepsCopies (at self.old Stage.Idle) self.new) }
    {
        let KeyedCall { asked, place } = taken;
        let first = blocks.first_of(asked.get().collection);
        let mut call = asked.answering();
        match self.readies(alloc, place, first, call.get_mut()) {
            Ok(Some(left)) => Ok(self.continue_to(call, left, said)),
            _ => {
                let _ = self.abort_for(Refusal::Memory);
                Err(Memory)
            }
        }
    }

    /// The call that was handed over is the actor's again.
    fn waits(&mut self, waiting: WaitingCall<V>) -> ActorNotice<V>
        ensures actor { self.new ≡ waiting_at (Some waiting) self.old }
        ensures told { result ≡ ActorNotice.Quiet }
    {
        let WaitingCall {
            call,
            left,
            location,
        } = waiting;
        self.words.place = Place::Look(location);
        self.stage = Stage::Loading(call, left);
        ActorNotice::Quiet
    }

    /// Like [`TxActor::continue_keyed`]: a call that waits for its first location is the actor's.
    #[inline(always)]
    pub fn continue_or_wait(
        &mut self,
        alloc: Global,
        blocks: &Blocks,
        taken: KeyedCall<V>,
    ) -> Result<ActorNotice<V>, Memory>
        requires { WasTaken blocks.now self.old taken }
        ensures ok { IfOk result (λ told. (r : TxActor V) (base : Base V) → CanCopy blocks.now r base taken.asked →
            IsTakenCall blocks.now r self.old base taken →
            StepsOn blocks.now (at r (Stage.Copying taken.asked)) self.new told base taken.asked
            × HasTaken blocks.now r self.new told base taken.asked) }
        ensures err { OnErr result ((r : TxActor V) (base : Base V) → CanCopy blocks.now r base taken.asked →
            IsTakenCall blocks.now r self.old base taken →
            StarvesBehind blocks.now (at r (Stage.Copying taken.asked)) self.new base taken.asked) }
        ensures keeps { (r : TxActor V) (base : Base V) → CanCopy blocks.now r base taken.asked →
            IsTakenCall blocks.now r self.old base taken → HasNoReads r.words →
            KeepsIn blocks.now (at r (Stage.Copying taken.asked)) self.new }
        ensures leaves { OnErr result (KeepsCopies (at self.old Stage.Idle) self.new) }
    {
        let mut said = ActorNotice::Quiet;
        match self.continue_keyed(alloc, blocks, taken, &mut said) {
            Ok(Some(waiting)) => Ok(self.waits(waiting)),
            Ok(None) => Ok(said),
            Err(_) => Err(Memory),
        }
    }
}
