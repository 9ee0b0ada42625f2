//! What a call makes of its actor while the gate of its collection is held: what it touches is copied from the base, and it continues with
//! that copy once the gate is put back.
ghost use Rattle.std.specs.Prelude.{◌≡◌, ◌<◌, ◌+◌, ◌≤◌, ◌^◌, IfOk, OnErr, Some, length};
ghost use Rattle.replay_log.specs.Base.{locations_of, shown_of, stripes_of};
ghost use Rattle.replay_log.specs.Contents.{block_of, first_of};
ghost use Rattle.actor_parts.specs.PrivateCopy.{IsFound};
ghost use Rattle.tx_actor.specs.Copying.{AreReadyIn, CanCopy, CanCopyAt, HasTaken, HasTakenAt, IsReadyIn, IsUnmoved, MayTake, StepsOn};
ghost use Rattle.tx_actor.specs.Copying.{StepsOnAt};
ghost use Rattle.actor_parts.specs.Requests.{HasNoReads};
ghost use Rattle.tx_actor.specs.Dispatch.{Starves};
ghost use Rattle.tx_actor.specs.CopiesByStage.{KeepsCopies};
ghost use Rattle.tx_actor.specs.ActorBounds.{KeepsIn};
ghost use Rattle.tx_actor.specs.Running.{at};
ghost use Rattle.tx_actor.specs.declared.actor.ActorNotice.TheVariants as told;

use crate::actor::{ActorNotice, CallWithOutcome, Stage, TxActor};
use crate::hand::CallInHand;
use actor_parts::{BaseExcerpt, Blocks, fits_base, take_back};
use replay_log::Base;
use seq_model::{Memory, Refusal, Value};
use std::alloc::Global;
use std::collections::VecDeque;
use std::mem;

impl<V: Value> TxActor<V> {
    /// What was found for the call is taken, and what the call takes is made ready. Returns where the copy of its collection stands. Where
    /// an allocation fails it is taken back.
    fn readies_copy(
        &mut self,
        alloc: Global,
        stripes: u32,
        first: u32,
        found: BaseExcerpt<V>,
        call: &mut CallWithOutcome<V>,
    ) -> Result<VecDeque<(u32, u64)>, Memory>
        requires { MayTake self.old stripes first found call.old.asked }
        ensures ok { IfOk result (λ left. IsReadyIn self.old self.new stripes first found call.old.asked call.new left) }
        ensures err { OnErr result (IsUnmoved self.old self.new) }
    {
        let count = self.copies.len();
        let place = self.spares.take(
            &mut self.copies,
            alloc,
            stripes,
            call.asked.collection,
            found,
        )?;
        match self.readies(alloc, place, first, call) {
            Ok(Some(left)) => Ok(left),
            _ => {
                take_back(&mut self.copies, count, place, &call.asked.op);
                Err(Memory)
            }
        }
    }

    /// What the call touches of the base is copied, where its locations fit the sets; none where they don't.
    fn copies_for(
        &mut self,
        alloc: Global,
        blocks: &Blocks,
        base: &Base<V>,
        call: &mut CallWithOutcome<V>,
    ) -> Result<Option<VecDeque<(u32, u64)>>, Memory>
        requires { CanCopy blocks.now self.old base.now call.old.asked }
        ensures ok { IfOk result (λ copied. AreReadyIn blocks.now self.old self.new base.now call.old.asked call.new copied) }
        ensures err { OnErr result (IsUnmoved self.old self.new) }
    {
        let first = blocks.first_of(call.asked.collection);
        let stripes = blocks.stripes_of(call.asked.collection);
        if !fits_base(&self.words, base, stripes, first, &call.asked.op)? {
            return Ok(None);
        }
        match self.spares.find(alloc, base, &call.asked.op) {
            Ok(found) => {
                let left = self.readies_copy(alloc, stripes, first, found, call)?;
                Ok(Some(left))
            }
            Err(_) => Err(Memory),
        }
    }

    fn on_copied(
        &mut self,
        alloc: Global,
        blocks: &Blocks,
        base: &Base<V>,
        asked: CallInHand<V>,
    ) -> Result<ActorNotice<V>, Memory>
        requires { CanCopy blocks.now self.old base.now asked }
        ensures ok { IfOk result (λ told. StepsOn blocks.now (at self.old (Stage.Copying asked)) self.new told base.now asked) }
        ensures err { OnErr result (Starves (at self.old (Stage.Copying asked)) self.new told.Quiet) }
        ensures keeps { HasNoReads self.old.words → KeepsIn blocks.now (at self.old (Stage.Copying asked)) self.new }
        ensures copies { IfOk result (λ told. HasTaken blocks.now self.old self.new told base.now asked) }
        ensures leaves { OnErr result (KeepsCopies (at self.old (Stage.Copying asked)) self.new) }
    {
        let collection = asked.get().collection;
        let mut call = asked.answering();
        match self.copies_for(alloc, blocks, base, call.get_mut()) {
            Ok(Some(left)) => Ok(self.continue_call(call, left)),
            Ok(None) => {
                self.spares.keep_call(call);
                self.stage = Stage::Open;
                Ok(ActorNotice::Refused(Refusal::TooLong))
            }
            Err(_) => {
                let _ = self.starves_copying(collection);
                Err(Memory)
            }
        }
    }

    /// The gate of its call is held, and this is the base of the call's collection: what the call touches is copied, and the gate may be
    /// put back. `TooLong` where its locations don't fit the sets, else it is accepted, or a location is read first, or the transaction is
    /// aborted, as the copy is stale. Where an allocation fails the transaction is aborted for `Memory`, and holds the gate.
    pub fn copy_at_gate(
        &mut self,
        alloc: Global,
        blocks: &Blocks,
        base: &Base<V>,
    ) -> Result<ActorNotice<V>, Memory>
        requires { CanCopyAt blocks.now self.old base.now self.old.stage }
        ensures ok { IfOk result (λ told. StepsOnAt blocks.now self.old self.new told base.now self.old.stage) }
        ensures err { OnErr result (Starves self.old self.new told.Quiet) }
        ensures keeps { HasNoReads self.old.words → KeepsIn blocks.now self.old self.new }
        ensures copies { IfOk result (λ told. HasTakenAt blocks.now self.old self.new told base.now self.old.stage) }
        ensures leaves { OnErr result (KeepsCopies self.old self.new) }
    {
        let stage = mem::replace(&mut self.stage, Stage::Idle);
        match stage {
            Stage::Copying(asked) => self.on_copied(alloc, blocks, base, asked),
            other => Ok(self.unchanged(other)),
        }
    }
}
