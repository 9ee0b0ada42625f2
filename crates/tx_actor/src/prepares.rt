//! What a call on a copied collection takes is made ready before its first location is read: no allocation for it can fail then.
ghost use Rattle.std.specs.Prelude.{◌≡◌, ◌<◌, IfOk, OnOk, Some, length, slice_get};
ghost use Rattle.conflict.specs.declared.outcome.Outcome.{Outcome};
ghost use Rattle.actor_parts.specs.declared.copies.CopyOfCollection.{CopyOfCollection};
ghost use Rattle.tx_actor.specs.Prepares.{ArePrepared, AreReadied, HasRoomFor, IsAlike, MayPrepare, prepared_of};

use crate::actor::{CallWithOutcome, TxActor};
use crate::room::reserve_call;
use actor_parts::{Boxed, reserve_words, weigh};
use conflict::Outcome;
use seq_model::{Memory, Op, Reply, Value};
use std::alloc::Global;
use std::collections::VecDeque;
use step_core::Actor;

/// A call that is ready to continue, with what is left to be judged of it: locations, with the editions that were copied.
#[derive(Drop)]
pub struct Prepared<V> {
    pub call: Boxed<CallWithOutcome<V>>,
    pub left: VecDeque<(u32, u64)>,
}

impl<V: Value> TxActor<V> {
    fn make_room(
        &mut self,
        place: usize,
        outcome: &Outcome<V>,
        reads: usize,
        writes: usize,
    ) -> Result<(), Memory>
        requires { place < length self.old.copies.items }
        ensures alike { IsAlike self.old self.new }
        ensures room { OnOk result (HasRoomFor self.new place outcome.now reads writes) }
    {
        reserve_call(&mut self.calls)?;
        reserve_words(&mut self.words, reads, writes)?;
        self.copies[place].copied.ready(outcome)?;
        Ok(())
    }

    /// The reply of the outcome is copied, to be returned, and room is made for all that its call takes.
    fn readies_reply(
        &mut self,
        place: usize,
        outcome: &Option<Outcome<V>>,
        reads: usize,
        writes: usize,
        told: &mut Reply<V>,
    ) -> Result<(), Memory>
        requires { place < length self.old.copies.items }
        ensures alike { IsAlike self.old self.new }
        ensures ok { OnOk result ((o : Outcome V) → outcome.now ≡ Some o →
            HasRoomFor self.new place o reads writes × (told.new ≡ o.reply)) }
    {
        match outcome {
            Some(found) => {
                *told = found.reply.try_copy()?;
                self.make_room(place, found, reads, writes)?;
                Ok(())
            }
            None => Ok(()),
        }
    }

    /// Makes ready what a call takes which the copy at this position holds: its outcome, its writes, and room for all that it will read.
    /// The collection begins at location `first`. None where its locations don't fit the sets. What the actor shows is unchanged, also
    /// where an allocation fails.
    pub(crate) fn readies(
        &mut self,
        alloc: Global,
        place: usize,
        first: u32,
        call: &mut CallWithOutcome<V>,
    ) -> Result<Option<VecDeque<(u32, u64)>>, Memory>
        requires { MayPrepare self.old place first call.old.asked.op }
        ensures alike { IsAlike self.old self.new }
        ensures asked { call.new.asked ≡ call.old.asked }
        ensures ok { IfOk result (λ left. (c : CopyOfCollection V) → slice_get self.old.copies.items place ≡ Some c →
            AreReadied self.old self.new place first call.old.asked c call.new left) }
    {
        let mut left = self.spares.left(alloc);
        let fits = weigh(
            &mut call.outcome,
            &mut left,
            &mut call.writes,
            &self.words,
            &self.copies[place].copied,
            first,
            &call.asked.op,
        )?;
        if !fits {
            return Ok(None);
        }
        self.readies_reply(
            place,
            &call.outcome,
            left.len(),
            call.writes.len(),
            &mut call.told,
        )?;
        call.place = place;
        Ok(Some(left))
    }

    /// The same of a call that is handed over.
    pub(crate) fn prepares(
        &mut self,
        alloc: Global,
        place: usize,
        first: u32,
        op: Op<V>,
    ) -> Result<Option<Prepared<V>>, Memory>
        requires { MayPrepare self.old place first op }
        ensures alike { IsAlike self.old self.new }
        ensures ok { IfOk result (λ prepared. (c : CopyOfCollection V) → slice_get self.old.copies.items place ≡ Some c →
            ArePrepared self.old self.new place first op c prepared) }
    {
        let collection = self.copies[place].collection;
        let asked = self.spares.ask(alloc, collection, op)?;
        let mut call = asked.answering();
        let readied = self.readies(alloc, place, first, call.get_mut())?;
        match readied {
            Some(left) => Ok(Some(Prepared { call, left })),
            None => {
                self.spares.keep_call(call);
                Ok(None)
            }
        }
    }
}
