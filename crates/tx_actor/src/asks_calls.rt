//! What an actor is asked of a collection. What it has of the collection answers, and else the collection's gate is tried.
ghost use Rattle.std.specs.Prelude.{◌≡◌, ◌<◌, true, length, IfOk, OnErr};
ghost use Rattle.replay_log.specs.Contents.{block_of};
ghost use Rattle.replay_log.specs.Worlds as worlds;
ghost use Rattle.replay_log.specs.Worlds.{calls_on, is_known};
ghost use Rattle.step_core.specs.Shown.{actor_of};
ghost use Rattle.tx_actor.specs.Calls.{AsksOwn, CanCall, ask_call, is_allowed};
ghost use Rattle.actor_parts.specs.CopyInWorld.{call_on};
ghost use Rattle.actor_parts.specs.Requests.{HasNoReads};
ghost use Rattle.tx_actor.specs.CopiesByStage.{ReadsStill};
ghost use Rattle.tx_actor.specs.ActorBounds.{KeepsIn};
ghost use Rattle.tx_actor.specs.Prepares.{IsAlike, IsHeldAt, IsHeldPosition};
ghost use Rattle.tx_actor.specs.Running.{seat_of};

use crate::actor::{ActorNotice, Stage, TxActor};
use crate::steps::MORE_TRIES;
use crate::straight::put_place;
use actor_parts::{Blocks, CopyOfCollection, is_change, is_known, position_of};
use seq_model::{CALL_LIMIT, Memory, Op, Refusal, Value};
use std::alloc::Global;
use step_core::Actor;

/// Whether the collection is there and answers the call, which is no change where a declared reader asks it.
fn is_allowed<V>(blocks: &Blocks, words: &Actor, collection: u32, op: &Op<V>) -> bool
    ensures allowed { result ≡ is_allowed blocks.now words.now collection op.now }
    ensures there { result ≡ true → collection < length blocks.now.blocks }
{
    match blocks.kind_of(collection) {
        Some(kind) => is_known(kind, op) && !(words.declared && is_change(op)),
        None => false,
    }
}

/// Where the copy of the collection stands, if it has what the call touches.
#[inline(always)]
fn held_position<V: Value>(
    copies: &[CopyOfCollection<V>],
    collection: u32,
    op: &Op<V>,
) -> Option<usize>
    ensures { IsHeldPosition copies.now collection op.now result }
{
    match position_of(copies, collection) {
        Some(place) => {
            if copies[place].copied.holds(op) {
                return Some(place);
            }
            None
        }
        None => None,
    }
}

impl<V: Value> TxActor<V> {
    /// The copy at this position has what the call touches. All that the call takes is made ready first.
    #[inline(never)]
    fn calls_ready(
        &mut self,
        alloc: Global,
        blocks: &Blocks,
        place: usize,
        collection: u32,
        op: Op<V>,
    ) -> Result<ActorNotice<V>, Memory>
        requires can { CanCall blocks.now self.old }
        requires there { collection < length blocks.now.blocks }
        requires known { is_known (block_of blocks.now.blocks collection) op ≡ true }
        requires may { worlds.may_ask (actor_of self.old.words) op ≡ true }
        requires held { IsHeldAt self.old.copies.items place collection op }
        ensures ok { IfOk result (λ told. AsksOwn blocks.now self.old self.new told
            (λ a w. calls_on w a (seat_of self.old) (call_on collection op))) }
        ensures err { OnErr result (IsAlike self.old self.new) }
        ensures keeps { HasNoReads self.old.words → KeepsIn blocks.now self.old self.new }
        ensures still { ReadsStill self.old.copies.items self.new.copies.items }
    {
        let first = blocks.first_of(collection);
        match self.prepares(alloc, place, first, op)? {
            Some(prepared) => Ok(self.continue_call(prepared.call, prepared.left)),
            None => {
                self.stage = Stage::Open;
                Ok(ActorNotice::Refused(Refusal::TooLong))
            }
        }
    }

    /// The copy at this position has what the call touches.
    #[inline(always)]
    fn calls_held(
        &mut self,
        alloc: Global,
        blocks: &Blocks,
        place: usize,
        collection: u32,
        op: Op<V>,
    ) -> Result<ActorNotice<V>, Memory>
        requires can { CanCall blocks.now self.old }
        requires there { collection < length blocks.now.blocks }
        requires known { is_known (block_of blocks.now.blocks collection) op ≡ true }
        requires may { worlds.may_ask (actor_of self.old.words) op ≡ true }
        requires held { IsHeldAt self.old.copies.items place collection op }
        ensures ok { IfOk result (λ told. AsksOwn blocks.now self.old self.new told
            (λ a w. calls_on w a (seat_of self.old) (call_on collection op))) }
        ensures err { OnErr result (IsAlike self.old self.new) }
        ensures keeps { HasNoReads self.old.words → KeepsIn blocks.now self.old self.new }
        ensures still { ReadsStill self.old.copies.items self.new.copies.items }
    {
        let first = blocks.first_of(collection);
        match put_place(&self.words, &self.copies[place].copied, first, &op) {
            Some(at) => {
                let told = self.puts_at(blocks, place, first, collection, op, at)?;
                Ok(told)
            }
            None => {
                let told = self.calls_ready(alloc, blocks, place, collection, op)?;
                Ok(told)
            }
        }
    }

    /// A call that is allowed.
    fn calls_on(
        &mut self,
        alloc: Global,
        blocks: &Blocks,
        collection: u32,
        op: Op<V>,
    ) -> Result<ActorNotice<V>, Memory>
        requires can { CanCall blocks.now self.old }
        requires there { collection < length blocks.now.blocks }
        requires known { is_known (block_of blocks.now.blocks collection) op ≡ true }
        requires may { worlds.may_ask (actor_of self.old.words) op ≡ true }
        ensures ok { IfOk result (λ told. AsksOwn blocks.now self.old self.new told
            (λ a w. calls_on w a (seat_of self.old) (call_on collection op))) }
        ensures err { OnErr result (IsAlike self.old self.new) }
        ensures keeps { HasNoReads self.old.words → KeepsIn blocks.now self.old self.new }
        ensures still { ReadsStill self.old.copies.items self.new.copies.items }
    {
        match held_position(&self.copies, collection, &op) {
            Some(place) => {
                let told = self.calls_held(alloc, blocks, place, collection, op)?;
                Ok(told)
            }
            None => {
                let asked = self.spares.ask(alloc, collection, op)?;
                self.stage = Stage::Trying(asked, MORE_TRIES);
                Ok(ActorNotice::Quiet)
            }
        }
    }

    /// A call on a collection. `NoSuch` where there is no such collection, or it is of another kind, and for a change in a declared reader,
    /// then `TooLong` past the limit of calls; neither changes anything. What the transaction has of the collection answers: `TooLong`
    /// where the call's locations don't fit the sets, else it is accepted, or a location is read first, or the transaction is aborted, as
    /// its copy is stale. Where it has not what the call touches, the collection's gate is tried next. `Memory`, where an allocation fails,
    /// leaves the actor as it was.
    pub fn request_call(
        &mut self,
        alloc: Global,
        blocks: &Blocks,
        collection: u32,
        op: Op<V>,
    ) -> Result<ActorNotice<V>, Memory>
        requires { CanCall blocks.now self.old }
        ensures ok { IfOk result (λ told. AsksOwn blocks.now self.old self.new told
            (λ a w. ask_call w a (seat_of self.old) collection op)) }
        ensures err { OnErr result (IsAlike self.old self.new) }
        ensures allowed { OnErr result (is_allowed blocks.now self.old.words collection op ≡ true) }
        ensures few { OnErr result (length self.old.calls.items < CALL_LIMIT) }
        ensures keeps { HasNoReads self.old.words → KeepsIn blocks.now self.old self.new }
        ensures still { ReadsStill self.old.copies.items self.new.copies.items }
    {
        if !is_allowed(blocks, &self.words, collection, &op) {
            return Ok(ActorNotice::Refused(Refusal::NoSuch));
        }
        if self.calls.len() >= CALL_LIMIT {
            return Ok(ActorNotice::Refused(Refusal::TooLong));
        }
        let told = self.calls_on(alloc, blocks, collection, op)?;
        Ok(told)
    }
}
