//! A put on a key that the transaction has, and whose location it has read: it is accepted at once, without a stage, and without an
//! outcome, which would be one more copy of its value.
ghost use Rattle.std.specs.Prelude.{◌≡◌, ◌<◌, ◌+◌, ◌^◌, [], ◌∷◌, IfOk, IfSome, OnErr, OnOk, Some, length, slice_get, true};
ghost use Rattle.replay_log.specs.Contents.{block_of, first_of};
ghost use Rattle.replay_log.specs.Worlds as worlds;
ghost use Rattle.replay_log.specs.Worlds.{calls_on, is_known};
ghost use Rattle.shadow.specs.Memo.{put_of};
ghost use Rattle.step_core.specs.Shown.{actor_of};
ghost use Rattle.actor_parts.specs.declared.copies.CopyOfCollection.{CopyOfCollection};
ghost use Rattle.actor_parts.specs.PrivateCopy.{IsAccepted, IsKept, holds_call};
ghost use Rattle.actor_parts.specs.CopyInWorld.{call_on};
ghost use Rattle.actor_parts.specs.CopyList.{AreKept};
ghost use Rattle.actor_parts.specs.Requests.{HasNoReads};
ghost use Rattle.tx_actor.specs.Answers.{IsAcceptedAt};
ghost use Rattle.tx_actor.specs.Calls.{AsksOwn, CanCall};
ghost use Rattle.tx_actor.specs.CopiesByStage.{ReadsStill};
ghost use Rattle.tx_actor.specs.ActorBounds.{KeepsIn};
ghost use Rattle.tx_actor.specs.Prepares.{IsAlike, IsHeldAt};
ghost use Rattle.tx_actor.specs.Running.{seat_of};
ghost use Rattle.tx_actor.specs.Straight.{CanPut, HasRoomToPut, IsPutRead, put_outcome};

use crate::actor::{ActorNotice, TxActor};
use crate::room::reserve_call;
use actor_parts::{Blocks, CopyOfCollection, PrivateCopy, reserve_words, surely_fits, write_all};
use seq_model::{Answer, Call, Memory, Op, Reply, Value};
use step_core::Actor;

/// Of a map's key its location, and the edition with which that was copied, if it was read with this edition too, and the sets surely take
/// it.
#[inline(always)]
fn entry_location<V: Value>(
    words: &Actor,
    copied: &PrivateCopy<V>,
    first: u32,
    key: u64,
) -> Option<(u32, u64)>
    ensures { IfSome result (λ at. (value : V) → holds_call copied.now (put_of key value) ≡ true →
        IsPutRead words.now copied.now first (put_of key value) at) }
{
    if words.declared || !surely_fits(words, 1, 1) {
        return None;
    }
    let at = copied.entry_edition(key)?;
    let location = first.checked_add(at.0)?;
    let found = words.reads.find(location)?;
    if found != at.1 || found == u64::MAX {
        return None;
    }
    Some(at)
}

/// Where a put writes in its collection, and the edition that was read there, where it can be accepted at once.
#[inline(always)]
pub(crate) fn put_place<V: Value>(
    words: &Actor,
    copied: &PrivateCopy<V>,
    first: u32,
    op: &Op<V>,
) -> Option<(u32, u64)>
    ensures { IfSome result (λ at. holds_call copied.now op.now ≡ true → IsPutRead words.now copied.now first op.now at) }
{
    match op {
        Op::Put(key, _) => {
            let at = entry_location(words, copied, first, *key)?;
            Some(at)
        }
        _ => None,
    }
}

/// Puts the value on its key, whose location this is. Answers its reply twice.
#[inline(always)]
fn put_on_key<V: Value>(
    copied: &mut PrivateCopy<V>,
    op: &Op<V>,
    location: u32,
) -> Result<(Reply<V>, Reply<V>), Memory>
    requires can { CanPut copied.old op.now location }
    ensures accepted { OnOk result (IsAccepted (put_outcome copied.old op.now) copied.old copied.new) }
    ensures replies { IfOk result (λ replies. let o = put_outcome copied.old op.now in (replies.0 ≡ o.reply) × (replies.1 ≡ o.reply)) }
    ensures err { OnErr result (IsKept copied.old copied.new) }
{
    match op {
        Op::Put(key, value) => copied.put(*key, value, location),
        _ => unreachable!(),
    }
}

/// The same in the copy at this position.
#[inline(always)]
fn put_in<V: Value>(
    copies: &mut Vec<CopyOfCollection<V>>,
    place: usize,
    op: &Op<V>,
    location: u32,
) -> Result<(Reply<V>, Reply<V>), Memory>
    requires place { place < length copies.old.items }
    requires can { (c : CopyOfCollection V) → slice_get copies.old.items place ≡ Some c → CanPut c.copied op.now location }
    ensures accepted { OnOk result ((c : CopyOfCollection V) → slice_get copies.old.items place ≡ Some c →
        IsAcceptedAt place (Some (put_outcome c.copied op.now)) copies.old.items copies.new.items) }
    ensures replies { IfOk result (λ replies. (c : CopyOfCollection V) → slice_get copies.old.items place ≡ Some c →
        let o = put_outcome c.copied op.now in (replies.0 ≡ o.reply) × (replies.1 ≡ o.reply)) }
    ensures err { OnErr result (AreKept copies.old.items copies.new.items) }
{
    let replies = put_on_key(&mut copies[place].copied, op, location)?;
    Ok(replies)
}

impl<V: Value> TxActor<V> {
    /// Makes room for a put.
    #[inline(always)]
    fn room_to_put(&mut self) -> Result<(), Memory>
        ensures alike { IsAlike self.old self.new }
        ensures copies { self.new.copies ≡ self.old.copies }
        ensures room { OnOk result (HasRoomToPut self.new) }
    {
        reserve_call(&mut self.calls)?;
        reserve_words(&mut self.words, 0, 1)?;
        Ok(())
    }

    /// A put on a held key, whose location was read. Its reply is copied before anything changes.
    #[inline(always)]
    pub(crate) fn puts_at(
        &mut self,
        blocks: &Blocks,
        place: usize,
        first: u32,
        collection: u32,
        op: Op<V>,
        at: (u32, u64),
    ) -> Result<ActorNotice<V>, Memory>
        requires can { CanCall blocks.now self.old }
        requires there { collection < length blocks.now.blocks }
        requires known { is_known (block_of blocks.now.blocks collection) op ≡ true }
        requires may { worlds.may_ask (actor_of self.old.words) op ≡ true }
        requires held { IsHeldAt self.old.copies.items place collection op }
        requires first { first ≡ first_of blocks.now.words blocks.now.blocks collection }
        requires read { (c : CopyOfCollection V) → slice_get self.old.copies.items place ≡ Some c
            → IsPutRead self.old.words c.copied first op at }
        ensures ok { IfOk result (λ told. AsksOwn blocks.now self.old self.new told
            (λ a w. calls_on w a (seat_of self.old) (call_on collection op))) }
        ensures err { OnErr result (IsAlike self.old self.new) }
        ensures keeps { HasNoReads self.old.words → KeepsIn blocks.now self.old self.new }
        ensures still { ReadsStill self.old.copies.items self.new.copies.items }
    {
        self.room_to_put()?;
        let replies = put_in(&mut self.copies, place, &op, at.0)?;
        write_all(&mut self.words, &[(first + at.0, at.1 + 1)]);
        let (kept, told) = replies;
        let made = Call {
            target: collection,
            op,
        };
        self.calls.push_reserved((made, kept));
        Ok(ActorNotice::Answered(Answer::Replied(told)))
    }
}
