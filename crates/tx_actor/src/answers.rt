//! How a call on a copied collection is answered: it is accepted, or a location is read first, or its copy is found stale.
ghost use Rattle.std.specs.Prelude.{◌≡◌, ◌<◌, ◌≤◌, ℕ, [], All, IsSome, Option, Some, length, slice_get, true};
ghost use Rattle.replay_log.specs.Contents.{end_of};
ghost use Rattle.step_core.specs.Sound.{owed};
ghost use Rattle.replay_log.specs.Worlds as worlds;
ghost use Rattle.replay_log.specs.Worlds.{World};
ghost use Rattle.step_core.specs.Shown.{actor_of};
ghost use Rattle.tx_actor.specs.Answers.{CanAccept, CopiesAfter, IsAcceptedAt, MayAccept, MayAnswer};
ghost use Rattle.conflict.specs.declared.outcome.Outcome.{Outcome};
ghost use Rattle.actor_parts.specs.declared.copies.CopyOfCollection.{CopyOfCollection};
ghost use Rattle.actor_parts.specs.PrivateCopy.{IsReady, holds_call};
ghost use Rattle.actor_parts.specs.Judged.{comes_to, judged, left_after};
ghost use Rattle.actor_parts.specs.declared.judged.Judged.TheVariants as judged_as;
ghost use Rattle.actor_parts.specs.Blocks.{BlocksView};
ghost use Rattle.tx_actor.specs.CopiesByStage.{HasGone};
ghost use Rattle.tx_actor.specs.ActorBounds.{CanGoOn, KeepsIn};
ghost use Rattle.tx_actor.specs.Running.{Runs, answered_of, at, notice_of, seat_of, with_outcome};
ghost use Rattle.tx_actor.specs.declared.actor.ActorNotice.TheVariants as told;
ghost use Rattle.seq_model.specs.declared.event.Answer.TheVariants.{Replied};

use crate::actor::{ActorNotice, CallWithOutcome, Stage, TxActor};
use actor_parts::{Boxed, CopyOfCollection, Judged, judge, write_all};
use conflict::Outcome;
use seq_model::{Answer, Call, Op, Refusal, Reply, Value};
use std::collections::VecDeque;
use std::mem;
use step_core::Place;

/// The outcome, which is ready in the copy at this position, joins it. Hands its reply out.
#[inline(always)]
fn accept_at<V: Value>(
    copies: &mut Vec<CopyOfCollection<V>>,
    place: usize,
    outcome: &mut Option<Outcome<V>>,
) -> Reply<V>
    requires place { place < length copies.old.items }
    requires ready { (c : CopyOfCollection V) (x : Outcome V) → slice_get copies.old.items place ≡ Some c → outcome.old ≡ Some x →
        IsReady x c.copied × (holds_call c.copied x.op ≡ true) }
    requires some { IsSome outcome.old }
    ensures accepted { IsAcceptedAt place outcome.old copies.old.items copies.new.items }
    ensures reply { (x : Outcome V) → outcome.old ≡ Some x → result ≡ x.reply }
{
    match outcome {
        Some(found) => {
            copies[place].copied.accept(found);
            mem::replace(&mut found.reply, Reply::Done)
        }
        None => unreachable!(),
    }
}

impl<V: Value> TxActor<V> {
    /// A call is accepted, for which all is prepared: its writes are asked, and its outcome joins what there is of its collection.
    #[inline(always)]
    fn accepts(&mut self, call: Boxed<CallWithOutcome<V>>) -> ActorNotice<V>
        requires prepared { CanAccept self.old call }
        ensures does { (a : ℕ) (w : World V) → worlds.actor_of w a ≡ actor_of self.old.words → MayAccept w a call →
            let f = comes_to w a (seat_of self.old) (answered_of call) [] judged_as.All in
            Runs a self.new f.0 × (notice_of a result ≡ f.1) }
        ensures copies { IsAcceptedAt call.place call.outcome self.old.copies.items self.new.copies.items }
        ensures told { (self.new.stage ≡ Stage.Open) × (result ≡ told.Answered (Replied call.told)) }
        ensures keeps { (v : BlocksView) → All (λ d. d.0 < end_of v.words v.blocks) call.writes.items →
            KeepsIn v (at self.old Stage.Idle) self.new }
        ensures owed { owed self.new.words.place ≤ owed self.old.words.place }
    {
        let mut call = call;
        let answered = call.get_mut();
        write_all(&mut self.words, &answered.writes);
        let kept = accept_at(&mut self.copies, answered.place, &mut answered.outcome);
        let op = mem::replace(&mut answered.asked.op, Op::Read);
        let made = Call {
            target: answered.asked.collection,
            op,
        };
        self.calls.push_reserved((made, kept));
        let told = mem::replace(&mut answered.told, Reply::Done);
        self.spares.keep_call(call);
        self.stage = Stage::Open;
        ActorNotice::Answered(Answer::Replied(told))
    }

    /// A call that is prepared continues: its locations are judged by the read set, from the first. Where the set has them all with these
    /// editions it is accepted; the first that the set does not have is read next; one that it has with another edition is stale.
    #[inline(always)]
    pub(crate) fn continue_call(
        &mut self,
        call: Boxed<CallWithOutcome<V>>,
        left: VecDeque<(u32, u64)>,
    ) -> ActorNotice<V>
        requires prepared { CanAccept self.old call }
        ensures does { (a : ℕ) (w : World V) (x : Option (Outcome V)) → worlds.actor_of w a ≡ actor_of self.old.words →
            MayAnswer w a self.old.words x call left.items →
            let reads = self.old.words.reads.entries in
            let f = comes_to w a (seat_of self.old) (with_outcome call x) (left_after reads left.items) (judged reads left.items) in
            Runs a self.new f.0 × (notice_of a result ≡ f.1) }
        ensures copies { CopiesAfter (judged self.old.words.reads.entries left.items) call self.old.copies.items self.new.copies.items }
        ensures goes { HasGone (judged self.old.words.reads.entries left.items) self.old self.new result call left.items }
        ensures keeps { (v : BlocksView) → CanGoOn v self.old call left.items → KeepsIn v (at self.old Stage.Idle) self.new }
        ensures owed { owed self.new.words.place ≤ owed self.old.words.place }
    {
        let mut left = left;
        match judge(&self.words.reads, &mut left) {
            Judged::All => {
                self.spares.keep_left(left);
                self.accepts(call)
            }
            Judged::Next(location) => {
                self.words.place = Place::Look(location);
                self.stage = Stage::Loading(call, left);
                ActorNotice::Quiet
            }
            Judged::Stale(location, base_edition, word_edition) => {
                self.spares.keep_left(left);
                self.spares.keep_call(call);
                self.abort_for(Refusal::Stale {
                    location,
                    base_edition,
                    word_edition,
                })
            }
        }
    }
}
