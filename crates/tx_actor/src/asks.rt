//! What an actor is asked: a read or a write of a word, and the two ends of its transaction. A request that needs room makes it first, and
//! leaves the actor as it was where an allocation fails.
ghost use Rattle.std.specs.Prelude.{◌≡◌, IfOk, OnErr, OnOk, false};
ghost use Rattle.seq_model.specs.declared.event.Notice.TheVariants.{Quiet};
ghost use Rattle.seq_model.specs.declared.call.Op.TheVariants as op;
ghost use Rattle.replay_log.specs.Worlds as worlds;
ghost use Rattle.replay_log.specs.Worlds.{ask_op, commits};
ghost use Rattle.tx_actor.specs.Asks.{AdmitsCall, Asks, MayStore, Stands};
ghost use Rattle.actor_parts.specs.Blocks.{BlocksView};
ghost use Rattle.actor_parts.specs.Requests.{HasNoReads};
ghost use Rattle.tx_actor.specs.ActorBounds.{KeepsIn};
ghost use Rattle.actor_parts.specs.Dispatch.{is_loading};
ghost use Rattle.tx_actor.specs.Running.{Does, seat_of, stage_of};

use crate::actor::{ActorNotice, Stage, TxActor};
use crate::room::{move_calls, reserve_call, reserve_made};
use actor_parts::{
    Blocks, close_words, fits_one, lock_words, read_word, seek_word, store_words, write_word,
    written_homes,
};
use seq_model::{Answer, CALL_LIMIT, Call, Memory, Op, Refusal, Reply};
use std::alloc::Global;

impl<V: Drop> TxActor<V> {
    /// A word is to be read. What a set has of it is answered at once. `NoSuch` where there is no such word, then `TooLong` past the
    /// limit of calls, or where it finds no room in the read set; neither changes anything.
    #[inline(never)]
    pub fn request_read(&mut self, blocks: &Blocks, word: u32) -> Result<ActorNotice<V>, Memory>
        ensures ok { IfOk result (λ told. Asks blocks.now self.old self.new told (λ a w. ask_op w a (seat_of self.old) word op.Read)) }
        ensures err { OnErr result (Stands self.old self.new) }
        ensures admits { OnErr result (AdmitsCall blocks.now self.old (record { target = word; op = op.Read })) }
        ensures keeps { HasNoReads self.old.words → is_loading (stage_of self.old.stage) ≡ false → KeepsIn blocks.now self.old self.new }
        ensures copies { self.new.copies ≡ self.old.copies }
    {
        if word >= blocks.words() {
            return Ok(ActorNotice::Refused(Refusal::NoSuch));
        }
        if self.calls.len() >= CALL_LIMIT {
            return Ok(ActorNotice::Refused(Refusal::TooLong));
        }
        let Some(found) = seek_word(&mut self.words, word) else {
            return Ok(ActorNotice::Refused(Refusal::TooLong));
        };
        reserve_call(&mut self.calls)?;
        match read_word(&mut self.words, word, found)? {
            Some(value) => Ok(self.read(word, value)),
            None => {
                self.stage = Stage::Reading(word);
                Ok(ActorNotice::Quiet)
            }
        }
    }

    /// A word is to be written, which is answered at once. `NoSuch` where there is no such word, and for a declared reader, then
    /// `TooLong` past the limit of calls, or where it finds no room in the write set; neither changes anything.
    #[inline(never)]
    pub fn request_write(
        &mut self,
        blocks: &Blocks,
        word: u32,
        value: u64,
    ) -> Result<ActorNotice<V>, Memory>
        ensures ok { IfOk result (λ told. Asks blocks.now self.old self.new told
            (λ a w. ask_op w a (seat_of self.old) word (op.Write value))) }
        ensures err { OnErr result (Stands self.old self.new) }
        ensures admits { OnErr result (AdmitsCall blocks.now self.old (record { target = word; op = op.Write value })) }
        ensures keeps { is_loading (stage_of self.old.stage) ≡ false → KeepsIn blocks.now self.old self.new }
        ensures copies { self.new.copies ≡ self.old.copies }
    {
        if word >= blocks.words() {
            return Ok(ActorNotice::Refused(Refusal::NoSuch));
        }
        if self.words.declared {
            return Ok(ActorNotice::Refused(Refusal::NoSuch));
        }
        if self.calls.len() >= CALL_LIMIT {
            return Ok(ActorNotice::Refused(Refusal::TooLong));
        }
        if !fits_one(&mut self.words.writes, word) {
            return Ok(ActorNotice::Refused(Refusal::TooLong));
        }
        reserve_call(&mut self.calls)?;
        write_word(&mut self.words, word, value)?;
        let call = Call {
            target: word,
            op: Op::Write(value),
        };
        self.calls.push_reserved((call, Reply::Done));
        self.stage = Stage::Open;
        Ok(ActorNotice::Answered(Answer::Replied(Reply::Done)))
    }

    /// Its transaction is to commit. Where it has written, the collections with a written location are found now. Its calls move into the
    /// list that its receipt is going to keep; theirs serves the next transaction. `Memory`, where an allocation fails, leaves the actor as
    /// it was.
    #[inline(always)]
    pub fn request_commit(
        &mut self,
        alloc: Global,
        blocks: &Blocks,
    ) -> Result<ActorNotice<V>, Memory>
        ensures ok { IfOk result (λ told. Asks blocks.now self.old self.new told
            (λ a w. commits w a (seat_of self.old) (worlds.actor_of w a).writes)) }
        ensures err { OnErr result (Stands self.old self.new) }
        ensures keeps { is_loading (stage_of self.old.stage) ≡ false → KeepsIn blocks.now self.old self.new }
        ensures copies { self.new.copies ≡ self.old.copies }
    {
        reserve_made(&mut self.made, &self.calls)?;
        if self.words.writes.len() == 0 {
            close_words(&mut self.words, blocks.end() as usize)?;
            move_calls(&mut self.calls, &mut self.made);
            self.stage = Stage::Closing;
            return Ok(ActorNotice::Quiet);
        }
        let list = self.spares.homes(alloc);
        let homes = written_homes(list, blocks, &self.words.writes)?;
        lock_words(&mut self.words, blocks.end() as usize)?;
        move_calls(&mut self.calls, &mut self.made);
        self.stage = Stage::Locking(homes);
        Ok(ActorNotice::Quiet)
    }

    /// Its first value is to be stored next, which is the next step of its word actor. All is locked and checked, and the gates are held.
    /// `Memory`, where an allocation fails, leaves the actor as it was.
    pub fn request_store(&mut self, blocks: &Blocks) -> Result<(), Memory>
        ensures ok { OnOk result (MayStore self.old self.new) }
        ensures err { OnErr result (Stands self.old self.new) }
        ensures keeps { is_loading (stage_of self.old.stage) ≡ false → KeepsIn blocks.now self.old self.new }
        ensures rest { self.new ≡ record self.old { words = self.new.words } }
    {
        store_words(&mut self.words, blocks.end() as usize)?;
        Ok(())
    }

    /// Its transaction is to end without a commit.
    pub fn request_abort(&mut self) -> ActorNotice<V>
        ensures does { Does self.old self.new result (λ a w. (worlds.cancels w a (record (seat_of self.old) { cause = None }), Quiet)) }
        ensures keeps { (v : BlocksView) → KeepsIn v self.old self.new }
        ensures copies { self.new.copies ≡ self.old.copies }
    {
        self.cause = None;
        self.start_cancel()
    }
}
