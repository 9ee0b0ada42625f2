//! What an actor is asked, whatever it is: where its request stands decides what may be asked.
ghost use Rattle.std.specs.Prelude.{◌≡◌, ◌≢◌, ◌⊎◌, IfOk, OnErr};
ghost use Rattle.replay_log.specs.Worlds.{ask_at, ask_idle, ask_op, ask_open};
ghost use Rattle.tx_actor.specs.Asks.{Admits, AdmitsCall};
ghost use Rattle.tx_actor.specs.Calls.{AsksAt, AsksOwn, CanCall, StandsOwn};
ghost use Rattle.actor_parts.specs.Blocks.{BlocksView};
ghost use Rattle.actor_parts.specs.Requests.{HasNoReads};
ghost use Rattle.tx_actor.specs.CopiesByStage.{ReadsStill};
ghost use Rattle.tx_actor.specs.ActorBounds.{KeepsIn};
ghost use Rattle.tx_actor.specs.Running.{Does, seat_of, stage_of};

use crate::actor::{ActorNotice, Stage, TxActor};
use actor_parts::Blocks;
use seq_model::{Call, Memory, Op, Refusal, Request, Value};
use std::alloc::Global;

impl<V: Value> TxActor<V> {
    /// It has no transaction.
    #[inline(never)]
    fn request_idle(&mut self, request: Request<V>) -> ActorNotice<V>
        ensures does { Does self.old self.new result (λ a w. ask_idle w a (seat_of self.old) request) }
        ensures keeps { (v : BlocksView) → KeepsIn v self.old self.new }
        ensures copies { self.new.copies ≡ self.old.copies }
        ensures apart { (self.new.stage ≡ Stage.Beginning) ⊎ (self.new ≡ self.old) }
    {
        match request {
            Request::Begin => self.start(),
            Request::BeginRead => self.start_reader(),
            _ => ActorNotice::Refused(Refusal::NoTransaction),
        }
    }

    fn request_op(
        &mut self,
        alloc: Global,
        blocks: &Blocks,
        call: Call<V>,
    ) -> Result<ActorNotice<V>, Memory>
        requires { CanCall blocks.now self.old }
        ensures ok { IfOk result (λ told. AsksOwn blocks.now self.old self.new told
            (λ a w. ask_op w a (seat_of self.old) call.target call.op)) }
        ensures err { OnErr result (StandsOwn self.old self.new) }
        ensures admits { OnErr result (AdmitsCall blocks.now self.old call) }
        ensures keeps { HasNoReads self.old.words → KeepsIn blocks.now self.old self.new }
        ensures still { ReadsStill self.old.copies.items self.new.copies.items }
    {
        match call.op {
            Op::Read => Ok(self.request_read(blocks, call.target)?),
            Op::Write(value) => Ok(self.request_write(blocks, call.target, value)?),
            op => Ok(self.request_call(alloc, blocks, call.target, op)?),
        }
    }

    /// It is idle in its transaction.
    #[inline(always)]
    fn request_open(
        &mut self,
        alloc: Global,
        blocks: &Blocks,
        request: Request<V>,
    ) -> Result<ActorNotice<V>, Memory>
        requires { CanCall blocks.now self.old }
        ensures ok { IfOk result (λ told. AsksOwn blocks.now self.old self.new told (λ a w. ask_open w a (seat_of self.old) request)) }
        ensures err { OnErr result (StandsOwn self.old self.new) }
        ensures admits { OnErr result (Admits blocks.now self.old request) }
        ensures keeps { HasNoReads self.old.words → KeepsIn blocks.now self.old self.new }
        ensures still { ReadsStill self.old.copies.items self.new.copies.items }
    {
        match request {
            Request::Begin => Ok(ActorNotice::Refused(Refusal::NotIdle)),
            Request::BeginRead => Ok(ActorNotice::Refused(Refusal::NotIdle)),
            Request::Call(call) => Ok(self.request_op(alloc, blocks, call)?),
            Request::Commit => Ok(self.request_commit(alloc, blocks)?),
            Request::Abort => Ok(self.request_abort()),
        }
    }

    /// A request. `NotIdle` where another is under way, or a begin within a transaction, and `NoTransaction` for a call or an end without
    /// one; else as the request's own method says. `Memory` leaves the actor as it was, and comes only where none of these refuses the
    /// request, nor `NoSuch`, nor the limit of calls, nor a set without room for a word. Where it is not idle in its transaction it begins
    /// one, or is unchanged.
    #[inline(always)]
    pub fn request(
        &mut self,
        alloc: Global,
        blocks: &Blocks,
        request: Request<V>,
    ) -> Result<ActorNotice<V>, Memory>
        requires { self.old.stage ≡ Stage.Open → CanCall blocks.now self.old }
        ensures ok { IfOk result (λ told. AsksAt blocks.now self.old self.new told
            (λ a w. ask_at w a (seat_of self.old) (stage_of self.old.stage) request)) }
        ensures err { OnErr result (StandsOwn self.old self.new) }
        ensures admits { OnErr result (Admits blocks.now self.old request) }
        ensures open { OnErr result (self.old.stage ≡ Stage.Open) }
        ensures keeps { (self.old.stage ≡ Stage.Open → HasNoReads self.old.words) → KeepsIn blocks.now self.old self.new }
        ensures still { ReadsStill self.old.copies.items self.new.copies.items }
        ensures apart { self.old.stage ≢ Stage.Open → (self.new.stage ≡ Stage.Beginning) ⊎ (self.new ≡ self.old) }
    {
        match self.stage {
            Stage::Idle => Ok(self.request_idle(request)),
            Stage::Open => Ok(self.request_open(alloc, blocks, request)?),
            _ => Ok(ActorNotice::Refused(Refusal::NotIdle)),
        }
    }
}
