//! What each stage makes of an actor, given what its step found. The contracts speak of every world that shows the actor.
ghost use Rattle.std.specs.Prelude.{◌≡◌, ◌<◌, All, ◌≤◌, ◌==◌, ℕ, true, false, List, [], ◌∷◌, ◌++◌, take, drop, length, if◌then◌else◌};
ghost use Rattle.std.specs.Vec.{vec_len, vec_capacity};
ghost use Rattle.tx_machine.specs.Notices as notice;
ghost use Rattle.tx_machine.specs.Requests.{ask, AskBegin, AskBeginRead};
ghost use Rattle.seq_model.specs.declared.event.Request.TheVariants as request;
ghost use Rattle.step_core.specs.Shown.{actor_of};
ghost use Rattle.seq_model.specs.declared.event.Answer.TheVariants as answer;
ghost use Rattle.seq_model.specs.declared.event.Notice.TheVariants.{Quiet, Answered};
ghost use Rattle.replay_log.specs.Worlds as worlds;
ghost use Rattle.replay_log.specs.Worlds.{is_leaving, no_one, because, seated, recorded, has_begun, has_read, has_cancelled, has_released};
ghost use Rattle.replay_log.specs.Worlds.{has_stored, has_tried, has_locked, takes_gates, written_homes, ended, ask_idle, starve_at, Seat};
ghost use Rattle.replay_log.specs.Worlds.{World};
ghost use Rattle.step_core.specs.Blank.{IsBlank};
ghost use Rattle.step_core.specs.Sound.{Fits, owed};
ghost use Rattle.actor_parts.specs.Blocks.{BlocksView};
ghost use Rattle.tx_actor.specs.Dispatch.{HasRoom};
ghost use Rattle.actor_parts.specs.Dispatch.{MayRelease};
ghost use Rattle.actor_parts.specs.declared.copies.CopyOfCollection.{CopyOfCollection};
ghost use Rattle.tx_actor.specs.CopiesByStage.{IsWhole, KeepsCopies, KeepsFrom};
ghost use Rattle.tx_actor.specs.ActorBounds.{IsRunning, KeepsIn, NamesAmong};
ghost use Rattle.tx_actor.specs.Running.{IsSeatOf, KnowsHomes, Reseats, Runs, asked_of, at, is_recorded, notice_of, seat_in, seat_of};
ghost use Rattle.tx_actor.specs.Running.{stage_in, stage_of};

use crate::actor::{ActorNotice, Stage, TxActor};
use crate::hand::{ActorSpares, CallInHand};
use crate::room::keep_larger;
use actor_parts::{abort, cancel, release};
use seq_model::{Answer, Call, Op, Refusal, Reply};
use std::alloc::Global;
use std::collections::VecDeque;
use std::mem;
use step_core::{Actor, Place};

/// The tries on a gate, but for the first.
pub(crate) const MORE_TRIES: u32 = 63;

/// Whether there are none.
pub(crate) fn has_none(homes: &VecDeque<u32>) -> bool
    ensures { result ≡ (length homes.now.items == 0) }
{
    homes.is_empty()
}

/// A transaction is to begin, of a declared reader or not.
fn begin(words: &mut Actor, declared: bool)
    ensures actor { actor_of words.new ≡ ask (actor_of words.old) (actor_of words.old).place (if declared then AskBeginRead else AskBegin) }
    ensures fits { (n : ℕ) → Fits n words.old → Fits n words.new }
    ensures owed { owed words.new.place ≤ owed words.old.place }
{
    if let Place::Idle = words.place {
        words.place = Place::Begin;
        words.declared = declared;
    }
}

/// The stage of a transaction that is locked: its gates are tried, where there are some.
fn gating_or_ready<V: Drop>(homes: VecDeque<u32>) -> Stage<V>
    ensures stage { (s : worlds.Stage V) → stage_in s result ≡ takes_gates [] homes.items }
    ensures knows { (ks : List ℕ) → KnowsHomes result ks }
    ensures names { (n : ℕ) → All (λ k. k < n) homes.items → NamesAmong n result }
    ensures room { (r : TxActor V) → HasRoom r result }
    ensures shown { is_recorded result ≡ false }
    ensures copies { (s : Stage V) (cs : List (CopyOfCollection V)) → IsWhole s → KeepsFrom result s cs cs }
{
    if has_none(&homes) {
        return Stage::Ready(homes);
    }
    Stage::Gating(homes, 0, MORE_TRIES)
}

/// The stage of a transaction that holds the gates of so many of these collections.
#[inline(always)]
fn next_gate<V: Drop>(homes: VecDeque<u32>, got: usize) -> Stage<V>
    requires inside { got ≤ length homes.items }
    ensures stage { (s : worlds.Stage V) → stage_in s result ≡ takes_gates (take got homes.items) (drop got homes.items) }
    ensures knows { (ks : List ℕ) → KnowsHomes result ks }
    ensures names { (n : ℕ) → All (λ k. k < n) homes.items → NamesAmong n result }
    ensures room { (r : TxActor V) → HasRoom r result }
    ensures shown { is_recorded result ≡ false }
    ensures copies { (s : Stage V) (cs : List (CopyOfCollection V)) → IsWhole s → KeepsFrom result s cs cs }
{
    if homes.len() <= got {
        return Stage::Ready(homes);
    }
    Stage::Gating(homes, got, MORE_TRIES)
}

/// The stage of a transaction that is to end: its locks go back, where there are some, and then the clock is loaded.
pub(crate) fn leaving_or_cancelling<V>(words: &Actor) -> Stage<V>
    ensures stage { (s : worlds.Stage V) → stage_in s result ≡
        (if is_leaving (actor_of words.now).place then worlds.Leaving else worlds.Cancelling) }
    ensures knows { (ks : List ℕ) → KnowsHomes result ks }
    ensures names { (n : ℕ) → NamesAmong n result }
    ensures room { (r : TxActor V) → HasRoom r result }
    ensures shown { is_recorded result ≡ false }
    ensures copies { (s : Stage V) (before now : List (CopyOfCollection V)) → KeepsFrom result s before now }
{
    match words.place {
        Place::Leave => Stage::Leaving,
        _ => Stage::Cancelling,
    }
}

impl<V: Drop> TxActor<V> {
    /// An actor without a transaction. It takes no memory.
    pub fn new(alloc: Global) -> TxActor<V>
        ensures seat { seat_of result ≡ no_one }
        ensures stage { result.stage ≡ Stage.Idle }
        ensures words { IsBlank result.words }
        ensures running { (v : BlocksView) → IsRunning v result }
    {
        TxActor {
            words: Actor::new(alloc),
            stage: Stage::Idle,
            rv: 0,
            wv: 0,
            cause: None,
            calls: Vec::new(alloc),
            made: Vec::new(alloc),
            copies: Vec::new(alloc),
            spares: ActorSpares::new(alloc),
        }
    }

    /// It has no transaction any more, or a new one.
    fn clear(&mut self, stage: Stage<V>, rv: u64)
        ensures seat { (s : worlds.Stage V) → seat_in s self.new ≡ record no_one { stage = stage_in s stage; rv = rv } }
        ensures made { self.new.made ≡ self.old.made }
        ensures words { actor_of self.new.words ≡ actor_of self.old.words }
        ensures knows { (ks : List ℕ) → KnowsHomes stage ks → KnowsHomes self.new.stage ks }
        ensures stage { self.new.stage ≡ stage }
        ensures rest { self.new.words ≡ self.old.words }
        ensures copies { self.new.copies.items ≡ [] }
    {
        self.stage = stage;
        self.rv = rv;
        self.wv = 0;
        self.cause = None;
        self.calls.clear();
        self.spares.clear(&mut self.copies);
    }

    /// A transaction has begun.
    pub fn finish_begin(&mut self, rv: u64) -> ActorNotice<V>
        ensures does { Reseats self.old self.new result (λ a w. has_begun w a (seat_of self.old) (notice.Begun rv)) }
        ensures keeps { (v : BlocksView) → KeepsIn v (at self.old Stage.Idle) self.new }
        ensures leaves { KeepsCopies (at self.old Stage.Beginning) self.new }
    {
        keep_larger(&mut self.calls, &mut self.made);
        self.clear(Stage::Open, rv);
        ActorNotice::Answered(Answer::Begun(rv))
    }

    /// None begins at this reading of the clock.
    pub fn refuse_begin(&mut self, clock: u64) -> ActorNotice<V>
        ensures does { Reseats self.old self.new result (λ a w. has_begun w a (seat_of self.old) (notice.Exhausted clock)) }
        ensures keeps { (v : BlocksView) → KeepsIn v (at self.old Stage.Idle) self.new }
        ensures leaves { KeepsCopies (at self.old Stage.Idle) self.new }
    {
        self.clear(Stage::Idle, 0);
        ActorNotice::Refused(Refusal::Exhausted { clock })
    }

    /// The last lock of a commit was given back.
    pub fn finish_commit(&mut self) -> ActorNotice<V>
        ensures does { Reseats self.old self.new result (λ a w. has_released w a (seat_of self.old) notice.Released) }
        ensures keeps { (v : BlocksView) → KeepsIn v (at self.old Stage.Idle) self.new }
        ensures leaves { KeepsCopies (at self.old Stage.Idle) self.new }
    {
        let number = self.wv;
        self.clear(Stage::Idle, 0);
        ActorNotice::Answered(Answer::Committed(number))
    }

    /// The clock was loaded that commits a transaction without writes.
    #[inline(never)]
    pub fn finish_reading(&mut self) -> ActorNotice<V>
        ensures does { Reseats self.old self.new result (λ a w. (
          seated (recorded w a (seat_of self.old) false self.old.rv) a no_one,
          Answered a
              (answer.Committed self.old.rv),
        )) }
        ensures keeps { (v : BlocksView) → KeepsIn v (at self.old Stage.Idle) self.new }
        ensures leaves { KeepsCopies (at self.old Stage.Idle) self.new }
        ensures made { self.new.made.items ≡ self.old.calls.items }
    {
        let number = self.rv;
        mem::swap(&mut self.made, &mut self.calls);
        self.clear(Stage::Idle, 0);
        ActorNotice::Answered(Answer::Committed(number))
    }

    /// The clock was loaded that ends an aborted transaction.
    #[inline(never)]
    pub fn finish_abort(&mut self) -> ActorNotice<V>
        ensures does { Reseats self.old self.new result (λ a w. ended w a (seat_of self.old)) }
        ensures keeps { (v : BlocksView) → KeepsIn v (at self.old Stage.Idle) self.new }
        ensures leaves { KeepsCopies (at self.old Stage.Idle) self.new }
        ensures made { self.new.made.items ≡ self.old.calls.items }
    {
        let cause = self.cause;
        mem::swap(&mut self.made, &mut self.calls);
        self.clear(Stage::Idle, 0);
        match cause {
            None => ActorNotice::Answered(Answer::Aborted),
            Some(refusal) => ActorNotice::Refused(refusal),
        }
    }

    /// A word was read.
    pub fn read(&mut self, location: u32, value: u64) -> ActorNotice<V>
        requires room { vec_len self.old.calls < vec_capacity self.old.calls }
        ensures does { Reseats self.old self.new result (λ a w. has_read w a (seat_of self.old) location (notice.Number value)) }
        ensures keeps { (v : BlocksView) → KeepsIn v (at self.old Stage.Idle) self.new }
        ensures leaves { KeepsCopies (at self.old (Stage.Reading location)) self.new }
        ensures copies { self.new.copies ≡ self.old.copies }
    {
        let call = Call {
            target: location,
            op: Op::Read,
        };
        self.calls.push_reserved((call, Reply::Number(value)));
        self.stage = Stage::Open;
        ActorNotice::Answered(Answer::Replied(Reply::Number(value)))
    }

    /// It is to end, and holds no gate.
    #[inline(always)]
    pub(crate) fn start_cancel(&mut self) -> ActorNotice<V>
        ensures does { Reseats self.old self.new result (λ a w. (worlds.cancels w a (seat_of self.old), Quiet)) }
        ensures keeps { (v : BlocksView) → KeepsIn v (at self.old Stage.Idle) self.new }
        ensures leaves { KeepsCopies (at self.old Stage.Idle) self.new }
        ensures copies { self.new.copies ≡ self.old.copies }
    {
        cancel(&mut self.words, 0);
        self.stage = leaving_or_cancelling(&self.words);
        ActorNotice::Quiet
    }

    /// It is to end, once the gates of these collections are put back.
    #[inline(always)]
    pub fn put_back_gates(&mut self, homes: VecDeque<u32>) -> ActorNotice<V>
        ensures does { Reseats self.old self.new result (λ a w. worlds.gives_up w a (seat_of self.old) homes.items) }
        ensures keeps { (v : BlocksView) → KeepsIn v (at self.old (Stage.Returning homes)) self.new }
        ensures leaves { KeepsCopies (at self.old Stage.Idle) self.new }
    {
        if has_none(&homes) {
            return self.start_cancel();
        }
        self.stage = Stage::Returning(homes);
        ActorNotice::Quiet
    }

    /// It is aborted for this cause, and holds no gate.
    #[inline(always)]
    pub fn abort_for(&mut self, cause: Refusal) -> ActorNotice<V>
        ensures does { Reseats self.old self.new result (λ a w. worlds.gives_up w a (because (seat_of self.old) cause) []) }
        ensures keeps { (v : BlocksView) → KeepsIn v (at self.old Stage.Idle) self.new }
        ensures leaves { KeepsCopies (at self.old Stage.Idle) self.new }
        ensures copies { self.new.copies ≡ self.old.copies }
    {
        self.cause = Some(cause);
        self.start_cancel()
    }

    /// It is aborted for this cause, and holds the gates of these collections.
    #[inline(always)]
    pub fn abort_returning(&mut self, cause: Refusal, homes: VecDeque<u32>) -> ActorNotice<V>
        ensures does { Reseats self.old self.new result (λ a w. worlds.gives_up w a (because (seat_of self.old) cause) homes.items) }
        ensures keeps { (v : BlocksView) → KeepsIn v (at self.old (Stage.Returning homes)) self.new }
        ensures leaves { KeepsCopies (at self.old Stage.Idle) self.new }
    {
        self.cause = Some(cause);
        self.put_back_gates(homes)
    }

    /// The gate of a call was tried, and found free or not.
    #[inline(always)]
    pub fn after_try(&mut self, asked: CallInHand<V>, tries: u32, free: bool) -> ActorNotice<V>
        ensures does { Reseats self.old self.new result (λ a w. has_tried w a (seat_of self.old) free asked.collection []
            (λ n. worlds.Trying (asked_of asked) n) (worlds.Copying (asked_of asked)) tries) }
        ensures keeps { (v : BlocksView) → KeepsIn v (at self.old (Stage.Trying asked tries)) self.new }
        ensures leaves { KeepsCopies (at self.old (Stage.Trying asked tries)) self.new }
    {
        if free {
            self.stage = Stage::Copying(asked);
            return ActorNotice::Quiet;
        }
        if tries > 0 {
            self.stage = Stage::Trying(asked, tries - 1);
            return ActorNotice::Quiet;
        }
        let collection = asked.get().collection;
        self.spares.keep_call(asked.answering());
        self.abort_for(Refusal::GateBusy { collection })
    }

    /// The gate of the next collection that a commit writes was tried, and found free or not; it holds the gates before it.
    #[inline(always)]
    pub fn after_home_try(
        &mut self,
        homes: VecDeque<u32>,
        got: usize,
        tries: u32,
        free: bool,
    ) -> ActorNotice<V>
        requires next { got < length homes.items }
        ensures does { (k : ℕ) (ks : List ℕ) → drop got homes.items ≡ k ∷ ks →
            Reseats self.old self.new result (λ a w. has_tried w a (seat_of self.old) free k (take got homes.items)
            (λ n. worlds.Gating (take got homes.items) (drop got homes.items) n)
            (takes_gates (take got homes.items ++ k ∷ []) ks) tries) }
        ensures keeps { (v : BlocksView) → KeepsIn v (at self.old (Stage.Gating homes got tries)) self.new }
        ensures leaves { KeepsCopies (at self.old (Stage.Gating homes got tries)) self.new }
    {
        if free {
            self.stage = next_gate(homes, got + 1);
            return ActorNotice::Quiet;
        }
        if tries > 0 {
            self.stage = Stage::Gating(homes, got, tries - 1);
            return ActorNotice::Quiet;
        }
        let collection = homes[got];
        let mut held = homes;
        held.truncate(got);
        self.abort_returning(Refusal::GateBusy { collection }, held)
    }

    /// A transaction is to begin.
    #[inline(always)]
    pub fn start(&mut self) -> ActorNotice<V>
        ensures does { Reseats self.old self.new result (λ a w. ask_idle w a (seat_of self.old) request.Begin) }
        ensures keeps { (v : BlocksView) → KeepsIn v self.old self.new }
        ensures copies { self.new.copies ≡ self.old.copies }
        ensures stage { self.new.stage ≡ Stage.Beginning }
    {
        begin(&mut self.words, false);
        self.stage = Stage::Beginning;
        ActorNotice::Quiet
    }

    /// A transaction that writes nothing is to begin.
    pub fn start_reader(&mut self) -> ActorNotice<V>
        ensures does { Reseats self.old self.new result (λ a w. ask_idle w a (seat_of self.old) request.BeginRead) }
        ensures keeps { (v : BlocksView) → KeepsIn v self.old self.new }
        ensures copies { self.new.copies ≡ self.old.copies }
        ensures stage { self.new.stage ≡ Stage.Beginning }
    {
        begin(&mut self.words, true);
        self.stage = Stage::Beginning;
        ActorNotice::Quiet
    }

    /// An allocation fails for a begin.
    pub fn starve_begin(&mut self) -> ActorNotice<V>
        ensures does { Reseats self.old self.new result (λ a w. starve_at w a (seat_of self.old) worlds.Beginning) }
        ensures keeps { (v : BlocksView) → KeepsIn v (at self.old Stage.Idle) self.new }
        ensures leaves { KeepsCopies (at self.old Stage.Idle) self.new }
    {
        abort(&mut self.words, 0);
        self.clear(Stage::Idle, 0);
        ActorNotice::Refused(Refusal::Memory)
    }

    /// All is locked and checked, at this number; a location of each of these collections was written.
    pub fn after_locks(&mut self, number: u64, homes: VecDeque<u32>) -> ActorNotice<V>
        ensures does { (a : ℕ) (w : World V) → homes.items ≡ written_homes w a → worlds.actor_of w a ≡ actor_of self.old.words →
            let f = has_locked w a (seat_of self.old) (notice.LockedAt number) in
            Runs a self.new f.0 × (notice_of a result ≡ f.1) }
        ensures keeps { (v : BlocksView) → KeepsIn v (at self.old (Stage.Locking homes)) self.new }
        ensures leaves { KeepsCopies (at self.old (Stage.Locking homes)) self.new }
    {
        self.wv = number;
        self.stage = gating_or_ready(homes);
        ActorNotice::Quiet
    }

    /// The last lock of a transaction that is aborted was given back.
    pub fn after_cancel(&mut self) -> ActorNotice<V>
        ensures does { Reseats self.old self.new result (λ a w. has_cancelled w a (seat_of self.old) notice.Cancelled) }
        ensures keeps { (v : BlocksView) → KeepsIn v (at self.old Stage.Idle) self.new }
        ensures leaves { KeepsCopies (at self.old Stage.Idle) self.new }
    {
        abort(&mut self.words, 0);
        self.stage = Stage::Leaving;
        ActorNotice::Quiet
    }

    /// A value was stored, and others are left.
    pub fn after_store(&mut self, homes: VecDeque<u32>) -> ActorNotice<V>
        ensures does { (a : ℕ) (w : World V) (x : Seat V) → IsSeatOf x self.old → worlds.actor_of w a ≡ actor_of self.old.words →
            let f = has_stored w a x homes.items notice.Quiet in
            Runs a self.new f.0 × (notice_of a result ≡ f.1) }
        ensures made { self.new.made ≡ self.old.made }
        ensures keeps { (v : BlocksView) → KeepsIn v (at self.old (Stage.Storing homes)) self.new }
        ensures leaves { KeepsCopies (at self.old (Stage.Storing homes)) self.new }
    {
        self.stage = Stage::Storing(homes);
        ActorNotice::Quiet
    }

    /// All values are stored, or a base was put back, and these are still to be put back.
    #[inline(always)]
    pub fn return_bases(&mut self, homes: VecDeque<u32>) -> ActorNotice<V>
        ensures does { (a : ℕ) (w : World V) (x : Seat V) → IsSeatOf x self.old → MayRelease a w homes.items →
            worlds.actor_of w a ≡ actor_of self.old.words →
            let f = worlds.goes_home w a x homes.items in
            Runs a self.new f.0 × (notice_of a result ≡ f.1) }
        ensures made { self.new.made ≡ self.old.made }
        ensures copies { self.new.copies ≡ self.old.copies }
        ensures keeps { (v : BlocksView) → KeepsIn v (at self.old (Stage.Homing homes)) self.new }
        ensures leaves { KeepsCopies (at self.old (Stage.Homing homes)) self.new }
    {
        if has_none(&homes) {
            self.spares.keep_homes(homes);
            release(&mut self.words, 0);
            self.stage = Stage::Releasing;
            return ActorNotice::Quiet;
        }
        self.stage = Stage::Homing(homes);
        ActorNotice::Quiet
    }
}
