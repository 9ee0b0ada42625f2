//! What an actor makes of its atomic action, by its stage: of what a step of the words answered, of a try on a gate, of a gate that was put
//! back, of a base that was put back, and of an allocation that failed.
ghost use Rattle.std.specs.Prelude.{◌≡◌, ◌<◌, ℕ, [], ◌∷◌, false, true};
ghost use Rattle.std.specs.Vec.{vec_len, vec_capacity};
ghost use Rattle.seq_model.specs.declared.refusal.Refusal.TheVariants as refusal;
ghost use Rattle.tx_machine.specs.Notices as notice;
ghost use Rattle.replay_log.specs.Worlds.{because, gives_up};
ghost use Rattle.tx_actor.specs.Dispatch.{HasRoom, IsGoneHome, IsToldWord, Records, Starves, waits_at};
ghost use Rattle.actor_parts.specs.Dispatch.{after_put, after_try, is_loading, notice_told, shown_notice};
ghost use Rattle.actor_parts.specs.Blocks.{BlocksView};
ghost use Rattle.tx_actor.specs.CopiesByStage.{KeepsCopies};
ghost use Rattle.tx_actor.specs.ActorBounds.{KeepsIn};
ghost use Rattle.tx_actor.specs.Running.{Does, Reseats, at, seat_of, stage_of};
ghost use Rattle.tx_actor.specs.declared.actor.CollectionCall.{CollectionCall};

use crate::actor::{ActorNotice, Stage, TxActor};
use crate::hand::CallInHand;
use crate::steps::has_none;
use actor_parts::{WordNotice, of_told};
use seq_model::Refusal;
use std::collections::VecDeque;
use std::mem;
use step_core::{WordAnswer, WordRefusal};

/// Whether the step answered nothing.
pub(crate) fn is_quiet(heard: WordNotice) -> bool
    ensures { result ≡ true → shown_notice heard ≡ notice.Quiet }
{
    matches!(heard, WordNotice::Quiet)
}

/// Whether nothing comes of the step at this stage, since it answered nothing.
fn is_waiting<V>(stage: &Stage<V>, heard: WordNotice) -> bool
    ensures told { result ≡ true → shown_notice heard ≡ notice.Quiet }
    ensures stage { result ≡ true → waits_at stage.now ≡ true }
{
    match stage {
        Stage::Reading(_) | Stage::Locking(_) | Stage::Releasing | Stage::Cancelling => {
            is_quiet(heard)
        }
        _ => false,
    }
}

impl<V: Drop> TxActor<V> {
    /// Nothing has come of the step.
    #[inline(always)]
    pub(crate) fn unchanged(&mut self, stage: Stage<V>) -> ActorNotice<V>
        ensures stage { self.new ≡ at self.old stage }
        ensures told { result ≡ ActorNotice.Quiet }
    {
        self.stage = stage;
        ActorNotice::Quiet
    }

    #[inline(never)]
    fn on_begun(&mut self, heard: WordNotice) -> ActorNotice<V>
        ensures does { IsToldWord (at self.old Stage.Beginning) self.new result (shown_notice heard) }
        ensures keeps { (v : BlocksView) → KeepsIn v (at self.old Stage.Beginning) self.new }
        ensures leaves { KeepsCopies (at self.old Stage.Beginning) self.new }
    {
        match heard {
            WordNotice::Begun(rv) => self.finish_begin(rv),
            WordNotice::Exhausted(clock) => self.refuse_begin(clock),
            _ => self.unchanged(Stage::Beginning),
        }
    }

    #[inline(never)]
    fn on_read(&mut self, heard: WordNotice, location: u32) -> ActorNotice<V>
        requires { vec_len self.old.calls < vec_capacity self.old.calls }
        ensures does { IsToldWord (at self.old (Stage.Reading location)) self.new result (shown_notice heard) }
        ensures keeps { (v : BlocksView) → KeepsIn v (at self.old (Stage.Reading location)) self.new }
        ensures leaves { KeepsCopies (at self.old (Stage.Reading location)) self.new }
    {
        match heard {
            WordNotice::Number(value) => self.read(location, value),
            WordNotice::Moved(location, word) => self.abort_for(Refusal::Moved { location, word }),
            _ => self.unchanged(Stage::Reading(location)),
        }
    }

    fn on_locked(&mut self, heard: WordNotice, homes: VecDeque<u32>) -> ActorNotice<V>
        ensures does { IsToldWord (at self.old (Stage.Locking homes)) self.new result (shown_notice heard) }
        ensures keeps { (v : BlocksView) → KeepsIn v (at self.old (Stage.Locking homes)) self.new }
        ensures leaves { KeepsCopies (at self.old (Stage.Locking homes)) self.new }
    {
        match heard {
            WordNotice::Locked(number) => self.after_locks(number, homes),
            WordNotice::Busy(location, word) => self.abort_for(Refusal::Busy { location, word }),
            WordNotice::Invalid(location, word) => {
                self.abort_for(Refusal::Invalid { location, word })
            }
            _ => self.unchanged(Stage::Locking(homes)),
        }
    }

    fn on_first_stored(&mut self, heard: WordNotice, homes: VecDeque<u32>) -> ActorNotice<V>
        ensures does { IsToldWord (at self.old (Stage.Ready homes)) self.new result (shown_notice heard) }
        ensures keeps { (v : BlocksView) → KeepsIn v (at self.old (Stage.Ready homes)) self.new }
        ensures leaves { KeepsCopies (at self.old (Stage.Ready homes)) self.new }
        ensures made { self.new.made.items ≡ self.old.calls.items }
    {
        mem::swap(&mut self.made, &mut self.calls);
        match heard {
            WordNotice::Stored => self.return_bases(homes),
            _ => self.after_store(homes),
        }
    }

    fn on_stored(&mut self, heard: WordNotice, homes: VecDeque<u32>) -> ActorNotice<V>
        ensures does { IsToldWord (at self.old (Stage.Storing homes)) self.new result (shown_notice heard) }
        ensures keeps { (v : BlocksView) → KeepsIn v (at self.old (Stage.Storing homes)) self.new }
        ensures leaves { KeepsCopies (at self.old (Stage.Storing homes)) self.new }
    {
        match heard {
            WordNotice::Stored => self.return_bases(homes),
            _ => self.after_store(homes),
        }
    }

    fn on_released(&mut self, heard: WordNotice) -> ActorNotice<V>
        ensures does { IsToldWord (at self.old Stage.Releasing) self.new result (shown_notice heard) }
        ensures keeps { (v : BlocksView) → KeepsIn v (at self.old Stage.Releasing) self.new }
        ensures leaves { KeepsCopies (at self.old Stage.Releasing) self.new }
    {
        match heard {
            WordNotice::Released => self.finish_commit(),
            _ => self.unchanged(Stage::Releasing),
        }
    }

    #[inline(never)]
    fn on_cancelled(&mut self, heard: WordNotice) -> ActorNotice<V>
        ensures does { IsToldWord (at self.old Stage.Cancelling) self.new result (shown_notice heard) }
        ensures keeps { (v : BlocksView) → KeepsIn v (at self.old Stage.Cancelling) self.new }
        ensures leaves { KeepsCopies (at self.old Stage.Cancelling) self.new }
    {
        match heard {
            WordNotice::Cancelled => self.after_cancel(),
            _ => self.unchanged(Stage::Cancelling),
        }
    }

    /// Its word actor has taken a step, which answered this.
    #[inline(always)]
    pub fn on_step(&mut self, told: Result<Option<WordAnswer>, WordRefusal>) -> ActorNotice<V>
        requires { HasRoom self.old self.old.stage }
        ensures does { IsToldWord self.old self.new result (notice_told told) }
        ensures keeps { (v : BlocksView) → KeepsIn v self.old self.new }
        ensures leaves { is_loading (stage_of self.old.stage) ≡ false → KeepsCopies self.old self.new }
        ensures made { Records self.old.stage → self.new.made.items ≡ self.old.calls.items }
    {
        let heard = of_told(told);
        if is_waiting(&self.stage, heard) {
            return ActorNotice::Quiet;
        }
        let stage = mem::replace(&mut self.stage, Stage::Idle);
        match stage {
            Stage::Beginning => self.on_begun(heard),
            Stage::Reading(location) => self.on_read(heard, location),
            Stage::Locking(homes) => self.on_locked(heard, homes),
            Stage::Ready(homes) => self.on_first_stored(heard, homes),
            Stage::Storing(homes) => self.on_stored(heard, homes),
            Stage::Releasing => self.on_released(heard),
            Stage::Closing => self.finish_reading(),
            Stage::Cancelling => self.on_cancelled(heard),
            Stage::Leaving => self.finish_abort(),
            other => self.unchanged(other),
        }
    }

    #[inline(always)]
    fn tried_next(
        &mut self,
        homes: VecDeque<u32>,
        got: usize,
        tries: u32,
        free: bool,
    ) -> ActorNotice<V>
        ensures does { let r = at self.old (Stage.Gating homes got tries) in
            Does r self.new result (λ a w. after_try w a (seat_of r) (stage_of r.stage) free) }
        ensures keeps { (v : BlocksView) → KeepsIn v (at self.old (Stage.Gating homes got tries)) self.new }
        ensures leaves { KeepsCopies (at self.old (Stage.Gating homes got tries)) self.new }
    {
        if got < homes.len() {
            self.after_home_try(homes, got, tries, free)
        } else {
            self.unchanged(Stage::Gating(homes, got, tries))
        }
    }

    #[inline(always)]
    fn tried_call(&mut self, asked: CallInHand<V>, tries: u32, free: bool) -> ActorNotice<V>
        ensures does { let r = at self.old (Stage.Trying asked tries) in
            Does r self.new result (λ a w. after_try w a (seat_of r) (stage_of r.stage) free) }
        ensures keeps { (v : BlocksView) → KeepsIn v (at self.old (Stage.Trying asked tries)) self.new }
        ensures leaves { KeepsCopies (at self.old (Stage.Trying asked tries)) self.new }
    {
        self.after_try(asked, tries, free)
    }

    /// The gate of a call was found free, and is held now.
    #[inline(always)]
    fn holds_gate(&mut self) -> ActorNotice<V>
        requires { (asked : CollectionCall V) × (tries : ℕ) × (self.old.stage ≡ Stage.Trying asked tries) }
        ensures does { Does self.old self.new result (λ a w. after_try w a (seat_of self.old) (stage_of self.old.stage) true) }
        ensures keeps { (v : BlocksView) → KeepsIn v self.old self.new }
        ensures leaves { KeepsCopies self.old self.new }
    {
        let stage = mem::replace(&mut self.stage, Stage::Idle);
        match stage {
            Stage::Trying(asked, _tries) => {
                self.stage = Stage::Copying(asked);
                ActorNotice::Quiet
            }
            other => self.unchanged(other),
        }
    }

    #[inline(always)]
    fn tried_else(&mut self, free: bool) -> ActorNotice<V>
        ensures does { Does self.old self.new result (λ a w. after_try w a (seat_of self.old) (stage_of self.old.stage) free) }
        ensures keeps { (v : BlocksView) → KeepsIn v self.old self.new }
        ensures leaves { is_loading (stage_of self.old.stage) ≡ false → KeepsCopies self.old self.new }
    {
        let stage = mem::replace(&mut self.stage, Stage::Idle);
        match stage {
            Stage::Trying(asked, tries) => self.tried_call(asked, tries, free),
            Stage::Gating(homes, got, tries) => self.tried_next(homes, got, tries, free),
            other => self.unchanged(other),
        }
    }

    /// The gate that was to be tried was found free or not; where it was free it is held now.
    #[inline(always)]
    pub fn on_gate_tried(&mut self, free: bool) -> ActorNotice<V>
        ensures does { Does self.old self.new result (λ a w. after_try w a (seat_of self.old) (stage_of self.old.stage) free) }
        ensures keeps { (v : BlocksView) → KeepsIn v self.old self.new }
        ensures leaves { is_loading (stage_of self.old.stage) ≡ false → KeepsCopies self.old self.new }
    {
        if free {
            if let Stage::Trying(_asked, _tries) = &self.stage {
                return self.holds_gate();
            }
        }
        self.tried_else(free)
    }

    fn put_first(&mut self, homes: VecDeque<u32>) -> ActorNotice<V>
        ensures does { let r = at self.old (Stage.Returning homes) in
            Does r self.new result (λ a w. after_put w a (seat_of r) (stage_of r.stage)) }
        ensures keeps { (v : BlocksView) → KeepsIn v (at self.old (Stage.Returning homes)) self.new }
        ensures leaves { KeepsCopies (at self.old (Stage.Returning homes)) self.new }
    {
        if has_none(&homes) {
            return self.unchanged(Stage::Returning(homes));
        }
        let mut left = homes;
        let _ = left.pop_front();
        self.put_back_gates(left)
    }

    /// The gate that was to be put back is free again, its base unchanged.
    pub fn on_gate_put(&mut self) -> ActorNotice<V>
        ensures does { Does self.old self.new result (λ a w. after_put w a (seat_of self.old) (stage_of self.old.stage)) }
        ensures keeps { (v : BlocksView) → KeepsIn v self.old self.new }
        ensures leaves { is_loading (stage_of self.old.stage) ≡ false → KeepsCopies self.old self.new }
    {
        let stage = mem::replace(&mut self.stage, Stage::Idle);
        match stage {
            Stage::Returning(homes) => self.put_first(homes),
            Stage::ReturningOne(_) => self.start_cancel(),
            other => self.unchanged(other),
        }
    }

    #[inline(always)]
    fn first_home(&mut self, homes: VecDeque<u32>) -> ActorNotice<V>
        ensures does { IsGoneHome (at self.old (Stage.Homing homes)) self.new result }
        ensures keeps { (v : BlocksView) → KeepsIn v (at self.old (Stage.Homing homes)) self.new }
        ensures leaves { KeepsCopies (at self.old (Stage.Homing homes)) self.new }
        ensures copies { self.new.copies ≡ self.old.copies }
    {
        if has_none(&homes) {
            return self.unchanged(Stage::Homing(homes));
        }
        let mut left = homes;
        let _ = left.pop_front();
        self.return_bases(left)
    }

    /// The base that was to be put back is back, with its changes, and its gate is free.
    #[inline(always)]
    pub fn on_base_returned(&mut self) -> ActorNotice<V>
        ensures does { IsGoneHome self.old self.new result }
        ensures keeps { (v : BlocksView) → KeepsIn v self.old self.new }
        ensures leaves { is_loading (stage_of self.old.stage) ≡ false → KeepsCopies self.old self.new }
        ensures copies { self.new.copies ≡ self.old.copies }
    {
        let stage = mem::replace(&mut self.stage, Stage::Idle);
        match stage {
            Stage::Homing(homes) => self.first_home(homes),
            other => self.unchanged(other),
        }
    }

    /// A call is aborted while the gate of its collection is held.
    pub(crate) fn starves_copying(&mut self, collection: u32) -> ActorNotice<V>
        ensures does { Reseats self.old self.new result
            (λ a w. gives_up w a (because (seat_of self.old) refusal.Memory) (collection ∷ [])) }
        ensures keeps { (v : BlocksView) → KeepsIn v (at self.old (Stage.ReturningOne collection)) self.new }
        ensures leaves { KeepsCopies (at self.old Stage.Idle) self.new }
    {
        self.cause = Some(Refusal::Memory);
        self.stage = Stage::ReturningOne(collection);
        ActorNotice::Quiet
    }

    fn starves_gating(&mut self, homes: VecDeque<u32>, got: usize) -> ActorNotice<V>
        ensures does { (n : ℕ) → Starves (at self.old (Stage.Gating homes got n)) self.new result }
        ensures keeps { (v : BlocksView) → KeepsIn v (at self.old (Stage.Gating homes got 0)) self.new }
        ensures leaves { KeepsCopies (at self.old Stage.Idle) self.new }
    {
        let mut held = homes;
        held.truncate(got);
        self.abort_returning(Refusal::Memory, held)
    }

    fn starves_ready(&mut self, homes: VecDeque<u32>) -> ActorNotice<V>
        ensures does { Starves (at self.old (Stage.Ready homes)) self.new result }
        ensures keeps { (v : BlocksView) → KeepsIn v (at self.old (Stage.Ready homes)) self.new }
        ensures leaves { KeepsCopies (at self.old Stage.Idle) self.new }
    {
        self.abort_returning(Refusal::Memory, homes)
    }

    /// An allocation fails for its request, where one still may.
    pub fn on_starve(&mut self) -> ActorNotice<V>
        ensures does { Starves self.old self.new result }
        ensures keeps { (v : BlocksView) → KeepsIn v self.old self.new }
        ensures leaves { KeepsCopies self.old self.new }
    {
        let stage = mem::replace(&mut self.stage, Stage::Idle);
        match stage {
            Stage::Idle => {
                self.stage = Stage::Idle;
                ActorNotice::Refused(Refusal::NoTransaction)
            }
            Stage::Open => {
                self.stage = Stage::Open;
                ActorNotice::Refused(Refusal::NoTransaction)
            }
            Stage::Beginning => self.starve_begin(),
            Stage::Reading(_) => self.abort_for(Refusal::Memory),
            Stage::Trying(_, _) => self.abort_for(Refusal::Memory),
            Stage::Copying(asked) => self.starves_copying(asked.get().collection),
            Stage::Loading(_, _) => self.abort_for(Refusal::Memory),
            Stage::Locking(_) => self.abort_for(Refusal::Memory),
            Stage::Gating(homes, got, _) => self.starves_gating(homes, got),
            Stage::Ready(homes) => self.starves_ready(homes),
            Stage::Closing => self.abort_for(Refusal::Memory),
            other => self.unchanged(other),
        }
    }
}
