//! What the load of a call's location makes of its actor: with the copied edition the other locations are judged, with another the copy
//! is stale.
ghost use Rattle.std.specs.Prelude.{◌≡◌, ◌⊎◌, Some};
ghost use Rattle.tx_machine.specs.Notices as notice;
ghost use Rattle.tx_actor.specs.Answers.{CanAccept};
ghost use Rattle.actor_parts.specs.Dispatch.{notice_told, shown_notice};
ghost use Rattle.tx_actor.specs.LoadStep.{IsLoadable, IsToldLoad, first_entry};
ghost use Rattle.actor_parts.specs.Blocks.{BlocksView};
ghost use Rattle.tx_actor.specs.CopiesByStage.{AsksNothing, HasFound, HasLoaded, IsAsBefore};
ghost use Rattle.tx_actor.specs.ActorBounds.{KeepsHeard};
ghost use Rattle.tx_actor.specs.Running.{at};

use crate::actor::{ActorNotice, CallWithOutcome, Stage, TxActor};
use crate::dispatch::is_quiet;
use actor_parts::{Boxed, WordNotice, of_told};
use seq_model::{Refusal, Value};
use std::collections::VecDeque;
use std::mem;
use step_core::{WordAnswer, WordRefusal};

/// The location that is read next, with its copied edition.
#[inline(always)]
pub(crate) fn first_left(left: &VecDeque<(u32, u64)>) -> Option<(u32, u64)>
    ensures { result ≡ first_entry left.now.items }
{
    if 0 < left.len() { Some(left[0]) } else { None }
}

impl<V: Value> TxActor<V> {
    /// The first location, which was copied with this edition, was read with that one.
    #[inline(always)]
    fn on_first_found(
        &mut self,
        call: Boxed<CallWithOutcome<V>>,
        left: VecDeque<(u32, u64)>,
        first: (u32, u64),
        edition: u64,
    ) -> ActorNotice<V>
        requires prepared { CanAccept self.old call }
        requires first { first_entry left.items ≡ Some first }
        ensures does { IsToldLoad (at self.old (Stage.Loading call left)) self.new result (notice.Number edition) }
        ensures keeps { (v : BlocksView) → KeepsHeard v (at self.old (Stage.Loading call left)) self.new (notice.Number edition) }
        ensures goes { HasFound (at self.old (Stage.Loading call left)) self.new result call left.items edition }
    {
        let copied = first.1;
        if copied != edition {
            self.spares.keep_left(left);
            self.spares.keep_call(call);
            return self.abort_for(Refusal::Stale {
                location: first.0,
                base_edition: copied,
                word_edition: edition,
            });
        }
        let mut left = left;
        let _ = left.pop_front();
        self.continue_call(call, left)
    }

    /// The first location was read with this edition, for a call that is in hand.
    #[inline(always)]
    pub fn on_found(
        &mut self,
        call: Boxed<CallWithOutcome<V>>,
        left: VecDeque<(u32, u64)>,
        edition: u64,
    ) -> ActorNotice<V>
        requires prepared { CanAccept self.old call }
        ensures does { IsToldLoad (at self.old (Stage.Loading call left)) self.new result (notice.Number edition) }
        ensures keeps { (v : BlocksView) → KeepsHeard v (at self.old (Stage.Loading call left)) self.new (notice.Number edition) }
        ensures goes { HasFound (at self.old (Stage.Loading call left)) self.new result call left.items edition }
    {
        match first_left(&left) {
            None => self.unchanged(Stage::Loading(call, left)),
            Some(first) => self.on_first_found(call, left, first, edition),
        }
    }

    /// The first location has moved.
    #[inline(never)]
    fn on_moved(
        &mut self,
        call: Boxed<CallWithOutcome<V>>,
        left: VecDeque<(u32, u64)>,
        location: u32,
        word: u64,
    ) -> ActorNotice<V>
        ensures does { IsToldLoad (at self.old (Stage.Loading call left)) self.new result (notice.Moved location word) }
        ensures keeps { (v : BlocksView) → KeepsHeard v (at self.old (Stage.Loading call left)) self.new (notice.Moved location word) }
        ensures goes { AsksNothing self.new ⊎ IsAsBefore (at self.old (Stage.Loading call left)) self.new result }
    {
        match first_left(&left) {
            None => self.unchanged(Stage::Loading(call, left)),
            Some(_) => {
                self.spares.keep_left(left);
                self.spares.keep_call(call);
                self.abort_for(Refusal::Moved { location, word })
            }
        }
    }

    #[inline(always)]
    fn on_loaded(
        &mut self,
        heard: WordNotice,
        call: Boxed<CallWithOutcome<V>>,
        left: VecDeque<(u32, u64)>,
    ) -> ActorNotice<V>
        requires prepared { IsLoadable self.old (Stage.Loading call left) (shown_notice heard) }
        ensures does { IsToldLoad (at self.old (Stage.Loading call left)) self.new result (shown_notice heard) }
        ensures keeps { (v : BlocksView) → KeepsHeard v (at self.old (Stage.Loading call left)) self.new (shown_notice heard) }
        ensures goes { let r = at self.old (Stage.Loading call left) in HasLoaded r self.new result r.stage (shown_notice heard) }
    {
        match heard {
            WordNotice::Number(edition) => self.on_found(call, left, edition),
            WordNotice::Moved(location, word) => self.on_moved(call, left, location, word),
            _ => self.unchanged(Stage::Loading(call, left)),
        }
    }

    /// Its word actor has taken a step of the load of a call's location, which answered this. Where an edition was read, all that the
    /// call's acceptance takes is there.
    #[inline(always)]
    pub fn on_load_step(&mut self, told: Result<Option<WordAnswer>, WordRefusal>) -> ActorNotice<V>
        requires prepared { IsLoadable self.old self.old.stage (notice_told told) }
        ensures does { IsToldLoad self.old self.new result (notice_told told) }
        ensures keeps { (v : BlocksView) → KeepsHeard v self.old self.new (notice_told told) }
        ensures goes { HasLoaded self.old self.new result self.old.stage (notice_told told) }
    {
        let heard = of_told(told);
        if is_quiet(heard) {
            return ActorNotice::Quiet;
        }
        let stage = mem::replace(&mut self.stage, Stage::Idle);
        match stage {
            Stage::Loading(call, left) => self.on_loaded(heard, call, left),
            other => self.unchanged(other),
        }
    }
}
