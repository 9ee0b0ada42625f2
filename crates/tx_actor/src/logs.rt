//! What a commit prepares of the bases that it writes, and the logs that it hands over to them.
ghost use Rattle.std.specs.Prelude.{◌≡◌, ◌<◌, ◌^◌, All, OnOk, slice_index, true};
ghost use Rattle.replay_log.specs.Base.{IsPreparedFor, StaysPrepared, after, editions_of, locations_of, shown_of, stripes_of};
ghost use Rattle.replay_log.specs.Log.{AreRaised};
ghost use Rattle.actor_parts.specs.Blocks.{BlocksView};
ghost use Rattle.tx_actor.specs.ActorBounds.{KeepsIn};
ghost use Rattle.actor_parts.specs.Logs.{OthersStand, changes_had, locations_had};
ghost use Rattle.tx_actor.specs.Asks.{Stands};
ghost use Rattle.actor_parts.specs.CopyList.{copy_of};
ghost use Rattle.tx_actor.specs.Running.{is_recorded};

use crate::actor::TxActor;
use actor_parts::position_of;
use replay_log::{Base, Log};
use seq_model::{Memory, Value};
use std::alloc::Global;

impl<V: Value> TxActor<V> {
    /// Makes room in the base of a collection for what its transaction has changed there, so that it is put back without memory. The base
    /// shows what it did, also where an allocation fails.
    pub fn prepares_base(&self, collection: u32, base: &mut Base<V>) -> Result<(), Memory>
        ensures ok { OnOk result (IsPreparedFor (changes_had (copy_of self.now.copies.items collection)) base.new) }
        ensures shown { shown_of base.new ≡ shown_of base.old }
        ensures stripes { stripes_of base.new ≡ stripes_of base.old }
        ensures editions { editions_of base.new ≡ editions_of base.old }
        ensures room { StaysPrepared base.old base.new }
    {
        match position_of(&self.copies, collection) {
            Some(place) => self.copies[place].copied.prepare(base),
            None => Ok(()),
        }
    }

    /// The log of its transaction's calls on a collection, to be folded into the base. It is moved out with what there is of the
    /// collection: from its first value store on the transaction asks for that no more, and the actor is what it was in every world.
    /// Without a copy there was no call, and the log is empty. It takes no memory.
    pub fn log_of(&mut self, alloc: Global, collection: u32) -> Log<V>
        ensures changes { result.changes ≡ changes_had (copy_of self.old.copies.items collection) }
        ensures locations { result.locations ≡ locations_had (copy_of self.old.copies.items collection) }
        ensures others { OthersStand collection self.old.copies.items self.new.copies.items }
        ensures rest { self.new ≡ record self.old { copies = self.new.copies } }
        ensures stands { is_recorded self.old.stage ≡ true → Stands self.old self.new }
        ensures keeps { is_recorded self.old.stage ≡ true → (v : BlocksView) → KeepsIn v self.old self.new }
    {
        match position_of(&self.copies, collection) {
            Some(place) => self.spares.log_of(self.copies.remove(place).copied),
            None => Log::new(alloc),
        }
    }

    /// What its transaction's calls changed in a collection is made in the collection's base, which was prepared for it. What there is of
    /// the collection goes, as by [`TxActor::log_of`]. It takes no memory and is never refused.
    pub fn folds(&mut self, collection: u32, base: &mut Base<V>)
        requires prepared { IsPreparedFor (changes_had (copy_of self.old.copies.items collection)) base.old }
        requires within { All (λ location. location < locations_of (stripes_of base.old) (shown_of base.old))
            (locations_had (copy_of self.old.copies.items collection)) }
        requires below { All (λ location. slice_index (editions_of base.old) location < 2 ^ 63)
            (locations_had (copy_of self.old.copies.items collection)) }
        ensures shown { shown_of base.new ≡ after (changes_had (copy_of self.old.copies.items collection)) (shown_of base.old) }
        ensures stripes { stripes_of base.new ≡ stripes_of base.old }
        ensures editions { AreRaised (locations_had (copy_of self.old.copies.items collection)) (editions_of base.old)
            (editions_of base.new) }
        ensures others { OthersStand collection self.old.copies.items self.new.copies.items }
        ensures rest { self.new ≡ record self.old { copies = self.new.copies } }
        ensures stands { is_recorded self.old.stage ≡ true → Stands self.old self.new }
        ensures keeps { is_recorded self.old.stage ≡ true → (v : BlocksView) → KeepsIn v self.old self.new }
    {
        match position_of(&self.copies, collection) {
            Some(place) => {
                let mut copied = self.copies.remove(place).copied;
                copied.fold(base);
                self.spares.keep_copied(copied);
            }
            None => {}
        }
    }

    /// Takes back a log that was folded in, whose memory serves the next transaction. The actor is what it was. It takes no memory.
    pub fn keep_log(&mut self, log: Log<V>)
        ensures { self.new ≡ self.old }
    {
        self.spares.keep_log(log);
    }
}
