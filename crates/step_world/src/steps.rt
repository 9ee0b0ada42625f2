//! What an event makes of the parts of a world, by what its actor's next step does.
ghost use Rattle.std.specs.Prelude.{◌≡◌, ◌≢◌, ◌+◌, ◌<◌, false, true, length, slice_get, IfOk, OnErr, Some};
ghost use Rattle.seq_model.specs.declared.event.Event.TheVariants.{Ask, Starve, Step};
ghost use Rattle.actor_parts.specs.Dispatch.{is_loading, next_of};
ghost use Rattle.tx_actor.specs.Running.{stage_of};
ghost use Rattle.tx_actor.specs.declared.actor.TxActor as running;
ghost use Rattle.step_world.specs.Parts.{Happens, HasWorld, IsAt, IsDue, IsStarved, Stays};

use crate::copying::copy_base;
use crate::homes::{go_home, prepare};
use crate::loading::load_word;
use crate::parts::Parts;
use crate::turns::{close, commit, leave, put_gate, step_word, try_gate};
use actor_parts::copy_laws::{begins_with_nothing, calls_as_worlds};
use actor_parts::word_laws::steps_as_worlds;
use actor_parts::{Next, copies_stay};
use replay_log::laws::serial_worlds;
use seq_model::{Memory, Request, Value, insert_record};
use tx_actor::laws::{copies_by_stage, copies_stay_own};
use tx_actor::{ActorNotice, Stage};

impl<V: Value> Parts<V> {
    /// The request of the actor at this position is refused as `Memory`, where it may still be.
    pub fn starve(&mut self, i: usize) -> ActorNotice<V>
        requires { i < length self.old.actors.items }
        ensures { Happens self.old (Starve (i + 1)) self.new result }
    {
        copies_by_stage::<V>();
        copies_stay::<V>();
        self.actors[i].on_starve()
    }

    /// A request of the actor at this position. Out of memory, the world is as it was.
    pub fn ask(&mut self, i: usize, request: Request<V>) -> Result<ActorNotice<V>, Memory>
        requires inside { i < length self.old.actors.items }
        requires world { HasWorld self.old }
        ensures ok { IfOk result (λ told. Happens self.old (Ask (i + 1) request) self.new told) }
        ensures err { OnErr result (Stays self.old self.new) }
    {
        copies_by_stage::<V>();
        copies_stay::<V>();
        copies_stay_own::<V>();
        calls_as_worlds::<V>();
        let alloc = *self.records.allocator();
        match self.actors[i].request(alloc, &self.blocks, request) {
            Ok(told) => Ok(told),
            Err(_) => Err(Memory),
        }
    }

    /// A step of the words that ends no transaction.
    pub(crate) fn move_on(&mut self, i: usize) -> ActorNotice<V>
        requires inside { i < length self.old.actors.items }
        requires world { HasWorld self.old }
        requires due { IsDue self.old i Next.Word }
        requires stays { (r : running.TxActor V) → slice_get self.old.actors.items i ≡ Some r →
            (r.stage ≢ Stage.Closing) × (r.stage ≢ Stage.Leaving)
            × (is_loading (stage_of r.stage) ≡ false) }
        ensures { Happens self.old (Step (i + 1)) self.new result }
    {
        copies_by_stage::<V>();
        copies_stay::<V>();
        begins_with_nothing::<V>();
        step_word(&mut self.table, &mut self.actors[i], &self.blocks)
    }

    /// A try on the gate of a collection.
    pub(crate) fn try_gate(&mut self, i: usize, k: u32) -> ActorNotice<V>
        requires inside { i < length self.old.actors.items }
        requires world { HasWorld self.old }
        requires due { IsDue self.old i (Next.TryGate k) }
        ensures { Happens self.old (Step (i + 1)) self.new result }
    {
        copies_by_stage::<V>();
        copies_stay::<V>();
        begins_with_nothing::<V>();
        let number = i as u32 + 1;
        try_gate(&mut self.table, &mut self.actors[i], number, k)
    }

    /// A gate is put back.
    pub(crate) fn put_gate(&mut self, i: usize, k: u32) -> ActorNotice<V>
        requires inside { i < length self.old.actors.items }
        requires world { HasWorld self.old }
        requires due { IsDue self.old i (Next.PutGate k) }
        ensures { Happens self.old (Step (i + 1)) self.new result }
    {
        copies_by_stage::<V>();
        copies_stay::<V>();
        begins_with_nothing::<V>();
        put_gate(&mut self.table, &mut self.actors[i], k)
    }

    /// A load of a location that a call reads.
    pub(crate) fn load(&mut self, i: usize) -> ActorNotice<V>
        requires inside { i < length self.old.actors.items }
        requires world { HasWorld self.old }
        requires loading { (r : running.TxActor V) → slice_get self.old.actors.items i ≡ Some r → is_loading (stage_of r.stage) ≡ true }
        ensures { Happens self.old (Step (i + 1)) self.new result }
    {
        load_word(&mut self.table, &mut self.actors[i], &self.blocks)
    }

    /// What a call touches of the base of its collection is copied, and the gate is put back. Where there is no memory for it, its request
    /// is refused as `Memory`.
    pub(crate) fn copy(&mut self, i: usize, k: u32) -> Result<ActorNotice<V>, Memory>
        requires inside { i < length self.old.actors.items }
        requires world { HasWorld self.old }
        requires due { IsDue self.old i (Next.Copy k) }
        ensures ok { IfOk result (λ told. Happens self.old (Step (i + 1)) self.new told) }
        ensures err { OnErr result (IsStarved self.old i self.new) }
    {
        copies_by_stage::<V>();
        copies_stay::<V>();
        let alloc = *self.records.allocator();
        match copy_base(alloc, &mut self.table, &mut self.actors[i], &self.blocks, k) {
            Ok(told) => Ok(told),
            Err(_) => Err(Memory),
        }
    }

    /// The base of a collection that its actor has written is put back.
    pub(crate) fn go_home(&mut self, i: usize, k: u32) -> ActorNotice<V>
        requires inside { i < length self.old.actors.items }
        requires world { HasWorld self.old }
        requires due { IsDue self.old i (Next.GoHome k) }
        ensures { Happens self.old (Step (i + 1)) self.new result }
    {
        steps_as_worlds::<V>();
        copies_by_stage::<V>();
        copies_stay::<V>();
        let alloc = *self.records.allocator();
        go_home(alloc, &mut self.table, &mut self.actors[i], k)
    }

    /// The request of the actor at this position is refused as `Memory`, as there is none for what its step was to leave.
    fn starved(&mut self, i: usize) -> Memory
        requires { i < length self.old.actors.items }
        ensures { IsStarved self.old i self.new }
    {
        let _told = self.starve(i);
        Memory
    }

    /// The first value store of a commit, at which the transaction is recorded. Where there is no memory for its record, for its calls in
    /// a base that is to be put back, or for what its word actor keeps, it stores nothing, and its request is refused as `Memory`.
    pub(crate) fn commit(&mut self, i: usize) -> Result<ActorNotice<V>, Memory>
        requires inside { i < length self.old.actors.items }
        requires world { HasWorld self.old }
        requires due { IsDue self.old i Next.FirstStore }
        ensures ok { IfOk result (λ told. Happens self.old (Step (i + 1)) self.new told) }
        ensures err { OnErr result (IsStarved self.old i self.new) }
    {
        let Ok(()) = self.records.reserve(1) else {
            return Err(self.starved(i));
        };
        let Ok(()) = prepare(&mut self.table, &self.actors[i]) else {
            return Err(self.starved(i));
        };
        serial_worlds::<V>();
        copies_by_stage::<V>();
        copies_stay::<V>();
        begins_with_nothing::<V>();
        let alloc = *self.records.allocator();
        match commit(alloc, &mut self.table, &mut self.actors[i], &self.blocks) {
            Ok((told, record)) => {
                insert_record(&mut self.records, i as u32 + 1, record)?;
                Ok(told)
            }
            Err(_) => Err(self.starved(i)),
        }
    }

    /// The load of the clock that commits a transaction without writes, at which it is recorded. Where there is no memory for its record,
    /// it loads nothing, and its request is refused as `Memory`.
    pub(crate) fn close(&mut self, i: usize) -> Result<ActorNotice<V>, Memory>
        requires inside { i < length self.old.actors.items }
        requires world { HasWorld self.old }
        requires stage { IsAt self.old i Stage.Closing }
        ensures ok { IfOk result (λ told. Happens self.old (Step (i + 1)) self.new told) }
        ensures err { OnErr result (IsStarved self.old i self.new) }
    {
        let Ok(()) = self.records.reserve(1) else {
            return Err(self.starved(i));
        };
        serial_worlds::<V>();
        copies_by_stage::<V>();
        copies_stay::<V>();
        begins_with_nothing::<V>();
        let alloc = *self.records.allocator();
        let (told, record) = close(alloc, &mut self.table, &mut self.actors[i], &self.blocks);
        insert_record(&mut self.records, i as u32 + 1, record)?;
        Ok(told)
    }

    /// The load of the clock that ends an aborted transaction. Where there is no memory to list it, it loads nothing.
    pub(crate) fn leave(&mut self, i: usize) -> Result<ActorNotice<V>, Memory>
        requires inside { i < length self.old.actors.items }
        requires world { HasWorld self.old }
        requires stage { IsAt self.old i Stage.Leaving }
        ensures ok { IfOk result (λ told. Happens self.old (Step (i + 1)) self.new told) }
        ensures err { OnErr result (IsStarved self.old i self.new) }
    {
        let Ok(()) = self.aborted.reserve(1) else {
            return Err(self.starved(i));
        };
        copies_by_stage::<V>();
        copies_stay::<V>();
        begins_with_nothing::<V>();
        let alloc = *self.records.allocator();
        let number = i as u32 + 1;
        let (told, ended) = leave(
            alloc,
            &mut self.table,
            &mut self.actors[i],
            &self.blocks,
            number,
        );
        self.aborted.push_reserved(ended);
        Ok(told)
    }
}
