//! The call in hand of an actor, which moves as a pointer from its first try to its reply, and the memory that the next one has from it.
ghost use Rattle.std.specs.Prelude.{◌≡◌, IfOk, OnErr, []};
ghost use Rattle.actor_parts.specs.PrivateCopy.{IsFound, changes_in, locations_in};
ghost use Rattle.actor_parts.specs.CopyList.{HaveSame};
ghost use Rattle.actor_parts.specs.Taking.{IsTakenAt, IsTakenFrom};

use crate::actor::{CallWithOutcome, CollectionCall};
use actor_parts::{
    BaseExcerpt, Boxed, CopyOfCollection, PrivateCopy, Spares, find, take, take_from,
};
use replay_log::{Base, Log};
use seq_model::{Memory, Op, Refusal, Reply, Value};
use smallvec::SmallVec;
use std::alloc::Global;
use std::collections::VecDeque;
use std::marker::Model;
use std::mem;

/// A call on a collection, in the box that will hold its outcome. Contracts see the call alone.
#[derive(Drop)]
pub struct CallInHand<V> {
    call: Boxed<CallWithOutcome<V>>,
}

impl<V> Model for CallInHand<V> {
    ghost use Rattle.tx_actor.specs.declared.actor.CollectionCall.{CollectionCall};

    ghost Value = { CollectionCall V };

    ghost view = { λ a. a.call.asked };
}

impl<V> CallInHand<V> {
    /// The call.
    pub fn get(&self) -> &CollectionCall<V>
        ensures { result.now ≡ self.now }
    {
        &self.call.get().asked
    }

    /// The call, in the same box, with room for its answer. What that holds is unused.
    pub(crate) fn answering(self) -> Boxed<CallWithOutcome<V>>
        ensures { result.asked ≡ self }
    {
        let CallInHand { call } = self;
        call
    }
}

/// Memory that served an actor, to serve it again: that of its earlier transactions, and the box of its last call. Contracts see nothing
/// of it.
pub struct ActorSpares<V> {
    copies: Spares<V>,
    call: Option<Boxed<CallWithOutcome<V>>>,
}

impl<V: Drop> Drop for ActorSpares<V> {
    fn drop(self) {
        let ActorSpares { copies: _, call: _ } = self;
    }
}

impl<V> Model for ActorSpares<V> {
    ghost use Rattle.std.specs.Prelude.{⊤};

    ghost Value = { ⊤ };

    ghost view = { λ _. tt };
}

#[cold]
#[inline(never)]
fn blank<V: Drop>(alloc: Global, asked: CollectionCall<V>) -> CallWithOutcome<V>
    ensures { result.asked ≡ asked }
{
    CallWithOutcome {
        asked,
        outcome: None,
        place: 0,
        writes: SmallVec::new(alloc),
        told: Reply::Done,
    }
}

impl<V: Drop> ActorSpares<V> {
    /// None yet. It takes no memory.
    pub fn new(alloc: Global) -> ActorSpares<V> {
        ActorSpares {
            copies: Spares::new(alloc),
            call: None,
        }
    }

    /// The call, in the kept box where there is one.
    #[inline(always)]
    pub(crate) fn ask(
        &mut self,
        alloc: Global,
        collection: u32,
        op: Op<V>,
    ) -> Result<CallInHand<V>, Memory>
        ensures { IfOk result (λ asking. asking ≡ record { collection = collection; op = op }) }
    {
        let asked = CollectionCall { collection, op };
        match mem::replace(&mut self.call, None) {
            Some(kept) => {
                let mut call = kept;
                call.get_mut().asked = asked;
                Ok(CallInHand { call })
            }
            None => {
                let call = Boxed::new(alloc, blank(alloc, asked))?;
                Ok(CallInHand { call })
            }
        }
    }

    /// Like [`Spares::clear`], [`Spares::log_of`] and their kin.
    pub(crate) fn clear(&mut self, copies: &mut Vec<CopyOfCollection<V>>)
        ensures { copies.new.items ≡ [] }
    {
        self.copies.clear(copies);
    }

    pub(crate) fn log_of(&mut self, copied: PrivateCopy<V>) -> Log<V>
        ensures changes { result.changes ≡ changes_in copied }
        ensures locations { result.locations ≡ locations_in copied }
    {
        self.copies.log_of(copied)
    }

    pub(crate) fn keep_log(&mut self, log: Log<V>) {
        self.copies.keep_log(log);
    }

    pub(crate) fn keep_copied(&mut self, copied: PrivateCopy<V>) {
        self.copies.keep_copied(copied);
    }

    pub(crate) fn left(&mut self, alloc: Global) -> VecDeque<(u32, u64)> {
        self.copies.left(alloc)
    }

    pub(crate) fn keep_left(&mut self, left: VecDeque<(u32, u64)>) {
        self.copies.keep_left(left);
    }

    pub(crate) fn homes(&mut self, alloc: Global) -> VecDeque<u32> {
        self.copies.homes(alloc)
    }

    pub(crate) fn keep_homes(&mut self, homes: VecDeque<u32>) {
        self.copies.keep_homes(homes);
    }

    /// Keeps the box of a call that has ended.
    pub(crate) fn keep_call(&mut self, call: Boxed<CallWithOutcome<V>>) {
        self.call = Some(call);
    }
}

impl<V: Value> ActorSpares<V> {
    /// Like `find` of `actor_parts`.
    #[inline(always)]
    pub(crate) fn find(
        &mut self,
        alloc: Global,
        base: &Base<V>,
        op: &Op<V>,
    ) -> Result<BaseExcerpt<V>, Refusal>
        ensures { IfOk result (λ found. IsFound base.now op.now found) }
    {
        find(&mut self.copies, alloc, base, op)
    }

    /// Like `take` of `actor_parts`.
    pub(crate) fn take(
        &mut self,
        copies: &mut Vec<CopyOfCollection<V>>,
        alloc: Global,
        stripes: u32,
        collection: u32,
        found: BaseExcerpt<V>,
    ) -> Result<usize, Memory>
        ensures ok { IfOk result (λ place. IsTakenAt stripes collection found place copies.old.items copies.new.items) }
        ensures err { OnErr result (HaveSame copies.old.items copies.new.items) }
    {
        take(copies, &mut self.copies, alloc, stripes, collection, found)
    }

    /// Like `take_from` of `actor_parts`.
    #[inline(always)]
    pub(crate) fn take_from(
        &mut self,
        copies: &mut Vec<CopyOfCollection<V>>,
        alloc: Global,
        stripes: u32,
        collection: u32,
        base: &Base<V>,
        op: &Op<V>,
    ) -> Result<usize, Memory>
        ensures ok { IfOk result (λ place. IsTakenFrom stripes collection base.now op.now place copies.old.items copies.new.items) }
        ensures err { OnErr result (HaveSame copies.old.items copies.new.items) }
    {
        take_from(
            copies,
            &mut self.copies,
            alloc,
            stripes,
            collection,
            base,
            op,
        )
    }
}
