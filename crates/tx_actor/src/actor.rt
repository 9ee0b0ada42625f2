//! What an actor keeps: its word actor, where its request stands, its numbers, its cause, its calls, and what it has of collections.
use crate::hand::{ActorSpares, CallInHand};
use actor_parts::{Boxed, CopyOfCollection, Writes};
use conflict::Outcome;
use seq_model::{Answer, Call, Op, Refusal, Reply};
use std::collections::VecDeque;
use step_core::Actor;

/// A call on a collection.
#[derive(Drop)]
pub struct CollectionCall<V> {
    pub collection: u32,
    pub op: Op<V>,
}

/// A call with the outcome that it is going to have, and what its acceptance takes.
#[derive(Drop)]
pub struct CallWithOutcome<V> {
    pub asked: CollectionCall<V>,
    pub outcome: Option<Outcome<V>>,
    /// Where the copy of its collection stands among the copies.
    pub place: usize,
    /// The locations that it writes, each with the edition after the copied one.
    pub writes: Writes,
    /// Its reply, to be returned.
    pub told: Reply<V>,
}

/// Where an actor's request stands, with what its next step needs.
#[derive(Drop)]
pub enum Stage<V> {
    Idle,
    Beginning,
    Open,
    Releasing,
    Closing,
    Cancelling,
    Leaving,
    Reading(u32),
    /// The gate of the call's collection is tried; so many tries are left after this one.
    Trying(CallInHand<V>, u32),
    /// That gate is held.
    Copying(CallInHand<V>),
    /// The first of these locations is read, to be judged by the edition that was copied.
    Loading(Boxed<CallWithOutcome<V>>, VecDeque<(u32, u64)>),
    /// These collections have a written location.
    Locking(VecDeque<u32>),
    /// The gates of the first of these collections are held, and the next one is tried, with so many tries left after this one.
    Gating(VecDeque<u32>, usize, u32),
    /// The gates of these are held, and the first value store is next.
    Ready(VecDeque<u32>),
    Storing(VecDeque<u32>),
    /// The bases of these are to be put back.
    Homing(VecDeque<u32>),
    /// The gates of these are to be put back, their bases unchanged.
    Returning(VecDeque<u32>),
    /// The gate of this one is to be put back, its base unchanged.
    ReturningOne(u32),
}

/// What a step or a request answers.
#[derive(Drop)]
pub enum ActorNotice<V> {
    Quiet,
    Answered(Answer<V>),
    Refused(Refusal),
}

/// An actor with its transaction.
pub struct TxActor<V> {
    pub words: Actor,
    pub stage: Stage<V>,
    pub rv: u64,
    pub wv: u64,
    /// Why it is being aborted; none where its actor asked for it.
    pub cause: Option<Refusal>,
    pub calls: Vec<(Call<V>, Reply<V>)>,
    /// The calls of the transaction that was recorded or ended last, for its record to be taken from here; while a commit is under way, the
    /// emptied list in which its calls gathered.
    pub made: Vec<(Call<V>, Reply<V>)>,
    /// What it has of the collections that its calls touched, each of which stands here once.
    pub copies: Vec<CopyOfCollection<V>>,
    /// Memory that earlier calls and transactions took.
    pub spares: ActorSpares<V>,
}

impl<V: Drop> Drop for TxActor<V> {
    fn drop(self) {
        let TxActor {
            words: _,
            stage: _,
            rv: _,
            wv: _,
            cause: _,
            calls: _,
            made: _,
            copies: _,
            spares: _,
        } = self;
    }
}
