//! What happens in a world, and what its actors are answered.
ghost use Rattle.std.specs.Prelude.{◌≡◌, IfOk};

use crate::call::{Call, Reply};
use crate::items::Items;
use crate::refusal::{Memory, Refusal};
use crate::value::Value;

/// How a world is laid out.
#[derive(Debug, Drop)]
pub struct Shape {
    /// The number of stripes of each collection.
    pub stripes: Items<u32>,
    /// The version clock that it opens with.
    pub clock: u64,
}

/// What an actor asks.
#[derive(Debug, Drop)]
pub enum Request<V> {
    Begin,
    /// A transaction that writes nothing is to begin: it keeps no read set.
    BeginRead,
    Call(Call<V>),
    Commit,
    Abort,
}

/// What happens in a world: one actor asks, one atomic step of one actor's request, or an allocation that fails.
#[derive(Debug, Drop)]
pub enum Event<V> {
    Ask(u32, Request<V>),
    Step(u32),
    /// An allocation for the actor's request fails, where one still may.
    Starve(u32),
}

/// What a request is answered.
#[derive(Debug, Drop)]
pub enum Answer<V> {
    /// The clock that the transaction began with.
    Begun(u64),
    Replied(Reply<V>),
    /// The commit number.
    Committed(u64),
    Aborted,
}

/// What an event answers.
#[derive(Debug, Drop)]
pub enum Notice<V> {
    Quiet,
    Answered(u32, Answer<V>),
    Refused(u32, Refusal),
}

impl<V: Value> Request<V> {
    /// An equal request. `Memory` where an allocation for its value fails.
    pub fn try_copy(&self) -> Result<Request<V>, Memory>
        ensures { IfOk result (λ copy. copy ≡ self.now) }
    {
        Ok(match self {
            Request::Begin => Request::Begin,
            Request::BeginRead => Request::BeginRead,
            Request::Call(call) => Request::Call(call.try_copy()?),
            Request::Commit => Request::Commit,
            Request::Abort => Request::Abort,
        })
    }
}

impl<V: Value> Event<V> {
    /// An equal event. `Memory` where an allocation for its value fails.
    pub fn try_copy(&self) -> Result<Event<V>, Memory>
        ensures { IfOk result (λ copy. copy ≡ self.now) }
    {
        Ok(match self {
            Event::Ask(actor, request) => Event::Ask(*actor, request.try_copy()?),
            Event::Step(actor) => Event::Step(*actor),
            Event::Starve(actor) => Event::Starve(*actor),
        })
    }
}
