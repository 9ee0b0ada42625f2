//! The outcome of a call on a collection, by which the conflict table decides.
use seq_model::{Op, Reply};

/// What the conflict table goes by, beside the call and its reply.
#[derive(Clone, Copy)]
pub enum Note {
    Plain,
    /// The least element that the call leaves in a priority queue, where the call changes it.
    Least(Option<u64>),
    /// The index in a queue at which the call looked.
    Index(u64),
}

/// A call with its reply.
#[derive(Drop)]
pub struct Outcome<V> {
    pub op: Op<V>,
    pub reply: Reply<V>,
    pub note: Note,
}
