//! Where a worker may be held.
use seq_model::Refusal;

/// What a worker calls on its way. Those who try transactions that overlap hold a worker there until another has continued. Nothing that is
/// promised of an attempt depends on it.
pub trait Pause {
    /// This worker's job is done, and no step of the commit is taken so far.
    fn before_commit(&self, worker: u64);

    /// This worker has the receipt of a commit with this number.
    fn after_receipt(&self, worker: u64, number: u64);

    /// An attempt of this worker's job was refused so. Who doesn't count attempts does nothing.
    fn after_refusal(&self, _worker: u64, _cause: Refusal) {}
}

/// No worker is held.
#[derive(Clone, Copy)]
pub struct NoPause;

impl Pause for NoPause {
    fn before_commit(&self, _worker: u64) {}

    fn after_receipt(&self, _worker: u64, _number: u64) {}
}
