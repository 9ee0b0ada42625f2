//! How far a run of sessions has come, and who is notified.
//!
//! What runs sessions calls [`Progress`] after each of them; when that is shown, and whether at all, is decided by whoever implements it.
/// Who is notified of how far a run has come. Nothing that is promised of a run depends on it.
pub trait Progress {
    /// So many sessions of all have their receipts by now: called at each receipt, by the worker that has it.
    fn receipts(&self, count: u64, all: u64);

    /// The run is over, and its result was audited, or it was refused.
    fn end(&self);
}

/// Nobody is notified.
#[derive(Clone, Copy)]
pub struct NoProgress;

impl Progress for NoProgress {
    fn receipts(&self, _count: u64, _all: u64) {}

    fn end(&self) {}
}
