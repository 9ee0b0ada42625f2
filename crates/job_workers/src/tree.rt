//! Lists of jobs as a tree of halves.
ghost use Rattle.std.specs.Prelude.{◌≡◌, ◌≤◌, []};
ghost use Rattle.job_workers.specs.Trees.{AreLeft, AreOthers, IsFresh, gained, leaves, works};

use seq_model::{ACTOR_LIMIT, Job, Value};
use tx_engine::Task;

/// The lists of jobs of some workers, halved and halved again.
#[derive(Drop)]
pub enum Tree<V, J> {
    /// What stands where a tree was taken out.
    Taken,
    Leaf(Task<V, J>),
    Both(Box<Tree<V, J>>, Box<Tree<V, J>>),
}

impl<V: Value, J: Job<V>> Tree<V, J> {
    /// How many lists there are.
    pub fn count(&self) -> u64
        requires few { leaves self.now ≤ ACTOR_LIMIT }
        ensures count { result ≡ leaves self.now }
        ensures some { 1 ≤ leaves self.now }
    {
        match self {
            Tree::Taken => 1,
            Tree::Leaf(_) => 1,
            Tree::Both(left, right) => left.count() + right.count(),
        }
    }

    /// The lists of workers that were not started.
    pub fn leave(&mut self)
        requires fresh { IsFresh self.old }
        requires others { AreOthers self.old }
        ensures works { works self.new ≡ works self.old }
        ensures left { AreLeft self.new }
        ensures none { gained self.new ≡ [] }
    {
        match self {
            Tree::Taken => {}
            Tree::Leaf(task) => task.leave(),
            Tree::Both(left, right) => {
                left.leave();
                right.leave();
            }
        }
    }
}
