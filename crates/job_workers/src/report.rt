//! What comes of all lists.
ghost use Rattle.std.specs.Prelude.{◌≡◌, ◌+◌, ◌++◌, ◌≤◌, IfOk, [], length};
ghost use Rattle.std.specs.Vec.{vec_capacity, vec_len};
ghost use Rattle.job_workers.specs.Trees.{lists_of, missed_of};
ghost use Rattle.job_workers.specs.Reports.{HasRoomFor, jobs_in};

use crate::tree::Tree;
use seq_model::{Items, Job, LastAbort, Memory, Record, Value};
use std::alloc::Global;

/// What comes of a run of workers.
#[derive(Debug, Drop)]
pub struct Report<V> {
    /// Of each worker, in the order of its jobs.
    pub receipts: Items<Items<Record<V>>>,
    /// A worker from 1, the position of a job in its list from 0, and why that one has no receipt; rising by worker, then by position.
    pub missed: Items<(u64, u64, LastAbort)>,
}

/// A report that is being filled.
#[derive(Drop)]
pub struct Draft<V> {
    pub receipts: Vec<Items<Record<V>>>,
    pub missed: Vec<(u64, u64, LastAbort)>,
}

/// How many jobs there are. `Memory` where they are more than memory can hold.
#[tactic(auto, using(crate::proofs::ReportLemmas::count_more, crate::proofs::ReportLemmas::count_all))]
fn count_of<J>(lists: &[Vec<J>]) -> Result<usize, Memory>
    ensures { IfOk result (λ count. count ≡ jobs_in lists.now) }
{
    let mut count = 0usize;
    'lists: for list in lists {
        count = count.checked_add(list.len()).ok_or(Memory)?;
    }
    Ok(count)
}

/// There is room for these.
fn append(missed: &mut Vec<(u64, u64, LastAbort)>, more: Vec<(u64, u64, LastAbort)>)
    requires room { vec_len missed.old + length more.items ≤ vec_capacity missed.old }
    ensures items { missed.new.items ≡ missed.old.items ++ more.items }
    ensures capacity { vec_capacity missed.new ≡ vec_capacity missed.old }
{
    for job in more {
        missed.push_reserved(job);
    }
}

impl<V: Value> Draft<V> {
    /// With room for what may come of these lists.
    pub fn reserve<J>(alloc: Global, lists: &[Vec<J>]) -> Result<Draft<V>, Memory>
        ensures { IfOk result (HasRoomFor lists.now) }
    {
        let count = count_of(lists)?;
        Ok(Draft {
            receipts: Vec::with_capacity(alloc, lists.len())?,
            missed: Vec::with_capacity(alloc, count)?,
        })
    }

    /// What a tree's workers missed, and their receipts, from left to right.
    pub fn gather<J: Job<V> + Drop>(&mut self, tree: Tree<V, J>)
        requires receipts { vec_len self.old.receipts + length (lists_of tree) ≤ vec_capacity self.old.receipts }
        requires missed { vec_len self.old.missed + length (missed_of tree) ≤ vec_capacity self.old.missed }
        ensures receipts { self.new.receipts.items ≡ self.old.receipts.items ++ lists_of tree }
        ensures missed { self.new.missed.items ≡ self.old.missed.items ++ missed_of tree }
        ensures room { (vec_capacity self.new.receipts ≡ vec_capacity self.old.receipts)
            × (vec_capacity self.new.missed ≡ vec_capacity self.old.missed) }
    {
        match tree {
            Tree::Taken => {}
            Tree::Leaf(task) => {
                self.receipts.push_reserved(Items::from_vec(task.receipts));
                append(&mut self.missed, task.missed);
            }
            Tree::Both(left, right) => {
                self.gather(Box::into_inner(left));
                self.gather(Box::into_inner(right));
            }
        }
    }

    /// The report of a tree's lists.
    pub fn filled<J: Job<V> + Drop>(mut self, tree: Box<Tree<V, J>>) -> Report<V>
        requires empty { (self.receipts.items ≡ []) × (self.missed.items ≡ []) }
        requires receipts { length (lists_of tree.value) ≤ vec_capacity self.receipts }
        requires missed { length (missed_of tree.value) ≤ vec_capacity self.missed }
        ensures receipts { result.receipts ≡ lists_of tree.value }
        ensures missed { result.missed ≡ missed_of tree.value }
    {
        self.gather(Box::into_inner(tree));
        Report {
            receipts: Items::from_vec(self.receipts),
            missed: Items::from_vec(self.missed),
        }
    }
}
