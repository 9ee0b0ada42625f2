//! The lists of jobs, halved into a tree.
ghost use Rattle.std.specs.Prelude.{◌≡◌, ◌+◌, ◌<◌, ◌≤◌, IfOk, length};
ghost use Rattle.job_workers.specs.Reports.{AreTaken};
ghost use Rattle.job_workers.specs.Trees.{AreOthers, IsFresh, leaves, works};

use crate::tree::Tree;
use seq_model::{Job, Memory, Value};
use std::alloc::Global;
use tx_engine::Task;

/// So many of these lists, the last ones, as a tree of halves. The first of them is this worker's.
pub fn tree_of<V: Value, J: Job<V> + Drop>(
    alloc: Global,
    lists: &mut Vec<Vec<J>>,
    count: u64,
    first: u64,
) -> Result<Box<Tree<V, J>>, Memory>
    requires some { 1 ≤ count }
    requires first { 1 ≤ first }
    requires few { first + count ≤ 65 }
    requires there { count ≤ length lists.old.items }
    ensures fresh { IfOk result (λ tree. IsFresh tree.value) }
    ensures others { IfOk result (λ tree. 1 < first → AreOthers tree.value) }
    ensures leaves { IfOk result (λ tree. leaves tree.value ≡ count) }
    ensures lists { IfOk result (λ tree. AreTaken lists.old.items lists.new.items count first (works tree.value)) }
{
    if count == 1 {
        let Some(jobs) = lists.pop() else {
            unreachable!()
        };
        let task = Task::new(alloc, first, jobs)?;
        return Ok(Box::new(alloc, Tree::Leaf(task))?);
    }
    let half = count / 2;
    let right = tree_of(alloc, lists, half, first + (count - half))?;
    let left = tree_of(alloc, lists, count - half, first)?;
    Ok(Box::new(alloc, Tree::Both(left, right))?)
}
