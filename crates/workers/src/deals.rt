//! Dealing and gathering.
ghost use Rattle.std.specs.Prelude.{◌≡◌, ◌++◌, ◌<◌, ◌≤◌, [], ◌∷◌, IfOk, OnOk, get_or, length, set};
ghost use Rattle.workers.specs.Deals.{AreDealt, AreDealtLike, IsNext, in_lists, in_queues};

use seq_model::Memory;
use std::alloc::Global;
use std::collections::VecDeque;

/// Whose turn is next, of so many.
fn after_turn(turn: usize, count: usize) -> usize
    requires { turn < count }
    ensures next { IsNext count turn result }
    ensures within { result < count }
{
    if turn + 1 == count { 0 } else { turn + 1 }
}

/// So many lists of nothing.
fn empty_lists<T: Drop>(alloc: Global, count: usize) -> Result<Vec<Vec<T>>, Memory>
    ensures many { IfOk result (λ lists. length lists.items ≡ count) }
    ensures empty { IfOk result (λ lists. AreDealt count [] (in_lists lists.items)) }
{
    let mut lists = Vec::with_capacity(alloc, count)?;
    'lists: for _ in 0..count {
        lists.push(Vec::new(alloc))?;
    }
    Ok(lists)
}

/// One item more for one of the lists.
fn give<T: Drop>(lists: &mut Vec<Vec<T>>, turn: usize, item: T) -> Result<(), Memory>
    requires { turn < length lists.old.items }
    ensures many { OnOk result (length lists.new.items ≡ length lists.old.items) }
    ensures given { OnOk result (in_lists lists.new.items
        ≡ set (in_lists lists.old.items) turn (get_or (in_lists lists.old.items) turn [] ++ item ∷ [])) }
{
    lists[turn].push(item)?;
    Ok(())
}

/// Deals the items out in turn to so many lists.
pub fn deal<T: Drop>(alloc: Global, items: Vec<T>, count: usize) -> Result<Vec<Vec<T>>, Memory>
    requires { 1 ≤ count }
    ensures dealt { IfOk result (λ lists. AreDealt count items.items (in_lists lists.items)) }
    ensures like { IfOk result (λ lists. AreDealtLike count (length items.items) (in_lists lists.items)) }
{
    let mut lists = empty_lists(alloc, count)?;
    let mut turn = 0;
    'items: for item in items {
        give(&mut lists, turn, item)?;
        turn = after_turn(turn, count);
    }
    Ok(lists)
}

/// The first item of one of the queues, which has some.
fn take<T: Drop>(queues: &mut Vec<VecDeque<T>>, turn: usize) -> T
    requires there { turn < length queues.old.items }
    requires some { 1 ≤ length (get_or (in_queues queues.old.items) turn []) }
    ensures many { length queues.new.items ≡ length queues.old.items }
    ensures taken { get_or (in_queues queues.old.items) turn [] ≡ result ∷ get_or (in_queues queues.new.items) turn [] }
    ensures kept { in_queues queues.new.items
        ≡ set (in_queues queues.old.items) turn (get_or (in_queues queues.new.items) turn []) }
{
    match queues[turn].pop_front() {
        Some(item) => item,
        None => unreachable!(),
    }
}

/// Takes so many items from the queues in turn, which is all: there are as many in each as it would have of so many that are dealt out.
pub fn gather<T: Drop>(
    alloc: Global,
    mut queues: Vec<VecDeque<T>>,
    total: usize,
) -> Result<Vec<T>, Memory>
    requires some { 1 ≤ length queues.items }
    requires like { AreDealtLike (length queues.items) total (in_queues queues.items) }
    ensures many { IfOk result (λ items. length items.items ≡ total) }
    ensures gathered { IfOk result (λ items. AreDealt (length queues.items) items.items (in_queues queues.items)) }
{
    let count = queues.len();
    let mut items = Vec::with_capacity(alloc, total)?;
    let mut turn = 0;
    'items: for _ in 0..total {
        items.push(take(&mut queues, turn))?;
        turn = after_turn(turn, count);
    }
    Ok(items)
}
