//! Two lists of numbers of copies, laid one over the other.
ghost use Rattle.std.specs.Prelude.{◌≡◌, ◌<◌, ◌≤◌, ◌++◌, All, IfOk, OnOk, drop, length};
ghost use Rattle.std.specs.FinMap as map;
ghost use Rattle.seq_model.specs.Entries.{IsRising, rank};
ghost use Rattle.base_pq.specs.Laid.{laid_by, through, with_number};

use crate::sorted::position_of;
use seq_model::Memory;
use std::alloc::Global;

/// The entries of one list with those of another laid over them. Of an element that has 0 copies there is an entry where zeros are to be
/// kept, and else none. `Memory` where an allocation fails.
pub fn merged(
    alloc: Global,
    list: &[(u64, u64)],
    over: &[(u64, u64)],
    zeros: bool,
) -> Result<Vec<(u64, u64)>, Memory>
    requires list { IsRising list.now }
    requires over { IsRising over.now }
    ensures { IfOk result (λ made. made.items ≡ map.entries (laid_by zeros (map.from_sorted list.now) over.now)) }
{
    let mut made = Vec::with_capacity(alloc, list.len() + over.len())?;
    let mut from = 0;
    for (element, count) in over {
        from += lay_one(&mut made, &list[from..], *element, *count, zeros)?;
    }
    made.extend_from_slice(&list[from..])?;
    Ok(made)
}

// Adds what stands before the element in the list that is left, and the element with its copies, if there are any. Returns how much of that
// list is used.
fn lay_one(
    made: &mut Vec<(u64, u64)>,
    rest: &[(u64, u64)],
    element: u64,
    count: u64,
    zeros: bool,
) -> Result<usize, Memory>
    requires rising { IsRising (made.old.items ++ rest.now) }
    requires below { All (λ e. e.0 < element) made.old.items }
    ensures used { IfOk result (λ used. used ≤ length rest.now) }
    ensures rising { IfOk result (λ used. IsRising (made.new.items ++ drop used rest.now)) }
    ensures made { IfOk result (λ used. map.from_sorted (made.new.items ++ drop used rest.now)
        ≡ with_number zeros (map.from_sorted (made.old.items ++ rest.now)) element count) }
    ensures below { OnOk result (All (λ e. e.0 ≤ element) made.new.items) }
{
    let (at, used) = parted(rest, element);
    made.extend_from_slice(&rest[..at])?;
    if zeros || count != 0 {
        made.push((element, count))?;
    }
    Ok(used)
}

// How many entries of the list stand before the element, and how many up to it.
fn parted(list: &[(u64, u64)], element: u64) -> (usize, usize)
    requires { IsRising list.now }
    ensures before { result.0 ≡ rank element list.now }
    ensures used { result.1 ≡ through element list.now }
    ensures within { (result.0 ≤ length list.now) × (result.1 ≤ length list.now) }
{
    match position_of(list, element) {
        Ok(at) => (at, at + 1),
        Err(at) => (at, at),
    }
}
