//! Room for the calls of a transaction, and the list that its receipt keeps of them.
ghost use Rattle.std.specs.Prelude.{◌≡◌, ◌+◌, ◌<◌, ◌≤◌, [], OnErr, OnOk};
ghost use Rattle.std.specs.Vec.{vec_capacity, vec_len};

use seq_model::{Call, Reply};
use std::alloc::AllocError;
use std::mem;

/// Makes room for a call.
pub(crate) fn reserve_call<V>(calls: &mut Vec<(Call<V>, Reply<V>)>) -> Result<(), AllocError>
    ensures items { calls.new.items ≡ calls.old.items }
    ensures len { vec_len calls.new ≡ vec_len calls.old }
    ensures ok { OnOk result (vec_len calls.new < vec_capacity calls.new) }
    ensures capacity { vec_capacity calls.old ≤ vec_capacity calls.new }
    ensures err { OnErr result (vec_capacity calls.new ≡ vec_capacity calls.old) }
{
    calls.reserve(1)
}

/// Empties the list that a receipt is going to keep, and makes room in it for these calls, and for no more. What room it has already, of a
/// commit that was refused, remains.
pub(crate) fn reserve_made<V: Drop>(
    made: &mut Vec<(Call<V>, Reply<V>)>,
    calls: &Vec<(Call<V>, Reply<V>)>,
) -> Result<(), AllocError>
    ensures none { (made.new.items ≡ []) × (vec_len made.new ≡ 0) }
    ensures ok { OnOk result (vec_len calls.now ≤ vec_capacity made.new) }
{
    made.clear();
    made.reserve_exact(calls.len())
}

/// Moves the calls into the other list, which is empty and has room for them, and leaves theirs to the next transaction in its place.
pub(crate) fn move_calls<V>(
    calls: &mut Vec<(Call<V>, Reply<V>)>,
    made: &mut Vec<(Call<V>, Reply<V>)>,
)
    requires none { (made.old.items ≡ []) × (vec_len made.old ≡ 0) }
    requires room { vec_len calls.old ≤ vec_capacity made.old }
    ensures { calls.new.items ≡ calls.old.items }
{
    let _ = made.append(calls);
    mem::swap(calls, made);
}

/// The list with more room comes first. The calls of a transaction that was aborted are in the other one, with the room that they took.
pub(crate) fn keep_larger<V>(
    calls: &mut Vec<(Call<V>, Reply<V>)>,
    made: &mut Vec<(Call<V>, Reply<V>)>,
) {
    if calls.capacity() < made.capacity() {
        mem::swap(calls, made);
    }
}
