//! The sequential model, and the audit.
use crate::rows::{ensure, state};
use seq_model::{Call, Op, Refusal, Value, audit};
use std::alloc::Global;

/// Each call once: of the word, the map, the multiset, the priority queue and the queue.
const CALLS: &[Call<u64>] = &[
    Call {
        target: 0,
        op: Op::Read,
    },
    Call {
        target: 0,
        op: Op::Write(6),
    },
    Call {
        target: 0,
        op: Op::Get(2),
    },
    Call {
        target: 0,
        op: Op::Put(3, 30),
    },
    Call {
        target: 0,
        op: Op::Remove(2),
    },
    Call {
        target: 0,
        op: Op::Len,
    },
    Call {
        target: 1,
        op: Op::Count(5),
    },
    Call {
        target: 1,
        op: Op::Add(5),
    },
    Call {
        target: 1,
        op: Op::Take(6),
    },
    Call {
        target: 2,
        op: Op::Least,
    },
    Call {
        target: 2,
        op: Op::Insert(4),
    },
    Call {
        target: 2,
        op: Op::TakeLeast,
    },
    Call {
        target: 3,
        op: Op::Enqueue(9),
    },
    Call {
        target: 3,
        op: Op::Dequeue,
    },
    Call {
        target: 3,
        op: Op::Peek,
    },
    Call {
        target: 3,
        op: Op::Len,
    },
];

pub fn call(alloc: Global) -> Result<(), Refusal> {
    let mut state = state(alloc)?;
    let mut applied = true;
    for call in CALLS {
        applied &= state.apply(call).is_ok();
    }
    let held = state.words.len() == 1 && state.held.len() == 4;
    let audited = audit(alloc, &state, &[], &state).is_ok();
    drop(state);
    ensure(held && audited && applied && 7u64.try_copy()?.same(&7))
}
