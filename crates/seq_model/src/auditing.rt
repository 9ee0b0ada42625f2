//! Whether records are a run from one state to another.
ghost use Rattle.std.specs.Prelude.{◌≡◌, ◌↔◌, ◌<◌, IsTrue, IfOk, IfErr, OnOk, Some, MatchOption, map, count_by};
ghost use Rattle.seq_model.specs.Runs.{reply_of, after_call, IsLegal, after_calls, IsRun, after_run};
ghost use Rattle.seq_model.specs.Ranks.{rank_of, AreRanked, writes_at};
ghost use Rattle.seq_model.specs.Texts.{audit_fault_text};
ghost use Rattle.seq_model.specs.Audit.{run_order, IsLeastDouble, IsFirstWrong, IsReplayFault, IsRunBetween, IsAuditFault};

use crate::call::{Call, Reply};
use crate::record::Record;
use crate::refusal::{Memory, Refusal};
use crate::state::State;
use crate::value::Value;
use std::alloc::Global;
use std::fmt;
use thiserror::Error;

/// Why records are no run from the opening state to the last one.
#[derive(Clone, Copy, Debug, PartialEq, Eq, Error)]
pub enum AuditFault {
    /// The least number that two writers share.
    DoubleNumber(u64),
    /// The first call, in the order of the run, whose reply is wrong: the position of its record, and its own in the record.
    WrongReply { entry: u64, call: u64 },
    /// The run leaves another state.
    WrongState,
    Memory,
}

impl fmt::Display for AuditFault {
    ghost output = { λ fault. Some (audit_fault_text fault) };

    fn fmt<W: fmt::Write>(&self, f: &mut fmt::Formatter<W>) -> fmt::Result {
        match self {
            AuditFault::Memory => write!(f, "{Memory}"),
            _ => f.write_str("audit fault"),
        }
    }
}

impl From<Memory> for AuditFault {
    ghost use Rattle.seq_model.specs.declared.auditing.AuditFault.TheVariants.{Memory as OutOfMemory};

    ghost from_gives = { λ _ fault. fault ≡ OutOfMemory };

    fn from(_error: Memory) -> AuditFault {
        AuditFault::Memory
    }
}

/// Whether the records, which come in any order, are a run from `opening` that leaves `last`.
///
/// The order of a run is by number; at one number the writer comes first, then readers in the order in which they were
/// handed in. The faults, in the order in which they are looked for: `DoubleNumber` with the least number that two
/// writers share; `WrongReply` with the first call, in the order of the run, whose reply is not the sequential call's or
/// that has none, by the positions (from 0) of its record in `records` and of the call in the record; `WrongState` where
/// the run leaves another state. `Memory` may come at any point.
pub fn audit<V: Value>(
    alloc: Global,
    opening: &State<V>,
    records: &[Record<V>],
    last: &State<V>,
) -> Result<(), AuditFault>
    ensures ok { OnOk result (IsRunBetween opening.now records.now last.now) }
    ensures fault { IfErr result (IsAuditFault opening.now records.now last.now) }
{
    let turns = turns_of(alloc, records)?;
    if let Some(number) = double_number(&turns) {
        return Err(AuditFault::DoubleNumber(number));
    }
    let mut state = opening.try_copy(alloc)?;
    replay(&mut state, records, &turns)?;
    if !state.same(last) {
        return Err(AuditFault::WrongState);
    }
    Ok(())
}

// The ranks of the records in the order of their run: each one's number, whether it only reads, and its position.
fn turns_of<V>(alloc: Global, records: &[Record<V>]) -> Result<Vec<(u64, bool, usize)>, Memory>
    ensures turns { IfOk result (λ turns. turns.items ≡ map rank_of (run_order records.now)) }
{
    let mut turns = Vec::with_capacity(alloc, records.len())?;
    for (place, record) in records.iter().enumerate() {
        turns.push((record.number, !record.writes, place))?;
    }
    turns.sort()?;
    Ok(turns)
}

// The least number that two writers share.
fn double_number(turns: &[(u64, bool, usize)]) -> Option<u64>
    requires { AreRanked turns.now }
    ensures { IsLeastDouble (λ n. count_by (writes_at n) turns.now) result }
{
    let mut last = None;
    for (number, only_reads, _) in turns {
        if !*only_reads {
            if last == Some(*number) {
                return last;
            }
            last = Some(*number);
        }
    }
    None
}

// Makes the calls of the records in turn, up to the first whose reply is wrong.
fn replay<V: Value>(
    state: &mut State<V>,
    records: &[Record<V>],
    turns: &[(u64, bool, usize)],
) -> Result<(), AuditFault>
    requires { turns.now ≡ map rank_of (run_order records.now) }
    ensures ok { OnOk result
        (IsRun (run_order records.now) state.old × (state.new ≡ after_run (run_order records.now) state.old)) }
    ensures fault { IfErr result (IsReplayFault (run_order records.now) state.old) }
{
    for (_, _, place) in turns {
        let calls = records[*place].calls.as_slice();
        if let Some(call) = first_wrong(state, calls)? {
            return Err(AuditFault::WrongReply {
                entry: *place as u64,
                call: call as u64,
            });
        }
    }
    Ok(())
}

// Makes the calls in turn, up to the first whose reply is not the one beside it, and answers its position.
fn first_wrong<V: Value>(
    state: &mut State<V>,
    calls: &[(Call<V>, Reply<V>)],
) -> Result<Option<usize>, Memory>
    ensures { IfOk result
        (λ wrong. MatchOption wrong
        (IsLegal calls.now state.old × (state.new ≡ after_calls calls.now state.old))
        (λ place. IsFirstWrong place calls.now state.old)) }
{
    for (place, (call, reply)) in calls.iter().enumerate() {
        if !replies(state, call, reply)? {
            return Ok(Some(place));
        }
    }
    Ok(None)
}

// Makes the call, and answers whether this is its reply.
fn replies<V: Value>(state: &mut State<V>, call: &Call<V>, reply: &Reply<V>) -> Result<bool, Memory>
    ensures reply { IfOk result (λ is_right. IsTrue is_right ↔ (reply_of call.now state.old ≡ Some reply.now)) }
    ensures state { IfOk result (λ is_right. IsTrue is_right → state.new ≡ after_call call.now state.old) }
{
    match state.apply(call) {
        Ok(made) => Ok(made.same(reply)),
        Err(Refusal::NoSuch) => Ok(false),
        Err(_) => Err(Memory),
    }
}
