//! Whether the records of a world are a run.
ghost use Rattle.std.specs.Prelude.{◌≡◌, ℕ, false, List, IfErr, IfOk, OnOk};
ghost use Rattle.seq_model.specs.Audit.{IsAuditFault, IsRunBetween};
ghost use Rattle.seq_model.specs.Runs.{IsInCommitOrder, IsRun, after_run};
ghost use Rattle.seq_model.specs.declared.event.Event.{Event};
ghost use Rattle.replay_log.specs.Collections.{Suit};
ghost use Rattle.replay_log.specs.Contents.{Block, HaveStripes};
ghost use Rattle.replay_log.specs.Worlds.{opened, run};
ghost use Rattle.replay_log.specs.WorldTraces.{is_half_done, state};
ghost use Rattle.actor_parts.specs.Audits.{without_actors};

use seq_model::{AuditFault, Memory, Record, State, Value, audit};
use std::alloc::Global;

/// Whether the records, which stand in commit order, are a run from `opening` that leaves `last`: what `seq_model::audit` says of them. It
/// looks at copies of them. Of a run there is no fault but `Memory`, where an allocation fails; nor of the records of a world that events
/// have reached, whatever the events, with the state that it shows where no commit is half done.
pub fn audit_records<V: Value>(
    alloc: Global,
    opening: &State<V>,
    records: &[(u32, Record<V>)],
    last: &State<V>,
) -> Result<(), AuditFault>
    ensures ok { OnOk result (IsRunBetween opening.now (without_actors records.now) last.now) }
    ensures fault { IfErr result (IsAuditFault opening.now (without_actors records.now) last.now) }
    ensures none { IsInCommitOrder records.now → IsRun records.now opening.now → after_run records.now opening.now ≡ last.now →
        IfErr result (λ fault. fault ≡ AuditFault.Memory) }
    ensures reached { (blocks : List Block) (clock : ℕ) (events : List (Event V)) → HaveStripes blocks → Suit blocks opening.now.held →
        let w = run (opened blocks clock opening.now.words opening.now.held) events in
        ((a : ℕ) → is_half_done (w.seats a).stage ≡ false) → records.now ≡ w.records → last.now ≡ state w →
        IfErr result (λ fault. fault ≡ AuditFault.Memory) }
{
    let copies = copies_of(alloc, records)?;
    audit(alloc, opening, copies.as_slice(), last)
}

// The records without their actors.
fn copies_of<V: Value>(
    alloc: Global,
    records: &[(u32, Record<V>)],
) -> Result<Vec<Record<V>>, Memory>
    ensures { IfOk result (λ copies. copies.items ≡ without_actors records.now) }
{
    let mut copies = Vec::with_capacity(alloc, records.len())?;
    for entry in records {
        copies.push(entry.1.try_copy(alloc)?)?;
    }
    Ok(copies)
}
