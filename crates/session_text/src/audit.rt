//! Audits the result of a script.
ghost use Rattle.std.specs.Prelude.{◌≡◌, IfErr, OnOk};
ghost use Rattle.step_world.specs.Traces.{IsSerialTrace};
ghost use Rattle.session_text.specs.Audits.{HasAuditFault, IsAudited};

use crate::run::ScriptRun;
use actor_parts::audit_records;
use seq_model::AuditFault;
use std::alloc::Global;

/// Whether the records of a run's trace are a run of the sequential model from its opening, which results in what the trace shows.
///
/// A trace with a half-done commit is not audited. Of a trace in serial order, as that of each run of a script is, there is no
/// fault but out of memory.
pub fn audit_run(alloc: Global, run: &ScriptRun) -> Result<(), AuditFault>
    ensures ok { OnOk result (IsAudited run.now) }
    ensures fault { IfErr result (HasAuditFault run.now) }
    ensures none { IsSerialTrace run.now.opening run.now.trace → IfErr result (λ fault. fault ≡ AuditFault.Memory) }
{
    if !run.trace.half.is_empty() {
        return Ok(());
    }
    let records = run.trace.records.as_slice();
    audit_records(alloc, &run.opening, records, &run.trace.state)
}
