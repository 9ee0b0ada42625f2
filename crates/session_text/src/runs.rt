//! The sessions of a file, one after another.
ghost use Rattle.std.specs.Prelude.{◌≡◌, All, IfErr, IfOk};
ghost use Rattle.seq_model.specs.declared.refusal.Refusal.TheVariants.{Memory as OutOfMemory};
ghost use Rattle.vac_model.specs.Actions.{IsAllowed};
ghost use Rattle.vac_model.specs.Balanced.{IsBalanced};
ghost use Rattle.session_text.specs.declared.fault.RunFault.TheVariants.{Refused};
ghost use Rattle.session_text.specs.Runs.{IsSessionRun};

use crate::fault::RunFault;
use crate::inspection::inspect;
use crate::lines::lines_of;
use crate::printing::{STRIPES, SessionRun};
use client_sessions::laws::{balanced_tables_have_a_state, runs_are_actions, states_tell_tables};
use client_sessions::{Progress, state_of, tables_of};
use std::alloc::Global;
use vac_model::{Action, Tables};
use vacation_core::run_in_order_with;

/// Runs the sessions of these actions, one after another, on a world that opens on these tables, and inspects their result.
/// After each of them `progress` is called with how many there were.
///
/// Refused as `Memory` where an allocation failed, and for nothing else: the inspection finds nothing.
pub fn run_sessions<P: Progress>(
    alloc: Global,
    tables: Tables,
    actions: &[Action],
    progress: &P,
) -> Result<SessionRun, RunFault>
    requires balanced { IsBalanced tables }
    requires allowed { All IsAllowed actions.now }
    ensures run { IfOk result (IsSessionRun tables actions.now) }
    ensures refused { IfErr result (λ fault. fault ≡ Refused OutOfMemory) }
{
    balanced_tables_have_a_state();
    runs_are_actions();
    states_tell_tables();
    let opening = state_of(alloc, &tables)?;
    let ordered = run_in_order_with(alloc, tables, STRIPES, actions, progress)?;
    let receipts = ordered.receipts.as_slice();
    let left = tables_of(alloc, &ordered.state)?;
    inspect(alloc, &opening, receipts, &ordered.state, &left)?;
    let lines = lines_of(alloc, actions, receipts)?;
    Ok(SessionRun {
        lines,
        tables: left,
    })
}
