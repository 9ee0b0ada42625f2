//! The receipts of the workers are audited, and the tables checked.
ghost use Rattle.std.specs.Prelude.{◌≡◌, IfErr, IfOk, OnOk, flat_map};
ghost use Rattle.session_text.specs.Findings.{IsFinding, IsSound};
ghost use Rattle.command_line.specs.Runs as specs;

use client_sessions::Entry;
use seq_model::{Items, Memory, Record, State};
use session_text::{RunFault, inspect};
use std::alloc::Global;
use vac_model::Tables;
use workers::{Report, Served};

/// The receipts of all workers, one worker's after another's. They are moved, not copied.
fn receipts_of(
    alloc: Global,
    lists: Items<Items<Record<Entry>>>,
) -> Result<Vec<Record<Entry>>, Memory>
    ensures { IfOk result (λ all. all.items ≡ flat_map (λ receipts. receipts) lists) }
{
    let mut all = Vec::new(alloc);
    'lists: for list in lists.into_vec() {
        let mut own = list.into_vec();
        all.append(&mut own)?;
    }
    Ok(all)
}

/// Audits the receipts of a report from this opening, and checks the tables.
fn look_through(
    alloc: Global,
    opening: &State<Entry>,
    report: Report<Entry>,
    state: &State<Entry>,
    tables: &Tables,
) -> Result<(), RunFault>
    ensures sound { OnOk result (IsSound opening.now (flat_map (λ receipts. receipts) report.receipts) state.now tables.now) }
    ensures finding { IfErr result (IsFinding opening.now (flat_map (λ receipts. receipts) report.receipts) state.now tables.now) }
{
    let receipts = receipts_of(alloc, report.receipts)?;
    inspect(alloc, opening, receipts.as_slice(), state, tables)
}

/// The tables that workers left, once their receipts were audited from this opening and the tables checked.
pub(crate) fn inspected(
    alloc: Global,
    opening: &State<Entry>,
    served: Served,
) -> Result<Tables, RunFault>
    ensures tables { IfOk result (λ tables. tables ≡ served.tables) }
    ensures sound { OnOk result (IsSound opening.now (specs.receipts_of served) served.state served.tables) }
    ensures finding { IfErr result (IsFinding opening.now (specs.receipts_of served) served.state served.tables) }
{
    let Served {
        report,
        tables,
        state,
    } = served;
    let found = look_through(alloc, opening, report, &state, &tables);
    drop(state);
    match found {
        Ok(()) => Ok(tables),
        Err(fault) => {
            drop(tables);
            Err(fault)
        }
    }
}
