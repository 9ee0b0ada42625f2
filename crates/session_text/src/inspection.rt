//! Receipts and tables are inspected.
ghost use Rattle.std.specs.Prelude.{IfErr, OnOk};
ghost use Rattle.session_text.specs.Findings.{IsFinding, IsSound};

use crate::fault::RunFault;
use client_sessions::Entry;
use seq_model::{Record, State, audit};
use std::alloc::Global;
use vac_model::{Tables, is_balanced_by_tally};

/// Audits receipts, and checks whether the tables that their sessions leave are balanced.
///
/// `Audit` where the receipts are no run between the two states, and else `NotBalanced`; an allocation may fail at any point.
pub fn inspect(
    alloc: Global,
    opening: &State<Entry>,
    receipts: &[Record<Entry>],
    last: &State<Entry>,
    tables: &Tables,
) -> Result<(), RunFault>
    ensures sound { OnOk result (IsSound opening.now receipts.now last.now tables.now) }
    ensures finding { IfErr result (IsFinding opening.now receipts.now last.now tables.now) }
{
    audit(alloc, opening, receipts, last)?;
    if !is_balanced_by_tally(alloc, tables)? {
        return Err(RunFault::NotBalanced);
    }
    Ok(())
}
