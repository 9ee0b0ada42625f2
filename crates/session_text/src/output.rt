//! What is printed of a session file.
ghost use Rattle.std.specs.Prelude.{IfErr, IfOk};
ghost use Rattle.session_text.specs.Faults.{IsFault};
ghost use Rattle.session_text.specs.Outputs.{IsOutput};

use crate::fault::RunFault;
use crate::printing::text_of;
use crate::runs::run_sessions;
use client_sessions::Progress;
use std::alloc::Global;
use text_formats::parse_sessions;

/// What the sessions of a file print: a line for each session, then what the tables hold, and that the receipts were audited and the
/// tables are balanced. Meanwhile `progress` is called with how many have receipts.
///
/// `BadText` names the first line outside the grammar, counted from 1; `Memory` where an allocation failed.
pub fn output_of<P: Progress>(alloc: Global, text: &[u8], progress: &P) -> Result<Vec<u8>, RunFault>
    ensures output { IfOk result (λ bytes. IsOutput text.now bytes.items) }
    ensures refused { IfErr result (IsFault text.now) }
{
    let (tables, actions) = parse_sessions(alloc, text)?;
    let run = run_sessions(alloc, tables, actions.as_slice(), progress);
    progress.end();
    let run = run?;
    Ok(text_of(alloc, &run)?)
}
