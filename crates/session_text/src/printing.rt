//! What is printed of sessions.
ghost use Rattle.std.specs.Prelude.{◌≡◌, ◌++◌, IfOk};
ghost use Rattle.session_text.specs.SessionPrints.{ending, run_text};

use seq_model::Memory;
use std::alloc::Global;
use text_formats::{Line, print_sessions};
use vac_model::Tables;

/// The stripes of each collection on which sessions of a file, or drawn ones, run.
pub const STRIPES: u32 = 64;

/// The result of sessions.
#[derive(Drop)]
pub struct SessionRun {
    /// The result of each, in their order.
    pub lines: Vec<Line>,
    /// The tables that they leave.
    pub tables: Tables,
}

/// What is printed of sessions once they were inspected: a line for each, then what the tables hold, and that the receipts were audited
/// and the tables are balanced.
pub fn text_of(alloc: Global, run: &SessionRun) -> Result<Vec<u8>, Memory>
    ensures { IfOk result (λ bytes. bytes.items ≡ run_text run.now) }
{
    let bytes = print_sessions(alloc, run.lines.as_slice(), &run.tables)?;
    with_ending(bytes)
}

/// Ends a text with the lines that are printed only once the receipts were audited and the tables checked.
pub fn with_ending(text: Vec<u8>) -> Result<Vec<u8>, Memory>
    ensures { IfOk result (λ bytes. bytes.items ≡ text.items ++ ending) }
{
    let mut bytes = text;
    bytes.extend_from_slice(b"audit ok\nbalanced yes\n")?;
    Ok(bytes)
}
