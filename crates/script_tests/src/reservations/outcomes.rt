//! What came of sessions, as text.
use super::prints::lines_of;
use crate::files::push_owned;
use client_sessions::tables_of;
use seq_model::{Items, Refusal};
use std::fmt::Write;
use text_formats::Line;
use vac_model::{ActionReply, Tables};
use vacation_core::Ordered;

/// What came of sessions that interleaved: those that committed, those that ended without, the commits that are half done, and the tables.
pub fn print_trace(
    text: &mut String,
    done: Items<(u32, u64, bool, ActionReply)>,
    aborted: &[(u32, Refusal)],
    half: &[u64],
    tables: &Tables,
) -> Result<(), Refusal> {
    if is_wanting(aborted) {
        return Err(Refusal::Memory);
    }
    let alloc = *text.allocator();
    let lines = print_done(text, done)?;
    print_ended(text, aborted, half)?;
    Ok(push_owned(text, lines_of(alloc, lines.as_slice(), tables)?)?)
}

// Whether a session ended as memory ran out where no row starved it.
fn is_wanting(aborted: &[(u32, Refusal)]) -> bool {
    let mut refused = 0;
    for (client, cause) in aborted {
        if matches!(cause, Refusal::Memory) && *client != refused {
            return true;
        }
        refused = if matches!(cause, Refusal::NotIdle) {
            *client
        } else {
            0
        };
    }
    false
}

// Whose each session is and whether it wrote. The lines have the rest.
fn print_done(
    text: &mut String,
    done: Items<(u32, u64, bool, ActionReply)>,
) -> Result<Vec<Line>, Refusal> {
    let mut lines = Vec::with_capacity(*text.allocator(), done.len())?;
    for (client, number, writes, reply) in done.into_vec() {
        let kind = if writes { "write" } else { "read" };
        writeln!(text, "{client} committed {number}, {kind}")?;
        lines.push(Line::Done(number, reply))?;
    }
    Ok(lines)
}

// Who ended without a commit, and the numbers of the commits that are half done.
fn print_ended(text: &mut String, aborted: &[(u32, Refusal)], half: &[u64]) -> Result<(), Refusal> {
    for (client, cause) in aborted {
        writeln!(text, "{client} ended: {cause}")?;
    }
    for number in half {
        writeln!(text, "half {number}")?;
    }
    Ok(())
}

/// What came of sessions one after another.
pub fn print_ordered(text: &mut String, ordered: &Ordered) -> Result<(), Refusal> {
    for receipt in ordered.receipts.as_slice() {
        let number = receipt.number;
        let kind = if receipt.writes { "write" } else { "read" };
        let calls = receipt.calls.len();
        writeln!(text, "committed {number}, {kind}, calls {calls}")?;
    }
    let alloc = *text.allocator();
    let tables = tables_of(alloc, &ordered.state)?;
    Ok(push_owned(text, lines_of(alloc, &[], &tables)?)?)
}
