//! The sections, and who answers each.
use crate::copies::answer_copies;
use crate::sessions::answer_sessions;
use crate::tables::answer_table;
use seq_model::Refusal;
use std::alloc::Global;
use std::fmt::Write;
use std::sync::Wait;
use std::thread::Threads;

/// The sections, each with what comes of it, and how many there are. A section has a name, and then a row whose first word says what the
/// other rows are.
///
/// - `seats words 7 8; clock 3`: rows at two seats of a table, see [`crate::engine`].
/// - `workers 1 2 on words 0 0`, `retries 3 on words 0 0`: jobs, see [`crate::worker`].
/// - `sessions 2 64 1000 2`: a session file, see [`crate::sessions`].
/// - `copies at a seat`, `copies of two workers`, `copies in a world`, `copies in a commit`: no rows; [`crate::copies`] says what is run.
///
/// What opens a table are lines of a script's header with `; ` between. After the rows on a table stands its clock when it was closed, and
/// what the audit of all receipts says: that what the table holds is what they leave, one after another. `closed 1 do read 0`, in any such
/// section, is a call on the state that the closed table holds, like one on the sequential model. Above the clock stand the answers of the
/// rows `the words`, how many there are, `the block 0`, where a collection is stored, and `left 0`, what it holds in the closed table.
/// Where an allocation fails, the rows continue, each seat is to commit a write after them, and the audit is to be Ok; only then is it
/// answered as `Memory`.
pub fn answer_all<R: Threads + Wait + Sync>(
    rt: &R,
    alloc: Global,
    sections: &str,
) -> Result<String, Refusal> {
    let mut text = String::new(alloc);
    let mut count = 0u64;
    for section in sections.split("----\n") {
        if let Some((name, rows)) = section.split_once('\n') {
            count = count.saturating_add(1);
            writeln!(text, "# {name}")?;
            answer_section(rt, &mut text, rows)?;
        }
    }
    writeln!(text, "sections {count}")?;
    Ok(text)
}

fn answer_section<R: Threads + Wait + Sync>(
    rt: &R,
    text: &mut String,
    section: &str,
) -> Result<(), Refusal> {
    let Some((header, rows)) = section.split_once('\n') else {
        return Err(Refusal::NoSuch);
    };
    writeln!(text, "{header}")?;
    let (kind, words) = header.split_once(' ').unwrap_or((header, ""));
    match kind {
        "sessions" => answer_sessions(rt, text, words, rows),
        "copies" => answer_copies(rt, text, words),
        _ => answer_table(rt, text, kind, words, rows),
    }
}
