//! Sections of reservations: rows on the tables, and sessions on a running world.
mod draws;
mod events;
mod files;
mod limits;
mod outcomes;
mod parts;
mod prints;
mod rows;

use events::{actions_in, events_in, stripes_in, tables_in};
use outcomes::{print_ordered, print_trace};
use row_parts::tell_refusal;
use rows::answer_rows;
use seq_model::{Memory, Refusal};
use vacation_core::{VacTrace, VacWorld, run_in_order};

/// The first line of a text of reservations, and the rows after it.
pub fn opening_of(file: &str) -> Option<(&str, &str)> {
    let (opening, rows) = file.split_once('\n')?;
    if opening == "rows" || opening.ends_with(" stripes") {
        Some((opening, rows))
    } else {
        None
    }
}

/// Prints the result of a section. Its first line says what the others are: `rows`, which are answered one by one ([`rows::answer_rows`]),
/// or `64 stripes`. After that stand the items that there are, as a session file has them, and then what happens, row by row. What is
/// refused is answered by the refusal.
///
/// - `1 starts reserve 7 car 1`: a client begins the session of an action, which a session file has as a line. `nothing` is an update
///   without a change, which is not allowed.
/// - `1 steps 5`: a client takes so many steps. `1 and 2 step 5`: two of them take so many each, in turn.
/// - `1 starves`: a client runs out of memory.
///
/// Of the sessions that committed it is printed whose each is and whether it wrote; then who ended without a commit, and why; which commits
/// are half done; and, as of a session file, what each session answered and what the tables hold.
///
/// Where the line begins with `in order, `, each row after it is an action, and the sessions run one after another. Of each receipt it is
/// printed whether it wrote, its number and how many calls it has; then what the tables hold.
///
/// A session that ended as memory ran out is one that was starved, as the section says, only where its client was refused another start
/// just before; any other is answered as `Memory` of the whole.
pub fn answer_section(text: &mut String, opening: &str, rows: &str) -> Result<(), Memory> {
    if opening == "rows" {
        return answer_rows(text, rows);
    }
    let answered = match opening.strip_prefix("in order, ") {
        Some(opening) => run_ordered(text, opening, rows),
        None => run_interleaved(text, opening, rows),
    };
    Ok(tell_refusal(text, "", answered, "\n")?)
}

fn run_interleaved(text: &mut String, opening: &str, rows: &str) -> Result<(), Refusal> {
    let (alloc, stripes) = (*text.allocator(), stripes_in(opening)?);
    let events = events_in(alloc, rows)?;
    let tables = tables_in(alloc, rows)?;
    let VacTrace {
        done,
        aborted,
        tables,
        half,
    } = VacWorld::run(alloc, tables, stripes, events.as_slice())?;
    print_trace(text, done, aborted.as_slice(), half.as_slice(), &tables)
}

fn run_ordered(text: &mut String, opening: &str, rows: &str) -> Result<(), Refusal> {
    let (alloc, stripes) = (*text.allocator(), stripes_in(opening)?);
    let actions = actions_in(alloc, rows)?;
    let tables = tables_in(alloc, rows)?;
    let ordered = run_in_order(alloc, tables, stripes, actions.as_slice())?;
    print_ordered(text, &ordered)
}
