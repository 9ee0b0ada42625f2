//! The run of a step script as lanes: an actor a column, an event a line.
//!
//! The events of a run are fed once more, to the parts of a world, of which it is plain before each step what the step is going to do, to
//! which location or gate, and what it finds there: its *deed* ([`Deed`](crate::Deed)). An event with its deed and its notice is a row.
ghost use Rattle.std.specs.Prelude.{◌≡◌, ◌++◌, IfOk, OnOk, length};
ghost use Rattle.std.specs.String.{string_bytes};
ghost use Rattle.session_text.specs.Lanes.{below_text, cell_text, more_text, number_text, row_text, rows_text};
ghost use Rattle.session_text.specs.LaneOutputs.{AreLanes, IsLanesOf};

use crate::cell::{print_event, print_notice};
use crate::layout::{Layout, layout_of, push_times};
use crate::print::print_result;
use crate::rows::{Row, rows_of};
use crate::run::{ScriptRun, shape_of, whose};
use seq_model::{Event, Memory};
use std::alloc::Global;
use std::fmt::Write;
use text_formats::Script;

/// What is printed of a script's run as lanes: the lanes of its events, then its records, its half-done commits, and what words and
/// collections hold.
pub fn print_lanes(
    alloc: Global,
    script: &Script,
    run: &ScriptRun,
    events: &[Event<u64>],
) -> Result<Vec<u8>, Memory>
    ensures { IfOk result (λ bytes. IsLanesOf script.now run.now events.now bytes.items) }
{
    let shape = shape_of(alloc, script)?;
    let rows = rows_of(alloc, &shape, &run.opening, events)?;
    let more = events.len().saturating_sub(rows.len());
    let mut text = String::new(alloc);
    print_drawn(&mut text, rows.as_slice(), more)?;
    print_result(&mut text, &run.trace)?;
    Ok(text.into_bytes())
}

/// The rows as lanes, and how many events more there were.
fn print_drawn(text: &mut String, rows: &[Row], more: usize) -> Result<(), Memory>
    ensures { OnOk result (AreLanes rows.now more (string_bytes text.old) (string_bytes text.new)) }
{
    let layout = layout_of(*text.allocator(), rows)?;
    layout.print_head(text)?;
    print_rows(text, &layout, rows)?;
    print_more(text, more)?;
    Ok(())
}

fn print_more(text: &mut String, more: usize) -> Result<(), Memory>
    ensures { OnOk result (string_bytes text.new ≡ string_bytes text.old ++ more_text more) }
{
    if more > 0 {
        writeln!(text, "{more} more are left out")?;
    }
    Ok(())
}

fn print_rows(text: &mut String, layout: &Layout, rows: &[Row]) -> Result<(), Memory>
    ensures { OnOk result (string_bytes text.new ≡ string_bytes text.old ++ rows_text layout.now (length rows.now) rows.now) }
{
    let mut left = rows;
    while let Some((row, later)) = left.split_first() {
        let number = rows.len().saturating_sub(later.len());
        print_row(text, layout, number, row)?;
        left = later;
    }
    Ok(())
}

/// The answer is on a line of its own, where it doesn't fit.
fn print_row(text: &mut String, layout: &Layout, number: usize, row: &Row) -> Result<(), Memory>
    ensures { OnOk result (string_bytes text.new ≡ string_bytes text.old ++ row_text layout.now number row.now) }
{
    let alloc = *text.allocator();
    let mut head = String::new(alloc);
    print_number(&mut head, number)?;
    let mut cell = String::new(alloc);
    print_cell(&mut cell, layout, row)?;
    let mut answer = String::new(alloc);
    print_notice(&mut answer, &row.notice)?;
    let mut whole = String::new(alloc);
    whole.push_str(cell.as_str())?;
    whole.push_str(answer.as_str())?;
    let actor = whose(&row.event);
    if answer.len() == 0 || layout.fits(whole.len()) {
        return layout.print_line(text, head.as_str(), actor, whole.as_str());
    }
    layout.print_line(text, head.as_str(), actor, cell.as_str())?;
    print_below(text, layout, actor, answer.as_str())
}

/// An answer on a line of its own.
fn print_below(text: &mut String, layout: &Layout, actor: u32, answer: &str) -> Result<(), Memory>
    ensures { OnOk result (string_bytes text.new ≡ string_bytes text.old ++ below_text layout.now actor answer.now) }
{
    let mut below = String::new(*text.allocator());
    below.push_str("   ")?;
    below.push_str(answer)?;
    layout.print_line(text, "    ", actor, below.as_str())
}

/// A number in four columns.
fn print_number(head: &mut String, number: usize) -> Result<(), Memory>
    ensures { OnOk result (string_bytes head.new ≡ string_bytes head.old ++ number_text number) }
{
    let mut digits = String::new(*head.allocator());
    write!(digits, "{number}")?;
    push_times(head, 4usize.saturating_sub(digits.len()), " ")?;
    head.push_str(digits.as_str())?;
    Ok(())
}

fn print_cell(cell: &mut String, layout: &Layout, row: &Row) -> Result<(), Memory>
    ensures { OnOk result (string_bytes cell.new ≡ string_bytes cell.old ++ cell_text layout.now row.now) }
{
    if layout.is_narrow() {
        let actor = whose(&row.event);
        write!(cell, "{actor}: ")?;
    }
    print_event(cell, row)
}
