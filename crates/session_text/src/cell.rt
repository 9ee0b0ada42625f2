//! What stands in a lane for an event.
ghost use Rattle.std.specs.Prelude.{◌≡◌, ◌++◌, OnOk};
ghost use Rattle.std.specs.String.{string_bytes};
ghost use Rattle.session_text.specs.Cells.{answered_text, at_text, deed_text, event_text, gate_text, lock_text};

use crate::deed::Deed;
use crate::print::print_answer;
use crate::request_print::print_request;
use crate::rows::Row;
use seq_model::{Event, Memory, Notice};
use std::fmt::Write;

/// What is asked, or what a step does and finds.
pub(crate) fn print_event(text: &mut String, row: &Row) -> Result<(), Memory>
    ensures { OnOk result (string_bytes text.new ≡ string_bytes text.old ++ event_text row.now.event row.now.deed) }
{
    match &row.event {
        Event::Ask(_, request) => print_request(text, request)?,
        Event::Step(_) => print_deed(text, row.deed)?,
        Event::Starve(_) => text.push_str("  out of memory")?,
    }
    Ok(())
}

fn print_deed(text: &mut String, deed: Deed) -> Result<(), Memory>
    ensures { OnOk result (string_bytes text.new ≡ string_bytes text.old ++ deed_text deed) }
{
    match deed {
        Deed::Nothing => text.push_str("  no step")?,
        Deed::LoadClock(clock) => write!(text, "  load clock: {clock}")?,
        Deed::AddClock(clock) => write!(text, "  add 1 to clock: {clock}")?,
        Deed::LoadLock(location, word) => print_lock(text, "load", location, word)?,
        Deed::TakeLock(location, word, takes) => print_take(text, location, word, takes)?,
        Deed::StoreLock(location, word) => print_lock(text, "store", location, word)?,
        Deed::LoadWord(location, value) => print_at(text, "  load word ", location, value)?,
        Deed::StoreWord(location, value) => print_at(text, "  store word ", location, value)?,
        Deed::LoadEdition(location, value) => print_at(text, "  load edition ", location, value)?,
        Deed::StoreEdition(location, value) => print_at(text, "  store edition ", location, value)?,
        Deed::TryGate(collection, holder) => print_try(text, collection, holder)?,
        Deed::CopyAtGate(collection) => print_gate(text, collection, ": copied")?,
        Deed::ChangeAtGate(collection) => print_gate(text, collection, ": changed")?,
        Deed::PutGate(collection) => print_gate(text, collection, ": unchanged")?,
    }
    Ok(())
}

fn print_lock(text: &mut String, verb: &str, location: u32, word: u64) -> Result<(), Memory>
    ensures { OnOk result (string_bytes text.new ≡ string_bytes text.old ++ lock_text verb.now location word) }
{
    let version = word / 2;
    let locked = if word % 2 == 1 { " locked" } else { "" };
    write!(text, "  {verb} lock {location}: v{version}{locked}")?;
    Ok(())
}

fn print_take(text: &mut String, location: u32, word: u64, takes: bool) -> Result<(), Memory>
    ensures { OnOk result (string_bytes text.new ≡ string_bytes text.old ++ deed_text (Deed.TakeLock location word takes)) }
{
    print_lock(text, "take", location, word)?;
    if !takes {
        text.push_str(", failed")?;
    }
    Ok(())
}

fn print_at(text: &mut String, what: &str, location: u32, value: u64) -> Result<(), Memory>
    ensures { OnOk result (string_bytes text.new ≡ string_bytes text.old ++ at_text what.now location value) }
{
    write!(text, "{what}{location}: {value}")?;
    Ok(())
}

fn print_gate(text: &mut String, collection: u32, how: &str) -> Result<(), Memory>
    ensures { OnOk result (string_bytes text.new ≡ string_bytes text.old ++ gate_text collection how.now) }
{
    write!(text, "  store gate {collection}{how}")?;
    Ok(())
}

fn print_try(text: &mut String, collection: u32, holder: u32) -> Result<(), Memory>
    ensures { OnOk result (string_bytes text.new ≡ string_bytes text.old ++ deed_text (Deed.TryGate collection holder)) }
{
    write!(text, "  try gate {collection}: ")?;
    if holder == 0 {
        text.push_str("free")?;
    } else {
        write!(text, "held by {holder}")?;
    }
    Ok(())
}

/// What the event answered, after an arrow; nothing, where it answered nothing.
pub(crate) fn print_notice(text: &mut String, notice: &Notice<u64>) -> Result<(), Memory>
    ensures { OnOk result (string_bytes text.new ≡ string_bytes text.old ++ answered_text notice.now) }
{
    match notice {
        Notice::Quiet => {}
        Notice::Answered(_, answer) => {
            text.push_str(" -> ")?;
            print_answer(text, answer)?;
        }
        Notice::Refused(_, refusal) => write!(text, " -> {refusal}")?,
    }
    Ok(())
}
