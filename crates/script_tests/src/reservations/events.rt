//! What the rows of a section say.
ghost use Rattle.std.specs.Prelude.{IfOk};
ghost use Rattle.vac_model.specs.Balanced.{IsBalanced};

use super::files::parsed;
use row_parts::{location_in, split};
use seq_model::{Items, Refusal};
use std::alloc::Global;
use text_formats::parse_sessions;
use vac_model::{Action, Tables};
use vacation_core::VacEvent;

/// How a row begins that says which item there is.
const ITEM: &str = "have ";

/// `64 stripes`
pub fn stripes_in(row: &str) -> Result<u32, Refusal> {
    let (digits, _) = split(row, " stripes")?;
    location_in(digits)
}

/// The tables of the items that the rows say.
pub fn tables_in(alloc: Global, rows: &str) -> Result<Tables, Refusal>
    ensures { IfOk result (λ tables. IsBalanced tables) }
{
    let mut text = String::new(alloc);
    for row in rows.lines() {
        if row.starts_with(ITEM) {
            text.push_str(row)?;
            text.push('\n')?;
        }
    }
    let (tables, _) = parse_sessions(alloc, text.as_bytes())?;
    Ok(tables)
}

/// The action of a line.
pub fn action_in(alloc: Global, line: &str) -> Result<Action, Refusal> {
    if line == "nothing" {
        return Ok(Action::Update(Items::new(alloc)));
    }
    let mut text = String::from_str(alloc, line)?;
    text.push('\n')?;
    let (tables, mut actions) = parsed(alloc, text.into_bytes())?;
    drop(tables);
    match actions.pop() {
        Some(action) => Ok(action),
        None => Err(Refusal::NoSuch),
    }
}

/// The actions of the rows, in their order.
pub fn actions_in(alloc: Global, rows: &str) -> Result<Vec<Action>, Refusal> {
    let mut actions = Vec::new(alloc);
    for row in rows.lines() {
        if !row.starts_with(ITEM) {
            actions.push(action_in(alloc, row)?)?;
        }
    }
    Ok(actions)
}

/// What happens by the rows, in their order.
pub fn events_in(alloc: Global, rows: &str) -> Result<Vec<VacEvent>, Refusal> {
    let mut events = Vec::new(alloc);
    for row in rows.lines() {
        if !row.starts_with(ITEM) {
            add(alloc, &mut events, row)?;
        }
    }
    Ok(events)
}

fn add(alloc: Global, events: &mut Vec<VacEvent>, row: &str) -> Result<(), Refusal> {
    let (digits, words) = split(row, " ")?;
    let client = location_in(digits)?;
    let (verb, others) = words.split_once(' ').unwrap_or((words, ""));
    match verb {
        "starts" => Ok(events.push(VacEvent::Start(client, action_in(alloc, others)?))?),
        "starves" => Ok(events.push(VacEvent::Starve(client))?),
        "steps" => add_steps(events, client, None, others),
        "and" => {
            let (second, times) = split(others, " step ")?;
            add_steps(events, client, Some(location_in(second)?), times)
        }
        _ => Err(Refusal::NoSuch),
    }
}

// So many steps, or so many turns of two.
fn add_steps(
    events: &mut Vec<VacEvent>,
    first: u32,
    second: Option<u32>,
    times: &str,
) -> Result<(), Refusal> {
    for _ in 0..location_in(times)? {
        events.push(VacEvent::Step(first))?;
        if let Some(second) = second {
            events.push(VacEvent::Step(second))?;
        }
    }
    Ok(())
}
