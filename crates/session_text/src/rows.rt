//! The events of a run, each with what it did and what it answered.
ghost use Rattle.std.specs.Prelude.{◌≡◌, IfOk};
ghost use Rattle.step_world.specs.Feeds.{Feeds};
ghost use Rattle.step_world.specs.Parts.{HasWorld};
ghost use Rattle.actor_parts.specs.Openings.{world_of};
ghost use Rattle.session_text.specs.Rows.{AreFed, AreFedBy, AreRowsOf, first_of};

use crate::deed::{Deed, deed_of};
use seq_model::{Event, Items, Memory, Notice, Shape, State};
use std::alloc::Global;
use step_world::Parts;

/// At most so many events have a row.
pub(crate) const ROW_LIMIT: usize = 1_000;

/// An event, with what it did where it is a step, and its notice.
#[derive(Drop)]
pub(crate) struct Row {
    pub event: Event<u64>,
    pub deed: Deed,
    pub notice: Notice<u64>,
}

/// The rows of the first 1,000 of these events, in a world of this shape that opens on this state, as it has opened before.
///
/// `Memory` where an allocation failed.
pub(crate) fn rows_of(
    alloc: Global,
    shape: &Shape,
    opening: &State<u64>,
    events: &[Event<u64>],
) -> Result<Items<Row>, Memory>
    ensures { IfOk result (AreRowsOf (world_of shape.now.stripes shape.now.clock opening.now) (first_of events.now)) }
{
    let state = opening.try_copy(alloc)?;
    match Parts::open(alloc, shape, state) {
        Ok(parts) => rows_in(alloc, parts, first_of(events)),
        Err(_) => Err(Memory),
    }
}

fn rows_in(alloc: Global, parts: Parts<u64>, events: &[Event<u64>]) -> Result<Items<Row>, Memory>
    requires { HasWorld parts }
    ensures { IfOk result (AreFedBy parts events.now) }
{
    let mut parts = parts;
    let rows = rows_from(alloc, &mut parts, events)?;
    Ok(rows)
}

fn first_of(events: &[Event<u64>]) -> &[Event<u64>]
    ensures { result.now ≡ first_of events.now }
{
    if events.len() > ROW_LIMIT {
        &events[..ROW_LIMIT]
    } else {
        events
    }
}

fn rows_from(
    alloc: Global,
    parts: &mut Parts<u64>,
    events: &[Event<u64>],
) -> Result<Items<Row>, Memory>
    requires { HasWorld parts.old }
    ensures { IfOk result (λ rows. AreFed parts.old events.now rows parts.new) }
{
    let mut rows = Items::new(alloc);
    for event in events {
        let row = row_of(parts, event)?;
        rows.push(row)?;
    }
    Ok(rows)
}

fn row_of(parts: &mut Parts<u64>, event: &Event<u64>) -> Result<Row, Memory>
    requires { HasWorld parts.old }
    ensures event { IfOk result (λ row. row.event ≡ event.now) }
    ensures feeds { IfOk result (λ row. Feeds parts.old event.now parts.new row.notice) }
{
    let deed = match event {
        Event::Step(actor) => deed_of(parts, *actor),
        Event::Ask(_, _) | Event::Starve(_) => Deed::Nothing,
    };
    let kept = event.try_copy()?;
    let notice = parts.feed(event.try_copy()?)?;
    Ok(Row {
        event: kept,
        deed,
        notice,
    })
}
