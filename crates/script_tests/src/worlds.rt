//! A world that is fed the events of a script.
use crate::laid_out::print_trace_alone;
use row_parts::{shape_of, state_of};
use seq_model::{Event, Memory, Refusal};
use std::alloc::Global;
use step_world::{Trace, World, run_world};
use text_formats::{EventLine, Script, parse_steps};

/// Prints what has come of the events of a script, of which `A REQUEST` is a request, `A step K` is K steps, whatever they answer, and
/// `A starve` runs the actor out of memory: by `run_world`, and of a world that is fed them, by `trace` and then by `into_trace`.
pub fn print_worlds(text: &mut String, lines: &str) -> Result<(), Refusal> {
    let script = parse_steps(*text.allocator(), lines.as_bytes())?;
    print_by_run(text, &script)?;
    print_by_world(text, &script)
}

fn print_by_run(text: &mut String, script: &Script) -> Result<(), Refusal> {
    let alloc = *text.allocator();
    let shape = shape_of(alloc, script)?;
    let events = events_of(alloc, script)?;
    let state = state_of(alloc, script, script.clock)?;
    let trace = run_world(alloc, &shape, state, events.as_slice())?;
    print_named(text, "run_world\n", trace)
}

fn print_by_world(text: &mut String, script: &Script) -> Result<(), Refusal> {
    let world = fed(*text.allocator(), script)?;
    match print_shown(text, &world) {
        Ok(()) => print_named(text, "into_trace\n", world.into_trace()?),
        Err(refusal) => {
            drop(world);
            Err(refusal)
        }
    }
}

fn print_shown(text: &mut String, world: &World<u64>) -> Result<(), Refusal> {
    print_named(text, "trace\n", world.trace()?)
}

// A trace after its name.
fn print_named(text: &mut String, name: &str, trace: Trace<u64>) -> Result<(), Refusal> {
    text.push_str(name)?;
    print_trace_alone(text, trace)
}

fn fed(alloc: Global, script: &Script) -> Result<World<u64>, Refusal> {
    let shape = shape_of(alloc, script)?;
    let events = events_of(alloc, script)?;
    let state = state_of(alloc, script, script.clock)?;
    let mut world = World::open(alloc, &shape, state)?;
    for event in events {
        let _notice = world.feed(event)?;
    }
    Ok(world)
}

// How many steps the other lines take shows in a run alone.
fn events_of(alloc: Global, script: &Script) -> Result<Vec<Event<u64>>, Memory> {
    let mut events = Vec::new(alloc);
    for line in script.lines.as_slice() {
        match line {
            EventLine::Ask(actor, request) => {
                events.push(Event::Ask(*actor, request.try_copy()?))?;
            }
            EventLine::Steps(actor, count) => {
                for _step in 0..*count {
                    events.push(Event::Step(*actor))?;
                }
            }
            EventLine::Starve(actor) => events.push(Event::Starve(*actor))?,
            EventLine::Do(_, _) | EventLine::Alternate(_, _) => {}
        }
    }
    Ok(events)
}
