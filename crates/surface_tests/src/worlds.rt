//! A world on one thread.
use crate::names::EVENTS;
use crate::rows::{ensure, shape, state};
use seq_model::{Call, Memory, Op, Refusal};
use std::alloc::Global;
use step_world::{Event, Request, World, run_world};

/// More steps than a request here has.
const STEPS: u32 = 30;

pub fn call(alloc: Global) -> Result<(), Refusal> {
    let shape = shape(alloc)?;
    let run = run_world(alloc, &shape, state(alloc)?, EVENTS).is_ok();
    let mut world = World::open(alloc, &shape, state(alloc)?)?;
    let fed = feed_all(&mut world);
    drop(world);
    drop(shape);
    fed.and(ensure(run))
}

fn feed_all(world: &mut World<u64>) -> Result<(), Refusal> {
    let op = Op::Put(3, 30);
    ask(world, Request::Begin)?;
    ask(world, Request::Call(Call { target: 0, op }))?;
    ask(world, Request::Commit)?;
    ask(world, Request::BeginRead)?;
    ask(world, Request::Abort)?;
    drop(world.feed(Event::Starve(1))?);
    let trace = world.trace()?;
    ensure(trace.records.len() == 1)
}

// Asks, and makes more steps than a request here has.
fn ask(world: &mut World<u64>, request: Request<u64>) -> Result<(), Memory> {
    drop(world.feed(Event::Ask(1, request))?);
    for _ in 0..STEPS {
        drop(world.feed(Event::Step(1))?);
    }
    Ok(())
}
