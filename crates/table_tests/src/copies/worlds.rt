//! A transaction in a running world, one of whose copies is refused.
use super::rations::{Ration, Rationed, get, one_stripe};
use crate::shared::audit_receipts;
use seq_model::{Event, Notice, Refusal, Request};
use std::alloc::Global;
use step_world::World;

/// No request of the transaction has so many steps.
const STEPS: u64 = 1_000;

/// Runs the transaction with the copy at this position refused; whether one was. It is answered as `Memory` then, and so is all that
/// the world is asked after it; else the transaction commits, and what the world holds is what it leaves. `NotIdle` where it isn't so.
pub fn is_refused(alloc: Global, place: u64) -> Result<bool, Refusal> {
    let ration = Ration::new(alloc)?;
    let opening = ration.opening(alloc)?;
    let shape = one_stripe(alloc)?;
    let mut world = World::open(alloc, &shape, opening.try_copy(alloc)?)?;
    if put_all(&mut world, &ration, place)? {
        return Ok(true);
    }
    let trace = world.into_trace()?;
    let mut receipts = Vec::new(alloc);
    for (_, record) in trace.records.into_vec() {
        receipts.push(record)?;
    }
    audit_receipts(alloc, &opening, receipts.as_slice(), &trace.state)?;
    Ok(false)
}

// Whether a copy was refused, and the world failed by that.
fn put_all(world: &mut World<Rationed>, ration: &Ration, place: u64) -> Result<bool, Refusal> {
    ration.refuse(place);
    let committed = commit_puts(world, ration);
    let was_refused = ration.lift();
    match committed {
        Ok(()) if !was_refused => Ok(false),
        Err(Refusal::Memory) if was_refused => {
            if world.feed(Event::Step(1)).is_ok() || world.trace().is_ok() {
                return Err(Refusal::NotIdle);
            }
            Ok(true)
        }
        Err(refusal) => Err(refusal),
        Ok(()) => Err(Refusal::NotIdle),
    }
}

fn commit_puts(world: &mut World<Rationed>, ration: &Ration) -> Result<(), Refusal> {
    ask(world, Request::Begin)?;
    for key in 5..7u64 {
        ask(world, Request::Call(ration.put(key)?))?;
        ask(world, Request::Call(get(key)))?;
    }
    ask(world, Request::Commit)
}

// A request, and steps up to where it is answered.
fn ask(world: &mut World<Rationed>, request: Request<Rationed>) -> Result<(), Refusal> {
    let mut event = Event::Ask(1, request);
    for _ in 0..STEPS {
        match world.feed(event)? {
            Notice::Quiet => event = Event::Step(1),
            Notice::Answered(_, _) => return Ok(()),
            Notice::Refused(_, refusal) => return Err(refusal),
        }
    }
    Err(Refusal::NotIdle)
}
