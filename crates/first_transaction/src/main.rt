//! A first program: two transactions overlap, and one of them is refused.
//!
//! Two words hold 1 each. Two actors read both, and each sets a word of its own to 0. One after the other, the second would
//! read the 0 of the first. Here they overlap: each has read before the other commits. So the second to commit is refused,
//! since a word that it read has changed.
#![tactic(auto)]

ghost use Rattle.std.specs.Prelude.{IfOk, OnOk};
ghost use Rattle.first_transaction.specs.Opening.{two_ones};
ghost use Rattle.step_world.specs.Serial.{IsFrom};
ghost use Rattle.step_world.specs.Traces.{IsSerialTrace};

use seq_model::{Answer, Call, Event, Items, Memory, Notice, Op, Refusal, Request, Shape, State};
use std::alloc::Global;
use std::fmt::Write;
use std::io;
use step_world::{Trace, World};

/// No request of a transaction on two words has so many steps.
const STEP_LIMIT: u32 = 100;

fn main(rt: HostRuntime) -> io::Result<()> {
    match report(rt.alloc()) {
        Ok(text) => rt.print(text.as_str()),
        Err(refusal) => println!(rt; "{refusal}"),
    }
}

/// What the two commits are answered, and what the words hold then.
fn report(alloc: Global) -> Result<String, Refusal> {
    let (first, second, trace) = overlap(alloc)?;
    let mut text = String::new(alloc);
    tell(&mut text, &first)?;
    tell(&mut text, &second)?;
    for word in trace.state.words() {
        writeln!(text, "word {word}")?;
    }
    Ok(text)
}

fn overlap(alloc: Global) -> Result<(Notice<u64>, Notice<u64>, Trace<u64>), Refusal>
    ensures serial { IfOk result (λ told. IsSerialTrace two_ones told.2) }
{
    let mut world = open(alloc)?;
    let (first, second) = both(&mut world)?;
    let trace = world.into_trace()?;
    Ok((first, second, trace))
}

/// Both transactions, and what their commits are answered.
fn both(world: &mut World<u64>) -> Result<(Notice<u64>, Notice<u64>), Memory>
    ensures { OnOk result (IsFrom two_ones world.old.parts → IsFrom two_ones world.new.parts) }
{
    ask(world, 1, Request::Begin)?;
    ask(world, 2, Request::Begin)?;
    ask(world, 1, call(0, Op::Read))?;
    ask(world, 1, call(1, Op::Read))?;
    ask(world, 2, call(0, Op::Read))?;
    ask(world, 2, call(1, Op::Read))?;
    ask(world, 1, call(0, Op::Write(0)))?;
    ask(world, 2, call(1, Op::Write(0)))?;
    let first = ask(world, 1, Request::Commit)?;
    let second = ask(world, 2, Request::Commit)?;
    Ok((first, second))
}

fn open(alloc: Global) -> Result<World<u64>, Refusal>
    ensures { IfOk result (λ world. IsFrom two_ones world.parts) }
{
    let shape = Shape {
        stripes: Items::new(alloc),
        clock: 0,
    };
    let state = State::new(vec![in alloc; 1, 1]?, Vec::new(alloc))?;
    World::open(alloc, &shape, state)
}

/// Asks, and continues by steps until the request is answered or refused.
fn ask(world: &mut World<u64>, actor: u32, request: Request<u64>) -> Result<Notice<u64>, Memory>
    ensures { OnOk result (IsFrom two_ones world.old.parts → IsFrom two_ones world.new.parts) }
{
    let mut notice = world.feed(Event::Ask(actor, request))?;
    for _step in 0..STEP_LIMIT {
        if !matches!(notice, Notice::Quiet) {
            return Ok(notice);
        }
        notice = world.feed(Event::Step(actor))?;
    }
    Ok(notice)
}

fn call(target: u32, op: Op<u64>) -> Request<u64> {
    Request::Call(Call { target, op })
}

fn tell(text: &mut String, commit: &Notice<u64>) -> Result<(), Memory> {
    match commit {
        Notice::Answered(actor, Answer::Committed(number)) => {
            writeln!(text, "{actor}: committed {number}")?
        }
        Notice::Refused(actor, refusal) => writeln!(text, "{actor}: {refusal}")?,
        _ => {}
    }
    Ok(())
}
