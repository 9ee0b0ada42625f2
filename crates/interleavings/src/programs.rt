//! What each actor of a script asks.
ghost use Rattle.std.specs.Prelude.{IfErr};
ghost use Rattle.interleavings.specs.Faults.{IsUnexplored};

use crate::actors::ACTOR_LIMIT;
use actor_parts::is_change;
use seq_model::{Call, Memory, Op, Refusal, Request};
use std::alloc::Global;
use text_formats::{EventLine, Script};

/// Where an actor's requests stand.
#[derive(Clone, Copy)]
enum Phase {
    /// In no transaction.
    Outside,
    Writer,
    /// In a transaction that writes nothing.
    Reader,
}

/// The requests of an actor, in their order. They begin a transaction, make calls in it and end it, one after another; the last may be
/// left open.
pub(crate) struct Program {
    pub actor: u32,
    pub requests: Vec<Request<u64>>,
    phase: Phase,
}

impl Drop for Program {
    fn drop(self) {
        let Program {
            actor: _,
            requests: _,
            phase: _,
        } = self;
    }
}

/// The programs of a script's actors, in the order in which they first ask.
///
/// `BadText` names the first line that is no request, is one of a ninth actor, or has no answer where it stands: a begin inside of a
/// transaction, another request outside, a call on what isn't there or is of another kind, and a change in a transaction that writes
/// nothing. The first event stands on this line.
pub(crate) fn programs_of(
    alloc: Global,
    script: &Script,
    first_line: u64,
) -> Result<Vec<Program>, Refusal>
    ensures refused { IfErr result IsUnexplored }
{
    let mut programs = Vec::new(alloc);
    let mut line = first_line;
    for event in script.lines.as_slice() {
        if !add_event(&mut programs, script, event)? {
            return Err(Refusal::BadText { line });
        }
        line = line.saturating_add(1);
    }
    Ok(programs)
}

fn add_event(
    programs: &mut Vec<Program>,
    script: &Script,
    event: &EventLine,
) -> Result<bool, Memory> {
    match event {
        EventLine::Ask(actor, request) | EventLine::Do(actor, request) => {
            add_request(programs, script, *actor, request)
        }
        EventLine::Steps(_, _) | EventLine::Starve(_) | EventLine::Alternate(_, _) => Ok(false),
    }
}

fn add_request(
    programs: &mut Vec<Program>,
    script: &Script,
    actor: u32,
    request: &Request<u64>,
) -> Result<bool, Memory> {
    for program in programs.as_mut_slice() {
        if program.actor == actor {
            return program.add(script, request);
        }
    }
    if programs.len() >= ACTOR_LIMIT {
        return Ok(false);
    }
    let mut program = Program {
        actor,
        requests: Vec::new(*programs.allocator()),
        phase: Phase::Outside,
    };
    let fits = program.add(script, request)?;
    programs.push(program)?;
    Ok(fits)
}

impl Program {
    /// Whether it has an answer where it stands; then it is added.
    fn add(&mut self, script: &Script, request: &Request<u64>) -> Result<bool, Memory> {
        let Some(phase) = phase_after(self.phase, script, request) else {
            return Ok(false);
        };
        self.requests.push(request.try_copy()?)?;
        self.phase = phase;
        Ok(true)
    }

    /// The index of the next begin, from this index on; the end where there is none.
    pub(crate) fn next_begin(&self, from: usize) -> usize {
        for index in from..self.requests.len() {
            if let Request::Begin | Request::BeginRead = &self.requests[index] {
                return index;
            }
        }
        self.requests.len()
    }
}

fn phase_after(phase: Phase, script: &Script, request: &Request<u64>) -> Option<Phase> {
    match (phase, request) {
        (Phase::Outside, Request::Begin) => Some(Phase::Writer),
        (Phase::Outside, Request::BeginRead) => Some(Phase::Reader),
        (Phase::Outside, _) => None,
        (_, Request::Begin | Request::BeginRead) => None,
        (_, Request::Commit | Request::Abort) => Some(Phase::Outside),
        (_, Request::Call(call)) => {
            if is_answered(phase, script, call) {
                Some(phase)
            } else {
                None
            }
        }
    }
}

fn is_answered(phase: Phase, script: &Script, call: &Call<u64>) -> bool {
    if matches!(phase, Phase::Reader) && is_change(&call.op) {
        return false;
    }
    let target = call.target as usize;
    match &call.op {
        Op::Read | Op::Write(_) => target < script.words.len(),
        op => match script.collections.as_slice().get(target) {
            Some(collection) => collection.held.serves(op),
            None => false,
        },
    }
}
