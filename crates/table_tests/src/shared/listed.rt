//! Jobs that a row spells.
use super::told::Told;
use row_parts::script_of;
use seq_model::{Ask, Job, Memory, Refusal, Reply, Request};
use std::alloc::Global;
use text_formats::{EventLine, Script};

/// A job that a row spells.
#[derive(Drop)]
pub enum Listed {
    /// It asks the calls of these lines, one after another, whatever it is replied, and then is done.
    Asks(Script),
    /// It aborts at once.
    GivesUp,
    /// It has no memory for what it would ask first.
    WantsMemory,
}

impl<V: Told> Job<V> for Listed {
    fn ask(&self, replies: &[Reply<V>]) -> Result<Ask<V>, Memory> {
        let script = match self {
            Listed::Asks(script) => script,
            Listed::GivesUp => return Ok(Ask::GiveUp),
            Listed::WantsMemory => return Err(Memory),
        };
        match script.lines.as_slice().get(replies.len()) {
            Some(EventLine::Do(_, Request::Call(call))) => Ok(Ask::Call(V::call_of(call)?)),
            _ => Ok(Ask::Done),
        }
    }
}

/// `runs 1 do read 0; 1 do write 0 1`, `attempts ..` or `meets ..`, `gives up`, or `wants memory`.
pub fn job_of(alloc: Global, words: &str) -> Result<Listed, Refusal> {
    let (verb, calls) = words.split_once(' ').unwrap_or((words, ""));
    match verb {
        "runs" | "attempts" | "meets" => Ok(Listed::Asks(script_of(alloc, calls)?)),
        "gives" => Ok(Listed::GivesUp),
        "wants" => Ok(Listed::WantsMemory),
        _ => Err(Refusal::NoSuch),
    }
}
