//! One request of a client, up to its answer.
ghost use Rattle.std.specs.Prelude.{IfOk};
ghost use Rattle.vacation_core.specs.LoneClients.{IsAnswered};

use client_sessions::Entry;
use seq_model::{Event, Memory, Notice, Request};
use step_world::World;

/// Each request is answered within this number of steps of its client.
const STEP_LIMIT: u32 = 1_000_000;

/// A request of the client that is this actor, and then its steps, until something is answered. To a client that is alone and asks what its
/// session asks, that is within the bound on steps; `Quiet`, the last answer, is for worlds of which nothing is promised.
pub fn ask(
    world: &mut World<Entry>,
    actor: u32,
    request: Request<Entry>,
) -> Result<Notice<Entry>, Memory>
    ensures { IfOk result (λ notice. IsAnswered world.old.parts actor request world.new.parts notice) }
{
    match world.feed(Event::Ask(actor, request))? {
        Notice::Quiet => {}
        notice => return Ok(notice),
    }
    for _ in 0..STEP_LIMIT {
        match world.feed(Event::Step(actor))? {
            Notice::Quiet => {}
            notice => return Ok(notice),
        }
    }
    Ok(Notice::Quiet)
}
