//! One session of the client, from its begin to its commit.
ghost use Rattle.std.specs.Prelude.{◌≡◌, IfOk, OnOk};
ghost use Rattle.vacation_core.specs.Turns.{Begins, Calls, Commits, HasBegun, MakesCalls, MayCall, MayRun, Runs, replied};

use crate::asking::ask;
use client_sessions::{Entry, Session};
use seq_model::{Answer, Ask, CALL_LIMIT, Call, Job, Memory, Notice, Reply, Request};
use std::alloc::Global;
use step_world::World;

/// The client is this actor.
pub const CLIENT: u32 = 1;

/// A session makes at most this many requests: its calls, and the end.
const ASK_LIMIT: usize = CALL_LIMIT + 1;

fn reply_in(notice: Notice<Entry>) -> Option<Reply<Entry>>
    ensures { result ≡ replied notice }
{
    match notice {
        Notice::Answered(_, Answer::Replied(reply)) => Some(reply),
        _ => None,
    }
}

/// Begins the transaction of a session.
fn begin(world: &mut World<Entry>) -> Result<(), Memory>
    ensures { OnOk result (Begins world.old.parts world.new.parts) }
{
    let _told = ask(world, CLIENT, Request::Begin)?;
    Ok(())
}

/// Makes a call of the session. It is refused only where an allocation fails.
fn call(world: &mut World<Entry>, call: Call<Entry>) -> Result<Reply<Entry>, Memory>
    requires { MayCall call world.old.parts }
    ensures { IfOk result (λ reply. Calls call world.old.parts reply world.new.parts) }
{
    let told = ask(world, CLIENT, Request::Call(call))?;
    match reply_in(told) {
        Some(reply) => Ok(reply),
        None => unreachable!(),
    }
}

/// Commits the transaction of the session.
fn commit(world: &mut World<Entry>) -> Result<(), Memory>
    ensures { OnOk result (Commits world.old.parts world.new.parts) }
{
    let _told = ask(world, CLIENT, Request::Commit)?;
    Ok(())
}

/// Makes all calls of a session, each after the replies to those before it. It doesn't abort, and makes no more requests than it may.
fn make_calls(alloc: Global, world: &mut World<Entry>, session: &Session) -> Result<(), Memory>
    requires { HasBegun session.now world.old.parts }
    ensures { OnOk result (MakesCalls session.now world.old.parts world.new.parts) }
{
    let mut replies = Vec::new(alloc);
    for _ in 0..ASK_LIMIT {
        let next = session.ask(replies.as_slice())?;
        match next {
            Ask::Call(asked) => {
                let reply = call(world, asked)?;
                replies.push(reply)?;
            }
            Ask::Done => return Ok(()),
            Ask::GiveUp => unreachable!(),
        }
    }
    unreachable!()
}

/// Runs a session: it begins, makes its calls, and commits.
pub fn run_session(alloc: Global, world: &mut World<Entry>, session: &Session) -> Result<(), Memory>
    requires { MayRun session.now world.old.parts }
    ensures { OnOk result (Runs session.now world.old.parts world.new.parts) }
{
    begin(world)?;
    make_calls(alloc, world, session)?;
    commit(world)?;
    Ok(())
}
