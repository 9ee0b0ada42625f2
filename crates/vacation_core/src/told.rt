//! The results of the sessions that committed.
ghost use Rattle.std.specs.Prelude.{◌≡◌, ◌+◌, ◌<◌, ◌^◌, IsSome, List, replicate, length, IfOk, MatchOption, slice_get};
ghost use Rattle.client_sessions.specs.Runs.{Deal};
ghost use Rattle.vacation_core.specs.CommittedAnswers.{AreOwn, HaveFirst, HaveOwn, IsToldOne, sessions_of, told_all};

use crate::client::Client;
use client_sessions::{Entry, Session};
use seq_model::{Memory, Record};
use std::alloc::Global;
use vac_model::ActionReply;

/// A session of this client, the one that is under way being the last.
fn session_at(client: &Client, place: usize) -> Option<&Session>
    ensures there { MatchOption result (slice_get (sessions_of client.now) place ≡ None)
        (λ session. slice_get (sessions_of client.now) place ≡ Some session.now) }
    ensures room { IsSome result → place + 1 < 2 ^ 64 }
{
    let done = client.done.as_slice();
    if place < done.len() {
        return Some(&done[place]);
    }
    match &client.current {
        Some(open) if place == done.len() => Some(&open.session),
        _ => None,
    }
}

/// The result of the session of this record, after these numbers of sessions of the clients (`told`).
fn tell(
    clients: &[Client],
    told: &mut Vec<usize>,
    entry: &(u32, Record<Entry>),
) -> Result<(u32, u64, bool, ActionReply), Memory>
    requires own { HaveFirst clients.now told.old.items entry.now }
    requires count { length told.old.items ≡ length clients.now }
    ensures told { IfOk result (IsToldOne clients.now told.old.items told.new.items entry.now) }
    ensures count { length told.new.items ≡ length told.old.items }
{
    let (actor, record) = entry;
    let i = *actor as usize - 1;
    let place = told[i];
    let client = &clients[i];
    let Some(session) = session_at(client, place) else {
        unreachable!()
    };
    let reply = session.reply(record)?;
    told[i] = place + 1;
    Ok((*actor, record.number, record.writes, reply))
}

/// The results of the sessions of these records, in their order.
pub fn tell_all(
    alloc: Global,
    clients: &[Client],
    records: &[(u32, Record<Entry>)],
) -> Result<Vec<(u32, u64, bool, ActionReply)>, Memory>
    requires { HaveOwn clients.now (replicate (length clients.now) 0) records.now }
    ensures { IfOk result (λ all. (deals : List Deal) → AreOwn clients.now (replicate (length clients.now) 0) deals records.now
        → all.items ≡ told_all deals records.now) }
{
    let mut told = vec![in alloc; 0; clients.len()]?;
    let mut all = Vec::with_capacity(alloc, records.len())?;
    let mut left = records;
    while let Some((entry, later)) = left.split_first() {
        let one = tell(clients, &mut told, entry)?;
        all.push(one)?;
        left = later;
    }
    Ok(all)
}
