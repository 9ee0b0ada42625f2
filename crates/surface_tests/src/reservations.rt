//! Reservations: the tables, sessions of many clients, of one client, and of workers.
ghost use Rattle.std.specs.Prelude.{◌≡◌};
ghost use Rattle.seq_model.specs.Programs.{after, asked, replies_of};
ghost use Rattle.seq_model.specs.declared.job.Ask.TheVariants as ask;
ghost use Rattle.vac_model.specs.Balanced.{IsBalanced};
ghost use Rattle.client_sessions.specs.Sessions as programs;

use crate::parallel::Unheld;
use crate::rows::ensure;
use seq_model::{Memory, Refusal};
use session_text::parse_sessions;
use std::alloc::Global;
use std::sync::Wait;
use std::thread::Threads;
use tx_engine::{Job, Receipt};
use vac_model::{Action, ActionReply, Each, Kind, Queue, Tables};
use vacation_core::{Entry, Session, VacWorld, run_in_order, state_of, tables_of};
use workers::serve;

const STRIPES: u32 = 64;

/// How often a session is attempted at most.
const TRIES: u64 = 1_000;

/// Car 1 with one unit at 50, which customer 7 books.
const SESSIONS: &[u8] = b"have car 1 1 50\nreserve 7 car 1\n";

pub fn call<R: Threads + Wait + Sync>(rt: &R, alloc: Global) -> Result<(), Refusal> {
    let (mut tables, actions) = parse_sessions(alloc, SESSIONS)?;
    let called = call_tables(alloc, &mut tables, actions.as_slice());
    drop(tables);
    let run = call_runs(alloc, actions.as_slice());
    let served = call_served(rt, alloc, actions);
    called.and(run).and(served).and(call_new(alloc))
}

fn call_tables(alloc: Global, tables: &mut Tables, actions: &[Action]) -> Result<(), Refusal>
    requires { IsBalanced tables.old }
{
    let Some(action) = actions.first() else {
        return Err(Refusal::NoSuch);
    };
    let acted = tables.act(action).is_ok();
    let session = call_session(alloc, action).is_ok();
    let state = state_of(alloc, tables)?;
    let same = tables_of(alloc, &state).is_ok();
    drop(state);
    ensure(acted && session && same && is_read(tables))
}

fn call_session(alloc: Global, action: &Action) -> Result<(), Refusal> {
    let session = Session::new(alloc, action)?;
    let asked = session.ask(&[]).is_ok();
    drop(session);
    ensure(asked)
}

/// What a session answered in a receipt of its own.
pub fn reply(session: &Session, receipt: &Receipt<Entry>) -> Result<ActionReply, Memory>
    requires { asked (after (programs.session session.now) (replies_of receipt.now.calls)) ≡ ask.Done }
{
    session.reply(receipt)
}

fn is_read(tables: &Tables) -> bool {
    let cars = tables.items(Kind::Car).len();
    let customers = tables.customers().len();
    let tickets = tables.tickets().len();
    let waiting = tables.waiting(Kind::Car).tickets.len();
    let next = tables.next_ticket();
    tables.balanced() && cars == 1 && customers == 1 && tickets == 0 && waiting == 0 && next == 0
}

fn call_new(alloc: Global) -> Result<(), Refusal> {
    let waiting = Each {
        car: Queue::new(alloc),
        flight: Queue::new(alloc),
        room: Queue::new(alloc),
    };
    let made = Tables::of_parts(
        alloc,
        Vec::new(alloc),
        Vec::new(alloc),
        Vec::new(alloc),
        Vec::new(alloc),
        Vec::new(alloc),
        waiting,
        3,
    );
    ensure(made.is_ok())
}

fn call_runs(alloc: Global, actions: &[Action]) -> Result<(), Refusal> {
    let ordered = run_in_order(alloc, Tables::new(alloc), STRIPES, actions).is_ok();
    let run = VacWorld::run(alloc, Tables::new(alloc), STRIPES, &[]).is_ok();
    ensure(ordered && run)
}

fn call_served<R: Threads + Wait + Sync>(
    rt: &R,
    alloc: Global,
    actions: Vec<Action>,
) -> Result<(), Refusal> {
    let lists = vec![in alloc; actions]?;
    let tables = Tables::new(alloc);
    let served = serve(rt, alloc, tables, STRIPES, lists, TRIES, &Unheld).is_ok();
    ensure(served)
}
