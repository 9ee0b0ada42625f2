//! Sessions, each served in a thread of its own with a client of its own.
//!
//! Before the threads start, a share is split off the store's seat for each session; after they end, the shares are joined again. Where
//! there are as many sessions as shares, none is left for the store: then the first session is served at the store's own seat. All memory
//! is allocated before, so nothing fails in between; where an allocation fails, what was split off is joined again. A thread is handed a
//! [`Task`] (the session, its seat, the place for its result) and makes the client itself.
ghost use Rattle.std.specs.Prelude.{◌≡◌, ℕ, ◌+◌, ◌<◌, ◌≤◌, ◌∷◌, ◌++◌, [], All, IfErr, IfOk, OnErr, OnOk, Some, length, map, slice_index_or};
ghost use Rattle.seq_model.specs.declared.refusal.Refusal.TheVariants.{Memory as OutOfMemory};
ghost use Rattle.std.specs.Vec.{vec_capacity, vec_len};
ghost use Rattle.shared_table.specs.Seated.{actor, view};
ghost use Rattle.tx_turns.specs.RequestHistory.{requests_of};
ghost use Rattle.tx_engine.specs.Ready.{IsReady};
ghost use Rattle.tx_client.specs.Backs.{shares_at};
ghost use Rattle.tx_client.specs.Clients.{last_at};
ghost use Rattle.tx_client.specs.Frames.{AreBy, GoesOn, receipts_at};
ghost use Rattle.wolimevar.specs.Sessions.{HaveServed, IsDone, IsDue, IsEnded, IsFinished, IsWaiting, IsWhy, Serves, joined};
ghost use Rattle.wolimevar.specs.Splits.{HasLeft};

use crate::seats::{join_unused, split_off};
use actor_parts::Boxed;
use seq_model::{Memory, Refusal, Value};
use shared_table::{SHARES, TxTable};
use std::alloc::Global;
use std::marker::Brand;
use std::thread;
use std::thread::Threads;
use tx_client::{Caller, Client, Scope, client_of, seat_of};
use tx_engine::TxSeat;

/// What a thread does with a client of its own.
///
/// For a proof of its results, define `serves`: the session, what it returned, and the receipts of its client at its end, the first one
/// first. Left out, it says nothing.
pub trait Session<V> {
    ghost use Rattle.std.specs.Prelude.{◌≡◌, ℕ, List, [], ⊤};
    ghost use Rattle.seq_model.specs.declared.record.Record.{Record as ARecord};

    /// What a session returns.
    type Out: Drop;

    ghost serves: { Self → Self.Out → List (ℕ × ARecord V) → Type 0 } = { λ _ _ _. ⊤ };

    /// Runs in a thread of its own, for as long as it likes.
    ///
    /// ```
    /// fn serve<S: Scope<u64>>(self, client: &mut Client<'_, u64, S>) -> Result<String, Refusal> {
    ///     let mut text = String::new(self.alloc);
    ///     call_client(&mut text, client, self.word)?;
    ///     Ok(text)
    /// }
    /// ```
    fn serve<S: Scope<V>>(self, client: &mut Client<'_, V, S>) -> Self::Out
        requires new { client.old.receipts ≡ [] }
        ensures served { serves self result client.new.receipts };
}

/// A session, its seat, and what it returned.
#[derive(Drop)]
pub(crate) struct Task<V, N, O> {
    pub(crate) seat: Option<Boxed<TxSeat<V>>>,
    pub(crate) session: Option<N>,
    pub(crate) out: Option<O>,
}

/// Serves a session by a client with this seat, and returns the seat.
fn serve_as<V: Value, S: Scope<V>, N: Session<V> + Drop>(
    table: &TxTable<V>,
    caller: Caller,
    seat: Boxed<TxSeat<V>>,
    session: N,
) -> (Boxed<TxSeat<V>>, N::Out)
    requires ready { IsReady table.now seat }
    requires frame { S.frame ≡ Some (record { table = table.now; begun = Some seat }) }
    ensures ready { IsReady table.now result.0 }
    ensures goes { GoesOn seat.seat result.0.seat }
    ensures served { Serves N.serves session result.1 seat.seat result.0.seat }
{
    let mut client: Client<'_, V, S> = client_of(table, caller, seat);
    let out = session.serve(&mut client);
    (seat_of(client), out)
}

/// Serves a session, see `serve_as`.
fn serve_at<V: Value, N: Session<V> + Drop>(
    table: &TxTable<V>,
    caller: Caller,
    seat: Boxed<TxSeat<V>>,
    session: N,
) -> (Boxed<TxSeat<V>>, N::Out)
    requires ready { IsReady table.now seat }
    ensures ready { IsReady table.now result.0 }
    ensures goes { GoesOn seat.seat result.0.seat }
    ensures served { Serves N.serves session result.1 seat.seat result.0.seat }
{
    serve_as::<V, Brand, N>(table, caller, seat, session)
}

/// Serves a session at a seat that has no receipts.
pub(crate) fn serve_one<V: Value, N: Session<V> + Drop>(
    table: &TxTable<V>,
    caller: Caller,
    seat: Boxed<TxSeat<V>>,
    session: N,
) -> (Boxed<TxSeat<V>>, N::Out)
    requires ready { IsReady table.now seat }
    requires none { (view seat.seat).receipts ≡ [] }
    ensures ready { IsReady table.now result.0 }
    ensures shares { (view result.0.seat).shares ≡ (view seat.seat).shares }
    ensures served { N.serves session result.1 (view result.0.seat).receipts }
    ensures own { AreBy (actor result.0.seat) (view result.0.seat).receipts }
{
    serve_at(table, caller, seat, session)
}

/// Serves the session of a task.
fn serve_task<V: Value, N: Session<V> + Drop>(
    table: &TxTable<V>,
    caller: Caller,
    task: &mut Task<V, N, N::Out>,
)
    requires due { IsDue table.now task.old }
    ensures done { IsDone table.now N.serves task.old task.new }
{
    match (task.seat.take(), task.session.take()) {
        (Some(seat), Some(session)) => {
            let (seat, out) = serve_at(table, caller, seat, session);
            task.seat = Some(seat);
            task.out = Some(out);
        }
        _ => unreachable!(),
    }
}

/// Serves each session, in a thread of its own where one can be started.
fn serve_all<R: Threads + Sync, V: Value + Send + Sync, N: Session<V> + Drop + Send>(
    rt: &R,
    table: &TxTable<V>,
    store: u32,
    tasks: &mut [Task<V, N, N::Out>],
)
where
    N::Out: Send,
    requires due { All (IsDue table.now) tasks.old }
    ensures done { (i : ℕ) (d : _) → i < length tasks.old
        → IsDone table.now N.serves (slice_index_or tasks.old i d) (slice_index_or tasks.new i d) }
{
    let count = tasks.len().max(1);
    thread::for_each_mut(
        rt,
        tasks,
        count,
        &|place: usize, task: &mut Task<V, N, N::Out>|
            requires { IsDue table.now task.now }
            ensures { IsDone table.entry.now N.serves task.entry.now task.exit.now }
        { serve_task(table, Caller::new(store, place as u64), task) },
    );
}

/// Splits a seat of one share off for each session. Where an allocation fails, the first sessions wait, and the others are dropped.
fn prepare_all<V: Value, N: Drop, O: Drop>(
    alloc: Global,
    table: &TxTable<V>,
    seat: &mut TxSeat<V>,
    sessions: Vec<N>,
    tasks: &mut Vec<Task<V, N, O>>,
) -> Result<(), Memory>
    requires ready { IsReady table.now seat.old }
    requires few { length sessions.items < (view seat.old.seat).shares }
    requires empty { tasks.old.items ≡ [] }
    requires room { length sessions.items ≤ vec_capacity tasks.old }
    ensures ready { IsReady table.now seat.new }
    ensures left { HasLeft (length tasks.new.items) seat.old.seat seat.new.seat }
    ensures wait { All (IsWaiting table.now) tasks.new.items }
    ensures sessions { OnOk result (map (λ p. p.session) tasks.new.items ≡ map Some sessions.items) }
    ensures room { vec_capacity tasks.new ≡ vec_capacity tasks.old }
{
    'sessions: for session in sessions {
        let own = split_off(alloc, table, seat)?;
        tasks.push_reserved(Task {
            seat: Some(own),
            session: Some(session),
            out: None,
        });
    }
    Ok(())
}

/// Joins the seat of a session again that was not served.
fn join_unserved<V: Value, N: Drop, O: Drop>(
    table: &TxTable<V>,
    seat: &mut TxSeat<V>,
    task: Task<V, N, O>,
)
    requires ready { IsReady table.now seat.old }
    requires waits { IsWaiting table.now task }
    ensures ready { IsReady table.now seat.new }
    ensures joined { HasLeft 1 seat.new.seat seat.old.seat }
{
    let Task {
        seat: kept,
        session: _,
        out: _,
    } = task;
    match kept {
        Some(own) => join_unused(table, seat, own.into_inner()),
        None => unreachable!(),
    }
}

/// Joins the seats of all sessions again, none of which was served.
fn join_waiting<V: Value, N: Drop, O: Drop>(
    table: &TxTable<V>,
    seat: &mut TxSeat<V>,
    tasks: Vec<Task<V, N, O>>,
)
    requires ready { IsReady table.now seat.old }
    requires wait { All (IsWaiting table.now) tasks.items }
    ensures ready { IsReady table.now seat.new }
    ensures joined { HasLeft (length tasks.items) seat.new.seat seat.old.seat }
{
    'tasks: for task in tasks {
        join_unserved(table, seat, task);
    }
}

/// Joins the seat of a session again, and returns what the session returned.
fn join_one<V: Value, N: Drop, O: Drop>(
    table: &TxTable<V>,
    seat: &mut TxSeat<V>,
    task: Task<V, N, O>,
) -> O
    requires ready { IsReady table.now seat.old }
    requires finished { IsFinished table.now task }
    ensures ready { IsReady table.now seat.new }
    ensures shares { (view seat.new.seat).shares ≡ (view seat.old.seat).shares + 1 }
    ensures receipts { (view seat.new.seat).receipts ≡ (view seat.old.seat).receipts ++ receipts_at task.seat }
    ensures asks { requests_of seat.new.seat ≡ requests_of seat.old.seat }
    ensures last { seat.old.seat.last ≤ seat.new.seat.last }
    ensures given { task.out ≡ Some result }
{
    match (task.seat, task.out) {
        (Some(own), Some(out)) => {
            seat.join(table, own.into_inner());
            out
        }
        _ => unreachable!(),
    }
}

/// Joins the seats of all sessions again, and adds what they returned, in order.
fn join_all<V: Value, N: Drop, O: Drop>(
    table: &TxTable<V>,
    seat: &mut TxSeat<V>,
    tasks: Vec<Task<V, N, O>>,
    outs: &mut Vec<O>,
)
    requires ready { IsReady table.now seat.old }
    requires finished { All (IsFinished table.now) tasks.items }
    requires room { vec_len outs.old + length tasks.items ≤ vec_capacity outs.old }
    ensures ready { IsReady table.now seat.new }
    ensures shares { (view seat.new.seat).shares ≡ (view seat.old.seat).shares + length tasks.items }
    ensures receipts { (view seat.new.seat).receipts
        ≡ (view seat.old.seat).receipts ++ joined (map (λ p. receipts_at p.seat) tasks.items) }
    ensures asks { requests_of seat.new.seat ≡ requests_of seat.old.seat }
    ensures last { seat.old.seat.last ≤ seat.new.seat.last }
    ensures outs { map Some outs.new.items ≡ map Some outs.old.items ++ map (λ p. p.out) tasks.items }
{
    'tasks: for task in tasks {
        let out = join_one(table, seat, task);
        outs.push_reserved(out);
    }
}

/// Serves fewer sessions than there are shares, each with a seat of one share.
fn serve_few<R: Threads + Sync, V: Value + Send + Sync, N: Session<V> + Drop + Send>(
    rt: &R,
    alloc: Global,
    table: &TxTable<V>,
    store: u32,
    seat: &mut TxSeat<V>,
    sessions: Vec<N>,
) -> Result<Vec<N::Out>, Refusal>
where
    N::Out: Send,
    requires ready { IsReady table.now seat.old }
    requires whole { (view seat.old.seat).shares ≡ SHARES }
    requires few { length sessions.items < SHARES }
    ensures ready { IsReady table.now seat.new }
    ensures whole { (view seat.new.seat).shares ≡ SHARES }
    ensures asks { requests_of seat.new.seat ≡ requests_of seat.old.seat }
    ensures last { seat.old.seat.last ≤ seat.new.seat.last }
    ensures all { IfOk result (λ outs. HaveServed N.serves sessions.items outs.items (view seat.old.seat).receipts
        (view seat.new.seat).receipts) }
    ensures none { OnErr result (HasLeft 0 seat.old.seat seat.new.seat) }
    ensures why { IfErr result (λ cause. cause ≡ OutOfMemory) }
{
    let count = sessions.len();
    let Ok(mut tasks) = Vec::with_capacity(alloc, count) else {
        return Err(Refusal::Memory);
    };
    let Ok(mut outs) = Vec::with_capacity(alloc, count) else {
        return Err(Refusal::Memory);
    };
    let Ok(()) = prepare_all(alloc, table, seat, sessions, &mut tasks) else {
        join_waiting(table, seat, tasks);
        return Err(Refusal::Memory);
    };
    serve_all(rt, table, store, tasks.as_mut_slice());
    join_all(table, seat, tasks, &mut outs);
    Ok(outs)
}

/// Serves as many sessions as there are shares. None is left for the store then, so the first session is served at the store's own seat.
fn serve_full<R: Threads + Sync, V: Value + Send + Sync, N: Session<V> + Drop + Send>(
    rt: &R,
    alloc: Global,
    table: &TxTable<V>,
    store: u32,
    seat: Boxed<TxSeat<V>>,
    sessions: Vec<N>,
) -> (Boxed<TxSeat<V>>, Result<Vec<N::Out>, Refusal>)
where
    N::Out: Send,
    requires ready { IsReady table.now seat }
    requires whole { (view seat.seat).shares ≡ SHARES }
    requires full { length sessions.items ≡ SHARES }
    ensures ready { IsReady table.now result.0 }
    ensures whole { (view result.0.seat).shares ≡ SHARES }
    ensures last { seat.seat.last ≤ result.0.seat.last }
    ensures all { IfOk result.1 (λ outs. HaveServed N.serves sessions.items outs.items (view seat.seat).receipts
        (view result.0.seat).receipts) }
    ensures none { OnErr result.1 (HasLeft 0 seat.seat result.0.seat) }
    ensures why { IfErr result.1 (λ cause. cause ≡ OutOfMemory) }
{
    let (mut seat, mut rest) = (seat, sessions);
    let first = rest.remove(0);
    let Ok(mut tasks) = Vec::with_capacity(alloc, SHARES as usize) else {
        return (seat, Err(Refusal::Memory));
    };
    let Ok(mut outs) = Vec::with_capacity(alloc, SHARES as usize) else {
        return (seat, Err(Refusal::Memory));
    };
    let Ok(()) = prepare_all(alloc, table, seat.get_mut(), rest, &mut tasks) else {
        join_waiting(table, seat.get_mut(), tasks);
        return (seat, Err(Refusal::Memory));
    };
    tasks.push_reserved(Task {
        seat: Some(seat),
        session: Some(first),
        out: None,
    });
    serve_all(rt, table, store, tasks.as_mut_slice());
    match tasks.pop() {
        Some(own) => {
            let seat = join_others(table, own, tasks, &mut outs);
            (seat, Ok(outs))
        }
        None => unreachable!(),
    }
}

/// Joins the seats of all other sessions with that of this one, and keeps what they returned, this one's first.
fn join_others<V: Value, N: Drop, O: Drop>(
    table: &TxTable<V>,
    own: Task<V, N, O>,
    others: Vec<Task<V, N, O>>,
    outs: &mut Vec<O>,
) -> Boxed<TxSeat<V>>
    requires ended { IsEnded table.now own }
    requires finished { All (IsFinished table.now) others.items }
    requires empty { outs.old.items ≡ [] }
    requires room { 1 + length others.items ≤ vec_capacity outs.old }
    ensures ready { IsReady table.now result }
    ensures shares { (view result.seat).shares ≡ shares_at own.seat + length others.items }
    ensures receipts { (view result.seat).receipts ≡ receipts_at own.seat ++ joined (map (λ p. receipts_at p.seat) others.items) }
    ensures last { last_at own.seat ≤ result.seat.last }
    ensures outs { map Some outs.new.items ≡ own.out ∷ map (λ p. p.out) others.items }
{
    match (own.seat, own.out) {
        (Some(seat), Some(out)) => {
            let mut seat = seat;
            outs.push_reserved(out);
            join_all(table, seat.get_mut(), others, outs);
            seat
        }
        _ => unreachable!(),
    }
}

/// Serves the sessions, each with a seat of its own. The store's seat has all shares before and afterwards.
pub(crate) fn serve<R: Threads + Sync, V: Value + Send + Sync, N: Session<V> + Drop + Send>(
    rt: &R,
    alloc: Global,
    table: &TxTable<V>,
    store: u32,
    seat: Boxed<TxSeat<V>>,
    sessions: Vec<N>,
) -> (Boxed<TxSeat<V>>, Result<Vec<N::Out>, Refusal>)
where
    N::Out: Send,
    requires ready { IsReady table.now seat }
    requires whole { (view seat.seat).shares ≡ SHARES }
    ensures ready { IsReady table.now result.0 }
    ensures whole { (view result.0.seat).shares ≡ SHARES }
    ensures asks { length sessions.items < SHARES → requests_of result.0.seat ≡ requests_of seat.seat }
    ensures last { seat.seat.last ≤ result.0.seat.last }
    ensures all { IfOk result.1 (λ outs. HaveServed N.serves sessions.items outs.items (view seat.seat).receipts
        (view result.0.seat).receipts) }
    ensures none { OnErr result.1 (HasLeft 0 seat.seat result.0.seat) }
    ensures why { IfErr result.1 (IsWhy (length sessions.items)) }
{
    let count = sessions.len() as u64;
    if count > SHARES {
        return (seat, Err(Refusal::TooLong));
    }
    if count == SHARES {
        return serve_full(rt, alloc, table, store, seat, sessions);
    }
    let mut seat = seat;
    let served = serve_few(rt, alloc, table, store, seat.get_mut(), sessions);
    (seat, served)
}
