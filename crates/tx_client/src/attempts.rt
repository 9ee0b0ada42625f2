//! Attempts of a body, up to a commit.
//!
//! One attempt begins a transaction, runs the body in it, and commits it, or aborts it where the body returns an error. After a conflict it
//! waits, and attempts the body again. The transaction owns the client's seat while it runs: so its type alone says to which transaction it
//! belongs ([`crate::Scope`]).
ghost use Rattle.std.specs.Prelude.{◌≡◌, IfErr, IfOk, Err, Ok, Some, false, true};
ghost use Rattle.shared_table.specs.Seated.{opening_of};
ghost use Rattle.tx_turns.specs.Driven.{is_declared};
ghost use Rattle.tx_turns.specs.RequestHistory.{requests_of};
ghost use Rattle.tx_engine.specs.Borrowed.{IsAborted};
ghost use Rattle.tx_engine.specs.Ready.{HasBegunSince, HasFinished, IsReady};
ghost use Rattle.tx_engine.specs.Requests.{HasAskedToBegin, KeepsReceipts};
ghost use Rattle.tx_client.specs.RequestKinds.{HasAsked};
ghost use Rattle.tx_client.specs.Ends.{EndsAs};
ghost use Rattle.tx_client.specs.Frames.{HasMadeCalls, calls_made};
ghost use Rattle.tx_client.specs.Tallies.{AreCounted};

use crate::body::Body;
use crate::caller::Caller;
use crate::scope::Scope;
use crate::tally::Tally;
use crate::transaction::Transaction;
use actor_parts::Boxed;
use seq_model::{Failure, Refusal, Value};
use shared_table::TxTable;
use std::hint::spin_loop;
use std::marker::{Brand, PhantomData};
use std::thread::yield_now;
use tx_engine::{Receipt, TxSeat, begin_read, resume};

/// From so many attempts on a client yields its thread between two of them; before, it spins.
const SPINS: u64 = 10;

/// It yields at most so often between two attempts.
const YIELDS: u64 = 64;

/// How a body ended: the refusal of its last call, and what the body returned.
#[derive(Drop)]
struct Ran<T, E> {
    refused: Option<Refusal>,
    gave: Result<T, E>,
}

/// Waits after so many attempts, longer after each, up to a limit.
fn wait(attempts: u64) {
    if attempts < SPINS {
        for _ in 0..attempts * attempts {
            spin_loop();
        }
    } else {
        for _ in 0..(attempts - SPINS + 1).min(YIELDS) {
            yield_now();
        }
    }
}

/// Begins a transaction, which is left open at the seat: a declared reader, or one that may write.
fn begin<V: Value>(table: &TxTable<V>, seat: &mut TxSeat<V>, declared: bool) -> Result<(), Refusal>
    requires ready { IsReady table.now seat.old }
    ensures ready { IsReady table.now seat.new }
    ensures since { IfOk result (λ _. HasBegunSince table.now seat.new) }
    ensures keeps { KeepsReceipts seat.old.seat seat.new.seat }
    ensures asks { HasAskedToBegin declared (opening_of table.now) seat.old.seat seat.new.seat }
    ensures reads { IfOk result (λ _. declared ≡ true → is_declared (opening_of table.now) seat.new.seat ≡ true) }
{
    if declared {
        match begin_read(seat, table) {
            Ok(_) => Ok(()),
            Err(cause) => Err(cause),
        }
    } else {
        match tx_engine::begin(seat, table) {
            Ok(_) => Ok(()),
            Err(cause) => Err(cause),
        }
    }
}

/// Runs the body in the open transaction of the seat, and returns the seat after the body's calls.
fn run_in<V: Value, S: Scope<V>, B: Body<V>>(
    table: &TxTable<V>,
    caller: Caller,
    seat: Boxed<TxSeat<V>>,
    body: &B,
) -> (Boxed<TxSeat<V>>, Ran<B::Out, B::Error>)
    requires ready { IsReady table.now seat }
    requires since { HasBegunSince table.now seat }
    requires frame { S.frame ≡ Some (record { table = table.now; begun = Some seat }) }
    ensures ready { IsReady table.now result.0 }
    ensures since { HasBegunSince table.now result.0 }
    ensures calls { HasMadeCalls (opening_of table.now) seat.seat result.0.seat }
    ensures made { IfOk result.1.gave (λ out. B.makes body.now out (calls_made (opening_of table.now) result.0.seat)) }
    ensures aborts { IfErr result.1.gave (λ error. B.aborts body.now error (calls_made (opening_of table.now) result.0.seat)) }
{
    let mut tx: Transaction<'_, V, S> = Transaction {
        table,
        seat,
        store: caller.store,
        lane: caller.lane,
        refused: None,
        scope: PhantomData,
    };
    let gave = body.run(&mut tx);
    let Transaction {
        table: _,
        seat,
        store: _,
        lane: _,
        refused,
        scope: _,
    } = tx;
    (seat, Ran { refused, gave })
}

/// Runs the body in the open transaction of the seat, see `run_in`.
fn run<V: Value, B: Body<V>>(
    table: &TxTable<V>,
    caller: Caller,
    seat: Boxed<TxSeat<V>>,
    body: &B,
) -> (Boxed<TxSeat<V>>, Ran<B::Out, B::Error>)
    requires ready { IsReady table.now seat }
    requires since { HasBegunSince table.now seat }
    ensures ready { IsReady table.now result.0 }
    ensures since { HasBegunSince table.now result.0 }
    ensures calls { HasMadeCalls (opening_of table.now) seat.seat result.0.seat }
    ensures made { IfOk result.1.gave (λ out. B.makes body.now out (calls_made (opening_of table.now) result.0.seat)) }
    ensures aborts { IfErr result.1.gave (λ error. B.aborts body.now error (calls_made (opening_of table.now) result.0.seat)) }
{
    run_in::<V, Brand, B>(table, caller, seat, body)
}

/// The transaction that is open at the seat commits.
fn commit<V: Value>(table: &TxTable<V>, seat: &mut TxSeat<V>) -> Result<Receipt<V>, Refusal>
    requires ready { IsReady table.now seat.old }
    requires since { HasBegunSince table.now seat.old }
    ensures finished { HasFinished table.now seat.old seat.new result }
{
    resume(seat, table).commit()
}

/// It ends without a commit.
fn abort<V: Value>(table: &TxTable<V>, seat: &mut TxSeat<V>)
    requires ready { IsReady table.now seat.old }
    ensures { IsAborted table.now seat.old seat.new }
{
    resume(seat, table).abort();
}

/// Commits the transaction, or aborts it where its body returned an error. Where a call ended the transaction and the body continued,
/// the answer is that call's refusal.
fn finish<V: Value, T: Drop, E: Drop>(
    table: &TxTable<V>,
    seat: &mut TxSeat<V>,
    ran: Ran<T, E>,
    declared: bool,
) -> Result<(T, Receipt<V>), Failure<E>>
    requires ready { IsReady table.now seat.old }
    requires since { HasBegunSince table.now seat.old }
    ensures ready { IsReady table.now seat.new }
    ensures ends { EndsAs (λ out calls. (Ok out ≡ ran.gave) × (calls ≡ calls_made (opening_of table.now) seat.old.seat))
        (λ error calls. (Err error ≡ ran.gave) × (calls ≡ calls_made (opening_of table.now) seat.old.seat)) seat.old.seat seat.new.seat
        result }
    ensures asks { HasAsked declared (requests_of seat.old.seat) (requests_of seat.new.seat) }
    ensures reads { IfOk result (λ done. is_declared (opening_of table.now) seat.old.seat ≡ true → done.1.writes ≡ false) }
{
    let _ = declared;
    let Ran { refused, gave } = ran;
    match gave {
        Ok(value) => match commit(table, seat) {
            Ok(receipt) => Ok((value, receipt)),
            Err(cause) => Err(Failure::Refused(first_refusal(refused, cause))),
        },
        Err(error) => {
            abort(table, seat);
            match refused {
                Some(cause) => Err(Failure::Refused(cause)),
                None => Err(Failure::Aborted(error)),
            }
        }
    }
}

/// The refusal of a commit. Where an earlier call has ended the transaction, it is that call's refusal.
fn first_refusal(refused: Option<Refusal>, cause: Refusal) -> Refusal {
    match cause {
        Refusal::NoTransaction => refused.unwrap_or(cause),
        _ => cause,
    }
}

/// One attempt of a body.
fn attempt<V: Value, B: Body<V>>(
    table: &TxTable<V>,
    caller: Caller,
    seat: Boxed<TxSeat<V>>,
    body: &B,
    declared: bool,
) -> (
    Boxed<TxSeat<V>>,
    Result<(B::Out, Receipt<V>), Failure<B::Error>>,
)
    requires ready { IsReady table.now seat }
    ensures ready { IsReady table.now result.0 }
    ensures ends { EndsAs (B.makes body.now) (B.aborts body.now) seat.seat result.0.seat result.1 }
    ensures asks { HasAsked declared (requests_of seat.seat) (requests_of result.0.seat) }
    ensures reads { IfOk result.1 (λ done. declared ≡ true → done.1.writes ≡ false) }
{
    let mut seat = seat;
    match begin(table, seat.get_mut(), declared) {
        Ok(()) => {
            let (mut seat, ran) = run(table, caller, seat, body);
            let ended = finish(table, seat.get_mut(), ran, declared);
            (seat, ended)
        }
        Err(cause) => (seat, Err(Failure::Refused(cause))),
    }
}

/// Attempts a body until it commits: at most so many times, and once at least. Only a conflict is followed by another attempt. Each attempt
/// is counted.
pub fn retry<V: Value, B: Body<V>>(
    table: &TxTable<V>,
    caller: Caller,
    seat: Boxed<TxSeat<V>>,
    tally: Tally,
    body: &B,
    declared: bool,
    tries: u64,
) -> (
    Boxed<TxSeat<V>>,
    Tally,
    Result<(B::Out, Receipt<V>), Failure<B::Error>>,
)
    requires ready { IsReady table.now seat }
    ensures ready { IsReady table.now result.0 }
    ensures ends { EndsAs (B.makes body.now) (B.aborts body.now) seat.seat result.0.seat result.2 }
    ensures asks { HasAsked declared (requests_of seat.seat) (requests_of result.0.seat) }
    ensures counted { AreCounted tries tally result.1 result.2 }
    ensures reads { IfOk result.2 (λ done. declared ≡ true → done.1.writes ≡ false) }
{
    let (mut seat, mut ended) = attempt(table, caller, seat, body, declared);
    let mut counted = tally.with_end(&ended);
    'tries: for i in 1..tries {
        match ended {
            Err(Failure::Refused(cause)) if cause.is_conflict() => {
                wait(i);
                (seat, ended) = attempt(table, caller, seat, body, declared);
                counted = counted.with_end(&ended);
            }
            _ => return (seat, counted, ended),
        }
    }
    (seat, counted, ended)
}
