//! One attempt of a job.
ghost use Rattle.std.specs.Prelude.{◌≡◌, ◌+◌, ◌<◌, IfErr, IfNone, IfOk, IfSome, [], false, length};
ghost use Rattle.seq_model.specs.declared.limits.TheConstants.{CALL_LIMIT as AsCallLimit};
ghost use Rattle.seq_model.specs.Places.{IsPlaceIn};
ghost use Rattle.shared_table.specs.Seated.{acts, opening_of};
ghost use Rattle.actor_laws.specs.KnownStages.{Rests, Stands};
ghost use Rattle.tx_turns.specs.Begins.{begins_of};
ghost use Rattle.tx_engine.specs.Ready.{HasBegunSince, IsReady, standing};
ghost use Rattle.tx_engine.specs.Requests.{HasAborted, HasSameAborted, IsBegun, IsNotBegun, IsOpen, KeepsReceipts};
ghost use Rattle.tx_engine.specs.Attempts.{Aborts, AttemptsTo, IsSoFar, IsUnmade, Reaches};

use crate::pause::Pause;
use crate::seats::TxSeat;
use seq_model::{Ask, Job, JobPlace, Record, Refusal, Reply, Value};
use shared_table::TxTable;

/// What became of an attempt.
#[derive(Debug, Drop)]
pub enum Attempt<V> {
    /// The job's transaction has committed, with this receipt.
    Committed(Record<V>),
    /// The job has aborted: its transaction has ended without a commit.
    GivenUp,
}

/// How a job ends.
#[derive(Drop)]
enum End {
    Done,
    GivenUp,
}

/// The transaction of an attempt begins, which may write; an open one is aborted first.
fn begin<V: Value>(table: &TxTable<V>, seat: &mut TxSeat<V>) -> Result<u64, Refusal>
    requires ready { IsReady table.now seat.old }
    ensures ready { IsReady table.now seat.new }
    ensures since { HasBegunSince table.now seat.new }
    ensures keeps { KeepsReceipts seat.old.seat seat.new.seat }
    ensures begun { IfOk result (IsBegun false (opening_of table.now) seat.old.seat seat.new.seat) }
    ensures refused { IfErr result (IsNotBegun (opening_of table.now) seat.old.seat seat.new.seat) }
    ensures aborted { IsOpen (opening_of table.now) seat.old.seat → HasAborted (opening_of table.now) seat.old.seat seat.new.seat }
    ensures aborts { Aborts (opening_of table.now) seat.old.seat seat.new.seat [] }
    ensures begins { begins_of seat.new.seat ≡ begins_of seat.old.seat + 1 }
{
    seat.begin(table)
}

/// The job's next call is made, and its reply joins those before it; or the job is done, or aborts. The job is asked by what it noted of
/// the replies before.
fn ask_next<V: Value, J: Job<V>>(
    table: &TxTable<V>,
    seat: &mut TxSeat<V>,
    job: &J,
    place: &mut JobPlace,
    replies: &mut Vec<Reply<V>>,
) -> Result<Option<End>, Refusal>
    requires ready { IsReady table.now seat.old }
    requires since { HasBegunSince table.now seat.old }
    requires so_far { IsSoFar (J.asks job.now) (opening_of table.now) seat.old.seat replies.old.items }
    requires place { IsPlaceIn (J.stands job.now) replies.old.items place.old }
    ensures ready { IsReady table.now seat.new }
    ensures since { HasBegunSince table.now seat.new }
    ensures keeps { KeepsReceipts seat.old.seat seat.new.seat }
    ensures begins { begins_of seat.new.seat ≡ begins_of seat.old.seat }
    ensures so_far { IfOk result (λ next. IfNone next
        (IsSoFar (J.asks job.now) (opening_of table.now) seat.new.seat replies.new.items)) }
    ensures place { IfOk result (λ next. IfNone next (IsPlaceIn (J.stands job.now) replies.new.items place.new)) }
    ensures room { IfOk result (λ next. IfNone next
        ((length replies.old.items < AsCallLimit) × (length replies.new.items ≡ length replies.old.items + 1))) }
    ensures same { IfOk result (λ next. IfNone next (HasSameAborted (opening_of table.now) seat.old.seat seat.new.seat)) }
    ensures reaches { IfOk result (λ next. IfSome next
        (Reaches (J.asks job.now) (opening_of table.now) (acts (opening_of table.now) seat.old.seat).aborted seat.old.seat seat.new.seat)) }
    ensures refused { IfErr result
        (IsUnmade (J.asks job.now) (opening_of table.now) (acts (opening_of table.now) seat.old.seat).aborted seat.old.seat seat.new.seat) }
{
    match job.ask_on(replies.as_slice(), place)? {
        Ask::Done => Ok(Some(End::Done)),
        Ask::GiveUp => Ok(Some(End::GivenUp)),
        Ask::Call(call) => {
            let reply = seat.call(table, call)?;
            replies.push(reply)?;
            Ok(None)
        }
    }
}

/// The calls of a job on the transaction that has just begun, up to where it is done, or aborts. The list of replies is cleared first, and
/// the job has noted nothing yet.
fn ask_all<V: Value, J: Job<V>>(
    table: &TxTable<V>,
    seat: &mut TxSeat<V>,
    job: &J,
    replies: &mut Vec<Reply<V>>,
) -> Result<End, Refusal>
    requires ready { IsReady table.now seat.old }
    requires since { HasBegunSince table.now seat.old }
    requires fresh { standing (opening_of table.now) seat.old.seat ≡ Stands [] }
    ensures ready { IsReady table.now seat.new }
    ensures since { HasBegunSince table.now seat.new }
    ensures keeps { KeepsReceipts seat.old.seat seat.new.seat }
    ensures begins { begins_of seat.new.seat ≡ begins_of seat.old.seat }
    ensures reaches { IfOk result
        (Reaches (J.asks job.now) (opening_of table.now) (acts (opening_of table.now) seat.old.seat).aborted seat.old.seat seat.new.seat) }
    ensures refused { IfErr result
        (IsUnmade (J.asks job.now) (opening_of table.now) (acts (opening_of table.now) seat.old.seat).aborted seat.old.seat seat.new.seat) }
{
    replies.clear();
    let mut place = JobPlace::new();
    'calls: loop {
        match ask_next(table, seat, job, &mut place, replies)? {
            Some(end) => return Ok(end),
            None => {}
        }
    }
}

/// The attempt, with a list for the job's replies, which is cleared before the job's first call.
fn attempt_in<V: Value, J: Job<V>, P: Pause>(
    table: &TxTable<V>,
    seat: &mut TxSeat<V>,
    job: &J,
    worker: u64,
    pause: &P,
    replies: &mut Vec<Reply<V>>,
) -> Result<Attempt<V>, Refusal>
    requires ready { IsReady table.now seat.old }
    ensures ready { IsReady table.now seat.new }
    ensures rests { standing (opening_of table.now) seat.new.seat ≡ Rests }
    ensures attempts { AttemptsTo (J.asks job.now) (opening_of table.now) seat.old.seat seat.new.seat result }
{
    begin(table, seat)?;
    match ask_all(table, seat, job, replies) {
        Ok(End::Done) => {
            pause.before_commit(worker);
            let receipt = seat.commit(table)?;
            Ok(Attempt::Committed(receipt))
        }
        Ok(End::GivenUp) => {
            seat.abort(table);
            Ok(Attempt::GivenUp)
        }
        Err(cause) => {
            seat.abort(table);
            Err(cause)
        }
    }
}

/// One attempt of a job by this worker: a transaction begins that may write, an open one being aborted first; the job's calls are made; it
/// commits once the job is done, `pause` being called before the first step of that, and ends without a commit where the job aborts. The
/// receipt that is answered is the one that the seat gains. A refusal is that of the request that was refused: `Exhausted` of the begin;
/// those of `call` and of `commit`; `Memory` also where an allocation fails in the job, or for its replies, with the transaction open at
/// its calls so far. A transaction that is open then is aborted: none is left, and the seat gains no receipt.
pub fn attempt_with<V: Value, J: Job<V>, P: Pause>(
    table: &TxTable<V>,
    seat: &mut TxSeat<V>,
    job: &J,
    worker: u64,
    pause: &P,
) -> Result<Attempt<V>, Refusal>
    requires ready { IsReady table.now seat.old }
    ensures ready { IsReady table.now seat.new }
    ensures rests { standing (opening_of table.now) seat.new.seat ≡ Rests }
    ensures attempts { AttemptsTo (J.asks job.now) (opening_of table.now) seat.old.seat seat.new.seat result }
{
    let mut replies = seat.take_replies();
    let attempted = attempt_in(table, seat, job, worker, pause, &mut replies);
    seat.keep_replies(replies);
    attempted
}
