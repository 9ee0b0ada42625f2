//! A worker's list of jobs.
ghost use Rattle.std.specs.Prelude.{◌≡◌, ◌<◌, ◌≤◌, ◌+◌, ◌++◌, ◌∷◌, [], IfOk, length};
ghost use Rattle.shared_table.specs.Seated.{actor, view};
ghost use Rattle.tx_engine.specs.Ready.{IsReady};
ghost use Rattle.tx_engine.specs.Tasks.{Gains, GetsJoined, HasRoom, IsDone, IsFreshTask, IsLeft, IsSameTask, missed_in, receipts_in};

use crate::pause::Pause;
use crate::priority::{Priority, Waiting};
use crate::seats::TxSeat;
use crate::tries::retry_in;
use seq_model::{Job, LastAbort, Memory, Record, Value};
use shared_table::TxTable;
use std::alloc::Global;

/// A worker's number and its jobs, with room for what comes of them.
#[derive(Drop)]
pub struct Task<V, J> {
    pub worker: u64,
    pub jobs: Vec<J>,
    pub receipts: Vec<Record<V>>,
    /// The worker, the job's position in its list, and why it has no receipt.
    pub missed: Vec<(u64, u64, LastAbort)>,
}

impl<V: Value, J: Job<V> + Drop> Task<V, J> {
    /// A worker's list, with room for what comes of it.
    pub fn new(alloc: Global, worker: u64, jobs: Vec<J>) -> Result<Task<V, J>, Memory>
        ensures fresh { IfOk result IsFreshTask }
        ensures jobs { IfOk result (λ task. (task.worker ≡ worker) × (task.jobs.items ≡ jobs.items)) }
    {
        let receipts = Vec::with_capacity(alloc, jobs.len())?;
        let missed = Vec::with_capacity(alloc, jobs.len())?;
        Ok(Task {
            worker,
            jobs,
            receipts,
            missed,
        })
    }
}

impl<V: Value, J: Job<V>> Task<V, J> {
    /// What has come of the job at this position, which is the next one.
    fn note(&mut self, place: usize, outcome: Result<Record<V>, LastAbort>)
        requires next { place < length self.old.jobs.items }
        requires room { HasRoom place self.old }
        ensures room { HasRoom (place + 1) self.new }
        ensures same { IsSameTask self.old self.new }
        ensures receipts { self.new.receipts.items ≡ self.old.receipts.items ++ receipts_in (outcome ∷ []) }
        ensures missed { self.new.missed.items ≡ self.old.missed.items ++ missed_in self.old.worker place (outcome ∷ []) }
    {
        match outcome {
            Ok(receipt) => self.receipts.push_reserved(receipt),
            Err(cause) => self
                .missed
                .push_reserved((self.worker, place as u64, cause)),
        }
    }

    /// Each job in turn, by this seat.
    pub fn work<P: Pause>(
        &mut self,
        table: &TxTable<V>,
        seat: &mut TxSeat<V>,
        tries: u64,
        pause: &P,
        priority: &Priority,
    )
        requires some { 1 ≤ tries }
        requires ready { IsReady table.now seat.old }
        requires fresh { IsFreshTask self.old }
        ensures ready { IsReady table.now seat.new }
        ensures same { IsSameTask self.old self.new }
        ensures done { IsDone J.asks table.now tries (actor seat.old.seat) (view seat.old.seat).turns (view seat.new.seat).turns self.new }
        ensures joined { GetsJoined seat.old seat.new [] }
        ensures gains { Gains seat.old seat.new self.new.receipts.items }
    {
        let mut waiting = Waiting::of(self.worker);
        'jobs: for i in 0..self.jobs.len() {
            let outcome = retry_in(
                table,
                seat,
                &self.jobs[i],
                tries,
                self.worker,
                pause,
                priority,
                &mut waiting,
            );
            priority.release(&mut waiting);
            self.note(i, outcome);
        }
    }

    /// The list of a worker that was not started.
    pub fn leave(&mut self)
        requires fresh { IsFreshTask self.old }
        ensures same { IsSameTask self.old self.new }
        ensures left { IsLeft self.new }
        ensures none { self.new.receipts.items ≡ [] }
    {
        'jobs: for i in 0..self.jobs.len() {
            self.note(i, Err(LastAbort::NotStarted));
        }
    }
}
