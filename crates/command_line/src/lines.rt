//! A line for each session that workers ran.
ghost use Rattle.std.specs.Prelude.{◌≡◌, ◌+◌, ◌++◌, ◌≤◌, ◌↔◌, ℕ, List, IfOk, IsTrue, length};
ghost use Rattle.workers.specs.Deals.{AreDealtLike, in_lists};
ghost use Rattle.client_sessions.specs.declared.entry.Entry.{Entry as AnEntry};
ghost use Rattle.seq_model.specs.declared.causes.LastAbort.{LastAbort as ACause};
ghost use Rattle.tx_engine.specs.Tasks.{Outcome, missed_in, receipts_in};
ghost use Rattle.command_line.specs.Lines.{AreLinesOf, IsLineOf};
ghost use Rattle.command_line.specs.Unread.{AreAllUnread, AreUnread, HasAllUnread, HasNext, HasUnread, IsFirst, IsNext, IsTold};

use client_sessions::{Entry, Session};
use seq_model::{ACTOR_LIMIT, Memory, Record};
use session_text::line_of;
use std::alloc::Global;
use std::collections::VecDeque;
use text_formats::Line;
use workers::{LastAbort, Report, gather};

/// A worker, the position of a job in its list, and why that one has no receipt.
pub(crate) type Missed = (u64, u64, LastAbort);

/// Whether the first of these missed jobs is the one at this position of this worker's list.
fn is_next_missed(worker: u64, place: u64, missed: &[Missed]) -> bool
    ensures { IsTrue result ↔ IsFirst worker place missed.now }
{
    match missed.first() {
        Some(job) => job.0 == worker && job.1 == place,
        None => false,
    }
}

/// The line of a worker's next session, with the receipts and the missed jobs after it.
fn next_line<'a>(
    session: &Session,
    worker: u64,
    place: u64,
    receipts: &'a [Record<Entry>],
    missed: &'a [Missed],
) -> Result<(Line, &'a [Record<Entry>], &'a [Missed]), Memory>
    requires { HasNext worker place session.now receipts.now missed.now }
    ensures { (o : Outcome AnEntry) (os : List (Outcome AnEntry)) (later : List (ℕ × ℕ × ACause))
        → IsNext worker place session.now o os later receipts.now missed.now
        → IfOk result (λ told. IsLineOf session.now o told.0 × (told.1.now ≡ receipts_in os)
        × (told.2.now ≡ missed_in worker (place + 1) os ++ later)) }
{
    if is_next_missed(worker, place, missed) {
        let Some((job, behind)) = missed.split_first() else {
            unreachable!()
        };
        return Ok((Line::Missed(job.2), receipts, behind));
    }
    let Some((receipt, behind)) = receipts.split_first() else {
        unreachable!()
    };
    Ok((line_of(session, receipt)?, behind, missed))
}

/// The results of a worker's sessions, in their order, with the missed jobs of the workers after it.
fn lines_of_worker<'a>(
    alloc: Global,
    worker: u64,
    sessions: &[Session],
    receipts: &'a [Record<Entry>],
    missed: &'a [Missed],
) -> Result<(VecDeque<Line>, &'a [Missed]), Memory>
    requires { HasUnread worker 0 sessions.now receipts.now missed.now }
    ensures { (os : List (Outcome AnEntry)) (later : List (ℕ × ℕ × ACause))
        → AreUnread worker 0 sessions.now os later receipts.now missed.now
        → IfOk result (λ told. AreLinesOf sessions.now os told.0.items × (told.1.now ≡ later)) }
{
    let mut lines = VecDeque::new(alloc);
    let (mut left, mut unread, mut misses) = (sessions, receipts, missed);
    let mut place = 0;
    'sessions: while let Some((session, later)) = left.split_first() {
        let (line, behind, others) = next_line(session, worker, place, unread, misses)?;
        lines.push_back(line)?;
        left = later;
        unread = behind;
        misses = others;
        place += 1;
    }
    Ok((lines, misses))
}

/// The result of each session, in the order in which they were dealt out to the workers, so many in all.
pub(crate) fn lines_of_report(
    alloc: Global,
    sessions: &[Vec<Session>],
    total: usize,
    report: &Report<Entry>,
) -> Result<Vec<Line>, Memory>
    requires some { (1 ≤ length sessions.now) × (length sessions.now ≤ ACTOR_LIMIT) }
    requires like { AreDealtLike (length sessions.now) total (in_lists sessions.now) }
    requires there { HasAllUnread 1 (in_lists sessions.now) report.now.receipts report.now.missed }
    ensures { (outcomes : List (List (Outcome AnEntry)))
        → AreAllUnread 1 (in_lists sessions.now) outcomes report.now.receipts report.now.missed
        → IfOk result (λ lines. IsTold (in_lists sessions.now) outcomes total lines.items) }
{
    let mut queues = Vec::with_capacity(alloc, sessions.len())?;
    let (mut left, mut unread) = (sessions, report.receipts.as_slice());
    let mut missed = report.missed.as_slice();
    let mut worker = 1;
    'workers: while let Some((own, later)) = left.split_first() {
        let Some((receipts, behind)) = unread.split_first() else {
            unreachable!()
        };
        let (lines, others) = lines_of_worker(
            alloc,
            worker,
            own.as_slice(),
            receipts.as_slice(),
            missed,
        )?;
        queues.push(lines)?;
        left = later;
        unread = behind;
        missed = others;
        worker += 1;
    }
    gather(alloc, queues, total)
}
