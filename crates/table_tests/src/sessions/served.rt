//! Sessions that workers serve.
ghost use Rattle.std.specs.Prelude.{◌≤◌, length};
ghost use Rattle.vac_model.specs.Balanced.{IsBalanced};

use crate::shared::{Meeting, Order, audit_receipts, keep_all};
use crate::worker::reports::{memory_missed, print_own};
use client_sessions::{Entry, state_of};
use seq_model::{Refusal, State};
use std::alloc::Global;
use std::sync::Wait;
use std::thread::Threads;
use text_formats::{parse_sessions, print_sessions};
use vac_model::{Action, Tables};
use workers::{Report, Served, deal, serve};

/// How sessions are served: by how many workers, stripes for each collection, attempts of a session at most, and how many workers meet.
#[derive(Clone, Copy)]
pub struct Options {
    pub workers: usize,
    pub stripes: u32,
    pub tries: u64,
    pub meet: u64,
}

/// The sessions of this session file.
pub fn serve_sessions<R: Threads + Wait + Sync>(
    rt: &R,
    text: &mut String,
    options: Options,
    file: &str,
) -> Result<(), Refusal> {
    if options.workers == 0 {
        return Err(Refusal::NoSuch);
    }
    let alloc = *text.allocator();
    let (tables, actions) = parse_sessions(alloc, file.as_bytes())?;
    let opening = state_of(alloc, &tables)?;
    let meeting = Meeting::new(options.meet, Order::LastIsFirst);
    match serve_actions(rt, alloc, tables, options, actions, &meeting) {
        Ok(served) => answer_served(text, &opening, served, meeting.is_missed()),
        Err(Refusal::TooLong) => Ok(text.push_str("TooLong\n")?),
        Err(refusal) => Err(refusal),
    }
}

fn serve_actions<R: Threads + Wait + Sync>(
    rt: &R,
    alloc: Global,
    tables: Tables,
    options: Options,
    actions: Vec<Action>,
    meeting: &Meeting,
) -> Result<Served, Refusal>
    requires workers { 1 ≤ options.workers }
    requires balanced { IsBalanced tables }
{
    let lists = deal(alloc, actions, options.workers)?;
    let count = lists.len();
    if count == 0 || count > 64 || options.tries == 0 {
        return Err(Refusal::NoSuch);
    }
    serve(
        rt,
        alloc,
        tables,
        options.stripes,
        lists,
        options.tries,
        meeting,
    )
}

fn answer_served(
    text: &mut String,
    opening: &State<Entry>,
    served: Served,
    is_held_in_vain: bool,
) -> Result<(), Refusal> {
    let Served {
        report,
        tables,
        state,
    } = served;
    let alloc = *text.allocator();
    let printed = print_served(text, &report, &tables);
    let Report { receipts, missed } = report;
    let wanting = memory_missed(missed.as_slice());
    let mut all = Vec::new(alloc);
    let kept = keep_all(&mut all, receipts);
    let audited = audit_receipts(alloc, opening, all.as_slice(), &state);
    drop(all);
    drop(missed);
    drop(tables);
    drop(state);
    kept?;
    audited?;
    // Where an allocation failed for a worker, others are held in vain.
    if wanting > 0 {
        return Err(Refusal::Memory);
    }
    printed?;
    if is_held_in_vain {
        return Err(Refusal::NotIdle);
    }
    text.push_str("audit ok\n")?;
    Ok(())
}

// The receipts of each worker, and what the tables hold, as it stands after a session file without sessions.
fn print_served(text: &mut String, report: &Report<Entry>, tables: &Tables) -> Result<(), Refusal> {
    let mut worker = 1u64;
    for list in report.receipts.as_slice() {
        print_own(text, Some(worker), list.as_slice())?;
        worker = worker.saturating_add(1);
    }
    let bytes = print_sessions(*text.allocator(), &[], tables)?;
    match std::str::from_utf8(bytes.as_slice()) {
        Ok(lines) => text.push_str(lines)?,
        Err(_) => return Err(Refusal::NoSuch),
    }
    Ok(())
}
