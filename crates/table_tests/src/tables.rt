//! A table, from its opening to its end.
ghost use Rattle.std.specs.Prelude.{◌≡◌};
ghost use Rattle.shared_table.specs.Seated.{view};
ghost use Rattle.tx_engine.specs.Ready.{IsReady};

use crate::pairs::run_seats;
use crate::shared::{Page, Told, close, open, say_left, say_places};
use crate::worker::lists::{Limits, limits_of};
use crate::worker::retries::{ALONE, commit_after, retry_rows};
use crate::worker::runs::run_lists;
use row_parts::{script_of, shape_of, state_of};
use seq_model::{Refusal, Shape, State};
use shared_table::TxTable;
use std::sync::Wait;
use std::thread::Threads;
use text_formats::number;
use tx_engine::TxSeat;

/// What the rows on a table are.
#[derive(Clone, Copy)]
enum Kind {
    /// Rows at two seats.
    Seats,
    /// Jobs of workers.
    Workers(Limits),
    /// Jobs of one seat, each in up to so many attempts.
    Retries(u64),
}

impl Kind {
    fn of(word: &str, limits: &str) -> Option<Kind> {
        match word {
            "seats" => Some(Kind::Seats),
            "workers" => Some(Kind::Workers(limits_of(limits)?)),
            "retries" => Some(Kind::Retries(number(limits)?)),
            _ => None,
        }
    }

    /// Whether the clock depends on how the workers stood in each other's way.
    fn is_crowd(self) -> bool {
        matches!(self, Kind::Workers(limits) if limits.is_crowd)
    }
}

/// The table that the words after the kind open, and what comes of the rows on it.
pub fn answer_table<R: Threads + Wait + Sync>(
    rt: &R,
    text: &mut String,
    kind: &str,
    words: &str,
    rows: &str,
) -> Result<(), Refusal> {
    let (limits, header) = words.split_once(" on ").unwrap_or(("", words));
    let Some(kind) = Kind::of(kind, limits) else {
        return Err(Refusal::NoSuch);
    };
    let alloc = *text.allocator();
    let script = script_of(alloc, header)?;
    let shape = shape_of(alloc, &script)?;
    let opening = state_of(alloc, &script, 0)?;
    drop(script);
    let mut page = Page::<u64>::new(alloc)?;
    let (clock, mut last) = run_opening(rt, &mut page, kind, &shape, &opening, rows)?;
    let clock = if kind.is_crowd() { None } else { Some(clock) };
    page.end(text, &opening, clock, &mut last, rows)
}

fn run_opening<R: Threads + Wait + Sync, V: Told + Send + Sync>(
    rt: &R,
    page: &mut Page<V>,
    kind: Kind,
    shape: &Shape,
    opening: &State<V>,
    rows: &str,
) -> Result<(u64, State<V>), Refusal> {
    let (table, mut seat) = open(page.alloc(), shape, opening)?;
    let is_refused = run_seat(rt, page, kind, &table, &mut seat, rows);
    commit_after(page, &table, &mut seat, ALONE, is_refused);
    say_places(page, &table, rows);
    let closed = close(table, seat)?;
    say_left(page, &closed, rows);
    let clock = closed.clock();
    Ok((clock, closed.state()?))
}

// Whether jobs ran out of memory that were to have none.
fn run_seat<R: Threads + Wait + Sync, V: Told + Send + Sync>(
    rt: &R,
    page: &mut Page<V>,
    kind: Kind,
    table: &TxTable<V>,
    seat: &mut TxSeat<V>,
    rows: &str,
) -> bool
    requires ready { IsReady table.now seat.old }
    requires shares { (view seat.old.seat).shares ≡ 64 }
    ensures ready { IsReady table.now seat.new }
{
    match kind {
        Kind::Seats => {
            run_seats(rt, page, table, seat, rows);
            false
        }
        Kind::Workers(limits) => match run_lists(rt, page, limits, table, seat, rows) {
            Ok(is_refused) => is_refused,
            Err(refusal) => {
                page.fail(refusal);
                false
            }
        },
        Kind::Retries(tries) => {
            retry_rows(page, tries, table, seat, rows);
            false
        }
    }
}
