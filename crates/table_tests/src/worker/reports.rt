//! What is printed of what comes of workers.
use super::lists::Limits;
use crate::shared::print_receipt;
use seq_model::{Items, Memory, Record, Refusal};
use std::fmt::Write;
use workers::{LastAbort, Report};

/// How many jobs ran out of memory.
pub fn memory_missed(missed: &[(u64, u64, LastAbort)]) -> u64 {
    let mut count = 0u64;
    for (_, _, cause) in missed {
        if matches!(cause, LastAbort::Refused(Refusal::Memory)) {
            count = count.saturating_add(1);
        }
    }
    count
}

/// The receipts of the first worker where workers meet, or it is alone; the numbers of all, rising, or of a crowd how many there are; and
/// the jobs that were missed.
pub fn print_report<V>(
    text: &mut String,
    report: &Report<V>,
    limits: Limits,
) -> Result<(), Memory> {
    let lists = report.receipts.as_slice();
    if limits.meet > 0 || lists.len() == 1 {
        if let Some(receipts) = lists.first() {
            print_own(text, Some(1), receipts.as_slice())?;
        }
    }
    print_numbers(text, lists, limits.is_crowd)?;
    print_missed(text, report.missed.as_slice())
}

/// The receipts of a worker, whose number may stand before each.
pub fn print_own<V>(
    text: &mut String,
    worker: Option<u64>,
    receipts: &[Record<V>],
) -> Result<(), Memory> {
    for receipt in receipts {
        if let Some(worker) = worker {
            write!(text, "worker {worker}: ")?;
        }
        print_receipt(text, receipt)?;
        text.push('\n')?;
    }
    Ok(())
}

fn print_numbers<V>(
    text: &mut String,
    lists: &[Items<Record<V>>],
    is_crowd: bool,
) -> Result<(), Memory> {
    let mut numbers = Vec::new(*text.allocator());
    for receipts in lists {
        for receipt in receipts.as_slice() {
            numbers.push(receipt.number)?;
        }
    }
    if is_crowd {
        let count = numbers.len();
        writeln!(text, "receipts {count}")?;
        return Ok(());
    }
    numbers.sort_unstable();
    text.push_str("numbers")?;
    for number in numbers.as_slice() {
        write!(text, " {number}")?;
    }
    text.push('\n')?;
    Ok(())
}

/// The jobs that were missed, each with its cause.
pub fn print_missed(text: &mut String, missed: &[(u64, u64, LastAbort)]) -> Result<(), Memory> {
    for (worker, place, cause) in missed {
        write!(text, "missed {worker} {place}: ")?;
        match cause {
            LastAbort::Refused(refusal) => writeln!(text, "{refusal}")?,
            LastAbort::GivenUp => text.push_str("given up\n")?,
            LastAbort::NotStarted => text.push_str("not started\n")?,
        }
    }
    Ok(())
}
