//! The lists of jobs that rows spell.
use crate::shared::{Listed, Order, job_of};
use seq_model::Refusal;
use std::alloc::Global;
use text_formats::number;

/// How often a job is attempted at most, how many workers meet, and in which order they continue. Of a crowd none meets, and no numbers
/// are printed: they depend on how its workers stand in each other's way.
#[derive(Clone, Copy)]
pub struct Limits {
    pub tries: u64,
    pub meet: u64,
    pub order: Order,
    pub is_crowd: bool,
}

/// `1000000 2`, `1000000 2 in order`, or `1000000 crowd`.
pub fn limits_of(words: &str) -> Option<Limits> {
    let (tries, meet) = words.split_once(' ')?;
    let (meet, order) = match meet.strip_suffix(" in order") {
        Some(meet) => (meet, Order::LastIsFirst),
        None => (meet, Order::FirstIsLast),
    };
    let is_crowd = meet == "crowd";
    Some(Limits {
        tries: number(tries)?,
        meet: if is_crowd { 0 } else { number(meet)? },
        order,
        is_crowd,
    })
}

/// The list of each worker, which stand in the order of the workers.
pub fn lists_of(alloc: Global, rows: &str) -> Result<Vec<Vec<Listed>>, Refusal> {
    let mut lists = Vec::new(alloc);
    for row in rows.lines() {
        let (worker, words) = row.split_once(' ').unwrap_or(("", row));
        if let Some(worker) = number(worker) {
            add_row(&mut lists, worker, words)?;
        }
    }
    Ok(lists)
}

// A job of the last worker, or of the next one, who may have none.
fn add_row(lists: &mut Vec<Vec<Listed>>, worker: u64, words: &str) -> Result<(), Refusal> {
    let alloc = *lists.allocator();
    if lists.len() as u64 != worker {
        lists.push(Vec::new(alloc))?;
    }
    if words != "rests" {
        let job = job_of(alloc, words)?;
        if let Some(list) = lists.last_mut() {
            list.push(job)?;
        }
    }
    Ok(())
}

/// How many jobs have no memory.
pub fn wants_of(rows: &str) -> u64 {
    let mut count = 0u64;
    for row in rows.lines() {
        if row.ends_with("wants memory") {
            count = count.saturating_add(1);
        }
    }
    count
}
