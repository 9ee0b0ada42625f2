//! Sessions that workers serve on a shared table.
//!
//! After a row `sessions 2 64 1000 2` stands a session file, whose sessions are dealt in turn to two workers, on a table with 64 stripes
//! for each collection. Each is attempted at most 1000 times, and two workers meet: each is held before its commit until all stand there,
//! and all after it have their receipts. `0`: none is held. What comes of them is the receipts of each worker, what the
//! tables hold, as it is printed after a session file, and what the audit of all receipts says. Where a session runs out of memory the
//! audit is to be Ok, too; then that is answered as `Memory`.
mod served;

use seq_model::Refusal;
use served::{Options, serve_sessions};
use std::sync::Wait;
use std::thread::Threads;
use text_formats::number;

/// The sessions of this session file, served as these words say.
pub fn answer_sessions<R: Threads + Wait + Sync>(
    rt: &R,
    text: &mut String,
    words: &str,
    file: &str,
) -> Result<(), Refusal> {
    match options_of(words) {
        Some(options) => serve_sessions(rt, text, options, file),
        None => Err(Refusal::NoSuch),
    }
}

fn options_of(words: &str) -> Option<Options> {
    let (workers, words) = words.split_once(' ')?;
    let (stripes, limits) = words.split_once(' ')?;
    let (tries, meet) = limits.split_once(' ')?;
    let (workers, stripes) = (number(workers)?, number(stripes)?);
    if workers > 64 || stripes > u64::from(u32::MAX) {
        return None;
    }
    Some(Options {
        workers: workers as usize,
        stripes: stripes as u32,
        tries: number(tries)?,
        meet: number(meet)?,
    })
}
