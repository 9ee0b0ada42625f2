//! Each public call once, by the crate that a user names it by, and with its arguments in their order.
//!
//! That this is compiled is what it is for: what calls answer, their limits and refusals, and transactions that overlap are those of the
//! other test programs. Where only a call's own crate can know that its condition holds, as where a seat stands in its protocol, the call
//! is made in a function with the same condition: that is compiled and proved, and never run. So it is with the step functions of the
//! shared table (`steps`), and with what a session answered in a receipt.
#![tactic(auto)]

mod bases;
mod logs;
mod model;
mod names;
mod parallel;
mod program;
mod reservations;
mod rows;
mod seats;
mod steps;
mod texts;
mod typed;
mod words;
mod worlds;

use seq_model::Refusal;
use std::alloc::Global;
use std::process::ExitCode;
use std::sync::Wait;
use std::thread::Threads;
use std::time::Clock;

/// The status of a run in which a call was refused, or that could not print.
const FAILED: u8 = 1;

fn main(rt: HostRuntime) -> ExitCode {
    let is_made = call_all(&rt, rt.alloc()).is_ok();
    let is_printed = is_made && rt.print("each call was made\n").is_ok();
    ExitCode::from(if is_printed { 0 } else { FAILED })
}

fn call_all<R: Threads + Wait + Clock + Sync>(rt: &R, alloc: Global) -> Result<(), Refusal> {
    words::call(alloc)?;
    model::call(alloc)?;
    bases::call(alloc)?;
    logs::call(alloc)?;
    worlds::call(alloc)?;
    seats::call(rt, alloc)?;
    reservations::call(rt, alloc)?;
    texts::call(alloc)?;
    program::call(rt, alloc)
}
