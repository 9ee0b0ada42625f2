//! The program, on no words: it says what words there are, and is refused.
use crate::rows::ensure;
use command_line::{REFUSED, file_of, run_tool};
use seq_model::Refusal;
use std::alloc::Global;
use std::io::{empty, sink};
use std::sync::Wait;
use std::thread::Threads;
use std::time::Clock;

pub fn call<R: Threads + Wait + Clock + Sync>(rt: &R, alloc: Global) -> Result<(), Refusal> {
    let named = file_of(alloc, &[]).is_ok();
    let status = run_tool(rt, alloc, &[], &mut empty(), &mut sink(), &mut sink());
    ensure(named && status == REFUSED)
}
