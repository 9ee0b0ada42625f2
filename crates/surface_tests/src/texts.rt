//! Step scripts and what is drawn: how they are read, and what is printed.
use crate::rows::ensure;
use seq_model::Refusal;
use session_text::{
    Options, Script, ScriptRun, generate, opening, parse_steps, print_sessions, print_trace,
    run_script,
};
use std::alloc::Global;
use vac_model::Tables;

/// What sessions and tables are drawn from.
const SEED: u64 = 3;

const SCRIPT: &[u8] = b"map 1\n1 do begin\n1 do call 0 put 5 50\n1 do call 0 get 5\n1 do commit\n";

pub fn call(alloc: Global) -> Result<(), Refusal> {
    call_sessions(alloc)?;
    let script: Script = parse_steps(alloc, SCRIPT)?;
    let run: ScriptRun = run_script(alloc, &script)?;
    let printed = print_trace(alloc, &run).is_ok();
    let opened = run.opening.held().len();
    let committed = run.trace.records.len();
    ensure(printed && run.notices.len() == 4 && opened == 1 && committed == 1)
}

fn call_sessions(alloc: Global) -> Result<(), Refusal> {
    let tables = Tables::new(alloc);
    let printed = print_sessions(alloc, &[], &tables).is_ok();
    drop(tables);
    let options = Options {
        clients: 1,
        queries: 1,
        percent_queried: 100,
        relations: 1,
        transactions: 10,
        percent_user: 100,
    };
    if !options.are_within() || options.clients < 1 {
        return Err(Refusal::TooLong);
    }
    let drawn = generate(alloc, SEED, 1, &options).is_ok();
    let laid_out = opening(alloc, SEED, &options).is_ok();
    ensure(printed && drawn && laid_out)
}
