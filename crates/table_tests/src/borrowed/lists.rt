//! Lists of calls, each with the number of the seat that makes it.
use super::calls::Placed;
use crate::shared::Told;
use row_parts::script_of;
use seq_model::{Refusal, Request};
use std::alloc::Global;
use text_formats::EventLine;

/// The calls of a script's lines with `; ` between.
pub fn calls_of<V: Told>(alloc: Global, row: &str) -> Result<Vec<Placed<V>>, Refusal> {
    let script = script_of(alloc, row)?;
    let mut calls = Vec::new(alloc);
    for line in script.lines.as_slice() {
        match line {
            EventLine::Do(seat, Request::Call(call)) => calls.push(Placed {
                seat: *seat,
                call: V::call_of(call)?,
            })?,
            _ => return Err(Refusal::NoSuch),
        }
    }
    Ok(calls)
}
