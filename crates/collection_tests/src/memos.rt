//! Calls on a memo of the keys that they touch.
use crate::changes::print_log;
use replay_log::Base;
use row_parts::{print_reply, script_of};
use seq_model::{Kind, Op, Refusal, Request};
use shadow::Memo;
use std::alloc::Global;
use text_formats::EventLine;

const STRIPES: u32 = 2;

/// Makes the calls on a memo, which is given what it doesn't hold, and shows its log then.
pub fn answer_remembered(text: &mut String, base: &Base<u64>, calls: &str) -> Result<(), Refusal> {
    let alloc = *text.allocator();
    let script = script_of(alloc, calls)?;
    let mut memo = memo_of(alloc, base)?;
    match remember_all(text, base, &mut memo, script.lines.as_slice()) {
        Ok(()) => Ok(print_log(text, memo.log())?),
        Err(refusal) => {
            drop(memo);
            Err(refusal)
        }
    }
}

fn remember_all(
    text: &mut String,
    base: &Base<u64>,
    memo: &mut Memo<u64>,
    lines: &[EventLine],
) -> Result<(), Refusal> {
    for line in lines {
        match line {
            EventLine::Do(_, Request::Call(asked)) => remember(text, base, memo, &asked.op)?,
            _ => return Err(Refusal::NoSuch),
        }
    }
    Ok(())
}

fn memo_of(alloc: Global, base: &Base<u64>) -> Result<Memo<u64>, Refusal> {
    match base {
        Base::Map(_) => Memo::new(alloc, STRIPES, Kind::Map),
        Base::Bag(_) => Memo::new(alloc, STRIPES, Kind::Bag),
        _ => Err(Refusal::NoSuch),
    }
}

fn remember(
    text: &mut String,
    base: &Base<u64>,
    memo: &mut Memo<u64>,
    op: &Op<u64>,
) -> Result<(), Refusal> {
    if memo.holds(op) {
        text.push_str("held ")?;
    } else {
        memo.add(base.touch(op)?)?;
    }
    let outcome = memo.answer(op)?;
    print_reply(text, &outcome.reply)?;
    text.push_str("; ")?;
    memo.ready(&outcome)?;
    memo.accept(outcome);
    Ok(())
}
