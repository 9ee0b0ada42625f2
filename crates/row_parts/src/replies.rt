//! Replies and calls as text.
use seq_model::{Op, Reply};
use std::alloc::AllocError;
use std::fmt::Write;

/// Prints a reply, as `Value 30`.
pub fn print_reply(text: &mut String, reply: &Reply<u64>) -> Result<(), AllocError> {
    match reply {
        Reply::Done => text.push_str("Done"),
        Reply::Full => text.push_str("Full"),
        Reply::Nothing => text.push_str("Nothing"),
        Reply::Value(value) => write!(text, "Value {value}"),
        Reply::Found(element) => write!(text, "Found {element}"),
        Reply::Number(number) => write!(text, "Number {number}"),
        Reply::Yes => text.push_str("Yes"),
        Reply::No => text.push_str("No"),
    }
}

/// The name of a call, and its numbers.
pub fn parts_of(op: &Op<u64>) -> (&'static str, Option<u64>, Option<u64>) {
    match op {
        Op::Read => ("Read", None, None),
        Op::Write(value) => ("Write", Some(*value), None),
        Op::Get(key) => ("Get", Some(*key), None),
        Op::Put(key, value) => ("Put", Some(*key), Some(*value)),
        Op::Remove(key) => ("Remove", Some(*key), None),
        Op::Len => ("Len", None, None),
        Op::Count(element) => ("Count", Some(*element), None),
        Op::Add(element) => ("Add", Some(*element), None),
        Op::Take(element) => ("Take", Some(*element), None),
        Op::Least => ("Least", None, None),
        Op::Insert(element) => ("Insert", Some(*element), None),
        Op::TakeLeast => ("TakeLeast", None, None),
        Op::Enqueue(item) => ("Enqueue", Some(*item), None),
        Op::Dequeue => ("Dequeue", None, None),
        Op::Peek => ("Peek", None, None),
    }
}
