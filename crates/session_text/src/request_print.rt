//! Prints a request as a script spells it.
ghost use Rattle.std.specs.Prelude.{◌≡◌, ◌++◌, OnOk};
ghost use Rattle.std.specs.String.{string_bytes};
ghost use Rattle.session_text.specs.RequestPrints.{call_text, request_text};

use seq_model::{Call, Memory, Op, Request};
use std::fmt::Write;

/// Adds a request as a script spells it.
pub fn print_request(text: &mut String, request: &Request<u64>) -> Result<(), Memory>
    ensures { OnOk result (string_bytes text.new ≡ string_bytes text.old ++ request_text request.now) }
{
    match request {
        Request::Begin => text.push_str("begin")?,
        Request::BeginRead => text.push_str("begin_read")?,
        Request::Commit => text.push_str("commit")?,
        Request::Abort => text.push_str("abort")?,
        Request::Call(call) => print_call(text, call)?,
    }
    Ok(())
}

fn print_call(text: &mut String, call: &Call<u64>) -> Result<(), Memory>
    ensures { OnOk result (string_bytes text.new ≡ string_bytes text.old ++ call_text call.now.target call.now.op) }
{
    let target = call.target;
    match &call.op {
        Op::Read => write!(text, "read {target}")?,
        Op::Write(value) => write!(text, "write {target} {value}")?,
        Op::Get(key) => write!(text, "call {target} get {key}")?,
        Op::Put(key, value) => write!(text, "call {target} put {key} {value}")?,
        Op::Remove(key) => write!(text, "call {target} remove {key}")?,
        Op::Len => write!(text, "call {target} len")?,
        Op::Count(element) => write!(text, "call {target} count {element}")?,
        Op::Add(element) => write!(text, "call {target} add {element}")?,
        Op::Take(element) => write!(text, "call {target} take {element}")?,
        Op::Least => write!(text, "call {target} least")?,
        Op::Insert(element) => write!(text, "call {target} insert {element}")?,
        Op::TakeLeast => write!(text, "call {target} take_least")?,
        Op::Enqueue(item) => write!(text, "call {target} enqueue {item}")?,
        Op::Dequeue => write!(text, "call {target} dequeue")?,
        Op::Peek => write!(text, "call {target} peek")?,
    }
    Ok(())
}
