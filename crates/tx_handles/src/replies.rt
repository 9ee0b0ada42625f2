//! The typed answers of calls. A call never has a reply of another kind; if it had, the answer would be `NotIdle`.
ghost use Rattle.std.specs.Prelude.{◌≡◌, IfOk};
ghost use Rattle.seq_model.specs.Calls.{found_reply, value_reply};
ghost use Rattle.seq_model.specs.declared.call.Reply.TheVariants as replies;
ghost use Rattle.tx_handles.specs.MadeCall.{room_reply, yes_reply};

use seq_model::{Full, Refusal, Reply};

/// What a map holds, or held, at a key.
pub fn value_in<V: Drop>(reply: Reply<V>) -> Result<Option<V>, Refusal>
    ensures { IfOk result (λ found. reply ≡ value_reply found) }
{
    match reply {
        Reply::Value(value) => Ok(Some(value)),
        Reply::Nothing => Ok(None),
        _ => Err(Refusal::NotIdle),
    }
}

/// An element, or an item, if there was one.
pub fn found_in<V: Drop>(reply: Reply<V>) -> Result<Option<u64>, Refusal>
    ensures { IfOk result (λ found. reply ≡ found_reply found) }
{
    match reply {
        Reply::Found(element) => Ok(Some(element)),
        Reply::Nothing => Ok(None),
        _ => Err(Refusal::NotIdle),
    }
}

/// A number.
pub fn number_in<V: Drop>(reply: Reply<V>) -> Result<u64, Refusal>
    ensures { IfOk result (λ number. reply ≡ replies.Number number) }
{
    match reply {
        Reply::Number(number) => Ok(number),
        _ => Err(Refusal::NotIdle),
    }
}

/// Whether there was one.
pub fn yes_in<V: Drop>(reply: Reply<V>) -> Result<bool, Refusal>
    ensures { IfOk result (λ yes. reply ≡ yes_reply yes) }
{
    match reply {
        Reply::Yes => Ok(true),
        Reply::No => Ok(false),
        _ => Err(Refusal::NotIdle),
    }
}

/// The call was done.
pub fn done_in<V: Drop>(reply: Reply<V>) -> Result<(), Refusal>
    ensures { IfOk result (λ _. reply ≡ replies.Done) }
{
    match reply {
        Reply::Done => Ok(()),
        _ => Err(Refusal::NotIdle),
    }
}

/// Whether there was room.
pub fn room_in<V: Drop>(reply: Reply<V>) -> Result<Result<(), Full>, Refusal>
    ensures { IfOk result (λ room. reply ≡ room_reply room) }
{
    match reply {
        Reply::Done => Ok(Ok(())),
        Reply::Full => Ok(Err(Full)),
        _ => Err(Refusal::NotIdle),
    }
}
