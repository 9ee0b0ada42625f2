//! Values that rows spell. What runs transactions is written for any of them, since a search then compares no whole seats.
use replay_log::Base;
use seq_model::{Call, Memory, Refusal, Reply, Value};

/// A value that a row spells as a number, with what is printed of it.
pub trait Told: Value {
    /// The same call, on such values.
    fn call_of(call: &Call<u64>) -> Result<Call<Self>, Memory>;

    fn print_reply(text: &mut String, reply: &Reply<Self>) -> Result<(), Memory>;

    fn print_base(text: &mut String, base: &Base<Self>) -> Result<(), Refusal>;
}

impl Told for u64 {
    fn call_of(call: &Call<u64>) -> Result<Call<u64>, Memory> {
        call.try_copy()
    }

    fn print_reply(text: &mut String, reply: &Reply<u64>) -> Result<(), Memory> {
        row_parts::print_reply(text, reply)?;
        Ok(())
    }

    fn print_base(text: &mut String, base: &Base<u64>) -> Result<(), Refusal> {
        row_parts::print_base(text, base)
    }
}
