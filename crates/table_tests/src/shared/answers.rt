//! What rows are answered.
use seq_model::{Memory, Record, Refusal, Reply, Value};
use shared_table::Block;
use std::fmt::Write;

/// What a row is answered that is not refused.
#[derive(Drop)]
pub enum Answer<V> {
    Begun(u64),
    Replied(Reply<V>),
    Committed(Record<V>),
    Number(u64),
    /// Where a collection is stored.
    Stored(Block),
    Said(&'static str),
}

impl<V: Value> Answer<V> {
    /// What a call is answered.
    pub fn of(replied: Result<Reply<V>, Refusal>) -> Result<Answer<V>, Refusal> {
        match replied {
            Ok(reply) => Ok(Answer::Replied(reply)),
            Err(refusal) => Err(refusal),
        }
    }
}

/// A receipt: its number, whether it has written, and how many calls it has.
pub fn print_receipt<V>(text: &mut String, receipt: &Record<V>) -> Result<(), Memory> {
    let number = receipt.number;
    let kind = if receipt.writes { "write" } else { "read" };
    let calls = receipt.calls.len();
    write!(text, "committed {number}, {kind}, calls {calls}")?;
    Ok(())
}

/// The position of a collection.
pub fn print_block(text: &mut String, block: Block) -> Result<(), Memory> {
    let Block {
        kind,
        stripes,
        first,
    } = block;
    write!(text, "{kind:?}, {stripes} stripes, from {first}")?;
    Ok(())
}
