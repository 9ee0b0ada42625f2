//! What a transaction did, and the record of one that committed.
ghost use Rattle.std.specs.Prelude.{◌≡◌};

use std::marker::Model;

/// A read or a write of a word, with its reply.
#[derive(Clone, Copy, Debug, PartialEq, Eq)]
pub enum WordCall {
    /// The location, and the value that was read.
    Read(u32, u64),
    /// The location, and the value that was written.
    Write(u32, u64),
}

/// The reads and writes of a transaction, in the order in which they were made.
#[derive(Debug, Drop)]
pub struct WordCalls {
    calls: Vec<WordCall>,
}

impl Model for WordCalls {
    ghost use Rattle.std.specs.Prelude.{List};
    ghost use Rattle.step_core.specs.declared.record.WordCall.{WordCall};

    ghost Value = { List WordCall };

    ghost view = { λ a. a.calls.items };
}

impl WordCalls {
    /// These calls, in this order.
    pub fn from_vec(calls: Vec<WordCall>) -> WordCalls
        ensures { result ≡ calls.items }
    {
        WordCalls { calls }
    }

    /// The calls, given back.
    pub fn into_vec(self) -> Vec<WordCall>
        ensures { result.items ≡ self }
    {
        let calls = self.calls;
        calls
    }

    /// The calls.
    pub fn as_slice(&self) -> &[WordCall]
        ensures { result.now ≡ self.now }
    {
        self.calls.as_slice()
    }
}

/// A committed transaction.
#[derive(Debug, Drop)]
pub struct WordRecord {
    /// The actor that ran it.
    pub actor: u32,
    /// Its commit number: the write version of a writer, the read version of a reader.
    pub number: u64,
    /// Whether it wrote anything.
    pub writes: bool,
    /// Its reads and writes.
    pub calls: WordCalls,
}
