//! Why a job has no receipt.
ghost use Rattle.std.specs.Prelude.{Some};
ghost use Rattle.seq_model.specs.CauseTexts.{last_abort_text};

use crate::refusal::Refusal;
use std::fmt;
use thiserror::Error;

/// Why a job has no receipt.
#[derive(Clone, Copy, Debug, PartialEq, Eq, Error)]
pub enum LastAbort {
    /// This refused its last attempt.
    Refused(Refusal),
    /// The job itself aborted its transaction.
    GivenUp,
    /// No thread could be started for its list.
    NotStarted,
}

impl fmt::Display for LastAbort {
    ghost output = { λ cause. Some (last_abort_text cause) };

    fn fmt<W: fmt::Write>(&self, f: &mut fmt::Formatter<W>) -> fmt::Result {
        match self {
            LastAbort::Refused(refusal) => write!(f, "the last attempt was refused: {refusal}"),
            LastAbort::GivenUp => f.write_str("the job gave up, and its transaction was aborted"),
            LastAbort::NotStarted => f.write_str("no thread could be started for the job's list"),
        }
    }
}
