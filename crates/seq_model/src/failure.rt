//! Why a body has no receipt.
use crate::refusal::Refusal;
use std::error::Error;
use std::fmt;

/// Why a body has no receipt. Its transaction changed nothing.
#[derive(Clone, Copy, Debug, Drop, PartialEq, Eq)]
pub enum Failure<E> {
    /// The last attempt was refused: when it began, at a call, or when it committed. It is a conflict only where all attempts are used up.
    Refused(Refusal),
    /// The body aborted: it returned this error of its own.
    Aborted(E),
}

impl<E: fmt::Display + Drop> fmt::Display for Failure<E> {
    fn fmt<W: fmt::Write>(&self, f: &mut fmt::Formatter<W>) -> fmt::Result {
        match self {
            Failure::Refused(cause) => write!(f, "{cause}"),
            Failure::Aborted(error) => write!(f, "{error}"),
        }
    }
}

impl<E: fmt::Debug + fmt::Display + Drop> Error for Failure<E> {}

impl From<Failure<Refusal>> for Refusal {
    fn from(failure: Failure<Refusal>) -> Refusal {
        match failure {
            Failure::Refused(cause) => cause,
            Failure::Aborted(cause) => cause,
        }
    }
}
