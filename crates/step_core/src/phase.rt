//! What may be asked of an actor, by where it stands.
ghost use Rattle.std.specs.Prelude.{◌≡◌};
ghost use Rattle.step_core.specs.Answers.{request_of};
ghost use Rattle.step_core.specs.Phases.{allows, wrong_phase};

use crate::answer::{WordRefusal, WordRequest};

/// What may be asked of an actor.
#[derive(Clone, Copy)]
pub enum Phase {
    /// No transaction: Begin, BeginRead.
    Idle,
    /// A transaction that has written nothing: Read, Write, Close, Abort.
    Reader,
    /// A transaction that has written: Read, Write, Lock, Abort.
    Writer,
    /// An unanswered Begin, BeginRead, Read or Close, in whose place an Abort may be asked.
    Waiting,
    /// An unanswered Lock, in whose place a Cancel may be asked.
    Locking,
    /// All is locked and checked: Store, Cancel.
    Locked,
    /// A Lock was refused: Cancel.
    Broken,
    /// All values are stored: Release.
    Stored,
    /// A Read was refused, or a Cancel is done: Abort.
    Ended,
    /// Any other unanswered request: nothing.
    Busy,
}

impl Phase {
    /// Whether a request may be asked.
    pub fn allows(self, request: WordRequest) -> bool
        ensures { result ≡ allows self (request_of request) }
    {
        match (self, request) {
            (Phase::Idle, WordRequest::Begin | WordRequest::BeginRead) => true,
            (Phase::Reader | Phase::Writer, WordRequest::Read(_)) => true,
            (Phase::Reader | Phase::Writer, WordRequest::Write(_, _)) => true,
            (Phase::Reader, WordRequest::Close) => true,
            (Phase::Writer, WordRequest::Lock) => true,
            (Phase::Locked, WordRequest::Store) => true,
            (Phase::Stored, WordRequest::Release) => true,
            (Phase::Locking | Phase::Locked | Phase::Broken, WordRequest::Cancel) => true,
            (Phase::Reader | Phase::Writer | Phase::Waiting | Phase::Ended, WordRequest::Abort) =>
                true,
            _ => false,
        }
    }

    /// Why a request that may not be asked is refused.
    pub fn refusal(self, request: WordRequest) -> WordRefusal
        ensures { result ≡ wrong_phase self (request_of request) }
    {
        match (self, request) {
            (Phase::Waiting | Phase::Locking | Phase::Busy, _) => WordRefusal::NotIdle,
            (_, WordRequest::Begin | WordRequest::BeginRead) => WordRefusal::NotIdle,
            _ => WordRefusal::NoTransaction,
        }
    }
}
